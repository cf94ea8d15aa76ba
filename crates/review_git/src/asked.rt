//! The words that git passes to an external diff.
ghost use Rattle.std.specs.Prelude.{◌≡◌, map, MatchOption, MatchBool};
ghost use Rattle.review_git.specs.Asked.{AsksPlainly, IsGitAsked, style_of};
ghost use Rattle.review_git.specs.Sides.{AreEqual, is_hash};
ghost use Rattle.review_git.specs.declared.asked.GitAsked.{GitAsked as AskedOfGit};

/// What git passes for the hash and the mode of a side that does not exist.
const NONE: &str = ".";

/// One side: the file to read, its hash and its mode.
#[derive(Clone, Copy)]
pub struct Side<'a> {
    pub(crate) file: &'a str,
    pub(crate) hash: &'a str,
    pub(crate) mode: &'a str,
}

/// What is printed of two files that differ.
#[derive(Clone, Copy, Debug, PartialEq, Eq)]
pub(crate) enum Style {
    /// Their differences, in colour or not.
    Differences(bool),
    /// Changed lines of what `show` writes.
    Shown,
}

/// What a side is, by its mode.
#[derive(Clone, Copy, Debug, PartialEq, Eq)]
pub(crate) enum Kind {
    /// It does not exist.
    None,
    File,
    Link,
    Submodule,
}

impl Side<'_> {
    ghost use Rattle.std.specs.Prelude.{◌≡◌};
    ghost use Rattle.review_git.specs.Sides.{kind_of};

    pub(crate) fn kind(self) -> Kind
        ensures { result ≡ kind_of self.entry.mode.now }
    {
        match self.mode {
            NONE => Kind::None,
            "120000" => Kind::Link,
            "160000" => Kind::Submodule,
            _ => Kind::File,
        }
    }
}

/// The words of one file: its path, both sides, and the path that it has now and git's lines on it if it was renamed or copied.
#[derive(Clone, Copy)]
pub struct Pair<'a> {
    pub(crate) path: &'a str,
    pub(crate) left: Side<'a>,
    pub(crate) right: Side<'a>,
    pub(crate) renamed: Option<(&'a str, &'a str)>,
    pub(crate) style: Style,
}

/// What git asks for.
#[derive(Clone, Copy)]
pub enum GitAsked<'a> {
    /// A path that is not merged, of which there is nothing to compare.
    Unmerged(&'a str),
    Changed(Pair<'a>),
}

/// One side from its three words.
fn side_of<'a>(file: &'a str, hash: &'a str, mode: &'a str) -> Side<'a>
    ensures { (result.file.now ≡ file.now) × (result.hash.now ≡ hash.now) × (result.mode.now ≡ mode.now) }
{
    Side { file, hash, mode }
}

/// What the words of git ask for.
fn asked_of<'a>(words: &[&'a str], style: Style) -> Option<GitAsked<'a>>
    ensures { MatchOption result ((asked : AskedOfGit) → AsksPlainly style (map (λ s. s.now) words.now) asked → ⊥) (AsksPlainly style (map (λ s. s.now) words.now)) }
{
    match *words {
        [path] => Some(GitAsked::Unmerged(path)),
        [path, old, old_hash, old_mode, new, new_hash, new_mode] => {
            Some(GitAsked::Changed(Pair {
                path,
                left: side_of(old, old_hash, old_mode),
                right: side_of(new, new_hash, new_mode),
                renamed: None,
                style,
            }))
        }
        [
            path,
            old,
            old_hash,
            old_mode,
            new,
            new_hash,
            new_mode,
            renamed,
            lines,
        ] => {
            Some(GitAsked::Changed(Pair {
                path,
                left: side_of(old, old_hash, old_mode),
                right: side_of(new, new_hash, new_mode),
                renamed: Some((renamed, lines)),
                style,
            }))
        }
        _ => None,
    }
}

/// What an option before the words of git asks for, of an output that has colour unless it is asked otherwise.
fn style_of(option: &str, is_color: bool) -> Option<Style>
    ensures { result ≡ style_of is_color option.now }
{
    match option {
        "--lines=show" => Some(Style::Shown),
        "--color=always" => Some(Style::Differences(true)),
        "--color=never" => Some(Style::Differences(false)),
        "--color=auto" => Some(Style::Differences(is_color)),
        _ => None,
    }
}

/// What 1, 7 or 9 words ask for: a path; the path, the old file with its hash and mode, and the new one with its own; or these
/// and the new path with lines on what was renamed or copied. An option before them may ask for lines of what `show` writes, or for
/// colour; there are never so many words of both kinds, so a path of its name is none. Without one, lines are in colour if the output
/// has it. `None` if the words ask for nothing.
#[tactic(auto, using(crate::proofs::AskedLaws::none_of_no_words, crate::proofs::AskedLaws::none_of_no_option, crate::proofs::AskedLaws::by_option))]
pub fn git_asked<'a>(given: &[&'a str], is_color: bool) -> Option<GitAsked<'a>>
    ensures { MatchOption result ((asked : AskedOfGit) → IsGitAsked (map (λ s. s.now) given.now) is_color asked → ⊥) (IsGitAsked (map (λ s. s.now) given.now) is_color) }
{
    if let Some(asked) = asked_of(given, Style::Differences(is_color)) {
        return Some(asked);
    }
    let Some((first, rest)) = given.split_first() else {
        return None;
    };
    match style_of(first, is_color) {
        Some(style) => asked_of(rest, style),
        None => None,
    }
}

/// Whether a hash is one: that of a file that is not in git's store is zeros.
fn is_hash(hash: &str) -> bool
    ensures { result ≡ is_hash hash.now }
{
    hash.as_bytes().iter().any(|digit| *digit != b'0')
}

/// Whether both sides are known to have the same bytes.
pub(crate) fn are_equal(left: Side<'_>, right: Side<'_>) -> bool
    ensures { MatchBool result (AreEqual left.entry right.entry) (AreEqual left.entry right.entry → ⊥) }
{
    left.hash == right.hash && is_hash(left.hash)
}

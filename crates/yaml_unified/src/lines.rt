//! The lines of a text.
ghost use Rattle.std.specs.Prelude.{◌≡◌, ◌++◌, ◌∷◌, [], cond, true, IfOk};
ghost use Rattle.std.specs.List.{flat_map};
ghost use Rattle.yaml_definitions.specs.grammar.Characters.{b-line-feed};
ghost use Rattle.yaml_unified.specs.Script.{content};

use std::alloc::{AllocError, Global};

/// One line of a text.
#[derive(Clone, Copy)]
pub struct Piece<'t> {
    /// The line without the spaces at its end.
    pub line: &'t str,
    pub spaces: &'t str,
    /// Whether a line feed ends it: all lines but the last one have one.
    pub has_end: bool,
}

impl Piece<'_> {
    ghost use Rattle.std.specs.Prelude.{◌≡◌, true, false};
    ghost use Rattle.yaml_unified.specs.Script.{content, AreSame};

    /// Whether two lines are equal.
    pub fn is_same(&self, other: &Piece<'_>) -> bool
        ensures content { result ≡ true → content self.now ≡ content other.now }
        ensures yes { result ≡ true → AreSame self.now other.now }
        ensures no { result ≡ false → AreSame self.now other.now → ⊥ }
    {
        self.has_end == other.has_end && self.line == other.line && self.spaces == other.spaces
    }
}

/// A line without the line feed at its end, and whether it has one.
fn split_end(text: &str) -> (&str, bool)
    ensures { result.0.now ++ cond result.1 (b-line-feed ∷ []) [] ≡ text.now }
{
    match text.split_at_checked(text.len().saturating_sub(1)) {
        Some((line, "\n")) => (line, true),
        _ => (text, false),
    }
}

/// A text in two parts: the second one is the spaces at its end.
fn split_spaces(text: &str) -> (&str, &str)
    ensures { result.0.now ++ result.1.now ≡ text.now }
{
    match text.split_at_checked(text.trim_end_matches(' ').len()) {
        Some(parts) => parts,
        None => (text, ""),
    }
}

/// A line in its parts.
fn piece_of(text: &str) -> Piece<'_>
    ensures { content result ≡ text.now }
{
    let (rest, has_end) = split_end(text);
    let (line, spaces) = split_spaces(rest);
    Piece {
        line,
        spaces,
        has_end,
    }
}

/// The lines of a text, which are the text again one behind another.
pub fn pieces_of<'t>(alloc: Global, text: &'t str) -> Result<Vec<Piece<'t>>, AllocError>
    ensures ok { IfOk result (λ pieces. flat_map content pieces.items ≡ text.now) }
{
    let mut pieces = Vec::new(alloc);
    'lines: for line in text.split_inclusive('\n') {
        pieces.push(piece_of(line))?;
    }
    Ok(pieces)
}

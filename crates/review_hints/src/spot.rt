//! What is around the offset at which a text breaks off, for a hint.
ghost use Rattle.std.specs.Prelude.{◌≡◌, ◌≤◌, ◌⊎◌, [], length, take, IfOk};
ghost use Rattle.review_hints.specs.Hints.{IsScanned};

use crate::scan::Scan;
use std::alloc::{AllocError, Global};

/// An offset of a text, and what is around it.
#[derive(Drop)]
pub struct Spot<'a> {
    pub at: usize,
    pub before: &'a str,
    pub behind: &'a str,
    /// The line of the offset, up to it and from it on.
    pub line: &'a str,
    pub rest: &'a str,
    pub whole: &'a str,
    /// The last line above that is not blank, and the offset of the first character there that is no space.
    pub above: &'a str,
    pub above_at: usize,
    pub scan: Scan,
}

impl<'a> Spot<'a> {
    ghost use Rattle.std.specs.Prelude.{◌≡◌, ◌≤◌, IfOk};
    ghost use Rattle.review_hints.specs.Hints.{IsScanned};

    /// # Errors
    /// `OutOfMemory`
    pub fn new(alloc: Global, text: &'a str, at: usize) -> Result<Spot<'a>, AllocError>
        ensures at { IfOk result (λ spot. spot.at ≡ at) }
        ensures above { IfOk result (λ spot. spot.above_at ≤ spot.at) }
        ensures scan { IfOk result (λ spot. IsScanned text.now spot.at spot.scan) }
    {
        let before = front(text, at);
        let behind = text.get(at..).unwrap_or("");
        let line = before.rsplit('\n').next().unwrap_or("");
        let rest = behind.split('\n').next().unwrap_or("");
        let start = at.saturating_sub(line.len());
        let whole = text.get(start..at.saturating_add(rest.len())).unwrap_or("");
        let (above_at, above) = line_above(front(text, start));
        Ok(Spot {
            at,
            before,
            behind,
            line,
            rest: rest.trim_end(),
            whole: whole.trim_end(),
            above,
            above_at,
            scan: Scan::of(alloc, before)?,
        })
    }

    /// Whether nothing but blanks comes before the offset on its line.
    pub fn is_first(&self) -> bool {
        self.line.trim().is_empty()
    }

    /// The character at the offset.
    pub fn next(&self) -> Option<char> {
        self.behind.chars().next()
    }

    /// The offset of the first character that is no space on the line of the offset, or the offset.
    pub fn start(&self) -> usize
        ensures { result ≤ self.now.at }
    {
        let text = self.line.trim_start_matches(' ');
        self.at.saturating_sub(text.len())
    }

    /// The text before the offset on its line, from the start of its value on.
    pub fn value(&self) -> &'a str {
        value_of(self.line)
    }

    /// The lines above the line of the offset.
    pub fn lines_above(&self) -> &'a str {
        self.before
            .get(..self.before.len().saturating_sub(self.line.len()))
            .unwrap_or("")
    }

    /// The last line above that is indented at most like the line of the offset.
    pub fn host(&self) -> &'a str {
        last_within(self.lines_above(), indent_of(self.whole))
    }

    /// The last line above that is indented less than the line of the offset.
    pub fn parent(&self) -> &'a str {
        match indent_of(self.whole) {
            0 => "",
            indent => last_within(self.lines_above(), indent.saturating_sub(1)),
        }
    }

    /// The line after the line of the offset.
    pub fn next_line(&self) -> &'a str {
        self.behind.split('\n').nth(1).unwrap_or("")
    }

    /// Whether a document marker is at the offset.
    pub fn is_marker(&self) -> bool {
        self.line.is_empty() && (self.rest.starts_with("---") || self.rest.starts_with("..."))
    }
}

/// So many bytes of a text, or none where that would part a character.
fn front(text: &str, len: usize) -> &str
    ensures { (result.now ≡ []) ⊎ (result.now ≡ take len text.now) }
{
    text.get(..len).unwrap_or("")
}

/// The last line that is not blank, and the offset of the first character there that is no space.
fn line_above(text: &str) -> (usize, &str)
    ensures { result.0 ≤ length text.now }
{
    let mut end = text.len();
    for line in text.rsplit('\n') {
        let start = end.saturating_sub(line.len());
        if !line.trim().is_empty() {
            let first = start.saturating_add(indent_of(line)).min(end);
            return (first, line.trim_end());
        }
        end = start.saturating_sub(1);
    }
    (0, "")
}

/// The last line that is indented by so many spaces at most, comments left out.
pub fn last_within(text: &str, indent: usize) -> &str {
    for line in text.rsplit('\n') {
        let words = line.trim();
        if !words.is_empty() && !words.starts_with('#') && indent_of(line) <= indent {
            return line;
        }
    }
    ""
}

/// How many lines above a fault are looked at, where its cause may be on any of them.
pub const LINES: usize = 60;

/// Whether the last line of a text belongs to a block scalar, by the lines above that are indented less and less.
pub fn is_in_block(text: &str) -> bool {
    let mut indent = usize::MAX;
    for (count, line) in text.rsplit('\n').enumerate() {
        if count > LINES {
            return false;
        }
        let depth = indent_of(line);
        if !line.trim().is_empty() && depth < indent {
            if indent != usize::MAX && is_header(line) {
                return true;
            }
            indent = depth;
        }
    }
    false
}

/// Whether the line after a text may belong to a block scalar: the last line is one of it, or begins it.
pub fn is_block_line(text: &str) -> bool {
    is_header(text.rsplit('\n').next().unwrap_or("")) || is_in_block(text)
}

/// A line without its indentation, its dashes and its first key.
pub fn value_of(line: &str) -> &str {
    let mut text = line.trim_start();
    if let Some(at) = text.find(": ") {
        text = text.get(at.saturating_add(1)..).unwrap_or("").trim_start();
    }
    text.trim_start_matches("- ").trim_start()
}

/// How many spaces a line begins with.
pub fn indent_of(line: &str) -> usize {
    line.len()
        .saturating_sub(line.trim_start_matches(' ').len())
}

/// How deep the first node of a line is, after the indicators of items.
pub fn depth(line: &str) -> usize {
    line.len()
        .saturating_sub(line.trim_start_matches([' ', '-']).len())
}

/// Whether a line is an entry of a block mapping or an item of a block sequence.
pub fn is_entry(line: &str) -> bool {
    let text = line.trim();
    text.contains(": ") || text.ends_with(':') || text.starts_with("- ") || text == "-"
}

/// Whether a line is an item of a block sequence.
pub fn is_item(line: &str) -> bool {
    line.trim_start().starts_with("- ")
}

/// A line without the comment after a space, if there is one.
pub fn uncommented(line: &str) -> &str {
    line.split(" #").next().unwrap_or(line).trim()
}

/// Whether a text begins with a sign of assignment, as in another language.
pub fn is_assigned(text: &str) -> bool {
    text.starts_with("= ") || text.starts_with("=> ")
}

/// Whether a line ends with the header of a block scalar: a `|` or `>` after a key, a dash, or a tag or an anchor.
pub fn is_header(line: &str) -> bool {
    let text = uncommented(line);
    let text = text.trim_end_matches(['+', '-', '1', '2', '3', '4', '5', '6', '7', '8', '9']);
    let front = text.trim_end_matches(['|', '>']);
    let word = front.trim_end().rsplit(' ').next().unwrap_or("");
    let is_before = word.ends_with([':', '-']) || word.starts_with(['!', '&']) || word == "?";
    let is_mark = text.len().saturating_sub(front.len()) == 1;
    is_mark && (front.is_empty() || (front.ends_with(' ') && is_before))
}

//! What a syntax fault commonly is, by the text around its place.
ghost use Rattle.std.specs.Prelude.{◌≡◌, ◌≤◌, ℕ, List, true, length, IfOk, string_bytes};
ghost use Rattle.yaml_path.specs.LineModel.{IsPlace};
ghost use Rattle.review_hints.specs.Hinted.{is_line, name_of, IsHint};
ghost use Rattle.review_hints.specs.Hints.{IsScanned, IsTrue};

use crate::line_hints::{line_hint, tool_hint};
use crate::node_hints::node_hint;
use crate::open_hints::open_hint;
use crate::scan::Opened;
use crate::spot::Spot;
use crate::words::Words;
use std::alloc::{AllocError, Global};
use yaml_path::{Place, place_at};

/// The words of a hint.
#[derive(Clone, Copy)]
pub enum Hint {
    Text(&'static str),
    /// The number of the line of this offset, and words.
    Line(usize, &'static str),
    /// What was opened at a place, and words.
    Opened(Opened, &'static str),
    /// What has to be indented more than its key, and by how many spaces.
    Indent(&'static str, usize),
}

/// The name of what a character opens.
fn name_of(mark: u8) -> &'static str
    ensures { result.now ≡ name_of mark }
{
    match mark {
        b'[' => "bracket",
        b'{' => "brace",
        _ => "quote",
    }
}

/// The place of an offset of a text.
fn place_in(text: &str, at: usize) -> Place
    ensures { at ≤ length text.now → IsPlace text.now at result.line result.column }
{
    let bytes = text.as_bytes();
    if at <= bytes.len() {
        place_at(bytes, at)
    } else {
        Place { line: 1, column: 1 }
    }
}

impl Hint {
    ghost use Rattle.std.specs.Prelude.{◌≡◌, ◌≤◌, ℕ, true, length, IfOk, string_bytes};
    ghost use Rattle.review_hints.specs.Hinted.{is_line, IsHint};
    ghost use Rattle.review_hints.specs.Hints.{cause_of, IsTrue};

    /// The offset whose line or place the words tell, if they tell one.
    fn cause(self) -> Option<usize>
        ensures { result ≡ cause_of self }
    {
        match self {
            Hint::Line(at, _) => Some(at),
            Hint::Opened(opened, _) => Some(opened.at),
            Hint::Text(_) | Hint::Indent(_, _) => None,
        }
    }

    /// The hint as a text.
    fn words(self, alloc: Global, text: &str) -> Result<String, AllocError>
        requires { (at : ℕ) × IsTrue text.now at self }
        ensures line { IfOk result (λ words. is_line (string_bytes words) ≡ true) }
        ensures hint { (at : ℕ) → at ≤ length text.now → IsTrue text.now at self → IfOk result (λ words. IsHint text.now at (cause_of self) (string_bytes words)) }
    {
        match self {
            Hint::Text(words) => Ok(words.to_string(alloc)?),
            Hint::Line(at, words) => {
                let line = place_in(text, at).line;
                Ok(format!(in alloc; "line {line} {words}")?)
            }
            Hint::Opened(opened, words) => {
                let Place { line, column } = place_in(text, opened.at);
                let name = name_of(opened.mark);
                Ok(format!(in alloc; "the {name} opened at line {line}, column {column} {words}")?)
            }
            Hint::Indent(what, 1) => Ok(format!(in alloc;
                "{what} must be indented more than its key: put one space before it"
            )?),
            Hint::Indent(what, count) => Ok(format!(in alloc;
                "{what} must be indented more than its key: put {count} spaces before it"
            )?),
        }
    }
}

/// What the text around a fault shows.
fn hint_of(spot: &Spot<'_>) -> Hint
    ensures { (text : List ℕ) → spot.now.above_at ≤ spot.now.at → IsScanned text spot.now.at spot.now.scan → IsTrue text spot.now.at result }
{
    if let Some(hint) = tool_hint(spot) {
        return hint;
    }
    if let Some(hint) = line_hint(spot) {
        return hint;
    }
    if let Some(hint) = open_hint(spot) {
        return hint;
    }
    node_hint(spot)
}

/// What a syntax fault at an offset of a text commonly is. Takes time linear in the text's size.
///
/// # Errors
/// `OutOfMemory`
pub fn syntax_words(alloc: Global, text: &str, at: usize) -> Result<Words, AllocError>
    ensures line { IfOk result (λ words. is_line (string_bytes words.text) ≡ true) }
    ensures hint { at ≤ length text.now → IfOk result (λ words. IsHint text.now at words.cause (string_bytes words.text)) }
{
    let spot = Spot::new(alloc, text, at)?;
    let hint = hint_of(&spot);
    Ok(Words {
        text: hint.words(alloc, text)?,
        cause: hint.cause(),
    })
}

//! Breaks inside a scalar, the empty lines after them, and the margins of the lines that follow.
ghost use Rattle.std.specs.Prelude.{◌≡◌, ◌≢◌, ◌≤◌, ◌<◌, IfOk, IfErr, Some, slice_get, replicate, ℤ, pos, ◌≤ℤ◌, nat_abs};
ghost use Rattle.std.specs.Bool.{OnTrue, OnFalse};
ghost use Rattle.yaml_text.specs.Source.{text_of, place_of, IsBorder};
ghost use Rattle.yaml_text.specs.EventModel.{context_of};
ghost use Rattle.yaml_definitions.specs.grammar.Rules.{Stands};
ghost use Rattle.yaml_definitions.specs.grammar.Characters.{is_space, is_white, is_ns};
ghost use Rattle.yaml_definitions.specs.grammar.Separation.{StartsLine, DocumentMark, s-indent as indent, s-indent-less-than as less};
ghost use Rattle.yaml_definitions.specs.grammar.FlowScalars.{line_feeds};
ghost use Rattle.yaml_scalar.specs.Chains.{margin, lead, breaks, NoLead, NoBreaks};

use yaml_text::chars::Chars;
use yaml_text::class::is_key;
use yaml_text::context::Ctx;
use yaml_text::lines::{is_mark, line_break, skip_whites};
use yaml_text::places::{accept, next};

/// An indentation that is not negative, as a count of spaces.
pub fn columns(n: i32) -> usize
    requires { pos 0 ≤ℤ n }
    ensures { result ≡ nat_abs n }
{
    n as usize
}

/// How many spaces stand at a border, but at most `most`, and the border after them.
pub fn read_spaces(source: &Chars<'_>, at: usize, most: usize) -> (usize, usize)
    requires { IsBorder source.now at }
    ensures border { IsBorder source.now result.1 }
    ensures onward { at ≤ result.1 }
    ensures spaces { indent (text_of source.now) result.0 (place_of source.now at) (place_of source.now result.1) }
    ensures within { result.0 ≤ most }
    ensures furthest { result.0 < most → Stands (text_of source.now) is_space (place_of source.now result.1) → ⊥ }
{
    let mut count = 0;
    let mut here = at;
    'spaces: loop {
        if count == most {
            return (count, here);
        }
        match accept(source, here, ' ') {
            None => return (count, here),
            Some(to) => {
                count += 1;
                here = to;
            }
        }
    }
}

/// Up to `most` spaces, and the whites after them where there are so many.
pub fn read_margin(source: &Chars<'_>, at: usize, most: usize) -> (usize, bool)
    requires { IsBorder source.now at }
    ensures border { IsBorder source.now result.0 }
    ensures onward { at ≤ result.0 }
    ensures whole { OnTrue result.1 (margin (text_of source.now) most (place_of source.now at) (place_of source.now result.0)
        × (Stands (text_of source.now) is_white (place_of source.now result.0) → ⊥)) }
    ensures short { OnFalse result.1 (less (text_of source.now) most (place_of source.now at) (place_of source.now result.0)
        × (slice_get (text_of source.now) (place_of source.now result.0) ≢ Some 32)) }
{
    let (count, here) = read_spaces(source, at, most);
    if count == most {
        return (skip_whites(source, here), true);
    }
    (here, false)
}

/// After a break: how many empty lines stand there, and the border where the next line's text begins. Where no text may
/// follow, the border of what bars it.
pub fn read_lead(source: &Chars<'_>, at: usize, least: usize) -> Result<(usize, usize), usize>
    requires border { IsBorder source.now at }
    requires start { StartsLine (text_of source.now) (place_of source.now at) }
    ensures border { IfOk result (λ r. IsBorder source.now r.1) }
    ensures onward { IfOk result (λ r. at ≤ r.1) }
    ensures lead { IfOk result (λ r. lead (text_of source.now) least (place_of source.now at) (place_of source.now r.1) (line_feeds r.0)) }
    ensures text { IfOk result (λ r. Stands (text_of source.now) is_ns (place_of source.now r.1)) }
    ensures unmarked { IfOk result (λ r. DocumentMark (text_of source.now) (place_of source.now r.1) → ⊥) }
    ensures none { IfErr result (λ _. NoLead (text_of source.now) least (place_of source.now at)) }
    ensures barred { IfErr result (λ stop. IsBorder source.now stop) }
{
    let mut line = at;
    let mut count = 0;
    'lines: loop {
        let (after, whole) = read_margin(source, line, least);
        match line_break(source, after) {
            Some(to) => {
                line = to;
                count += 1;
            }
            None => {
                if !whole {
                    return Err(after);
                }
                if after == line && is_mark(source, line) {
                    return Err(after);
                }
                match next(source, after) {
                    None => return Err(after),
                    Some(_) => return Ok((count, after)),
                }
            }
        }
    }
}

/// A break, the empty lines after it and the margin of the next line: how many empty lines, and the border where the text
/// of that line begins. Where no text may follow, the border of what bars it.
pub fn read_break(
    source: &Chars<'_>,
    at: usize,
    least: usize,
    context: Ctx,
) -> Result<(usize, usize), usize>
    requires { IsBorder source.now at }
    ensures breaks { IfOk result (λ r. breaks (text_of source.now) least (context_of context) (place_of source.now at) (place_of source.now r.1) (line_feeds r.0)) }
    ensures onward { IfOk result (λ r. at < r.1) }
    ensures border { IfOk result (λ r. IsBorder source.now r.1) }
    ensures text { IfOk result (λ r. Stands (text_of source.now) is_ns (place_of source.now r.1)) }
    ensures unmarked { IfOk result (λ r. DocumentMark (text_of source.now) (place_of source.now r.1) → ⊥) }
    ensures none { IfErr result (λ _. NoBreaks (text_of source.now) least (context_of context) (place_of source.now at)) }
    ensures barred { IfErr result (λ stop. IsBorder source.now stop) }
{
    if is_key(context) {
        return Err(at);
    }
    match line_break(source, at) {
        None => Err(at),
        Some(start) => match read_lead(source, start, least) {
            Err(stop) => Err(stop),
            Ok((count, to)) => Ok((count, to)),
        },
    }
}

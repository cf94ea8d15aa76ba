//! Double-quoted scalars (YAML 1.2.2, 7.3.1).
ghost use Rattle.std.specs.Prelude.{◌≡◌, ◌<◌, ◌+◌, ℕ, IfSome, IfNone, IfOk, IsUtf8, IfErr, Some, slice_get, replicate, ℤ, pos, ◌≤ℤ◌, nat_abs};
ghost use Rattle.std.specs.Str.{chars};
ghost use Rattle.std.specs.Cow.{cow_str_bytes};
ghost use Rattle.yaml_definitions.specs.grammar.Characters.{c-escape};
ghost use Rattle.yaml_text.specs.LeafAnswer.{Only};
ghost use Rattle.yaml_text.specs.EventModel.{context_of};
ghost use Rattle.yaml_text.specs.Placed.{IsPlaced};
ghost use Rattle.yaml_text.specs.Source.{text_of, place_of, IsBorder};
ghost use Rattle.yaml_definitions.specs.grammar.FlowScalars.{c-double-quoted as double, line_feeds};
ghost use Rattle.yaml_definitions.specs.grammar.Separation.{DocumentMark};
ghost use Rattle.yaml_scalar.specs.Chains.{breaks, SolidStart, NoSolidBreaks};
ghost use Rattle.yaml_text.specs.Lines.{line_brk};
ghost use Rattle.yaml_text.specs.LeafAnswer.{Answers};
ghost use Rattle.yaml_text.specs.LeafAnswer.{IsSyntaxFault};

use crate::escape::read_escape;
use crate::line::{columns, read_break};
use crate::quoted::quoted_run;
use crate::text::{push_between, push_fold, push_lines};
use std::alloc::Global;
use std::borrow::CowStr;
use yaml_text::chars::Chars;
use yaml_text::context::Ctx;
use yaml_text::fault::Fault;
use yaml_text::lines::{line_break, unusable};
use yaml_text::places::{accept, text_between};

/// The border between a backslash and a break, where they stand at a border.
fn escaped_break(source: &Chars<'_>, at: usize) -> Option<usize>
    requires { IsBorder source.now at }
    ensures border { IfSome result (λ to. IsBorder source.now to) }
    ensures onward { IfSome result (λ to. at < to) }
    ensures mark { IfSome result (λ _. slice_get (text_of source.now) (place_of source.now at) ≡ Some c-escape) }
    ensures next { IfSome result (λ to. place_of source.now to ≡ place_of source.now at + 1) }
    ensures line { IfSome result (λ to. (j : ℕ) × line_brk (text_of source.now) (place_of source.now to) j) }
    ensures none { IfNone result (slice_get (text_of source.now) (place_of source.now at) ≡ Some c-escape → (j : ℕ) → line_brk (text_of source.now) (place_of source.now at + 1) j → ⊥) }
{
    match accept(source, at, '\\') {
        None => None,
        Some(to) => match line_break(source, to) {
            None => None,
            Some(_) => Some(to),
        },
    }
}

/// A break, the empty lines after it and the margin of the next line, before text that begins no escaped break: how many
/// empty lines, and the border where the text begins.
fn read_solid_break(
    source: &Chars<'_>,
    at: usize,
    least: usize,
    context: Ctx,
) -> Result<(usize, usize), Fault>
    requires { IsBorder source.now at }
    ensures breaks { IfOk result (λ r. breaks (text_of source.now) least (context_of context) (place_of source.now at) (place_of source.now r.1) (line_feeds r.0)) }
    ensures onward { IfOk result (λ r. at < r.1) }
    ensures border { IfOk result (λ r. IsBorder source.now r.1) }
    ensures solid { IfOk result (λ r. SolidStart (text_of source.now) (place_of source.now r.1)) }
    ensures unmarked { IfOk result (λ r. DocumentMark (text_of source.now) (place_of source.now r.1) → ⊥) }
    ensures none { IfErr result (λ _. NoSolidBreaks (text_of source.now) least (context_of context) (place_of source.now at)) }
    ensures fault { IfErr result IsSyntaxFault }
    ensures placed { IfErr result (IsPlaced source.now) }
{
    match read_break(source, at, least, context) {
        Err(barred) => Err(unusable(source, barred)),
        Ok((count, to)) => match escaped_break(source, to) {
            None => Ok((count, to)),
            Some(second) => Err(Fault::Syntax(source.pos(second))),
        },
    }
}

/// The same as `read_double`, with the indentation as a count.
fn double_from<'a>(
    alloc: Global,
    source: &Chars<'a>,
    at: usize,
    least: usize,
    context: Ctx,
) -> Result<(CowStr<'a>, usize), Fault>
    requires { IsBorder source.now at }
    ensures border { IfOk result (λ r. IsBorder source.now r.1) }
    ensures onward { IfOk result (λ r. at < r.1) }
    ensures utf8 { IfOk result (λ r. IsUtf8 (cow_str_bytes r.0)) }
    ensures reads { Answers Only (double (text_of source.now) least (context_of context)) (place_of source.now at)
        (λ r. place_of source.now r.1) (λ r. chars (cow_str_bytes r.0)) result }
    ensures placed { IfErr result (IsPlaced source.now) }
{
    let Some(start) = accept(source, at, '"') else {
        return Err(Fault::Syntax(source.pos(at)));
    };
    let mut text = String::new(alloc);
    let mut from = start;
    'pieces: loop {
        let (end, stop) = quoted_run(source, from, '"');
        if let Some(after) = accept(source, stop, '"') {
            if from == start {
                return Ok((CowStr::Borrowed(text_between(source, start, stop)), after));
            }
            push_between(&mut text, source, from, stop)?;
            text.shrink_to_fit();
            return Ok((CowStr::Owned(text), after));
        }
        if let Some((c, after)) = read_escape(source, stop) {
            push_between(&mut text, source, from, stop)?;
            text.push(c)?;
            from = after;
        } else if let Some(line) = escaped_break(source, stop) {
            let (count, to) = read_solid_break(source, line, least, context)?;
            push_between(&mut text, source, from, stop)?;
            push_lines(&mut text, count)?;
            from = to;
        } else if let Some(_) = accept(source, stop, '\\') {
            return Err(Fault::BadEscape(source.pos(stop)));
        } else {
            let (count, to) = read_solid_break(source, stop, least, context)?;
            push_between(&mut text, source, from, end)?;
            push_fold(&mut text, count)?;
            from = to;
        }
    }
}

/// A double-quoted scalar: its content, and the border after its closing quote.
///
/// Offsets count bytes of the text. The following lines are indented by at least `n` spaces. Where no double-quoted scalar
/// begins at `at` the answer is `BadEscape` for a backslash that begins no escape, `Tab` for a tab in the indentation and
/// else `Syntax`, and `OutOfMemory` where content that does not stand in the text as it is finds no room.
pub fn read_double<'a>(
    alloc: Global,
    source: &Chars<'a>,
    at: usize,
    n: i32,
    context: Ctx,
) -> Result<(CowStr<'a>, usize), Fault>
    requires border { IsBorder source.now at }
    requires indentation { pos 0 ≤ℤ n }
    ensures border { IfOk result (λ r. IsBorder source.now r.1) }
    ensures onward { IfOk result (λ r. at < r.1) }
    ensures utf8 { IfOk result (λ r. IsUtf8 (cow_str_bytes r.0)) }
    ensures reads { Answers Only (double (text_of source.now) (nat_abs n) (context_of context)) (place_of source.now at)
        (λ r. place_of source.now r.1) (λ r. chars (cow_str_bytes r.0)) result }
    ensures placed { IfErr result (IsPlaced source.now) }
{
    double_from(alloc, source, at, columns(n), context)
}

//! Single-quoted scalars (YAML 1.2.2, 7.3.2).
ghost use Rattle.std.specs.Prelude.{◌≡◌, ◌<◌, IfOk, IsUtf8, ℤ, pos, ◌≤ℤ◌, nat_abs, IfErr};
ghost use Rattle.std.specs.Str.{chars};
ghost use Rattle.std.specs.Cow.{cow_str_bytes};
ghost use Rattle.yaml_text.specs.LeafAnswer.{Only};
ghost use Rattle.yaml_text.specs.EventModel.{context_of};
ghost use Rattle.yaml_text.specs.Placed.{IsPlaced};
ghost use Rattle.yaml_text.specs.Source.{text_of, place_of, IsBorder};
ghost use Rattle.yaml_definitions.specs.grammar.FlowScalars.{c-single-quoted as single};
ghost use Rattle.yaml_text.specs.LeafAnswer.{Answers};

use crate::line::{columns, read_break};
use crate::quoted::quoted_run;
use crate::text::{push_between, push_fold};
use std::alloc::Global;
use std::borrow::CowStr;
use yaml_text::chars::Chars;
use yaml_text::context::Ctx;
use yaml_text::fault::Fault;
use yaml_text::lines::unusable;
use yaml_text::places::{accept, text_between};

/// The same as `read_single`, with the indentation as a count.
fn single_from<'a>(
    alloc: Global,
    source: &Chars<'a>,
    at: usize,
    least: usize,
    context: Ctx,
) -> Result<(CowStr<'a>, usize), Fault>
    requires { IsBorder source.now at }
    ensures border { IfOk result (λ r. IsBorder source.now r.1) }
    ensures onward { IfOk result (λ r. at < r.1) }
    ensures utf8 { IfOk result (λ r. IsUtf8 (cow_str_bytes r.0)) }
    ensures reads { Answers Only (single (text_of source.now) least (context_of context)) (place_of source.now at)
        (λ r. place_of source.now r.1) (λ r. chars (cow_str_bytes r.0)) result }
    ensures placed { IfErr result (IsPlaced source.now) }
{
    let Some(start) = accept(source, at, '\'') else {
        return Err(Fault::Syntax(source.pos(at)));
    };
    let mut text = String::new(alloc);
    let mut from = start;
    'pieces: loop {
        let (end, stop) = quoted_run(source, from, '\'');
        match accept(source, stop, '\'') {
            Some(quote) => match accept(source, quote, '\'') {
                None => {
                    if from == start {
                        return Ok((CowStr::Borrowed(text_between(source, start, stop)), quote));
                    }
                    push_between(&mut text, source, from, stop)?;
                    text.shrink_to_fit();
                    return Ok((CowStr::Owned(text), quote));
                }
                Some(after) => {
                    push_between(&mut text, source, from, quote)?;
                    from = after;
                }
            },
            None => match read_break(source, stop, least, context) {
                Err(barred) => return Err(unusable(source, barred)),
                Ok((count, to)) => {
                    push_between(&mut text, source, from, end)?;
                    push_fold(&mut text, count)?;
                    from = to;
                }
            },
        }
    }
}

/// A single-quoted scalar: its content, and the border after its closing quote.
///
/// Offsets count bytes of the text. The following lines are indented by at least `n` spaces. Where no single-quoted scalar
/// begins at `at` the answer is `Tab` for a tab in the indentation and else `Syntax`, and `OutOfMemory` where content that
/// does not stand in the text as it is finds no room.
pub fn read_single<'a>(
    alloc: Global,
    source: &Chars<'a>,
    at: usize,
    n: i32,
    context: Ctx,
) -> Result<(CowStr<'a>, usize), Fault>
    requires border { IsBorder source.now at }
    requires indentation { pos 0 ≤ℤ n }
    ensures border { IfOk result (λ r. IsBorder source.now r.1) }
    ensures onward { IfOk result (λ r. at < r.1) }
    ensures utf8 { IfOk result (λ r. IsUtf8 (cow_str_bytes r.0)) }
    ensures reads { Answers Only (single (text_of source.now) (nat_abs n) (context_of context)) (place_of source.now at)
        (λ r. place_of source.now r.1) (λ r. chars (cow_str_bytes r.0)) result }
    ensures placed { IfErr result (IsPlaced source.now) }
{
    single_from(alloc, source, at, columns(n), context)
}

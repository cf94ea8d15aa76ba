//! Plain scalars (YAML 1.2.2, 7.3.3).
ghost use Rattle.std.specs.Prelude.{◌≡◌, ◌≤◌, ◌<◌, IfSome, IfNone, IfOk, IfErr, IsUtf8, slice_get, slice_range, replicate, ℕ, List, false, ℤ, pos, ◌≤ℤ◌, nat_abs};
ghost use Rattle.std.specs.Bool.{OnTrue, OnFalse};
ghost use Rattle.std.specs.Str.{chars};
ghost use Rattle.std.specs.Cow.{cow_str_bytes};
ghost use Rattle.yaml_text.specs.LeafAnswer.{Furthest};
ghost use Rattle.yaml_text.specs.EventModel.{context_of};
ghost use Rattle.yaml_text.specs.Place.{Steps};
ghost use Rattle.yaml_text.specs.Placed.{IsPlaced};
ghost use Rattle.yaml_text.specs.Source.{bytes_of, text_of, place_of, IsBorder};
ghost use Rattle.yaml_text.specs.LeafAnswer.{Unread};
ghost use Rattle.yaml_definitions.specs.grammar.Characters.{is_white};
ghost use Rattle.yaml_definitions.specs.grammar.FlowScalars.{plain_safe, PlainFirst, ns-plain as plain, line_feeds};
ghost use Rattle.yaml_definitions.specs.grammar.Rules.{run, Stands, any};
ghost use Rattle.yaml_definitions.specs.grammar.Separation.{DocumentMark};
ghost use Rattle.yaml_scalar.specs.Chains.{breaks, GoesOnBelow, Later, NoPlainLine, line_more, plain_inner};
ghost use Rattle.yaml_text.specs.LeafAnswer.{Answers};

use crate::class::{is_plain_head, is_plain_inner, is_plain_sign, plain_len};
use crate::line::{columns, read_break};
use crate::text::{push_between, push_fold};
use std::alloc::Global;
use std::borrow::CowStr;
use yaml_text::chars::Chars;
use yaml_text::class::{is_plain_safe, is_white};
use yaml_text::context::Ctx;
use yaml_text::fault::Fault;
use yaml_text::lines::{line_break, stands_mark};
use yaml_text::places::{next, text_between};

/// Whether a plain-safe character stands at a border.
fn is_safe_at(source: &Chars<'_>, at: usize, context: Ctx) -> bool
    requires { IsBorder source.now at }
    ensures yes { OnTrue result (Stands (text_of source.now) (plain_safe (context_of context)) (place_of source.now at)) }
    ensures no { OnFalse result (Stands (text_of source.now) (plain_safe (context_of context)) (place_of source.now at) → ⊥) }
{
    match next(source, at) {
        None => false,
        Some((c, _)) => is_plain_safe(context, c),
    }
}

/// Whether the character before `to` may stand in a plain scalar after its first.
fn is_later(source: &Chars<'_>, at: usize, c: char, to: usize, context: Ctx) -> bool
    requires { Steps (bytes_of source.now) at c to }
    ensures yes { OnTrue result (Later (text_of source.now) (context_of context) (place_of source.now at)) }
    ensures no { OnFalse result (Later (text_of source.now) (context_of context) (place_of source.now at) → ⊥) }
{
    if c == ':' {
        is_safe_at(source, to, context)
    } else {
        is_plain_inner(context, c)
    }
}

/// Whether the character before `to` may begin a plain scalar.
fn is_first(source: &Chars<'_>, at: usize, c: char, to: usize, context: Ctx) -> bool
    requires { Steps (bytes_of source.now) at c to }
    ensures yes { OnTrue result (PlainFirst (text_of source.now) (context_of context) (place_of source.now at)) }
    ensures no { OnFalse result (PlainFirst (text_of source.now) (context_of context) (place_of source.now at) → ⊥) }
{
    if is_plain_sign(c) {
        is_safe_at(source, to, context)
    } else {
        is_plain_head(c)
    }
}

/// Whether a plain scalar that could end at `end` goes on, on its line, with the whites up to `at` and the character there.
fn goes_on(source: &Chars<'_>, end: usize, at: usize, c: char, to: usize, context: Ctx) -> bool
    requires ends { IsBorder source.now end }
    requires border { IsBorder source.now at }
    requires onward { end ≤ at }
    requires whites { run (text_of source.now) is_white (place_of source.now end) (place_of source.now at) }
    requires steps { Steps (bytes_of source.now) at c to }
    requires text { is_white c ≡ false }
    ensures yes { OnTrue result (line_more (text_of source.now) (context_of context) (place_of source.now end) (place_of source.now to)
        (slice_range (text_of source.now) (place_of source.now end) (place_of source.now to))) }
    ensures no { OnFalse result (Unread (line_more (text_of source.now) (context_of context)) (place_of source.now end)) }
{
    if c == '#' {
        end == at
    } else {
        is_later(source, at, c, to, context)
    }
}

/// The border after the ASCII characters from a border on that are plain whatever their neighbours are, which are not decoded.
fn skip_plain(source: &Chars<'_>, at: usize, context: Ctx) -> usize
    requires { IsBorder source.now at }
    ensures border { IsBorder source.now result }
    ensures onward { at ≤ result }
    ensures plain { run (text_of source.now) (plain_inner (context_of context)) (place_of source.now at) (place_of source.now result) }
{
    at + plain_len(source.rest(at).as_bytes())
}

/// How far a plain scalar that has come to `from` goes on its line: its furthest end, and the end of the whites after it.
fn line_end(source: &Chars<'_>, from: usize, context: Ctx) -> (usize, usize)
    requires { IsBorder source.now from }
    ensures border { IsBorder source.now result.0 }
    ensures onward { from ≤ result.0 }
    ensures stop { IsBorder source.now result.1 }
    ensures further { result.0 ≤ result.1 }
    ensures line { any (line_more (text_of source.now) (context_of context)) (place_of source.now from) (place_of source.now result.0)
        (slice_range (text_of source.now) (place_of source.now from) (place_of source.now result.0)) }
    ensures furthest { Unread (line_more (text_of source.now) (context_of context)) (place_of source.now result.0) }
    ensures whites { run (text_of source.now) is_white (place_of source.now result.0) (place_of source.now result.1) }
    ensures no_white { Stands (text_of source.now) is_white (place_of source.now result.1) → ⊥ }
{
    let mut end = skip_plain(source, from, context);
    let mut here = end;
    'line: loop {
        match next(source, here) {
            None => return (end, here),
            Some((c, to)) => {
                if is_white(c) {
                    here = to;
                } else if goes_on(source, end, here, c, to, context) {
                    end = skip_plain(source, to, context);
                    here = end;
                } else {
                    return (end, here);
                }
            }
        }
    }
}

/// The same as `next_line`. Out of line, since at most scalars' ends no break stands.
#[inline(never)]
fn line_below(
    source: &Chars<'_>,
    stop: usize,
    least: usize,
    context: Ctx,
) -> Option<(usize, usize, usize)>
    requires { IsBorder source.now stop }
    ensures breaks { IfSome result (λ r. breaks (text_of source.now) least (context_of context) (place_of source.now stop) (place_of source.now r.1) (line_feeds r.0)) }
    ensures onward { IfSome result (λ r. stop < r.1) }
    ensures border { IfSome result (λ r. IsBorder source.now r.1) }
    ensures steps { IfSome result (λ r. (c : ℕ) × Steps (bytes_of source.now) r.1 c r.2) }
    ensures later { IfSome result (λ r. Later (text_of source.now) (context_of context) (place_of source.now r.1)) }
    ensures unmarked { IfSome result (λ r. DocumentMark (text_of source.now) (place_of source.now r.1) → ⊥) }
    ensures none { IfNone result (NoPlainLine (text_of source.now) least (context_of context) (place_of source.now stop)) }
{
    match read_break(source, stop, least, context) {
        Err(_) => None,
        Ok((count, at)) => match next(source, at) {
            None => None,
            Some((c, to)) => {
                if is_later(source, at, c, to, context) {
                    Some((count, at, to))
                } else {
                    None
                }
            }
        },
    }
}

/// Where a plain scalar goes on after the break at `stop`: how many empty lines follow, and the borders round the character
/// that it goes on with.
#[inline(always)]
fn next_line(
    source: &Chars<'_>,
    stop: usize,
    least: usize,
    context: Ctx,
) -> Option<(usize, usize, usize)>
    requires { IsBorder source.now stop }
    ensures breaks { IfSome result (λ r. breaks (text_of source.now) least (context_of context) (place_of source.now stop) (place_of source.now r.1) (line_feeds r.0)) }
    ensures onward { IfSome result (λ r. stop < r.1) }
    ensures border { IfSome result (λ r. IsBorder source.now r.1) }
    ensures steps { IfSome result (λ r. (c : ℕ) × Steps (bytes_of source.now) r.1 c r.2) }
    ensures later { IfSome result (λ r. Later (text_of source.now) (context_of context) (place_of source.now r.1)) }
    ensures unmarked { IfSome result (λ r. DocumentMark (text_of source.now) (place_of source.now r.1) → ⊥) }
    ensures none { IfNone result (NoPlainLine (text_of source.now) least (context_of context) (place_of source.now stop)) }
{
    match line_break(source, stop) {
        None => None,
        Some(_) => line_below(source, stop, least, context),
    }
}

/// The same as `read_plain`, with the indentation as a count.
#[inline(always)]
fn plain_from<'a>(
    alloc: Global,
    source: &Chars<'a>,
    at: usize,
    least: usize,
    context: Ctx,
) -> Result<(CowStr<'a>, usize), Fault>
    requires { IsBorder source.now at }
    ensures border { IfOk result (λ r. IsBorder source.now r.1) }
    ensures onward { IfOk result (λ r. at < r.1) }
    ensures utf8 { IfOk result (λ r. IsUtf8 (cow_str_bytes r.0)) }
    ensures reads { Answers Furthest (plain (text_of source.now) least (context_of context)) (place_of source.now at)
        (λ r. place_of source.now r.1) (λ r. chars (cow_str_bytes r.0)) result }
    ensures memory { IfErr result (λ fault. fault ≡ Fault.OutOfMemory → GoesOnBelow (text_of source.now) least (context_of context) (place_of source.now at)) }
    ensures placed { IfErr result (IsPlaced source.now) }
{
    let Some((c, first)) = next(source, at) else {
        return Err(Fault::Syntax(source.pos(at)));
    };
    if !is_first(source, at, c, first, context) || stands_mark(source, at) {
        return Err(Fault::Syntax(source.pos(at)));
    }
    let (line, line_stop) = line_end(source, first, context);
    match next_line(source, line_stop, least, context) {
        None => Ok((CowStr::Borrowed(text_between(source, at, line)), line)),
        Some((empty, from, after)) => {
            let mut text = String::new(alloc);
            push_between(&mut text, source, at, line)?;
            let mut count = empty;
            let mut start = from;
            let mut to = after;
            let mut end = line;
            'lines: loop {
                push_fold(&mut text, count)?;
                let (last, stop) = line_end(source, to, context);
                end = last;
                push_between(&mut text, source, start, end)?;
                match next_line(source, stop, least, context) {
                    None => {
                        text.shrink_to_fit();
                        return Ok((CowStr::Owned(text), end));
                    }
                    Some((more_empty, more_from, more_after)) => {
                        count = more_empty;
                        start = more_from;
                        to = more_after;
                    }
                }
            }
        }
    }
}

/// A plain scalar: its content, and the border after it, the furthest that there is.
///
/// Offsets count bytes of the text. The following lines are indented by at least `n` spaces. Where no plain scalar begins
/// at `at` the answer is `Syntax`, and `OutOfMemory` where the content of several lines finds no room.
#[inline(always)]
pub fn read_plain<'a>(
    alloc: Global,
    source: &Chars<'a>,
    at: usize,
    n: i32,
    context: Ctx,
) -> Result<(CowStr<'a>, usize), Fault>
    requires border { IsBorder source.now at }
    requires indentation { pos 0 ≤ℤ n }
    ensures border { IfOk result (λ r. IsBorder source.now r.1) }
    ensures onward { IfOk result (λ r. at < r.1) }
    ensures utf8 { IfOk result (λ r. IsUtf8 (cow_str_bytes r.0)) }
    ensures reads { Answers Furthest (plain (text_of source.now) (nat_abs n) (context_of context)) (place_of source.now at)
        (λ r. place_of source.now r.1) (λ r. chars (cow_str_bytes r.0)) result }
    ensures memory { IfErr result (λ fault. fault ≡ Fault.OutOfMemory → GoesOnBelow (text_of source.now) (nat_abs n) (context_of context) (place_of source.now at)) }
    ensures placed { IfErr result (IsPlaced source.now) }
{
    plain_from(alloc, source, at, columns(n), context)
}

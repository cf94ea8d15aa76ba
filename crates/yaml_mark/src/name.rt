//! Anchors' and aliases' names (YAML 1.2.2, 6.9.2 and 7.1).
ghost use Rattle.std.specs.Prelude.{◌<◌, IfOk, IfErr, IfSome, IfNone, ℕ};
ghost use Rattle.std.specs.Str.{chars, IsUtf8};
ghost use Rattle.std.specs.Cow.{cow_str_bytes};
ghost use Rattle.yaml_text.specs.LeafAnswer.{Only};
ghost use Rattle.yaml_text.specs.Placed.{IsPlaced};
ghost use Rattle.yaml_text.specs.Source.{text_of, place_of, IsBorder};
ghost use Rattle.yaml_text.specs.Calls as calls;
ghost use Rattle.yaml_text.specs.LeafAnswer.{Unread};
ghost use Rattle.yaml_mark.specs.MarkFaults.{NameRefuses};
ghost use Rattle.yaml_mark.specs.Parts.{sign};

use crate::runs::{Class, skip_run};
use std::alloc::Global;
use std::borrow::CowStr;
use yaml_text::chars::Chars;
use yaml_text::fault::Fault;
use yaml_text::places::{accept, text_between};

/// The border after the sign of an anchor or alias.
fn read_sign(source: &Chars<'_>, at: usize) -> Option<usize>
    requires { IsBorder source.now at }
    ensures border { IfSome result (λ to. IsBorder source.now to) }
    ensures onward { IfSome result (λ to. at < to) }
    ensures some { IfSome result (λ to. sign (text_of source.now) (place_of source.now at) (place_of source.now to)) }
    ensures none { IfNone result ((j : ℕ) → sign (text_of source.now) (place_of source.now at) j → ⊥) }
{
    match accept(source, at, '&') {
        Some(to) => Some(to),
        None => match accept(source, at, '*') {
            Some(to) => Some(to),
            None => None,
        },
    }
}

/// The name of the anchor or alias at `at`, and the border after it.
///
/// Offsets count bytes of the text. The name is a slice of the text, so no memory is asked for. Where no anchor and no alias
/// stands the answer is `Syntax` at the first character that can't be used, or at the end.
pub fn read_name<'a>(
    _alloc: Global,
    source: &Chars<'a>,
    at: usize,
) -> Result<(CowStr<'a>, usize), Fault>
    requires { IsBorder source.now at }
    ensures border { IfOk result (λ r. IsBorder source.now r.1) }
    ensures onward { IfOk result (λ r. at < r.1) }
    ensures utf8 { IfOk result (λ r. IsUtf8 (cow_str_bytes r.0)) }
    ensures only { IfOk result (λ r. Only (calls.read_name (text_of source.now)) (place_of source.now at) (place_of source.now r.1) (chars (cow_str_bytes r.0))) }
    ensures refused { IfErr result (λ e. NameRefuses e (Unread (calls.read_name (text_of source.now)) (place_of source.now at))) }
    ensures placed { IfErr result (IsPlaced source.now) }
{
    let start = match read_sign(source, at) {
        Some(to) => to,
        None => return Err(Fault::Syntax(source.pos(at))),
    };
    let end = skip_run(source, start, Class::Name);
    if end == start {
        return Err(Fault::Syntax(source.pos(end)));
    }
    Ok((CowStr::Borrowed(text_between(source, start, end)), end))
}

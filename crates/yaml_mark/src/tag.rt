//! Tags (YAML 1.2.2, 6.9.1).
ghost use Rattle.std.specs.Prelude.{◌≡◌, ◌≢◌, ◌+◌, ◌≤◌, ◌<◌, IfOk, IfErr, Some, slice_get};
ghost use Rattle.std.specs.Option.{option_map};
ghost use Rattle.yaml_definitions.specs.grammar.Characters.{c-tag};
ghost use Rattle.yaml_text.specs.LeafAnswer.{Only};
ghost use Rattle.yaml_text.specs.EventModel.{written_of};
ghost use Rattle.yaml_text.specs.Placed.{IsPlaced};
ghost use Rattle.yaml_text.specs.Source.{text_of, place_of, IsBorder};
ghost use Rattle.yaml_text.specs.Calls as calls;
ghost use Rattle.yaml_text.specs.LeafAnswer.{Unread};
ghost use Rattle.yaml_definitions.specs.grammar.Rules.{chr};
ghost use Rattle.yaml_definitions.specs.grammar.Tags as grammar;
ghost use Rattle.yaml_mark.specs.MarkFaults.{TagRefuses};
ghost use Rattle.yaml_mark.specs.HandlesModel.{handles_of};
ghost use Rattle.yaml_mark.specs.Parts.{handle_rest};

use crate::decode::{decode, expand};
use crate::handles::Handles;
use crate::prefix::prefix_of;
use crate::runs::{Class, skip_escaped, skip_run, stands};
use std::alloc::Global;
use yaml_text::chars::Chars;
use yaml_text::event::EventTag;
use yaml_text::fault::Fault;
use yaml_text::places::{accept, text_between};

/// The border after a handle (6.8.2.1) whose first `!` stands before a border.
pub(crate) fn skip_handle(source: &Chars<'_>, first: usize) -> usize
    requires { IsBorder source.now first }
    ensures border { IsBorder source.now result }
    ensures onward { first ≤ result }
    ensures rest { handle_rest (text_of source.now) (place_of source.now first) (place_of source.now result) }
{
    let word = skip_run(source, first, Class::Word);
    match accept(source, word, '!') {
        Some(to) => to,
        None => first,
    }
}

/// The verbatim tag whose text begins at `from`.
fn read_verbatim<'a>(
    alloc: Global,
    source: &Chars<'a>,
    at: usize,
    from: usize,
) -> Result<(EventTag<'a>, usize), Fault>
    requires at { IsBorder source.now at }
    requires from { IsBorder source.now from }
    requires order { at < from }
    requires bang { slice_get (text_of source.now) (place_of source.now at) ≡ Some c-tag }
    requires angle { slice_get (text_of source.now) (place_of source.now at + 1) ≡ Some 60 }
    requires next { place_of source.now from ≡ place_of source.now at + 2 }
    ensures border { IfOk result (λ r. IsBorder source.now r.1) }
    ensures onward { IfOk result (λ r. at < r.1) }
    ensures only { IfOk result (λ r. (handles : grammar.Handles) → Only (calls.read_tag (text_of source.now) handles) (place_of source.now at) (place_of source.now r.1) (written_of r.0)) }
    ensures refused { IfErr result (λ e. TagRefuses e ((handles : grammar.Handles) → Unread (calls.read_tag (text_of source.now) handles) (place_of source.now at))) }
    ensures placed { IfErr result (IsPlaced source.now) }
{
    let end = skip_escaped(source, from, Class::Uri);
    match accept(source, end, '>') {
        None => Err(Fault::BadTag(source.pos(at))),
        Some(close) => match decode(alloc, text_between(source, from, end))? {
            None => Err(Fault::BadTag(source.pos(at))),
            Some(tag) => {
                if stands(source, close, Class::Name) {
                    return Err(Fault::Syntax(source.pos(close)));
                }
                Ok((EventTag::Full(tag), close))
            }
        },
    }
}

/// The shorthand or non-specific tag at `at`, whose `!` ends at `first`.
fn read_shorthand<'a>(
    alloc: Global,
    source: &Chars<'a>,
    at: usize,
    first: usize,
    handles: Option<&Handles<'a>>,
) -> Result<(EventTag<'a>, usize), Fault>
    requires at { IsBorder source.now at }
    requires first { IsBorder source.now first }
    requires order { at < first }
    requires bang { chr (text_of source.now) c-tag (place_of source.now at) (place_of source.now first) }
    requires other { slice_get (text_of source.now) (place_of source.now first) ≢ Some 60 }
    ensures border { IfOk result (λ r. IsBorder source.now r.1) }
    ensures onward { IfOk result (λ r. at < r.1) }
    ensures only { IfOk result (λ r. Only (calls.read_tag (text_of source.now) (handles_of handles.entry)) (place_of source.now at) (place_of source.now r.1) (written_of r.0)) }
    ensures refused { IfErr result (λ e. TagRefuses e (Unread (calls.read_tag (text_of source.now) (handles_of handles.entry)) (place_of source.now at))) }
    ensures placed { IfErr result (IsPlaced source.now) }
{
    let after = skip_handle(source, first);
    let prefix = match prefix_of(handles, text_between(source, at, after)) {
        None => return Err(Fault::UnknownHandle(source.pos(at))),
        Some(prefix) => prefix,
    };
    let end = skip_escaped(source, after, Class::Tag);
    if stands(source, end, Class::Name) {
        return Err(Fault::BadTag(source.pos(at)));
    }
    if end == first {
        return Ok((EventTag::NonSpecific, end));
    }
    if end == after {
        return Err(Fault::BadTag(source.pos(at)));
    }
    let suffix = text_between(source, after, end);
    match expand(alloc, prefix, text_between(source, at, end), suffix)? {
        None => Err(Fault::BadTag(source.pos(at))),
        Some(tag) => Ok((EventTag::Full(tag), end)),
    }
}

/// The tag at `at`, decoded, and the border after it.
///
/// Offsets count bytes of the text. Without `handles` there are the default ones alone. The answer is `UnknownHandle` at `at`
/// where a named handle is not bound, `BadTag` at `at` where the tag has no form or its text is none when decoded, `Syntax`
/// where no tag stands or a character follows that may not, and `OutOfMemory` where a tag that does not stand in the text as
/// it is finds no room.
pub fn read_tag<'a>(
    alloc: Global,
    source: &Chars<'a>,
    at: usize,
    handles: Option<&Handles<'a>>,
) -> Result<(EventTag<'a>, usize), Fault>
    requires { IsBorder source.now at }
    ensures border { IfOk result (λ r. IsBorder source.now r.1) }
    ensures onward { IfOk result (λ r. at < r.1) }
    ensures only { IfOk result (λ r. Only (calls.read_tag (text_of source.now) (handles_of handles.entry)) (place_of source.now at) (place_of source.now r.1) (written_of r.0)) }
    ensures refused { IfErr result (λ e. TagRefuses e (Unread (calls.read_tag (text_of source.now) (handles_of handles.entry)) (place_of source.now at))) }
    ensures placed { IfErr result (IsPlaced source.now) }
{
    let first = match accept(source, at, '!') {
        None => return Err(Fault::Syntax(source.pos(at))),
        Some(first) => first,
    };
    match accept(source, first, '<') {
        Some(from) => read_verbatim(alloc, source, at, from),
        None => read_shorthand(alloc, source, at, first, handles),
    }
}

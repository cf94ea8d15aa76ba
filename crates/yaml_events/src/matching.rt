//! Events, held against the lines of a text.
ghost use Rattle.std.specs.Prelude.{IfOk, IfErr, map};
ghost use Rattle.yaml_definitions.specs.model.Event as plain;
ghost use Rattle.yaml_text.specs.EventModel.{event_of};
ghost use Rattle.yaml_events.specs.LineAnswer.{RefusesEventText, RefusesPart, StillBehind, TellsEventText};
ghost use Rattle.yaml_events.specs.Parts.{IsLineOf};
ghost use Rattle.std.specs.Option.{option_map};

use crate::fault::{EventFault, LineFault};
use crate::line::read_line;
use std::alloc::Global;
use yaml_text::event::Event;

/// The events behind the first, where that is this one; none where it is not, or some differed before.
fn behind<'e, 's>(left: Option<&'e [Event<'s>]>, event: &Event<'_>) -> Option<&'e [Event<'s>]>
    ensures { StillBehind (event_of event.now) (option_map (λ s. map event_of s.now) left.entry) (option_map (λ s. map event_of s.now) result) }
{
    let (first, rest) = left?.split_first()?;
    if first == event { Some(rest) } else { None }
}

/// Holds a line against the first of the events that are left, and answers those behind it.
fn hold_line<'e, 's>(
    alloc: Global,
    line: &str,
    left: Option<&'e [Event<'s>]>,
) -> Result<Option<&'e [Event<'s>]>, LineFault>
    ensures ok { IfOk result (λ next. (e : plain.Event) × IsLineOf line.now e × StillBehind e (option_map (λ s. map event_of s.now) left.entry) (option_map (λ s. map event_of s.now) next)) }
    ensures err { IfErr result (λ fault. RefusesPart fault (IsLineOf line.now)) }
{
    let event = read_line(alloc, line)?;
    Ok(behind(left, &event))
}

/// Whether a text is that of these events, in the notation of yaml-test-suite. Each line is compared with its event while it is
/// read, so no list of lines is made. Errors are those of `read_event_text`: a bad line is reported also after one that differs.
pub fn is_event_text(alloc: Global, text: &str, events: &[Event<'_>]) -> Result<bool, EventFault>
    ensures told { IfOk result (TellsEventText text.now (map event_of events.now)) }
    ensures refused { IfErr result (RefusesEventText text.now) }
{
    let mut rest = text;
    // The events that are to come, as long as none differs.
    let mut left = Some(events);
    let mut number = 0;
    'lines: while !rest.is_empty() {
        number += 1;
        let Some((line, after)) = rest.split_once('\n') else {
            return Err(EventFault::BadLine(number));
        };
        match hold_line(alloc, line, left) {
            Ok(next) => left = next,
            Err(fault) => return Err(fault.of_line(number)),
        }
        rest = after;
    }
    match left {
        Some(left) => Ok(left.is_empty()),
        None => Ok(false),
    }
}

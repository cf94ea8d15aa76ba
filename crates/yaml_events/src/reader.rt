//! Events, read from their lines.
ghost use Rattle.std.specs.Prelude.{◌≡◌, IfOk, IfErr, map};
ghost use Rattle.yaml_text.specs.EventModel.{event_of};
ghost use Rattle.yaml_definitions.specs.model.EventText.{EventText};
ghost use Rattle.yaml_events.specs.LineAnswer.{RefusesEventText};

use crate::fault::EventFault;
use crate::line::read_line;
use std::alloc::Global;
use yaml_text::event::Event;

/// The events of a text: one for each line, in the notation of yaml-test-suite. Each line ends with LF and has the one
/// presentation that `write_events` gives. The nesting of events is not checked. Names, tags and texts are slices if they are in
/// the text literally.
///
/// # Errors
/// `BadLine` names the first line, from 1, that is not an event's. A last line without LF is not one. `OutOfMemory`.
pub fn read_event_text<'a>(alloc: Global, text: &'a str) -> Result<Vec<Event<'a>>, EventFault>
    ensures events { IfOk result (λ v. EventText text.now (map event_of v.items)) }
    ensures refused { IfErr result (RefusesEventText text.now) }
{
    let mut events = Vec::new(alloc);
    let mut rest = text;
    'lines: while !rest.is_empty() {
        let number = events.len() + 1;
        let Some((line, after)) = rest.split_once('\n') else {
            return Err(EventFault::BadLine(number));
        };
        match read_line(alloc, line) {
            Ok(event) => events.push(event)?,
            Err(fault) => return Err(fault.of_line(number)),
        }
        rest = after;
    }
    Ok(events)
}

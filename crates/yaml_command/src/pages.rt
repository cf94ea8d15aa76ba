//! An event text, written page by page.
ghost use Rattle.std.specs.Prelude.{◌≡◌, ◌<◌, ◌≤◌, ◌+◌, ◌-◌, ◌^◌, ◌∷◌, ◌++◌, [], length, map, All, IfOk, IfErr, OnOk};
ghost use Rattle.std.specs.String.{string_bytes, string_len, string_capacity};
ghost use Rattle.yaml_text.specs.CountedModel.{faults_of};
ghost use Rattle.yaml_text.specs.EventModel.{event_of};
ghost use Rattle.yaml_definitions.specs.model.EventText.{event_line, events_text};
ghost use Rattle.yaml_spell.specs.Writers.{CutOff};
ghost use Rattle.yaml_text.specs.Writers.{Printed};
ghost use Rattle.yaml_definitions.specs.grammar.Characters.{b-line-feed};
ghost use Rattle.yaml_command.specs.Pages.{PageHas, PagesFail};
ghost use Rattle.yaml_command.specs.Printing.{PrintFails};

use crate::streams::write_out;
use std::alloc::Global;
use std::io::Write;
use yaml_events::{PAGE, page_for, push_line};
use yaml_spell::page::write_whole;
use yaml_text::counted::Counted;
use yaml_text::event::Event;
use yaml_text::fault::Fault;

/// Writes and empties the page if it is full.
fn make_room<W: Write>(page: &mut String, out: &mut Counted<W>) -> Result<(), Fault>
    ensures ok { OnOk result (PageHas W.contents page.new out.old out.new (string_bytes page.old)) }
    ensures room { OnOk result (string_len page.new < 4096) }
    ensures keeps { string_capacity page.new ≡ string_capacity page.old }
    ensures err { IfErr result (CutOff W.contents out.old out.new (string_bytes page.old)) }
{
    if page.len() < PAGE {
        return Ok(());
    }
    write_whole(out, page.as_bytes())?;
    page.clear();
    Ok(())
}

/// Writes the text of events by way of an empty page with room for each line, and flushes. It takes
/// no memory, and fails as the writer does (23).
fn write_pages<W: Write>(
    events: &[Event<'_>],
    page: &mut String,
    out: &mut Counted<W>,
) -> Result<(), Fault>
    requires empty { string_bytes page.old ≡ [] }
    requires room { All (λ e. 4096 + length (event_line e ++ (b-line-feed ∷ [])) ≤ string_capacity page.old) (map event_of events.now) }
    requires few { faults_of out.old < 2 ^ 64 - 1 }
    ensures ok { OnOk result (Printed W.contents out.old out.new (events_text (map event_of events.now))) }
    ensures err { IfErr result (PrintFails W.contents out.old out.new (events_text (map event_of events.now))) }
{
    'lines: for event in events {
        push_line(event, page)?;
        make_room(page, out)?;
    }
    write_out(out, page.as_bytes())
}

/// Writes the text of events page by page, and flushes. A page has 4,096 bytes and what its last line
/// has more. All memory is taken before the first byte goes out: `OutOfMemory` leaves the writer
/// untouched, and `WriteFault` leaves it with a beginning of the text and its count one higher.
pub fn print_events<W: Write>(
    alloc: Global,
    events: &[Event<'_>],
    out: &mut Counted<W>,
) -> Result<(), Fault>
    requires { faults_of out.old < 2 ^ 64 - 1 }
    ensures ok { OnOk result (Printed W.contents out.old out.new (events_text (map event_of events.now))) }
    ensures err { IfErr result (PagesFail W.contents out.old out.new (events_text (map event_of events.now))) }
{
    let mut page = page_for(alloc, events)?;
    write_pages(events, &mut page, out)
}

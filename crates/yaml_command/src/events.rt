//! `events`: the event text of an input.
ghost use Rattle.std.specs.Prelude.{◌<◌, ◌-◌, ◌^◌, IfErr, OnOk};
ghost use Rattle.yaml_text.specs.CountedModel.{faults_of};
ghost use Rattle.yaml_command.specs.EventRuns.{TextPrinted, TextFails, EventsPrinted, EventsFail};

use crate::pages::print_events;
use crate::streams::write_out;
use std::alloc::Global;
use std::io::{Read, Write};
use yaml_event_text::event_lines;
use yaml_read::read_events;
use yaml_text::chars::Chars;
use yaml_text::counted::Counted;
use yaml_text::fault::Fault;
use yaml_text::gather;
use yaml_text::limits::text_limit;

/// Reads the bytes, and writes their event text: whole, or page by page where it is too long to be held. All memory is taken
/// before the first byte goes out.
fn print_text<W: Write>(alloc: Global, bytes: &[u8], out: &mut Counted<W>) -> Result<(), Fault>
    requires { faults_of out.old < 2 ^ 64 - 1 }
    ensures ok { OnOk result (TextPrinted W.contents bytes.now out.old out.new) }
    ensures err { IfErr result (TextFails W.contents bytes.now out.old out.new) }
{
    let source = Chars::read(bytes)?;
    if let Some(text) = event_lines(alloc, &source)? {
        return write_out(out, text.as_bytes());
    }
    let events = read_events(alloc, &source)?;
    print_events(alloc, events.as_slice(), out)
}

/// Reads all of an input, and writes its event text once all of it is read.
pub fn events<R: Read, W: Write>(
    alloc: Global,
    input: &mut Counted<R>,
    out: &mut Counted<W>,
) -> Result<(), Fault>
    requires few_reads { faults_of input.old < 2 ^ 64 - 1 }
    requires few_writes { faults_of out.old < 2 ^ 64 - 1 }
    ensures ok { OnOk result (EventsPrinted R.remaining W.contents input.old input.new out.old out.new) }
    ensures err { IfErr result (EventsFail R.remaining W.contents input.old input.new out.old out.new) }
{
    let bytes = gather(alloc, input, text_limit())?;
    print_text(alloc, bytes.as_slice(), out)
}

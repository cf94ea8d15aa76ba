//! `check`: whether an input's events are those of an event text.
ghost use Rattle.std.specs.Prelude.{◌≡◌, ◌<◌, ◌-◌, ◌^◌, IfOk, IfErr};
ghost use Rattle.yaml_text.specs.CountedModel.{faults_of};
ghost use Rattle.yaml_command.specs.Matched.{match_line, HasEvents, MatchRefuses, PrintsMatch, MatchFails};

use crate::refusal::Refusal;
use crate::streams::write_out;
use std::alloc::Global;
use std::io::Write;
use std::str;
use yaml_events::is_event_text;
use yaml_read::read_events;
use yaml_text::chars::Chars;
use yaml_text::counted::Counted;
use yaml_text::fault::Fault;

/// Whether an input's events are those of an event text. The input is judged first, and the lines are
/// held against its events as they are read.
fn has_events<'a>(alloc: Global, input: &[u8], lines: &[u8]) -> Result<bool, Refusal<'a>>
    ensures ok { IfOk result (HasEvents input.now lines.now) }
    ensures err { IfErr result (MatchRefuses input.now lines.now) }
{
    let source = Chars::read(input)?;
    let events = read_events(alloc, &source)?;
    let text = match str::from_utf8(lines) {
        Ok(text) => text,
        Err(place) => return Err(Refusal::EventText(Fault::NotUtf8(place.valid_up_to()))),
    };
    let has_events = is_event_text(alloc, text, events.as_slice())?;
    Ok(has_events)
}

/// The line that tells the answer.
fn line_of(matches: bool) -> &'static str
    ensures { result.now ≡ match_line matches }
{
    if matches { "match\n" } else { "differ\n" }
}

/// Judges an input and an event text, and writes `match` or `differ`. The answer is whether the input's
/// events are those of the event text.
pub fn print_match<'a, W: Write>(
    alloc: Global,
    input: &[u8],
    lines: &[u8],
    out: &mut Counted<W>,
) -> Result<bool, Refusal<'a>>
    requires { faults_of out.old < 2 ^ 64 - 1 }
    ensures ok { IfOk result (λ matches. PrintsMatch W.contents input.now lines.now out.old out.new matches) }
    ensures err { IfErr result (MatchFails W.contents input.now lines.now out.old out.new) }
{
    let matches = has_events(alloc, input, lines)?;
    write_out(out, line_of(matches).as_bytes())?;
    Ok(matches)
}

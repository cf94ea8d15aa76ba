//! What other tools read otherwise in a file.
ghost use Rattle.std.specs.Prelude.{◌≡◌, ◌≤◌, ◌++◌, flat_map, length, map, option_map, IfOk, IfErr, OnOk, string_bytes};
ghost use Rattle.yaml_text.specs.EventModel.{event_of};
ghost use Rattle.yaml_path.specs.LineModel.{IsPlace};
ghost use Rattle.review_faults.specs.Again.{CannotRead};
ghost use Rattle.review_faults.specs.Causes.{cause_rule};
ghost use Rattle.review_faults.specs.Labels.{label_of, whole};
ghost use Rattle.review_faults.specs.Says.{Says};
ghost use Rattle.review_faults.specs.Warned.{label_in, AreWarnings, ListsWarnings, warning_line, warning_object, warning_text, warnings_text};

use crate::cause::Cause;
use crate::faults::put_head;
use crate::find::find_warned;
use crate::label::Label;
use review_places::places::unmarked;
use review_places::trace::{Trace, trace_of};
use review_text::fronts::put_shown;
use review_text::json::{Said, put_object};
use review_text::options::Form;
use review_text::text::{CUT, front};
use std::alloc::{AllocError, Global};
use yaml_path::{Place, place_after, place_at};
use yaml_read::read_events;
use yaml_text::chars::Chars;
use yaml_text::event::Event;
use yaml_text::fault::Fault;

/// A scalar or a name that other tools read otherwise.
#[derive(Drop)]
pub struct Warning {
    pub place: Place,
    /// What it is called.
    pub rule: &'static str,
    pub text: String,
    /// How they read it.
    pub words: String,
}

/// The warnings of a file, and whether these are all.
#[derive(Drop)]
pub struct Warnings {
    pub list: Vec<Warning>,
    pub whole: bool,
}

/// The place of an offset, from that of another one. It costs more where it lies before that.
pub(crate) fn go_on(text: &[u8], from: usize, place: Place, to: usize) -> Place
    requires at { IsPlace text.now from place.line place.column }
    requires within { to ≤ length text.now }
    ensures { IsPlace text.now to result.line result.column }
{
    if from <= to {
        place_after(text, from, place, to)
    } else {
        place_at(text, to)
    }
}

/// What the warning of an event shows.
fn label_at<'e>(events: &'e [Event<'_>], number: usize, cause: Cause) -> Option<Label<'e>>
    ensures { option_map label_of result ≡ label_in (map event_of events.now) (number, cause) }
{
    match events.get(number) {
        Some(event) => cause.label(event),
        None => None,
    }
}

/// The warning of an event that was found.
fn warning_of(
    alloc: Global,
    events: &[Event<'_>],
    cause: Cause,
    label: Label<'_>,
    place: Place,
) -> Result<Warning, AllocError>
    ensures text { IfOk result (λ warning. string_bytes warning.text ≡ whole (label_of label.entry)) }
    ensures place { IfOk result (λ warning. warning.place ≡ place) }
    ensures rule { IfOk result (λ warning. warning.rule.now ≡ cause_rule cause) }
    ensures words { IfOk result (λ warning. Says (map event_of events.now) cause (whole (label_of label.entry)) (string_bytes warning.words)) }
{
    let text = label.to_text(alloc)?;
    let words = cause.words(alloc, events, &text)?;
    Ok(Warning {
        place,
        rule: cause.rule(),
        text,
        words,
    })
}

/// The warnings that were found, each at its event's offset in the text. For each there are a text and an offset, so that the
/// error is want of memory.
fn told(
    alloc: Global,
    events: &[Event<'_>],
    trace: &Trace,
    source: &[u8],
    found: &[(usize, Cause)],
) -> Result<Vec<Warning>, AllocError>
    ensures ok { IfOk result (λ list. AreWarnings (map event_of events.now) source.now found.now list.items) }
{
    let mut list = Vec::new(alloc);
    let mut at = 0;
    let mut place = Place { line: 1, column: 1 };
    'numbers: for (number, cause) in found {
        let label = label_at(events, *number, *cause);
        let (Some(label), Some(offset)) = (label, trace.offset(*number)) else {
            return Err(AllocError);
        };
        let to = offset.min(source.len());
        place = go_on(source, at, place, to);
        at = to;
        list.push(warning_of(alloc, events, *cause, label, place)?)?;
    }
    Ok(list)
}

/// What other tools read otherwise in a file that is not refused, but for what one of these words would be shown of: at most so many.
///
/// # Errors
/// `OutOfMemory`; of bytes that the reader rejects, the reader's.
#[tactic(auto, using(crate::proofs::AgainLaws::text_refused, crate::proofs::AgainLaws::reading_refused, crate::proofs::AgainLaws::memory_alone))]
pub fn list_warnings(
    alloc: Global,
    bytes: &[u8],
    allowed: &[&str],
    room: usize,
) -> Result<Warnings, Fault>
    ensures ok { IfOk result (ListsWarnings bytes.now allowed.now room) }
    ensures err { IfErr result (CannotRead bytes.now) }
{
    let source = Chars::read(bytes)?;
    let events = read_events(alloc, &source)?;
    let trace = trace_of(alloc, &source)?;
    let text = unmarked(bytes);
    let found = find_warned(alloc, &events, text, &trace, allowed, room)?;
    Ok(Warnings {
        list: told(alloc, &events, &trace, text, &found.list)?,
        whole: found.whole,
    })
}

/// Writes the line of a warning.
fn put_line(out: &mut String, name: &str, warning: &Warning) -> Result<(), AllocError>
    ensures ok { OnOk result (string_bytes out.new ≡ string_bytes out.old ++ warning_line name.now warning.now) }
{
    put_head(out, name, Some(warning.place))?;
    out.push_str("warning: ")?;
    put_shown(out, front(&warning.text, CUT))?;
    out.push_str(": ")?;
    out.push_str(&warning.words)?;
    out.push_str("\n")?;
    Ok(())
}

/// Writes the JSON object of a warning.
fn put_json<'t>(
    alloc: Global,
    out: &mut String,
    name: &'t str,
    warning: &'t Warning,
) -> Result<(), AllocError>
    ensures ok { OnOk result (string_bytes out.new ≡ string_bytes out.old ++ warning_object name.now warning.now) }
{
    let members = [
        ("file", Said::Text(Some(name))),
        ("line", Said::Number(Some(warning.place.line))),
        ("column", Said::Number(Some(warning.place.column))),
        ("rule", Said::Text(Some(warning.rule))),
        ("text", Said::Text(Some(warning.text.as_str()))),
        ("words", Said::Text(Some(warning.words.as_str()))),
    ];
    put_object(alloc, out, &members)
}

/// Writes a warning.
fn put_warning(
    alloc: Global,
    out: &mut String,
    name: &str,
    warning: &Warning,
    form: Form,
) -> Result<(), AllocError>
    ensures ok { OnOk result (string_bytes out.new ≡ string_bytes out.old ++ warning_text form name.now warning.now) }
{
    match form {
        Form::Line => put_line(out, name, warning),
        Form::Json => put_json(alloc, out, name, warning),
    }
}

/// Writes warnings, a line for each.
fn put_list(
    alloc: Global,
    out: &mut String,
    name: &str,
    list: &[Warning],
    form: Form,
) -> Result<(), AllocError>
    ensures ok { OnOk result (string_bytes out.new ≡ string_bytes out.old ++ flat_map (warning_text form name.now) list.now) }
{
    for warning in list {
        put_warning(alloc, out, name, warning, form)?;
    }
    Ok(())
}

/// Writes the warnings of a file, a line for each, and tells if these are not all.
pub fn put_warnings(
    alloc: Global,
    out: &mut String,
    name: &str,
    warnings: &Warnings,
    form: Form,
) -> Result<(), AllocError>
    ensures ok { OnOk result (string_bytes out.new ≡ string_bytes out.old ++ warnings_text form name.now warnings.now.list.items warnings.now.whole) }
{
    put_list(alloc, out, name, &warnings.list, form)?;
    if !warnings.whole {
        out.push_str(form.more())?;
    }
    Ok(())
}

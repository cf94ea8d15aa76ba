//! The lines that tell why a file has no sum.
ghost use Rattle.std.specs.Prelude.{◌≡◌, ◌++◌, ◌<◌, ◌-◌, ◌^◌, codes, OnOk, OnErr, IfErr};
ghost use Rattle.yaml_command.specs.Printing.{PrintFails};
ghost use Rattle.yaml_text.specs.Writers.{Printed};
ghost use Rattle.yaml_text.specs.CountedModel.{faults_of};
ghost use Rattle.std.specs.Str.{IsUtf8};
ghost use Rattle.yaml_sum.specs.Complaints.{reason, complaint, Complains, TellsStop};
ghost use Rattle.yaml_sum.specs.declared.stop.Stop.TheVariants.{Refused};
ghost use Rattle.yaml_sum.specs.Stops.{halt_line};

use crate::line::{push, push_told_name};
use crate::stop::{Halt, Stop};
use review_faults::put_fault;
use review_text::options::Form;
use std::alloc::{AllocError, Global};
use std::io::Write;
use std::str;
use yaml_command::line;
use yaml_message::message_of;
use yaml_spell::page::write_whole;
use yaml_text::counted::Counted;
use yaml_text::fault::Fault;

/// What each line begins with.
const FRONT: &str = "yamlreview: ";

/// Makes the lines that tell why a file is refused, as `faults` has them. They can't be made for want of memory alone, since the bytes
/// have the fault.
fn make_refused(
    alloc: Global,
    line: &mut Vec<u8>,
    name: &[u8],
    bytes: &[u8],
    fault: Fault,
) -> Result<(), AllocError>
    ensures ok { OnOk result (Complains name.now (Refused fault) line.new.items) }
{
    let shown = shown_name(name);
    let mut text = String::new(alloc);
    match put_fault(alloc, &mut text, shown, bytes, fault, Form::Line) {
        Ok(()) => {}
        Err(_) => return Err(AllocError),
    }
    line.clear();
    push(line, text.as_bytes())
}

/// A name as text. No file is opened by another one.
fn shown_name(name: &[u8]) -> &str
    ensures { IsUtf8 name.now → result.now ≡ name.now }
{
    match str::from_utf8(name) {
        Ok(text) => text,
        Err(_) => "?",
    }
}

/// Puts behind a line why a file that is not refused has no sum.
fn push_reason(line: &mut Vec<u8>, stop: Stop) -> Result<(), AllocError>
    ensures ok { OnOk result (line.new.items ≡ line.old.items ++ reason stop) }
{
    match stop {
        Stop::CannotOpen(why) => {
            push(line, b"cannot open: ")?;
            push(line, why.words().as_bytes())?;
            push(line, b"\n")
        }
        Stop::NotRegular => push(line, b"is no regular file\n"),
        Stop::Unread(fault) | Stop::Refused(fault) => {
            let message = message_of(fault);
            push(line, message.as_str().as_bytes())?;
            push(line, b"\n")
        }
    }
}

/// Makes the line that tells why a file that is not refused has no sum.
fn make_complaint(line: &mut Vec<u8>, name: &[u8], stop: Stop) -> Result<(), AllocError>
    ensures ok { OnOk result (line.new.items ≡ complaint name.now stop) }
{
    line.clear();
    push(line, FRONT.as_bytes())?;
    push_told_name(line, name, stop.is_text())?;
    push(line, b": ")?;
    push_reason(line, stop)
}

/// Makes what tells why a file has no sum.
fn make_told(
    alloc: Global,
    line: &mut Vec<u8>,
    name: &[u8],
    bytes: &[u8],
    stop: Stop,
) -> Result<(), AllocError>
    ensures ok { OnOk result (Complains name.now stop line.new.items) }
{
    match stop {
        Stop::Refused(fault) => make_refused(alloc, line, name, bytes, fault),
        _ => make_complaint(line, name, stop),
    }
}

/// Tells why a file has no sum, in one piece, or a beginning of it where `err` fails.
/// Refused is want of memory alone.
pub(crate) fn tell<E: Write>(
    alloc: Global,
    line: &mut Vec<u8>,
    name: &[u8],
    bytes: &[u8],
    stop: Stop,
    err: &mut Counted<E>,
) -> Result<(), AllocError>
    ensures ok { OnOk result (TellsStop E.contents name.now stop err.old err.new) }
    ensures quiet { OnErr result (err.new ≡ err.old) }
{
    make_told(alloc, line, name, bytes, stop)?;
    match write_whole(err, line.as_slice()) {
        // Where standard error fails too, the status alone is left to tell it.
        Ok(()) | Err(_) => Ok(()),
    }
}

/// Writes the line of a list that cannot be opened, and flushes.
fn tell_no_list<'a, E: Write>(
    name: &'a str,
    why: &'a str,
    err: &mut Counted<E>,
) -> Result<(), Fault>
    requires { faults_of err.old < 2 ^ 64 - 1 }
    ensures ok { OnOk result (Printed E.contents err.old err.new (codes "yamlreview: " ++ name.now ++ codes ": cannot open: " ++ why.now ++ codes "\n")) }
    ensures err { IfErr result (PrintFails E.contents err.old err.new (codes "yamlreview: " ++ name.now ++ codes ": cannot open: " ++ why.now ++ codes "\n")) }
{
    line::write_pieces(&["yamlreview: ", name, ": cannot open: ", why, "\n"], err)
}

/// Writes the line of a list that is not read to its end, and flushes.
fn tell_unread<E: Write>(name: &str, why: &str, err: &mut Counted<E>) -> Result<(), Fault>
    requires { faults_of err.old < 2 ^ 64 - 1 }
    ensures ok { OnOk result (Printed E.contents err.old err.new (codes "yamlreview: " ++ name.now ++ codes ": " ++ why.now ++ codes "\n")) }
    ensures err { IfErr result (PrintFails E.contents err.old err.new (codes "yamlreview: " ++ name.now ++ codes ": " ++ why.now ++ codes "\n")) }
{
    line::write_pieces(&["yamlreview: ", name, ": ", why, "\n"], err)
}

/// Writes the line that tells why sums are not made to the end, and flushes. It takes no memory. Any error of the writer is
/// `WriteFault`; it then has a beginning of the line.
pub(crate) fn tell_halt<E: Write>(halt: Halt<'_>, err: &mut Counted<E>) -> Result<(), Fault>
    requires { faults_of err.old < 2 ^ 64 - 1 }
    ensures ok { OnOk result (Printed E.contents err.old err.new (halt_line halt.entry)) }
    ensures err { IfErr result (PrintFails E.contents err.old err.new (halt_line halt.entry)) }
{
    match halt {
        Halt::NoList(name, why) => tell_no_list(name, why.words(), err),
        Halt::Unread(name, fault) => {
            let message = message_of(fault);
            tell_unread(name, message.as_str(), err)
        }
        Halt::Fault(fault) => line::tell_fault(FRONT, fault, err),
    }
}

//! The line that tells a refusal on standard error. It is written in pieces and takes no memory.
ghost use Rattle.std.specs.Prelude.{◌≡◌, ◌<◌, ◌-◌, ◌^◌, ◌++◌, codes, flat_map, IfErr, OnOk};
ghost use Rattle.yaml_text.specs.CountedModel.{faults_of};
ghost use Rattle.yaml_spell.specs.Writers.{Sent};
ghost use Rattle.yaml_text.specs.Writers.{Printed};
ghost use Rattle.yaml_command.specs.Printing.{PrintFails};
ghost use Rattle.yaml_command.specs.declared.refusal.Refusal.TheVariants.{Words, EventLines};
ghost use Rattle.yaml_command.specs.Refusals.{side_text, fault_line, line_text};

use crate::refusal::Refusal;
use itoa::Buffer;
use std::io::Write;
use yaml_args::WordsFault;
use yaml_events::EventFault;
use yaml_message::message_of;
use yaml_spell::page::write_whole;
use yaml_text::Side;
use yaml_text::counted::Counted;
use yaml_text::fault::Fault;

/// Writes pieces behind one another. Any error of the writer, and a write that takes no byte, is
/// `WriteFault`; the writer then has a beginning of them, and its count is one higher.
fn send_pieces<E: Write>(pieces: &[&str], err: &mut Counted<E>) -> Result<(), Fault>
    requires { faults_of err.old < 2 ^ 64 - 1 }
    ensures ok { OnOk result (Sent E.contents err.old err.new (flat_map (λ piece. piece.now) pieces.now)) }
    ensures err { IfErr result (PrintFails E.contents err.old err.new (flat_map (λ piece. piece.now) pieces.now)) }
{
    'pieces: for piece in pieces {
        write_whole(err, piece.as_bytes())?;
    }
    Ok(())
}

/// Writes pieces behind one another and flushes. Any error of the writer, and a write that takes no byte, is `WriteFault`; the
/// writer then has a beginning of them.
pub fn write_pieces<E: Write>(pieces: &[&str], err: &mut Counted<E>) -> Result<(), Fault>
    requires { faults_of err.old < 2 ^ 64 - 1 }
    ensures ok { OnOk result (Printed E.contents err.old err.new (flat_map (λ piece. piece.now) pieces.now)) }
    ensures err { IfErr result (PrintFails E.contents err.old err.new (flat_map (λ piece. piece.now) pieces.now)) }
{
    send_pieces(pieces, err)?;
    match err.flush() {
        Ok(()) => Ok(()),
        Err(_) => Err(Fault::WriteFault),
    }
}

/// How the line of a fault of one side begins.
fn side_text(side: Side) -> &'static str
    ensures { result.now ≡ side_text side }
{
    match side {
        Side::Left => "yaml: left: ",
        Side::Right => "yaml: right: ",
    }
}

/// Writes the line of a fault, which begins with this text before the fault's number, and flushes. It takes no memory, and fails as
/// `tell` does.
pub fn tell_fault<E: Write>(front: &str, fault: Fault, err: &mut Counted<E>) -> Result<(), Fault>
    requires { faults_of err.old < 2 ^ 64 - 1 }
    ensures ok { OnOk result (Printed E.contents err.old err.new (fault_line front.now fault)) }
    ensures err { IfErr result (PrintFails E.contents err.old err.new (fault_line front.now fault)) }
{
    let message = message_of(fault);
    write_pieces(&[front, message.as_str(), "\n"], err)
}

/// Writes the line of words that can't be read.
fn tell_words<E: Write>(fault: WordsFault, err: &mut Counted<E>) -> Result<(), Fault>
    requires { faults_of err.old < 2 ^ 64 - 1 }
    ensures ok { OnOk result (Printed E.contents err.old err.new (line_text (Words fault))) }
    ensures err { IfErr result (PrintFails E.contents err.old err.new (line_text (Words fault))) }
{
    match fault {
        WordsFault::Usage => write_pieces(&["yaml: usage\n"], err),
        WordsFault::OutOfMemory => tell_fault("yaml: ", Fault::OutOfMemory, err),
    }
}

/// Writes the line of a fault of an event text's lines.
fn tell_lines<E: Write>(fault: EventFault, err: &mut Counted<E>) -> Result<(), Fault>
    requires { faults_of err.old < 2 ^ 64 - 1 }
    ensures ok { OnOk result (Printed E.contents err.old err.new (line_text (EventLines fault))) }
    ensures err { IfErr result (PrintFails E.contents err.old err.new (line_text (EventLines fault))) }
{
    match fault {
        EventFault::BadLine(line) => {
            let mut digits = Buffer::new();
            let number = digits.format(line);
            write_pieces(&["yaml: events: bad line ", number, "\n"], err)
        }
        EventFault::OutOfMemory => tell_fault("yaml: events: ", Fault::OutOfMemory, err),
    }
}

/// Writes the line that tells a refusal, and flushes. A fault is told by its number, its name and its
/// place. Any error of the writer is `WriteFault`; it then has a beginning of the line.
pub fn tell<E: Write>(refusal: Refusal<'_>, err: &mut Counted<E>) -> Result<(), Fault>
    requires { faults_of err.old < 2 ^ 64 - 1 }
    ensures ok { OnOk result (Printed E.contents err.old err.new (line_text refusal.entry)) }
    ensures err { IfErr result (PrintFails E.contents err.old err.new (line_text refusal.entry)) }
{
    match refusal {
        Refusal::Words(fault) => tell_words(fault, err),
        Refusal::CannotOpen(name) => write_pieces(&["yaml: cannot open ", name, "\n"], err),
        Refusal::Input(fault) => tell_fault("yaml: ", fault, err),
        Refusal::OneSide(side, fault) => tell_fault(side_text(side), fault, err),
        Refusal::EventText(fault) => tell_fault("yaml: events: ", fault, err),
        Refusal::EventLines(fault) => tell_lines(fault, err),
    }
}

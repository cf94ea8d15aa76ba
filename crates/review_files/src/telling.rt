//! The lines of standard error.
ghost use Rattle.std.specs.Prelude.{◌≡◌, ◌++◌, ℕ, List, true, OnOk, codes, string_bytes};
ghost use Rattle.std.specs.Io.KnownBytes.{Appends};
ghost use Rattle.review_files.specs.Lines.{TakesLine, line_front, fault_line, unread_line, bare_line, TellsNoWords};
ghost use Rattle.review_files.specs.Statuses.{fault_status, unread_status};
ghost use Rattle.review_files.specs.declared.unread.Unread.TheVariants.{CannotOpen};

use crate::unread::{Unread, fault_status};
use review_text::put_shown;
use std::alloc::{AllocError, Global};
use std::io::Write;
use yaml_args::WordsFault;
use yaml_message::message_of;
use yaml_sum::reason::Reason;
use yaml_text::fault::Fault;

/// The status where the words, a file or a stream cannot be used.
pub const UNUSABLE: u8 = 3;

/// What each line begins with.
const FRONT: &str = "yamlreview: ";

/// What is wrong with the program's own words.
const NO_WORDS: &str = "yamlreview: usage: the words cannot be read\n";

/// Writes a text, and answers whether the writer took all of it.
fn put_piece<E: Write>(text: &str, err: &mut E) -> bool
    ensures whole { result ≡ true → Appends (E.contents err.old) (E.contents err.new) text.now }
    ensures some { TakesLine E.contents err.old err.new text.now }
{
    let bytes = text.as_bytes();
    let mut at = 0;
    'write: while at < bytes.len() {
        match err.write(&bytes[at..]) {
            Ok(took) => {
                if took == 0 {
                    return false;
                }
                at += took;
            }
            Err(_) => return false,
        }
    }
    true
}

/// Writes a line. Where standard error fails too, the status alone is left to tell what the line would.
pub fn put_line<E: Write>(line: &str, err: &mut E)
    ensures { TakesLine E.contents err.old err.new line.now }
{
    let _ = put_piece(line, err);
}

/// Writes the line of a message.
fn put_message<E: Write>(message: &str, err: &mut E)
    ensures { TakesLine E.contents err.old err.new (codes "yamlreview: " ++ (message.now ++ codes "\n")) }
{
    if !put_piece(FRONT, err) {
        return;
    }
    if !put_piece(message, err) {
        return;
    }
    let _ = put_piece("\n", err);
}

/// Writes the line of wrong usage, and answers the status.
pub fn tell_usage<E: Write>(line: &str, err: &mut E) -> u8
    ensures status { result ≡ 3 }
    ensures told { TakesLine E.contents err.old err.new line.now }
{
    put_line(line, err);
    UNUSABLE
}

/// Writes what the line of a file begins with: the program's name and the file's, with `?` for what of it a terminal would not print.
fn put_front(out: &mut String, name: &str) -> Result<(), AllocError>
    ensures ok { OnOk result (string_bytes out.new ≡ string_bytes out.old ++ line_front name.now) }
{
    out.push_str(FRONT)?;
    put_shown(out, name)?;
    out.push_str(": ")?;
    Ok(())
}

/// Writes the line of a fault of a file that has no place in it.
pub fn put_fault_line(out: &mut String, name: &str, fault: Fault) -> Result<(), AllocError>
    ensures ok { OnOk result (string_bytes out.new ≡ string_bytes out.old ++ fault_line name.now fault) }
{
    let words = message_of(fault);
    put_front(out, name)?;
    out.push_str(words.as_str())?;
    out.push_str("\n")?;
    Ok(())
}

/// Writes the line of a file that cannot be opened.
fn put_closed(out: &mut String, name: &str, why: Reason) -> Result<(), AllocError>
    ensures ok { OnOk result (string_bytes out.new ≡ string_bytes out.old ++ unread_line name.now (CannotOpen why)) }
{
    put_front(out, name)?;
    out.push_str("cannot open: ")?;
    out.push_str(why.words())?;
    out.push_str("\n")?;
    Ok(())
}

/// Writes the line of a file that is not read.
pub(crate) fn put_unread(out: &mut String, name: &str, unread: Unread) -> Result<(), AllocError>
    ensures ok { OnOk result (string_bytes out.new ≡ string_bytes out.old ++ unread_line name.now unread) }
{
    match unread {
        Unread::CannotOpen(why) => put_closed(out, name, why),
        Unread::Fault(fault) => put_fault_line(out, name, fault),
    }
}

/// Tells that a list cannot be opened, or why a file is not read, and answers the status. Where memory is refused the status alone is
/// left to tell it.
pub fn tell_unread<E: Write>(alloc: Global, name: &str, unread: Unread, err: &mut E) -> u8
    ensures status { result ≡ unread_status unread }
    ensures told { TakesLine E.contents err.old err.new (unread_line name.now unread) }
{
    let mut line = String::new(alloc);
    if put_unread(&mut line, name, unread).is_ok() {
        put_line(&line, err);
    }
    unread.status()
}

/// Tells a fault of no file, and answers the status.
pub fn tell_bare<E: Write>(fault: Fault, err: &mut E) -> u8
    ensures status { result ≡ fault_status fault }
    ensures told { TakesLine E.contents err.old err.new (bare_line fault) }
{
    let message = message_of(fault);
    put_message(message.as_str(), err);
    fault_status(fault)
}

/// Tells why the program's own words can't be read, and answers the status.
pub fn tell_no_words<E: Write + Drop>(fault: WordsFault, mut err: E) -> u8
    ensures { TellsNoWords E.contents fault err result }
{
    match fault {
        WordsFault::Usage => tell_usage(NO_WORDS, &mut err),
        WordsFault::OutOfMemory => {
            tell_bare(Fault::OutOfMemory, &mut err);
            UNUSABLE
        }
    }
}

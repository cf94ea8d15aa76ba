//! Files that are not read, or are rejected.
ghost use Rattle.std.specs.Prelude.{◌≡◌, ◌++◌, ℕ, List, IfOk, IfErr, string_bytes};
ghost use Rattle.review_files.specs.Told.{TellsUnread, TellsFile, TellsBoth, TellsNotCompared};

use crate::telling::{put_fault_line, put_unread};
use crate::unread::{Unread, greater};
use review_compare::fault_of;
use review_faults::put_fault;
use review_text::options::Form;
use std::alloc::Global;
use yaml_canon::Side;
use yaml_text::fault::Fault;

const DONE: u8 = 0;

/// The status of a file that is rejected.
const REJECTED: u8 = 2;

/// A file by the name that is printed, and what reading it gave.
#[derive(Clone, Copy)]
pub struct Named<'n> {
    pub name: &'n str,
    pub answer: &'n Result<Vec<u8>, Unread>,
}

/// Writes why a file is not read, and answers the status. A file that is too long is rejected, as others are by their bytes.
#[tactic(auto, using(crate::proofs::MemoryLaws::unnamed_memory))]
pub fn put_no_bytes(
    alloc: Global,
    out: &mut String,
    name: &str,
    unread: Unread,
    form: Form,
) -> Result<u8, Fault>
    ensures ok { IfOk result (λ status. (text : List ℕ) × (string_bytes out.new ≡ string_bytes out.old ++ text) × TellsUnread form name.now unread text status) }
    ensures err { IfErr result (λ fault. fault ≡ Fault.OutOfMemory) }
{
    match unread {
        Unread::Fault(Fault::TooLong) => {
            put_fault(alloc, out, name, &[], Fault::TooLong, form)?;
            Ok(REJECTED)
        }
        unread => {
            put_unread(out, name, unread)?;
            Ok(unread.status())
        }
    }
}

/// Writes why a file is not read or is rejected, if it is, and answers the status.
#[tactic(auto, using(crate::proofs::MemoryLaws::rejected_memory))]
pub fn put_rejection(
    alloc: Global,
    out: &mut String,
    file: Named<'_>,
    form: Form,
) -> Result<u8, Fault>
    ensures ok { IfOk result (λ status. (text : List ℕ) × (string_bytes out.new ≡ string_bytes out.old ++ text) × TellsFile form file.entry text status) }
    ensures err { IfErr result (λ fault. fault ≡ Fault.OutOfMemory) }
{
    let bytes = match file.answer {
        Ok(bytes) => bytes,
        Err(unread) => return put_no_bytes(alloc, out, file.name, *unread, form),
    };
    match fault_of(alloc, bytes) {
        Some(fault) => {
            put_fault(alloc, out, file.name, bytes, fault, form)?;
            Ok(REJECTED)
        }
        None => Ok(DONE),
    }
}

/// The same of two files, in the order in which they are given. The status is the greater one.
pub fn put_rejections(
    alloc: Global,
    out: &mut String,
    left: Named<'_>,
    right: Named<'_>,
    form: Form,
) -> Result<u8, Fault>
    ensures ok { IfOk result (λ status. (text : List ℕ) × (string_bytes out.new ≡ string_bytes out.old ++ text) × TellsBoth form left.entry right.entry text status) }
    ensures err { IfErr result (λ fault. fault ≡ Fault.OutOfMemory) }
{
    let first = put_rejection(alloc, out, left, form)?;
    let second = put_rejection(alloc, out, right, form)?;
    Ok(greater(first, second))
}

/// The same of two files that are not compared because of this one of them. Where each of them is accepted by itself, memory is
/// refused for both, and that is what is reported.
pub fn put_not_compared(
    alloc: Global,
    out: &mut String,
    left: Named<'_>,
    right: Named<'_>,
    side: Side,
    form: Form,
) -> Result<u8, Fault>
    ensures ok { IfOk result (λ status. (text : List ℕ) × (string_bytes out.new ≡ string_bytes out.old ++ text) × TellsNotCompared form left.entry right.entry side text status) }
    ensures err { IfErr result (λ fault. fault ≡ Fault.OutOfMemory) }
{
    let status = put_rejections(alloc, out, left, right, form)?;
    if status != DONE {
        return Ok(status);
    }
    let name = match side {
        Side::Left => left.name,
        Side::Right => right.name,
    };
    put_fault_line(out, name, Fault::OutOfMemory)?;
    Ok(REJECTED)
}

//! The commands `faults` and `warn`.
ghost use Rattle.std.specs.Prelude.{◌≡◌, ◌<◌, ◌-◌, ◌^◌, ◌&&◌, not, cond, map, IfOk, IfErr, OnOk, string_bytes};
ghost use Rattle.yaml_text.specs.CountedModel.{faults_of};
ghost use Rattle.review_faults.specs.Again.{CannotRead, CannotTell};
ghost use Rattle.review_faults.specs.FaultLines.{TellsFault};
ghost use Rattle.review_reports.specs.Reports.{room_for, AddsWarnings, Adds, TellsBytes, HasText, HasNoText, TellsFile, CutsFile, TellsFiles};

use review_args::{Report, Warn};
use review_compare::fault_of;
use review_faults::{list_warnings, put_fault, put_warnings};
use review_files::files::read_named;
use review_files::telling::{tell_bare, tell_unread};
use review_files::unread::{Unread, greater};
use review_text::options::Form;
use std::alloc::Global;
use std::io::{Read, Write};
use yaml_command::shelf::Shelf;
use yaml_command::streams::write_out;
use yaml_text::counted::Counted;
use yaml_text::fault::Fault;

const DONE: u8 = 0;

/// The status of a file that is rejected.
const REJECTED: u8 = 2;

/// The status of a file with a warning, where that is asked for.
const WARNED: u8 = 1;

/// What is told of each file.
#[derive(Clone, Copy)]
pub enum Kind<'w> {
    Faults,
    /// And of one that is accepted, these warnings.
    Warnings(&'w Warn<'w>),
}

/// Room for so many warnings, and for one at least, without which it would not be known whether there is one.
pub(crate) fn room_of(lines: usize) -> usize
    ensures { result ≡ room_for lines }
{
    if lines == 0 { 1 } else { lines }
}

/// The status of a file that is accepted.
pub(crate) fn warned_status(is_strict: bool, is_none: bool) -> u8
    ensures { result ≡ cond (is_strict && not is_none) 1 0 }
{
    if is_strict && !is_none { WARNED } else { DONE }
}

/// What is told of a fault of a file of these bytes.
#[tactic(auto, using(review_faults::proofs::AgainLaws::memory_told))]
fn fault_text(
    alloc: Global,
    name: &str,
    bytes: &[u8],
    fault: Fault,
    form: Form,
) -> Result<String, Fault>
    ensures ok { IfOk result (λ text. TellsFault form name.now bytes.now fault (string_bytes text)) }
    ensures err { IfErr result (CannotTell bytes.now fault) }
{
    let mut text = String::new(alloc);
    put_fault(alloc, &mut text, name, bytes, fault, form)?;
    Ok(text)
}

/// The warnings of a file that are asked for, and the status.
#[tactic(auto, using(review_faults::proofs::AgainLaws::memory_alone))]
fn warned_text(
    alloc: Global,
    warn: &Warn<'_>,
    name: &str,
    bytes: &[u8],
    form: Form,
) -> Result<(String, u8), Fault>
    ensures ok { IfOk result (λ told. AddsWarnings warn.now form name.now bytes.now (string_bytes told.0) told.1) }
    ensures err { IfErr result (CannotRead bytes.now) }
{
    let warnings = list_warnings(alloc, bytes, &warn.allowed, room_of(warn.lines))?;
    let status = warned_status(warn.is_strict, warnings.list.len() == 0);
    let mut text = String::new(alloc);
    if warn.lines == 0 {
        return Ok((text, status));
    }
    put_warnings(alloc, &mut text, name, &warnings, form)?;
    Ok((text, status))
}

/// What is told of a file that is accepted, and the status.
#[tactic(auto, using(review_faults::proofs::AgainLaws::memory_alone))]
fn accepted_text(
    alloc: Global,
    kind: Kind<'_>,
    name: &str,
    bytes: &[u8],
    form: Form,
) -> Result<(String, u8), Fault>
    ensures ok { IfOk result (λ told. Adds kind.entry form name.now bytes.now (string_bytes told.0) told.1) }
    ensures err { IfErr result (CannotRead bytes.now) }
{
    match kind {
        Kind::Faults => Ok((String::new(alloc), DONE)),
        Kind::Warnings(warn) => warned_text(alloc, warn, name, bytes, form),
    }
}

/// What is told of a file that was read, and the status.
#[tactic(auto, using(review_files::proofs::MemoryLaws::rejected_memory, review_files::proofs::MemoryLaws::accepted_memory))]
fn file_text(
    alloc: Global,
    kind: Kind<'_>,
    name: &str,
    bytes: &[u8],
    form: Form,
) -> Result<(String, u8), Fault>
    ensures ok { IfOk result (λ told. TellsBytes kind.entry form name.now bytes.now (string_bytes told.0) told.1) }
    ensures err { IfErr result (λ fault. fault ≡ Fault.OutOfMemory) }
{
    match fault_of(alloc, bytes) {
        Some(fault) => Ok((fault_text(alloc, name, bytes, fault, form)?, REJECTED)),
        None => accepted_text(alloc, kind, name, bytes, form),
    }
}

/// What is printed of a file, and its status; or why nothing is.
#[tactic(auto, using(review_files::proofs::MemoryLaws::unnamed_memory))]
fn told_of<S: Shelf, R: Read>(
    shelf: &S,
    alloc: Global,
    kind: Kind<'_>,
    name: &str,
    form: Form,
    input: &mut R,
) -> Result<(String, u8), Unread>
    ensures ok { IfOk result (λ told. HasText (S.holds shelf.now) R.remaining kind.entry form name.now input.old input.new (string_bytes told.0) told.1) }
    ensures err { IfErr result (HasNoText (S.holds shelf.now) R.remaining name.now input.old input.new) }
{
    match read_named(shelf, alloc, name, input) {
        Ok(bytes) => match file_text(alloc, kind, name, &bytes, form) {
            Ok(told) => Ok(told),
            Err(fault) => Err(Unread::Fault(fault)),
        },
        Err(Unread::Fault(Fault::TooLong)) => {
            match fault_text(alloc, name, &[], Fault::TooLong, form) {
                Ok(text) => Ok((text, REJECTED)),
                Err(fault) => Err(Unread::Fault(fault)),
            }
        }
        Err(unread) => Err(unread),
    }
}

/// Writes what there is to write of one file, and answers its status. Why a file cannot be read goes to standard error. An error is
/// that the output fails.
fn report<S: Shelf, R: Read, W: Write, E: Write>(
    shelf: &S,
    alloc: Global,
    kind: Kind<'_>,
    named: (&str, Form),
    input: &mut R,
    out: &mut Counted<W>,
    err: &mut E,
) -> Result<u8, Fault>
    requires { faults_of out.old < 2 ^ 64 - 1 }
    ensures ok { IfOk result (TellsFile (S.holds shelf.now) R.remaining W.contents kind.entry named.entry.1 named.entry.0.now input.old input.new out.old out.new) }
    ensures cut { IfErr result (CutsFile (S.holds shelf.now) R.remaining W.contents kind.entry named.entry.1 named.entry.0.now input.old input.new out.old out.new) }
    ensures kept { OnOk result (faults_of out.new ≡ faults_of out.old) }
{
    let (name, form) = named;
    let (text, status) = match told_of(shelf, alloc, kind, name, form, input) {
        Ok(told) => told,
        Err(unread) => return Ok(tell_unread(alloc, name, unread, err)),
    };
    write_out(out, text.as_bytes())?;
    Ok(status)
}

/// Tells of each file, and goes on to the next in any case but where the output fails. The status is the greatest of all.
pub fn reports<S: Shelf, R: Read, W: Write, E: Write>(
    shelf: &S,
    alloc: Global,
    kind: Kind<'_>,
    asked: &Report<'_>,
    input: &mut R,
    out: &mut Counted<W>,
    err: &mut E,
) -> u8
    requires { faults_of out.old < 2 ^ 64 - 1 }
    ensures tells { TellsFiles (S.holds shelf.now) R.remaining W.contents kind.entry asked.now.form (map (λ s. s.now) asked.now.files.items) input.old input.new out.old out.new result }
{
    let files = asked.files.as_slice();
    let form = asked.form;
    let mut status = DONE;
    'files: for name in files {
        match report(shelf, alloc, kind, (*name, form), input, out, err) {
            Ok(answer) => status = greater(status, answer),
            Err(fault) => return greater(status, tell_bare(fault, err)),
        }
    }
    status
}

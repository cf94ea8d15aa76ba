//! The commands `faults` and `warn`, of which all that is found is written as a whole.
ghost use Rattle.std.specs.Prelude.{◌≡◌, ◌<◌, ◌-◌, ◌^◌, ◌++◌, map, [], IfOk, IfErr, OnOk, string_bytes};
ghost use Rattle.yaml_text.specs.CountedModel.{faults_of};
ghost use Rattle.review_faults.specs.Again.{CannotRead, CannotTell};
ghost use Rattle.review_reports.specs.Reports.{HasNoText};
ghost use Rattle.review_reports.specs.Texts.{IsPageText, command_word, AreFound, IsListText};
ghost use Rattle.review_reports.specs.Pages.{AreFoundWarnings, FindsWarnings, FindsAccepted, FindsFault, FindsBytes, HasFound, FindsFile, FindsFiles, WritesPage, TellsPage};

use crate::findings::{fault_found, warning_found};
use crate::reports::{Kind, room_of, warned_status};
use review_args::{Report, Warn};
use review_compare::fault_of;
use review_faults::{Warning, list_warnings};
use review_files::files::read_named;
use review_files::telling::{tell_bare, tell_unread};
use review_files::unread::{Unread, greater};
use review_formats::{Finding, Findings, LeftOut, Part, github_text, markdown_text, sarif_text};
use review_html::html_text;
use review_text::options::Page;
use std::alloc::{AllocError, Global};
use std::io::{Read, Write};
use yaml_command::shelf::Shelf;
use yaml_command::streams::write_out;
use yaml_text::counted::Counted;
use yaml_text::fault::Fault;

const DONE: u8 = 0;

/// The status of a file that is rejected.
const REJECTED: u8 = 2;

/// What is found as text.
///
/// # Errors
/// 21: memory is refused.
pub fn page_text(alloc: Global, page: Page, found: &Findings) -> Result<String, AllocError>
    ensures ok { IfOk result (λ text. IsPageText page found.now (string_bytes text)) }
{
    match page {
        Page::Html => html_text(alloc, found),
        Page::Markdown => markdown_text(alloc, found),
        Page::Sarif => sarif_text(alloc, found),
        Page::Github => github_text(alloc, found),
    }
}

/// A fault of a file of this name and these bytes, as a list.
///
/// # Errors
/// Those of `fault_found`.
#[tactic(auto, using(review_faults::proofs::AgainLaws::memory_told))]
pub fn fault_list(
    alloc: Global,
    name: &str,
    bytes: &[u8],
    fault: Fault,
) -> Result<Vec<Finding>, Fault>
    ensures ok { IfOk result (λ list. FindsFault name.now bytes.now fault list.items) }
    ensures err { IfErr result (CannotTell bytes.now fault) }
{
    let mut list = Vec::new(alloc);
    list.push(fault_found(alloc, name, bytes, fault)?)?;
    Ok(list)
}

/// Warnings of a file, as they are found.
fn warnings_found(
    alloc: Global,
    name: &str,
    warnings: &[Warning],
) -> Result<Vec<Finding>, AllocError>
    ensures ok { IfOk result (λ list. AreFoundWarnings name.now warnings.now list.items) }
{
    let mut list = Vec::new(alloc);
    'warnings: for warning in warnings {
        list.push(warning_found(alloc, name, warning)?)?;
    }
    Ok(list)
}

/// The warnings of a file that are asked for, and the status.
#[tactic(auto, using(review_faults::proofs::AgainLaws::memory_alone))]
fn warned_list(
    alloc: Global,
    warn: &Warn<'_>,
    name: &str,
    bytes: &[u8],
) -> Result<(Vec<Finding>, u8), Fault>
    ensures ok { IfOk result (λ told. FindsWarnings warn.now name.now bytes.now told.0.items told.1) }
    ensures err { IfErr result (CannotRead bytes.now) }
{
    let warnings = list_warnings(alloc, bytes, &warn.allowed, room_of(warn.lines))?;
    let status = warned_status(warn.is_strict, warnings.list.len() == 0);
    if warn.lines == 0 {
        return Ok((Vec::new(alloc), status));
    }
    Ok((warnings_found(alloc, name, &warnings.list)?, status))
}

/// What is found in a file that is accepted, and the status.
#[tactic(auto, using(review_faults::proofs::AgainLaws::memory_alone))]
fn accepted_list(
    alloc: Global,
    kind: Kind<'_>,
    name: &str,
    bytes: &[u8],
) -> Result<(Vec<Finding>, u8), Fault>
    ensures ok { IfOk result (λ told. FindsAccepted kind.entry name.now bytes.now told.0.items told.1) }
    ensures err { IfErr result (CannotRead bytes.now) }
{
    match kind {
        Kind::Faults => Ok((Vec::new(alloc), DONE)),
        Kind::Warnings(warn) => warned_list(alloc, warn, name, bytes),
    }
}

/// What is found in a file that was read, and the status.
#[tactic(auto, using(review_files::proofs::MemoryLaws::rejected_memory, review_files::proofs::MemoryLaws::accepted_memory))]
fn bytes_list(
    alloc: Global,
    kind: Kind<'_>,
    name: &str,
    bytes: &[u8],
) -> Result<(Vec<Finding>, u8), Fault>
    ensures ok { IfOk result (λ told. FindsBytes kind.entry name.now bytes.now told.0.items told.1) }
    ensures err { IfErr result (λ fault. fault ≡ Fault.OutOfMemory) }
{
    match fault_of(alloc, bytes) {
        Some(fault) => Ok((fault_list(alloc, name, bytes, fault)?, REJECTED)),
        None => accepted_list(alloc, kind, name, bytes),
    }
}

/// What is found in a file, and its status; or why nothing is.
#[tactic(auto, using(review_files::proofs::MemoryLaws::unnamed_memory))]
fn list_of<S: Shelf, R: Read>(
    shelf: &S,
    alloc: Global,
    kind: Kind<'_>,
    name: &str,
    input: &mut R,
) -> Result<(Vec<Finding>, u8), Unread>
    ensures ok { IfOk result (λ told. HasFound (S.holds shelf.now) R.remaining kind.entry name.now input.old input.new told.0.items told.1) }
    ensures err { IfErr result (HasNoText (S.holds shelf.now) R.remaining name.now input.old input.new) }
{
    match read_named(shelf, alloc, name, input) {
        Ok(bytes) => match bytes_list(alloc, kind, name, &bytes) {
            Ok(told) => Ok(told),
            Err(fault) => Err(Unread::Fault(fault)),
        },
        Err(Unread::Fault(Fault::TooLong)) => match fault_list(alloc, name, &[], Fault::TooLong) {
            Ok(list) => Ok((list, REJECTED)),
            Err(fault) => Err(Unread::Fault(fault)),
        },
        Err(unread) => Err(unread),
    }
}

/// What is found in a file, and its status. Why a file cannot be read goes to standard error.
fn file_list<S: Shelf, R: Read, E: Write>(
    shelf: &S,
    alloc: Global,
    kind: Kind<'_>,
    name: &str,
    input: &mut R,
    err: &mut E,
) -> (Vec<Finding>, u8)
    ensures { FindsFile (S.holds shelf.now) R.remaining kind.entry name.now input.old input.new result.0.items result.1 }
{
    match list_of(shelf, alloc, kind, name, input) {
        Ok(told) => told,
        Err(unread) => {
            let status = tell_unread(alloc, name, unread, err);
            (Vec::new(alloc), status)
        }
    }
}

/// Adds what is found in a file to a list.
fn add(list: &mut Vec<Finding>, mut more: Vec<Finding>) -> Result<(), AllocError>
    ensures ok { OnOk result (list.new.items ≡ list.old.items ++ more.items) }
{
    list.append(&mut more)?;
    Ok(())
}

/// What is found in files, one after another, and the greatest status of all.
fn files_list<S: Shelf, R: Read, E: Write>(
    shelf: &S,
    alloc: Global,
    kind: Kind<'_>,
    files: &[&str],
    input: &mut R,
    err: &mut E,
) -> Result<(Vec<Finding>, u8), AllocError>
    ensures ok { IfOk result (λ told. FindsFiles (S.holds shelf.now) R.remaining kind.entry (map (λ s. s.now) files.now) input.old input.new told.0.items told.1) }
{
    let mut list = Vec::new(alloc);
    let mut status = DONE;
    'files: for name in files {
        let (more, answer) = file_list(shelf, alloc, kind, *name, input, err);
        add(&mut list, more)?;
        status = greater(status, answer);
    }
    Ok((list, status))
}

/// The command.
fn word_of(kind: Kind<'_>) -> &'static str
    ensures { result.now ≡ command_word kind.entry }
{
    match kind {
        Kind::Faults => "faults",
        Kind::Warnings(_) => "warn",
    }
}

/// What a command found, of which all is listed.
fn as_found(alloc: Global, kind: Kind<'_>, list: Vec<Finding>) -> Result<Findings, AllocError>
    ensures ok { IfOk result (AreFound kind.entry list.items) }
{
    let mut parts = Vec::new(alloc);
    parts.push(Part {
        name: None,
        list,
        shown: None,
        left_out: LeftOut::none(),
    })?;
    Ok(Findings {
        command: word_of(kind),
        names: None,
        parts,
    })
}

/// What a command found as text.
fn found_text(
    alloc: Global,
    kind: Kind<'_>,
    page: Page,
    list: Vec<Finding>,
) -> Result<String, AllocError>
    ensures ok { IfOk result (λ text. IsListText kind.entry page list.items (string_bytes text)) }
{
    page_text(alloc, page, &as_found(alloc, kind, list)?)
}

/// Writes what is found, and answers the status: that of the files, unless the output fails or memory is refused.
fn put_page<W: Write, E: Write>(
    alloc: Global,
    told: (Kind<'_>, Page),
    found: (Vec<Finding>, u8),
    out: &mut Counted<W>,
    err: &mut E,
) -> u8
    requires { faults_of out.old < 2 ^ 64 - 1 }
    ensures { WritesPage W.contents told.entry.0 told.entry.1 found.0.items out.old out.new found.1 result }
{
    let (kind, page) = told;
    let (list, status) = found;
    match found_text(alloc, kind, page, list) {
        Ok(text) => match write_out(out, text.as_bytes()) {
            Ok(()) => status,
            Err(fault) => greater(status, tell_bare(fault, err)),
        },
        Err(refused) => greater(status, tell_bare(refused.into(), err)),
    }
}

/// Looks at each file, and writes what is found as a whole. The status is the greatest of all.
pub fn pages<S: Shelf, R: Read, W: Write, E: Write>(
    shelf: &S,
    alloc: Global,
    told: (Kind<'_>, Page),
    asked: &Report<'_>,
    input: &mut R,
    out: &mut Counted<W>,
    err: &mut E,
) -> u8
    requires { faults_of out.old < 2 ^ 64 - 1 }
    ensures { TellsPage (S.holds shelf.now) R.remaining W.contents told.entry.0 told.entry.1 (map (λ s. s.now) asked.now.files.items) input.old input.new out.old out.new result }
{
    match files_list(shelf, alloc, told.0, &asked.files, input, err) {
        Ok(found) => put_page(alloc, told, found, out, err),
        Err(fault) => tell_bare(fault.into(), err),
    }
}

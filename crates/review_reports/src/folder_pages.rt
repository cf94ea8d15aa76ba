//! What differs in the files of two folders, as one page.
ghost use Rattle.std.specs.Prelude.{◌≡◌, ◌++◌, ◌<◌, ◌-◌, ◌^◌, [], List, IfOk, OnOk, string_bytes, IfErr};
ghost use Rattle.yaml_text.specs.CountedModel.{faults_of};
ghost use Rattle.review_formats.specs.declared.finding.Part.{Part};
ghost use Rattle.review_formats.specs.declared.finding.Sign.TheVariants as signs;
ghost use Rattle.review_reports.specs.FolderPages.{BytesFaults, FileFaults, alone_rule, ShowsSign, IsAlone, IsList, RejectedFound, BothFound, DeletedFound, NewFound, HasFound, HasPart, FindsParts, WritesParts, FolderShows};

use crate::entry::{Entry, Has, are_equal, path_in, status_of};
use crate::pages::fault_list;
use crate::parts::{lines_shown, list_found, parts_text};
use review_compare::{fault_of, list_sides};
use review_files::files::read_file;
use review_files::rejected::{Named, put_not_compared, put_rejection, put_rejections};
use review_files::telling::{put_line, tell_bare};
use review_files::unread::{Unread, greater};
use review_formats::{Finding, LeftOut, Level, Part, Sides, Sign};
use review_patterns::Pattern;
use review_text::options::{Diff, Page};
use review_text::put_visible;
use std::alloc::{AllocError, Global};
use std::io::Write;
use std::str;
use yaml_command::shelf::Shelf;
use yaml_command::streams::write_out;
use yaml_text::counted::Counted;
use yaml_text::fault::Fault;

const SAME: u8 = 0;

const DIFFERENT: u8 = 1;

/// How many lines are shown of a file that one folder alone has.
const FEW: usize = 400;

/// What a page has of a file, what goes to standard error, and the status.
#[derive(Drop)]
struct Found {
    part: Part,
    err: String,
    status: u8,
}

/// A list of what is found in a file, without lines of it.
fn part_with(list: Vec<Finding>) -> Part
    ensures { IsList list.items result }
{
    Part {
        name: None,
        list,
        shown: None,
        left_out: LeftOut::none(),
    }
}

/// The lines of a file, with escapes for the characters that would not be seen: of a long file the first ones.
fn content_of(alloc: Global, bytes: &[u8]) -> Result<String, AllocError> {
    let mut out = String::new(alloc);
    let text = str::from_utf8(bytes).unwrap_or("");
    for (number, line) in text
        .strip_suffix('\n')
        .unwrap_or(text)
        .split('\n')
        .enumerate()
    {
        if number == FEW {
            out.push_str("...\n")?;
            break;
        }
        put_visible(&mut out, line)?;
        out.push('\n')?;
    }
    Ok(out)
}

/// The text of a file that one folder alone has, if it was read.
fn content_sides(
    alloc: Global,
    sign: Sign,
    answer: &Result<Vec<u8>, Unread>,
) -> Result<Option<Sides>, AllocError>
    ensures ok { IfOk result (ShowsSign Page.Html sign) }
{
    let Ok(bytes) = answer else {
        return Ok(None);
    };
    let content = Some(content_of(alloc, bytes)?);
    let (left, right) = if sign == Sign::Left {
        (content, None)
    } else {
        (None, content)
    };
    Ok(Some(Sides {
        sign,
        others: 0,
        left,
        right,
        left_place: None,
        right_place: None,
        changes: None,
    }))
}

/// What a page shows of a file that one folder alone has.
fn sides_of(
    alloc: Global,
    page: Page,
    sign: Sign,
    answer: &Result<Vec<u8>, Unread>,
) -> Result<Option<Sides>, AllocError>
    ensures ok { IfOk result (ShowsSign page sign) }
{
    match page {
        Page::Html => content_sides(alloc, sign, answer),
        Page::Markdown | Page::Sarif | Page::Github => Ok(None),
    }
}

/// What a file is called that one folder alone has.
fn rule_of(sign: Sign) -> &'static str
    ensures { result.now ≡ alone_rule sign }
{
    match sign {
        Sign::Left => "deleted-file",
        Sign::Right | Sign::Changed | Sign::Moved => "new-file",
    }
}

/// A file that one folder alone has, and what reading it gave.
fn alone(
    alloc: Global,
    page: Page,
    sign: Sign,
    path: &str,
    answer: &Result<Vec<u8>, Unread>,
) -> Result<Finding, AllocError>
    ensures ok { IfOk result (IsAlone page sign path.now) }
{
    Ok(Finding {
        rule: rule_of(sign),
        level: Level::Note,
        file: path.to_string(alloc)?,
        place: None,
        path: None,
        message: sign.says().to_string(alloc)?,
        line: None,
        sides: sides_of(alloc, page, sign, answer)?,
    })
}

/// The fault of bytes that are rejected, as a list.
#[tactic(auto, using(review_files::proofs::MemoryLaws::rejected_memory))]
fn bytes_faults(alloc: Global, name: &str, bytes: &[u8]) -> Result<Vec<Finding>, Fault>
    ensures ok { IfOk result (λ list. BytesFaults name.now bytes.now list.items) }
    ensures err { IfErr result (λ fault. fault ≡ Fault.OutOfMemory) }
{
    match fault_of(alloc, bytes) {
        Some(fault) => fault_list(alloc, name, bytes, fault),
        None => Ok(Vec::new(alloc)),
    }
}

/// Why a file is rejected, if it is.
#[tactic(auto, using(review_files::proofs::MemoryLaws::unnamed_memory))]
fn file_faults(alloc: Global, file: Named<'_>) -> Result<Vec<Finding>, Fault>
    ensures ok { IfOk result (λ list. FileFaults file.entry list.items) }
    ensures err { IfErr result (λ fault. fault ≡ Fault.OutOfMemory) }
{
    match file.answer {
        Ok(bytes) => bytes_faults(alloc, file.name, bytes),
        Err(Unread::Fault(Fault::TooLong)) => fault_list(alloc, file.name, &[], Fault::TooLong),
        Err(_) => Ok(Vec::new(alloc)),
    }
}

/// What is found of a file that the left folder alone has.
fn deleted_found<S: Shelf>(
    shelf: &S,
    alloc: Global,
    asked: &Diff<'_>,
    page: Page,
    name: &str,
) -> Result<Found, AllocError>
    ensures ok { IfOk result (λ found. DeletedFound (S.holds shelf.now) asked.now page name.now found.part (string_bytes found.err) found.status) }
{
    let path = path_in(alloc, asked.left, name)?;
    let answer = read_file(shelf, alloc, path.as_str());
    let mut list = Vec::new(alloc);
    list.push(alone(alloc, page, Sign::Left, path.as_str(), &answer)?)?;
    Ok(Found {
        part: part_with(list),
        err: String::new(alloc),
        status: DIFFERENT,
    })
}

/// What is found of a file that the right folder alone has.
fn new_found<S: Shelf>(
    shelf: &S,
    alloc: Global,
    asked: &Diff<'_>,
    page: Page,
    name: &str,
) -> Result<Found, Fault>
    ensures ok { IfOk result (λ found. NewFound (S.holds shelf.now) asked.now page name.now found.part (string_bytes found.err) found.status) }
    ensures err { IfErr result (λ fault. fault ≡ Fault.OutOfMemory) }
{
    let path = path_in(alloc, asked.right, name)?;
    let answer = read_file(shelf, alloc, path.as_str());
    let file = Named {
        name: path.as_str(),
        answer: &answer,
    };
    let mut err = String::new(alloc);
    let status = put_rejection(alloc, &mut err, file, asked.form)?;
    let mut list = Vec::new(alloc);
    list.push(alone(alloc, page, Sign::Right, path.as_str(), &answer)?)?;
    let mut faults = file_faults(alloc, file)?;
    list.append(&mut faults)?;
    Ok(Found {
        part: part_with(list),
        err,
        status: greater(status, DIFFERENT),
    })
}

/// Why two files are not compared: the faults of each.
fn faults_found(alloc: Global, left: Named<'_>, right: Named<'_>) -> Result<Part, Fault>
    ensures ok { IfOk result (λ part. (first : List Finding) × (second : List Finding) × FileFaults left.entry first × FileFaults right.entry second × IsList (first ++ second) part) }
    ensures err { IfErr result (λ fault. fault ≡ Fault.OutOfMemory) }
{
    let mut list = file_faults(alloc, left)?;
    let mut more = file_faults(alloc, right)?;
    list.append(&mut more)?;
    Ok(part_with(list))
}

/// Two files in which nothing is found.
fn nothing(alloc: Global) -> Found
    ensures { IsList [] result.part × (string_bytes result.err ≡ []) × (result.status ≡ 0) }
{
    Found {
        part: part_with(Vec::new(alloc)),
        err: String::new(alloc),
        status: SAME,
    }
}

/// What is found of a file that both folders have. Equal bytes are the same, whether they are accepted or not.
fn both_found<S: Shelf>(
    shelf: &S,
    alloc: Global,
    asked: &Diff<'_>,
    page: Page,
    ignored: &[Pattern<'_>],
    name: &str,
) -> Result<Found, Fault>
    ensures ok { IfOk result (λ found. BothFound (S.holds shelf.now) asked.now ignored.now page name.now found.part (string_bytes found.err) found.status) }
    ensures err { IfErr result (λ fault. fault ≡ Fault.OutOfMemory) }
{
    let left_path = path_in(alloc, asked.left, name)?;
    let right_path = path_in(alloc, asked.right, name)?;
    let left = read_file(shelf, alloc, left_path.as_str());
    let right = read_file(shelf, alloc, right_path.as_str());
    let first = Named {
        name: left_path.as_str(),
        answer: &left,
    };
    let second = Named {
        name: right_path.as_str(),
        answer: &right,
    };
    let mut err = String::new(alloc);
    let (Ok(one), Ok(other)) = (&left, &right) else {
        let status = put_rejections(alloc, &mut err, first, second, asked.form)?;
        let part = faults_found(alloc, first, second)?;
        return Ok(Found { part, err, status });
    };
    if are_equal(one.as_slice(), other.as_slice()) {
        return Ok(nothing(alloc));
    }
    match list_sides(alloc, asked, ignored, one, other) {
        Ok(listed) => {
            let part = Part {
                name: None,
                list: list_found(alloc, &listed, first.name, second.name)?,
                shown: lines_shown(alloc, page, first.name, one, second.name, other)?,
                left_out: listed.left_out,
            };
            Ok(Found {
                part,
                err,
                status: status_of(listed.same),
            })
        }
        Err(side) => {
            let status = put_not_compared(alloc, &mut err, first, second, side, asked.form)?;
            let part = faults_found(alloc, first, second)?;
            Ok(Found { part, err, status })
        }
    }
}

/// What is found of the file of a name.
fn found_of<S: Shelf>(
    shelf: &S,
    alloc: Global,
    asked: &Diff<'_>,
    page: Page,
    ignored: &[Pattern<'_>],
    entry: Entry<'_>,
) -> Result<Found, Fault>
    ensures ok { IfOk result (λ found. HasFound (S.holds shelf.now) entry.entry.has asked.now ignored.now page entry.entry.name.now found.part (string_bytes found.err) found.status) }
    ensures err { IfErr result (λ fault. fault ≡ Fault.OutOfMemory) }
{
    match entry.has {
        Has::Left => Ok(deleted_found(shelf, alloc, asked, page, entry.name)?),
        Has::Both => both_found(shelf, alloc, asked, page, ignored, entry.name),
        Has::Right => new_found(shelf, alloc, asked, page, entry.name),
    }
}

/// Adds a part with the name of its file, if something is found there.
fn add_part(alloc: Global, parts: &mut Vec<Part>, part: Part, name: &str) -> Result<(), AllocError>
    ensures ok { OnOk result ((own : List Part) × HasPart name.now part own × (parts.new.items ≡ parts.old.items ++ own)) }
{
    if part.list.len() == 0 {
        return Ok(());
    }
    parts.push(Part {
        name: Some(name.to_string(alloc)?),
        list: part.list,
        shown: part.shown,
        left_out: part.left_out,
    })?;
    Ok(())
}

/// The parts of a page of two folders, and the greatest status of all files. Why a file is rejected goes to standard error too.
fn parts_of<S: Shelf, E: Write>(
    shelf: &S,
    alloc: Global,
    asked: &Diff<'_>,
    page: Page,
    ignored: &[Pattern<'_>],
    entries: &[Entry<'_>],
    err: &mut E,
) -> Result<(Vec<Part>, u8), Fault>
    ensures ok { IfOk result (λ told. FindsParts (S.holds shelf.now) E.contents asked.now ignored.now page entries.now told.0.items err.old err.new told.1) }
    ensures err { IfErr result (λ fault. fault ≡ Fault.OutOfMemory) }
{
    let mut parts = Vec::new(alloc);
    let mut status = SAME;
    'entries: for entry in entries {
        let found = found_of(shelf, alloc, asked, page, ignored, *entry)?;
        put_line(&found.err, err);
        status = greater(status, found.status);
        add_part(alloc, &mut parts, found.part, entry.name)?;
    }
    Ok((parts, status))
}

/// Writes the page, and answers the status: that of the files, unless the output fails or memory is refused.
fn put_parts<W: Write, E: Write>(
    alloc: Global,
    told: (&Diff<'_>, Page),
    found: (Vec<Part>, u8),
    out: &mut Counted<W>,
    err: &mut E,
) -> u8
    requires { faults_of out.old < 2 ^ 64 - 1 }
    ensures { WritesParts W.contents told.entry.0.now told.entry.1 found.0.items out.old out.new found.1 result }
{
    let (asked, page) = told;
    let (parts, status) = found;
    if asked.lines == 0 {
        return status;
    }
    match parts_text(alloc, asked, page, parts) {
        Ok(text) => match write_out(out, text.as_bytes()) {
            Ok(()) => status,
            Err(fault) => greater(status, tell_bare(fault, err)),
        },
        Err(refused) => greater(status, tell_bare(refused.into(), err)),
    }
}

/// Writes what differs in the files of two folders as one page, but for what is at or below a path that one of the patterns matches, and
/// answers the greatest status of all files.
pub fn folder_page<S: Shelf, W: Write, E: Write>(
    shelf: &S,
    alloc: Global,
    told: (&Diff<'_>, Page),
    ignored: &[Pattern<'_>],
    entries: &[Entry<'_>],
    out: &mut Counted<W>,
    err: &mut E,
) -> u8
    requires { faults_of out.old < 2 ^ 64 - 1 }
    ensures { FolderShows (S.holds shelf.now) W.contents E.contents told.entry.0.now ignored.now told.entry.1 entries.now out.old out.new err.old result }
{
    match parts_of(shelf, alloc, told.0, told.1, ignored, entries, err) {
        Ok(found) => put_parts(alloc, told, found, out, err),
        Err(refused) => tell_bare(refused.into(), err),
    }
}

//! What differs in the files of two folders, as lines.
ghost use Rattle.std.specs.Prelude.{◌≡◌, ◌++◌, ◌<◌, ◌-◌, ◌^◌, [], codes, IfOk, IfErr, OnOk, string_bytes};
ghost use Rattle.yaml_text.specs.CountedModel.{faults_of};
ghost use Rattle.yaml_text.specs.Writers.{Printed};
ghost use Rattle.yaml_command.specs.Printing.{PrintFails};
ghost use Rattle.review_files.specs.Lines.{TakesLine};
ghost use Rattle.review_reports.specs.Folders.{NewTold};
ghost use Rattle.review_reports.specs.Printed.{has_lines, file_object, name_line, name_text, alone_line, alone_text, head_text, lines_text, AsksFiles, BothTold, EntryTold, PrintsEntry, CutsEntry, FolderPrints};

use crate::entry::{Entry, Has, are_equal, path_in, status_of};
use review_compare::compare_sides;
use review_files::files::read_file;
use review_files::rejected::{Named, put_not_compared, put_rejection, put_rejections};
use review_files::telling::{put_line, tell_bare};
use review_files::unread::greater;
use review_lines::Compared;
use review_patterns::Pattern;
use review_text::json::{Said, put_object};
use review_text::options::{Diff, Form};
use review_text::put_shown;
use review_text::text::put_all;
use std::alloc::{AllocError, Global};
use std::io::Write;
use yaml_command::shelf::Shelf;
use yaml_command::streams::write_out;
use yaml_text::counted::Counted;
use yaml_text::fault::Fault;

const SAME: u8 = 0;

const DIFFERENT: u8 = 1;

/// What is printed of a file, on either stream, and its status.
#[derive(Drop)]
struct Told {
    out: String,
    err: String,
    status: u8,
}

/// Whether lines are printed, and not the status alone or numbers.
fn has_lines(asked: &Diff<'_>) -> bool
    ensures { result ≡ has_lines asked.now }
{
    asked.lines > 0 && !asked.stat
}

/// Writes a JSON object of a file.
fn put_file(alloc: Global, out: &mut String, kind: &str, name: &str) -> Result<(), AllocError>
    ensures ok { OnOk result (string_bytes out.new ≡ string_bytes out.old ++ file_object kind.now name.now) }
{
    let members = [
        ("kind", Said::Text(Some(kind))),
        ("file", Said::Text(Some(name))),
    ];
    put_object(alloc, out, &members)
}

/// Writes the line of a name.
fn put_name_line(out: &mut String, name: &str) -> Result<(), AllocError>
    ensures ok { OnOk result (string_bytes out.new ≡ string_bytes out.old ++ name_line name.now) }
{
    out.push_str("diff ")?;
    put_shown(out, name)?;
    out.push_str("\n")?;
    Ok(())
}

/// Writes the name of a file, before what is printed of it.
fn put_name(alloc: Global, out: &mut String, form: Form, name: &str) -> Result<(), AllocError>
    ensures ok { OnOk result (string_bytes out.new ≡ string_bytes out.old ++ name_text form name.now) }
{
    match form {
        Form::Line => put_name_line(out, name),
        Form::Json => put_file(alloc, out, "file", name),
    }
}

/// Writes that one folder alone has a file: the words below its name, or before it where no lines are printed.
fn put_alone_line(
    out: &mut String,
    is_listed: bool,
    words: &str,
    name: &str,
) -> Result<(), AllocError>
    ensures ok { OnOk result (string_bytes out.new ≡ string_bytes out.old ++ alone_line is_listed words.now name.now) }
{
    if is_listed {
        put_name_line(out, name)?;
        return put_all(out, &[words, "\n"]);
    }
    put_all(out, &[words, " "])?;
    put_shown(out, name)?;
    out.push_str("\n")?;
    Ok(())
}

/// Writes that one folder alone has a file, if anything is printed.
fn put_alone(
    alloc: Global,
    out: &mut String,
    asked: &Diff<'_>,
    words: &str,
    name: &str,
) -> Result<(), AllocError>
    ensures ok { OnOk result (string_bytes out.new ≡ string_bytes out.old ++ alone_text asked.now words.now name.now) }
{
    if asked.lines == 0 {
        return Ok(());
    }
    match asked.form {
        Form::Line => put_alone_line(out, has_lines(asked), words, name),
        Form::Json => put_file(alloc, out, words, name),
    }
}

/// What is printed of a file that the left folder alone has.
fn deleted_told(alloc: Global, asked: &Diff<'_>, name: &str) -> Result<Told, AllocError>
    ensures ok { IfOk result (λ told. (string_bytes told.out ≡ alone_text asked.now (codes "deleted file") name.now) × (string_bytes told.err ≡ []) × (told.status ≡ 1)) }
{
    let mut out = String::new(alloc);
    put_alone(alloc, &mut out, asked, "deleted file", name)?;
    Ok(Told {
        out,
        err: String::new(alloc),
        status: DIFFERENT,
    })
}

/// What is printed of a file that the right folder alone has.
fn new_told<S: Shelf>(shelf: &S, alloc: Global, asked: &Diff<'_>, name: &str) -> Result<Told, Fault>
    ensures out { IfOk result (λ told. string_bytes told.out ≡ alone_text asked.now (codes "new file") name.now) }
    ensures told { IfOk result (λ told. NewTold (S.holds shelf.now) asked.now name.now (string_bytes told.err) told.status) }
    ensures err { IfErr result (λ fault. fault ≡ Fault.OutOfMemory) }
{
    let mut out = String::new(alloc);
    let mut err = String::new(alloc);
    put_alone(alloc, &mut out, asked, "new file", name)?;
    let path = path_in(alloc, asked.right, name)?;
    let answer = read_file(shelf, alloc, path.as_str());
    let file = Named {
        name: path.as_str(),
        answer: &answer,
    };
    let status = put_rejection(alloc, &mut err, file, asked.form)?;
    Ok(Told {
        out,
        err,
        status: greater(status, DIFFERENT),
    })
}

/// What is asked of two folders, of two files that are called by this name.
fn of_files<'n>(asked: &Diff<'n>, name: &'n str) -> Diff<'n>
    ensures { AsksFiles asked.now name.now result }
{
    Diff {
        left: name,
        right: name,
        places: asked.places,
        whole: asked.whole,
        lines: asked.lines,
        form: asked.form,
        context: asked.context,
        color: asked.color,
        stat: asked.stat,
        by_position: asked.by_position,
        by: asked.by,
        folds: asked.folds,
        paths: asked.paths,
    }
}

/// Writes the name of a file that both folders have, where lines are printed.
fn put_head(alloc: Global, out: &mut String, asked: &Diff<'_>, name: &str) -> Result<(), AllocError>
    ensures ok { OnOk result (string_bytes out.new ≡ string_bytes out.old ++ head_text asked.now name.now) }
{
    if has_lines(asked) {
        put_name(alloc, out, asked.form, name)
    } else {
        Ok(())
    }
}

/// What is printed of two files that are compared.
fn lines_of(
    alloc: Global,
    asked: &Diff<'_>,
    name: &str,
    compared: &Compared,
) -> Result<String, AllocError>
    ensures ok { IfOk result (λ text. string_bytes text ≡ lines_text asked.now name.now compared.now.same (string_bytes compared.now.text)) }
{
    let mut out = String::new(alloc);
    if compared.same {
        return Ok(out);
    }
    put_head(alloc, &mut out, asked, name)?;
    out.push_str(&compared.text)?;
    Ok(out)
}

/// What is printed of two files of which nothing is told.
fn untold(alloc: Global) -> Told
    ensures { (string_bytes result.out ≡ []) × (string_bytes result.err ≡ []) × (result.status ≡ 0) }
{
    Told {
        out: String::new(alloc),
        err: String::new(alloc),
        status: SAME,
    }
}

/// What is printed of a file that both folders have. Equal bytes are the same, whether they are accepted or not.
fn both_told<S: Shelf>(
    shelf: &S,
    alloc: Global,
    asked: &Diff<'_>,
    ignored: &[Pattern<'_>],
    name: &str,
) -> Result<Told, Fault>
    ensures ok { IfOk result (λ told. BothTold (S.holds shelf.now) asked.now ignored.now name.now (string_bytes told.out) (string_bytes told.err) told.status) }
    ensures err { IfErr result (λ fault. fault ≡ Fault.OutOfMemory) }
{
    let left_path = path_in(alloc, asked.left, name)?;
    let right_path = path_in(alloc, asked.right, name)?;
    let left = read_file(shelf, alloc, left_path.as_str());
    let right = read_file(shelf, alloc, right_path.as_str());
    let first = Named {
        name: left_path.as_str(),
        answer: &left,
    };
    let second = Named {
        name: right_path.as_str(),
        answer: &right,
    };
    let mut err = String::new(alloc);
    let (Ok(one), Ok(other)) = (&left, &right) else {
        let status = put_rejections(alloc, &mut err, first, second, asked.form)?;
        return Ok(Told {
            out: String::new(alloc),
            err,
            status,
        });
    };
    if are_equal(one.as_slice(), other.as_slice()) {
        return Ok(untold(alloc));
    }
    match compare_sides(alloc, &of_files(asked, name), ignored, one, other) {
        Ok(compared) => Ok(Told {
            out: lines_of(alloc, asked, name, &compared)?,
            err,
            status: status_of(compared.same),
        }),
        Err(side) => {
            let status = put_not_compared(alloc, &mut err, first, second, side, asked.form)?;
            Ok(Told {
                out: String::new(alloc),
                err,
                status,
            })
        }
    }
}

/// What is printed of the file of a name.
fn told_of<S: Shelf>(
    shelf: &S,
    alloc: Global,
    asked: &Diff<'_>,
    ignored: &[Pattern<'_>],
    entry: Entry<'_>,
) -> Result<Told, Fault>
    ensures ok { IfOk result (λ told. EntryTold (S.holds shelf.now) asked.now ignored.now entry.entry (string_bytes told.out) (string_bytes told.err) told.status) }
    ensures err { IfErr result (λ fault. fault ≡ Fault.OutOfMemory) }
{
    match entry.has {
        Has::Left => Ok(deleted_told(alloc, asked, entry.name)?),
        Has::Both => both_told(shelf, alloc, asked, ignored, entry.name),
        Has::Right => new_told(shelf, alloc, asked, entry.name),
    }
}

/// Writes what is printed of a file, and answers its status.
fn put_told<W: Write, E: Write>(told: &Told, out: &mut Counted<W>, err: &mut E) -> Result<u8, Fault>
    requires { faults_of out.old < 2 ^ 64 - 1 }
    ensures line { TakesLine E.contents err.old err.new (string_bytes told.now.err) }
    ensures printed { OnOk result (Printed W.contents out.old out.new (string_bytes told.now.out)) }
    ensures status { IfOk result (λ status. status ≡ told.now.status) }
    ensures cut { IfErr result (PrintFails W.contents out.old out.new (string_bytes told.now.out)) }
{
    put_line(&told.err, err);
    match write_out(out, told.out.as_bytes()) {
        Ok(()) => Ok(told.status),
        Err(fault) => Err(fault),
    }
}

/// Prints what differs in the file of a name, and answers its status.
fn tell_of<S: Shelf, W: Write, E: Write>(
    shelf: &S,
    alloc: Global,
    asked: &Diff<'_>,
    ignored: &[Pattern<'_>],
    entry: Entry<'_>,
    out: &mut Counted<W>,
    err: &mut E,
) -> Result<u8, Fault>
    requires { faults_of out.old < 2 ^ 64 - 1 }
    ensures ok { IfOk result (PrintsEntry (S.holds shelf.now) W.contents E.contents asked.now ignored.now entry.entry out.old out.new err.old err.new) }
    ensures cut { IfErr result (CutsEntry (S.holds shelf.now) W.contents E.contents asked.now ignored.now entry.entry out.old out.new err.old err.new) }
{
    match told_of(shelf, alloc, asked, ignored, entry) {
        Ok(told) => put_told(&told, out, err),
        Err(refused) => Err(refused.into()),
    }
}

/// Prints what differs in the files of two folders, but for what is at or below a path that one of the patterns matches, and answers the
/// greatest status of all files.
pub fn folder_lines<S: Shelf, W: Write, E: Write>(
    shelf: &S,
    alloc: Global,
    asked: &Diff<'_>,
    ignored: &[Pattern<'_>],
    entries: &[Entry<'_>],
    out: &mut Counted<W>,
    err: &mut E,
) -> u8
    requires { faults_of out.old < 2 ^ 64 - 1 }
    ensures { FolderPrints (S.holds shelf.now) W.contents E.contents asked.now ignored.now entries.now out.old out.new err.old err.new result }
{
    let mut status = SAME;
    'entries: for entry in entries {
        match tell_of(shelf, alloc, asked, ignored, *entry, out, err) {
            Ok(answer) => status = greater(status, answer),
            Err(fault) => return greater(status, tell_bare(fault, err)),
        }
    }
    status
}

//! What two files have differently.
ghost use Rattle.std.specs.Prelude.{◌≡◌, ◌++◌, ℕ, List, IfOk, OnOk, MatchOption, codes, string_bytes, IfErr};
ghost use Rattle.review_text.specs.declared.options.Form.TheVariants.{Line};
ghost use Rattle.review_files.specs.Named.{NotBothRead};
ghost use Rattle.review_files.specs.Told.{TellsBoth};
ghost use Rattle.review_git.specs.Files.{AreRead, AsksLines, TellsDifferences, TellsRead, TellsFiles};
ghost use Rattle.review_git.specs.Heads.{right_path};
ghost use Rattle.review_git.specs.Texts.{OfFiles, OfNewFile, IsNew};

use crate::asked::{Kind, Pair, Style};
use crate::git_show::put_shown_lines;
use crate::heads::put_alone;
use review_compare::compare_sides;
use review_files::files::read_file;
use review_files::rejected::{Named, put_not_compared, put_rejection, put_rejections};
use review_files::unread::Unread;
use review_text::options::{Diff, Form, Paths};
use std::alloc::{AllocError, Global};
use yaml_command::shelf::Shelf;
use yaml_text::fault::Fault;

/// How many lines `git` prints for a file.
const LINES: usize = 1_000;

/// What reading a file gave, with its name.
pub(crate) fn named<'n>(name: &'n str, answer: &'n Result<Vec<u8>, Unread>) -> Named<'n>
    ensures { (result.name.now ≡ name.now) × (result.answer.now ≡ answer.now) }
{
    Named { name, answer }
}

/// A path as git labels it on one side.
fn label(alloc: Global, side: &str, path: &str) -> Result<String, AllocError>
    ensures ok { IfOk result (λ name. string_bytes name ≡ side.now ++ path.now) }
{
    let mut name = String::new(alloc);
    name.push_str(side)?;
    name.push_str(path)?;
    Ok(name)
}

/// The label of the right path, which a renamed file has anew.
fn right_label(alloc: Global, pair: Pair<'_>) -> Result<String, AllocError>
    ensures ok { IfOk result (λ name. string_bytes name ≡ codes "b/" ++ right_path pair.entry) }
{
    match pair.renamed {
        Some((path, _)) => label(alloc, "b/", path),
        None => label(alloc, "b/", pair.path),
    }
}

/// What is asked of the differences of two files of these names.
fn lines_of<'n>(left: &'n str, right: &'n str, color: bool) -> Diff<'n>
    ensures { AsksLines left.now right.now color result }
{
    Diff {
        left,
        right,
        places: true,
        whole: false,
        lines: LINES,
        form: Form::Line,
        context: 0,
        color,
        stat: false,
        by_position: false,
        by: &[],
        folds: true,
        paths: Paths::Plain,
    }
}

/// Writes the lines of the differences of two files that are read; or why they are not compared.
fn put_compared(
    alloc: Global,
    out: &mut String,
    left: Named<'_>,
    right: Named<'_>,
    first: &[u8],
    second: &[u8],
    color: bool,
) -> Result<(), Fault>
    ensures ok { OnOk result ((text : List ℕ) × (string_bytes out.new ≡ string_bytes out.old ++ text) × TellsDifferences color left.entry right.entry first.now second.now text) }
    ensures err { IfErr result (λ fault. fault ≡ Fault.OutOfMemory) }
{
    let asked = lines_of(left.name, right.name, color);
    match compare_sides(alloc, &asked, &[], first, second) {
        Ok(told) => out.push_str(&told.text)?,
        Err(side) => {
            put_not_compared(alloc, out, left, right, side, Form::Line)?;
        }
    }
    Ok(())
}

/// The bytes of two files, if both are read.
pub(crate) fn both_of<'n>(left: Named<'n>, right: Named<'n>) -> Option<(&'n [u8], &'n [u8])>
    ensures { MatchOption result (NotBothRead left.entry.answer.now right.entry.answer.now) (λ read. AreRead left.entry right.entry read.0.now read.1.now) }
{
    match left.answer {
        Ok(first) => match right.answer {
            Ok(second) => Some((first.as_slice(), second.as_slice())),
            Err(_) => None,
        },
        Err(_) => None,
    }
}

/// Writes why each of two files is not read or is rejected, if it is.
pub(crate) fn put_unread(
    alloc: Global,
    out: &mut String,
    left: Named<'_>,
    right: Named<'_>,
) -> Result<(), Fault>
    ensures ok { OnOk result ((text : List ℕ) × (string_bytes out.new ≡ string_bytes out.old ++ text) × ((status : ℕ) × TellsBoth Line left.entry right.entry text status)) }
    ensures err { IfErr result (λ fault. fault ≡ Fault.OutOfMemory) }
{
    put_rejections(alloc, out, left, right, Form::Line)?;
    Ok(())
}

/// Writes what two files that are read have differently, as differences or as lines of what `show` writes.
fn put_read(
    alloc: Global,
    out: &mut String,
    left: Named<'_>,
    right: Named<'_>,
    read: (&[u8], &[u8]),
    style: Style,
) -> Result<(), Fault>
    ensures ok { OnOk result ((text : List ℕ) × (string_bytes out.new ≡ string_bytes out.old ++ text) × TellsRead style left.entry right.entry read.entry.0.now read.entry.1.now text) }
    ensures err { IfErr result (λ fault. fault ≡ Fault.OutOfMemory) }
{
    match style {
        Style::Shown => put_shown_lines(alloc, out, (left.name, read.0), (right.name, read.1)),
        Style::Differences(color) => {
            put_compared(alloc, out, left, right, read.0, read.1, color)
        }
    }
}

/// The same of two files of which it is not known whether they are read.
fn put_files(
    alloc: Global,
    out: &mut String,
    left: Named<'_>,
    right: Named<'_>,
    style: Style,
) -> Result<(), Fault>
    ensures ok { OnOk result ((text : List ℕ) × (string_bytes out.new ≡ string_bytes out.old ++ text) × TellsFiles style left.entry right.entry text) }
    ensures err { IfErr result (λ fault. fault ≡ Fault.OutOfMemory) }
{
    match both_of(left, right) {
        Some(read) => put_read(alloc, out, left, right, read, style),
        None => put_unread(alloc, out, left, right),
    }
}

/// Writes what the two files of a pair have differently; or, of each that is not read or is rejected, what `faults` prints.
pub(crate) fn put_differences<S: Shelf>(
    shelf: &S,
    alloc: Global,
    out: &mut String,
    pair: Pair<'_>,
) -> Result<(), Fault>
    ensures ok { OnOk result ((text : List ℕ) × (string_bytes out.new ≡ string_bytes out.old ++ text) × OfFiles (S.holds shelf.now) pair.entry text) }
    ensures err { IfErr result (λ fault. fault ≡ Fault.OutOfMemory) }
{
    let left_name = label(alloc, "a/", pair.path)?;
    let right_name = right_label(alloc, pair)?;
    let left = read_file(shelf, alloc, pair.left.file);
    let right = read_file(shelf, alloc, pair.right.file);
    let first = named(left_name.as_str(), &left);
    let second = named(right_name.as_str(), &right);
    put_files(alloc, out, first, second, pair.style)
}

/// Writes why a new file is rejected, if it is.
fn put_new_file<S: Shelf>(
    shelf: &S,
    alloc: Global,
    out: &mut String,
    pair: Pair<'_>,
) -> Result<(), Fault>
    ensures ok { OnOk result ((text : List ℕ) × (string_bytes out.new ≡ string_bytes out.old ++ text) × OfNewFile (S.holds shelf.now) pair.entry text) }
    ensures err { IfErr result (λ fault. fault ≡ Fault.OutOfMemory) }
{
    let name = right_label(alloc, pair)?;
    let answer = read_file(shelf, alloc, pair.right.file);
    put_rejection(alloc, out, named(name.as_str(), &answer), Form::Line)?;
    Ok(())
}

/// Writes that a file is new, and why it is rejected, if it is.
pub(crate) fn put_new<S: Shelf>(
    shelf: &S,
    alloc: Global,
    out: &mut String,
    pair: Pair<'_>,
) -> Result<(), Fault>
    ensures ok { OnOk result ((text : List ℕ) × (string_bytes out.new ≡ string_bytes out.old ++ text) × IsNew (S.holds shelf.now) pair.entry text) }
    ensures err { IfErr result (λ fault. fault ≡ Fault.OutOfMemory) }
{
    put_alone(out, "new file", pair.right)?;
    match pair.right.kind() {
        Kind::File => put_new_file(shelf, alloc, out, pair),
        Kind::None | Kind::Link | Kind::Submodule => Ok(()),
    }
}

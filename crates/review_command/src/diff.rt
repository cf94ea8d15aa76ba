//! The command `diff`.
ghost use Rattle.std.specs.Prelude.{◌≡◌, ◌<◌, ◌-◌, ◌^◌, ℕ, List, Option, cond, IfOk, IfErr, string_bytes};
ghost use Rattle.yaml_text.specs.CountedModel.{faults_of};
ghost use Rattle.review_files.specs.Named.{AreNamed, AreNotBoth};
ghost use Rattle.review_command.specs.Diffs.{DiffTells, DiffShows, IsFilePage};
ghost use Rattle.review_command.specs.Rejections.{Refuses, DiffRefuses, PageRefuses};
ghost use Rattle.review_command.specs.declared.diff.NoDiff.TheVariants.{Fault as NoText};
ghost use Rattle.yaml_text.specs.declared.fault.Fault.TheVariants.{OutOfMemory};

use review_compare::{compare_sides, list_sides};
use review_files::files::{NotBoth, read_both};
use review_files::rejected::{Named, put_not_compared, put_rejections};
use review_files::unread::Unread;
use review_formats::Part;
use review_lines::Listed;
use review_patterns::Pattern;
use review_reports::{lines_shown, list_found, parts_text};
use review_text::options::{Diff, Page};
use std::alloc::{AllocError, Global};
use std::io::{Read, Write};
use yaml_canon::Side;
use yaml_command::shelf::Shelf;
use yaml_command::streams::write_out;
use yaml_text::counted::Counted;
use yaml_text::fault::Fault;

/// Why two files are not compared, or the lines of their differences are not written.
#[derive(Drop)]
pub enum NoDiff {
    /// Both files are standard input, which is read once.
    OneInput,
    /// One at least is not read or is rejected: what is printed of both, as `faults` does, and the status.
    Rejected(String, u8),
    /// The output fails, or memory is refused.
    Fault(Fault),
}

/// The same where no text is made of it, which is want of memory.
fn or_fault(answer: Result<NoDiff, Fault>) -> NoDiff
    ensures ok { IfOk answer (λ none. result ≡ none) }
    ensures err { IfErr answer (λ fault. result ≡ NoText OutOfMemory) }
{
    match answer {
        Ok(none) => none,
        Err(_) => NoDiff::Fault(Fault::OutOfMemory),
    }
}

/// The status of two streams that are the same, or differ.
fn status_of(same: bool) -> u8
    ensures { result ≡ cond same 0 1 }
{
    if same { 0 } else { 1 }
}

/// What reading a file gave, with its name.
fn named<'n>(name: &'n str, answer: &'n Result<Vec<u8>, Unread>) -> Named<'n>
    ensures { (result.name.now ≡ name.now) × (result.answer.now ≡ answer.now) }
{
    Named { name, answer }
}

/// Why two files are not both read.
fn not_read(alloc: Global, asked: &Diff<'_>, none: NotBoth) -> Result<NoDiff, Fault>
    ensures ok { (holds : List ℕ → Option (List ℕ)) → (rest : Option (List ℕ)) → AreNotBoth holds rest asked.now.left.now asked.now.right.now none → IfOk result (Refuses holds rest asked.now) }
    ensures err { IfErr result (λ fault. fault ≡ Fault.OutOfMemory) }
{
    let (left, right) = match none {
        NotBoth::OneInput => return Ok(NoDiff::OneInput),
        NotBoth::Unread(left, right) => (left, right),
    };
    let mut text = String::new(alloc);
    let first = named(asked.left, &left);
    let second = named(asked.right, &right);
    let status = put_rejections(alloc, &mut text, first, second, asked.form)?;
    Ok(NoDiff::Rejected(text, status))
}

/// Why two files that are read are not compared.
fn not_compared(
    alloc: Global,
    asked: &Diff<'_>,
    left: Vec<u8>,
    right: Vec<u8>,
    side: Side,
) -> Result<NoDiff, Fault>
    ensures ok { (holds : List ℕ → Option (List ℕ)) → (rest : Option (List ℕ)) → AreNamed holds rest asked.now.left.now asked.now.right.now left.items right.items → IfOk result (Refuses holds rest asked.now) }
    ensures err { IfErr result (λ fault. fault ≡ Fault.OutOfMemory) }
{
    let (left, right) = (Ok(left), Ok(right));
    let mut text = String::new(alloc);
    let first = named(asked.left, &left);
    let second = named(asked.right, &right);
    let status = put_not_compared(alloc, &mut text, first, second, side, asked.form)?;
    Ok(NoDiff::Rejected(text, status))
}

/// Writes a line for each difference of two streams that is not at or below a path that one of the patterns matches, and answers 0 where
/// there is none, and 1 where there is one. Without patterns it answers 0 exactly if each stream is accepted, and they have equally many
/// documents, pairwise the same.
pub fn diff<S: Shelf, R: Read, W: Write>(
    shelf: &S,
    alloc: Global,
    asked: &Diff<'_>,
    ignored: &[Pattern<'_>],
    input: &mut R,
    out: &mut Counted<W>,
) -> Result<u8, NoDiff>
    requires { faults_of out.old < 2 ^ 64 - 1 }
    ensures tells { IfOk result (DiffTells (S.holds shelf.now) (R.remaining input.old) W.contents asked.now ignored.now out.old out.new) }
    ensures refuses { IfErr result (DiffRefuses (S.holds shelf.now) (R.remaining input.old) W.contents asked.now ignored.now out.old out.new) }
{
    let (left, right) = match read_both(shelf, alloc, asked.left, asked.right, input) {
        Ok(both) => both,
        Err(none) => return Err(or_fault(not_read(alloc, asked, none))),
    };
    let told = match compare_sides(alloc, asked, ignored, &left, &right) {
        Ok(told) => told,
        Err(side) => return Err(or_fault(not_compared(alloc, asked, left, right, side))),
    };
    match write_out(out, told.text.as_bytes()) {
        Ok(()) => Ok(status_of(told.same)),
        Err(fault) => Err(NoDiff::Fault(fault)),
    }
}

/// What two files have differently as a page; nothing where no line is asked for.
fn listed_text(
    alloc: Global,
    asked: &Diff<'_>,
    page: Page,
    listed: &Listed,
    left: &[u8],
    right: &[u8],
) -> Result<String, AllocError>
    ensures ok { IfOk result (λ text. IsFilePage asked.now page left.now right.now listed.now (string_bytes text)) }
{
    if asked.lines == 0 {
        return Ok(String::new(alloc));
    }
    let mut parts = Vec::new(alloc);
    parts.push(Part {
        name: None,
        list: list_found(alloc, listed, asked.left, asked.right)?,
        shown: lines_shown(alloc, page, asked.left, left, asked.right, right)?,
        left_out: listed.left_out,
    })?;
    parts_text(alloc, asked, page, parts)
}

/// The same as `diff`, of which the list of differences is written as a page.
pub fn diff_page<S: Shelf, R: Read, W: Write>(
    shelf: &S,
    alloc: Global,
    told: (&Diff<'_>, Page),
    ignored: &[Pattern<'_>],
    input: &mut R,
    out: &mut Counted<W>,
) -> Result<u8, NoDiff>
    requires { faults_of out.old < 2 ^ 64 - 1 }
    ensures shows { IfOk result (DiffShows (S.holds shelf.now) (R.remaining input.old) W.contents told.entry.0.now told.entry.1 ignored.now out.old out.new) }
    ensures refuses { IfErr result (PageRefuses (S.holds shelf.now) (R.remaining input.old) W.contents told.entry.0.now told.entry.1 ignored.now out.old out.new) }
{
    let (asked, page) = told;
    let (left, right) = match read_both(shelf, alloc, asked.left, asked.right, input) {
        Ok(both) => both,
        Err(none) => return Err(or_fault(not_read(alloc, asked, none))),
    };
    let listed = match list_sides(alloc, asked, ignored, &left, &right) {
        Ok(listed) => listed,
        Err(side) => return Err(or_fault(not_compared(alloc, asked, left, right, side))),
    };
    let text = match listed_text(alloc, asked, page, &listed, &left, &right) {
        Ok(text) => text,
        Err(_) => return Err(NoDiff::Fault(Fault::OutOfMemory)),
    };
    match write_out(out, text.as_bytes()) {
        Ok(()) => Ok(status_of(listed.same)),
        Err(fault) => Err(NoDiff::Fault(fault)),
    }
}

//! The commands.
ghost use Rattle.std.specs.Prelude.{◌≡◌, ◌<◌, ◌≤◌, ◌-◌, ◌^◌, false, map, string_bytes, IfOk, IfErr};
ghost use Rattle.yaml_text.specs.CountedModel.{faults_of};
ghost use Rattle.clap.specs.Words.{kind_of};
ghost use Rattle.review_args.specs.Order.{in_order};
ghost use Rattle.review_command.specs.Commands.{CommandEnds, FoldersEnd, HostDoes, HostDoesOne, TellsError, unknown};
ghost use Rattle.review_command.specs.Gits.{GitEnds};
ghost use Rattle.review_files.specs.Lines.{TakesLine};
ghost use Rattle.review_command.specs.Rejections.{no_diff_status, no_diff_line, no_merge_line};
ghost use Rattle.review_command.specs.Runs.{DiffRuns, PageRuns, ReportsTell, PagesTell, MergeRuns, AsksRules, AsksSum, SumRuns, is_unnamed, AsksMerge, AsksPrint, Does};
ghost use Rattle.review_merge.specs.Merges.{no_merge_status};

use crate::diff::{NoDiff, diff, diff_page};
use clap::Error;
use review_args::{Asked, Merge, Report, Sum, in_order, read_keys, read_words};
use review_files::telling::{UNUSABLE, put_line, tell_bare, tell_unread, tell_usage};
use review_files::unread::Unread;
use review_git::{git_asked, git_text, put_page, show_files};
use review_merge::{Names, NoMerge, Print, merge3};
use review_patterns::Pattern;
use review_reports::pages::pages;
use review_reports::reports::{Kind, reports};
use review_reports::{Host, are_folders, folder_lines, folder_page, names_of};
use review_text::options::{Diff, Page};
use review_text::put_shown;
use std::alloc::{AllocError, Global};
use std::io::{Read, Write};
use std::rt::Files;
use yaml_command::shelf::Shelf;
use yaml_command::streams::write_out;
use yaml_sum::asked::{Asked as SumAsked, Rules};
use yaml_sum::reason::Reason;
use yaml_sum::regular::Regular;
use yaml_sum::sum::sum as sum_files;
use yaml_text::counted::Counted;
use yaml_text::fault::Fault;

const DONE: u8 = 0;

/// What is wrong with words that give a command, and are none that it can do.
const ONE_INPUT: &str = "yamlreview: usage: `-` is standard input, which is read once\n";

const GIT_WORDS: &str = "yamlreview: usage: git passes 1, 7 or 9 words\n";

/// Writes what git asks for, for an output that has colour unless it is asked otherwise, and answers the status.
fn git<S: Shelf, W: Write, E: Write>(
    shelf: &S,
    alloc: Global,
    words: &[&str],
    is_color: bool,
    out: &mut Counted<W>,
    err: &mut E,
) -> u8
    requires { faults_of out.old < 2 ^ 64 - 1 }
    ensures { GitEnds (S.holds shelf.now) W.contents (map (λ s. s.now) words.now) is_color out.old out.new result }
{
    let Some(asked) = git_asked(words, is_color) else {
        return tell_usage(GIT_WORDS, err);
    };
    let text = match git_text(shelf, alloc, asked) {
        Ok(text) => text,
        Err(_) => return tell_bare(Fault::OutOfMemory, err),
    };
    match put_page(out, text.as_bytes()) {
        Ok(()) => DONE,
        Err(fault) => tell_bare(fault, err),
    }
}

/// The status of a comparison, of which it is told why there is none.
fn diff_status<E: Write>(answer: Result<u8, NoDiff>, err: &mut E) -> u8
    ensures ok { IfOk answer (λ status. result ≡ status) }
    ensures err { IfErr answer (λ none. result ≡ no_diff_status none) }
    ensures told { IfErr answer (λ none. TakesLine E.contents err.old err.new (no_diff_line none)) }
{
    match answer {
        Ok(status) => status,
        Err(NoDiff::OneInput) => tell_usage(ONE_INPUT, err),
        Err(NoDiff::Rejected(text, status)) => {
            put_line(&text, err);
            status
        }
        Err(NoDiff::Fault(fault)) => tell_bare(fault, err),
    }
}

/// The names of the files of a merge.
fn merge_names<'a>(asked: &Merge<'a>) -> Names<'a>
    ensures { AsksMerge asked.now result }
{
    Names {
        base: asked.base,
        ours: asked.ours,
        theirs: asked.theirs,
        result: asked.result,
    }
}

/// What is printed of a merge.
fn merge_print(asked: &Merge<'_>) -> Print
    ensures { AsksPrint asked.now result }
{
    Print {
        lines: asked.lines,
        places: asked.places,
        whole: asked.whole,
        color: asked.color,
    }
}

/// The status of a merge, of which it is told why nothing is said.
fn merge_status<E: Write>(answer: Result<u8, NoMerge>, err: &mut E) -> u8
    ensures ok { IfOk answer (λ status. result ≡ status) }
    ensures err { IfErr answer (λ none. result ≡ no_merge_status none) }
    ensures told { IfErr answer (λ none. TakesLine E.contents err.old err.new (no_merge_line none)) }
{
    match answer {
        Ok(status) => status,
        Err(NoMerge::OneInput) => tell_usage(ONE_INPUT, err),
        Err(NoMerge::Told(text, told)) => {
            put_line(&text, err);
            told
        }
        Err(NoMerge::Fault(fault)) => tell_bare(fault, err),
    }
}

/// Compares two files, writes the lines of their differences, and answers the status.
fn compare<S: Shelf, R: Read + Drop, W: Write + Drop, E: Write + Drop>(
    shelf: &S,
    alloc: Global,
    asked: &Diff<'_>,
    ignored: &[Pattern<'_>],
    mut input: R,
    out: W,
    mut err: E,
) -> u8
    ensures { DiffRuns (S.holds shelf.now) R.remaining W.contents E.contents asked.now ignored.now input out err result }
{
    let mut out = Counted::new(out);
    let answer = diff(shelf, alloc, asked, ignored, &mut input, &mut out);
    diff_status(answer, &mut err)
}

/// The same, of which the differences are written as a page.
fn compare_as<S: Shelf, R: Read + Drop, W: Write + Drop, E: Write + Drop>(
    shelf: &S,
    alloc: Global,
    told: (&Diff<'_>, Page),
    ignored: &[Pattern<'_>],
    mut input: R,
    out: W,
    mut err: E,
) -> u8
    ensures { PageRuns (S.holds shelf.now) R.remaining W.contents E.contents told.entry.0.now told.entry.1 ignored.now input out err result }
{
    let mut out = Counted::new(out);
    let answer = diff_page(shelf, alloc, told, ignored, &mut input, &mut out);
    diff_status(answer, &mut err)
}

/// Tells what is found in files, and answers the status.
fn report<S: Shelf, R: Read + Drop, W: Write + Drop, E: Write + Drop>(
    shelf: &S,
    alloc: Global,
    kind: Kind<'_>,
    asked: &Report<'_>,
    mut input: R,
    out: W,
    mut err: E,
) -> u8
    ensures { ReportsTell (S.holds shelf.now) R.remaining W.contents E.contents kind.entry asked.now input out result }
{
    let mut out = Counted::new(out);
    reports(shelf, alloc, kind, asked, &mut input, &mut out, &mut err)
}

/// The same as a page.
fn report_as<S: Shelf, R: Read + Drop, W: Write + Drop, E: Write + Drop>(
    shelf: &S,
    alloc: Global,
    told: (Kind<'_>, Page),
    asked: &Report<'_>,
    mut input: R,
    out: W,
    mut err: E,
) -> u8
    ensures { PagesTell (S.holds shelf.now) R.remaining W.contents E.contents told.entry.0 told.entry.1 asked.now input out result }
{
    let mut out = Counted::new(out);
    pages(shelf, alloc, told, asked, &mut input, &mut out, &mut err)
}

/// Tells whether two changes can be merged, and answers the status.
fn merge<S: Shelf, R: Read + Drop, W: Write + Drop, E: Write + Drop>(
    shelf: &S,
    alloc: Global,
    asked: &Merge<'_>,
    mut input: R,
    out: W,
    mut err: E,
) -> u8
    ensures { MergeRuns (S.holds shelf.now) R.remaining W.contents E.contents asked.now input out err result }
{
    let names = merge_names(asked);
    let mut out = Counted::new(out);
    let answer = merge3(
        shelf,
        alloc,
        &names,
        merge_print(asked),
        &mut input,
        &mut out,
    );
    merge_status(answer, &mut err)
}

/// Does what is asked, and answers the status.
fn run<S: Shelf, R: Read + Drop, W: Write + Drop, E: Write + Drop>(
    shelf: &S,
    alloc: Global,
    asked: Asked<'_>,
    mut input: R,
    out: W,
    mut err: E,
) -> u8
    ensures { Does (S.holds shelf.now) R.remaining W.contents E.contents asked.entry input out err result }
{
    match asked {
        Asked::Diff(asked, ignored, _) => compare(shelf, alloc, &asked, &ignored, input, out, err),
        Asked::DiffPage(page, asked, ignored, _) => {
            compare_as(shelf, alloc, (&asked, page), &ignored, input, out, err)
        }
        Asked::Faults(asked) => report(shelf, alloc, Kind::Faults, &asked, input, out, err),
        Asked::FaultsPage(page, asked) => {
            report_as(shelf, alloc, (Kind::Faults, page), &asked, input, out, err)
        }
        Asked::Warn(asked, warn) => {
            report(shelf, alloc, Kind::Warnings(&warn), &asked, input, out, err)
        }
        Asked::WarnPage(page, asked, warn) => {
            let told = (Kind::Warnings(&warn), page);
            report_as(shelf, alloc, told, &asked, input, out, err)
        }
        Asked::Show(asked) => {
            let mut out = Counted::new(out);
            show_files(shelf, alloc, &asked, &mut input, &mut out, &mut err)
        }
        Asked::Git(words, is_color) => {
            let mut out = Counted::new(out);
            git(shelf, alloc, &words, is_color, &mut out, &mut err)
        }
        Asked::Sum(asked) => sum(shelf, alloc, sum_asked(&asked), input, out, err),
        Asked::Merge(asked) => merge(shelf, alloc, &asked, input, out, err),
    }
}

/// How a list of sums is checked.
fn rules_of(asked: &Sum<'_>) -> Rules
    ensures { AsksRules asked.now result }
{
    Rules {
        is_quiet: asked.is_quiet,
        is_silent: asked.is_silent,
        is_strict: asked.is_strict,
        skips_missing: asked.skips_missing,
    }
}

/// What is asked of sums.
fn sum_asked<'b, 'a: 'b>(asked: &'b Sum<'a>) -> SumAsked<'b>
    ensures { AsksSum asked.now result }
{
    match (asked.check, asked.files_from) {
        (Some(list), _) => SumAsked::Check(list, rules_of(asked)),
        (None, Some(list)) => SumAsked::FilesFrom(list),
        (None, None) => SumAsked::Files(&asked.files),
    }
}

/// Whether there is a list whose name is not UTF-8: it was given with NUL.
fn is_unnamed(asked: SumAsked<'_>) -> bool
    ensures { result ≡ is_unnamed asked.entry }
{
    match asked {
        SumAsked::Files(_) => false,
        SumAsked::FilesFrom(list) | SumAsked::Check(list, _) => list.as_bytes().contains(&0),
    }
}

/// Makes or checks sums. A list whose name is not UTF-8 is not opened.
fn sum<S: Shelf, R: Read + Drop, W: Write + Drop, E: Write + Drop>(
    shelf: &S,
    alloc: Global,
    asked: SumAsked<'_>,
    input: R,
    out: W,
    mut err: E,
) -> u8
    ensures { SumRuns (S.holds shelf.now) R.remaining W.contents E.contents asked.entry input out err result }
{
    match asked.list() {
        Some(list) if is_unnamed(asked) => {
            let unread = Unread::CannotOpen(Reason::NotUtf8);
            tell_unread(alloc, list, unread, &mut err)
        }
        _ => sum_files(shelf, alloc, asked, input, out, err),
    }
}

/// The text of an error of the words, with `?` for what of the words a terminal would not print.
fn error_text(alloc: Global, error: &Error) -> Result<String, AllocError> {
    let text = format!(in alloc; "{error}")?;
    let mut shown = String::new(alloc);
    for (number, line) in text.split('\n').enumerate() {
        if number > 0 {
            shown.push('\n')?;
        }
        put_shown(&mut shown, line)?;
    }
    Ok(shown)
}

/// Tells why words ask for no command: the help and the version on the output, what is wrong with them on standard error.
fn told<W: Write + Drop, E: Write + Drop>(alloc: Global, error: Error, out: W, mut err: E) -> u8
    ensures { TellsError W.contents E.contents (kind_of error) out err result }
{
    let text = match error_text(alloc, &error) {
        Ok(text) => text,
        Err(_) => return tell_bare(Fault::OutOfMemory, &mut err),
    };
    if error.use_stderr() {
        put_line(&text, &mut err);
        return UNUSABLE;
    }
    let mut out = Counted::new(out);
    match write_out(&mut out, text.as_bytes()) {
        Ok(()) => DONE,
        Err(fault) => tell_bare(fault, &mut err),
    }
}

/// Compares the files of two folders for which one of the globs stands, as lines or as a page, and answers the status.
#[tactic(auto, using(crate::proofs::FolderLaws::folders_cut, crate::proofs::FolderLaws::folders_printed, crate::proofs::FolderLaws::folders_shown))]
fn compare_folders<T: Files + AllocGlobal + Clone + Drop, W: Write + Drop, E: Write + Drop>(
    rt: &T,
    alloc: Global,
    told: (&Diff<'_>, Option<Page>),
    ignored: &[Pattern<'_>],
    globs: &[&str],
    out: W,
    mut err: E,
) -> u8
    ensures { FoldersEnd W.contents E.contents told.entry.0.now ignored.now told.entry.1 out result }
{
    let (asked, page) = told;
    let names = match names_of(rt, alloc, asked, globs, &mut err) {
        Ok(names) => names,
        Err(status) => return status,
    };
    let entries = match names.entries(alloc) {
        Ok(entries) => entries,
        Err(_) => return tell_bare(Fault::OutOfMemory, &mut err),
    };
    let shelf = Host::new(rt);
    let mut out = Counted::new(out);
    match page {
        None => folder_lines(&shelf, alloc, asked, ignored, &entries, &mut out, &mut err),
        Some(page) => {
            let told = (asked, page);
            folder_page(&shelf, alloc, told, ignored, &entries, &mut out, &mut err)
        }
    }
}

/// Whether `diff` is asked for, of two folders.
fn are_of_folders<T: Files>(rt: &T, asked: &Asked<'_>) -> bool {
    match asked {
        Asked::Diff(asked, _, _) | Asked::DiffPage(_, asked, _, _) => are_folders(rt, asked),
        _ => false,
    }
}

/// Does what is asked over the files that `rt` opens, and answers the status. Sums are made of regular files alone.
fn run_files<T: Files, R: Read + Drop, W: Write + Drop, E: Write + Drop>(
    rt: &T,
    alloc: Global,
    asked: Asked<'_>,
    input: R,
    out: W,
    err: E,
) -> u8
    ensures { Does unknown R.remaining W.contents E.contents asked.entry input out err result }
{
    match asked {
        Asked::Sum(asked) => {
            let asked = sum_asked(&asked);
            let shelf = Regular::new(rt, asked.list());
            sum(&shelf, alloc, asked, input, out, err)
        }
        asked => run(&Host::new(rt), alloc, asked, input, out, err),
    }
}

/// The same where it is known whether `diff` is asked for two folders.
fn run_host<
    T: Files + AllocGlobal + Clone + Drop,
    R: Read + Drop,
    W: Write + Drop,
    E: Write + Drop,
>(rt: &T, alloc: Global, asked: Asked<'_>, folders: bool, input: R, out: W, err: E) -> u8
    ensures { HostDoes R.remaining W.contents E.contents folders asked.entry input out err result }
{
    if !folders {
        return run_files(rt, alloc, asked, input, out, err);
    }
    match asked {
        Asked::Diff(asked, ignored, globs) => {
            compare_folders(rt, alloc, (&asked, None), &ignored, &globs, out, err)
        }
        Asked::DiffPage(page, asked, ignored, globs) => {
            let told = (&asked, Some(page));
            compare_folders(rt, alloc, told, &ignored, &globs, out, err)
        }
        asked => run_files(rt, alloc, asked, input, out, err),
    }
}

/// Runs the command that the words give, without the program's own name, over the files of a shelf, and answers the exit status: 0,
/// 1 where two files differ or a file has another sum than its list tells, 2 where an input is refused, 3 where the words, a file or
/// a stream can't be used. The output is no terminal.
pub fn command_over<S: Shelf, R: Read + Drop, W: Write + Drop, E: Write + Drop>(
    shelf: &S,
    alloc: Global,
    words: &[String],
    input: R,
    out: W,
    mut err: E,
) -> u8
    ensures { CommandEnds W.contents E.contents (λ asked. Does (S.holds shelf.now) R.remaining W.contents E.contents asked input out err) (in_order (map string_bytes words.now)) false out err result }
{
    let words = match in_order(alloc, words) {
        Ok(words) => words,
        Err(_) => return tell_bare(Fault::OutOfMemory, &mut err),
    };
    let by = match read_keys(alloc, &words) {
        Ok(by) => by,
        Err(_) => return tell_bare(Fault::OutOfMemory, &mut err),
    };
    match read_words(alloc, &words, &by, false) {
        Ok(asked) => run(shelf, alloc, asked, input, out, err),
        Err(error) => told(alloc, error, out, err),
    }
}

/// The same over the files that `rt` opens, of which nothing is known, with an output that has colour unless the words say otherwise, as
/// a terminal has, or no colour. Sums are made of
/// regular files alone, and `diff` compares the files of two folders too.
pub fn command<
    T: Files + AllocGlobal + Clone + Drop,
    R: Read + Drop,
    W: Write + Drop,
    E: Write + Drop,
>(rt: &T, alloc: Global, words: &[String], input: R, out: W, mut err: E, is_terminal: bool) -> u8
    ensures { CommandEnds W.contents E.contents (HostDoesOne R.remaining W.contents E.contents input out err) (in_order (map string_bytes words.now)) is_terminal out err result }
{
    let words = match in_order(alloc, words) {
        Ok(words) => words,
        Err(_) => return tell_bare(Fault::OutOfMemory, &mut err),
    };
    let by = match read_keys(alloc, &words) {
        Ok(by) => by,
        Err(_) => return tell_bare(Fault::OutOfMemory, &mut err),
    };
    match read_words(alloc, &words, &by, is_terminal) {
        Ok(asked) => {
            let folders = are_of_folders(rt, &asked);
            run_host(rt, alloc, asked, folders, input, out, err)
        }
        Err(error) => told(alloc, error, out, err),
    }
}

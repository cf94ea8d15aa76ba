//! The commands.
ghost use Rattle.std.specs.Prelude.{◌≡◌, ◌⊎◌, ◌≤◌, ◌<◌, ◌-◌, ◌^◌, ℕ, List, None, IfOk, IfErr, map, string_bytes};
ghost use Rattle.yaml_text.specs.CountedModel.{faults_of};
ghost use Rattle.yaml_text.specs.Writers.{Broken};
ghost use Rattle.yaml_command.specs.Commands.{written_status, judged_status, Does, DoesNot, WordsDone, WordsNotDone, Tells, RunTells};
ghost use Rattle.yaml_command.specs.Judged.{Silent};
ghost use Rattle.yaml_command.specs.Refusals.{Told};
ghost use Rattle.yaml_command.specs.Statuses.{answer_status};

use crate::events::events;
use crate::files::{canon_file, compare_files, events_of_file, match_files};
use crate::line::tell;
use crate::refusal::Refusal;
use crate::shelf::{Host, Shelf};
use std::alloc::Global;
use std::io::{Read, Write};
use std::rt::Files;
use yaml_args::{Asked, read_words};
use yaml_canon::run_canonical;
use yaml_text::counted::Counted;
use yaml_text::fault::Fault;

/// The status of a command that did what it was asked.
const DONE: u8 = 0;

/// The status where two files differ.
const DIFFERENT: u8 = 1;

/// The status of a command that writes a text.
fn written<'a>(answer: Result<(), Fault>) -> Result<u8, Refusal<'a>>
    ensures { result ≡ written_status answer }
{
    match answer {
        Ok(()) => Ok(DONE),
        Err(fault) => Err(Refusal::Input(fault)),
    }
}

/// The status of a command that answers whether two files are alike.
fn judged<'a>(answer: Result<bool, Refusal<'a>>) -> Result<u8, Refusal<'a>>
    ensures { result ≡ judged_status answer.entry }
{
    match answer {
        Ok(true) => Ok(DONE),
        Ok(false) => Ok(DIFFERENT),
        Err(refusal) => Err(refusal),
    }
}

/// Does what is asked, and answers the status: 0, or 1 where two files differ. Of two files the first is
/// read whole, then the second, before either is judged.
fn run<'a, S: Shelf, R: Read, W: Write>(
    shelf: &S,
    alloc: Global,
    asked: Asked<'a>,
    input: &mut Counted<R>,
    out: &mut Counted<W>,
) -> Result<u8, Refusal<'a>>
    requires few_reads { faults_of input.old < 2 ^ 64 - 1 }
    requires few_writes { faults_of out.old < 2 ^ 64 - 1 }
    ensures ok { IfOk result (Does (S.holds shelf.now) W.contents R.remaining asked.entry input.old input.new out.old out.new) }
    ensures silent { IfErr result (Silent W.contents out.old out.new) }
    ensures refused { IfErr result (λ refusal. DoesNot (S.holds shelf.now) W.contents R.remaining input.old input.new out.old out.new refusal asked.entry) }
{
    match asked {
        Asked::Canon(Some(name)) => {
            canon_file(shelf, alloc, name, out)?;
            Ok(DONE)
        }
        Asked::Canon(None) => written(run_canonical(alloc, input, out)),
        Asked::Same(left, right) => judged(compare_files(shelf, alloc, left, right, out)),
        Asked::Events(None) => written(events(alloc, input, out)),
        Asked::Events(Some(name)) => {
            events_of_file(shelf, alloc, name, out)?;
            Ok(DONE)
        }
        Asked::Check(file, lines) => judged(match_files(shelf, alloc, file, lines, out)),
    }
}

/// Does what the words ask.
fn run_words<'a, S: Shelf, R: Read, W: Write>(
    shelf: &S,
    alloc: Global,
    words: &'a [String],
    input: &mut Counted<R>,
    out: &mut Counted<W>,
) -> Result<u8, Refusal<'a>>
    requires few_reads { faults_of input.old < 2 ^ 64 - 1 }
    requires few_writes { faults_of out.old < 2 ^ 64 - 1 }
    ensures ok { IfOk result (WordsDone (S.holds shelf.now) W.contents R.remaining (map string_bytes words.now) input.old input.new out.old out.new) }
    ensures silent { IfErr result (Silent W.contents out.old out.new) }
    ensures refused { IfErr result (WordsNotDone (S.holds shelf.now) W.contents R.remaining (map string_bytes words.now) input.old input.new out.old out.new) }
{
    let asked = read_words(alloc, words)?;
    run(shelf, alloc, asked, input, out)
}

/// The status of an answer. A refusal is told as a line, unless a call of `err` fails.
pub fn report<E: Write>(answer: Result<u8, Refusal<'_>>, err: &mut Counted<E>) -> u8
    requires { faults_of err.old < 2 ^ 64 - 1 }
    ensures status { result ≡ answer_status answer.entry }
    ensures quiet { IfOk answer.entry (λ _. err.new ≡ err.old) }
    ensures told { IfErr answer.entry (Told E.contents err.old err.new) }
{
    match answer {
        Ok(status) => status,
        Err(refusal) => {
            // Where standard error fails too, the status alone is left to tell it.
            let _ = tell(refusal, err);
            refusal.status()
        }
    }
}

/// Does what the words ask, and answers the status.
fn answer<S: Shelf, R: Read, W: Write, E: Write>(
    shelf: &S,
    alloc: Global,
    words: &[String],
    input: &mut Counted<R>,
    out: &mut Counted<W>,
    err: &mut Counted<E>,
) -> u8
    requires few_reads { faults_of input.old < 2 ^ 64 - 1 }
    requires few_writes { faults_of out.old < 2 ^ 64 - 1 }
    requires few_lines { faults_of err.old < 2 ^ 64 - 1 }
    ensures status { result ≤ 3 }
    ensures tells { Tells (S.holds shelf.now) W.contents R.remaining E.contents (map string_bytes words.now) input.old input.new out.old out.new err.old err.new result }
    ensures done { result ≤ 1 → WordsDone (S.holds shelf.now) W.contents R.remaining (map string_bytes words.now) input.old input.new out.old out.new result }
    ensures quiet { result ≤ 1 → err.new ≡ err.old }
    ensures refused { result ≡ 2 → out.new ≡ out.old }
    ensures unusable { result ≡ 3 → (out.new ≡ out.old) ⊎ ((text : List ℕ) × Broken W.contents out.old out.new text) }
{
    let answer = run_words(shelf, alloc, words, input, out);
    report(answer, err)
}

/// Runs the command that the words give, without the program's own name, over the files of a shelf, and
/// answers the exit status: 0, 1 where two files differ, 2 where an input is refused, 3 where the words,
/// a file or a stream can't be used.
///
/// A refusal is one line on `err`, or a beginning of it where `err` fails, and then nothing was written
/// on `out` unless writing itself failed. `input` is read where no file is named.
pub fn command_over<S: Shelf, R: Read + Drop, W: Write + Drop, E: Write + Drop>(
    shelf: &S,
    alloc: Global,
    words: &[String],
    input: R,
    out: W,
    err: E,
) -> u8
    ensures status { result ≤ 3 }
    ensures tells { RunTells (S.holds shelf.now) W.contents R.remaining E.contents (map string_bytes words.now) input out err result }
{
    let mut input = Counted::new(input);
    let mut out = Counted::new(out);
    let mut err = Counted::new(err);
    answer(shelf, alloc, words, &mut input, &mut out, &mut err)
}

/// The same over the files that `rt` opens, of which nothing is known.
pub fn command<T: Files, R: Read + Drop, W: Write + Drop, E: Write + Drop>(
    rt: &T,
    alloc: Global,
    words: &[String],
    input: R,
    out: W,
    err: E,
) -> u8
    ensures status { result ≤ 3 }
    ensures tells { RunTells (λ _. None) W.contents R.remaining E.contents (map string_bytes words.now) input out err result }
{
    command_over(&Host::new(rt), alloc, words, input, out, err)
}

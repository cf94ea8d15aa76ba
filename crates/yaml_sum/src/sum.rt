//! The command `sum`.
ghost use Rattle.std.specs.Prelude.{◌≡◌, ◌≤◌, ◌<◌, ◌-◌, ◌^◌, map, IfOk, IfErr};
ghost use Rattle.yaml_text.specs.CountedModel.{faults_of};
ghost use Rattle.yaml_sum.specs.Sums.{SumsAll, SumsCut};
ghost use Rattle.yaml_sum.specs.Asks.{CutAt, ListUnread, ListSummed, ListNotSummed, Done, NotDone, SumTells};

use crate::asked::Asked;
use crate::buffers::Buffers;
use crate::check::check_list;
use crate::file::sum_file;
use crate::list::read_list;
use crate::names::{names_in, names_of};
use crate::stop::{Halt, greater};
use crate::telling::tell_halt;
use std::alloc::Global;
use std::io::{Read, Write};
use yaml_command::shelf::Shelf;
use yaml_command::streams::write_out;
use yaml_text::counted::Counted;
use yaml_text::fault::Fault;

/// Writes a line for each file, and answers the greatest status.
fn sum_each<S: Shelf, R: Read, W: Write, E: Write>(
    shelf: &S,
    alloc: Global,
    names: &[&[u8]],
    input: &mut R,
    out: &mut Counted<W>,
    err: &mut Counted<E>,
) -> Result<u8, Fault>
    requires { faults_of out.old < 2 ^ 64 - 1 }
    ensures ok { IfOk result (SumsAll (S.holds shelf.now) R.remaining W.contents E.contents (map (λ s. s.now) names.now) input.old input.new out.old out.new err.old err.new) }
    ensures cut { IfErr result (SumsCut (S.holds shelf.now) R.remaining W.contents E.contents (map (λ s. s.now) names.now) input.old out.old out.new err.old err.new) }
{
    let mut buffers = Buffers::new(alloc);
    let mut worst = 0;
    'names: for name in names {
        let status = sum_file(shelf, alloc, name, input, &mut buffers, out, err)?;
        worst = greater(worst, status);
    }
    write_out(out, b"")?;
    Ok(worst)
}

/// Sums the files of these names.
fn sum_words<'a, S: Shelf, R: Read, W: Write, E: Write>(
    shelf: &S,
    alloc: Global,
    words: &[&str],
    input: &mut R,
    out: &mut Counted<W>,
    err: &mut Counted<E>,
) -> Result<u8, Halt<'a>>
    requires { faults_of out.old < 2 ^ 64 - 1 }
    ensures ok { IfOk result (SumsAll (S.holds shelf.now) R.remaining W.contents E.contents (map (λ s. s.now) words.now) input.old input.new out.old out.new err.old err.new) }
    ensures err { IfErr result (CutAt (S.holds shelf.now) R.remaining W.contents E.contents (map (λ s. s.now) words.now) input.old out.old out.new err.old err.new) }
{
    let names = match names_of(alloc, words) {
        Ok(names) => names,
        Err(refused) => return Err(Halt::Fault(refused.into())),
    };
    match sum_each(shelf, alloc, names.as_slice(), input, out, err) {
        Ok(status) => Ok(status),
        Err(fault) => Err(Halt::Fault(fault)),
    }
}

/// Sums the files that a list names.
fn sum_listed<'a, S: Shelf, R: Read, W: Write, E: Write>(
    shelf: &S,
    alloc: Global,
    list: &'a str,
    input: &mut R,
    out: &mut Counted<W>,
    err: &mut Counted<E>,
) -> Result<u8, Halt<'a>>
    requires { faults_of out.old < 2 ^ 64 - 1 }
    ensures ok { IfOk result (ListSummed (S.holds shelf.now) R.remaining W.contents E.contents list.now input.old input.new out.old out.new err.old err.new) }
    ensures err { IfErr result (ListNotSummed (S.holds shelf.now) R.remaining W.contents E.contents list.now input.old input.new out.old out.new err.old err.new) }
{
    let mut bytes = Vec::new(alloc);
    read_list(shelf, list, input, &mut bytes)?;
    let names = match names_in(alloc, bytes.as_slice()) {
        Ok(names) => names,
        Err(refused) => return Err(Halt::Fault(refused.into())),
    };
    match sum_each(shelf, alloc, names.as_slice(), input, out, err) {
        Ok(status) => Ok(status),
        Err(fault) => Err(Halt::Fault(fault)),
    }
}

/// Does what is asked, and answers the greatest status, or why it was not done to the end.
fn run<'a, S: Shelf, R: Read, W: Write, E: Write>(
    shelf: &S,
    alloc: Global,
    asked: Asked<'a>,
    input: &mut R,
    out: &mut Counted<W>,
    err: &mut Counted<E>,
) -> Result<u8, Halt<'a>>
    requires { faults_of out.old < 2 ^ 64 - 1 }
    ensures ok { IfOk result (Done (S.holds shelf.now) R.remaining W.contents E.contents asked.entry input.old input.new out.old out.new err.old err.new) }
    ensures err { IfErr result (NotDone (S.holds shelf.now) R.remaining W.contents E.contents asked.entry input.old input.new out.old out.new err.old err.new) }
{
    match asked {
        Asked::Files(words) => sum_words(shelf, alloc, words, input, out, err),
        Asked::FilesFrom(list) => sum_listed(shelf, alloc, list, input, out, err),
        Asked::Check(list, rules) => check_list(shelf, alloc, list, rules, input, out, err),
    }
}

/// Sums files, or checks their sums, and answers the exit status, which is that of the worst file: 0, 1
/// where a file has another sum than its list tells, 2 where one is refused, 3 where one can't be opened
/// or read, or the list or a stream can't be used. The rules may give a list the status 1 for other reasons.
///
/// A line for each file is written on `out` as soon as it is made, in the order of the names, each in one
/// piece. A file that is refused or can't be read has no line there and one on `err`, with its name, and
/// the others go on. `-` is `input`.
pub fn sum<S: Shelf, R: Read + Drop, W: Write + Drop, E: Write + Drop>(
    shelf: &S,
    alloc: Global,
    asked: Asked<'_>,
    mut input: R,
    out: W,
    err: E,
) -> u8
    ensures tells { SumTells (S.holds shelf.now) R.remaining W.contents E.contents asked.entry input out err result }
{
    let mut out = Counted::new(out);
    let mut err = Counted::new(err);
    match run(shelf, alloc, asked, &mut input, &mut out, &mut err) {
        Ok(status) => status,
        Err(halt) => {
            let mut err = Counted::new(err.into_inner());
            // Where standard error fails too, the status alone is left to tell it.
            let _ = tell_halt(halt, &mut err);
            halt.status()
        }
    }
}

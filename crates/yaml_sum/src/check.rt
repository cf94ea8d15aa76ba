//! Whether files have the sums that a list tells.
ghost use Rattle.std.specs.Prelude.{◌≡◌, ◌<◌, ◌-◌, ◌^◌, ◌++◌, length, IfOk, IfErr, OnOk, OnErr};
ghost use Rattle.yaml_text.specs.CountedModel.{faults_of};
ghost use Rattle.yaml_sum.specs.Listed.{has_one_space, listed, is_remark, lines_of, all_listings};
ghost use Rattle.yaml_sum.specs.Checks.{verdict_line, TellsFound, Finds, ChecksCut};
ghost use Rattle.yaml_sum.specs.Checking.{IsCounted, Puts, PutsNot, ChecksSome, ChecksOnes, Sees, CutsLine};
ghost use Rattle.yaml_sum.specs.Asks.{ListChecked, ListNotChecked};

use crate::asked::Rules;
use crate::buffers::Buffers;
use crate::file::digest_file;
use crate::finding::Finding;
use crate::line::{push, push_name};
use crate::list::read_list;
use crate::listed::{has_one_space, read_listed, unwrite};
use crate::names::cut;
use crate::parts::line_text;
use crate::stop::Halt;
use crate::summary::close;
use crate::telling::tell;
use crate::told::{Seen, Told};
use std::alloc::{AllocError, Global};
use std::io::{Read, Write};
use yaml_command::shelf::Shelf;
use yaml_command::streams::write_out;
use yaml_spell::page::write_whole;
use yaml_text::counted::Counted;
use yaml_text::fault::Fault;

/// How the lines of a list are read, and what is told of them.
#[derive(Clone, Copy)]
pub(crate) struct Manner {
    pub(crate) rules: Rules,
    /// Whether one blank stands before the names.
    pub(crate) one_space: bool,
}

/// Makes the line that tells what is found of a file, if it has one. Its name is written as in a line of sums if it has a line feed,
/// else as it is.
fn make_verdict(
    line: &mut Vec<u8>,
    rules: Rules,
    name: &[u8],
    finding: Finding,
) -> Result<(), AllocError>
    ensures ok { OnOk result (line.new.items ≡ verdict_line rules name.now finding) }
{
    line.clear();
    if !rules.shows(finding) {
        return Ok(());
    }
    if name.contains(&b'\n') {
        push(line, b"\\")?;
        push_name(line, name)?;
    } else {
        push(line, name)?;
    }
    push(line, finding.verdict().as_bytes())
}

/// Looks whether the file of a name has this digest.
fn find<S: Shelf, R: Read>(
    shelf: &S,
    rules: Rules,
    digest: &[u8; 32],
    name: &[u8],
    input: &mut R,
    buffers: &mut Buffers,
) -> Finding
    ensures { Finds (S.holds shelf.now) R.remaining rules (listed digest.now name.now) input.old input.new result }
{
    match digest_file(
        shelf,
        buffers.alloc,
        name,
        input,
        &mut buffers.bytes,
        &mut buffers.text,
    ) {
        Ok(found) if found == *digest => Finding::Right,
        Ok(_) => Finding::Wrong,
        Err(stop) => {
            if rules.skips(stop) {
                Finding::Missing
            } else {
                Finding::Without(stop)
            }
        }
    }
}

/// Tells why a file has no digest, if it has none and that is told.
fn tell_found<E: Write>(
    alloc: Global,
    rules: Rules,
    line: &mut Vec<u8>,
    name: &[u8],
    bytes: &[u8],
    finding: Finding,
    err: &mut Counted<E>,
) -> Result<(), AllocError>
    ensures ok { OnOk result (TellsFound E.contents rules name.now finding err.old err.new) }
    ensures quiet { OnErr result (err.new ≡ err.old) }
{
    match finding {
        Finding::Right | Finding::Wrong | Finding::Missing => Ok(()),
        Finding::Without(stop) => {
            if rules.is_silent {
                Ok(())
            } else {
                tell(alloc, line, name, bytes, stop, err)
            }
        }
    }
}

/// Writes what is found of a file, and tells why it has no digest. The line is made before anything is
/// told. Refused is what `out` refuses, and want of memory before any of it.
fn put<W: Write, E: Write>(
    rules: Rules,
    name: &[u8],
    finding: Finding,
    buffers: &mut Buffers,
    out: &mut Counted<W>,
    err: &mut Counted<E>,
) -> Result<(), Fault>
    ensures ok { OnOk result (Puts W.contents E.contents rules name.now finding out.old out.new err.old err.new) }
    ensures cut { IfErr result (PutsNot W.contents E.contents rules name.now finding out.old out.new err.old err.new) }
{
    make_verdict(&mut buffers.line, rules, name, finding)?;
    tell_found(
        buffers.alloc,
        rules,
        &mut buffers.text,
        name,
        &buffers.bytes,
        finding,
        err,
    )?;
    write_whole(out, buffers.line.as_slice())
}

/// Whether a line is a remark: an empty line, or one that begins with `#`.
fn is_remark(line: &[u8]) -> bool
    ensures { result ≡ is_remark line.now }
{
    match line {
        [] => true,
        [first, ..] => *first == b'#',
    }
}

/// Looks at the file that a line of a list names, if the line is one of a sum, and writes what is found.
/// A line that begins with `#` and an empty one are left out.
fn check_line<S: Shelf, R: Read, W: Write, E: Write>(
    shelf: &S,
    manner: Manner,
    line: &[u8],
    input: &mut R,
    buffers: &mut Buffers,
    out: &mut Counted<W>,
    err: &mut Counted<E>,
) -> Result<Seen, Fault>
    ensures ok { IfOk result (Sees (S.holds shelf.now) R.remaining W.contents E.contents manner line.now input.old input.new out.old out.new err.old err.new) }
    ensures cut { IfErr result (CutsLine (S.holds shelf.now) R.remaining W.contents E.contents manner line.now input.old out.old out.new err.old err.new) }
{
    if is_remark(line) {
        return Ok(Seen::Remark);
    }
    let Some(listed) = read_listed(line, manner.one_space) else {
        return Ok(Seen::Improper);
    };
    let mut name = Vec::new(buffers.alloc);
    if !unwrite(&listed, &mut name)? {
        return Ok(Seen::Improper);
    }
    let file = name.as_slice();
    let finding = find(shelf, manner.rules, &listed.digest, file, input, buffers);
    put(manner.rules, file, finding, buffers, out, err)?;
    Ok(Seen::File(finding))
}

/// Looks at each line of a list.
fn check_each<S: Shelf, R: Read, W: Write, E: Write>(
    shelf: &S,
    alloc: Global,
    manner: Manner,
    list: &[u8],
    input: &mut R,
    out: &mut Counted<W>,
    err: &mut Counted<E>,
) -> Result<Told, Fault>
    requires { faults_of out.old < 2 ^ 64 - 1 }
    ensures ok { IfOk result (λ told. ChecksSome (S.holds shelf.now) R.remaining W.contents E.contents manner.rules (all_listings manner.one_space (lines_of list.now)) input.old input.new out.old out.new err.old err.new told) }
    ensures counted { IfOk result (IsCounted manner.one_space (lines_of list.now)) }
    ensures cut { IfErr result (ChecksCut (S.holds shelf.now) R.remaining W.contents E.contents manner.rules (all_listings manner.one_space (lines_of list.now)) input.old out.old out.new err.old err.new) }
{
    let mut buffers = Buffers::new(alloc);
    let mut told = Told::nothing();
    let mut rest = list;
    'lines: loop {
        let (piece, behind) = cut(rest, b'\n');
        let line = line_text(piece);
        let seen = check_line(shelf, manner, line, input, &mut buffers, out, err)?;
        told = told.with(seen);
        match behind {
            Some(more) => rest = more,
            None => return Ok(told),
        }
    }
}

/// Looks at each line of a list, and flushes.
fn check_lines<S: Shelf, R: Read, W: Write, E: Write>(
    shelf: &S,
    alloc: Global,
    manner: Manner,
    list: &[u8],
    input: &mut R,
    out: &mut Counted<W>,
    err: &mut Counted<E>,
) -> Result<Told, Fault>
    requires { faults_of out.old < 2 ^ 64 - 1 }
    ensures ok { IfOk result (λ told. ChecksOnes (S.holds shelf.now) R.remaining W.contents E.contents manner.rules (all_listings manner.one_space (lines_of list.now)) input.old input.new out.old out.new err.old err.new told) }
    ensures counted { IfOk result (IsCounted manner.one_space (lines_of list.now)) }
    ensures cut { IfErr result (ChecksCut (S.holds shelf.now) R.remaining W.contents E.contents manner.rules (all_listings manner.one_space (lines_of list.now)) input.old out.old out.new err.old err.new) }
{
    let told = check_each(shelf, alloc, manner, list, input, out, err)?;
    write_out(out, b"")?;
    Ok(told)
}

/// How this list is checked.
fn manner_of(rules: Rules, list: &[u8]) -> Manner
    ensures rules { result.rules ≡ rules }
    ensures form { result.one_space ≡ has_one_space (lines_of list.now) }
{
    Manner {
        rules,
        one_space: has_one_space(list),
    }
}

/// Looks at each file of a list of sums, and tells on `out` whether it has the sum of its line. Lines that
/// are none of a sum are counted on `err`, with the files that have no sum or another; where there is no other, that is told, and
/// the list can't be used.
pub(crate) fn check_list<'a, S: Shelf, R: Read, W: Write, E: Write>(
    shelf: &S,
    alloc: Global,
    list: &'a str,
    rules: Rules,
    input: &mut R,
    out: &mut Counted<W>,
    err: &mut Counted<E>,
) -> Result<u8, Halt<'a>>
    requires { faults_of out.old < 2 ^ 64 - 1 }
    ensures ok { IfOk result (ListChecked (S.holds shelf.now) R.remaining W.contents E.contents list.now rules input.old input.new out.old out.new err.old err.new) }
    ensures err { IfErr result (ListNotChecked (S.holds shelf.now) R.remaining W.contents E.contents list.now rules input.old input.new out.old out.new err.old err.new) }
{
    let mut bytes = Vec::new(alloc);
    read_list(shelf, list, input, &mut bytes)?;
    let text = bytes.as_slice();
    let manner = manner_of(rules, text);
    let told = match check_lines(shelf, alloc, manner, text, input, out, err) {
        Ok(told) => told,
        Err(fault) => return Err(Halt::Fault(fault)),
    };
    match close(rules, list, told, &mut bytes, err) {
        Ok(status) => Ok(status),
        Err(refused) => Err(Halt::Fault(refused.into())),
    }
}

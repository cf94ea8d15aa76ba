//! What each command does of files that are named.
ghost use Rattle.std.specs.Prelude.{◌<◌, ◌-◌, ◌^◌, IfOk, IfErr, OnOk};
ghost use Rattle.yaml_text.specs.CountedModel.{faults_of};
ghost use Rattle.yaml_command.specs.Commands.{FileCanonical, FileEvents, FilesCompared, FilesMatched, FileNotCanonical, FileHasNoEvents, FilesNotCompared, FilesNotMatched};
ghost use Rattle.yaml_command.specs.Judged.{Silent};

use crate::check::print_match;
use crate::compare::print_same;
use crate::events::events;
use crate::inputs::{read_input, read_lines, read_side};
use crate::refusal::Refusal;
use crate::shelf::Shelf;
use crate::streams::open;
use std::alloc::Global;
use std::io::Write;
use yaml_canon::run_canonical;
use yaml_text::Side;
use yaml_text::counted::Counted;

/// Writes a file's canonical text.
pub fn canon_file<'a, S: Shelf, W: Write>(
    shelf: &S,
    alloc: Global,
    name: &'a str,
    out: &mut Counted<W>,
) -> Result<(), Refusal<'a>>
    requires { faults_of out.old < 2 ^ 64 - 1 }
    ensures ok { OnOk result (FileCanonical (S.holds shelf.now) W.contents name.now out.old out.new) }
    ensures silent { IfErr result (Silent W.contents out.old out.new) }
    ensures err { IfErr result (FileNotCanonical (S.holds shelf.now) W.contents name.now out.old out.new) }
{
    let mut file = open(shelf, name)?;
    run_canonical(alloc, &mut file, out)?;
    Ok(())
}

/// Writes a file's event text.
pub fn events_of_file<'a, S: Shelf, W: Write>(
    shelf: &S,
    alloc: Global,
    name: &'a str,
    out: &mut Counted<W>,
) -> Result<(), Refusal<'a>>
    requires { faults_of out.old < 2 ^ 64 - 1 }
    ensures ok { OnOk result (FileEvents (S.holds shelf.now) W.contents name.now out.old out.new) }
    ensures silent { IfErr result (Silent W.contents out.old out.new) }
    ensures err { IfErr result (FileHasNoEvents (S.holds shelf.now) W.contents name.now out.old out.new) }
{
    let mut file = open(shelf, name)?;
    events(alloc, &mut file, out)?;
    Ok(())
}

/// Whether two files are the same. The first is read whole, then the second, before either is judged.
pub fn compare_files<'a, S: Shelf, W: Write>(
    shelf: &S,
    alloc: Global,
    left: &'a str,
    right: &'a str,
    out: &mut Counted<W>,
) -> Result<bool, Refusal<'a>>
    requires { faults_of out.old < 2 ^ 64 - 1 }
    ensures ok { IfOk result (FilesCompared (S.holds shelf.now) W.contents left.now right.now out.old out.new) }
    ensures silent { IfErr result (Silent W.contents out.old out.new) }
    ensures err { IfErr result (FilesNotCompared (S.holds shelf.now) W.contents left.now right.now out.old out.new) }
{
    let first = read_side(shelf, alloc, left, Side::Left)?;
    let second = read_side(shelf, alloc, right, Side::Right)?;
    print_same(alloc, &first, &second, out)
}

/// Whether a file's events are those of another, an event text. Both are read whole before either is judged.
pub fn match_files<'a, S: Shelf, W: Write>(
    shelf: &S,
    alloc: Global,
    file: &'a str,
    lines: &'a str,
    out: &mut Counted<W>,
) -> Result<bool, Refusal<'a>>
    requires { faults_of out.old < 2 ^ 64 - 1 }
    ensures ok { IfOk result (FilesMatched (S.holds shelf.now) W.contents file.now lines.now out.old out.new) }
    ensures silent { IfErr result (Silent W.contents out.old out.new) }
    ensures err { IfErr result (FilesNotMatched (S.holds shelf.now) W.contents file.now lines.now out.old out.new) }
{
    let first = read_input(shelf, alloc, file)?;
    let second = read_lines(shelf, alloc, lines)?;
    print_match(alloc, &first, &second, out)
}

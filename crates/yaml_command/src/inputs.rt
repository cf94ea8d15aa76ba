//! All of an input, and of a file that is named.
ghost use Rattle.std.specs.Prelude.{◌≤◌, ◌<◌, ◌-◌, ◌^◌, length, IfOk, IfErr};
ghost use Rattle.yaml_text.specs.CountedModel.{faults_of};
ghost use Rattle.yaml_definitions.specs.model.Limits.{text_limit};
ghost use Rattle.yaml_text.specs.Gathering.{Gathers};
ghost use Rattle.yaml_command.specs.Refusals.{events_limit, InputFails, SideFails, LinesFail};
ghost use Rattle.yaml_command.specs.Shelves.{IsOf, InputUnread, SideUnread, LinesUnread};

use crate::refusal::Refusal;
use crate::shelf::Shelf;
use crate::streams::open;
use std::alloc::Global;
use std::io::Read;
use yaml_text::counted::Counted;
use yaml_text::limits::text_limit;
use yaml_text::{Side, gather};

/// The greatest length of an event text, in bytes.
const EVENTS_LIMIT: usize = 1_073_741_824;

/// All of an input.
pub fn gather_input<'a, R: Read>(
    alloc: Global,
    file: &mut Counted<R>,
) -> Result<Vec<u8>, Refusal<'a>>
    requires { faults_of file.old < 2 ^ 64 - 1 }
    ensures ok { IfOk result (λ v. Gathers R.remaining file.old file.new text_limit v.items) }
    ensures err { IfErr result (InputFails R.remaining file.old file.new) }
{
    match gather(alloc, file, text_limit()) {
        Ok(bytes) => Ok(bytes),
        Err(fault) => Err(Refusal::Input(fault)),
    }
}

/// All of an event text.
pub fn gather_lines<'a, R: Read>(
    alloc: Global,
    file: &mut Counted<R>,
) -> Result<Vec<u8>, Refusal<'a>>
    requires { faults_of file.old < 2 ^ 64 - 1 }
    ensures ok { IfOk result (λ v. Gathers R.remaining file.old file.new events_limit v.items) }
    ensures err { IfErr result (LinesFail R.remaining file.old file.new) }
{
    match gather(alloc, file, EVENTS_LIMIT) {
        Ok(bytes) => Ok(bytes),
        Err(fault) => Err(Refusal::EventText(fault)),
    }
}

/// All of one side.
pub fn gather_side<'a, R: Read>(
    alloc: Global,
    file: &mut Counted<R>,
    side: Side,
) -> Result<Vec<u8>, Refusal<'a>>
    requires { faults_of file.old < 2 ^ 64 - 1 }
    ensures ok { IfOk result (λ v. Gathers R.remaining file.old file.new text_limit v.items) }
    ensures err { IfErr result (SideFails R.remaining side file.old file.new) }
{
    match gather(alloc, file, text_limit()) {
        Ok(bytes) => Ok(bytes),
        Err(fault) => Err(Refusal::OneSide(side, fault)),
    }
}

/// All of the file of this name, one of two sides.
pub fn read_side<'a, S: Shelf>(
    shelf: &S,
    alloc: Global,
    name: &'a str,
    side: Side,
) -> Result<Vec<u8>, Refusal<'a>>
    ensures ok { IfOk result (λ v. IsOf (S.holds shelf.now name.now) v.items) }
    ensures err { IfErr result (SideUnread (S.holds shelf.now name.now) name.now side) }
{
    let mut file = open(shelf, name)?;
    gather_side(alloc, &mut file, side)
}

/// All of the file of this name, an input.
pub fn read_input<'a, S: Shelf>(
    shelf: &S,
    alloc: Global,
    name: &'a str,
) -> Result<Vec<u8>, Refusal<'a>>
    ensures ok { IfOk result (λ v. IsOf (S.holds shelf.now name.now) v.items) }
    ensures err { IfErr result (InputUnread (S.holds shelf.now name.now) name.now) }
{
    let mut file = open(shelf, name)?;
    gather_input(alloc, &mut file)
}

/// All of the file of this name, an event text.
pub fn read_lines<'a, S: Shelf>(
    shelf: &S,
    alloc: Global,
    name: &'a str,
) -> Result<Vec<u8>, Refusal<'a>>
    ensures ok { IfOk result (λ v. IsOf (S.holds shelf.now name.now) v.items) }
    ensures err { IfErr result (LinesUnread (S.holds shelf.now name.now) name.now) }
{
    let mut file = open(shelf, name)?;
    gather_lines(alloc, &mut file)
}

//! Opening a file, and writing an answer whole.
ghost use Rattle.std.specs.Prelude.{◌≡◌, ◌<◌, ◌-◌, ◌^◌, Some, IfSome, IfOk, IfErr, OnOk};
ghost use Rattle.yaml_text.specs.CountedModel.{inner_of, faults_of};
ghost use Rattle.yaml_text.specs.Writers.{Printed};
ghost use Rattle.yaml_command.specs.Printing.{PrintFails};
ghost use Rattle.yaml_command.specs.Shelves.{CannotBeOpened};

use crate::refusal::Refusal;
use crate::shelf::Shelf;
use std::io::Write;
use yaml_spell::page::write_whole;
use yaml_text::counted::Counted;
use yaml_text::fault::Fault;

/// The file of this name, of which no call has failed.
pub fn open<'a, S: Shelf>(shelf: &S, name: &'a str) -> Result<Counted<S::File>, Refusal<'a>>
    ensures fresh { IfOk result (λ file. faults_of file ≡ 0) }
    ensures ok { IfOk result (λ file. IfSome (S.holds shelf.now name.now) (λ bytes. S.File.remaining (inner_of file) ≡ Some bytes)) }
    ensures err { IfErr result (CannotBeOpened (S.holds shelf.now name.now) name.now) }
{
    match shelf.open(name) {
        Ok(file) => Ok(Counted::new(file)),
        Err(_) => Err(Refusal::CannotOpen(name)),
    }
}

/// Writes the whole text and flushes. Any error of the writer, and a write that takes no byte, is
/// `WriteFault`; the writer then has a beginning of the text, and its count is one higher.
pub fn write_out<W: Write>(out: &mut Counted<W>, text: &[u8]) -> Result<(), Fault>
    requires { faults_of out.old < 2 ^ 64 - 1 }
    ensures ok { OnOk result (Printed W.contents out.old out.new text.now) }
    ensures err { IfErr result (PrintFails W.contents out.old out.new text.now) }
{
    write_whole(out, text)?;
    match out.flush() {
        Ok(()) => Ok(()),
        Err(_) => Err(Fault::WriteFault),
    }
}

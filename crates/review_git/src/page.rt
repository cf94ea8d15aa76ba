//! Writing what is printed.
ghost use Rattle.std.specs.Prelude.{◌≡◌, ◌⊎◌, ◌<◌, ◌-◌, ◌^◌, OnOk, IfErr};
ghost use Rattle.yaml_text.specs.CountedModel.{faults_of};
ghost use Rattle.yaml_text.specs.Writers.{Printed, Broken};
ghost use Rattle.yaml_text.specs.declared.fault.Fault.TheVariants.{WriteFault};
ghost use Rattle.yaml_spell.specs.Writers.{Sent, CutOff};

use std::io::{ErrorKind, Write};
use yaml_text::counted::Counted;
use yaml_text::fault::Fault;

/// Writes a text whole, or answers what kind of error there was.
fn send<W: Write>(out: &mut Counted<W>, text: &[u8]) -> Result<(), ErrorKind>
    ensures ok { OnOk result (Sent W.contents out.old out.new text.now) }
    ensures err { IfErr result (λ _. CutOff W.contents out.old out.new text.now WriteFault) }
{
    let mut at = 0;
    'write: while at < text.len() {
        match out.write(&text[at..]) {
            Ok(0) => return Err(ErrorKind::WriteZero),
            Err(error) => return Err(error.kind()),
            Ok(took) => at += took,
        }
    }
    Ok(())
}

/// Writes a text whole and flushes, or answers what kind of error there was.
fn send_out<W: Write>(out: &mut Counted<W>, text: &[u8]) -> Result<(), ErrorKind>
    requires { faults_of out.old < 2 ^ 64 - 1 }
    ensures ok { OnOk result (Printed W.contents out.old out.new text.now) }
    ensures err { IfErr result (λ _. Broken W.contents out.old out.new text.now) }
{
    send(out, text)?;
    match out.flush() {
        Ok(()) => Ok(()),
        Err(error) => Err(error.kind()),
    }
}

/// Writes what is told and flushes. Where whoever reads it has gone, as `head` and a pager do, nothing is left to be told.
///
/// # Errors
/// 23 where the writer fails in another way.
pub fn put_page<W: Write>(out: &mut Counted<W>, text: &[u8]) -> Result<(), Fault>
    requires { faults_of out.old < 2 ^ 64 - 1 }
    ensures ok { OnOk result (Printed W.contents out.old out.new text.now ⊎ Broken W.contents out.old out.new text.now) }
    ensures err { IfErr result (λ fault. (fault ≡ WriteFault) × Broken W.contents out.old out.new text.now) }
{
    match send_out(out, text) {
        Ok(()) => Ok(()),
        Err(kind) => {
            if kind == ErrorKind::BrokenPipe {
                Ok(())
            } else {
                Err(Fault::WriteFault)
            }
        }
    }
}

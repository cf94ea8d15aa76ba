//! `same`: whether two inputs have the same documents.
ghost use Rattle.std.specs.Prelude.{◌≡◌, ◌<◌, ◌-◌, ◌^◌, IfOk, IfErr};
ghost use Rattle.yaml_text.specs.CountedModel.{faults_of};
ghost use Rattle.yaml_command.specs.Judged.{same_line, PrintsSame, SameFails};

use crate::refusal::Refusal;
use crate::streams::write_out;
use std::alloc::Global;
use std::io::Write;
use yaml_canon::same;
use yaml_text::counted::Counted;

/// The line that tells the answer.
fn line_of(alike: bool) -> &'static str
    ensures { result.now ≡ same_line alike }
{
    if alike { "same\n" } else { "different\n" }
}

/// Judges both inputs, the left one first, and writes `same` or `different`. The answer is whether they
/// are the same.
pub fn print_same<'a, W: Write>(
    alloc: Global,
    left: &[u8],
    right: &[u8],
    out: &mut Counted<W>,
) -> Result<bool, Refusal<'a>>
    requires { faults_of out.old < 2 ^ 64 - 1 }
    ensures ok { IfOk result (λ alike. PrintsSame W.contents left.now right.now out.old out.new alike) }
    ensures err { IfErr result (SameFails W.contents left.now right.now out.old out.new) }
{
    let alike = same(alloc, left, right)?;
    write_out(out, line_of(alike).as_bytes())?;
    Ok(alike)
}

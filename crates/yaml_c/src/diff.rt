//! The differences of two streams, for programs in other languages.
ghost use Rattle.std.specs.Prelude.{◌≡◌, ◌≤◌, List, length, true, false};
ghost use Rattle.yaml_definitions.specs.model.Tree.{Tree};
ghost use Rattle.yaml_definitions.specs.model.Proper.{Admitted};
ghost use Rattle.yaml_definitions.specs.model.Means.{Means};
ghost use Rattle.yaml_c.specs.Diffs.{GivesDiff, ShortDiff, RefusesDiff};

use crate::fault::{YamlcanonFault, refuse};
use crate::room::put_text;
use crate::status::{DIFFERENT, DONE};
use review_compare::diff_json;
use std::alloc::Global;

/// Puts where two streams differ at the start of `out`, as `yamlreview diff --format=json` prints it, and the length into `len`: a JSON
/// object on a line for each difference, at most so many lines.
///
/// The status is 0 where they mean the same, and then there is no line; 1 where they don't; 2 where one is refused, of which `fault`
/// tells; 3 where `out` has too little room, and then `len` has the length. Nothing else is written.
#[unsafe(no_mangle)]
pub extern "C" fn yaml_c_diff(
    alloc: Global,
    left: &[u8],
    right: &[u8],
    lines: usize,
    out: &mut [u8],
    len: &mut usize,
    fault: &mut YamlcanonFault,
) -> u32
    ensures status { result ≤ 3 }
    ensures same { result ≡ 0 → GivesDiff left.now right.now lines true out.old out.new len.new fault.old fault.new }
    ensures different { result ≡ 1 → GivesDiff left.now right.now lines false out.old out.new len.new fault.old fault.new }
    ensures short { result ≡ 3 → ShortDiff left.now right.now lines out.old out.new len.new fault.old fault.new }
    ensures refused { result ≡ 2 → RefusesDiff left.now right.now out.old out.new len.old len.new fault.new }
    ensures accepts { (f g : List Tree) → Admitted f → Admitted g → Means left.now f → Means right.now g → result ≡ 2 → fault.new.number ≡ 21 }
{
    let told = match diff_json(alloc, left, right, lines) {
        Ok(told) => told,
        Err((side, refusal)) => return refuse(side, refusal, fault),
    };
    let status = put_text(told.text.as_str().as_bytes(), out, len);
    if status != DONE {
        return status;
    }
    if told.same {
        return DONE;
    }
    DIFFERENT
}

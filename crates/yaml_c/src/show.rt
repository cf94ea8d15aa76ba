//! The readable texts of a stream, for programs in other languages.
ghost use Rattle.std.specs.Prelude.{◌≡◌, ◌⊎◌, List};
ghost use Rattle.yaml_definitions.specs.model.Tree.{Tree};
ghost use Rattle.yaml_definitions.specs.model.Proper.{Admitted};
ghost use Rattle.yaml_definitions.specs.model.Means.{Means};
ghost use Rattle.yaml_show.specs.Refused.{JsonRefuses};
ghost use Rattle.yaml_show.specs.declared.unshown.Unshown.TheVariants.{NoJson, Unlike};
ghost use Rattle.yaml_c.specs.Shown.{GivesShown, ShortShown, RefusesShown, IsLengthOrMemoryNumber};
ghost use Rattle.yaml_c.specs.Shown.{GivesJson, ShortJson, RefusesJson, WritesNothing};

use crate::fault::{YamlcanonFault, refuse};
use crate::room::put_text;
use crate::status::{NO_JSON, UNLIKE};
use std::alloc::Global;
use yaml_canon::Side;
use yaml_show::{Unshown, show, show_json};

/// Puts the stream that these bytes are, as readable YAML that means the same, at the start of `out`, and its length into `len`.
///
/// The status is 0, or 2 where the bytes are refused, of which `fault` tells, or 3 where `out` has too little room, and
/// then `len` has the length. Nothing else is written. 20 is told where the readable text or
/// the canonical one would have more than 67,108,864 bytes.
#[unsafe(no_mangle)]
pub extern "C" fn yaml_c_show(
    alloc: Global,
    input: &[u8],
    out: &mut [u8],
    len: &mut usize,
    fault: &mut YamlcanonFault,
) -> u32
    ensures status { (result ≡ 0) ⊎ ((result ≡ 2) ⊎ (result ≡ 3)) }
    ensures given { result ≡ 0 → GivesShown input.now out.old out.new len.new fault.old fault.new }
    ensures short { result ≡ 3 → ShortShown input.now out.old out.new len.new fault.old fault.new }
    ensures refused { result ≡ 2 → RefusesShown input.now out.old out.new len.old len.new fault.new }
    ensures accepts { (f : List Tree) → Admitted f → Means input.now f → result ≡ 2 → IsLengthOrMemoryNumber fault.new.number }
{
    match show(alloc, input) {
        Ok(text) => put_text(text.as_str().as_bytes(), out, len),
        Err(refusal) => refuse(Side::Left, refusal, fault),
    }
}

/// Puts the stream that these bytes are, as JSON with a line for each document, at the start of `out`, and its length into `len`.
///
/// The status is as for `yaml_c_show`, or 4 where JSON cannot express the stream: a key is no string, a float is `.inf`, `-.inf` or
/// `.nan`, or a tag is none of the core schema. It is 5 where the lines did not pass their check, for which no input is known. With 4
/// and 5 nothing is written.
#[unsafe(no_mangle)]
pub extern "C" fn yaml_c_json(
    alloc: Global,
    input: &[u8],
    out: &mut [u8],
    len: &mut usize,
    fault: &mut YamlcanonFault,
) -> u32
    ensures status { (result ≡ 0) ⊎ ((result ≡ 2) ⊎ ((result ≡ 3) ⊎ ((result ≡ 4) ⊎ (result ≡ 5)))) }
    ensures given { result ≡ 0 → GivesJson input.now out.old out.new len.new fault.old fault.new }
    ensures short { result ≡ 3 → ShortJson input.now out.old out.new len.new fault.old fault.new }
    ensures refused { result ≡ 2 → RefusesJson input.now out.old out.new len.old len.new fault.new }
    ensures lacks { result ≡ 4 → JsonRefuses input.now NoJson }
    ensures unlike { result ≡ 5 → JsonRefuses input.now Unlike }
    ensures none { (result ≡ 4) ⊎ (result ≡ 5) → WritesNothing out.old out.new len.old len.new fault.old fault.new }
{
    match show_json(alloc, input) {
        Ok(text) => put_text(text.as_str().as_bytes(), out, len),
        Err(Unshown::Rejected(refusal)) => refuse(Side::Left, refusal, fault),
        Err(Unshown::NoJson) => NO_JSON,
        Err(Unshown::Unlike) => UNLIKE,
    }
}

//! The functions that are exported. A slice is passed as a pointer and a length, and no pointer is null: `library/calls.c` calls
//! those named `yaml_c_..` for the callers in C, which may pass null where a length is 0.
ghost use Rattle.std.specs.Prelude.{◌≡◌, ◌≢◌, ◌≤◌, ◌⊎◌, List, length, true, false};
ghost use Rattle.yaml_definitions.specs.model.Tree.{Tree};
ghost use Rattle.yaml_definitions.specs.model.Proper.{Admitted};
ghost use Rattle.yaml_definitions.specs.model.Means.{Means};
ghost use Rattle.yaml_c.specs.Answers.{GivesCanonical, ShortCanonical, RefusesCanonical, OnlyMemory};
ghost use Rattle.yaml_c.specs.Answers.{GivesEvents, ShortEvents, RefusesEvents, Answers, RefusesSame};
ghost use Rattle.yaml_c.specs.Digests.{GivesDigest, RefusesDigest, OnlyMemoryOfDigest};
ghost use Rattle.yaml_c.specs.Messages.{GivesMessage, ShortMessage, NoMessage, Says};
ghost use Rattle.yaml_text.specs.declared.side.Side.{Side};
ghost use Rattle.yaml_text.specs.declared.fault.Fault.{Fault};
ghost use Rattle.yaml_c.specs.Told.{told};

use crate::digest::digest_of;
use crate::fault::{YamlcanonFault, refuse};
use crate::numbers::fault_in;
use crate::room::{put_message, tell_length};
use crate::status::{DIFFERENT, DONE, REFUSED};
use std::alloc::Global;
use yaml_canon::{Side, canonical_into, same};
use yaml_event_text::event_text_into;

/// 100 times the number of the interface, with which the shared library's name ends, and the number of what was added.
const VERSION: u32 = 101;

/// The number of the form of canonical texts.
const FORM: u32 = 1;

/// The version of this library, which the header tells as `YAMLCANON_VERSION`.
#[unsafe(no_mangle)]
pub extern "C" fn yamlcanon_version() -> u32
    ensures { result ≡ 101 }
{
    VERSION
}

/// The form of the canonical texts, which the header tells as `YAMLCANON_FORM`.
#[unsafe(no_mangle)]
pub extern "C" fn yamlcanon_form() -> u32
    ensures { result ≡ 1 }
{
    FORM
}

/// Puts the canonical text of the stream that these bytes are at the start of `out`, and its length into `len`.
///
/// The status is 0, or 2 where the bytes are refused, of which `fault` tells, or 3 where `out` has too little room, and
/// then `len` has the length. Nothing else is written.
#[unsafe(no_mangle)]
pub extern "C" fn yaml_c_canonical(
    alloc: Global,
    input: &[u8],
    out: &mut [u8],
    len: &mut usize,
    fault: &mut YamlcanonFault,
) -> u32
    ensures status { (result ≡ 0) ⊎ ((result ≡ 2) ⊎ (result ≡ 3)) }
    ensures given { result ≡ 0 → GivesCanonical input.now out.old out.new len.new fault.old fault.new }
    ensures short { result ≡ 3 → ShortCanonical input.now out.old out.new len.new fault.old fault.new }
    ensures refused { result ≡ 2 → RefusesCanonical input.now out.old out.new len.old len.new fault.new }
    ensures accepts { (f : List Tree) → Admitted f → Means input.now f → OnlyMemory f out.new len.new result fault.new }
{
    match canonical_into(alloc, input, out) {
        Ok(needed) => tell_length(needed, out.len(), len),
        Err(refusal) => refuse(Side::Left, refusal, fault),
    }
}

/// Puts the event text of the stream that these bytes are at the start of `out`, as `yaml_c_canonical` does its
/// canonical text.
#[unsafe(no_mangle)]
pub extern "C" fn yaml_c_events(
    alloc: Global,
    input: &[u8],
    out: &mut [u8],
    len: &mut usize,
    fault: &mut YamlcanonFault,
) -> u32
    ensures status { (result ≡ 0) ⊎ ((result ≡ 2) ⊎ (result ≡ 3)) }
    ensures given { result ≡ 0 → GivesEvents input.now out.old out.new len.new fault.old fault.new }
    ensures short { result ≡ 3 → ShortEvents input.now out.old out.new len.new fault.old fault.new }
    ensures refused { result ≡ 2 → RefusesEvents input.now out.old out.new len.old len.new fault.new }
{
    match event_text_into(alloc, input, out) {
        Ok(length) => tell_length(length, out.len(), len),
        Err(refusal) => refuse(Side::Left, refusal, fault),
    }
}

/// Whether two streams mean the same: 0 where they do, 1 where they don't, 2 where one is refused, of which `fault`
/// tells.
#[unsafe(no_mangle)]
pub extern "C" fn yaml_c_same(
    alloc: Global,
    left: &[u8],
    right: &[u8],
    fault: &mut YamlcanonFault,
) -> u32
    ensures status { result ≤ 2 }
    ensures same { result ≡ 0 → Answers left.now right.now true fault.old fault.new }
    ensures different { result ≡ 1 → Answers left.now right.now false fault.old fault.new }
    ensures refused { result ≡ 2 → RefusesSame left.now right.now fault.new }
    ensures accepts { (f g : List Tree) → Admitted f → Admitted g → Means left.now f → Means right.now g → result ≡ 2 → fault.new.number ≡ 21 }
{
    match same(alloc, left, right) {
        Ok(true) => DONE,
        Ok(false) => DIFFERENT,
        Err((side, refusal)) => refuse(side, refusal, fault),
    }
}

/// Puts the SHA-256 of the canonical text of the stream that these bytes are into `out`.
///
/// The status is 0, or 2 where the bytes are refused, of which `fault` tells; nothing else is then written.
#[unsafe(no_mangle)]
pub extern "C" fn yaml_c_sha256(
    alloc: Global,
    input: &[u8],
    out: &mut [u8; 32],
    fault: &mut YamlcanonFault,
) -> u32
    ensures status { (result ≡ 0) ⊎ (result ≡ 2) }
    ensures given { result ≡ 0 → GivesDigest input.now out.new fault.old fault.new }
    ensures refused { result ≡ 2 → RefusesDigest input.now out.old out.new fault.new }
    ensures accepts { (f : List Tree) → Admitted f → Means input.now f → OnlyMemoryOfDigest f out.new result fault.new }
{
    match digest_of(alloc, input) {
        Ok(digest) => {
            *out = digest;
            DONE
        }
        Err(refusal) => refuse(Side::Left, refusal, fault),
    }
}

/// Puts the message of a fault, which a null byte ends, at the start of `out`, and its length without that byte into `len`.
///
/// The status is 0, or 3 where `out` has too little room for message and null byte, and then `len` has the length, or 2 where no
/// fault has these numbers. Nothing else is written. Room of 128 bytes is enough.
#[unsafe(no_mangle)]
pub extern "C" fn yaml_c_message(fault: &YamlcanonFault, out: &mut [u8], len: &mut usize) -> u32
    ensures status { (result ≡ 0) ⊎ ((result ≡ 2) ⊎ (result ≡ 3)) }
    ensures given { result ≡ 0 → GivesMessage fault.now out.old out.new len.new }
    ensures short { result ≡ 3 → ShortMessage fault.now out.old out.new len.new }
    ensures none { result ≡ 2 → NoMessage fault.now out.old out.new len.old len.new }
    ensures fits { 128 ≤ length out.old → result ≢ 3 }
    ensures says { (side : Side) (f : Fault) → fault.now ≡ told side f → Says f result out.new len.new }
{
    match fault_in(fault) {
        Some(known) => put_message(known, out, len),
        None => REFUSED,
    }
}

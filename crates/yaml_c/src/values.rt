//! The values of a stream, in the rooms that a caller gives for them.
ghost use Rattle.std.specs.Prelude.{◌≡◌, ◌⊎◌, List, true, false};
ghost use Rattle.std.specs.String.{string_bytes};
ghost use Rattle.yaml_definitions.specs.model.Tree.{Tree};
ghost use Rattle.yaml_definitions.specs.model.Proper.{Admitted};
ghost use Rattle.yaml_definitions.specs.model.Means.{Means};
ghost use Rattle.yaml_c.specs.Values.{lengths_of, Fit, IsAtFront, AreAtFront, LackRoom, GivesValues, ShortValues, RefusesValues, OnlyMemoryOfValues};

use crate::fault::{YamlcanonFault, refuse};
use crate::status::{DONE, SHORT};
use std::alloc::Global;
use yaml_canon::Side;
use yaml_values::{Value, Values, values};

/// How many values, parts and bytes of texts there are, and how many of the first parts are documents.
#[repr(C)]
#[derive(Clone, Copy, Drop)]
pub struct Lengths {
    pub values: usize,
    pub parts: usize,
    pub texts: usize,
    pub documents: usize,
}

/// How many values, parts, bytes of texts and documents there are.
fn lengths_of(made: &Values) -> Lengths
    ensures { result ≡ lengths_of made.now }
{
    Lengths {
        values: made.values.len(),
        parts: made.parts.len(),
        texts: made.texts.as_str().len(),
        documents: made.documents,
    }
}

/// Puts numbers, bytes or values at the front of a room that is long enough.
fn put_values(values: &[Value], room: &mut [Value])
    requires { Fit values.now room.old }
    ensures { IsAtFront values.now room.old room.new }
{
    room[..values.len()].copy_from_slice(values);
}

/// The same of parts.
fn put_parts(parts: &[u32], room: &mut [u32])
    requires { Fit parts.now room.old }
    ensures { IsAtFront parts.now room.old room.new }
{
    room[..parts.len()].copy_from_slice(parts);
}

/// The same of bytes.
fn put_bytes(bytes: &[u8], room: &mut [u8])
    requires { Fit bytes.now room.old }
    ensures { IsAtFront bytes.now room.old room.new }
{
    room[..bytes.len()].copy_from_slice(bytes);
}

/// Puts values, their parts and their texts at the front of these rooms, if each is long enough, and tells the lengths.
#[tactic(auto, using(crate::proofs::ValuesLaws::front_of))]
fn place_values(
    made: &Values,
    values_room: &mut [Value],
    parts_room: &mut [u32],
    texts_room: &mut [u8],
    lengths: &mut Lengths,
) -> u32
    ensures status { (result ≡ 0) ⊎ (result ≡ 3) }
    ensures told { lengths.new ≡ lengths_of made.now }
    ensures given { result ≡ 0 → AreAtFront made.now values_room.old values_room.new parts_room.old parts_room.new texts_room.old texts_room.new }
    ensures short { result ≡ 3 → LackRoom made.now values_room.old values_room.new parts_room.old parts_room.new texts_room.old texts_room.new }
{
    let needed = lengths_of(made);
    *lengths = needed;
    if needed.values > values_room.len()
        || needed.parts > parts_room.len()
        || needed.texts > texts_room.len()
    {
        return SHORT;
    }
    put_values(&made.values, values_room);
    put_parts(&made.parts, parts_room);
    put_bytes(made.texts.as_str().as_bytes(), texts_room);
    DONE
}

/// Puts the values of the stream that these bytes are at the start of `values_room`, their parts at the start of `parts_room`, their
/// texts at the start of `texts_room`, and the lengths into `lengths`. The first parts, as many as there are documents, are the documents.
///
/// The status is 0, or 2 where the bytes are refused, of which `fault` tells, or 3 where a room is too small, and then `lengths` has the
/// lengths. Nothing else is written.
#[unsafe(no_mangle)]
#[tactic(auto, using(crate::proofs::ValuesLaws::front_denotes))]
pub extern "C" fn yaml_c_values(
    alloc: Global,
    input: &[u8],
    values_room: &mut [Value],
    parts_room: &mut [u32],
    texts_room: &mut [u8],
    lengths: &mut Lengths,
    fault: &mut YamlcanonFault,
) -> u32
    ensures status { (result ≡ 0) ⊎ ((result ≡ 2) ⊎ (result ≡ 3)) }
    ensures given { result ≡ 0 → GivesValues input.now values_room.old values_room.new parts_room.old parts_room.new texts_room.old texts_room.new lengths.new fault.old fault.new }
    ensures short { result ≡ 3 → ShortValues input.now values_room.old values_room.new parts_room.old parts_room.new texts_room.old texts_room.new lengths.new fault.old fault.new }
    ensures refused { result ≡ 2 → RefusesValues input.now values_room.old values_room.new parts_room.old parts_room.new texts_room.old texts_room.new lengths.old lengths.new fault.new }
    ensures accepts { (f : List Tree) → Admitted f → Means input.now f → OnlyMemoryOfValues f values_room.new parts_room.new texts_room.new lengths.new result fault.new }
{
    match values(alloc, input) {
        Ok(made) => place_values(&made, values_room, parts_room, texts_room, lengths),
        Err(refusal) => refuse(Side::Left, refusal, fault),
    }
}

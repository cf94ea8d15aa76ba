//! Lines and columns, for programs in other languages.
ghost use Rattle.std.specs.Prelude.{◌≡◌, ◌⊎◌, true, IfOk, IfErr};
ghost use Rattle.review_faults.specs.FaultLines.{names_event};
ghost use Rattle.yaml_c.specs.Positions.{IsPlaceOf, IsPosition, HasNoPosition, LacksMemory, IsJsonPosition, WritesNoPosition};

use crate::fault::YamlcanonFault;
use crate::numbers::fault_in;
use crate::status::{DONE, NO_MEMORY, REFUSED};
use review_faults::{fault_place, no_json_place};
use std::alloc::Global;
use yaml_path::Place;
use yaml_text::fault::Fault;

/// The place of a fault of an input, if it has one there.
#[tactic(auto, using(crate::proofs::PositionLaws::unplaced))]
fn place_of(alloc: Global, input: &[u8], fault: Fault) -> Result<Option<Place>, Fault>
    ensures ok { IfOk result (IsPlaceOf input.now fault) }
    ensures err { IfErr result (λ _. names_event fault ≡ true) }
{
    match fault_place(alloc, input, fault) {
        Ok(place) => Ok(place),
        Err(Fault::OutOfMemory) => Err(Fault::OutOfMemory),
        Err(_) => Ok(None),
    }
}

/// The line and the column of a fault of the input that is rejected, both from 1. A column counts characters. The byte order mark has
/// none.
///
/// The status is 0, or 2 where the fault has no place in this input, or 6 where there is no memory to read the input again, as for
/// faults of events, documents and nodes (12 to 19). With 2 and 6 nothing is written.
#[unsafe(no_mangle)]
pub extern "C" fn yaml_c_position(
    alloc: Global,
    input: &[u8],
    fault: &YamlcanonFault,
    line: &mut usize,
    column: &mut usize,
) -> u32
    ensures status { (result ≡ 0) ⊎ ((result ≡ 2) ⊎ (result ≡ 6)) }
    ensures given { result ≡ 0 → IsPosition input.now fault.now line.new column.new }
    ensures none { result ≡ 2 → HasNoPosition input.now fault.now line.old line.new column.old column.new }
    ensures memory { result ≡ 6 → LacksMemory fault.now line.old line.new column.old column.new }
{
    let Some(known) = fault_in(fault) else {
        return REFUSED;
    };
    match place_of(alloc, input, known) {
        Ok(Some(place)) => {
            *line = place.line;
            *column = place.column;
            DONE
        }
        Ok(None) => REFUSED,
        Err(_) => NO_MEMORY,
    }
}

/// The line and the column of the first node of an input that JSON cannot express, both from 1.
///
/// The status is 0, or 2 where there is no such node, or 6 where there is no memory to find it. With 2 and 6 nothing is written. The
/// input is one of those for which `yaml_c_json` answers `NO_JSON`.
#[unsafe(no_mangle)]
pub extern "C" fn yaml_c_json_position(
    alloc: Global,
    input: &[u8],
    line: &mut usize,
    column: &mut usize,
) -> u32
    ensures status { (result ≡ 0) ⊎ ((result ≡ 2) ⊎ (result ≡ 6)) }
    ensures given { result ≡ 0 → IsJsonPosition input.now line.new column.new }
    ensures none { (result ≡ 2) ⊎ (result ≡ 6) → WritesNoPosition line.old line.new column.old column.new }
{
    match no_json_place(alloc, input) {
        Ok(Some(found)) => {
            *line = found.line;
            *column = found.column;
            DONE
        }
        Err(Fault::OutOfMemory) => NO_MEMORY,
        _ => REFUSED,
    }
}

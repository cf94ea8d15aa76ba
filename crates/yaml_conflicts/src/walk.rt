//! The paths at which two changes conflict, or a merge strays.
ghost use Rattle.std.specs.Prelude.{◌≡◌, IfOk, true};
ghost use Rattle.yaml_conflicts.specs.Found.{SidesWithin, Finds, Spends};

use crate::keys::keys_of;
use crate::lists::{add, none, one};
use crate::rules::is_settled;
use crate::shapes::is_open;
use crate::sides::{Found, Room, Sides, Step};
use crate::values::values_at;
use std::alloc::{AllocError, Global};
use yaml_store_rank::RankedForests;

/// The paths at which the merge that is given strays from the rules; or, if none is given, those at which the sides conflict. All of
/// them, or as many as there is room for. The only error is want of memory (21).
pub fn conflicts(
    alloc: Global,
    forests: &RankedForests<'_>,
    sides: Sides,
    given: bool,
    room: Room,
) -> Result<Found, AllocError>
    requires within { SidesWithin forests.now sides }
    ensures ok { IfOk result (Finds forests.now given sides) }
    ensures room { IfOk result (Spends room) }
{
    if is_settled(forests, sides, given) {
        return Ok(none(alloc, room, true));
    }
    if room.is_spent() {
        return Ok(none(alloc, room, false));
    }
    if !is_open(forests, sides) {
        return one(alloc, sides, room.without_line());
    }
    let mut found = none(alloc, room.without_place(), true);
    let keys = keys_of(alloc, forests, sides)?;
    for key in &keys {
        let values = values_at(forests, sides, *key);
        let more = conflicts(alloc, forests, values, given, found.room)?;
        add(&mut found, Step::Value(*key), more)?;
    }
    Ok(found)
}

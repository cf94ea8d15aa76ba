//! Places put together.
ghost use Rattle.std.specs.Prelude.{◌≡◌, ◌++◌, ◌&&◌, ◌∷◌, [], map, IfOk, OnOk, true};
ghost use Rattle.yaml_conflicts.specs.Found.{under, line_of, lines_of};

use crate::sides::{Conflict, Found, Room, Sides, Step};
use std::alloc::{AllocError, Global};

/// No places, and whether that is all.
pub(crate) fn none(alloc: Global, room: Room, whole: bool) -> Found
    ensures list { lines_of result ≡ [] }
    ensures room { result.room ≡ room }
    ensures whole { result.whole ≡ whole }
{
    Found {
        list: Vec::new(alloc),
        room,
        whole,
    }
}

/// One place: the roots.
pub(crate) fn one(alloc: Global, sides: Sides, room: Room) -> Result<Found, AllocError>
    ensures list { IfOk result (λ found. lines_of found ≡ ([], sides) ∷ []) }
    ensures room { IfOk result (λ found. found.room ≡ room) }
    ensures whole { IfOk result (λ found. found.whole ≡ true) }
{
    let mut list = Vec::new(alloc);
    list.push(Conflict {
        path: Vec::new(alloc),
        sides,
    })?;
    Ok(Found {
        list,
        room,
        whole: true,
    })
}

/// Adds the places of what stands behind a step.
fn add_list(list: &mut Vec<Conflict>, step: Step, more: Vec<Conflict>) -> Result<(), AllocError>
    ensures list { OnOk result (map line_of list.new.items ≡ map line_of list.old.items ++ map (under step) (map line_of more.items)) }
{
    for conflict in more {
        let Conflict { mut path, sides } = conflict;
        path.push(step)?;
        list.push(Conflict { path, sides })?;
    }
    Ok(())
}

/// Adds what was found behind a step, of which the room is left.
pub(crate) fn add(found: &mut Found, step: Step, more: Found) -> Result<(), AllocError>
    ensures list { OnOk result (lines_of found.new ≡ lines_of found.old ++ map (under step) (lines_of more)) }
    ensures room { OnOk result (found.new.room ≡ more.room) }
    ensures whole { OnOk result (found.new.whole ≡ (found.old.whole && more.whole)) }
{
    let Found { list, room, whole } = more;
    add_list(&mut found.list, step, list)?;
    found.room = room;
    found.whole = found.whole && whole;
    Ok(())
}

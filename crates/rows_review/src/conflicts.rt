//! The conflicts of three documents, of which there is room for some.
ghost use Rattle.yaml_diff.specs.Found.{Within};

use std::alloc::Global;
use std::fmt::Write;
use std::test::Fail;
use yaml_canon::ranked_stream;
use yaml_conflicts::{Conflict, Room, Sides, Step, conflicts};
use yaml_store_rank::RankedForests;
use yaml_text::fault::Fault;
use yaml_tree::node::NodeId;
use yaml_tree::shown::Inside;

/// The root of the document at this place.
fn root_of(forests: &RankedForests<'_>, place: usize) -> Option<NodeId>
    ensures { Within forests.now result }
{
    let id = forests.documents(0).get(place).copied()?;
    if id.0 < forests.len() { Some(id) } else { None }
}

/// Appends what a node is: its content, or its brackets, or `-` if there is none.
fn put_node(
    text: &mut String,
    forests: &RankedForests<'_>,
    node: Option<NodeId>,
) -> Result<(), Fault> {
    let told = match node {
        Some(id) => match forests.get(id) {
            Some(shown) => match shown.inside {
                Inside::Scalar(content) => content,
                Inside::Sequence(_) => "[]",
                Inside::Mapping(_) => "{}",
            },
            None => "?",
        },
        None => "-",
    };
    text.push_str(told).map_err(|_| Fault::OutOfMemory)
}

/// Appends a step.
fn put_step(text: &mut String, forests: &RankedForests<'_>, step: Step) -> Result<(), Fault> {
    match step {
        Step::Document(place) => write!(text, "/{place}").map_err(|_| Fault::OutOfMemory),
        Step::Value(key) => {
            text.push_str("/").map_err(|_| Fault::OutOfMemory)?;
            put_node(text, forests, Some(key))
        }
    }
}

/// Appends a line: the path, and what base, ours, theirs and the merge have there.
fn put_line(text: &mut String, forests: &RankedForests<'_>, one: &Conflict) -> Result<(), Fault> {
    for step in one.path.iter().rev() {
        put_step(text, forests, *step)?;
    }
    let sides = one.sides;
    for node in [sides.base, sides.ours, sides.theirs, sides.merge] {
        text.push_str(" ").map_err(|_| Fault::OutOfMemory)?;
        put_node(text, forests, node)?;
    }
    text.push_str("\n").map_err(|_| Fault::OutOfMemory)
}

/// The lines of a stream whose documents are base, ours and theirs. `and more` stands behind them if the room did not do.
fn shown(alloc: Global, stream: &str, room: Room) -> Result<String, Fault> {
    let forests = ranked_stream(alloc, stream.as_bytes())?;
    let sides = Sides {
        base: root_of(&forests, 0),
        ours: root_of(&forests, 1),
        theirs: root_of(&forests, 2),
        merge: root_of(&forests, 0),
    };
    let found = conflicts(alloc, &forests, sides, false, room)?;
    let mut text = String::new(alloc);
    for one in &found.list {
        put_line(&mut text, &forests, one)?;
    }
    if !found.whole {
        text.push_str("and more\n").map_err(|_| Fault::OutOfMemory)?;
    }
    Ok(text)
}

/// Of two conflicts there is room for one; and of a tree that aliases make too large, for a part.
#[test]
fn room_is_kept(rt: HostRuntime) -> Result<(), Fail> {
    let two = "{k: a, l: b}\n--- {k: c, l: d}\n--- {k: e, l: f}\n";
    let one_line = Room {
        places: 100,
        lines: 1,
    };
    let lines = shown(rt.alloc(), two, one_line)?;
    assert_eq!(rt; lines.as_str(), "/k a c e a\nand more\n");
    let one_place = Room {
        places: 1,
        lines: 100,
    };
    let lines = shown(rt.alloc(), two, one_place)?;
    assert_eq!(rt; lines.as_str(), "and more\n");
    Ok(())
}

//! Where the nodes of conflicts are.
ghost use Rattle.std.specs.Prelude.{◌≡◌, map, IfOk, OnOk};
ghost use Rattle.review_merge.specs.Placed.{IsLaid, AddsOffset, HasOffsets, HasSeats};

use crate::told::Seats;
use review_places::finder::{Finder, Side, Stream};
use review_places::layout::{Layout, lay_out};
use review_places::places::{places, unmarked};
use review_places::trace::trace_of;
use std::alloc::{AllocError, Global};
use yaml_diff::Step;
use yaml_store_rank::RankedForests;
use yaml_text::chars::Chars;
use yaml_text::fault::Fault;
use yaml_tree::node::NodeId;

/// Where the nodes of a stream begin of which these are the bytes.
fn layout_of(alloc: Global, bytes: &[u8]) -> Result<Layout, Fault>
    ensures { IfOk result (IsLaid bytes.now) }
{
    let source = Chars::read(bytes)?;
    let trace = trace_of(alloc, &source)?;
    Ok(lay_out(alloc, &trace)?)
}

/// Adds the offset of the node to which a path leads, with the path's number, if there is one.
fn add_offset(
    finder: &Finder<'_>,
    path: &[Step],
    number: usize,
    offsets: &mut Vec<(usize, usize)>,
) -> Result<(), AllocError>
    ensures ok { OnOk result (AddsOffset finder.now path.now number offsets.old.items offsets.new.items) }
{
    match finder.seat(path) {
        Some(seat) => {
            offsets.push((seat.offset, number))?;
            Ok(())
        }
        None => Ok(()),
    }
}

/// The offsets of the nodes to which paths lead, each with the number of its path.
fn offsets_of(
    alloc: Global,
    finder: &Finder<'_>,
    paths: &[Vec<Step>],
) -> Result<Vec<(usize, usize)>, AllocError>
    ensures { IfOk result (λ offsets. HasOffsets finder.now (map (λ path. path.items) paths.now) offsets.items) }
{
    let mut offsets = Vec::new(alloc);
    'paths: for (number, path) in paths.iter().enumerate() {
        add_offset(finder, path, number, &mut offsets)?;
    }
    Ok(offsets)
}

/// The places of the nodes of one side, which is read once more for them: the documents of these roots, and the paths of the conflicts.
pub(crate) fn seats_of(
    alloc: Global,
    forests: &RankedForests<'_>,
    roots: &[NodeId],
    bytes: &[u8],
    paths: &[Vec<Step>],
) -> Result<Seats, Fault>
    ensures { IfOk result (HasSeats forests.now (map (λ path. path.items) paths.now) (roots.now, bytes.now)) }
{
    let layout = layout_of(alloc, bytes)?;
    let side = Side::Left;
    let finder = Finder::new(forests, Stream { side, roots }, layout);
    let offsets = offsets_of(alloc, &finder, paths)?;
    Ok(Seats {
        places: places(alloc, unmarked(bytes), offsets)?,
    })
}

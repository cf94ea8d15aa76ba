//! Where the nodes of differences stand, and which of them have one cause.
ghost use Rattle.std.specs.Prelude.{◌≡◌};

use review_folds::Cause;
use review_places::finder::{Finder, Seat, Side, Stream};
use review_places::layout::lay_out_from;
use review_places::places::{places, unmarked};
use review_places::trace::Traced;
use review_text::options::Diff;
use std::alloc::{AllocError, Global};
use std::collections::BTreeSet;
use yaml_diff::Difference;
use yaml_path::Place;
use yaml_store_rank::RankedForests;

/// The places of the nodes of each difference, where they are told, and what each has as its cause, where that is known.
#[derive(Drop)]
pub(crate) struct Places {
    pub(crate) left: Vec<Option<Place>>,
    pub(crate) right: Vec<Option<Place>>,
    pub(crate) causes: Vec<Option<Cause>>,
}

/// The place at a number, if places are asked for and one is there.
pub(crate) fn place_at(asked: &Diff<'_>, places: &[Option<Place>], number: usize) -> Option<Place> {
    if !asked.places {
        return None;
    }
    match places.get(number) {
        Some(place) => *place,
        None => None,
    }
}

/// One of two streams.
fn stream_of<'g>(forests: &'g RankedForests<'_>, side: Side) -> Stream<'g> {
    let roots = match side {
        Side::Left => forests.documents(0),
        Side::Right => forests.documents(1),
    };
    Stream { side, roots }
}

/// Whether there is a node on this side: of a difference, or of a pair of items that moved, which is told with no nodes.
fn has_node(difference: &Difference, side: Side) -> bool {
    match side {
        Side::Left => difference.left.is_some() || difference.right.is_none(),
        Side::Right => difference.right.is_some() || difference.left.is_none(),
    }
}

/// What one side has of a difference.
#[derive(Clone, Copy)]
struct Mark {
    /// The number of the node; where the other side has none, that of the event, and where this side has none, that of the node whose
    /// part it would be.
    number: usize,
    /// Whether the path leads through no alias, and to none.
    is_own: bool,
}

/// What a seat has of a difference. The three kinds of numbers differ, so that a pair of them tells which side has a node.
fn mark_of(difference: &Difference, side: Side, seat: Seat) -> Option<Mark> {
    let (here, there) = match side {
        Side::Left => (difference.left, difference.right),
        Side::Right => (difference.right, difference.left),
    };
    let (number, kind) = match (here.is_some(), there.is_some()) {
        (true, true) => (seat.node?, 0),
        (true, false) => (seat.event, 1),
        (false, true) => (seat.node?, 2),
        (false, false) => return None,
    };
    Some(Mark {
        number: number.saturating_mul(3).saturating_add(kind),
        is_own: seat.is_own,
    })
}

/// The places of one side's nodes, each with the number of its line, which rise; and what this side has of each difference, if it has
/// an alias.
#[derive(Drop)]
struct SidePlaces {
    places: Vec<(usize, Place)>,
    marks: Vec<Option<Mark>>,
}

/// The seat of the node to which a path leads on one side, or else of that whose part it would be.
fn seat_at(finder: &Finder<'_>, difference: &Difference, side: Side) -> Option<Seat> {
    if has_node(difference, side) {
        return finder.seat(&difference.path);
    }
    if !finder.has_aliases() {
        return None;
    }
    finder.seat(difference.path.get(1..).unwrap_or(&[]))
}

/// Where the nodes of one side stand: of the first differences, as many as lines are asked for, or of all where there are aliases, through
/// which one line may tell several differences.
fn side_places(
    alloc: Global,
    forests: &RankedForests<'_>,
    list: &[Difference],
    side: Side,
    traced: Traced<'_>,
    lines: usize,
) -> Result<SidePlaces, AllocError> {
    let layout = lay_out_from(alloc, traced.trace, traced.first, traced.end)?;
    let finder = Finder::new(forests, stream_of(forests, side), layout);
    let mut offsets = Vec::new(alloc);
    let mut marks = Vec::new(alloc);
    for (number, difference) in list.iter().enumerate() {
        if number >= lines && !finder.has_aliases() {
            break;
        }
        let seat = seat_at(&finder, difference, side);
        if let Some(seat) = seat {
            if has_node(difference, side) {
                offsets.push((seat.offset, number))?;
            }
        }
        if finder.has_aliases() {
            marks.push(seat.and_then(|seat| mark_of(difference, side, seat)))?;
        }
    }
    Ok(SidePlaces {
        places: places(alloc, unmarked(traced.bytes), offsets)?,
        marks,
    })
}

/// What both sides have of the difference of this number.
fn marks_at(
    lefts: &[Option<Mark>],
    rights: &[Option<Mark>],
    number: usize,
) -> Option<(Mark, Mark)> {
    match (lefts.get(number), rights.get(number)) {
        (Some(Some(left)), Some(Some(right))) => Some((*left, *right)),
        _ => None,
    }
}

/// The causes of the differences to which a path leads without an alias on either side.
fn own_causes(
    alloc: Global,
    lefts: &[Option<Mark>],
    rights: &[Option<Mark>],
) -> Result<BTreeSet<Cause>, AllocError> {
    let mut own = BTreeSet::new(alloc);
    for number in 0..lefts.len() {
        if let Some((left, right)) = marks_at(lefts, rights, number) {
            if left.is_own && right.is_own {
                own.insert((left.number, right.number))?;
            }
        }
    }
    Ok(own)
}

/// What each difference has as its cause, where that is known. Differences of one cause are one change, which is in the list at its own
/// place, and which aliases show at the others.
fn causes_of(
    alloc: Global,
    lefts: &[Option<Mark>],
    rights: &[Option<Mark>],
) -> Result<Vec<Option<Cause>>, AllocError> {
    let own = own_causes(alloc, lefts, rights)?;
    let mut causes = Vec::new(alloc);
    for number in 0..lefts.len() {
        let cause = match marks_at(lefts, rights, number) {
            Some((left, right)) => Some((left.number, right.number)),
            None => None,
        };
        causes.push(match cause {
            Some(cause) if own.contains(&cause) => Some(cause),
            _ => None,
        })?;
    }
    Ok(causes)
}

/// The places of one side by the numbers of their lines, of which there are so many.
fn spread(
    alloc: Global,
    places: &[(usize, Place)],
    len: usize,
) -> Result<Vec<Option<Place>>, AllocError> {
    let mut list = vec![in alloc; None; len]?;
    for (number, place) in places {
        if let Some(slot) = list.get_mut(*number) {
            *slot = Some(*place);
        }
    }
    Ok(list)
}

/// The places of both sides' nodes, of as many differences as lines are asked for; none where they are not asked for.
pub(crate) fn find_places(
    alloc: Global,
    forests: &RankedForests<'_>,
    list: &[Difference],
    sides: Option<(Traced<'_>, Traced<'_>)>,
    lines: usize,
) -> Result<Places, AllocError> {
    match sides {
        Some((left, right)) => {
            let lefts = side_places(alloc, forests, list, Side::Left, left, lines)?;
            let rights = side_places(alloc, forests, list, Side::Right, right, lines)?;
            Ok(Places {
                left: spread(alloc, &lefts.places, list.len())?,
                right: spread(alloc, &rights.places, list.len())?,
                causes: causes_of(alloc, &lefts.marks, &rights.marks)?,
            })
        }
        None => Ok(Places {
            left: Vec::new(alloc),
            right: Vec::new(alloc),
            causes: Vec::new(alloc),
        }),
    }
}

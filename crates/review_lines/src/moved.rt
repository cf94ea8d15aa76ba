//! The lines of items that moved.
ghost use Rattle.std.specs.Prelude.{◌≡◌, ◌++◌, ◌-◌, length, None, cond, take, option_map, is_some, string_bytes, OnOk, IfOk, IfSome};
ghost use Rattle.std.specs.List.{sum_by};
ghost use Rattle.yaml_diff.specs.Lines.{way_of};
ghost use Rattle.review_folds.specs.Labels.{label, AreKeys};
ghost use Rattle.review_lines.specs.Compared.{is_numbered, room_of, path_as, is_plain, list_path, last_of, range_of, before_text, range_path, group_text, IsFirst, TellsGroup, TellsGroups, TellsMoves};

use crate::diff::{is_numbered, members_in, room_of};
use crate::lines::Line;
use crate::nodes::{find_places, place_at};
use crate::strings::Budget;
use review_folds::{Group, Keys, groups, item_path, label_of};
use review_paths::pasted;
use review_places::trace::Traced;
use review_text::options::{Diff, Paths};
use review_text::path::path_text;
use std::alloc::{AllocError, Global};
use yaml_diff::{Difference, Found, Move, Step};
use yaml_path::Place;
use yaml_path::places::Places;
use yaml_store_rank::RankedForests;

/// Whether paths are as the pages show them, with the places of both sides.
fn is_plain(paths: Paths) -> bool
    ensures { result ≡ is_plain paths }
{
    match paths {
        Paths::Plain => true,
        Paths::Jq | Paths::JsonPointer => false,
    }
}

/// The first move of a group as a difference that has no node on either side, and whose path leads to the items.
#[tactic(auto, using(crate::proofs::MoveLaws::first_none, crate::proofs::MoveLaws::first_some))]
fn first_of(alloc: Global, moves: &[Move], group: Group) -> Result<Difference, AllocError>
    ensures ok { IfOk result (IsFirst moves.now group) }
{
    let Some(one) = moves.get(group.first) else {
        return Ok(Difference {
            path: Vec::new(alloc),
            left: None,
            right: None,
        });
    };
    let path = item_path(alloc, one)?;
    Ok(Difference {
        path,
        left: None,
        right: None,
    })
}

/// The places of the last move of a group, if it has several.
fn last_of(moves: &[Move], group: Group) -> Option<Places>
    ensures { result ≡ last_of moves.now group }
{
    let last = group.end.saturating_sub(1);
    if group.first < last {
        moves.get(last).map(|one| one.places)
    } else {
        None
    }
}

/// Writes where neighbours stand on both sides: the places of the first one and of the last one.
fn put_range(out: &mut String, first: Step, last: Places) -> Result<(), AllocError>
    ensures ok { OnOk result (string_bytes out.new ≡ string_bytes out.old ++ range_of first last) }
{
    match (first, last) {
        (Step::Item(Places::Both(left, right)), Places::Both(left_end, right_end)) => {
            if left == right {
                write!(out, "{left}-{left_end}")?;
            } else {
                write!(out, "{left}-{left_end}:{right}-{right_end}")?;
            }
        }
        _ => {}
    }
    Ok(())
}

/// What a plain path to an item of a list has before the item's own step.
#[tactic(auto, using(crate::proofs::MoveLaws::before_alone, crate::proofs::MoveLaws::before_path))]
fn before_text(
    alloc: Global,
    forests: &RankedForests<'_>,
    list: &[Step],
) -> Result<String, AllocError>
    ensures ok { IfOk result (λ s. string_bytes s ≡ before_text (is_numbered forests.now) (way_of forests.now list.now)) }
{
    let numbered = is_numbered(forests);
    if list.len() == 1 && !numbered {
        return Ok(String::new(alloc));
    }
    path_text(alloc, forests, list, numbered)
}

/// The path of neighbours that moved together: that to their list, and their places.
#[tactic(auto, using(crate::proofs::MoveLaws::range_empty, crate::proofs::MoveLaws::range_some))]
fn range_path(
    alloc: Global,
    forests: &RankedForests<'_>,
    list: &[Step],
    first: Step,
    last: Places,
) -> Result<String, AllocError>
    ensures ok { IfOk result (λ s. string_bytes s ≡ range_path (is_numbered forests.now) first last (way_of forests.now list.now)) }
{
    let mut out = before_text(alloc, forests, list)?;
    if list.is_empty() {
        put_range(&mut out, first, last)?;
        return Ok(out);
    }
    out.push('[')?;
    put_range(&mut out, first, last)?;
    out.push(']')?;
    Ok(out)
}

/// A path that both sides have, in the form that is asked for.
fn path_of_both(
    alloc: Global,
    forests: &RankedForests<'_>,
    paths: Paths,
    path: &[Step],
) -> Result<String, AllocError>
    ensures ok { IfOk result (λ s. string_bytes s ≡ path_as paths (is_numbered forests.now) None None (way_of forests.now path.now)) }
{
    let numbered = is_numbered(forests);
    match paths {
        Paths::Plain => path_text(alloc, forests, path, numbered),
        Paths::Jq => pasted(alloc, forests, path, numbered, true, true, true),
        Paths::JsonPointer => pasted(alloc, forests, path, numbered, false, true, true),
    }
}

/// The path to a list on both sides. Of all documents it is a dot, as the pattern that matches them.
#[tactic(auto, using(crate::proofs::MoveLaws::list_pasted, crate::proofs::MoveLaws::list_inside, crate::proofs::MoveLaws::list_of_all))]
fn list_path(
    alloc: Global,
    forests: &RankedForests<'_>,
    paths: Paths,
    list: &[Step],
) -> Result<String, AllocError>
    ensures ok { IfOk result (λ s. string_bytes s ≡ list_path paths (is_numbered forests.now) (way_of forests.now list.now)) }
{
    if !is_plain(paths) {
        return path_of_both(alloc, forests, paths, list);
    }
    if !list.is_empty() {
        return path_of_both(alloc, forests, paths, list);
    }
    let mut out = String::new(alloc);
    out.push('.')?;
    Ok(out)
}

/// The path of a group, where this one leads to its first items: that of the list of which only the order changed, that of neighbours
/// that moved together, or that of the items alone.
#[tactic(auto, using(crate::proofs::MoveLaws::group_none, crate::proofs::MoveLaws::group_whole, crate::proofs::MoveLaws::group_range, crate::proofs::MoveLaws::group_one))]
fn group_path(
    alloc: Global,
    forests: &RankedForests<'_>,
    paths: Paths,
    whole: bool,
    last: Option<Places>,
    path: &[Step],
) -> Result<String, AllocError>
    ensures ok { IfOk result (λ s. string_bytes s ≡ group_text paths (is_numbered forests.now) forests.now whole last path.now) }
{
    let Some((first, list)) = path.split_first() else {
        return Ok(String::new(alloc));
    };
    if whole {
        return list_path(alloc, forests, paths, list);
    }
    match last {
        Some(last) => range_path(alloc, forests, list, *first, last),
        None => path_of_both(alloc, forests, paths, path),
    }
}

/// The label of a group, where there are keys.
#[tactic(auto, using(crate::proofs::MoveLaws::label_some, crate::proofs::MoveLaws::label_none))]
fn label_if(
    alloc: Global,
    forests: &RankedForests<'_>,
    asked: &Diff<'_>,
    keys: &Option<Keys>,
    group: Group,
    path: &[Step],
) -> Result<Option<String>, AllocError>
    requires keys { IfSome keys.now (AreKeys forests.now) }
    ensures ok { IfOk result (λ told. option_map string_bytes told ≡ cond (is_some keys.now) (label forests.now (room_of asked.now.whole) group path.now) None) }
{
    match keys {
        Some(keys) => label_of(alloc, forests, keys, group, path, room_of(asked.whole)),
        None => Ok(None),
    }
}

/// The line of a group, with these places of its first items.
#[tactic(auto, using(crate::proofs::MoveLaws::group_told))]
fn line_of_group(
    alloc: Global,
    forests: &RankedForests<'_>,
    asked: &Diff<'_>,
    moves: &[Move],
    group: Group,
    keys: &Option<Keys>,
    places: (Option<Place>, Option<Place>),
) -> Result<Line, AllocError>
    requires keys { IfSome keys.now (AreKeys forests.now) }
    ensures ok { IfOk result (TellsGroup (is_some keys.now) forests.now asked.now moves.now group) }
{
    let first = first_of(alloc, moves, group)?;
    let last = last_of(moves, group);
    let path = group_path(alloc, forests, asked.paths, group.whole, last, &first.path)?;
    let label = label_if(alloc, forests, asked, keys, group, &first.path)?;
    // There are no nodes, whose values alone take room.
    let mut budget = Budget::new();
    let members = members_in(alloc, forests, &first, asked.form, &mut budget)?;
    Ok(Line {
        path,
        label,
        left: None,
        right: None,
        left_place: places.0,
        right_place: places.1,
        changes: None,
        members,
        count: 1,
    })
}

/// The first move of each group as a difference.
fn firsts(alloc: Global, moves: &[Move], groups: &[Group]) -> Result<Vec<Difference>, AllocError> {
    let mut list = Vec::new(alloc);
    for group in groups {
        list.push(first_of(alloc, moves, *group)?)?;
    }
    Ok(list)
}

/// The lines of groups, with places where both sides are given.
fn lines_of_groups(
    alloc: Global,
    forests: &RankedForests<'_>,
    asked: &Diff<'_>,
    moves: &[Move],
    groups: &[Group],
    keys: &Option<Keys>,
    sides: Option<(Traced<'_>, Traced<'_>)>,
) -> Result<Vec<Line>, AllocError>
    requires keys { IfSome keys.now (AreKeys forests.now) }
    ensures ok { IfOk result (λ lines. TellsGroups (is_some keys.now) forests.now asked.now moves.now groups.now lines.items) }
{
    let firsts = firsts(alloc, moves, groups)?;
    let sides = if firsts.is_empty() { None } else { sides };
    let places = find_places(alloc, forests, &firsts, sides, firsts.len())?;
    let mut lines = Vec::new(alloc);
    for (number, group) in groups.iter().enumerate() {
        let at = (
            place_at(asked, &places.left, number),
            place_at(asked, &places.right, number),
        );
        lines.push(line_of_group(alloc, forests, asked, moves, *group, keys, at)?)?;
    }
    Ok(lines)
}

/// The keys that name items, where there are labels.
fn keys_if(
    alloc: Global,
    forests: &RankedForests<'_>,
    has_labels: bool,
) -> Result<Option<Keys>, AllocError>
    ensures are { IfOk result (λ keys. IfSome keys (AreKeys forests.now)) }
    ensures told { IfOk result (λ keys. is_some keys ≡ has_labels) }
{
    if has_labels {
        return Ok(Some(Keys::new(alloc, forests)?));
    }
    Ok(None)
}

/// Lines of pairs of items that moved.
#[derive(Drop)]
pub(crate) struct MoveLines {
    pub(crate) lines: Vec<Line>,
    /// How many pairs they do not tell.
    pub(crate) untold: usize,
}

/// So many groups, or all if there are fewer.
fn first_groups(groups: &[Group], room: usize) -> &[Group]
    ensures { result.now ≡ take room groups.now }
{
    groups.get(..room).unwrap_or(groups)
}

/// How many moves are in none of these groups.
fn untold(moves: &[Move], groups: &[Group]) -> usize
    ensures { result ≡ length moves.now - sum_by (λ group. group.end - group.first) groups.now }
{
    let mut count = moves.len();
    for group in groups {
        count = count.saturating_sub(group.end.saturating_sub(group.first));
    }
    count
}

/// The lines of pairs of items that moved, at most so many. In columns each has a label, and one line may tell several pairs, if that is
/// asked for.
#[tactic(auto, using(crate::proofs::CompareLaws::moves_told, crate::proofs::CompareLaws::moves_untold))]
pub(crate) fn lines_of_moves(
    alloc: Global,
    forests: &RankedForests<'_>,
    asked: &Diff<'_>,
    sides: Option<(Traced<'_>, Traced<'_>)>,
    found: &Found,
    room: usize,
    columns: bool,
) -> Result<MoveLines, AllocError>
    ensures ok { IfOk result (λ told. TellsMoves columns forests.now asked.now found.now room told.lines.items told.untold) }
{
    let folds = columns && asked.folds;
    let groups = groups(alloc, folds, is_plain(asked.paths), found)?;
    let told = first_groups(&groups, room);
    let untold = untold(&found.moves, told);
    if told.is_empty() {
        return Ok(MoveLines {
            lines: Vec::new(alloc),
            untold,
        });
    }
    let keys = keys_if(alloc, forests, columns)?;
    let lines = lines_of_groups(alloc, forests, asked, &found.moves, told, &keys, sides)?;
    Ok(MoveLines { lines, untold })
}

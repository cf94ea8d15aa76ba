//! What is shown of two scalars of one tag that differ: their changed lines, or the parts where they differ.
ghost use Rattle.std.specs.Prelude.{◌≡◌, ◌==◌, ◌++◌, ◌≤◌, [], cond, nat_le, take, drop, length, codes, string_bytes, Some, OnOk, IfOk, IfSome};
ghost use Rattle.yaml_scalar.specs.Spelling.{quoted_bytes};
ghost use Rattle.yaml_definitions.specs.model.Tree.{scalar};
ghost use Rattle.yaml_store_rank.specs.Forests.{tree};
ghost use Rattle.yaml_unified.specs.Printed.{script_text};
ghost use Rattle.review_text.specs.Shown.{front};
ghost use Rattle.review_lines.specs.Compared.{IsScalar, part_text, ShowsParts, ShowsChanges};

use crate::lines::Changes;
use review_paths::Room;
use review_text::options::Diff;
use review_text::text::{front, put_spelled};
use std::alloc::{AllocError, Global};
use yaml_diff::Difference;
use yaml_store_rank::RankedForests;
use yaml_tree::node::NodeId;
use yaml_tree::shown::Inside;
use yaml_unified::{Edit, put_script, script_of};

/// How many bytes before the first difference are shown.
const LEAD: usize = 20;

/// What stands for bytes that are left out.
const MORE: &str = "...";

/// How many changed places are named.
const NAMED: usize = 3;

/// How many bytes of scalars are looked at: more than two files have without aliases.
const BYTES: usize = 64 * 1_024 * 1_024;

/// How many bytes of scalars may still be looked at, and how many of values may be written, so that a long scalar with many aliases is not
/// compared with another each time.
#[derive(Drop)]
pub(crate) struct Budget {
    bytes: usize,
    pub(crate) values: Room,
}

impl Budget {
    /// What all lines may take together.
    pub(crate) fn new() -> Budget {
        Budget {
            bytes: BYTES,
            values: Room::new(),
        }
    }

    /// Takes the bytes of two contents, if there are so many.
    fn take(&mut self, left: &str, right: &str) -> bool {
        let bytes = left.len().saturating_add(right.len());
        let is_enough = bytes <= self.bytes;
        if is_enough {
            self.bytes = self.bytes.saturating_sub(bytes);
        }
        is_enough
    }
}

/// A scalar.
#[derive(Clone, Copy)]
struct Scalar<'b> {
    tag: &'b str,
    content: &'b str,
}

/// The scalar of this number, if it is one.
fn scalar_of<'b>(forests: &'b RankedForests<'_>, id: Option<NodeId>) -> Option<Scalar<'b>>
    ensures { IfSome result (λ s. IsScalar forests.now id s.tag.now s.content.now) }
{
    let Some(id) = id else {
        return None;
    };
    forests.laws();
    let Some(shown) = forests.get(id) else {
        return None;
    };
    match shown.inside {
        Inside::Scalar(content) => Some(Scalar {
            tag: shown.tag,
            content,
        }),
        _ => None,
    }
}

/// Both nodes of a difference, if they are scalars of one tag.
#[tactic(auto, using(crate::proofs::StringLaws::same_tag))]
fn scalars_of<'b>(
    forests: &'b RankedForests<'_>,
    difference: &Difference,
) -> Option<(Scalar<'b>, Scalar<'b>)>
    ensures left { IfSome result (λ s. IsScalar forests.now difference.now.left s.0.tag.now s.0.content.now) }
    ensures right { IfSome result (λ s. IsScalar forests.now difference.now.right s.0.tag.now s.1.content.now) }
{
    let Some(left) = scalar_of(forests, difference.left) else {
        return None;
    };
    let Some(right) = scalar_of(forests, difference.right) else {
        return None;
    };
    if left.tag == right.tag {
        Some((left, right))
    } else {
        None
    }
}

// ---- parts

/// Where two contents first differ.
fn first_difference(left: &[u8], right: &[u8]) -> usize {
    for (at, byte) in left.iter().enumerate() {
        if right.get(at) != Some(byte) {
            return at;
        }
    }
    left.len()
}

/// What stands before a part of a content from a byte on, for what is left out.
fn dots_before(start: usize) -> &'static str
    ensures { result.now ≡ cond (start == 0) [] (codes "...") }
{
    if start == 0 { "" } else { MORE }
}

/// What stands behind a part of which there is room for so many bytes.
fn dots_behind(rest: &str, room: usize) -> &'static str
    ensures { result.now ≡ cond (nat_le (length rest.now) room) [] (codes "...") }
{
    if rest.len() <= room { "" } else { MORE }
}

/// Writes a part of a content, from a byte on.
fn put_part(out: &mut String, start: usize, rest: &str, room: usize) -> Result<(), AllocError>
    ensures ok { OnOk result (string_bytes out.new ≡ string_bytes out.old ++ (cond (start == 0) [] (codes "...") ++ (quoted_bytes (front room rest.now) ++ cond (nat_le (length rest.now) room) [] (codes "...")))) }
{
    out.push_str(dots_before(start))?;
    put_spelled(out, front(rest, room))?;
    out.push_str(dots_behind(rest, room))?;
    Ok(())
}

/// The text of a part of a content, from a byte on.
fn part_of(alloc: Global, start: usize, rest: &str, room: usize) -> Result<String, AllocError>
    ensures ok { IfOk result (λ s. string_bytes s ≡ cond (start == 0) [] (codes "...") ++ (quoted_bytes (front room rest.now) ++ cond (nat_le (length rest.now) room) [] (codes "..."))) }
{
    let mut out = String::new(alloc);
    put_part(&mut out, start, rest, room)?;
    Ok(out)
}

/// Two contents from a byte on, before which they are the same.
#[derive(Clone, Copy)]
struct Rests<'b> {
    start: usize,
    left: &'b str,
    right: &'b str,
}

/// Two contents from a byte on, if a character starts there in both, and they are the same before it.
fn rests_from<'b>(left: &'b str, right: &'b str, start: usize) -> Option<Rests<'b>>
    ensures { IfSome result (λ r. (r.left.now ≡ drop r.start left.now) × (r.right.now ≡ drop r.start right.now) × (take r.start left.now ≡ take r.start right.now)) }
{
    let Some((left_front, left)) = left.split_at_checked(start) else {
        return None;
    };
    let Some((right_front, right)) = right.split_at_checked(start) else {
        return None;
    };
    if left_front == right_front {
        Some(Rests { start, left, right })
    } else {
        None
    }
}

/// Two contents from some bytes before their first difference on.
fn rests_of<'b>(left: &'b str, right: &'b str) -> Option<Rests<'b>>
    ensures { IfSome result (λ r. (r.left.now ≡ drop r.start left.now) × (r.right.now ≡ drop r.start right.now) × (take r.start left.now ≡ take r.start right.now)) }
{
    let first = first_difference(left.as_bytes(), right.as_bytes());
    rests_from(
        left,
        right,
        left.floor_char_boundary(first.saturating_sub(LEAD)),
    )
}

/// The texts of the parts where two scalars of one tag differ, if the nodes of a difference are such.
#[tactic(auto, using(crate::proofs::StringLaws::parts_told))]
pub(crate) fn differing_parts(
    alloc: Global,
    forests: &RankedForests<'_>,
    difference: &Difference,
    room: usize,
    budget: &mut Budget,
) -> Result<Option<(String, String)>, AllocError>
    ensures ok { IfOk result (λ told. IfSome told (λ texts. ShowsParts forests.now room difference.now (Some texts.0) (Some texts.1))) }
{
    let Some((left, right)) = scalars_of(forests, difference) else {
        return Ok(None);
    };
    if !budget.take(left.content, right.content) {
        return Ok(None);
    }
    let Some(rests) = rests_of(left.content, right.content) else {
        return Ok(None);
    };
    let one = part_of(alloc, rests.start, rests.left, room)?;
    let other = part_of(alloc, rests.start, rests.right, room)?;
    Ok(Some((one, other)))
}

// ---- changed lines

/// How many lines an edit script removes and adds, and changes: what is removed where as much is added.
#[derive(Clone, Copy)]
struct Counts {
    lines: usize,
    changed: usize,
    removed: usize,
    added: usize,
}

/// Lines one behind another that are changed.
#[derive(Clone, Copy)]
struct Group {
    /// The number of its first line on the left side, from 1.
    line: usize,
    removed: usize,
    added: usize,
}

impl Counts {
    fn take(&mut self, group: Group) {
        let changed = group.removed.min(group.added);
        self.changed = self.changed.saturating_add(changed);
        self.removed = self.removed.saturating_add(group.removed - changed);
        self.added = self.added.saturating_add(group.added - changed);
    }
}

/// The groups of changed lines.
fn groups_of(alloc: Global, edits: &[Edit<'_>]) -> Result<(Vec<Group>, usize), AllocError> {
    let mut groups: Vec<Group> = Vec::new(alloc);
    let mut lines = 0usize;
    let mut is_open = false;
    for edit in edits {
        if !edit.is_change() {
            is_open = false;
        } else if !is_open {
            groups.push(Group {
                line: lines.saturating_add(1),
                removed: 0,
                added: 0,
            })?;
            is_open = true;
        }
        match edit {
            Edit::Kept(_) => lines = lines.saturating_add(1),
            Edit::Removed(_) => {
                lines = lines.saturating_add(1);
                if let Some(group) = groups.last_mut() {
                    group.removed = group.removed.saturating_add(1);
                }
            }
            Edit::Added(_) => {
                if let Some(group) = groups.last_mut() {
                    group.added = group.added.saturating_add(1);
                }
            }
        }
    }
    Ok((groups, lines))
}

/// Writes a number of lines and what becomes of them, if there are any.
fn put_count(out: &mut String, count: usize, words: &str) -> Result<(), AllocError> {
    if count > 0 {
        write!(out, ", {count} {words}")?;
    }
    Ok(())
}

/// How many lines the left content has, how many are changed, removed and added, and the left lines at which that is.
fn summary_of(alloc: Global, edits: &[Edit<'_>]) -> Result<String, AllocError> {
    let (groups, lines) = groups_of(alloc, edits)?;
    let mut counts = Counts {
        lines,
        changed: 0,
        removed: 0,
        added: 0,
    };
    for group in &groups {
        counts.take(*group);
    }
    let words = if lines == 1 { "line" } else { "lines" };
    let mut out = format!(in alloc; "{lines} {words}")?;
    put_count(&mut out, counts.changed, "changed")?;
    put_count(&mut out, counts.removed, "removed")?;
    put_count(&mut out, counts.added, "added")?;
    for (number, group) in groups.iter().enumerate() {
        if number == NAMED {
            out.push_str(", ...")?;
            break;
        }
        let line = group.line;
        let before = if number == 0 { ": " } else { ", " };
        write!(out, "{before}{line}")?;
    }
    Ok(out)
}

/// The changed lines of an edit script as they are printed.
fn lines_of(alloc: Global, edits: &[Edit<'_>], asked: &Diff<'_>) -> Result<String, AllocError>
    ensures ok { IfOk result (λ s. string_bytes s ≡ script_text asked.now.context asked.now.color edits.now) }
{
    let mut text = String::new(alloc);
    put_script(&mut text, edits, asked.context, asked.color)?;
    Ok(text)
}

/// The changed lines of two scalars of one tag, if the nodes of a difference are such and one of them has a line feed.
#[tactic(auto, using(crate::proofs::StringLaws::script_told))]
pub(crate) fn changed_lines(
    alloc: Global,
    forests: &RankedForests<'_>,
    difference: &Difference,
    asked: &Diff<'_>,
    budget: &mut Budget,
) -> Result<Option<Changes>, AllocError>
    ensures ok { IfOk result (ShowsChanges forests.now asked.now.context asked.now.color difference.now) }
{
    let Some((left, right)) = scalars_of(forests, difference) else {
        return Ok(None);
    };
    let has_lines = left.content.contains('\n') || right.content.contains('\n');
    if !has_lines || !budget.take(left.content, right.content) {
        return Ok(None);
    }
    let edits = script_of(alloc, left.content, right.content)?;
    let text = lines_of(alloc, &edits, asked)?;
    let summary = summary_of(alloc, &edits)?;
    Ok(Some(Changes { summary, text }))
}

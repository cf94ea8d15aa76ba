//! An edit script: what of two texts is kept, removed and added.
ghost use Rattle.std.specs.Prelude.{◌≡◌, ◌≤◌, ◌++◌, length, take, drop, IfOk, OnOk};
ghost use Rattle.std.specs.List.{flat_map};
ghost use Rattle.yaml_unified.specs.Script.{content, left_part, right_part, IsScript};

use crate::lines::{Piece, pieces_of};
use crate::matching::pairs_of;
use std::alloc::{AllocError, Global};

/// What becomes of a line.
#[derive(Clone, Copy)]
pub enum Edit<'t> {
    /// Both texts have it.
    Kept(Piece<'t>),
    /// The left one alone has it.
    Removed(Piece<'t>),
    /// The right one alone has it.
    Added(Piece<'t>),
}

impl Edit<'_> {
    ghost use Rattle.std.specs.Prelude.{◌≡◌};
    ghost use Rattle.yaml_unified.specs.Script.{is_change};

    /// Whether one of the texts alone has the line.
    pub fn is_change(&self) -> bool
        ensures { result ≡ is_change self.now }
    {
        !matches!(self, Edit::Kept(_))
    }
}

/// Removes lines of the left text.
fn remove<'t>(edits: &mut Vec<Edit<'t>>, lines: &[Piece<'t>]) -> Result<(), AllocError>
    ensures left { OnOk result (flat_map left_part edits.new.items ≡ flat_map left_part edits.old.items ++ flat_map content lines.now) }
    ensures right { OnOk result (flat_map right_part edits.new.items ≡ flat_map right_part edits.old.items) }
{
    for line in lines {
        edits.push(Edit::Removed(*line))?;
    }
    Ok(())
}

/// Adds lines of the right text.
fn add<'t>(edits: &mut Vec<Edit<'t>>, lines: &[Piece<'t>]) -> Result<(), AllocError>
    ensures left { OnOk result (flat_map left_part edits.new.items ≡ flat_map left_part edits.old.items) }
    ensures right { OnOk result (flat_map right_part edits.new.items ≡ flat_map right_part edits.old.items ++ flat_map content lines.now) }
{
    for line in lines {
        edits.push(Edit::Added(*line))?;
    }
    Ok(())
}

/// The lines of two texts that are not in a script yet.
#[derive(Clone, Copy)]
struct Rest<'s, 't> {
    left: &'s [Piece<'t>],
    right: &'s [Piece<'t>],
}

/// How many lines come before a place, of a rest that begins at another.
fn count_before(place: usize, start: usize, rest: &[Piece<'_>]) -> usize
    ensures { result ≤ length rest.now }
{
    place.saturating_sub(start).min(rest.len())
}

/// Puts the lines before two places that hold equal lines into a script, and then these.
fn put_before<'s, 't>(
    edits: &mut Vec<Edit<'t>>,
    rest: Rest<'s, 't>,
    left: usize,
    right: usize,
) -> Result<Rest<'s, 't>, AllocError>
    requires lefts { left ≤ length rest.left.now }
    requires rights { right ≤ length rest.right.now }
    ensures left { IfOk result (λ more. flat_map left_part edits.new.items ++ flat_map content more.left.now ≡ flat_map left_part edits.old.items ++ flat_map content rest.entry.left.now) }
    ensures right { IfOk result (λ more. flat_map right_part edits.new.items ++ flat_map content more.right.now ≡ flat_map right_part edits.old.items ++ flat_map content rest.entry.right.now) }
{
    let (removed, lefts) = rest.left.split_at(left);
    let (added, rights) = rest.right.split_at(right);
    remove(edits, removed)?;
    add(edits, added)?;
    keep(
        edits,
        Rest {
            left: lefts,
            right: rights,
        },
    )
}

/// Keeps the first line of both texts, if they are equal.
fn keep<'s, 't>(edits: &mut Vec<Edit<'t>>, rest: Rest<'s, 't>) -> Result<Rest<'s, 't>, AllocError>
    ensures left { IfOk result (λ more. flat_map left_part edits.new.items ++ flat_map content more.left.now ≡ flat_map left_part edits.old.items ++ flat_map content rest.entry.left.now) }
    ensures right { IfOk result (λ more. flat_map right_part edits.new.items ++ flat_map content more.right.now ≡ flat_map right_part edits.old.items ++ flat_map content rest.entry.right.now) }
{
    if let Some((left, lefts)) = rest.left.split_first()
        && let Some((right, rights)) = rest.right.split_first()
        && left.is_same(right)
    {
        edits.push(Edit::Kept(*left))?;
        return Ok(Rest {
            left: lefts,
            right: rights,
        });
    }
    Ok(rest)
}

/// A script from the lines of a text to those of another, which keeps those of rising pairs of places that are equal.
fn script_by<'t>(
    alloc: Global,
    left: &[Piece<'t>],
    right: &[Piece<'t>],
    pairs: &[(usize, usize)],
) -> Result<Vec<Edit<'t>>, AllocError>
    ensures ok { IfOk result (λ edits. IsScript (flat_map content left.now) (flat_map content right.now) edits.items) }
{
    let mut edits = Vec::new(alloc);
    let mut rest = Rest { left, right };
    for pair in pairs {
        let at = (
            left.len().saturating_sub(rest.left.len()),
            right.len().saturating_sub(rest.right.len()),
        );
        let removed = count_before(pair.0, at.0, rest.left);
        let added = count_before(pair.1, at.1, rest.right);
        rest = put_before(&mut edits, rest, removed, added)?;
    }
    remove(&mut edits, rest.left)?;
    add(&mut edits, rest.right)?;
    Ok(edits)
}

/// A script from a text to another, in n log n steps.
pub fn script_of<'t>(
    alloc: Global,
    left: &'t str,
    right: &'t str,
) -> Result<Vec<Edit<'t>>, AllocError>
    ensures ok { IfOk result (λ edits. IsScript left.now right.now edits.items) }
{
    let lefts = pieces_of(alloc, left)?;
    let rights = pieces_of(alloc, right)?;
    let pairs = pairs_of(alloc, &lefts, &rights)?;
    script_by(alloc, &lefts, &rights, &pairs)
}

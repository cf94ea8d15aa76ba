//! The hunks of an edit script.
ghost use Rattle.std.specs.Prelude.{◌≡◌, ◌<◌, ◌≤◌, ◌+◌, ◌^◌, length, string_bytes, OnOk, IfOk};
ghost use Rattle.yaml_unified.specs.Unified.{IsFirstChange, PutsHunk, PutsHunks};

use crate::Edit;
use crate::hunk::{lefts, put_hunk, rights};
use crate::places::{first_change, hunk_len};
use std::alloc::AllocError;

/// The edits that are not written yet, and the lines of both texts at which they begin.
#[derive(Clone, Copy)]
struct Rest<'s, 't> {
    edits: &'s [Edit<'t>],
    left: usize,
    right: usize,
}

/// Writes the hunk of the first change, and gives what is behind it.
fn put_next<'s, 't>(
    out: &mut String,
    rest: Rest<'s, 't>,
    change: usize,
    context: usize,
) -> Result<Rest<'s, 't>, AllocError>
    requires change { IsFirstChange rest.edits.now change }
    requires few { context < 65536 }
    requires lefts { rest.left + length rest.edits.now < 2 ^ 64 }
    requires rights { rest.right + length rest.edits.now < 2 ^ 64 }
    ensures lefts { IfOk result (λ next. next.left + length next.edits.now ≤ rest.entry.left + length rest.entry.edits.now) }
    ensures rights { IfOk result (λ next. next.right + length next.edits.now ≤ rest.entry.right + length rest.entry.edits.now) }
    ensures hunk { IfOk result (λ next. PutsHunk context rest.entry.edits.now rest.entry.left rest.entry.right next.edits.now next.left next.right (string_bytes out.old) (string_bytes out.new)) }
{
    let (skipped, more) = rest.edits.split_at(change.saturating_sub(context));
    let (shown, after) = more.split_at(hunk_len(more, change - skipped.len(), context));
    let left = rest.left + skipped.len();
    let right = rest.right + skipped.len();
    put_hunk(out, left, right, shown)?;
    Ok(Rest {
        edits: after,
        left: left + lefts(shown),
        right: right + rights(shown),
    })
}

/// Writes the changes of a script as hunks of a unified diff, each with so many kept lines before and behind its changes.
pub fn put_unified(out: &mut String, edits: &[Edit<'_>], context: usize) -> Result<(), AllocError>
    requires few { context < 65536 }
    ensures hunks { OnOk result (PutsHunks context edits.now (string_bytes out.old) (string_bytes out.new)) }
{
    let mut rest = Rest {
        edits,
        left: 1,
        right: 1,
    };
    'hunks: while let Some(change) = first_change(rest.edits) {
        rest = put_next(out, rest, change, context)?;
    }
    Ok(())
}

//! Where hunks begin and end.
ghost use Rattle.std.specs.Prelude.{◌≡◌, ◌<◌, ◌≤◌, length, take, drop, false, None, IfSome};
ghost use Rattle.std.specs.List.{list_any};
ghost use Rattle.yaml_unified.specs.Script.{is_change};
ghost use Rattle.yaml_unified.specs.Unified.{IsFirstChange, EndsHunk};

use crate::Edit;

/// The place of the first change; none if there is no change.
pub fn first_change(edits: &[Edit<'_>]) -> Option<usize>
    ensures some { IfSome result (IsFirstChange edits.now) }
    ensures none { result ≡ None → list_any is_change edits.now ≡ false }
{
    for (place, edit) in edits.iter().enumerate() {
        if edit.is_change() {
            return Some(place);
        }
    }
    None
}

/// So many edits from a place on, or all that there are.
fn window<'s, 't>(edits: &'s [Edit<'t>], from: usize, len: usize) -> &'s [Edit<'t>]
    requires { from ≤ length edits.now }
    ensures { result.now ≡ take len (drop from edits.now) }
{
    let behind = &edits[from..];
    &behind[..len.min(behind.len())]
}

/// How many edits are a hunk that begins with kept lines before its first change: up to the first change behind which there are more
/// than twice so many kept lines, and so many of these.
pub fn hunk_len(edits: &[Edit<'_>], first: usize, context: usize) -> usize
    requires few { context < 65536 }
    requires first { IsFirstChange edits.now first }
    requires front { first ≤ context }
    ensures within { result ≤ length edits.now }
    ensures some { first < result }
    ensures ends { EndsHunk context (take result edits.now) (drop result edits.now) }
{
    let mut end = first;
    'changes: while let Some(next) = first_change(window(edits, end + 1, 2 * context + 1)) {
        end += next + 1;
    }
    edits
        .len()
        .min(end.saturating_add(context).saturating_add(1))
}

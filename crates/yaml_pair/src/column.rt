//! Whether columns of places take each place once: so a pairing may come from anywhere, and is only looked at.
ghost use Rattle.std.specs.Prelude.{◌≡◌, ◌↔◌, true, false, IfOk};
ghost use Rattle.yaml_pair.specs.Columns.{EachOf, Rising, Falls, Behind};

use std::alloc::{AllocError, Global};

/// Whether each place below the bound stands once in the column, and no other does.
pub fn is_each(alloc: Global, column: &[Option<usize>], n: usize) -> Result<bool, AllocError>
    ensures ok { IfOk result (λ yes. yes ≡ true → EachOf column.now n) }
{
    let mut seen = Vec::new(alloc);
    for _ in 0..n {
        seen.push(None)?;
    }
    for (index, place) in column.iter().enumerate() {
        if let Some(at) = place {
            if *at >= n || *at >= seen.len() {
                return Ok(false);
            }
            if seen[*at].is_some() {
                return Ok(false);
            }
            seen[*at] = Some(index);
        }
    }
    for place in &seen {
        if place.is_none() {
            return Ok(false);
        }
    }
    Ok(seen.len() == n)
}

/// Whether a place stands behind the last one, if there is one.
fn is_behind(last: Option<usize>, at: usize) -> bool
    ensures { (result ≡ true) ↔ Behind last at }
{
    match last {
        Some(before) => before < at,
        None => true,
    }
}

/// Whether the places of the column rise.
pub fn rises(column: &[Option<usize>]) -> bool
    ensures yes { result ≡ true → Rising column.now }
    ensures no { result ≡ false → Falls column.now }
{
    let mut last = None;
    for (index, place) in column.iter().enumerate() {
        if let Some(at) = place {
            if !is_behind(last, *at) {
                return false;
            }
            last = Some(*at);
        }
    }
    true
}

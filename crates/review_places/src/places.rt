//! Lines and columns of many offsets, in one pass over a text.
ghost use Rattle.std.specs.Prelude.{◌≡◌, ◌≤◌, drop, map, length, IfOk};
ghost use Rattle.std.specs.List.{All};
ghost use Rattle.std.specs.List.Sorted.{IsPermutation, IsNonDecreasingBy};
ghost use Rattle.yaml_definitions.specs.model.Text.{mark_len};
ghost use Rattle.yaml_path.specs.LineModel.{IsPlace};
ghost use Rattle.review_places.specs.Told.{IsTold};

use std::alloc::{AllocError, Global};
use yaml_path::{Place, place_after, place_at};

/// The bytes of the byte order mark (YAML 1.2.2, 5.2), which has no column.
const MARK: [u8; 3] = [0xEF, 0xBB, 0xBF];

/// The length of the byte order mark that they may begin with, in bytes.
pub fn mark_len(bytes: &[u8]) -> usize
    ensures { result ≡ mark_len bytes.now }
{
    if bytes.starts_with(&MARK) {
        MARK.len()
    } else {
        0
    }
}

/// The bytes behind the byte order mark that they may begin with.
pub fn unmarked(bytes: &[u8]) -> &[u8]
    ensures { result.now ≡ drop (mark_len bytes.now) bytes.now }
{
    bytes.get(mark_len(bytes)..).unwrap_or(&[])
}

/// The place of an offset, from that of another one. It costs more where it lies before that.
fn go_on(text: &[u8], from: usize, place: Place, to: usize) -> Place
    requires at { IsPlace text.now from place.line place.column }
    requires within { to ≤ length text.now }
    ensures { IsPlace text.now to result.line result.column }
{
    if from <= to {
        place_after(text, from, place, to)
    } else {
        place_at(text, to)
    }
}

/// The places of these offsets, each of which has a number, in the order of the numbers. One pass over the text. What lies behind
/// the text's end is told as the end.
///
/// # Errors
/// `OutOfMemory`
pub fn places(
    alloc: Global,
    text: &[u8],
    mut offsets: Vec<(usize, usize)>,
) -> Result<Vec<(usize, Place)>, AllocError>
    ensures ok { IfOk result (λ list. All (IsTold text.now offsets.items) list.items) }
    ensures numbers { IfOk result (λ list. IsPermutation (map (λ given. given.1) offsets.items) (map (λ told. told.0) list.items)) }
    ensures rising { IfOk result (λ list. IsNonDecreasingBy (λ told. told.0) list.items) }
{
    offsets.sort_unstable();
    let mut list = Vec::with_capacity(alloc, offsets.len())?;
    let mut at = 0;
    let mut place = Place { line: 1, column: 1 };
    'offsets: for (offset, number) in &offsets {
        let to = (*offset).min(text.len());
        place = go_on(text, at, place, to);
        at = to;
        list.push((*number, place))?;
    }
    list.sort_unstable_by_key(|entry| entry.0);
    Ok(list)
}

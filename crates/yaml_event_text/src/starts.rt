//! The offsets at which lines begin.
ghost use Rattle.std.specs.Prelude.{◌≡◌, ◌+◌, length, map, take, drop, ◌++◌, IfOk, OnOk};

use std::alloc::AllocError;

/// An offset, moved on by so many bytes.
pub fn moved(at: usize, by: usize) -> Result<usize, AllocError>
    ensures ok { IfOk result (λ to. to ≡ at + by) }
{
    match at.checked_add(by) {
        Some(to) => Ok(to),
        None => Err(AllocError),
    }
}

/// Moves lines on by so many bytes.
pub fn move_on(starts: &mut [usize], by: usize) -> Result<(), AllocError>
    ensures ok { OnOk result (starts.new ≡ map (λ at. at + by) starts.old) }
    ensures count { length starts.new ≡ length starts.old }
{
    for start in starts.iter_mut() {
        *start = moved(*start, by)?;
    }
    Ok(())
}

/// Moves the lines from this one on by so many bytes.
pub fn move_from(starts: &mut Vec<usize>, from: usize, by: usize) -> Result<(), AllocError>
    ensures ok { OnOk result (starts.new.items ≡ take from starts.old.items ++ map (λ at. at + by) (drop from starts.old.items)) }
    ensures count { length starts.new.items ≡ length starts.old.items }
{
    if from >= starts.len() {
        return Ok(());
    }
    move_on(&mut starts[from..], by)
}

/// Moves the lines behind this one on by so many bytes.
pub fn move_behind(starts: &mut Vec<usize>, line: usize, by: usize) -> Result<(), AllocError>
    ensures ok { OnOk result (starts.new.items ≡ take (line + 1) starts.old.items ++ map (λ at. at + by) (drop (line + 1) starts.old.items)) }
    ensures count { length starts.new.items ≡ length starts.old.items }
{
    move_from(starts, moved(line, 1)?, by)
}

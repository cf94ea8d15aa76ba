//! What a list leaves out.
ghost use Rattle.std.specs.Prelude.{◌≡◌, ◌++◌, string_bytes, OnOk};
ghost use Rattle.review_formats.specs.LeftOut.{counted_text, differences_text, front_text, numbers_text};

use std::alloc::AllocError;

/// How many differences and moves no line of a list tells.
#[derive(Clone, Copy, Debug, PartialEq, Eq)]
pub struct LeftOut {
    pub differences: usize,
    pub moves: usize,
    /// Whether all were looked for. If not, there may be more.
    pub whole: bool,
}

/// Writes a number and the noun for it.
fn put_counted(out: &mut String, number: usize, one: &str, many: &str) -> Result<(), AllocError>
    ensures ok { OnOk result (string_bytes out.new ≡ string_bytes out.old ++ counted_text number one.now many.now) }
{
    write!(out, "{number}")?;
    out.push_str(if number == 1 { one } else { many })?;
    Ok(())
}

fn put_differences(out: &mut String, differences: usize) -> Result<(), AllocError>
    ensures ok { OnOk result (string_bytes out.new ≡ string_bytes out.old ++ differences_text differences) }
{
    put_counted(out, differences, " difference", " differences")
}

/// Writes a number of differences before that of moves, if it is not 0.
fn put_front(out: &mut String, differences: usize) -> Result<(), AllocError>
    ensures ok { OnOk result (string_bytes out.new ≡ string_bytes out.old ++ front_text differences) }
{
    if differences == 0 {
        return Ok(());
    }
    put_differences(out, differences)?;
    out.push_str(", ")?;
    Ok(())
}

/// Writes both numbers, without those that are 0.
fn put_numbers(out: &mut String, differences: usize, moves: usize) -> Result<(), AllocError>
    ensures ok { OnOk result (string_bytes out.new ≡ string_bytes out.old ++ numbers_text differences moves) }
{
    if moves == 0 {
        return put_differences(out, differences);
    }
    put_front(out, differences)?;
    put_counted(out, moves, " move", " moves")
}

impl LeftOut {
    ghost use Rattle.std.specs.Prelude.{◌≡◌, ◌++◌, string_bytes, OnOk};
    ghost use Rattle.review_formats.specs.LeftOut.{no_left_out, is_none, left_out_text, between_text};

    /// Of a list that has all.
    pub fn none() -> LeftOut
        ensures { result ≡ no_left_out }
    {
        LeftOut {
            differences: 0,
            moves: 0,
            whole: true,
        }
    }

    /// Whether the list has all.
    pub fn is_none(self) -> bool
        ensures { result ≡ is_none self }
    {
        self.whole && self.differences == 0 && self.moves == 0
    }

    /// Writes what is left out, as `12 differences, 1 move`.
    pub fn put(self, out: &mut String) -> Result<(), AllocError>
        ensures ok { OnOk result (string_bytes out.new ≡ string_bytes out.old ++ left_out_text self) }
    {
        if self.differences == 0 && self.moves == 0 {
            out.push_str("any differences or moves beyond the search limit")?;
            return Ok(());
        }
        if !self.whole {
            out.push_str("at least ")?;
        }
        put_numbers(out, self.differences, self.moves)
    }

    /// Writes what is left out between two texts, if something is.
    #[tactic(auto, using(crate::proofs::PieceLaws::three_put))]
    pub fn put_between(self, out: &mut String, front: &str, end: &str) -> Result<(), AllocError>
        ensures ok { OnOk result (string_bytes out.new ≡ string_bytes out.old ++ between_text front.now end.now self) }
    {
        if self.is_none() {
            return Ok(());
        }
        out.push_str(front)?;
        self.put(out)?;
        out.push_str(end)?;
        Ok(())
    }
}

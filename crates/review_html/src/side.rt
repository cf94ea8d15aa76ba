//! One of two files of a page, and what its lines are called by.
ghost use Rattle.std.specs.Prelude.{◌≡◌, ◌++◌, string_bytes, cond, codes, OnOk};
ghost use Rattle.std.specs.Fmt.{decimal};
ghost use Rattle.review_html.specs.Sides.{part_front, line_id, title_text};

use review_formats::piece::{Piece, put_pieces};
use std::alloc::AllocError;

/// The left or the right file of a part of a page.
#[derive(Clone, Copy)]
pub(crate) struct Side {
    pub(crate) is_left: bool,
    /// The number of the part, or 0 where there is one alone.
    pub(crate) part: usize,
}

/// Writes the number of a part, if there are several.
fn put_part(out: &mut String, part: usize) -> Result<(), AllocError>
    ensures ok { OnOk result (string_bytes out.new ≡ string_bytes out.old ++ part_front part) }
{
    if part > 0 {
        put_pieces(out, &[Piece::Number(part), Piece::Raw("-")])
    } else {
        Ok(())
    }
}

impl Side {
    ghost use Rattle.std.specs.Prelude.{◌≡◌, ◌++◌, string_bytes, OnOk};
    ghost use Rattle.review_html.specs.Sides.{line_id, title_text};

    /// What the side is called.
    pub(crate) fn title(self) -> &'static str
        ensures { result.now ≡ title_text self }
    {
        if self.is_left { "left" } else { "right" }
    }

    /// Writes the id of a line.
    #[tactic(auto, using(review_formats::proofs::PieceLaws::three_put))]
    pub(crate) fn put_line_id(self, out: &mut String, line: usize) -> Result<(), AllocError>
        ensures ok { OnOk result (string_bytes out.new ≡ string_bytes out.old ++ line_id self line) }
    {
        out.push_str(if self.is_left { "l" } else { "r" })?;
        put_part(out, self.part)?;
        put_pieces(out, &[Piece::Number(line)])
    }
}

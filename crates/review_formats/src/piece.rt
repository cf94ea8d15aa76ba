//! Pieces of which a page is made.
ghost use Rattle.std.specs.Prelude.{◌≡◌, ◌++◌, string_bytes, OnOk};
ghost use Rattle.review_formats.specs.Pieces.{piece_text, pieces_text};

use crate::escape::{Escape, put_escaped};
use std::alloc::AllocError;

/// A piece of a page. What comes from a file is a `Text`: the other pieces have nothing of one.
#[derive(Clone, Copy)]
pub enum Piece<'p> {
    /// Text of this program, as it is.
    Raw(&'static str),
    Number(usize),
    /// Text of a file, escaped.
    Text(Escape, &'p str),
}

/// Writes a piece.
fn put_piece(out: &mut String, piece: Piece<'_>) -> Result<(), AllocError>
    ensures ok { OnOk result (string_bytes out.new ≡ string_bytes out.old ++ piece_text piece.entry) }
{
    match piece {
        Piece::Raw(text) => {
            out.push_str(text)?;
            Ok(())
        }
        Piece::Number(number) => {
            write!(out, "{number}")?;
            Ok(())
        }
        Piece::Text(escape, text) => put_escaped(out, text, escape),
    }
}

/// Writes pieces, one behind the other.
pub fn put_pieces(out: &mut String, pieces: &[Piece<'_>]) -> Result<(), AllocError>
    ensures ok { OnOk result (string_bytes out.new ≡ string_bytes out.old ++ pieces_text pieces.now) }
{
    for piece in pieces {
        put_piece(out, *piece)?;
    }
    Ok(())
}

//! Block scalars (YAML 1.2.2, 8.1).
ghost use Rattle.std.specs.Prelude.{◌≡◌, ◌<◌, IfOk, IsUtf8, IfErr};
ghost use Rattle.std.specs.Str.{chars};
ghost use Rattle.std.specs.Cow.{cow_str_bytes};
ghost use Rattle.yaml_text.specs.Placed.{IsPlaced};
ghost use Rattle.yaml_text.specs.Source.{text_of, place_of, IsBorder};
ghost use Rattle.yaml_definitions.specs.grammar.BlockScalars.{c-l+literal as literal, c-l+folded as folded};
ghost use Rattle.yaml_text.specs.LeafAnswer.{Answers};
ghost use Rattle.yaml_text.specs.LeafAnswer.{FurthestAlone};
ghost use Rattle.yaml_scalar.specs.BlockModel.{column, sign_of, styled};

use crate::block::blanks::trailing_comments;
use crate::block::content::read_content;
use crate::block::header::read_header;
use std::alloc::Global;
use std::borrow::CowStr;
use yaml_text::chars::Chars;
use yaml_text::context::Ctx;
use yaml_text::fault::Fault;
use yaml_text::lines::unusable;
use yaml_text::places::accept;

mod blanks;
mod content;
mod header;
mod lines;

/// The column after a parent's indentation, 0 below a root.
fn column(n: i32) -> usize
    ensures { result ≡ column n }
{
    if n < 0 { 0 } else { n as usize + 1 }
}

/// What a scalar of either style begins with.
fn sign_of(is_folded: bool) -> char
    ensures { result ≡ sign_of is_folded }
{
    if is_folded { '>' } else { '|' }
}

/// A block scalar of either style: its content, and the border after it and its comment lines.
fn read_block<'a>(
    alloc: Global,
    source: &Chars<'a>,
    at: usize,
    n: i32,
    is_folded: bool,
) -> Result<(CowStr<'a>, usize), Fault>
    requires { IsBorder source.now at }
    ensures border { IfOk result (λ r. IsBorder source.now r.1) }
    ensures onward { IfOk result (λ r. at < r.1) }
    ensures utf8 { IfOk result (λ r. IsUtf8 (cow_str_bytes r.0)) }
    ensures reads { Answers FurthestAlone (styled (text_of source.now) is_folded (column n)) (place_of source.now at)
        (λ r. place_of source.now r.1) (λ r. chars (cow_str_bytes r.0)) result }
    ensures placed { IfErr result (IsPlaced source.now) }
{
    let Some(start) = accept(source, at, sign_of(is_folded)) else {
        return Err(unusable(source, at));
    };
    let (header, first) = read_header(source, start, n < 0)?;
    let (mut text, end, indent) = read_content(alloc, source, first, column(n), header, is_folded)?;
    text.shrink_to_fit();
    Ok((CowStr::Owned(text), trailing_comments(source, end, indent)))
}

/// A literal scalar (8.1.2): its content, and the border after it and its comment lines, the furthest that there is.
///
/// Offsets count bytes of the text. `n` is the indentation of the scalar's parent, and below 0 for a root. The context is
/// ignored. Where no literal scalar begins at `at` the answer is `Tab` if a tab bars it, else `Syntax`, and `OutOfMemory`
/// where the content finds no room.
pub fn read_literal<'a>(
    alloc: Global,
    source: &Chars<'a>,
    at: usize,
    n: i32,
    _context: Ctx,
) -> Result<(CowStr<'a>, usize), Fault>
    requires { IsBorder source.now at }
    ensures border { IfOk result (λ r. IsBorder source.now r.1) }
    ensures onward { IfOk result (λ r. at < r.1) }
    ensures utf8 { IfOk result (λ r. IsUtf8 (cow_str_bytes r.0)) }
    ensures reads { Answers FurthestAlone (literal (text_of source.now) (column n)) (place_of source.now at)
        (λ r. place_of source.now r.1) (λ r. chars (cow_str_bytes r.0)) result }
    ensures placed { IfErr result (IsPlaced source.now) }
{
    read_block(alloc, source, at, n, false)
}

/// A folded scalar (8.1.3): its content, and the border after it and its comment lines, the furthest that there is.
///
/// Offsets count bytes of the text. `n` is the indentation of the scalar's parent, and below 0 for a root. The context is
/// ignored. Where no folded scalar begins at `at` the answer is `Tab` if a tab bars it, else `Syntax`, and `OutOfMemory`
/// where the content finds no room.
pub fn read_folded<'a>(
    alloc: Global,
    source: &Chars<'a>,
    at: usize,
    n: i32,
    _context: Ctx,
) -> Result<(CowStr<'a>, usize), Fault>
    requires { IsBorder source.now at }
    ensures border { IfOk result (λ r. IsBorder source.now r.1) }
    ensures onward { IfOk result (λ r. at < r.1) }
    ensures utf8 { IfOk result (λ r. IsUtf8 (cow_str_bytes r.0)) }
    ensures reads { Answers FurthestAlone (folded (text_of source.now) (column n)) (place_of source.now at)
        (λ r. place_of source.now r.1) (λ r. chars (cow_str_bytes r.0)) result }
    ensures placed { IfErr result (IsPlaced source.now) }
{
    read_block(alloc, source, at, n, true)
}

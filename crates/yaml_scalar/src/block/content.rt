//! The content of a block scalar: its lines, put together.
ghost use Rattle.std.specs.Prelude.{◌≡◌, ◌≤◌, ◌++◌, IfOk, IfErr, IfSome};
ghost use Rattle.std.specs.Str.{chars};
ghost use Rattle.std.specs.String.{string_bytes};
ghost use Rattle.yaml_text.specs.Placed.{IsPlaced};
ghost use Rattle.yaml_text.specs.Source.{text_of, place_of, IsBorder};
ghost use Rattle.std.specs.Bool.{OnTrue, OnFalse};
ghost use Rattle.yaml_definitions.specs.grammar.Rules.{Stands};
ghost use Rattle.yaml_definitions.specs.grammar.Characters.{is_white};
ghost use Rattle.yaml_text.specs.LeafAnswer.{Unread};
ghost use Rattle.yaml_definitions.specs.grammar.BlockScalars.{indentation};
ghost use Rattle.yaml_text.specs.LeafAnswer.{ScalarFaultMeans};
ghost use Rattle.yaml_scalar.specs.BlockRules.{block_lines};
ghost use Rattle.yaml_text.specs.Lines.{AfterLine};
ghost use Rattle.yaml_scalar.specs.BlockModel.{header_of, glue, last_breaks, shape, are_folded, breaks_of};

use crate::block::header::{Chomp, Header};
use crate::block::lines::{Line, read_line, read_start};
use crate::text::{push_between, push_fold, push_lines};
use std::alloc::{AllocError, Global};
use yaml_text::chars::Chars;
use yaml_text::class::is_white;
use yaml_text::fault::Fault;
use yaml_text::lines::unusable;
use yaml_text::places::next;

/// The last line of content so far: none, one that begins with a white, or another.
#[derive(Clone, Copy)]
enum Before {
    Nothing,
    Spaced,
    Plain,
}

/// Whether a white stands at a border.
fn is_spaced(source: &Chars<'_>, at: usize) -> bool
    requires { IsBorder source.now at }
    ensures yes { OnTrue result (Stands (text_of source.now) is_white (place_of source.now at)) }
    ensures no { OnFalse result (Stands (text_of source.now) is_white (place_of source.now at) → ⊥) }
{
    match next(source, at) {
        None => false,
        Some((c, _)) => is_white(c),
    }
}

/// The kind of a line, by whether it begins with a white.
fn shape(is_spaced: bool) -> Before
    ensures { result ≡ shape is_spaced }
{
    if is_spaced {
        Before::Spaced
    } else {
        Before::Plain
    }
}

/// Whether a line is folded with the one before it.
fn are_folded(is_folded: bool, before: Before, is_spaced: bool) -> bool
    ensures { result ≡ are_folded is_folded before is_spaced }
{
    match before {
        Before::Plain => is_folded && !is_spaced,
        _ => false,
    }
}

/// The number of breaks that end a line.
fn breaks_of(is_ended: bool) -> usize
    ensures { result ≡ breaks_of is_ended }
{
    if is_ended { 1 } else { 0 }
}

/// Puts the breaks before a line of content at the end of a text. Between two lines that are folded one break is a space,
/// and more are one fewer.
fn push_breaks(text: &mut String, are_folded: bool, breaks: usize) -> Result<(), AllocError>
    ensures { IfOk result (λ _. chars (string_bytes text.new) ≡ chars (string_bytes text.old) ++ glue are_folded breaks) }
{
    if are_folded && breaks > 0 {
        push_fold(text, breaks - 1)
    } else {
        push_lines(text, breaks)
    }
}

/// How many of the last breaks stay.
fn last_breaks(chomp: Chomp, before: Before, breaks: usize) -> usize
    ensures { result ≡ last_breaks chomp before breaks }
{
    match chomp {
        Chomp::Strip => 0,
        Chomp::Clip => match before {
            Before::Nothing => 0,
            _ => breaks.min(1),
        },
        Chomp::Keep => breaks,
    }
}

/// The lines that begin at a border, as their text, with the border after them and their indentation.
pub fn read_content(
    alloc: Global,
    source: &Chars<'_>,
    at: usize,
    col: usize,
    header: Header,
    is_folded: bool,
) -> Result<(String, usize, usize), Fault>
    requires border { IsBorder source.now at }
    requires after { AfterLine (text_of source.now) (place_of source.now at) }
    requires digit_at { IsBorder source.now header.digit_at }
    requires small { IfSome header.digit (λ d. d ≤ 9) }
    requires column { col ≤ 2147483648 }
    ensures border { IfOk result (λ r. IsBorder source.now r.1) }
    ensures onward { IfOk result (λ r. at ≤ r.1) }
    ensures indentation { IfOk result (λ r. indentation (text_of source.now) col header.digit (place_of source.now at) (place_of source.now at) r.2) }
    ensures lines { IfOk result (λ r. block_lines (text_of source.now) is_folded (header_of header) r.2
        (place_of source.now at) (place_of source.now r.1) (chars (string_bytes r.0))) }
    ensures none { IfErr result (λ e. ScalarFaultMeans e (Unread (indentation (text_of source.now) col header.digit) (place_of source.now at))) }
    ensures placed { IfErr result (IsPlaced source.now) }
{
    let start = match read_start(source, at, col, header) {
        Ok(start) => start,
        Err(stop) => return Err(unusable(source, stop)),
    };
    let mut text = String::new(alloc);
    let mut before = Before::Nothing;
    let mut breaks = start.empty;
    let mut here = start.line;
    'lines: loop {
        match read_line(source, here, start.indent) {
            Line::Empty(next) => {
                breaks += 1;
                here = next;
            }
            Line::Text {
                from,
                to,
                next,
                is_ended,
            } => {
                let spaced = is_spaced(source, from);
                push_breaks(&mut text, are_folded(is_folded, before, spaced), breaks)?;
                push_between(&mut text, source, from, to)?;
                before = shape(spaced);
                breaks = breaks_of(is_ended);
                here = next;
            }
            Line::Over(end) => {
                push_lines(&mut text, last_breaks(header.chomp, before, breaks))?;
                return Ok((text, end, start.indent));
            }
        }
    }
}

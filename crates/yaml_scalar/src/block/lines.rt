//! The lines of a block scalar.
ghost use Rattle.std.specs.Prelude.{◌≤◌, ◌+◌, ◌-◌, ◌<◌, IfOk, IfErr, IfSome, None, replicate};
ghost use Rattle.yaml_text.specs.Source.{text_of, place_of, IsBorder};
ghost use Rattle.yaml_definitions.specs.grammar.Rules.{any};
ghost use Rattle.yaml_text.specs.LeafAnswer.{Unread};
ghost use Rattle.yaml_definitions.specs.grammar.BlockScalars.{indentation, blank_line, blank, is_given};
ghost use Rattle.yaml_scalar.specs.BlockRules.{NoSpaceLine, Ready};
ghost use Rattle.yaml_text.specs.Lines.{AfterLine};
ghost use Rattle.yaml_scalar.specs.BlockModel.{LineIs};

use crate::block::header::Header;
use crate::line::read_spaces;
use yaml_text::chars::Chars;
use yaml_text::lines::{line_break, rest_of_line, skip_spaces, stands_mark};
use yaml_text::places::next;

/// Where the lines begin: the content's indentation, the start of the first line that is not known to be empty, and how many
/// empty ones stand before it.
#[derive(Clone, Copy)]
pub struct Start {
    pub indent: usize,
    pub line: usize,
    pub empty: usize,
}

/// A line of a block scalar by its borders: an empty one, up to the next line; the text of one of content, the next line and
/// whether a break stands before that; or no further one, and the end of the scalar.
#[derive(Clone, Copy)]
pub enum Line {
    Empty(usize),
    Text {
        from: usize,
        to: usize,
        next: usize,
        is_ended: bool,
    },
    Over(usize),
}

/// The start where no digit gives the indentation; or the border after the spaces of the first nonempty line, which are fewer
/// than those of an earlier one.
fn find_start(source: &Chars<'_>, at: usize, col: usize) -> Result<Start, usize>
    requires border { IsBorder source.now at }
    requires after { AfterLine (text_of source.now) (place_of source.now at) }
    ensures border { IfOk result (λ s. IsBorder source.now s.line) }
    ensures onward { IfOk result (λ s. at + s.empty ≤ s.line) }
    ensures after { IfOk result (λ s. AfterLine (text_of source.now) (place_of source.now s.line)) }
    ensures indentation { IfOk result (λ s. indentation (text_of source.now) col None (place_of source.now at) (place_of source.now at) s.indent) }
    ensures empty { IfOk result (λ s. any (blank_line (text_of source.now) s.indent) (place_of source.now at) (place_of source.now s.line) (replicate s.empty blank)) }
    ensures ready { IfOk result (λ s. NoSpaceLine (text_of source.now) s.indent (place_of source.now s.line)) }
    ensures none { IfErr result (λ _. Unread (indentation (text_of source.now) col None) (place_of source.now at)) }
    ensures refused { IfErr result (λ stop. IsBorder source.now stop) }
{
    let mut line = at;
    let mut longest = col;
    let mut empty = 0;
    'lines: loop {
        let (width, stop) = skip_spaces(source, line);
        match line_break(source, stop) {
            Some(to) => {
                line = to;
                longest = longest.max(width);
                empty += 1;
            }
            None => match next(source, stop) {
                None => {
                    return Ok(Start {
                        indent: longest.max(width),
                        line,
                        empty,
                    });
                }
                Some(_) => {
                    if stands_mark(source, line) || width < col {
                        return Ok(Start {
                            indent: longest,
                            line,
                            empty,
                        });
                    }
                    if width < longest {
                        return Err(stop);
                    }
                    return Ok(Start {
                        indent: width,
                        line,
                        empty,
                    });
                }
            },
        }
    }
}

/// The start by a header; or the border of what refuses it.
pub fn read_start(source: &Chars<'_>, at: usize, col: usize, header: Header) -> Result<Start, usize>
    requires border { IsBorder source.now at }
    requires after { AfterLine (text_of source.now) (place_of source.now at) }
    requires digit_at { IsBorder source.now header.digit_at }
    requires small { IfSome header.digit (λ d. d ≤ 9) }
    requires column { col ≤ 2147483648 }
    ensures border { IfOk result (λ s. IsBorder source.now s.line) }
    ensures onward { IfOk result (λ s. at + s.empty ≤ s.line) }
    ensures after { IfOk result (λ s. AfterLine (text_of source.now) (place_of source.now s.line)) }
    ensures indentation { IfOk result (λ s. indentation (text_of source.now) col header.digit (place_of source.now at) (place_of source.now at) s.indent) }
    ensures empty { IfOk result (λ s. any (blank_line (text_of source.now) s.indent) (place_of source.now at) (place_of source.now s.line) (replicate s.empty blank)) }
    ensures ready { IfOk result (λ s. Ready (text_of source.now) (is_given header.digit) s.indent (place_of source.now s.line)) }
    ensures none { IfErr result (λ _. Unread (indentation (text_of source.now) col header.digit) (place_of source.now at)) }
    ensures refused { IfErr result (λ stop. IsBorder source.now stop) }
{
    match header.digit {
        None => find_start(source, at, col),
        Some(digit) => {
            if col == 0 {
                Err(header.digit_at)
            } else {
                Ok(Start {
                    indent: col - 1 + digit,
                    line: at,
                    empty: 0,
                })
            }
        }
    }
}

/// The line that begins at a border.
pub fn read_line(source: &Chars<'_>, at: usize, indent: usize) -> Line
    requires border { IsBorder source.now at }
    requires after { AfterLine (text_of source.now) (place_of source.now at) }
    ensures { LineIs source.now indent at result }
{
    if stands_mark(source, at) {
        return Line::Over(at);
    }
    let (count, from) = read_spaces(source, at, indent);
    match line_break(source, from) {
        Some(to) => Line::Empty(to),
        None => match next(source, from) {
            None => Line::Over(from),
            Some(_) => {
                if count < indent {
                    Line::Over(at)
                } else {
                    let (to, after) = rest_of_line(source, from);
                    Line::Text {
                        from,
                        to,
                        next: after,
                        is_ended: to < after,
                    }
                }
            }
        },
    }
}

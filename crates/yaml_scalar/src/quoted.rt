//! What single- and double-quoted scalars share.
ghost use Rattle.std.specs.Prelude.{◌≡◌, ◌≤◌, slice_range};
ghost use Rattle.yaml_text.specs.Source.{text_of, place_of, IsBorder};
ghost use Rattle.yaml_definitions.specs.grammar.Characters.{is_white};
ghost use Rattle.yaml_definitions.specs.grammar.Rules.{run, Stands, any};
ghost use Rattle.yaml_scalar.specs.Chains.{verbatim, quoted_more};

use crate::class::{is_verbatim, quoted_len};
use yaml_text::chars::Chars;
use yaml_text::class::is_white;
use yaml_text::places::next;

/// The border after the ASCII characters from a border on that stand for themselves between these quotes, which are not decoded.
#[inline(always)]
fn skip_quoted(source: &Chars<'_>, at: usize, quote: char) -> usize
    requires { IsBorder source.now at }
    ensures border { IsBorder source.now result }
    ensures onward { at ≤ result }
    ensures text { run (text_of source.now) (verbatim quote) (place_of source.now at) (place_of source.now result) }
{
    let len = quoted_len(source.rest(at).as_bytes());
    if quote == '"' {
        at + len
    } else if quote == '\'' {
        at + len
    } else {
        at
    }
}

/// How far a quoted text goes on its line with characters that stand for themselves: the end of the last that is no white,
/// and the end of the whites after it.
pub fn quoted_run(source: &Chars<'_>, from: usize, quote: char) -> (usize, usize)
    requires { IsBorder source.now from }
    ensures end { IsBorder source.now result.0 }
    ensures stop { IsBorder source.now result.1 }
    ensures onward { from ≤ result.0 }
    ensures further { result.0 ≤ result.1 }
    ensures line { any (quoted_more (text_of source.now) quote) (place_of source.now from) (place_of source.now result.0)
        (slice_range (text_of source.now) (place_of source.now from) (place_of source.now result.0)) }
    ensures whites { run (text_of source.now) is_white (place_of source.now result.0) (place_of source.now result.1) }
    ensures no_white { Stands (text_of source.now) is_white (place_of source.now result.1) → ⊥ }
    ensures no_text { Stands (text_of source.now) (verbatim quote) (place_of source.now result.1) → ⊥ }
{
    let mut end = skip_quoted(source, from, quote);
    let mut here = end;
    'line: loop {
        match next(source, here) {
            None => return (end, here),
            Some((c, to)) => {
                if is_white(c) {
                    here = to;
                } else if is_verbatim(quote, c) {
                    end = skip_quoted(source, to, quote);
                    here = end;
                } else {
                    return (end, here);
                }
            }
        }
    }
}

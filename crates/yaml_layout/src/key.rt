//! Implicit keys (YAML 1.2.2, 7.4.2 and 8.2.2).
ghost use Rattle.std.specs.Prelude.{◌≡◌, ◌≤◌, ◌<◌, ◌+◌, true, false};
ghost use Rattle.yaml_definitions.specs.grammar.Characters.{is_break};
ghost use Rattle.yaml_definitions.specs.grammar.Separation.{OneLine};
ghost use Rattle.yaml_text.specs.Source.{text_of, place_of, IsBorder};
ghost use Rattle.yaml_layout.specs.Keys.{FitIs};
ghost use Rattle.yaml_layout.specs.Lines.{IsStretch};

use yaml_text::chars::Chars;
use yaml_text::class::is_break;
use yaml_text::front::len_by_one;
use yaml_text::limits::key_limit;
use yaml_text::places::next;

/// Whether a text may be an implicit key: it is short enough and on one line, too long, or on several lines.
#[derive(Clone, Copy, PartialEq, Eq)]
pub enum Fit {
    Fits,
    Long,
    Broken,
}

/// Whether a byte is a printable ASCII character, which is no break. It is told by one comparison.
#[tactic(auto, unfolding(yaml_definitions::specs::grammar::Characters::is_break))]
fn is_line_byte(byte: u8) -> bool
    ensures ascii { result ≡ true → byte < 128 }
    ensures line { result ≡ true → is_break byte ≡ false }
{
    byte >= b' ' && byte <= b'~'
}

/// The border after the ASCII characters of a line that stand at a border, up to another border.
fn skip_run(source: &Chars<'_>, at: usize, to: usize) -> usize
    requires { IsStretch source.now at to }
    ensures border { IsBorder source.now result }
    ensures onward { at ≤ result }
    ensures within { result ≤ to }
    ensures counted { place_of source.now result + at ≡ place_of source.now at + result }
    ensures line { OneLine (text_of source.now) (place_of source.now at) (place_of source.now result) }
{
    let bytes = &source.rest(at).as_bytes()[..to - at];
    at + len_by_one(bytes, &is_line_byte)
}

/// Whether what stands between two borders may be an implicit key. It goes by runs of what is one byte each, and from one
/// character to the next elsewhere.
#[inline(never)]
pub fn key_fit(source: &Chars<'_>, from: usize, to: usize) -> Fit
    requires from { IsBorder source.now from }
    requires to { IsBorder source.now to }
    requires order { from ≤ to }
    ensures { FitIs (text_of source.now) (place_of source.now from) (place_of source.now to) result }
{
    let limit = key_limit();
    let mut here = from;
    let mut count: usize = 0;
    'chars: while here < to {
        let run = skip_run(source, here, to);
        if run > here {
            count += run - here;
            here = run;
            continue 'chars;
        }
        match next(source, here) {
            None => return Fit::Broken,
            Some((c, after)) => {
                if is_break(c) {
                    return Fit::Broken;
                }
                count += 1;
                here = after;
            }
        }
    }
    if count > limit { Fit::Long } else { Fit::Fits }
}

//! What most nodes and most rests of lines begin with, told by one byte.
ghost use Rattle.std.specs.Prelude.{◌≡◌, ◌<◌, true};
ghost use Rattle.std.specs.Bool.{OnTrue};
ghost use Rattle.std.specs.Char.{is_ascii_alphanumeric};
ghost use Rattle.std.specs.Int.{is_in_range};
ghost use Rattle.yaml_text.specs.Source.{text_of, place_of, IsBorder};
ghost use Rattle.yaml_definitions.specs.grammar.Rules.{Stands};

use yaml_text::chars::Chars;

/// Whether a byte is an ASCII letter or digit.
fn is_word_byte(byte: u8) -> bool
    ensures ascii { result ≡ true → byte < 128 }
    ensures word { result ≡ true → is_ascii_alphanumeric byte ≡ true }
{
    (byte >= b'a' && byte <= b'z')
        || (byte >= b'0' && byte <= b'9')
        || (byte >= b'A' && byte <= b'Z')
}

/// Whether an ASCII letter or digit stands at a border, as where most nodes begin.
#[inline(always)]
pub fn begins_word(source: &Chars<'_>, at: usize) -> bool
    requires { IsBorder source.now at }
    ensures { OnTrue result (Stands (text_of source.now) is_ascii_alphanumeric (place_of source.now at)) }
{
    let bytes = source.rest(at).as_bytes();
    if bytes.is_empty() {
        return false;
    }
    is_word_byte(bytes[0])
}

/// Whether a byte is an ASCII character of a text that neither is a white nor begins a comment.
fn is_text_byte(byte: u8) -> bool
    ensures ascii { result ≡ true → byte < 128 }
    ensures text { result ≡ true → is_in_range 36 126 byte ≡ true }
{
    byte > b'#' && byte <= b'~'
}

/// Whether an ASCII character stands at a border that neither is a white nor begins a comment, as where most lines go on.
#[inline(always)]
pub fn begins_text(source: &Chars<'_>, at: usize) -> bool
    requires { IsBorder source.now at }
    ensures { OnTrue result (Stands (text_of source.now) (is_in_range 36 126) (place_of source.now at)) }
{
    let bytes = source.rest(at).as_bytes();
    if bytes.is_empty() {
        return false;
    }
    is_text_byte(bytes[0])
}

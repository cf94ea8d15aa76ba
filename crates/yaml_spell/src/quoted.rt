//! A content's spelling between double quotes, cut into pieces.
ghost use Rattle.std.specs.Prelude.{◌≡◌, ◌≢◌, ◌<◌, ◌≤◌, ◌+◌, ◌++◌, ◌∷◌, [], true, false, take, drop, length, slice_index};
ghost use Rattle.std.specs.Str.{IsCharBoundary, IsUtf8};
ghost use Rattle.yaml_scalar.specs.Spelling.{quoted_bytes, spelled_chars, is_verbatim};
ghost use Rattle.yaml_definitions.specs.grammar.Characters.{c-double-quote};
ghost use Rattle.yaml_spell.specs.Quoted.{next_text, piece_text, Plain, Other, AllPlain, SomeOther};

use yaml_scalar::spell::spelled_char;
use yaml_text::front::front_len;

/// The front of a content: characters that are written as they are, and the one behind them.
#[derive(Clone, Copy)]
pub(crate) struct Piece<'a> {
    pub(crate) run: &'a str,
    pub(crate) next: Option<char>,
    /// The rest of the content.
    pub(crate) rest: &'a str,
}

/// The first byte of U+0080 to U+00BF, of which the first half are escaped.
const CONTROLS: u8 = 0xc2;

/// The first byte of U+F000 to U+FFFF, among which the byte order mark is escaped.
const MARKS: u8 = 0xef;

/// Whether a byte is of a character that is surely written as it is. It has no branch, for `front_len`.
#[tactic(auto, unfolding(yaml_scalar::specs::Spelling::is_verbatim))]
fn is_plain(byte: u8) -> bool
    ensures yes { result ≡ true → Plain byte }
    ensures no { result ≡ false → Other byte }
{
    (byte >= b' ')
        & (byte != b'"')
        & (byte != b'\\')
        & (byte != 0x7f)
        & (byte != CONTROLS)
        & (byte != MARKS)
}

/// How many bytes at a text's start are of such characters.
fn plain_len(text: &str) -> usize
    ensures spelled { spelled_chars text.now ≡ take result text.now ++ spelled_chars (drop result text.now) }
    ensures border { IsCharBoundary text.now result }
    ensures furthest { result < length text.now → Other (slice_index text.now result) }
{
    front_len(text.as_bytes(), is_plain)
}

/// Whether all bytes are such. Each is tested, whatever the others are, so that the compiler
/// tests them together where it knows how many they are.
#[inline(always)]
fn are_plain(bytes: &[u8]) -> bool
    ensures yes { result ≡ true → AllPlain bytes.now }
    ensures no { result ≡ false → SomeOther bytes.now }
{
    let mut all = true;
    for byte in bytes {
        all &= is_plain(*byte);
    }
    all
}

/// The same of bytes that two stretches of this width cover, the first ones and the last ones.
#[inline(always)]
fn both_plain(bytes: &[u8], width: usize) -> bool
    requires within { width ≤ length bytes.now }
    requires covered { length bytes.now ≤ width + width }
    ensures yes { result ≡ true → AllPlain bytes.now }
    ensures no { result ≡ false → SomeOther bytes.now }
{
    are_plain(&bytes[..width]) & are_plain(&bytes[bytes.len() - width..])
}

/// The same of many bytes, 16 by 16.
#[inline(never)]
fn many_plain(bytes: &[u8]) -> bool
    requires { 16 ≤ length bytes.now }
    ensures yes { result ≡ true → AllPlain bytes.now }
    ensures no { result ≡ false → SomeOther bytes.now }
{
    let mut at = 0;
    'test: while at + 16 <= bytes.len() {
        if !both_plain(&bytes[at..at + 16], 8) {
            return false;
        }
        at += 16;
    }
    both_plain(&bytes[bytes.len() - 16..], 8)
}

/// The same of any bytes: mostly they are few.
fn all_plain(bytes: &[u8]) -> bool
    ensures yes { result ≡ true → AllPlain bytes.now }
    ensures no { result ≡ false → SomeOther bytes.now }
{
    let len = bytes.len();
    if len < 4 {
        return are_plain(bytes);
    }
    if len <= 8 {
        return both_plain(bytes, 4);
    }
    if len <= 16 {
        return both_plain(bytes, 8);
    }
    many_plain(bytes)
}

/// Whether a content is written as it is, but for the quotes. Of one with a character of U+0080 to
/// U+00BF, or from U+F000 to U+FFFF, the answer is no.
pub(crate) fn is_unescaped(text: &str) -> bool
    ensures yes { result ≡ true → quoted_bytes text.now ≡ c-double-quote ∷ (text.now ++ (c-double-quote ∷ [])) }
    ensures no { result ≡ false → SomeOther text.now }
{
    all_plain(text.as_bytes())
}

/// The first piece of a content.
pub(crate) fn cut<'a>(text: &'a str) -> Piece<'a>
    requires { 0 < length text.now }
    ensures spelled { spelled_chars text.now ≡ piece_text result ++ spelled_chars result.rest.now }
    ensures shorter { length result.rest.now < length text.now }
    ensures utf8 { IsUtf8 result.rest.now }
{
    let (run, tail) = text.split_at(plain_len(text));
    let mut chars = tail.chars();
    match chars.next() {
        Some(c) => Piece {
            run,
            next: Some(c),
            rest: chars.as_str(),
        },
        None => Piece {
            run,
            next: None,
            rest: "",
        },
    }
}

impl<'a> Piece<'a> {
    /// How many bytes its spelling has.
    pub(crate) fn len(&self) -> u128
        ensures { result ≡ length (piece_text self.now) }
    {
        let run = self.run.len() as u128;
        match self.next {
            Some(c) => run + spelled_char(c).1 as u128,
            None => run,
        }
    }
}

//! A checked text.
ghost use Rattle.std.specs.Prelude.{◌≡◌, ◌+◌, ◌≤◌, ◌<◌, true, false, length, drop, slice_index, IfOk, IfErr, MatchOption};
ghost use Rattle.std.specs.Str.{IsCharBoundary, IsUtf8, chars};
ghost use Rattle.yaml_definitions.specs.model.Text.{is_text, Text, mark_len};
ghost use Rattle.yaml_text.specs.Refused.{RefusesText, IsFirstRefused, AllText, IsScanned};
ghost use Rattle.yaml_definitions.specs.model.Limits.{text_limit};

use crate::class::is_text;
use crate::fault::Fault;
use crate::front::front_len;
use crate::limits::text_limit;

const MARK: &str = "\u{FEFF}";

const MARK_LEN: usize = 3;

/// A checked text, after the byte order mark that its input may begin with. An offset counts the
/// text's bytes from 0.
#[derive(Clone, Copy)]
pub struct Chars<'a> {
    text: &'a str,
    mark_len: usize,
    ghost short: { mark_len + length text.now ≤ text_limit },
    ghost utf8: { ∥ IsUtf8 text.now ∥₁ },
}

/// The text after its byte order mark, and the mark's length.
fn skip_mark(text: &str) -> (&str, usize)
    ensures text { result.0.now ≡ drop (mark_len text.now) text.now }
    ensures mark { result.1 ≡ mark_len text.now }
    ensures whole { result.1 + length result.0.now ≡ length text.now }
{
    match text.strip_prefix(MARK) {
        Some(rest) => (rest, MARK_LEN),
        None => (text, 0),
    }
}

/// Whether a byte is an ASCII character that a text may hold. It has no branch, for `front_len`.
#[tactic(auto, unfolding(yaml_definitions::specs::grammar::Characters::is_printable))]
fn is_ascii_text(byte: u8) -> bool
    ensures ascii { result ≡ true → byte < 128 }
    ensures text { result ≡ true → is_text byte ≡ true }
    ensures other { result ≡ false → byte < 128 → is_text byte ≡ false }
{
    ((byte >= b' ') & (byte <= b'~')) | (byte == b'\t') | (byte == b'\n') | (byte == b'\r')
}

/// How many such characters stand at a text's start: as many bytes.
fn ascii_len(text: &str) -> usize
    ensures scanned { IsScanned text.now (drop result text.now) }
    ensures border { IsCharBoundary text.now result }
    ensures furthest { result < length text.now → slice_index text.now result < 128 → is_text (slice_index text.now result) ≡ false }
{
    front_len(text.as_bytes(), is_ascii_text)
}

/// The offset of the first character that no text may hold. Runs of ASCII are passed over without
/// being decoded.
fn first_refused(text: &str) -> Option<usize>
    ensures { MatchOption result (AllText text.now) (IsFirstRefused text.now) }
{
    let mut rest = text;
    'scan: loop {
        let (_, tail) = rest.split_at(ascii_len(rest));
        let mut chars = tail.chars();
        match chars.next() {
            None => return None,
            Some(c) => {
                if !is_text(c) {
                    return Some(text.len() - tail.len());
                }
                rest = chars.as_str();
            }
        }
    }
}

impl<'a> Chars<'a> {
    ghost use Rattle.yaml_text.specs.Source.{bytes_of, mark_of};

    /// Checks an input and skips a byte order mark at its start.
    ///
    /// # Errors
    /// In this order: `TooLong` for more bytes than the limit, `NotUtf8`, and `NotPrintable` for the first character that is not
    /// printable (YAML 1.2.2, 5.1) or is a further U+FEFF.
    pub fn read(bytes: &'a [u8]) -> Result<Chars<'a>, Fault>
        ensures read { IfOk result (λ c. Text bytes.now (chars (bytes_of c))) }
        ensures text { IfOk result (λ c. bytes_of c ≡ drop (mark_len bytes.now) bytes.now) }
        ensures mark { IfOk result (λ c. mark_of c ≡ mark_len bytes.now) }
        ensures refused { IfErr result (RefusesText bytes.now) }
    {
        if bytes.len() > text_limit() {
            return Err(Fault::TooLong);
        }
        let whole = match simdutf8::compat::from_utf8(bytes) {
            Ok(text) => text,
            Err(fault) => return Err(Fault::NotUtf8(fault.valid_up_to())),
        };
        let (text, mark_len) = skip_mark(whole);
        match first_refused(text) {
            Some(at) => Err(Fault::NotPrintable(mark_len + at)),
            None => Ok(Chars { text, mark_len }),
        }
    }

    /// How many bytes the text has.
    pub fn end(&self) -> usize
        ensures { result ≡ length (bytes_of self.now) }
    {
        self.text.len()
    }

    /// The text from the offset `at` on, which is a border of characters.
    pub fn rest(&self, at: usize) -> &'a str
        requires { IsCharBoundary (bytes_of self.now) at }
        ensures { result.now ≡ drop at (bytes_of self.now) }
    {
        let text = self.text;
        &text[at..]
    }

    /// The offset in the input, its byte order mark counted, of the offset `at`.
    pub fn pos(&self, at: usize) -> usize
        requires { at ≤ length (bytes_of self.now) }
        ensures { result ≡ mark_of self.now + at }
    {
        self.mark_len + at
    }
}

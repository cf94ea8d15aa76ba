//! Texts in brackets: where one ends, and which ones a step may have.
ghost use Rattle.std.specs.Prelude.{◌≡◌, ◌<◌, ◌≤◌, ◌++◌, ◌∷◌, [], List, ℕ, length, take, Some, not, ◌&&◌, IfSome};
ghost use Rattle.review_patterns.specs.Brackets.{behind_of, depth_of};
ghost use Rattle.review_patterns.specs.Grammar.{Closes, begins_key, is_quoted_name, is_inside, is_bracketed};

use crate::name::name_len;
use crate::place::is_place;

/// Between brackets, what the next byte stands in.
#[derive(Clone, Copy)]
pub(crate) enum At {
    Plain,
    /// A text between double quotes.
    Quoted,
    /// The same, behind a `\`.
    Escaped,
    /// A tag that begins with `!<`.
    Tag,
}

/// What the byte behind this one stands in.
fn behind(at: At, byte: u8) -> At
    ensures { result ≡ behind_of at byte }
{
    match at {
        At::Plain => match byte {
            b'"' => At::Quoted,
            b'<' => At::Tag,
            _ => At::Plain,
        },
        At::Quoted => match byte {
            b'"' => At::Plain,
            b'\\' => At::Escaped,
            _ => At::Quoted,
        },
        At::Escaped => At::Quoted,
        At::Tag => match byte {
            b'>' => At::Plain,
            _ => At::Tag,
        },
    }
}

/// How many brackets are open behind this byte.
fn depth_behind(at: At, byte: u8, depth: usize) -> usize
    requires { depth < 18446744073709551615 }
    ensures { result ≡ depth_of at byte depth }
{
    match at {
        At::Plain => match byte {
            b'[' | b'{' => depth + 1,
            b']' | b'}' => depth.saturating_sub(1),
            _ => depth,
        },
        _ => depth,
    }
}

/// Behind an open bracket, how many bytes go up to the one that closes it, if one does.
pub(crate) fn bracket_len(text: &[u8]) -> Option<usize>
    ensures closes { IfSome result (λ n. (n ≤ length text.now) × Closes 1 (take n text.now)) }
    ensures whole { (inside more : List ℕ) → Closes 1 inside → text.now ≡ inside ++ more → result ≡ Some (length inside) }
{
    let mut at = At::Plain;
    let mut depth: usize = 1;
    'bytes: for (place, byte) in text.iter().enumerate() {
        depth = depth_behind(at, *byte, depth);
        if depth == 0 {
            return Some(place + 1);
        }
        at = behind(at, *byte);
    }
    None
}

/// Whether a key's text begins with this byte.
fn begins_key(byte: u8) -> bool
    ensures { result ≡ begins_key (byte ∷ []) }
{
    matches!(byte, b'"' | b'!' | b'[' | b'{')
}

/// Whether a text is a name between double quotes, which a path has behind a `.` and without quotes.
fn is_quoted_name(text: &[u8]) -> bool
    ensures { result ≡ is_quoted_name text.now }
{
    match text.split_first() {
        Some((first, rest)) => {
            let len = name_len(rest);
            *first == b'"' && 0 < len && &rest[len..] == b"\"".as_slice()
        }
        None => false,
    }
}

/// Whether a text is that of a key in brackets.
fn is_key(text: &[u8]) -> bool
    ensures { result ≡ (begins_key text.now && not (is_quoted_name text.now)) }
{
    match text.first() {
        Some(first) => begins_key(*first) && !is_quoted_name(text),
        None => false,
    }
}

/// Whether a step may have this text between its brackets.
fn is_inside(text: &[u8]) -> bool
    ensures { result ≡ is_inside text.now }
{
    text == b"*".as_slice() || is_place(text) || is_key(text)
}

/// Whether a text is what may stand between the brackets of a step, and then a `]`.
pub(crate) fn is_bracketed(text: &[u8]) -> bool
    ensures { result ≡ is_bracketed text.now }
{
    let (inside, last) = text.split_at(text.len().saturating_sub(1));
    last == b"]".as_slice() && is_inside(inside)
}

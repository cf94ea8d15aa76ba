//! The escapes of double-quoted scalars (YAML 1.2.2, 5.7).
ghost use Rattle.std.specs.Prelude.{◌≡◌, ◌≤◌, ◌<◌, IfSome, IfNone};
ghost use Rattle.yaml_text.specs.Source.{text_of, place_of, IsBorder};
ghost use Rattle.yaml_text.specs.LeafAnswer.{Unread};
ghost use Rattle.yaml_definitions.specs.grammar.Characters.{short_escape, numbered, c-ns-esc-char as escape};
ghost use Rattle.yaml_scalar.specs.Chains.{digit_count};

use yaml_text::chars::Chars;
use yaml_text::places::{accept, next};

/// What a backslash and this one character stand for.
#[tactic(auto, unfolding(yaml_definitions::specs::grammar::Characters::short_escape))]
fn short_escape(c: char) -> Option<char>
    ensures { result ≡ short_escape c }
{
    match c {
        '0' => Some('\0'),
        'a' => Some('\u{7}'),
        'b' => Some('\u{8}'),
        't' => Some('\t'),
        '\t' => Some('\t'),
        'n' => Some('\n'),
        'v' => Some('\u{B}'),
        'f' => Some('\u{C}'),
        'r' => Some('\r'),
        'e' => Some('\u{1B}'),
        ' ' => Some(' '),
        '"' => Some('"'),
        '/' => Some('/'),
        '\\' => Some('\\'),
        'N' => Some('\u{85}'),
        '_' => Some('\u{A0}'),
        'L' => Some('\u{2028}'),
        'P' => Some('\u{2029}'),
        _ => None,
    }
}

/// How many hexadecimal digits follow a backslash and this character.
#[tactic(auto, unfolding(crate::specs::Chains::digit_count))]
fn digit_count(c: char) -> Option<usize>
    ensures { result ≡ digit_count c }
{
    match c {
        'x' => Some(2),
        'u' => Some(4),
        'U' => Some(8),
        _ => None,
    }
}

/// The character that so many hexadecimal digits number, and the border after them.
fn read_numbered(source: &Chars<'_>, at: usize, count: usize) -> Option<(char, usize)>
    requires border { IsBorder source.now at }
    requires few { count ≤ 8 }
    ensures border { IfSome result (λ r. IsBorder source.now r.1) }
    ensures onward { IfSome result (λ r. at ≤ r.1) }
    ensures some { IfSome result (λ r. numbered (text_of source.now) count (place_of source.now at) (place_of source.now r.1) r.0) }
    ensures none { IfNone result (Unread (numbered (text_of source.now) count) (place_of source.now at)) }
{
    let mut number: u32 = 0;
    let mut here = at;
    'digits: for done in 0..count {
        match next(source, here) {
            None => return None,
            Some((c, to)) => match c.to_digit(16) {
                None => return None,
                Some(digit) => {
                    number = number * 16 + digit;
                    here = to;
                }
            },
        }
    }
    match char::from_u32(number) {
        None => None,
        Some(c) => Some((c, here)),
    }
}

/// The character that the escape at a border stands for, and the border after the escape.
pub fn read_escape(source: &Chars<'_>, at: usize) -> Option<(char, usize)>
    requires { IsBorder source.now at }
    ensures border { IfSome result (λ r. IsBorder source.now r.1) }
    ensures onward { IfSome result (λ r. at < r.1) }
    ensures some { IfSome result (λ r. escape (text_of source.now) (place_of source.now at) (place_of source.now r.1) r.0) }
    ensures none { IfNone result (Unread (escape (text_of source.now)) (place_of source.now at)) }
{
    match accept(source, at, '\\') {
        None => None,
        Some(mark) => match next(source, mark) {
            None => None,
            Some((c, to)) => match short_escape(c) {
                Some(short) => Some((short, to)),
                None => match digit_count(c) {
                    None => None,
                    Some(count) => match read_numbered(source, to, count) {
                        None => None,
                        Some((long, end)) => Some((long, end)),
                    },
                },
            },
        },
    }
}

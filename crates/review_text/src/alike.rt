//! Texts that look the same.
ghost use Rattle.std.specs.Prelude.{◌≡◌, ◌++◌, IfOk, OnOk, string_bytes};
ghost use Rattle.std.specs.Str.{encode_utf8_all};
ghost use Rattle.review_text.specs.Alike.{is_wide_space, capital, small, seen, seen_char, look, is_ascii_text, looks_alike};
ghost use Rattle.review_text.specs.Hidden.{ascii, spelled};

use crate::hidden::put_ascii;
use std::alloc::{AllocError, Global};
use unicode_normalization::to_nfd;

/// Whether a character is a space that is not that of ASCII.
fn is_wide_space(c: char) -> bool
    ensures { result ≡ is_wide_space c }
{
    matches!(
        c,
        '\u{A0}' | '\u{1680}' | '\u{2000}'..='\u{200A}' | '\u{202F}' | '\u{205F}' | '\u{3000}'
    )
}

/// The Latin capital that a Greek or Cyrillic one looks like, or the character itself.
#[tactic(auto, unfolding(crate::specs::Alike::capital))]
fn capital(c: char) -> char
    ensures { result ≡ capital c }
{
    match c {
        '\u{391}' | '\u{410}' => 'A',
        '\u{392}' | '\u{412}' => 'B',
        '\u{421}' => 'C',
        '\u{395}' | '\u{415}' => 'E',
        '\u{397}' | '\u{41D}' => 'H',
        '\u{399}' | '\u{406}' => 'I',
        '\u{408}' => 'J',
        '\u{39A}' | '\u{41A}' => 'K',
        '\u{39C}' | '\u{41C}' => 'M',
        '\u{39D}' => 'N',
        '\u{39F}' | '\u{41E}' => 'O',
        '\u{3A1}' | '\u{420}' => 'P',
        '\u{405}' => 'S',
        '\u{3A4}' | '\u{422}' => 'T',
        '\u{3A5}' | '\u{423}' => 'Y',
        '\u{3A7}' | '\u{425}' => 'X',
        '\u{396}' => 'Z',
        _ => c,
    }
}

/// The same of small letters.
#[tactic(auto, unfolding(crate::specs::Alike::small))]
fn small(c: char) -> char
    ensures { result ≡ small c }
{
    match c {
        '\u{430}' => 'a',
        '\u{441}' => 'c',
        '\u{501}' => 'd',
        '\u{435}' => 'e',
        '\u{4BB}' => 'h',
        '\u{456}' => 'i',
        '\u{458}' => 'j',
        '\u{3BF}' | '\u{43E}' => 'o',
        '\u{440}' => 'p',
        '\u{51B}' => 'q',
        '\u{455}' => 's',
        '\u{3BD}' => 'v',
        '\u{51D}' => 'w',
        '\u{445}' => 'x',
        '\u{443}' => 'y',
        _ => c,
    }
}

/// What a character looks like.
fn seen(c: char) -> char
    ensures { result ≡ seen c }
{
    if is_wide_space(c) {
        ' '
    } else {
        small(capital(c))
    }
}

/// Writes what a character looks like.
fn put_seen(out: &mut String, c: char) -> Result<(), AllocError>
    ensures ok { OnOk result (string_bytes out.new ≡ string_bytes out.old ++ encode_utf8_all (seen_char c)) }
{
    out.push(seen(c))?;
    Ok(())
}

/// Writes what the characters of a text look like.
fn put_look(out: &mut String, text: &str) -> Result<(), AllocError>
    ensures ok { OnOk result (string_bytes out.new ≡ string_bytes out.old ++ spelled seen_char text.now) }
{
    'chars: for c in text.chars() {
        put_seen(out, c)?;
    }
    Ok(())
}

/// What is seen of a text: letters apart from their marks (NFD), and Latin letters in place of others that look like them.
fn look_of(alloc: Global, text: &str) -> Result<String, AllocError>
    ensures ok { IfOk result (λ seen. string_bytes seen ≡ look text.now) }
{
    let apart = to_nfd(alloc, text)?;
    let mut look = String::new(alloc);
    put_look(&mut look, apart.as_str())?;
    Ok(look)
}

/// Whether a text has characters of ASCII alone.
fn is_ascii(text: &str) -> bool
    ensures { result ≡ is_ascii_text text.now }
{
    text.as_bytes().iter().all(|byte| *byte < 128)
}

/// Whether two texts differ, and look the same. Two texts of ASCII never do.
pub fn look_alike(alloc: Global, left: &str, right: &str) -> Result<bool, AllocError>
    ensures ok { IfOk result (λ answer. answer ≡ looks_alike left.now right.now) }
{
    if left == right {
        return Ok(false);
    }
    if is_ascii(left) && is_ascii(right) {
        return Ok(false);
    }
    let look = look_of(alloc, left)?;
    let other = look_of(alloc, right)?;
    Ok(look.as_str() == other.as_str())
}

/// A text with the escape of each character outside ASCII.
pub fn ascii_text(alloc: Global, text: &str) -> Result<String, AllocError>
    ensures ok { IfOk result (λ s. string_bytes s ≡ ascii text.now) }
{
    let mut out = String::new(alloc);
    put_ascii(&mut out, text)?;
    Ok(out)
}

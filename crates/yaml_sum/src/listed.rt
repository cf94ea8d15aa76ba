//! The lines of a list of sums.
ghost use Rattle.std.specs.Prelude.{◌≡◌, ◌<◌, ◌++◌, length, option_map, OnOk, IfOk};
ghost use Rattle.hex.specs.Hex.{decode_sized};
ghost use Rattle.yaml_sum.specs.Listed.{
  after_equals,
  escaped,
  form_in,
  has_digits,
  has_one_space,
  is_apart,
  lines_of,
  listing_as,
  listing_of,
  name_as,
  name_of,
  name_part,
  plain,
  tag_end,
  tagged,
  told_digest,
};
ghost use Rattle.yaml_sum.specs.Reads.{said, IsNamed};

use crate::line::push;
use crate::names::cut;
use crate::parts::{cut_last, is_white, line_text, skip_white, unmarked};
use hex::FromHex;
use std::alloc::AllocError;

/// A line of a list: a digest, and the name of a file as it is written.
#[derive(Clone, Copy)]
pub(crate) struct Listed<'a> {
    pub(crate) digest: [u8; 32],
    pub(crate) name: &'a [u8],
    pub(crate) is_escaped: bool,
}

/// How many hex digits a digest has.
const DIGITS: usize = 64;

/// Whether a line has room for a digest and a name, with a blank between them.
fn has_digits(line: &[u8]) -> bool
    ensures { result ≡ has_digits line.now }
{
    line.len() > DIGITS + 1 && is_white(line[DIGITS])
}

/// Whether such a line has a space or a `*` more before its name.
fn is_apart(line: &[u8]) -> bool
    ensures { result ≡ is_apart line.now }
{
    line.len() > DIGITS + 2 && (line[DIGITS + 1] == b' ' || line[DIGITS + 1] == b'*')
}

/// The digest that these digits tell.
fn read_digest(digits: &[u8]) -> Option<[u8; 32]>
    ensures { result ≡ told_digest (decode_sized digits.now 32) }
{
    <[u8; 32] as FromHex>::from_hex(digits).ok()
}

/// The name of a line that begins with a digest.
fn name_part(line: &[u8], one_space: bool) -> Option<&[u8]>
    requires { 65 < length line.now }
    ensures { option_map (λ s. s.now) result ≡ name_part one_space line.now }
{
    if one_space {
        return Some(&line[DIGITS + 1..]);
    }
    if is_apart(line) {
        Some(&line[DIGITS + 2..])
    } else {
        None
    }
}

/// Reads a line that begins with a digest.
fn read_plain(line: &[u8], is_escaped: bool, one_space: bool) -> Option<Listed<'_>>
    ensures { said result ≡ plain one_space is_escaped line.now }
{
    if !has_digits(line) {
        return None;
    }
    let Some(digest) = read_digest(&line[..DIGITS]) else {
        return None;
    };
    match name_part(line, one_space) {
        Some(name) => Some(Listed {
            digest,
            name,
            is_escaped,
        }),
        None => None,
    }
}

/// What stands behind `SHA256 (` or `SHA256(`, if a line begins so.
fn tag_end(line: &[u8]) -> Option<&[u8]>
    ensures { option_map (λ s. s.now) result ≡ tag_end line.now }
{
    if line.starts_with(b"SHA256 (") {
        Some(&line[8..])
    } else if line.starts_with(b"SHA256(") {
        Some(&line[7..])
    } else {
        None
    }
}

/// The digest behind an equals sign.
fn read_equals(text: &[u8]) -> Option<[u8; 32]>
    ensures { result ≡ after_equals text.now }
{
    match text {
        [] => None,
        [first, rest @ ..] => {
            if *first == b'=' {
                read_digest(skip_white(rest))
            } else {
                None
            }
        }
    }
}

/// Reads a line behind its tag: the name, a bracket, an equals sign and the digest.
fn read_tagged(text: &[u8], is_escaped: bool) -> Option<Listed<'_>>
    ensures { said result ≡ tagged is_escaped text.now }
{
    let Some((name, behind)) = cut_last(text) else {
        return None;
    };
    match read_equals(skip_white(behind)) {
        Some(digest) => Some(Listed {
            digest,
            name,
            is_escaped,
        }),
        None => None,
    }
}

/// Reads a line behind the backslash, if it has one.
fn read_behind(line: &[u8], is_escaped: bool, one_space: bool) -> Option<Listed<'_>>
    ensures { said result ≡ listing_as one_space is_escaped line.now }
{
    match tag_end(line) {
        Some(text) => read_tagged(text, is_escaped),
        None => read_plain(line, is_escaped, one_space),
    }
}

/// Reads a line without its end: a backslash where the name is escaped; then the digest in hex, a blank, in most lists a space or a
/// `*`, and the name; or `SHA256`, the name in brackets, an equals sign and the digest.
pub(crate) fn read_listed(line: &[u8], one_space: bool) -> Option<Listed<'_>>
    ensures { said result ≡ listing_of one_space line.now }
{
    let (is_escaped, body) = unmarked(skip_white(line));
    read_behind(body, is_escaped, one_space)
}

/// Whether a line has one blank alone before its name, if it begins with a digest.
fn form_in(line: &[u8]) -> Option<bool>
    ensures { result ≡ form_in line.now }
{
    let (_, body) = unmarked(skip_white(line));
    if !has_digits(body) {
        return None;
    }
    match read_digest(&body[..DIGITS]) {
        Some(_) => Some(!is_apart(body)),
        None => None,
    }
}

/// Whether the names of a list have one blank alone before them: the first line that begins with a digest tells it.
pub(crate) fn has_one_space(list: &[u8]) -> bool
    ensures { result ≡ has_one_space (lines_of list.now) }
{
    let mut rest = list;
    'lines: loop {
        let (piece, behind) = cut(rest, b'\n');
        if let Some(one_space) = form_in(line_text(piece)) {
            return one_space;
        }
        match behind {
            Some(more) => rest = more,
            None => return false,
        }
    }
}

/// The byte of an escape, by what stands behind the backslash. No answer where `push_name` makes none such.
fn escaped(byte: u8) -> Option<u8>
    ensures { result ≡ escaped byte }
{
    match byte {
        b'\\' => Some(b'\\'),
        b'n' => Some(b'\n'),
        b'r' => Some(b'\r'),
        _ => None,
    }
}

/// What `push_name` made of a name, undone. Whether it could have made it.
fn unescape(name: &[u8], plain: &mut Vec<u8>) -> Result<bool, AllocError>
    ensures ok { IfOk result (λ is. IsNamed is (name_of name.now) plain.new.items) }
{
    plain.clear();
    let mut at = 0;
    'bytes: while at < name.len() {
        if name[at] != b'\\' {
            push(plain, &[name[at]])?;
            at += 1;
            continue;
        }
        if at + 1 == name.len() {
            return Ok(false);
        }
        let Some(byte) = escaped(name[at + 1]) else {
            return Ok(false);
        };
        push(plain, &[byte])?;
        at += 2;
    }
    Ok(true)
}

/// Puts the name of a line as it is in place of what is held. Whether it is written properly.
pub(crate) fn unwrite(listed: &Listed<'_>, plain: &mut Vec<u8>) -> Result<bool, AllocError>
    ensures ok { IfOk result (λ is. IsNamed is (name_as listed.now.is_escaped listed.now.name.now) plain.new.items) }
{
    if listed.is_escaped {
        return unescape(listed.name, plain);
    }
    plain.clear();
    push(plain, listed.name)?;
    Ok(true)
}

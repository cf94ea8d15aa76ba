//! The lines of `sha256sum`.
ghost use Rattle.std.specs.Prelude.{◌≡◌, ◌++◌, List, ℕ, Option, option_map, OnOk};
ghost use Rattle.yaml_sum.specs.Lines.{escape_of, is_special, name_text, printed_byte, told_name, sum_line};

use hex::encode_to_slice;
use std::alloc::AllocError;
use yaml_text::fault::Fault;

/// What stands in a line for this byte of a name, if it is not itself: a backslash, and the ends of lines.
fn escape_of(byte: u8) -> Option<&'static [u8]>
    ensures { option_map (λ s. s.now) result ≡ escape_of byte }
{
    match byte {
        b'\\' => Some(b"\\\\"),
        b'\n' => Some(b"\\n"),
        b'\r' => Some(b"\\r"),
        _ => None,
    }
}

/// Whether a name has a byte that does not stand for itself.
fn is_escaped(name: &[u8]) -> bool
    ensures { result ≡ is_special name.now }
{
    'bytes: for byte in name {
        if escape_of(*byte).is_some() {
            return true;
        }
    }
    false
}

/// Puts some bytes behind a line.
pub(crate) fn push(line: &mut Vec<u8>, piece: &[u8]) -> Result<(), AllocError>
    ensures ok { OnOk result (line.new.items ≡ line.old.items ++ piece.now) }
{
    line.extend_from_slice(piece)?;
    Ok(())
}

/// Puts a name behind a line, so that the line stays one.
pub(crate) fn push_name(line: &mut Vec<u8>, name: &[u8]) -> Result<(), AllocError>
    ensures ok { OnOk result (line.new.items ≡ line.old.items ++ name_text name.now) }
{
    'bytes: for byte in name {
        match escape_of(*byte) {
            Some(escape) => push(line, escape)?,
            None => push(line, &[*byte])?,
        }
    }
    Ok(())
}

/// A byte that stands for itself, and `?` for a control character. In a name that is no text each byte that is not ASCII is one.
fn printed_byte(byte: u8, is_text: bool) -> u8
    ensures { result ≡ printed_byte is_text byte }
{
    if byte < 32 || byte == 127 || (byte > 127 && !is_text) {
        b'?'
    } else {
        byte
    }
}

/// Puts a name behind a line that reports a file, with `?` for each control character that has no escape.
pub(crate) fn push_told_name(
    line: &mut Vec<u8>,
    name: &[u8],
    is_text: bool,
) -> Result<(), AllocError>
    ensures ok { OnOk result (line.new.items ≡ line.old.items ++ told_name is_text name.now) }
{
    'bytes: for byte in name {
        match escape_of(*byte) {
            Some(escape) => push(line, escape)?,
            None => push(line, &[printed_byte(*byte, is_text)])?,
        }
    }
    Ok(())
}

/// Makes the line of a sum: a backslash where the name is not written as it is, the digest in hex, two
/// spaces, the name, and a line feed.
pub(crate) fn make_line(
    line: &mut Vec<u8>,
    digest: &[u8; 32],
    name: &[u8],
) -> Result<(), AllocError>
    ensures ok { OnOk result (line.new.items ≡ sum_line digest.now name.now) }
{
    let mut digits = [0u8; 64];
    let _ = encode_to_slice(digest, &mut digits);
    line.clear();
    if is_escaped(name) {
        push(line, b"\\")?;
    }
    push(line, &digits)?;
    push(line, b"  ")?;
    push_name(line, name)?;
    push(line, b"\n")
}

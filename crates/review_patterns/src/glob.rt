//! Names of files with a `*`, as `--include` takes them.
ghost use Rattle.std.specs.Prelude.{◌≡◌, ◌==◌, count_by};
ghost use Rattle.std.specs.List.{list_any};
ghost use Rattle.review_patterns.specs.Globs.{is_special, is_glob, ends_after, fits_glob};

use crate::place::parts;

/// What stands for any text.
const STAR: u8 = b'*';

/// Whether this byte would mean more than itself in globs of other tools, or parts folders.
fn is_special(byte: u8) -> bool
    ensures { result ≡ is_special byte }
{
    matches!(byte, b'/' | b'?' | b'[' | b']' | b'{' | b'}' | b'\\')
}

/// How many bytes stand for any text.
fn stars(text: &[u8]) -> usize
    ensures { result ≡ count_by (λ c. c == 42) text.now }
{
    text.iter().filter(|byte| **byte == STAR).count()
}

/// Whether a byte is special.
fn has_special(text: &[u8]) -> bool
    ensures { result ≡ list_any is_special text.now }
{
    text.iter().any(|byte| is_special(*byte))
}

/// Whether a text is a glob: a name in which one `*` at most stands for any text. No other character has a meaning of its own, and those
/// that have one in other tools stand in no glob.
pub fn is_glob(text: &str) -> bool
    ensures { result ≡ is_glob text.now }
{
    let bytes = text.as_bytes();
    if bytes.is_empty() {
        return false;
    }
    if stars(bytes) > 1 {
        return false;
    }
    !has_special(bytes)
}

/// Whether what is left of a name after what it begins with ends with this text.
fn ends_after(start: &[u8], end: &[u8], name: &[u8]) -> bool
    ensures { result ≡ ends_after start.now end.now name.now }
{
    match name.strip_prefix(start) {
        Some(rest) => rest.ends_with(end),
        None => false,
    }
}

/// Whether a glob stands for a name. As in a shell, a name that begins with `.` is one only of a glob that does.
pub fn fits_glob(glob: &str, name: &str) -> bool
    ensures { result ≡ fits_glob glob.now name.now }
{
    let (glob, name) = (glob.as_bytes(), name.as_bytes());
    if name.starts_with(b".") && !glob.starts_with(b".") {
        return false;
    }
    if !glob.contains(&STAR) {
        return glob == name;
    }
    let (start, end) = parts(STAR, glob);
    ends_after(start, end, name)
}

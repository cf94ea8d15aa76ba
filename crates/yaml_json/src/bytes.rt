//! The first byte of some, and white space.
ghost use Rattle.std.specs.Prelude.{◌≡◌, ◌∷◌, ◌++◌, [], ℕ, List, true, false, IfSome, IfNone};
ghost use Rattle.yaml_json.specs.Json.{is_white, Ws};
ghost use Rattle.yaml_json.specs.Reading.{begins, No};

/// The first byte, and those after it.
pub(crate) fn first(bytes: &[u8]) -> Option<(u8, &[u8])>
    ensures some { IfSome result (λ p. bytes.now ≡ p.0 ∷ p.1.now) }
    ensures none { IfNone result (bytes.now ≡ []) }
{
    match bytes.split_first() {
        Some((byte, rest)) => Some((*byte, rest)),
        None => None,
    }
}

/// The bytes after this one, if it is the first.
pub(crate) fn after_byte(bytes: &[u8], byte: u8) -> Option<&[u8]>
    ensures some { IfSome result (λ rest. bytes.now ≡ byte ∷ rest.now) }
    ensures none { IfNone result (No (λ rest. bytes.now ≡ byte ∷ rest)) }
{
    let (c, rest) = first(bytes)?;
    if c == byte {
        return Some(rest);
    }
    None
}

/// The bytes after these, if they are the first.
pub(crate) fn after_word<'a>(bytes: &'a [u8], word: &[u8]) -> Option<&'a [u8]>
    ensures some { IfSome result (λ rest. bytes.now ≡ word.now ++ rest.now) }
    ensures none { IfNone result (No (λ rest. bytes.now ≡ word.now ++ rest)) }
{
    bytes.strip_prefix(word)
}

fn is_white(c: u8) -> bool
    ensures { result ≡ is_white c }
{
    c == b' ' || c == b'\t' || c == b'\n' || c == b'\r'
}

/// The bytes after one byte of white space.
fn after_white_byte(bytes: &[u8]) -> Option<&[u8]>
    ensures some { IfSome result (λ rest. (c : ℕ) × (is_white c ≡ true) × (bytes.now ≡ c ∷ rest.now)) }
    ensures none { IfNone result (begins is_white bytes.now ≡ false) }
{
    let (c, rest) = first(bytes)?;
    if is_white(c) {
        return Some(rest);
    }
    None
}

/// The bytes after the white space with which they begin.
pub(crate) fn after_white(bytes: &[u8]) -> &[u8]
    ensures white { Ws bytes.now result.now }
    ensures all { begins is_white result.now ≡ false }
{
    let mut rest = bytes;
    'white: while let Some(after) = after_white_byte(rest) {
        rest = after;
    }
    rest
}

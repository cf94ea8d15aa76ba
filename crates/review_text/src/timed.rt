//! Numbers of base 60 and timestamps of YAML 1.1, by the patterns of its resolver.

ghost use Rattle.review_text.specs.Yaml11.{IsTimed};

use crate::yaml11::{Kind, behind_one};

const DIGITS: &[u8] = b"0123456789";

/// What is left of a text that is read piece by piece.
#[derive(Clone, Copy)]
struct Rest<'a> {
    bytes: &'a [u8],
}

impl<'a> Rest<'a> {
    /// How many bytes of a set come first.
    fn count(&self, set: &[u8]) -> usize {
        for (at, byte) in self.bytes.iter().enumerate() {
            if !set.contains(byte) {
                return at;
            }
        }
        self.bytes.len()
    }

    /// Takes so many bytes.
    fn skip(&mut self, count: usize) {
        self.bytes = self.bytes.get(count..).unwrap_or(&[]);
    }

    /// Takes one byte of a set, if it comes first.
    fn one(&mut self, set: &[u8]) -> bool {
        match behind_one(self.bytes, set) {
            Some(rest) => {
                self.bytes = rest;
                true
            }
            None => false,
        }
    }

    /// Takes bytes of a shape, if they come first: `d` is a digit, `D` one that may be left out, and others are themselves.
    fn shape(&mut self, shape: &[u8]) -> bool {
        for byte in shape {
            let found = match byte {
                b'd' => self.one(DIGITS),
                b'D' => {
                    self.one(DIGITS);
                    true
                }
                _ => self.one(&[*byte]),
            };
            if !found {
                return false;
            }
        }
        true
    }

    fn is_empty(&self) -> bool {
        self.bytes.is_empty()
    }
}

/// A float `[-+]?[0-9][0-9_]*(:[0-5]?[0-9])+\.[0-9_]*` or an int `[-+]?[1-9][0-9_]*(:[0-5]?[0-9])+`.
fn read_sexagesimal(mut rest: Rest<'_>) -> Option<Kind>
    ensures { IsTimed result }
{
    rest.one(b"+-");
    let zero = rest.count(b"0") > 0;
    let count = rest.count(b"0123456789_");
    let digits = rest.count(b"0123456789");
    rest.skip(count);
    let mut groups = 0_usize;
    for _ in 0..rest.bytes.len() {
        if !rest.one(b":") {
            break;
        }
        let is_high = rest.count(b"0123456789") > 1;
        if is_high && rest.count(b"012345") == 0 {
            return None;
        }
        if !rest.shape(b"dD") {
            return None;
        }
        groups = groups.saturating_add(1);
    }
    let fraction = rest.one(b".");
    let tail = rest.count(b"0123456789_");
    rest.skip(if fraction { tail } else { 0 });
    if digits == 0 || groups == 0 || !rest.is_empty() {
        None
    } else if fraction {
        Some(Kind::Float)
    } else if zero {
        None
    } else {
        Some(Kind::Int)
    }
}

/// A day, `[0-9]{4}-[0-9]{2}-[0-9]{2}`
fn is_day(mut rest: Rest<'_>) -> bool {
    rest.shape(b"dddd-dd-dd") && rest.is_empty()
}

/// Takes blanks.
fn blanks(rest: &mut Rest<'_>) -> usize {
    let count = rest.count(b" \t");
    rest.skip(count);
    count
}

/// A zone: nothing, `Z`, or a sign with hours and minutes.
fn is_zone(mut rest: Rest<'_>) -> bool {
    blanks(&mut rest);
    if rest.is_empty() {
        return true;
    }
    if rest.one(b"Z") {
        return rest.is_empty();
    }
    let is_hours = rest.one(b"+-") && rest.shape(b"dD");
    is_hours && (rest.is_empty() || (rest.shape(b":dd") && rest.is_empty()))
}

/// A day and a time of day, with a fraction and a zone perhaps.
fn is_time(mut rest: Rest<'_>) -> bool {
    if !rest.shape(b"dddd-dD-dD") {
        return false;
    }
    if !rest.one(b"Tt") && blanks(&mut rest) == 0 {
        return false;
    }
    if !rest.shape(b"dD:dd:dd") {
        return false;
    }
    if rest.one(b".") {
        let count = rest.count(DIGITS);
        rest.skip(count);
    }
    is_zone(rest)
}

/// What a text with `:` or `-` between digits is in YAML 1.1: a number of base 60 or a timestamp.
pub(crate) fn read_timed(text: &[u8]) -> Option<Kind>
    ensures { IsTimed result }
{
    let rest = Rest { bytes: text };
    if let Some(kind) = read_sexagesimal(rest) {
        Some(kind)
    } else if is_day(rest) || is_time(rest) {
        Some(Kind::Timestamp)
    } else {
        None
    }
}

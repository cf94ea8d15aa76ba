//! Where a line has room for a node's properties.
ghost use Rattle.std.specs.Prelude.{◌≡◌, get_or};
ghost use Rattle.std.specs.Bool.{OnTrue, OnFalse};
ghost use Rattle.yaml_event_text.specs.Slots.{IsScalarLine, IsStartLine, IsSlot, IsSlotIn};

use crate::starts::moved;

/// Where a line has room for properties.
#[derive(Clone, Copy)]
pub enum Slot {
    /// Its event takes none.
    Closed,
    /// Behind so many bytes, where it has none yet.
    Behind(usize),
    /// It has some.
    Taken,
}

/// The byte of this place, or else 0, which no line has.
fn byte(text: &[u8], at: usize) -> u8
    ensures { result ≡ get_or text.now at 0 }
{
    match text.get(at) {
        Some(byte) => *byte,
        None => 0,
    }
}

/// The room in a scalar's line, behind `=VAL`.
fn slot_of_scalar(text: &[u8]) -> Slot
    requires { IsScalarLine text.now }
    ensures { IsSlot text.now result }
{
    let sign = byte(text, 5);
    if sign == b'&' || sign == b'<' {
        return Slot::Taken;
    }
    Slot::Behind(4)
}

/// The room in the line of a collection's start, behind `+SEQ` or `+MAP` and the flow mark.
fn slot_of_start(text: &[u8]) -> Slot
    requires { IsStartLine text.now }
    ensures { IsSlot text.now result }
{
    if byte(text, 4) == b'\n' {
        return Slot::Behind(4);
    }
    let mark = byte(text, 5);
    if mark == b'&' || mark == b'<' {
        return Slot::Taken;
    }
    if byte(text, 7) == b'\n' {
        return Slot::Behind(7);
    }
    Slot::Taken
}

/// Whether a text begins with the line of a collection's start.
fn is_start_line(text: &[u8]) -> bool
    ensures yes { OnTrue result (IsStartLine text.now) }
    ensures no { OnFalse result (IsStartLine text.now → ⊥) }
{
    if byte(text, 0) != b'+' {
        return false;
    }
    match byte(text, 1) {
        b'M' => true,
        b'S' => byte(text, 2) == b'E',
        _ => false,
    }
}

/// The room in the line that a text begins with.
fn slot_of(text: &[u8]) -> Slot
    ensures { IsSlot text.now result }
{
    if byte(text, 0) == b'=' && byte(text, 1) == b'V' {
        return slot_of_scalar(text);
    }
    if is_start_line(text) {
        return slot_of_start(text);
    }
    Slot::Closed
}

/// The room in the line that begins at this offset: the offset behind which it is.
pub fn slot_in(text: &[u8], at: usize) -> Slot
    ensures { IsSlotIn text.now at result }
{
    if at > text.len() {
        return Slot::Taken;
    }
    match slot_of(&text[at..]) {
        Slot::Behind(len) => match moved(at, len) {
            Ok(place) => Slot::Behind(place),
            Err(_) => Slot::Taken,
        },
        slot => slot,
    }
}

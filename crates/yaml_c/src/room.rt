//! The room that a caller gives for a text.
ghost use Rattle.std.specs.Prelude.{◌≡◌, ◌<◌, ◌≤◌, ◌+◌, ◌⊎◌, length, true, false};
ghost use Rattle.yaml_message.specs.Words.{fault_message};
ghost use Rattle.yaml_c.specs.Room.{IsGiven, IsShort};
ghost use Rattle.yaml_c.specs.Messages.{ended};

use crate::status::{DONE, SHORT};
use yaml_message::message_of;
use yaml_text::fault::Fault;

/// Reports the length of a text. A buffer of that many bytes has the text if it is long enough.
pub fn tell_length(needed: usize, room: usize, len: &mut usize) -> u32
    ensures status { (result ≡ 0) ⊎ (result ≡ 3) }
    ensures told { len.new ≡ needed }
    ensures given { result ≡ 0 → needed ≤ room }
    ensures short { result ≡ 3 → room < needed }
{
    *len = needed;
    if needed > room {
        return SHORT;
    }
    DONE
}

/// Puts a text at the start of a buffer, if that is large enough. Whether it is.
pub fn put(text: &[u8], out: &mut [u8]) -> bool
    ensures given { result ≡ true → IsGiven text.now out.old out.new (length text.now) }
    ensures short { result ≡ false → IsShort text.now out.old out.new (length text.now) }
{
    if text.len() > out.len() {
        return false;
    }
    out[..text.len()].copy_from_slice(text);
    true
}

/// Puts a text into a caller's buffer if that is large enough, and reports its length.
pub fn put_text(text: &[u8], out: &mut [u8], len: &mut usize) -> u32
    ensures status { (result ≡ 0) ⊎ (result ≡ 3) }
    ensures given { result ≡ 0 → IsGiven text.now out.old out.new len.new }
    ensures short { result ≡ 3 → IsShort text.now out.old out.new len.new }
{
    *len = text.len();
    if put(text, out) { DONE } else { SHORT }
}

/// Puts the message of a fault, which a null byte ends, into a caller's buffer.
pub fn put_message(fault: Fault, out: &mut [u8], len: &mut usize) -> u32
    ensures status { (result ≡ 0) ⊎ (result ≡ 3) }
    ensures given { result ≡ 0 → IsGiven (ended (fault_message fault)) out.old out.new (len.new + 1) }
    ensures short { result ≡ 3 → IsShort (ended (fault_message fault)) out.old out.new (len.new + 1) }
    ensures fits { 128 ≤ length out.old → result ≡ 0 }
{
    let mut text = message_of(fault);
    *len = text.as_str().len();
    text.push_str("\0");
    if put(text.as_str().as_bytes(), out) {
        DONE
    } else {
        SHORT
    }
}

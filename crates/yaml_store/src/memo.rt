//! A small table of the nodes that were met last, by a hash. Whatever it says, what a number stands for is
//! compared before the number is used, so nothing is claimed of tables and hashes.
ghost use Rattle.std.specs.Prelude.{◌+◌, ◌≤◌, length};

use crate::nodes::Kind;
use std::alloc::{AllocError, Global};

/// What a table answers where it has nothing of a hash: no node has this number.
const NONE: u32 = u32::MAX;

/// The lower half of a number.
const LOWER: u64 = 0xffff_ffff;

/// How many places a table has at first.
const PLACES: usize = 256;

/// By how much a table grows.
const GROWTH: usize = 16;

/// How many bytes of the front of a content count for its hash.
const FRONT: usize = 128;

/// How many bytes of a tag's front count for its hash, and how many of its end.
const ENDS: usize = 32;

/// For each place the last number whose hash has it, and above it the lower half of that hash, so that mostly
/// nothing is looked at in vain.
#[derive(Drop)]
pub struct Memo {
    places: Vec<u64>,
    /// How many places there are at most.
    most: usize,
}

impl Memo {
    /// A table of few places, and later of at most so many.
    pub(crate) fn new(alloc: Global, most: usize) -> Result<Memo, AllocError> {
        let mut places = Vec::new(alloc);
        places.resize(PLACES, 0)?;
        Ok(Memo { places, most })
    }

    /// The place of a hash: its upper half, on which all that was mixed tells, scaled to the number of places.
    fn place(&self, hash: u64) -> usize {
        ((hash >> 32).wrapping_mul(self.places.len() as u64) >> 32) as usize
    }

    /// The number of what may be the same.
    pub(crate) fn seen(&self, hash: u64) -> u32 {
        let place = self.place(hash);
        let kept = self.places.get(place).copied().unwrap_or(0);
        if kept >> 32 == hash & LOWER {
            (kept & LOWER) as u32
        } else {
            NONE
        }
    }

    /// The table grows where there is memory for it. What it has is then mostly not found again.
    #[inline(never)]
    fn grow(&mut self) {
        let count = self.places.len().saturating_mul(GROWTH).min(self.most);
        if let Err(_) = self.places.resize(count, 0) {
            self.most = self.places.len();
        }
    }

    /// The number takes its place. There come to be as many places as numbers, up to a limit.
    pub(crate) fn keep(&mut self, hash: u64, number: u32) {
        let place = self.place(hash);
        let count = self.places.len();
        if place < count {
            self.places[place] = (hash << 32) | u64::from(number);
        }
        if number as usize >= count && count < self.most {
            self.grow();
        }
    }
}

/// A hash, and one number more.
fn mixed(hash: u64, number: u64) -> u64 {
    (hash.rotate_left(20) ^ number).wrapping_mul(0x9E37_79B9_7F4A_7C15)
}

/// The eight bytes from this place on, as a number.
fn eight(bytes: &[u8], at: usize) -> u64
    requires { at + 8 ≤ length bytes.now }
{
    u64::from_le_bytes([
        bytes[at],
        bytes[at + 1],
        bytes[at + 2],
        bytes[at + 3],
        bytes[at + 4],
        bytes[at + 5],
        bytes[at + 6],
        bytes[at + 7],
    ])
}

/// The four bytes from this place on, as a number.
fn four(bytes: &[u8], at: usize) -> u64
    requires { at + 4 ≤ length bytes.now }
{
    u64::from(u32::from_le_bytes([bytes[at], bytes[at + 1], bytes[at + 2], bytes[at + 3]]))
}

/// A hash, and the length of a text with its first eight bytes and its last ones: all of sixteen or fewer.
fn with_ends(hash: u64, text: &[u8]) -> u64 {
    let len = text.len();
    let hash = mixed(hash, len as u64);
    if len >= 8 {
        return mixed(mixed(hash, eight(text, 0)), eight(text, len - 8));
    }
    if len >= 4 {
        return mixed(mixed(hash, four(text, 0)), four(text, len - 4));
    }
    let mut number = 0;
    for byte in text {
        number = (number << 8) | u64::from(*byte);
    }
    mixed(hash, number)
}

/// A hash, and all that stands in a long text between its first eight bytes and its last ones: by two hashes in
/// turns, as each number waits for what was mixed before it.
fn with_middle(hash: u64, text: &[u8]) -> u64 {
    let mut hash = hash;
    let mut beside = 0;
    let eights = text.len() / 8;
    for pair in 1..eights.div_ceil(2) {
        hash = mixed(hash, eight(text, 16 * pair - 8));
        beside = mixed(beside, eight(text, 16 * pair));
    }
    if eights > 1 && eights % 2 == 0 {
        hash = mixed(hash, eight(text, 8 * eights - 8));
    }
    hash ^ beside
}

/// A hash of a tag, of which the front, the length and the end count. Tags that differ only elsewhere are told by their texts.
pub(crate) fn hash_tag(tag: &[u8]) -> u64 {
    let len = tag.len();
    let hash = with_ends(0, tag);
    if len <= 2 * ENDS {
        return with_middle(hash, tag);
    }
    let part = len.min(ENDS);
    with_middle(with_middle(hash, &tag[..part]), &tag[len - part..])
}

/// A hash of a tag and a content. Of a long one its front, its length and its end count: those that differ only
/// elsewhere share a place of the table, as others may.
#[inline(always)]
pub(crate) fn hash_text(tag: u32, content: &[u8]) -> u64 {
    let hash = with_ends(u64::from(tag) << 32, content);
    if content.len() > 16 {
        with_middle(hash, &content[..content.len().min(FRONT)])
    } else {
        hash
    }
}

/// A hash of a kind, a tag and parts.
pub(crate) fn hash_parts(kind: Kind, tag: u32, parts: &[u32]) -> u64 {
    let mut hash = u64::from(tag).wrapping_mul(4).wrapping_add(kind as u64);
    for part in parts {
        hash = mixed(hash, u64::from(*part));
    }
    hash
}

//! The numbers of tags. Whatever they say, a tag is compared before its number is used, so nothing is claimed
//! of them.

use crate::no_memory::NoMemory;
use std::alloc::{AllocError, Global};
use std::collections::BTreeMap;
use std::mem;

/// The upper halves of hashes, and the numbers of tags that have them, in front of free places.
type Bucket = [(u32, u32); 8];

/// How many tags a bucket has on average, at most.
const TAKEN: usize = 4;

/// How many buckets there are at first.
const BUCKETS: usize = 16;

/// By how much the buckets grow.
const GROWTH: usize = 4;

/// What stands for a number in a free place.
const NONE: u32 = u32::MAX;

/// Where a tag of some hash stands, if it was met.
pub(crate) enum Found {
    /// It has this number, or is among the others.
    Number(u32),
    /// It was not met.
    Free,
    /// It is among the others.
    Full,
}

/// The numbers of tags by a hash. Only tags that found their bucket full, or another with
/// the same half of a hash, are looked for by their texts, so that no input makes look-ups slow.
#[derive(Drop)]
pub struct TagNumbers {
    buckets: Vec<Bucket>,
    /// How many tags were put into buckets.
    taken: usize,
    others: BTreeMap<String, u32>,
}

/// So many free buckets.
fn free(alloc: Global, count: usize) -> Result<Vec<Bucket>, AllocError> {
    let mut buckets: Vec<Bucket> = Vec::new(alloc);
    buckets.resize(count, [(0, NONE); 8])?;
    Ok(buckets)
}

/// The upper half of a hash, on which all bytes tell.
fn upper(hash: u64) -> u32 {
    (hash >> 32) as u32
}

impl TagNumbers {
    /// No number yet.
    pub(crate) fn new(alloc: Global) -> Result<TagNumbers, AllocError> {
        let buckets = free(alloc, BUCKETS)?;
        Ok(TagNumbers {
            buckets,
            taken: 0,
            others: BTreeMap::new(alloc),
        })
    }

    /// The bucket of the upper half of a hash, which is scaled to the number of buckets.
    fn bucket(&self, half: u32) -> usize {
        (u64::from(half).wrapping_mul(self.buckets.len() as u64) >> 32) as usize
    }

    /// Where a tag of this hash stands.
    pub(crate) fn find(&self, hash: u64) -> Found {
        let half = upper(hash);
        let Some(bucket) = self.buckets.get(self.bucket(half)) else {
            return Found::Full;
        };
        for (kept, number) in bucket {
            if *number == NONE {
                return Found::Free;
            }
            if *kept == half {
                return Found::Number(*number);
            }
        }
        Found::Full
    }

    /// The number of a tag that is among the others, if it was met.
    pub(crate) fn other(&self, tag: &str) -> Option<u32> {
        self.others.get(tag).copied()
    }

    /// Puts a number into a bucket that has room.
    fn put(&mut self, half: u32, number: u32) {
        let place = self.bucket(half);
        let Some(bucket) = self.buckets.get_mut(place) else {
            return;
        };
        for entry in bucket {
            if entry.1 == NONE {
                *entry = (half, number);
                return;
            }
        }
    }

    /// Four times as many buckets. A tag whose bucket is full then is lost, and gets another number if it is met
    /// again.
    fn grow(&mut self, alloc: Global) -> Result<(), NoMemory> {
        let buckets = free(alloc, self.buckets.len().saturating_mul(GROWTH))?;
        for bucket in mem::replace(&mut self.buckets, buckets) {
            for (half, number) in bucket {
                if number != NONE {
                    self.put(half, number);
                }
            }
        }
        Ok(())
    }

    /// The tag of this hash, which was not met, has this number.
    pub(crate) fn keep(&mut self, alloc: Global, hash: u64, number: u32) -> Result<(), NoMemory> {
        self.put(upper(hash), number);
        self.taken = self.taken.saturating_add(1);
        if self.taken / TAKEN > self.buckets.len() {
            self.grow(alloc)?;
        }
        Ok(())
    }

    /// A tag that is to be among the others has this number.
    pub(crate) fn keep_other(
        &mut self,
        alloc: Global,
        tag: &str,
        number: u32,
    ) -> Result<(), NoMemory> {
        let key = String::from_str(alloc, tag)?;
        self.others.insert(key, number)?;
        Ok(())
    }
}

//! What nodes of one height are compared by.
ghost use Rattle.std.specs.Prelude.{◌≡◌, ◌+◌, ◌*◌, ◌<◌, ◌≤◌};
ghost use Rattle.std.specs.List.{All};
ghost use Rattle.yaml_tree.specs.PrefixModel.{front, IsPrefix};
ghost use Rattle.yaml_store_rank.specs.NumberKeys.{joined, four_of, flat};
ghost use Rattle.yaml_store_rank.specs.KeyModel.{inside_cmp, kind_number, IsFrontOf, RanksFit};
ghost use Rattle.yaml_store_rank.specs.SlotModel.{held, is_whole};

use std::cmp::Ordering;

/// What the place of a tag is below.
const PLACES: u32 = 1_073_741_824;

/// A node's kind and the place of its tag in one number, the first bytes of its content or the first
/// ranks of its parts in the halves of another, and the node's number, by which the rest is found. In
/// halves, since one number of 128 bits would make a slot a third longer.
#[derive(Clone, Copy)]
pub(crate) struct Slot {
    pub high: u64,
    pub low: u64,
    pub head: u32,
    pub number: u32,
}

const _: () = prove!(size_of::<Slot>() == 24);

impl Slot {
    /// Whether these are the numbers of a content that they hold whole.
    pub(crate) fn is_whole(&self) -> bool
        ensures { result ≡ is_whole self.now }
    {
        self.head < PLACES && self.low % 256 < 16
    }
}

/// What is inside a node. The derived order is that of nodes of one height with equal tags.
#[derive(PartialEq, Eq, PartialOrd, Ord, Drop)]
pub(crate) enum Rest<'s> {
    Text(&'s [u8]),
    Items(&'s [u32]),
    Entries(&'s [(u32, u32)]),
}

impl Rest<'_> {
    /// How the first stands to the second.
    pub(crate) fn compare(&self, other: &Rest<'_>) -> Ordering
        ensures { result ≡ inside_cmp (held self.now) (held other.now) }
    {
        self.cmp(other)
    }

    /// Which kind of node has this inside: scalars stand before sequences, and these before mappings.
    fn kind(&self) -> u32
        ensures is { result ≡ kind_number (held self.now) }
        ensures small { result ≤ 2 }
    {
        match self {
            Rest::Text(_) => 0,
            Rest::Items(_) => 1,
            Rest::Entries(_) => 2,
        }
    }

    /// The first number of a node with this inside, whose tag stands here in the order of tags.
    pub(crate) fn head(&self, tag: u32) -> u32
        requires { tag < 1073741824 }
        ensures { result ≡ kind_number (held self.now) * 1073741824 + tag }
    {
        self.kind() * PLACES + tag
    }

    /// The second number of a node with this inside, in halves.
    pub(crate) fn front(&self) -> (u64, u64)
        requires { RanksFit (held self.now) }
        ensures { IsFrontOf (held self.now) (joined result.0 result.1) }
    {
        match self {
            Rest::Text(text) => first_bytes(text),
            Rest::Items(ranks) => four_items(ranks),
            Rest::Entries(ranks) => four_in_entries(ranks),
        }
    }
}

/// The first fifteen bytes of a text as a number of base 256, with zeros for those that it lacks, and
/// behind them its length, or 16 where it has more bytes than these: the upper half of that number and
/// the lower.
fn first_bytes(text: &[u8]) -> (u64, u64)
    ensures { IsPrefix text.now (joined result.0 result.1) }
{
    let high = eight_bytes(text);
    let next = if text.len() > 8 {
        eight_bytes(&text[8..])
    } else {
        0
    };
    (high, next / 256 * 256 + text.len().min(16) as u64)
}

/// The first eight bytes of a text as a number of base 256, with zeros for those that it lacks. By
/// patterns, so that those that it has are taken together.
fn eight_bytes(text: &[u8]) -> u64
    ensures { result ≡ front 8 text.now }
{
    match *text {
        [a, b, c, d, e, f, g, h, ..] => u64::from_be_bytes([a, b, c, d, e, f, g, h]),
        [a, b, c, d, e, f, g] => u64::from_be_bytes([a, b, c, d, e, f, g, 0]),
        [a, b, c, d, e, f] => u64::from_be_bytes([a, b, c, d, e, f, 0, 0]),
        [a, b, c, d, e] => u64::from_be_bytes([a, b, c, d, e, 0, 0, 0]),
        [a, b, c, d] => u64::from_be_bytes([a, b, c, d, 0, 0, 0, 0]),
        [a, b, c] => u64::from_be_bytes([a, b, c, 0, 0, 0, 0, 0]),
        [a, b] => u64::from_be_bytes([a, b, 0, 0, 0, 0, 0, 0]),
        [a] => u64::from_be_bytes([a, 0, 0, 0, 0, 0, 0, 0]),
        [] => 0,
    }
}

/// A rank, one more, as the first of two in one number.
fn one(first: u32) -> u64
    requires { first < 4294967295 }
    ensures { result ≡ (first + 1) * 4294967296 }
{
    (u64::from(first) + 1) * 4_294_967_296
}

/// Two ranks, each one more, in one number.
fn two(first: u32, second: u32) -> u64
    requires { (first < 4294967295) × (second < 4294967295) }
    ensures { result ≡ (first + 1) * 4294967296 + (second + 1) }
{
    one(first) + u64::from(second) + 1
}

/// The first four ranks of a list, each one more, in two numbers.
fn four_items(ranks: &[u32]) -> (u64, u64)
    requires { All (λ r. r < 4294967295) ranks.now }
    ensures { joined result.0 result.1 ≡ four_of ranks.now }
{
    match ranks {
        [] => (0, 0),
        [a] => (one(*a), 0),
        [a, b] => (two(*a, *b), 0),
        [a, b, c] => (two(*a, *b), one(*c)),
        [a, b, c, d, ..] => (two(*a, *b), two(*c, *d)),
    }
}

/// The ranks of the first two keys and their values, each one more, in two numbers.
fn four_in_entries(ranks: &[(u32, u32)]) -> (u64, u64)
    requires { All (λ p. (p.0 < 4294967295) × (p.1 < 4294967295)) ranks.now }
    ensures { joined result.0 result.1 ≡ four_of (flat ranks.now) }
{
    match ranks {
        [] => (0, 0),
        [(key, value)] => (two(*key, *value), 0),
        [(key, value), (next, last), ..] => (two(*key, *value), two(*next, *last)),
    }
}

//! How long values may be.

/// How many bytes one value may have: as many as a text that is shown whole.
const ONE: usize = 65_536;

/// How many bytes all values of a comparison may have, 64 MiB: aliases may multiply, and so a node may stand in many differences.
const ALL: usize = 67_108_864;

/// How many bytes of values may still be written in a comparison.
#[derive(Drop)]
pub struct Room {
    bytes: usize,
}

impl Room {
    ghost use Rattle.std.specs.Prelude.{◌≡◌, ◌-◌, min};
    ghost use Rattle.review_paths.specs.Budget.{room_left, one_value, all_values};

    /// The room of one comparison.
    pub fn new() -> Room
        ensures { room_left result ≡ all_values }
    {
        Room { bytes: ALL }
    }

    /// How many bytes the next value may have.
    pub(crate) fn next(&self) -> usize
        ensures { result ≡ min (room_left self.now) one_value }
    {
        self.bytes.min(ONE)
    }

    /// Takes the bytes that were written, whether or not they are a whole value.
    pub(crate) fn take(&mut self, bytes: usize)
        ensures { room_left self.new ≡ room_left self.old - bytes }
    {
        self.bytes = self.bytes.saturating_sub(bytes);
    }
}

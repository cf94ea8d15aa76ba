//! What takes the text of events piece by piece.
ghost use Rattle.std.specs.Prelude.{◌≡◌, ◌≤◌, ◌<◌, ◌+◌, ◌++◌, ℕ, List, length, OnOk, OnErr};

use std::alloc::AllocError;

/// What receives a text piece by piece. It fails if there is no room for a piece.
pub trait Sink {
    // The bytes that it has.
    ghost bytes: { Self → List ℕ };

    // How many bytes it has room for.
    ghost room: { Self → ℕ };

    // Of one that writes into what was lent to it, the reference and the length.
    ghost lent: { Self → ℕ × ℕ };

    /// Takes a piece.
    fn put(&mut self, piece: &str) -> Result<(), AllocError>
        ensures ok { OnOk result (bytes self.new ≡ bytes self.old ++ piece.now) }
        ensures keeps { room self.old ≤ room self.new }
        ensures lent { lent self.new ≡ lent self.old }
        ensures full { OnErr result (room self.old < length (bytes self.old) + length piece.now) };
}

impl Sink for String {
    ghost use Rattle.std.specs.String.{string_bytes, string_capacity};

    ghost bytes = { string_bytes };

    ghost room = { string_capacity };

    ghost lent = { λ _. (0, 0) };

    fn put(&mut self, piece: &str) -> Result<(), AllocError> {
        self.push_str(piece)
    }
}

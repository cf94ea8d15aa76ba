//! What a call answers.

/// The status of a call that did what it was asked; of two streams, that they mean the same.
pub const DONE: u32 = 0;

/// The status where two streams differ.
pub const DIFFERENT: u32 = 1;

/// The status if an input is rejected.
pub const REFUSED: u32 = 2;

/// The status if the buffer for a text is too small.
pub const SHORT: u32 = 3;

/// The status if JSON cannot express a stream.
pub const NO_JSON: u32 = 4;

/// The status if the lines of JSON did not pass their check.
pub const UNLIKE: u32 = 5;

/// The status if there is no memory to find a position.
pub const NO_MEMORY: u32 = 6;

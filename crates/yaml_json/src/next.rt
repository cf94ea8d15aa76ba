//! What a reader has open, and what it reads next.

/// An array or an object.
#[derive(Clone, Copy)]
pub(crate) enum Collection {
    Array,
    Object,
}

/// What is read next, and the bytes from there on.
#[derive(Clone, Copy)]
pub(crate) enum Next<'a> {
    /// A value, after white space.
    Value(&'a [u8]),
    /// What follows a value.
    Rest(&'a [u8]),
    /// Nothing: the text is JSON.
    End,
    /// Nothing: the text is not JSON.
    Fault,
}

//! What a node shows.

/// What is inside a node: its content, its items, or its entries in the order of their keys.
#[derive(Clone, Copy)]
pub enum Inside<'a, I> {
    Scalar(&'a str),
    Sequence(&'a [I]),
    Mapping(&'a [(I, I)]),
}

/// A node's tag, and what is inside it. Parts are named by ids.
#[derive(Clone, Copy)]
pub struct Shown<'a, I> {
    pub tag: &'a str,
    pub inside: Inside<'a, I>,
}

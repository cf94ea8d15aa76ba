//! Block nodes (YAML 1.2.2, 8.2). Each call ends at the start of a line that is no comment; who has opened a collection asks
//! whether that line still belongs to it.
//!
//! A node is read before it is known whether it is a mapping's first key: its own properties stand on its line, and those of
//! the mapping on lines before it, the outer ones. Where a colon follows, the mapping's start with the outer properties is put
//! before the key's events; else both sets are the node's.

mod collections;
mod keys;
mod nodes;
mod scalars;
mod signs;
mod values;
mod words;

pub(crate) use nodes::read_root;
pub(crate) use signs::dash;
pub(crate) use values::read_value;

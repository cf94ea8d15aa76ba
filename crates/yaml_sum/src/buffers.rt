//! The buffers that are kept from file to file.
use std::alloc::Global;

/// The buffers that are kept from file to file.
#[derive(Drop)]
pub(crate) struct Buffers {
    pub(crate) alloc: Global,
    pub(crate) bytes: Vec<u8>,
    pub(crate) text: Vec<u8>,
    pub(crate) line: Vec<u8>,
}

impl Buffers {
    pub(crate) fn new(alloc: Global) -> Buffers {
        Buffers {
            alloc,
            bytes: Vec::new(alloc),
            text: Vec::new(alloc),
            line: Vec::new(alloc),
        }
    }
}

//! Standard output that is a pipe whose reader has ended: as with other tools, nothing more is said.
use std::cell::Cell;
use std::io::{ErrorKind, Result, Write};

/// Standard output, which notes that nobody reads it any more.
#[derive(Drop)]
pub(crate) struct Output<'a, W> {
    pub(crate) inner: W,
    pub(crate) is_unread: &'a Cell<bool>,
}

/// Standard error, to which nothing is written once nobody reads standard output.
#[derive(Drop)]
pub(crate) struct Messages<'a, W> {
    pub(crate) inner: W,
    pub(crate) is_unread: &'a Cell<bool>,
}

impl<W: Write> Write for Output<'_, W> {
    fn write(&mut self, buf: &[u8]) -> Result<usize> {
        let result = self.inner.write(buf);
        if let Err(error) = &result {
            if error.kind() == ErrorKind::BrokenPipe {
                self.is_unread.set(true);
            }
        }
        result
    }

    fn flush(&mut self) -> Result<()> {
        self.inner.flush()
    }
}

impl<W: Write> Write for Messages<'_, W> {
    fn write(&mut self, buf: &[u8]) -> Result<usize> {
        if self.is_unread.get() {
            return Ok(buf.len());
        }
        self.inner.write(buf)
    }

    fn flush(&mut self) -> Result<()> {
        self.inner.flush()
    }
}

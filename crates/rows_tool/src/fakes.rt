//! Streams and files that fail where a test asks.
ghost use Rattle.std.specs.Prelude.{◌≤◌, length};

use std::io;
use std::io::{Read, Write};

fn failure() -> io::Error {
    io::Error::from(io::ErrorKind::Other)
}

/// Gives its bytes and then `zeros` zero bytes, at most `step` a call. The call `bad`, counted from
/// 1 by `calls`, fails.
#[derive(Clone, Copy)]
pub struct Source<'a> {
    pub bytes: &'a [u8],
    pub zeros: u64,
    pub step: usize,
    pub calls: u32,
    pub bad: u32,
}

/// Nothing.
pub const NONE: Source<'static> = Source {
    bytes: b"",
    zeros: 0,
    step: usize::MAX,
    calls: 0,
    bad: 0,
};

impl<'a> Source<'a> {
    /// These bytes, which are read at once and without a fault.
    pub fn over(bytes: &'a [u8]) -> Source<'a> {
        Source {
            bytes,
            zeros: 0,
            step: usize::MAX,
            calls: 0,
            bad: 0,
        }
    }

    fn give_zeros(&mut self, buf: &mut [u8]) -> usize
        ensures { result ≤ length buf.new }
    {
        let room = u64::try_from(buf.len()).unwrap_or(0);
        let count = self.zeros.min(room);
        self.zeros -= count;
        buf.fill(0);
        usize::try_from(count).unwrap_or(0).min(buf.len())
    }
}

impl Read for Source<'_> {
    fn read(&mut self, buf: &mut [u8]) -> io::Result<usize> {
        self.calls = self.calls.wrapping_add(1);
        if self.calls == self.bad {
            return Err(failure());
        }
        if self.bytes.is_empty() {
            return Ok(self.give_zeros(buf));
        }
        let count = self.step.min(buf.len()).min(self.bytes.len());
        buf[..count].copy_from_slice(&self.bytes[..count]);
        self.bytes = &self.bytes[count..];
        Ok(count)
    }
}

/// How a call of a writer goes wrong.
#[derive(Clone, Copy)]
pub enum Broken {
    Fails,
    TakesNothing,
}

/// Takes three bytes a call at most. The call `bad` of a write or a flush, counted from 1, goes
/// wrong.
#[derive(Drop)]
pub struct Narrow<'a> {
    held: &'a mut Vec<u8>,
    calls: u32,
    bad: u32,
    how: Broken,
}

impl<'a> Narrow<'a> {
    /// Goes wrong at the call `bad`, in this way, and adds to the bytes that are held.
    pub fn new(held: &'a mut Vec<u8>, bad: u32, how: Broken) -> Narrow<'a> {
        Narrow {
            held,
            calls: 0,
            bad,
            how,
        }
    }

    fn is_bad(&mut self) -> bool {
        self.calls = self.calls.wrapping_add(1);
        self.calls == self.bad
    }
}

impl Write for Narrow<'_> {
    fn write(&mut self, buf: &[u8]) -> io::Result<usize> {
        if self.is_bad() {
            return match self.how {
                Broken::Fails => Err(failure()),
                Broken::TakesNothing => Ok(0),
            };
        }
        let count = buf.len().min(3);
        self.held.extend_from_slice(&buf[..count])?;
        Ok(count)
    }

    fn flush(&mut self) -> io::Result<()> {
        if self.is_bad() {
            return Err(failure());
        }
        Ok(())
    }
}

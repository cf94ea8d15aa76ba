//! A reader and a writer of the tests' own.
use std::io;
use std::io::{Read, Write};

fn failure() -> io::Error {
    io::Error::from(io::ErrorKind::Other)
}

/// Gives its bytes, at most `step` a call. The call `bad`, counted from 1 by `calls`, fails.
#[derive(Clone, Copy)]
pub struct Source<'a> {
    pub bytes: &'a [u8],
    pub step: usize,
    pub calls: u32,
    pub bad: u32,
}

impl Read for Source<'_> {
    fn read(&mut self, buf: &mut [u8]) -> io::Result<usize> {
        self.calls = self.calls.wrapping_add(1);
        if self.calls == self.bad {
            return Err(failure());
        }
        let count = self.step.min(buf.len()).min(self.bytes.len());
        buf[..count].copy_from_slice(&self.bytes[..count]);
        self.bytes = &self.bytes[count..];
        Ok(count)
    }
}

/// What a writer does with a flush, and with a piece that it has no room for.
#[derive(Clone, Copy)]
pub enum Ending {
    /// It flushes, and fails where there is no room.
    Fails,
    /// It flushes, and takes nothing where there is no room.
    TakesNothing,
    /// It does not flush.
    DoesNotFlush,
}

/// Takes at most `step` bytes a call, and `room` in all. It keeps what it takes, and the length of
/// the longest piece that it was given.
#[derive(Drop)]
pub struct Narrow {
    pub held: Vec<u8>,
    pub longest: usize,
    pub step: usize,
    pub room: usize,
    pub ending: Ending,
}

impl Write for Narrow {
    fn write(&mut self, buf: &[u8]) -> io::Result<usize> {
        self.longest = self.longest.max(buf.len());
        let count = self.step.min(buf.len()).min(self.room);
        if count == 0 {
            return match self.ending {
                Ending::TakesNothing => Ok(0),
                _ => Err(failure()),
            };
        }
        self.held.extend_from_slice(&buf[..count])?;
        self.room -= count;
        Ok(count)
    }

    fn flush(&mut self) -> io::Result<()> {
        match self.ending {
            Ending::DoesNotFlush => Err(failure()),
            _ => Ok(()),
        }
    }
}

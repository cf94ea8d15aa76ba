//! Runs of words over files in memory.
use review_command::command::command_over;
use std::alloc::Global;
use std::io;
use std::io::Write;
use std::process::Abort;
use std::test::Fail;
use yaml_command::shelf::Shelf;

/// Files that are there in each run, by name.
static FILES: [(&str, &[u8]); 2] = [("flow.yaml", b"[a, b]\n"), ("one.yaml", b"- x\n")];

/// These, and names of which an open fails.
#[derive(Clone, Copy)]
struct Files;

impl Shelf for Files {
    type File = &'static [u8];

    fn open(&self, name: &str) -> io::Result<&'static [u8]> {
        match name {
            // As the files of a runtime answer what is no regular file.
            "folder" => return Err(io::Error::from(io::ErrorKind::Unsupported)),
            "one.yaml/a" => return Err(io::Error::from(io::ErrorKind::NotADirectory)),
            "a folder" => return Err(io::Error::from(io::ErrorKind::IsADirectory)),
            "denied" => return Err(io::Error::from(io::ErrorKind::PermissionDenied)),
            _ => {}
        }
        for (file, bytes) in &FILES {
            if *file == name {
                return Ok(*bytes);
            }
        }
        Err(io::Error::from(io::ErrorKind::NotFound))
    }
}

/// A writer that takes so many bytes, and then fails.
#[derive(Drop)]
struct Short<'a> {
    held: &'a mut Vec<u8>,
    room: usize,
}

impl Write for Short<'_> {
    fn write(&mut self, buf: &[u8]) -> io::Result<usize> {
        let count = buf.len().min(self.room);
        if count == 0 {
            return Err(io::Error::from(io::ErrorKind::Other));
        }
        self.held.extend_from_slice(&buf[..count])?;
        self.room -= count;
        Ok(count)
    }

    fn flush(&mut self) -> io::Result<()> {
        Ok(())
    }
}

/// What a run is given: words, a standard input, and how many bytes standard output and standard error take.
#[derive(Clone, Copy)]
pub struct Given<'a> {
    pub words: &'a [&'a str],
    pub input: &'a [u8],
    pub rooms: (usize, usize),
}

/// Room for whatever is written.
pub const ALL: (usize, usize) = (usize::MAX, usize::MAX);

/// What a run answered and wrote.
#[derive(Drop)]
pub struct Ran {
    pub status: u8,
    pub out: String,
    pub err: String,
}

impl Ran {
    /// Asserts what the run of this name answered and wrote.
    pub fn gave<T: Abort>(&self, rt: &T, name: &str, status: u8, out: &str, err: &str) {
        let (got_out, got_err) = (self.out.as_str(), self.err.as_str());
        assert!(rt;
            self.status == status && got_out == out && got_err == err,
            "{name}: {} {got_out:?} {got_err:?}",
            self.status
        );
    }
}

/// Runs the program on what is given.
pub fn run(alloc: Global, given: Given<'_>) -> Result<Ran, Fail> {
    let mut words = Vec::new(alloc);
    for word in given.words {
        words.push(word.to_string(alloc)?)?;
    }
    let (mut held, mut held_err) = (Vec::new(alloc), Vec::new(alloc));
    let out = Short {
        held: &mut held,
        room: given.rooms.0,
    };
    let err = Short {
        held: &mut held_err,
        room: given.rooms.1,
    };
    let status = command_over(&Files, alloc, words.as_slice(), given.input, out, err);
    Ok(Ran {
        status,
        out: String::from_utf8(held)?,
        err: String::from_utf8(held_err)?,
    })
}

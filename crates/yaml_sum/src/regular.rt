//! The files that sums are made of, as a runtime opens them.
use std::rt::Files;
use std::{fs, io};
use yaml_command::shelf::Shelf;

/// The kind of the error of a file that is no regular file, by which it is told of. No call that opens a file answers it.
pub(crate) const NOT_REGULAR: io::ErrorKind = io::ErrorKind::Unsupported;

/// The regular files that a runtime opens, and the list that names them, of which nothing is known.
///
/// What is no regular file is not opened: a pipe without a writer would be waited for for ever, and a
/// folder can't be read. The list may be a pipe, since a shell passes what a command writes as one.
#[derive(Drop)]
pub struct Regular<'a, 'b, T> {
    rt: &'a T,
    list: Option<&'b str>,
}

impl<'a, 'b, T> Regular<'a, 'b, T> {
    ghost use Rattle.std.specs.Prelude.{◌≡◌};

    /// The files of this runtime, with the name of the list, if there is one.
    pub fn new(rt: &'a T, list: Option<&'b str>) -> Regular<'a, 'b, T>
        ensures runtime { result.rt ≡ rt.entry }
        ensures list { result.list ≡ list.entry }
    {
        Regular { rt, list }
    }

    /// Whether a name is that of the list.
    fn is_list(&self, name: &str) -> bool {
        match self.list {
            Some(list) => list == name,
            None => false,
        }
    }
}

impl<T: Files> Shelf for Regular<'_, '_, T> {
    type File = T::File;

    fn open(&self, name: &str) -> io::Result<T::File> {
        let found = fs::metadata(self.rt, name)?;
        if found.is_dir() {
            return Err(io::Error::from(io::ErrorKind::IsADirectory));
        }
        if !found.is_file() && !self.is_list(name) {
            return Err(io::Error::from(NOT_REGULAR));
        }
        fs::open(self.rt, name)
    }
}

//! The files that a runtime opens.
use std::fs::OpenFile;
use std::rt::Files;
use std::{fs, io};
use yaml_command::shelf::Shelf;

/// The files that a runtime opens, of which nothing is known. A folder is not opened.
#[derive(Drop)]
pub struct Host<'a, T> {
    rt: &'a T,
}

impl<'a, T> Host<'a, T> {
    /// The files of this runtime.
    pub fn new(rt: &'a T) -> Host<'a, T> {
        Host { rt }
    }
}

impl<T: Files> Shelf for Host<'_, T> {
    type File = T::File;

    fn open(&self, name: &str) -> io::Result<T::File> {
        let file = fs::open(self.rt, name)?;
        if file.metadata()?.is_dir() {
            return Err(io::Error::from(io::ErrorKind::IsADirectory));
        }
        Ok(file)
    }
}

//! Files by name.
use std::io::Read;
use std::rt::Files;
use std::{fs, io};

/// Files by name. Of some it may be known what they hold.
pub trait Shelf {
    ghost use Rattle.std.specs.Prelude.{◌≡◌, ℕ, List, Option, Some, None, IfSome, IfOk, IfErr};

    type File: Read + Drop;

    // What the file of a name holds, where that is known.
    ghost holds: { Self → List ℕ → Option (List ℕ) } = { λ _ _. None };

    /// The file of this name, from its start. One of which it is known what it holds is opened.
    fn open(&self, name: &str) -> io::Result<Self::File>
        ensures gives { IfOk result (λ file. IfSome (holds self.now name.now) (λ bytes. Self.File.remaining file ≡ Some bytes)) }
        ensures there { IfErr result (λ _. holds self.now name.now ≡ None) };
}

/// The files that a runtime opens, of which nothing is known.
#[derive(Drop)]
pub struct Host<'a, T> {
    rt: &'a T,
}

impl<'a, T> Host<'a, T> {
    /// The files of this runtime.
    pub fn new(rt: &'a T) -> Host<'a, T> {
        Host { rt }
    }
}

impl<T: Files> Shelf for Host<'_, T> {
    type File = T::File;

    fn open(&self, name: &str) -> io::Result<T::File> {
        fs::open(self.rt, name)
    }
}

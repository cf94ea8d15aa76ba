//! Why a file cannot be opened.
ghost use Rattle.std.specs.Prelude.{◌≡◌};
ghost use Rattle.yaml_sum.specs.Complaints.{reason_for};

use std::io::ErrorKind;

/// Why a file cannot be opened.
#[derive(Clone, Copy, Debug, PartialEq, Eq)]
pub enum Reason {
    /// No file has this name.
    NotFound,
    /// The permissions of the file, or of a folder on its path, do not allow it.
    Denied,
    /// It is a folder.
    Folder,
    /// A part of its path that has to be a folder is none.
    NoFolder,
    /// Its name is not UTF-8, and no such file is opened.
    NotUtf8,
    /// The system refused for another reason.
    Other,
}

impl Reason {
    ghost use Rattle.std.specs.Prelude.{◌≡◌};
    ghost use Rattle.yaml_sum.specs.Complaints.{reason_by, reason_words};

    /// The reason of an error of opening.
    pub fn of(kind: ErrorKind) -> Reason
        ensures { result ≡ reason_by kind }
    {
        match kind {
            ErrorKind::NotFound => Reason::NotFound,
            ErrorKind::PermissionDenied => Reason::Denied,
            ErrorKind::IsADirectory => Reason::Folder,
            ErrorKind::NotADirectory => Reason::NoFolder,
            _ => Reason::Other,
        }
    }

    /// The reason in words, to follow `cannot open: `.
    pub fn words(self) -> &'static str
        ensures { result.now ≡ reason_words self }
    {
        match self {
            Reason::NotFound => "not found",
            Reason::Denied => "permission denied",
            Reason::Folder => "it is a folder",
            Reason::NoFolder => "a part of its path is not a folder",
            Reason::NotUtf8 => "its name is not UTF-8",
            Reason::Other => "the system refused",
        }
    }
}

/// Why the file of a name is not opened, by the kind of the error. Bytes of a word that are not UTF-8 are given as NUL, which no name
/// of a file has.
pub fn reason_of(name: &[u8], kind: ErrorKind) -> Reason
    ensures { result ≡ reason_for name.now kind }
{
    if name.contains(&0) {
        Reason::NotUtf8
    } else {
        Reason::of(kind)
    }
}

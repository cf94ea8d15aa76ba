//! A name of a file in two folders.
ghost use Rattle.std.specs.Prelude.{◌≡◌, ◌++◌, ◌⊎◌, true, false, codes, IfOk, string_bytes, cond};
ghost use Rattle.review_reports.specs.Folders.{IsPath};

use std::alloc::{AllocError, Global};

/// Which of two folders have a file of a name.
#[derive(Clone, Copy, Debug, PartialEq, Eq)]
pub enum Has {
    Left,
    Both,
    Right,
}

impl Has {
    ghost use Rattle.std.specs.Prelude.{◌≡◌};
    ghost use Rattle.review_reports.specs.Names.{is_left, is_right};

    /// Whether the left folder has it.
    pub(crate) fn is_left(self) -> bool
        ensures { result ≡ is_left self }
    {
        matches!(self, Has::Left | Has::Both)
    }

    /// Whether the right folder has it.
    pub(crate) fn is_right(self) -> bool
        ensures { result ≡ is_right self }
    {
        matches!(self, Has::Both | Has::Right)
    }
}

/// The name of a file, as its path from the folder, and which folders have it.
#[derive(Clone, Copy)]
pub struct Entry<'n> {
    pub name: &'n str,
    pub has: Has,
}

/// The path of what has this name in a folder.
pub(crate) fn path_in(alloc: Global, folder: &str, name: &str) -> Result<String, AllocError>
    ensures ok { IfOk result (λ path. IsPath folder.now name.now (string_bytes path)) }
{
    let mut path = folder.to_string(alloc)?;
    if !folder.ends_with('/') {
        path.push('/')?;
    }
    path.push_str(name)?;
    Ok(path)
}

/// Whether two files have the same bytes.
pub(crate) fn are_equal(left: &[u8], right: &[u8]) -> bool
    ensures same { result ≡ true → left.now ≡ right.now }
    ensures differ { result ≡ false → left.now ≡ right.now → ⊥ }
{
    left == right
}

/// The status of two files that are the same, or differ.
pub(crate) fn status_of(same: bool) -> u8
    ensures { result ≡ cond same 0 1 }
{
    if same { 0 } else { 1 }
}

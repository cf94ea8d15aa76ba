//! The names of the files in two folders.
ghost use Rattle.std.specs.Prelude.{◌≡◌, ◌≤◌, [], cond, drop, IfSome, IfNone, IfErr};
ghost use Rattle.std.specs.List.{list_any};
ghost use Rattle.review_patterns.specs.Globs.{begins_with_dot, fits_glob};
ghost use Rattle.review_reports.specs.Names.{IsNext, IsNearer};

use crate::entry::{Entry, Has, path_in};
use review_files::telling::{put_line, tell_unread};
use review_files::unread::Unread;
use review_patterns::fits_glob;
use review_text::options::Diff;
use std::alloc::{AllocError, Global};
use std::cmp::Ordering;
use std::io::Write;
use std::rt::Files;
use std::{fs, io};
use yaml_sum::reason::reason_of;
use yaml_text::fault::Fault;

/// What is said of two folders without files.
const NOTHING: &str =
    "yamlreview: nothing is compared: neither folder has a file that matches --include (*.yaml, *.yml, *.json if none is given)\n";

/// Whether a name is that of a folder.
fn is_folder<T: Files>(rt: &T, name: &str) -> bool {
    match fs::metadata(rt, name) {
        Ok(found) => found.is_dir(),
        Err(_) => false,
    }
}

/// Whether two folders are compared.
pub fn are_folders<T: Files>(rt: &T, asked: &Diff<'_>) -> bool {
    is_folder(rt, asked.left) && is_folder(rt, asked.right)
}

/// Why a folder is not read.
fn unread(name: &str, error: io::Error) -> Unread {
    Unread::CannotOpen(reason_of(name.as_bytes(), error.kind()))
}

/// Why memory is refused, of what is read of a folder.
fn refused<E: Drop>(_error: E) -> Unread {
    Unread::Fault(Fault::OutOfMemory)
}

/// Names of a folder, each as its path from the folder.
#[derive(Drop)]
struct Names {
    files: Vec<String>,
    /// The folders in it that are still to be read, each with a slash behind it.
    folders: Vec<String>,
}

/// Whether a name is that of a file or folder that is hidden.
fn is_hidden(name: &str) -> bool
    ensures { result ≡ begins_with_dot name.now }
{
    name.as_bytes().starts_with(b".")
}

/// Whether one of the globs stands for a name.
fn is_included(globs: &[&str], name: &str) -> bool
    ensures { result ≡ list_any (λ glob. fits_glob glob.now name.now) globs.now }
{
    globs.iter().any(|glob| fits_glob(glob, name))
}

/// Adds the names in a folder, which has this path from the first one: those for which one of the globs stands. A folder that is
/// hidden is left out, a link to a folder is not followed, and what is neither a regular file nor a folder is left out.
fn add_names<T: Files + AllocGlobal + Clone + Drop>(
    rt: &T,
    alloc: Global,
    top: &str,
    below: &str,
    globs: &[&str],
    names: &mut Names,
) -> Result<(), Unread> {
    let path = path_in(alloc, top, below).map_err(refused)?;
    let entries = match fs::read_dir(rt, path.as_str()) {
        Ok(entries) => entries,
        Err(error) => return Err(unread(top, error)),
    };
    for entry in entries {
        let entry = match entry {
            Ok(entry) => entry,
            Err(error) => return Err(unread(top, error)),
        };
        let mut name = below.to_string(alloc).map_err(refused)?;
        name.push_str(entry.file_name()).map_err(refused)?;
        let is_folder = match entry.file_type() {
            Ok(found) => found.is_dir(),
            Err(_) => false,
        };
        if is_folder {
            if !is_hidden(entry.file_name()) {
                name.push('/').map_err(refused)?;
                names.folders.push(name).map_err(refused)?;
            }
        } else if is_included(globs, entry.file_name()) && is_file(rt, alloc, top, name.as_str())? {
            names.files.push(name).map_err(refused)?;
        }
    }
    Ok(())
}

/// Whether a name in a folder is that of a regular file, or of a link to one.
fn is_file<T: Files>(rt: &T, alloc: Global, top: &str, name: &str) -> Result<bool, Unread> {
    let path = path_in(alloc, top, name).map_err(refused)?;
    match fs::metadata(rt, path.as_str()) {
        Ok(found) => Ok(found.is_file()),
        Err(_) => Ok(false),
    }
}

/// The names of the files in a folder and in the folders in it for which one of the globs stands, in order.
fn names_in<T: Files + AllocGlobal + Clone + Drop>(
    rt: &T,
    alloc: Global,
    top: &str,
    globs: &[&str],
) -> Result<Vec<String>, Unread> {
    let mut names = Names {
        files: Vec::new(alloc),
        folders: Vec::new(alloc),
    };
    add_names(rt, alloc, top, "", globs, &mut names)?;
    // The walk ends when no folder is left.
    for _ in 0..usize::MAX {
        let Some(below) = names.folders.pop() else {
            break;
        };
        add_names(rt, alloc, top, below.as_str(), globs, &mut names)?;
    }
    names.files.sort_unstable();
    Ok(names.files)
}

/// The lesser of a left and a right name, or both if they are equal.
fn nearer<'n>(left: &'n str, right: &'n str) -> Entry<'n>
    ensures { IsNearer left.now right.now result.has result.name.now }
{
    match left.cmp(right) {
        Ordering::Less => entry(left, Has::Left),
        Ordering::Equal => entry(left, Has::Both),
        Ordering::Greater => entry(right, Has::Right),
    }
}

/// The next name of two lists in order: of the left one, of both, or of the right one.
fn next_of<'n>(left: &'n [String], right: &'n [String]) -> Option<Entry<'n>>
    ensures some { IfSome result (λ next. IsNext left.now right.now next.has next.name.now) }
    ensures none { IfNone result ((left.now ≡ []) × (right.now ≡ [])) }
{
    match left.first() {
        Some(one) => match right.first() {
            Some(other) => Some(nearer(one.as_str(), other.as_str())),
            None => Some(entry(one.as_str(), Has::Left)),
        },
        None => match right.first() {
            Some(other) => Some(entry(other.as_str(), Has::Right)),
            None => None,
        },
    }
}

/// A name that these folders have.
fn entry<'n>(name: &'n str, has: Has) -> Entry<'n>
    ensures name { result.name.now ≡ name.now }
    ensures has { result.has ≡ has }
{
    Entry { name, has }
}

/// A list without its first name.
fn behind<'n>(names: &'n [String]) -> &'n [String]
    ensures { result.now ≡ drop 1 names.now }
{
    match names.split_first() {
        Some((_, rest)) => rest,
        None => names,
    }
}

/// A list without its first name, if that was taken.
fn left_behind<'n>(names: &'n [String], is_taken: bool) -> &'n [String]
    ensures { result.now ≡ cond is_taken (drop 1 names.now) names.now }
{
    if is_taken { behind(names) } else { names }
}

/// The names of the files in two folders, each list in order.
#[derive(Drop)]
pub struct BothNames {
    left: Vec<String>,
    right: Vec<String>,
}

impl BothNames {
    ghost use Rattle.std.specs.Prelude.{◌≡◌, IfOk, IfErr};
    ghost use Rattle.review_reports.specs.Names.{HaveNames};

    /// The names in order, each once. An error is want of memory.
    pub fn entries(&self, alloc: Global) -> Result<Vec<Entry<'_>>, AllocError>
        ensures names { IfOk result (λ entries. HaveNames self.now.left.items self.now.right.items entries.items) }
    {
        let mut left = self.left.as_slice();
        let mut right = self.right.as_slice();
        let mut entries = Vec::new(alloc);
        // Each round takes a name away, and the last one finds none.
        for _ in 0..usize::MAX {
            let Some(next) = next_of(left, right) else {
                break;
            };
            left = left_behind(left, next.has.is_left());
            right = left_behind(right, next.has.is_right());
            entries.push(next)?;
        }
        Ok(entries)
    }
}

/// The names of the files in both folders for which one of the globs stands. Why a folder is not read goes to standard error; the status
/// is given. If there is no such file, a line there says so.
pub fn names_of<T: Files + AllocGlobal + Clone + Drop, E: Write>(
    rt: &T,
    alloc: Global,
    asked: &Diff<'_>,
    globs: &[&str],
    err: &mut E,
) -> Result<BothNames, u8>
    ensures status { IfErr result (λ status. 2 ≤ status) }
{
    let left = match names_in(rt, alloc, asked.left, globs) {
        Ok(names) => names,
        Err(unread) => return Err(tell_unread(alloc, asked.left, unread, err)),
    };
    let right = match names_in(rt, alloc, asked.right, globs) {
        Ok(names) => names,
        Err(unread) => return Err(tell_unread(alloc, asked.right, unread, err)),
    };
    if left.is_empty() && right.is_empty() {
        put_line(NOTHING, err);
    }
    Ok(BothNames { left, right })
}

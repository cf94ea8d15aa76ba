//! The names of a list.
ghost use Rattle.std.specs.Prelude.{◌≡◌, ◌++◌, map, option_map, OnOk, IfOk};
ghost use Rattle.yaml_sum.specs.Names.{end_in, names_in, named, IsCut};

use std::alloc::{AllocError, Global};

/// What ends a name in this list: a null byte if there is one, else a line feed.
fn end_in(list: &[u8]) -> u8
    ensures { result ≡ end_in list.now }
{
    if list.contains(&0) { 0 } else { b'\n' }
}

/// A list up to its first end, and what is behind that end.
pub(crate) fn cut(list: &[u8], end: u8) -> (&[u8], Option<&[u8]>)
    ensures { IsCut end list.now result.0.now (option_map (λ s. s.now) result.1) }
{
    let mut at = 0;
    'bytes: while at < list.len() {
        if list[at] == end {
            return (&list[..at], Some(&list[at + 1..]));
        }
        at += 1;
    }
    (list, None)
}

/// Puts a name behind others, unless it is empty.
fn add<'a>(names: &mut Vec<&'a [u8]>, name: &'a [u8]) -> Result<(), AllocError>
    ensures ok { OnOk result (map (λ s. s.now) names.new.items ≡ map (λ s. s.now) names.old.items ++ named name.now) }
{
    if !name.is_empty() {
        names.push(name)?;
    }
    Ok(())
}

/// The names of a list, each ended by a null byte if there is one, else by a line feed; the last one
/// may have no end. Empty ones are left out.
pub(crate) fn names_in(alloc: Global, list: &[u8]) -> Result<Vec<&[u8]>, AllocError>
    ensures ok { IfOk result (λ v. map (λ s. s.now) v.items ≡ names_in list.now) }
{
    let end = end_in(list);
    let mut names = Vec::new(alloc);
    let mut rest = list;
    'pieces: loop {
        let (piece, behind) = cut(rest, end);
        add(&mut names, piece)?;
        match behind {
            Some(more) => rest = more,
            None => return Ok(names),
        }
    }
}

/// The same of names that are given one by one.
pub(crate) fn names_of<'a>(alloc: Global, words: &[&'a str]) -> Result<Vec<&'a [u8]>, AllocError>
    ensures ok { IfOk result (λ v. map (λ s. s.now) v.items ≡ map (λ s. s.now) words.now) }
{
    let mut names = Vec::new(alloc);
    'words: for word in words {
        names.push(word.as_bytes())?;
    }
    Ok(names)
}

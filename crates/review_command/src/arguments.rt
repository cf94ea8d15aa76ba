//! The program's own words, and what its environment says of colour.
ghost use Rattle.std.specs.Prelude.{◌≡◌, ◌&&◌, ◌||◌, not, IfOk, string_bytes};
ghost use Rattle.std.specs.Str.{IsUtf8};
ghost use Rattle.review_command.specs.Environment.{is_set};

use std::alloc::{AllocError, Global};
use std::env::FillError;
use std::rt::Env;
use std::str;
use yaml_args::WordsFault;

/// The room that is first given for a word, in bytes.
const ROOM: usize = 4_096;

/// What is put for each byte of a word that is not UTF-8. No name of a file has it, so that no file is opened by such a word.
const NOT_TEXT: char = '\0';

/// A word's bytes as text.
fn text_of(alloc: Global, bytes: &[u8]) -> Result<String, AllocError>
    ensures { IsUtf8 bytes.now → IfOk result (λ text. string_bytes text ≡ bytes.now) }
{
    if let Ok(text) = str::from_utf8(bytes) {
        return text.to_string(alloc);
    }
    let mut text = String::new(alloc);
    for chunk in bytes.utf8_chunks() {
        text.push_str(chunk.valid())?;
        for _ in chunk.invalid() {
            text.push(NOT_TEXT)?;
        }
    }
    Ok(text)
}

/// The word of this number, if there is one. The room is doubled until the word has enough.
fn word<E: Env>(env: &E, alloc: Global, number: usize) -> Result<Option<String>, WordsFault> {
    let mut room = ROOM;
    for _ in 0..usize::BITS {
        let mut bytes = vec![in alloc; 0u8; room]?;
        match env.arg(number, &mut bytes) {
            Ok(len) => return Ok(Some(text_of(alloc, bytes.get(..len).unwrap_or(&[]))?)),
            Err(FillError::NotPresent) => return Ok(None),
            Err(FillError::TooLong) => room = room.saturating_mul(2),
        }
    }
    Err(WordsFault::OutOfMemory)
}

/// The words that the program is called with, behind its own name. A word that is not UTF-8 has NUL for each byte that is not: it
/// names no file, and the other words are as they are. An error is want of memory.
pub fn words_of<E: Env>(env: &E, alloc: Global) -> Result<Vec<String>, WordsFault> {
    let mut words = Vec::new(alloc);
    for number in 1..usize::MAX {
        match word(env, alloc, number)? {
            Some(word) => words.push(word).map_err(AllocError::from)?,
            None => break,
        }
    }
    Ok(words)
}

/// Whether a variable of the environment has a value that is not empty, by what is answered where there is little room for it.
fn is_set(answer: Result<usize, FillError>) -> bool
    ensures { result ≡ is_set answer }
{
    match answer {
        Ok(len) => len > 0,
        Err(FillError::TooLong) => true,
        Err(FillError::NotPresent) => false,
    }
}

/// Whether a variable of the environment has a value that is not empty.
fn has_value<E: Env>(env: &E, name: &str) -> bool {
    is_set(env.var(name, &mut [0; 8]))
}

/// Whether lines are in colour, by whether these are set or so: `NO_COLOR`, a terminal, `GIT_PAGER_IN_USE`.
fn is_colored(is_plain: bool, is_terminal: bool, is_paged: bool) -> bool
    ensures { result ≡ (not is_plain && (is_terminal || is_paged)) }
{
    !is_plain && (is_terminal || is_paged)
}

/// Whether lines are in colour unless the words say otherwise: on a terminal, and where git passes them on to one, but not with
/// `NO_COLOR`.
pub fn has_color<E: Env>(env: &E, is_terminal: bool) -> bool {
    is_colored(
        has_value(env, "NO_COLOR"),
        is_terminal,
        has_value(env, "GIT_PAGER_IN_USE"),
    )
}

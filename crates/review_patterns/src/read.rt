//! Patterns from their texts.
ghost use Rattle.std.specs.Prelude.{◌≡◌, ◌<◌, ◌≤◌, ◌++◌, ◌∷◌, [], ℕ, true, List, length, map, take, Some, IfOk, IfSome, IfNone, IsSome};
ghost use Rattle.std.specs.List.{flat_map};
ghost use Rattle.std.specs.Str.{IsUtf8};
ghost use Rattle.review_patterns.specs.Grammar.{IsNamed, IsBracketed, IsStep, AreSteps, is_document, begins_with, at_step};
ghost use Rattle.review_patterns.specs.Patterns.{steps_of, Begins, IsPattern};

use crate::bracket::{bracket_len, is_bracketed};
use crate::name::{Class, front_len, name_len};
use crate::pattern::Pattern;
use crate::place::is_place;
use std::alloc::{AllocError, Global};

/// The text of a stream's one document.
const DOCUMENT: &str = ".";

/// Whether this is the step for a document.
fn is_document(text: &[u8]) -> bool
    ensures { result ≡ is_document text.now }
{
    text.is_empty() || text == b"*".as_slice() || is_place(text)
}

/// Whether a text begins with this byte.
fn begins_with(byte: u8, text: &[u8]) -> bool
    ensures { result ≡ begins_with byte text.now }
{
    match text.split_first() {
        Some((first, _)) => *first == byte,
        None => false,
    }
}

/// Behind a `[`, how many bytes the rest of the step has.
fn bracketed_len(text: &[u8]) -> Option<usize>
    ensures step { IfSome result (λ n. (n ≤ length text.now) × IsBracketed (take n text.now)) }
    ensures whole { (rest more : List ℕ) → IsBracketed rest → text.now ≡ rest ++ more → result ≡ Some (length rest) }
{
    let len = bracket_len(text)?;
    if is_bracketed(&text[..len]) {
        Some(len)
    } else {
        None
    }
}

/// Behind a `.`, how many bytes the rest of the step has.
fn named_len(text: &[u8]) -> Option<usize>
    ensures step { IfSome result (λ n. (n ≤ length text.now) × IsNamed (take n text.now)) }
    ensures whole { (rest more : List ℕ) → IsNamed rest → at_step more ≡ true → text.now ≡ rest ++ more → result ≡ Some (length rest) }
{
    if begins_with(b'*', text) {
        return Some(1);
    }
    let len = name_len(text);
    if 0 < len { Some(len) } else { None }
}

/// Behind the first byte of a step, how many bytes the rest of it has.
fn rest_len(first: u8, text: &[u8]) -> Option<usize>
    ensures step { IfSome result (λ n. (n ≤ length text.now) × IsStep (first ∷ take n text.now)) }
    ensures whole { (rest more : List ℕ) → IsStep (first ∷ rest) → at_step more ≡ true → text.now ≡ rest ++ more → result ≡ Some (length rest) }
{
    match first {
        b'.' => named_len(text),
        b'[' => bracketed_len(text),
        _ => None,
    }
}

/// How many bytes the first of a text's steps has, if it begins with one.
fn step_len(text: &[u8]) -> Option<usize>
    ensures step { IfSome result (λ n. (0 < n) × (n ≤ length text.now) × IsStep (take n text.now)) }
    ensures whole { (step more : List ℕ) → IsStep step → at_step more ≡ true → text.now ≡ step ++ more → result ≡ Some (length step) }
{
    let (first, rest) = text.split_first()?;
    Some(rest_len(*first, rest)? + 1)
}

/// The first of a text's steps, and what is behind it.
fn split_step(text: &str) -> Option<(&str, &str)>
    ensures split { IfSome result (λ parts. text.now ≡ parts.0.now ++ parts.1.now) }
    ensures less { IfSome result (λ parts. length parts.1.now < length text.now) }
    ensures utf8 { IfSome result (λ parts. IsUtf8 parts.1.now) }
    ensures step { IfSome result (λ parts. IsStep parts.0.now) }
    ensures whole { (step more : List ℕ) → IsStep step → at_step more ≡ true → text.now ≡ step ++ more → IsSome result × IfSome result (λ parts. parts.1.now ≡ more) }
{
    text.split_at_checked(step_len(text.as_bytes())?)
}

/// The steps behind that for the document.
fn read_steps<'a>(
    alloc: Global,
    document: &'a str,
    text: &'a str,
) -> Result<Option<Pattern<'a>>, AllocError>
    ensures some { IfOk result (λ read. IfSome read (λ pattern. Begins document.now text.now (steps_of pattern))) }
    ensures none { IfOk result (λ read. IfNone read ((steps : List (List ℕ)) → AreSteps steps → text.now ≡ flat_map (λ step. step) steps → ⊥)) }
{
    let mut steps = Vec::new(alloc);
    steps.push(document)?;
    let mut rest = text;
    'steps: while !rest.is_empty() {
        let Some((step, more)) = split_step(rest) else {
            return Ok(None);
        };
        steps.push(step)?;
        rest = more;
    }
    Ok(Some(Pattern { steps }))
}

/// The step for the document, and what is behind it.
fn split_document(text: &str) -> Option<(&str, &str)>
    ensures some { IfSome result (λ parts. (is_document parts.0.now ≡ true) × (text.now ≡ parts.0.now ++ parts.1.now)) }
    ensures whole { (document more : List ℕ) → is_document document ≡ true → at_step more ≡ true → text.now ≡ document ++ more → IsSome result × IfSome result (λ parts. parts.1.now ≡ more) }
{
    let parts = text.split_at_checked(front_len(Class::Document, text.as_bytes()))?;
    if is_document(parts.0.as_bytes()) {
        Some(parts)
    } else {
        None
    }
}

/// Reads a pattern: the step for the document, which may be left out, and then one step after another.
///
/// A step is the text of one as `diff` prints it, or stands for any step: `.*` or `[*]`, and for the document `*`. `.` is each document
/// itself. Of another text there is no pattern.
pub fn read_pattern<'a>(alloc: Global, text: &'a str) -> Result<Option<Pattern<'a>>, AllocError>
    ensures some { IfOk result (λ read. IfSome read (λ pattern. IsPattern text.now (steps_of pattern))) }
    ensures none { IfOk result (λ read. IfNone read ((steps : List (List ℕ)) → IsPattern text.now steps → ⊥)) }
{
    if text.is_empty() {
        return Ok(None);
    }
    if text == DOCUMENT {
        return read_steps(alloc, "", "");
    }
    match split_document(text) {
        Some((document, steps)) => read_steps(alloc, document, steps),
        None => Ok(None),
    }
}

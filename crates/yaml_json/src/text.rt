//! Values and texts (RFC 8259, 2 to 5). What is open is kept in a list, so the stack does not grow with the nesting.
ghost use Rattle.std.specs.Prelude.{◌≡◌, ◌≤◌, ◌<◌, ◌⊎◌, ◌+◌, ◌∷◌, ◌++◌, [], List, ℕ, false, length, IfSome, IfNone, IfOk, IsTrue};
ghost use Rattle.yaml_json.specs.Json.{is_white, Ws, Str, IsJson, colon, left-curly-bracket, left-square-bracket};
ghost use Rattle.yaml_json.specs.Reading.{begins, Only, No, Scalar, ScalarTo, GoesAt, Ends, GoesOn, left};
ghost use Rattle.yaml_json.specs.declared.next.Next.TheVariants as next;
ghost use Rattle.yaml_json.specs.declared.next.Collection.TheVariants as collections;

use crate::bytes::{after_byte, after_white, after_word};
use crate::next::{Collection, Next};
use crate::number::after_number;
use crate::string::after_string;
use std::alloc::{AllocError, Global};

/// The bytes after a value that is no array and no object.
fn after_scalar(bytes: &[u8]) -> Option<&[u8]>
    ensures some { IfSome result (λ rest. Scalar bytes.now rest.now) }
    ensures only { IfSome result (λ rest. Only (ScalarTo bytes.now) rest.now) }
    ensures none { IfNone result (No (ScalarTo bytes.now)) }
{
    if let Some(rest) = after_string(bytes) {
        return Some(rest);
    }
    if let Some(rest) = after_number(bytes) {
        return Some(rest);
    }
    if let Some(rest) = after_word(bytes, b"false") {
        return Some(rest);
    }
    if let Some(rest) = after_word(bytes, b"null") {
        return Some(rest);
    }
    let rest = after_word(bytes, b"true")?;
    Some(rest)
}

/// The bytes after the name of a member and its colon.
fn after_name(bytes: &[u8]) -> Option<&[u8]>
    ensures some { IfSome result (λ rest. (t : List ℕ) × Str bytes.now t × Ws t (colon ∷ rest.now)) }
    ensures only { IfSome result (λ rest. Only (λ r. (t : List ℕ) × Str bytes.now t × Ws t (colon ∷ r)) rest.now) }
    ensures none { IfNone result (No (λ r. (t : List ℕ) × Str bytes.now t × Ws t (colon ∷ r))) }
{
    let colon = after_string(bytes)?;
    let rest = after_byte(after_white(colon), b':')?;
    Some(rest)
}

/// Goes on after the `[` of an array.
fn begin_array<'a>(around: &mut Vec<Collection>, bytes: &'a [u8]) -> Result<Next<'a>, AllocError>
    ensures reads { IfOk result (λ n. GoesOn around.new.items n → GoesAt around.old.items (left-square-bracket ∷ bytes.now)) }
    ensures only { IfOk result (λ n. GoesAt around.old.items (left-square-bracket ∷ bytes.now) → GoesOn around.new.items n) }
    ensures less { IfOk result (λ n. left n ≤ length bytes.now + 1) }
{
    let inside = after_white(bytes);
    if let Some(rest) = after_byte(inside, b']') {
        return Ok(Next::Rest(rest));
    }
    around.push(Collection::Array)?;
    Ok(Next::Value(inside))
}

/// Goes on after the `{` of an object.
fn begin_object<'a>(around: &mut Vec<Collection>, bytes: &'a [u8]) -> Result<Next<'a>, AllocError>
    ensures reads { IfOk result (λ n. GoesOn around.new.items n → GoesAt around.old.items (left-curly-bracket ∷ bytes.now)) }
    ensures only { IfOk result (λ n. GoesAt around.old.items (left-curly-bracket ∷ bytes.now) → GoesOn around.new.items n) }
    ensures less { IfOk result (λ n. left n ≤ length bytes.now + 1) }
{
    let inside = after_white(bytes);
    if let Some(rest) = after_byte(inside, b'}') {
        return Ok(Next::Rest(rest));
    }
    let Some(value) = after_name(inside) else {
        return Ok(Next::Fault);
    };
    around.push(Collection::Object)?;
    Ok(Next::Value(value))
}

/// Goes on where a value is read next.
fn after_begin<'a>(around: &mut Vec<Collection>, bytes: &'a [u8]) -> Result<Next<'a>, AllocError>
    ensures reads { IfOk result (λ n. GoesOn around.new.items n → GoesAt around.old.items bytes.now) }
    ensures only { IfOk result (λ n. GoesAt around.old.items bytes.now → GoesOn around.new.items n) }
    ensures less { IfOk result (λ n. left n ≤ length bytes.now) }
{
    let start = after_white(bytes);
    if let Some(rest) = after_scalar(start) {
        return Ok(Next::Rest(rest));
    }
    if let Some(inside) = after_byte(start, b'[') {
        let next = begin_array(around, inside)?;
        return Ok(next);
    }
    if let Some(inside) = after_byte(start, b'{') {
        let next = begin_object(around, inside)?;
        return Ok(next);
    }
    Ok(Next::Fault)
}

/// Goes on after an item of an array, without white space: this array is no longer in the list.
fn after_item<'a>(around: &mut Vec<Collection>, bytes: &'a [u8]) -> Result<Next<'a>, AllocError>
    requires { begins is_white bytes.now ≡ false }
    ensures reads { IfOk result (λ n. GoesOn around.new.items n → Ends (around.old.items ++ collections.Array ∷ []) bytes.now) }
    ensures only { IfOk result (λ n. Ends (around.old.items ++ collections.Array ∷ []) bytes.now → GoesOn around.new.items n) }
    ensures less { IfOk result (λ n. left n ≤ length bytes.now) }
{
    if let Some(rest) = after_byte(bytes, b']') {
        return Ok(Next::Rest(rest));
    }
    let Some(item) = after_byte(bytes, b',') else {
        return Ok(Next::Fault);
    };
    around.push(Collection::Array)?;
    Ok(Next::Value(item))
}

/// Goes on after a member of an object, without white space: this object is no longer in the list.
fn after_member<'a>(around: &mut Vec<Collection>, bytes: &'a [u8]) -> Result<Next<'a>, AllocError>
    requires { begins is_white bytes.now ≡ false }
    ensures reads { IfOk result (λ n. GoesOn around.new.items n → Ends (around.old.items ++ collections.Object ∷ []) bytes.now) }
    ensures only { IfOk result (λ n. Ends (around.old.items ++ collections.Object ∷ []) bytes.now → GoesOn around.new.items n) }
    ensures less { IfOk result (λ n. left n ≤ length bytes.now) }
{
    if let Some(rest) = after_byte(bytes, b'}') {
        return Ok(Next::Rest(rest));
    }
    let Some(member) = after_byte(bytes, b',') else {
        return Ok(Next::Fault);
    };
    let Some(value) = after_name(after_white(member)) else {
        return Ok(Next::Fault);
    };
    around.push(Collection::Object)?;
    Ok(Next::Value(value))
}

/// Goes on after the last value.
fn after_last(bytes: &[u8]) -> Next<'_>
    ensures reads { GoesOn [] result → bytes.now ≡ [] }
    ensures only { bytes.now ≡ [] → GoesOn [] result }
    ensures less { left result ≡ 0 }
{
    if bytes.is_empty() {
        Next::End
    } else {
        Next::Fault
    }
}

/// Goes on after a value.
fn after_value<'a>(around: &mut Vec<Collection>, bytes: &'a [u8]) -> Result<Next<'a>, AllocError>
    ensures reads { IfOk result (λ n. GoesOn around.new.items n → Ends around.old.items bytes.now) }
    ensures only { IfOk result (λ n. Ends around.old.items bytes.now → GoesOn around.new.items n) }
    ensures less { IfOk result (λ n. left n ≤ length bytes.now) }
{
    let rest = after_white(bytes);
    match around.pop() {
        Some(Collection::Array) => {
            let next = after_item(around, rest)?;
            Ok(next)
        }
        Some(Collection::Object) => {
            let next = after_member(around, rest)?;
            Ok(next)
        }
        None => Ok(after_last(rest)),
    }
}

/// Goes on by one token, or to the next value.
fn step<'a>(around: &mut Vec<Collection>, next: Next<'a>) -> Result<Next<'a>, AllocError>
    ensures reads { IfOk result (λ n. GoesOn around.new.items n → GoesOn around.old.items next.entry) }
    ensures only { IfOk result (λ n. GoesOn around.old.items next.entry → GoesOn around.new.items n) }
    ensures less { IfOk result (λ n. left n ≡ 0 ⊎ left n < left next.entry) }
{
    match next {
        Next::Value(bytes) => after_begin(around, bytes),
        Next::Rest(bytes) => after_value(around, bytes),
        Next::End | Next::Fault => Ok(next),
    }
}

/// Whether a text is JSON (RFC 8259), with all of its white space and no bound on nesting. It takes a byte of memory for each array and
/// object that is open at one place.
///
/// # Errors
/// Memory does not suffice.
pub fn is_json(alloc: Global, text: &str) -> Result<bool, AllocError>
    ensures yes { IfOk result (λ is. IsTrue is → IsJson text.now) }
    ensures no { IfOk result (λ is. is ≡ false → IsJson text.now → ⊥) }
{
    let bytes = text.as_bytes();
    let mut around: Vec<Collection> = Vec::new(alloc);
    let mut next = Next::Value(bytes);
    'values: loop {
        next = step(&mut around, next)?;
        match next {
            Next::End => return Ok(true),
            Next::Fault => return Ok(false),
            Next::Value(_) | Next::Rest(_) => {}
        }
    }
}

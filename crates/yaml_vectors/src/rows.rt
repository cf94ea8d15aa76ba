//! How a row is judged: what a call answers is told as a text, and held against the row's.
use std::alloc::Global;
use std::process::Abort;
use std::test::Fail;
use yaml_canon::{Side, canonical, same};

/// An input, and its canonical text or the message of its fault.
pub struct Row {
    pub shows: &'static str,
    pub input: &'static [u8],
    pub answer: &'static str,
}

/// Two inputs, and whether they are the `same` or `different`, or the side and the message of the fault.
pub struct Pair {
    pub shows: &'static str,
    pub left: &'static [u8],
    pub right: &'static [u8],
    pub answer: &'static str,
}

/// Whether a text is its own canonical text.
fn is_own(alloc: Global, text: &str) -> bool {
    match canonical(alloc, text.as_bytes()) {
        Ok(again) => again.as_str() == text,
        Err(_) => false,
    }
}

/// What `canonical` answers: the text, where it is its own, or the fault's message.
fn told(alloc: Global, input: &[u8]) -> Result<String, Fail> {
    match canonical(alloc, input) {
        Ok(text) if is_own(alloc, text.as_str()) => Ok(text),
        Ok(text) => Ok(format!(in alloc; "not its own: {text}")?),
        Err(fault) => Ok(format!(in alloc; "{fault}")?),
    }
}

/// Asserts what an input has: its canonical text, or the message of its fault.
pub fn answers<T: Abort + AllocGlobal>(
    rt: &T,
    shows: &str,
    input: &[u8],
    answer: &str,
) -> Result<(), Fail> {
    let got = told(rt.alloc(), input)?;
    assert_eq!(rt; got.as_str(), answer, "{shows}");
    Ok(())
}

/// What `same` answers.
fn compared(alloc: Global, left: &[u8], right: &[u8]) -> Result<String, Fail> {
    match same(alloc, left, right) {
        Ok(true) => Ok("same".to_string(alloc)?),
        Ok(false) => Ok("different".to_string(alloc)?),
        Err((Side::Left, fault)) => Ok(format!(in alloc; "left: {fault}")?),
        Err((Side::Right, fault)) => Ok(format!(in alloc; "right: {fault}")?),
    }
}

/// Asserts a pair's answer.
pub fn is_pair<T: Abort + AllocGlobal>(rt: &T, pair: &Pair) -> Result<(), Fail> {
    let got = compared(rt.alloc(), pair.left, pair.right)?;
    assert_eq!(rt; got.as_str(), pair.answer, "{}", pair.shows);
    Ok(())
}

/// What `canonical` answers to a front: nothing where the text is its own, or the fault's number.
fn front_told(alloc: Global, front: &[u8]) -> u8 {
    match canonical(alloc, front) {
        Ok(text) if is_own(alloc, text.as_str()) => 0,
        Ok(_) => u8::MAX,
        Err(fault) => fault.number(),
    }
}

/// Asserts that each front of an input has an answer: a text that is its own, or a fault of the text or of what it means.
/// Where the input is UTF-8, a front that cuts a character is refused at the character's first byte.
pub fn fronts_answer<T: Abort + AllocGlobal>(rt: &T, input: &[u8]) -> Result<(), Fail> {
    let is_text = str::from_utf8(input).is_ok();
    let mut start = 0;
    for cut in 0..input.len() {
        let front = &input[..cut];
        if is_text && input[cut] & 0xC0 == 0x80 {
            let message = format!(in rt.alloc(); "2 NotUtf8 at byte {start}")?;
            answers(rt, "a character is cut", front, message.as_str())?;
        } else {
            start = cut;
            assert!(rt; front_told(rt.alloc(), front) < 20, "{front:?}");
        }
    }
    Ok(())
}

//! What is said of each fault.
ghost use Rattle.std.specs.Prelude.{◌≡◌, ◌≤◌, true, length, IfOk, string_bytes};
ghost use Rattle.std.specs.Str.{IsUtf8};
ghost use Rattle.review_hints.specs.Hinted.{is_line, is_plain, limit_of, HoldsLimit, IsHint};

use crate::alias_hints::alias_words;
use crate::byte_hints::{
    directive_words, escape_words, handle_words, printable_words, tab_words, tag_words, utf8_words,
};
use crate::hints::syntax_words;
use std::alloc::{AllocError, Global};
use std::str;
use yaml_text::fault::Fault;

/// What is said of a fault.
#[derive(Drop)]
pub struct Words {
    pub text: String,
    /// The offset of the cause, if the text tells its line or its place.
    pub cause: Option<usize>,
}

/// The bytes as a text, or none.
fn source_of(text: &[u8]) -> &str
    ensures { IsUtf8 text.now → result.now ≡ text.now }
{
    match str::from_utf8(text) {
        Ok(source) => source,
        Err(_) => "",
    }
}

/// What a fault at an offset of a text is, for one who mends the file: of many faults what their cause commonly is.
///
/// # Errors
/// `OutOfMemory`
pub fn words_of(alloc: Global, fault: Fault, text: &[u8], at: usize) -> Result<Words, AllocError>
    ensures line { IfOk result (λ words. is_line (string_bytes words.text) ≡ true) }
    ensures limit { IfOk result (λ words. HoldsLimit (limit_of fault) (string_bytes words.text)) }
    ensures hint { IfOk result (λ words. IsUtf8 text.now → at ≤ length text.now → IsHint text.now at words.cause (string_bytes words.text)) }
{
    let source = source_of(text);
    if let Fault::Syntax(_) = fault {
        return syntax_words(alloc, source, at);
    }
    let words = plain_words(fault, text, at, source);
    Ok(Words {
        text: words.to_string(alloc)?,
        cause: None,
    })
}

/// What a fault is that has no hint of its own number or place.
fn plain_words(fault: Fault, text: &[u8], at: usize, source: &str) -> &'static str
    ensures plain { is_plain result.now ≡ true }
    ensures limit { HoldsLimit (limit_of fault) result.now }
{
    let before = source.get(..at).unwrap_or("");
    let behind = source.get(at..).unwrap_or("");
    match fault {
        Fault::TooLong => "an input has at most 67,108,864 bytes",
        Fault::NotUtf8(_) => utf8_words(text, at),
        Fault::NotPrintable(_) => printable_words(text, at),
        Fault::Syntax(_) => "YAML allows nothing here",
        Fault::Tab(_) => tab_words(before),
        Fault::KeyTooLong(_) => "shorten this key: it has at most 1,024 characters before its `:`",
        Fault::TooDeep(_) => "nest less: collections are at most 1,024 deep",
        Fault::BadEscape(_) => escape_words(behind),
        Fault::BadDirective(_) => directive_words(before, behind),
        Fault::UnknownHandle(_) => handle_words(behind),
        Fault::BadTag(_) => tag_words(behind),
        Fault::UndefinedAlias(_) => alias_words(before, behind),
        Fault::CyclicAlias(_) => "remove this alias: it is inside the node that it names",
        Fault::WrongKind(_) => "remove this tag: it is for another kind of node",
        Fault::BadContent(_) => "remove this tag, or correct the text: the tag does not allow it",
        Fault::IntRange(_) => "quote it if it is no number: an int is between -2^127 and 2^127 - 1",
        Fault::FloatRange(_) =>
            "quote it if it is no number: a float's exponent is between -1,000,000 and 1,000,000",
        Fault::TooHigh(_) =>
            "nest less: with its aliases replaced the document has more than 1,023 levels",
        Fault::EqualKeys(_, _, _) => "a key stands twice in a mapping",
        Fault::TextTooLong => "the canonical text would have more than 67,108,864 bytes",
        Fault::OutOfMemory => "there is not enough memory",
        Fault::ReadFault => "the file could not be read",
        Fault::WriteFault => "the output could not be written",
    }
}

//! A fault's number, its name and its place, as a text.
ghost use Rattle.std.specs.Prelude.{◌≡◌, ◌≤◌, ◌+◌, ◌++◌, length, decimal};
ghost use Rattle.arrayvec.specs.ArrayString.{array_string_len};
ghost use Rattle.yaml_message.specs.Words.{place_words, fault_message};

use arrayvec::ArrayString;
use itoa::Buffer;
use yaml_text::fault::Fault;

/// Room for the longest message, and one byte more.
const ROOM: usize = 128;

/// A message. It takes no memory but its own.
pub type Message = ArrayString<ROOM>;

/// Puts words and a number behind a text.
fn push_number(text: &mut Message, words: &str, number: usize)
    requires short { array_string_len text.old + length words.now ≤ 107 }
    ensures bytes { text.new.bytes ≡ text.old.bytes ++ (words.now ++ decimal number) }
    ensures len { array_string_len text.new ≤ array_string_len text.old + length words.now + 20 }
{
    let mut digits = Buffer::new();
    text.push_str(words);
    text.push_str(digits.format(number));
}

/// Puts the place of a fault behind a text.
fn push_place(text: &mut Message, fault: Fault)
    requires { array_string_len text.old ≤ 35 }
    ensures bytes { text.new.bytes ≡ text.old.bytes ++ place_words fault }
    ensures short { array_string_len text.new ≤ 127 }
{
    match fault {
        Fault::NotUtf8(at)
        | Fault::NotPrintable(at)
        | Fault::Syntax(at)
        | Fault::Tab(at)
        | Fault::KeyTooLong(at)
        | Fault::TooDeep(at)
        | Fault::BadEscape(at)
        | Fault::BadDirective(at)
        | Fault::UnknownHandle(at)
        | Fault::BadTag(at) => push_number(text, " at byte ", at),
        Fault::UndefinedAlias(event)
        | Fault::CyclicAlias(event)
        | Fault::WrongKind(event)
        | Fault::BadContent(event)
        | Fault::IntRange(event)
        | Fault::FloatRange(event) => push_number(text, " at event ", event),
        Fault::TooHigh(document) => push_number(text, " in document ", document),
        Fault::EqualKeys(node, first, second) => {
            push_number(text, " in node ", node);
            push_number(text, ", entries ", first);
            push_number(text, " and ", second);
        }
        Fault::TooLong
        | Fault::TextTooLong
        | Fault::OutOfMemory
        | Fault::ReadFault
        | Fault::WriteFault => {}
    }
}

/// The message of a fault.
pub fn message_of(fault: Fault) -> Message
    ensures bytes { result.bytes ≡ fault_message fault }
    ensures short { array_string_len result ≤ 127 }
{
    let mut text = Message::new();
    push_number(&mut text, "", fault.number() as usize);
    text.push_str(" ");
    text.push_str(fault.name());
    push_place(&mut text, fault);
    text
}

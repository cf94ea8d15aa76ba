//! What no clause says: the messages of the faults, and reading on inputs whose answers are known.
use std::alloc::Global;
use std::test::Fail;
use yaml_text::chars::Chars;
use yaml_text::fault::Fault;
use yaml_text::limits::text_limit;

/// The fault with a number.
fn fault(number: u8) -> Option<Fault> {
    match number {
        1 => Some(Fault::TooLong),
        2 => Some(Fault::NotUtf8(0)),
        3 => Some(Fault::NotPrintable(1)),
        4 => Some(Fault::Syntax(16_777_216)),
        5 => Some(Fault::Tab(2)),
        6 => Some(Fault::KeyTooLong(1)),
        7 => Some(Fault::TooDeep(128)),
        8 => Some(Fault::BadEscape(1)),
        9 => Some(Fault::BadDirective(9)),
        10 => Some(Fault::UnknownHandle(4)),
        11 => Some(Fault::BadTag(0)),
        12 => Some(Fault::UndefinedAlias(3)),
        13 => Some(Fault::CyclicAlias(3)),
        14 => Some(Fault::WrongKind(2)),
        15 => Some(Fault::BadContent(2)),
        16 => Some(Fault::IntRange(2)),
        17 => Some(Fault::FloatRange(2)),
        18 => Some(Fault::TooHigh(0)),
        19 => Some(Fault::EqualKeys(4, 0, 1)),
        20 => Some(Fault::TextTooLong),
        21 => Some(Fault::OutOfMemory),
        22 => Some(Fault::ReadFault),
        23 => Some(Fault::WriteFault),
        _ => None,
    }
}

/// A fault's number, its name and its message.
static FAULTS: [(u8, &str, &str); 23] = [
    (1, "TooLong", "1 TooLong"),
    (2, "NotUtf8", "2 NotUtf8 at byte 0"),
    (3, "NotPrintable", "3 NotPrintable at byte 1"),
    (4, "Syntax", "4 Syntax at byte 16777216"),
    (5, "Tab", "5 Tab at byte 2"),
    (6, "KeyTooLong", "6 KeyTooLong at byte 1"),
    (7, "TooDeep", "7 TooDeep at byte 128"),
    (8, "BadEscape", "8 BadEscape at byte 1"),
    (9, "BadDirective", "9 BadDirective at byte 9"),
    (10, "UnknownHandle", "10 UnknownHandle at byte 4"),
    (11, "BadTag", "11 BadTag at byte 0"),
    (12, "UndefinedAlias", "12 UndefinedAlias at event 3"),
    (13, "CyclicAlias", "13 CyclicAlias at event 3"),
    (14, "WrongKind", "14 WrongKind at event 2"),
    (15, "BadContent", "15 BadContent at event 2"),
    (16, "IntRange", "16 IntRange at event 2"),
    (17, "FloatRange", "17 FloatRange at event 2"),
    (18, "TooHigh", "18 TooHigh in document 0"),
    (19, "EqualKeys", "19 EqualKeys in node 4, entries 0 and 1"),
    (20, "TextTooLong", "20 TextTooLong"),
    (21, "OutOfMemory", "21 OutOfMemory"),
    (22, "ReadFault", "22 ReadFault"),
    (23, "WriteFault", "23 WriteFault"),
];

/// Number, name and message of the fault with a number.
fn told(alloc: Global, number: u8) -> Result<String, Fail> {
    let Some(fault) = fault(number) else {
        return Ok("none".to_string(alloc)?);
    };
    let number = fault.number();
    let name = fault.name();
    Ok(format!(in alloc; "{number} {name}: {fault}")?)
}

#[test]
fn each_fault_has_its_number_name_and_message(rt: HostRuntime) -> Result<(), Fail> {
    for (number, name, message) in &FAULTS {
        let want = format!(in rt.alloc(); "{number} {name}: {message}")?;
        let got = told(rt.alloc(), *number)?;
        assert_eq!(rt; got.as_str(), want.as_str());
    }
    Ok(())
}

/// The places in the input of the text's first character and of its end, or the message of the fault.
fn read(alloc: Global, bytes: &[u8]) -> Result<String, Fail> {
    match Chars::read(bytes) {
        Ok(source) => {
            let from = source.pos(0);
            let to = source.pos(source.end());
            Ok(format!(in alloc; "{from} to {to}")?)
        }
        Err(fault) => Ok(format!(in alloc; "{fault}")?),
    }
}

/// An input, and what `read` answers.
static INPUTS: [(&[u8], &str); 17] = [
    (b"", "0 to 0"),
    (b"a", "0 to 1"),
    (b"\t\n\r ~", "0 to 5"),
    (b"\xc2\x85\xc2\xa0", "0 to 4"),
    (b"\xef\xbf\xbd\xf4\x8f\xbf\xbf", "0 to 7"),
    (b"\xef\xbb\xbf", "3 to 3"),
    (b"\xef\xbb\xbfa", "3 to 4"),
    (b"\xff", "2 NotUtf8 at byte 0"),
    (b"\xef\xbb\xbfa\xff", "2 NotUtf8 at byte 4"),
    (b"ab\xe2\x82", "2 NotUtf8 at byte 2"),
    (b"\xed\xa0\x80", "2 NotUtf8 at byte 0"),
    (b"a\x00", "3 NotPrintable at byte 1"),
    (b"\x7f", "3 NotPrintable at byte 0"),
    (b"\xc2\x84", "3 NotPrintable at byte 0"),
    (b"\xef\xbf\xbe", "3 NotPrintable at byte 0"),
    (b"\xef\xbb\xbf\xef\xbb\xbf", "3 NotPrintable at byte 3"),
    (b"\x00\xff", "2 NotUtf8 at byte 1"),
];

#[test]
fn texts_are_read_or_refused_at_their_place(rt: HostRuntime) -> Result<(), Fail> {
    for (bytes, want) in &INPUTS {
        let got = read(rt.alloc(), bytes)?;
        assert_eq!(rt; got.as_str(), *want, "{bytes:?}");
    }
    Ok(())
}

/// As many letters as a text may have bytes.
fn longest(alloc: Global) -> Result<Vec<u8>, Fail> {
    let piece = [b'a'; 4096];
    let mut bytes = Vec::new(alloc);
    for _ in 0..text_limit() / piece.len() {
        bytes.extend_from_slice(&piece)?;
    }
    Ok(bytes)
}

#[test]
fn texts_have_67_108_864_bytes_at_most(rt: HostRuntime) -> Result<(), Fail> {
    let mut bytes = longest(rt.alloc())?;
    let whole = read(rt.alloc(), bytes.as_slice())?;
    assert_eq!(rt; whole.as_str(), "0 to 67108864");
    bytes.push(0xFF)?;
    let more = read(rt.alloc(), bytes.as_slice())?;
    assert_eq!(rt; more.as_str(), "1 TooLong");
    Ok(())
}

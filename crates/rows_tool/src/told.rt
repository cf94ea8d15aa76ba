//! The line of each fault, which the program makes of its number, its name and its place, beside the message that is derived.
use std::process::Abort;
use std::test::Fail;
use yaml_command::command::report;
use yaml_command::refusal::Refusal;
use yaml_events::EventFault;
use yaml_text::counted::Counted;
use yaml_text::fault::Fault;

static FAULTS: [Fault; 23] = [
    Fault::TooLong,
    Fault::NotUtf8(0),
    Fault::NotPrintable(1),
    Fault::Syntax(67_108_864),
    Fault::Tab(2),
    Fault::KeyTooLong(10),
    Fault::TooDeep(128),
    Fault::BadEscape(99),
    Fault::BadDirective(9),
    Fault::UnknownHandle(100),
    Fault::BadTag(0),
    Fault::UndefinedAlias(3),
    Fault::CyclicAlias(30),
    Fault::WrongKind(2),
    Fault::BadContent(12),
    Fault::IntRange(5),
    Fault::FloatRange(6),
    Fault::TooHigh(7),
    Fault::EqualKeys(4, 0, 1),
    Fault::TextTooLong,
    Fault::OutOfMemory,
    Fault::ReadFault,
    Fault::WriteFault,
];

static LINE_FAULTS: [EventFault; 2] = [EventFault::BadLine(12), EventFault::OutOfMemory];

/// Asserts the line that standard error has of a refusal.
fn is_told<T: Abort + AllocGlobal>(
    rt: &T,
    refusal: Refusal<'_>,
    message: String,
) -> Result<(), Fail> {
    let mut held = Vec::new(rt.alloc());
    let _ = report(Err(refusal), &mut Counted::new(&mut held));
    let got = String::from_utf8(held)?;
    assert!(rt; got.as_str() == message.as_str(), "{got} {message}");
    Ok(())
}

#[test]
fn a_fault_is_told_by_its_message(rt: HostRuntime) -> Result<(), Fail> {
    let alloc = rt.alloc();
    for fault in &FAULTS {
        let message = format!(in alloc; "yaml: {fault}\n")?;
        is_told(&rt, Refusal::Input(*fault), message)?;
    }
    for fault in &LINE_FAULTS {
        let message = format!(in alloc; "yaml: events: {fault}\n")?;
        is_told(&rt, Refusal::EventLines(*fault), message)?;
    }
    Ok(())
}

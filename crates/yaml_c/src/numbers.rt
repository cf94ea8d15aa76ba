//! The fault that a caller's numbers stand for.
ghost use Rattle.std.specs.Prelude.{◌≡◌};
ghost use Rattle.yaml_c.specs.Numbers.{fault_with, fault_in, FaultsComeBack};

use crate::fault::YamlcanonFault;
use yaml_text::fault::Fault;

/// The fault of a number, at a place, and of two entries.
fn fault_with(number: u32, place: usize, first: usize, second: usize) -> Option<Fault>
    ensures { result ≡ fault_with number place first second }
{
    match number {
        1 => Some(Fault::TooLong),
        2 => Some(Fault::NotUtf8(place)),
        3 => Some(Fault::NotPrintable(place)),
        4 => Some(Fault::Syntax(place)),
        5 => Some(Fault::Tab(place)),
        6 => Some(Fault::KeyTooLong(place)),
        7 => Some(Fault::TooDeep(place)),
        8 => Some(Fault::BadEscape(place)),
        9 => Some(Fault::BadDirective(place)),
        10 => Some(Fault::UnknownHandle(place)),
        11 => Some(Fault::BadTag(place)),
        12 => Some(Fault::UndefinedAlias(place)),
        13 => Some(Fault::CyclicAlias(place)),
        14 => Some(Fault::WrongKind(place)),
        15 => Some(Fault::BadContent(place)),
        16 => Some(Fault::IntRange(place)),
        17 => Some(Fault::FloatRange(place)),
        18 => Some(Fault::TooHigh(place)),
        19 => Some(Fault::EqualKeys(place, first, second)),
        20 => Some(Fault::TextTooLong),
        21 => Some(Fault::OutOfMemory),
        22 => Some(Fault::ReadFault),
        23 => Some(Fault::WriteFault),
        _ => None,
    }
}

/// The fault that these numbers stand for. Its side and its name are not looked at.
pub fn fault_in(fault: &YamlcanonFault) -> Option<Fault>
    ensures { result ≡ fault_in fault.now }
{
    let place = fault.place as usize;
    let first = fault.first as usize;
    let second = fault.second as usize;
    fault_with(fault.number, place, first, second)
}

/// A fault that is told comes back.
pub fn faults_come_back()
    ensures { FaultsComeBack }
{}

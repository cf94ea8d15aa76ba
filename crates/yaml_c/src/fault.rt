//! A refusal, as numbers.
ghost use Rattle.std.specs.Prelude.{◌≡◌};
ghost use Rattle.yaml_c.specs.Told.{told, side_number};

use crate::name::name_of;
use crate::status::REFUSED;
use yaml_canon::Side;
use yaml_text::fault::Fault;

/// Why an input is rejected: the number of the fault, the side (0, or 1 for the right one of two), its position, the two entries
/// of equal keys (0 if there are none), and its name, ended by zeros.
#[repr(C)]
#[derive(Clone, Copy, Drop)]
pub struct YamlcanonFault {
    pub number: u32,
    pub side: u32,
    pub place: u64,
    pub first: u64,
    pub second: u64,
    pub name: [u8; 16],
}

/// The number of a side.
fn number_of(side: Side) -> u32
    ensures { result ≡ side_number side }
{
    match side {
        Side::Left => 0,
        Side::Right => 1,
    }
}

/// A fault of one side, as numbers.
fn tell(side: Side, fault: Fault) -> YamlcanonFault
    ensures { result ≡ told side fault }
{
    let (place, first, second) = match fault {
        Fault::TooLong
        | Fault::TextTooLong
        | Fault::OutOfMemory
        | Fault::ReadFault
        | Fault::WriteFault => (0, 0, 0),
        Fault::NotUtf8(place)
        | Fault::NotPrintable(place)
        | Fault::Syntax(place)
        | Fault::Tab(place)
        | Fault::KeyTooLong(place)
        | Fault::TooDeep(place)
        | Fault::BadEscape(place)
        | Fault::BadDirective(place)
        | Fault::UnknownHandle(place)
        | Fault::BadTag(place)
        | Fault::UndefinedAlias(place)
        | Fault::CyclicAlias(place)
        | Fault::WrongKind(place)
        | Fault::BadContent(place)
        | Fault::IntRange(place)
        | Fault::FloatRange(place)
        | Fault::TooHigh(place) => (place as u64, 0, 0),
        Fault::EqualKeys(node, first, second) => (node as u64, first as u64, second as u64),
    };
    YamlcanonFault {
        number: u32::from(fault.number()),
        side: number_of(side),
        place,
        first,
        second,
        name: name_of(fault),
    }
}

/// Reports a fault of one side to the caller, and returns the status of a rejection.
pub fn refuse(side: Side, refusal: Fault, fault: &mut YamlcanonFault) -> u32
    ensures status { result ≡ 2 }
    ensures told { fault.new ≡ told side refusal }
{
    *fault = tell(side, refusal);
    REFUSED
}

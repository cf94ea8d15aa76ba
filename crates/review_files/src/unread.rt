//! Why a file is not read.
ghost use Rattle.std.specs.Prelude.{◌≡◌, max};
ghost use Rattle.review_files.specs.Statuses.{fault_status};

use yaml_sum::reason::Reason;
use yaml_text::fault::Fault;

/// The status of a file that is too long, or of memory that is refused.
const REJECTED: u8 = 2;

/// The status of a file that cannot be opened or read.
const UNUSABLE: u8 = 3;

/// Why a file is not read.
#[derive(Clone, Copy, Debug, PartialEq, Eq)]
pub enum Unread {
    /// It cannot be opened, for this reason.
    CannotOpen(Reason),
    /// It is too long, memory is refused, or a read fails.
    Fault(Fault),
}

impl Unread {
    ghost use Rattle.std.specs.Prelude.{◌≡◌};
    ghost use Rattle.review_files.specs.Statuses.{unread_status};

    /// The exit status.
    pub fn status(self) -> u8
        ensures { result ≡ unread_status self }
    {
        match self {
            Unread::CannotOpen(_) => UNUSABLE,
            Unread::Fault(fault) => fault_status(fault),
        }
    }
}

/// The exit status of a fault: 3 where a stream fails, else 2.
pub(crate) fn fault_status(fault: Fault) -> u8
    ensures { result ≡ fault_status fault }
{
    match fault {
        Fault::ReadFault | Fault::WriteFault => UNUSABLE,
        _ => REJECTED,
    }
}

/// The greater of two statuses.
pub fn greater(left: u8, right: u8) -> u8
    ensures { result ≡ max left right }
{
    if left < right { right } else { left }
}

//! Why a file has no sum, and why sums are not made to the end.
ghost use Rattle.std.specs.Prelude.{◌≡◌, max};
ghost use Rattle.yaml_command.specs.Statuses.{fault_status};

use crate::reason::Reason;
use yaml_text::fault::Fault;

/// The status of a file that is refused.
const REFUSED: u8 = 2;

/// The status of a file that can't be opened or read.
const UNUSABLE: u8 = 3;

/// The greater of two statuses.
pub(crate) fn greater(left: u8, right: u8) -> u8
    ensures { result ≡ max left right }
{
    if left < right { right } else { left }
}

/// Why a file has no sum.
#[derive(Clone, Copy)]
pub(crate) enum Stop {
    /// It can't be opened, for this reason.
    CannotOpen(Reason),
    /// It is no regular file, and not opened.
    NotRegular,
    /// It can't be read to its end.
    Unread(Fault),
    /// It is too long, or what it holds is refused.
    Refused(Fault),
}

impl Stop {
    ghost use Rattle.std.specs.Prelude.{◌≡◌};
    ghost use Rattle.yaml_sum.specs.Complaints.{is_text};
    ghost use Rattle.yaml_sum.specs.Stops.{stop_status};

    /// Whether the name is text, as far as this tells it.
    pub(crate) fn is_text(self) -> bool
        ensures { result ≡ is_text self }
    {
        match self {
            Stop::CannotOpen(Reason::NotUtf8) => false,
            _ => true,
        }
    }

    /// The exit status: 2 where what a file holds is refused, 3 where it can't be opened or read.
    pub(crate) fn status(self) -> u8
        ensures { result ≡ stop_status self }
    {
        match self {
            Stop::CannotOpen(_) | Stop::NotRegular => UNUSABLE,
            Stop::Unread(fault) | Stop::Refused(fault) => fault_status(fault),
        }
    }
}

/// Why sums are not made to the end.
#[derive(Clone, Copy)]
pub(crate) enum Halt<'a> {
    /// The list of this name cannot be opened.
    NoList(&'a str, Reason),
    /// The list of this name is not read to its end.
    Unread(&'a str, Fault),
    /// The output fails, or memory is refused.
    Fault(Fault),
}

impl Halt<'_> {
    ghost use Rattle.std.specs.Prelude.{◌≡◌};
    ghost use Rattle.yaml_sum.specs.Stops.{halt_status};

    /// The exit status: 2 where the list is too long or memory is refused, else 3.
    pub(crate) fn status(self) -> u8
        ensures { result ≡ halt_status self.entry }
    {
        match self {
            Halt::NoList(_, _) => UNUSABLE,
            Halt::Unread(_, fault) | Halt::Fault(fault) => fault_status(fault),
        }
    }
}

impl From<Fault> for Halt<'_> {
    ghost use Rattle.std.specs.Prelude.{◌≡◌};
    ghost use Rattle.yaml_sum.specs.declared.stop.Halt.TheVariants.{Fault as Failed};

    ghost from_gives = { λ fault halt. halt ≡ Failed fault };

    fn from(fault: Fault) -> Self {
        Halt::Fault(fault)
    }
}

fn fault_status(fault: Fault) -> u8
    ensures { result ≡ fault_status fault }
{
    match fault {
        Fault::ReadFault | Fault::WriteFault => UNUSABLE,
        _ => REFUSED,
    }
}

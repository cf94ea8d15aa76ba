//! Why a text is no event text.
ghost use Rattle.std.specs.Prelude.{◌≡◌};
ghost use Rattle.yaml_events.specs.LineAnswer.{fault_of};

use percent_encoding::DecodeError;
use std::alloc::{AllocError, AllocFailed};
use thiserror::Error;

/// Why a text is not read as events. Lines are counted from 1.
#[derive(Clone, Copy, Debug, PartialEq, Eq, Error)]
pub enum EventFault {
    /// The first line that is no event's, as a last one without a line feed: its number.
    #[error("bad line {0}")]
    BadLine(usize),
    /// Memory was refused.
    #[error("21 OutOfMemory")]
    OutOfMemory,
}

/// Why a line is not read as an event.
#[derive(Clone, Copy)]
pub enum LineFault {
    /// It is the line of no event.
    NoEvent,
    OutOfMemory,
}

impl LineFault {
    /// The same fault of the line of this number.
    pub fn of_line(self, number: usize) -> EventFault
        ensures { result ≡ fault_of self number }
    {
        match self {
            LineFault::NoEvent => EventFault::BadLine(number),
            LineFault::OutOfMemory => EventFault::OutOfMemory,
        }
    }
}

impl From<AllocError> for LineFault {
    ghost use Rattle.yaml_events.specs.declared.fault.LineFault.TheVariants.{OutOfMemory};

    ghost from_gives = { λ _ e. e ≡ OutOfMemory };

    fn from(_error: AllocError) -> LineFault {
        LineFault::OutOfMemory
    }
}

impl From<DecodeError> for LineFault {
    ghost use Rattle.yaml_events.specs.LineAnswer.{decoding_fault};

    ghost from_gives = { λ d e. e ≡ decoding_fault d };

    fn from(fault: DecodeError) -> LineFault {
        match fault {
            DecodeError::OutOfMemory => LineFault::OutOfMemory,
            DecodeError::Utf8(_place) => LineFault::NoEvent,
        }
    }
}

impl<T: Drop> From<AllocFailed<T>> for EventFault {
    ghost use Rattle.yaml_events.specs.declared.fault.EventFault.TheVariants.{OutOfMemory};

    ghost from_gives = { λ _ e. e ≡ OutOfMemory };

    fn from(_error: AllocFailed<T>) -> EventFault {
        EventFault::OutOfMemory
    }
}

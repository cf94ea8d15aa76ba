//! Why a sink takes no more of a text.
ghost use Rattle.yaml_spell.specs.Stops.{fault_of};

use std::alloc::AllocError;
use yaml_text::fault::Fault;

/// Why a sink takes no more of a text: one of the faults that a sink can meet. It is one byte, so that the
/// answers of the walk, of which there are some for each node, go in registers.
#[derive(Clone, Copy)]
pub enum Stop {
    /// The text is longer than its limit, or than its room.
    TextTooLong,
    /// Memory was refused.
    OutOfMemory,
    /// The writer failed, or took no byte.
    WriteFault,
}

impl From<AllocError> for Stop {
    ghost use Rattle.std.specs.Prelude.{◌≡◌};
    ghost use Rattle.yaml_spell.specs.declared.stop.Stop.TheVariants.{OutOfMemory};

    ghost from_gives = { λ _ stop. stop ≡ OutOfMemory };

    fn from(_error: AllocError) -> Stop {
        Stop::OutOfMemory
    }
}

impl From<Stop> for Fault {
    ghost use Rattle.std.specs.Prelude.{◌≡◌};

    ghost from_gives = { λ stop fault. fault ≡ fault_of stop };

    fn from(stop: Stop) -> Fault {
        match stop {
            Stop::TextTooLong => Fault::TextTooLong,
            Stop::OutOfMemory => Fault::OutOfMemory,
            Stop::WriteFault => Fault::WriteFault,
        }
    }
}

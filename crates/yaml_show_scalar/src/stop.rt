//! Why a text is not finished.
ghost use Rattle.std.specs.Prelude.{◌≡◌};

use std::alloc::AllocError;

/// Why a text is not finished.
#[derive(Clone, Copy, Debug, PartialEq, Eq)]
pub enum Stop {
    /// The text would have more than 67,108,864 bytes.
    TooLong,
    /// Memory does not suffice.
    OutOfMemory,
}

impl From<AllocError> for Stop {
    ghost use Rattle.yaml_show_scalar.specs.declared.stop.Stop.TheVariants.{OutOfMemory};

    ghost from_gives = { λ _ stop. stop ≡ OutOfMemory };

    fn from(_error: AllocError) -> Stop {
        Stop::OutOfMemory
    }
}

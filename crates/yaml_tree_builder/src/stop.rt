//! Why a builder does not take an event.
ghost use Rattle.std.specs.Prelude.{◌≡◌, IfOk};
ghost use Rattle.yaml_definitions.specs.model.Core.{Resolved};
ghost use Rattle.yaml_core.specs.CoreAnswer.{RefusesScalar};
ghost use Rattle.yaml_tree_builder.specs.Refusals.{fault_of, Blames, IsRefusal};

use std::alloc::AllocFailed;
use yaml_core::CoreFault;
use yaml_store::no_memory::NoMemory;
use yaml_text::fault::Fault;

/// Why a node has no tree.
#[derive(Clone, Copy)]
pub(crate) enum Cause {
    UndefinedAlias,
    CyclicAlias,
    WrongKind,
    BadContent,
    IntRange,
    FloatRange,
}

/// Why a builder does not take an event. It is small, and has no number, since it is answered for each event.
#[derive(Clone, Copy)]
pub(crate) enum Stop {
    /// Its node has no tree.
    Refused(Cause),
    /// Memory is refused, or a number does not fit.
    NoMemory,
}

/// An event whose node has no tree.
#[derive(Clone, Copy)]
pub(crate) struct Refusal {
    pub(crate) cause: Cause,
    /// The event's number.
    pub(crate) at: usize,
}

impl Refusal {
    /// The fault that says so.
    pub(crate) fn fault(self) -> Fault
        ensures { result ≡ fault_of self.cause self.at }
    {
        match self.cause {
            Cause::UndefinedAlias => Fault::UndefinedAlias(self.at),
            Cause::CyclicAlias => Fault::CyclicAlias(self.at),
            Cause::WrongKind => Fault::WrongKind(self.at),
            Cause::BadContent => Fault::BadContent(self.at),
            Cause::IntRange => Fault::IntRange(self.at),
            Cause::FloatRange => Fault::FloatRange(self.at),
        }
    }
}

impl Stop {
    /// The event of this number is refused, unless memory is.
    pub(crate) fn refusal(self, at: usize) -> Result<Refusal, NoMemory>
        ensures { IfOk result (IsRefusal self at) }
    {
        match self {
            Stop::Refused(cause) => Ok(Refusal { cause, at }),
            Stop::NoMemory => Err(NoMemory),
        }
    }
}

impl From<NoMemory> for Stop {
    ghost use Rattle.yaml_tree_builder.specs.declared.stop.Stop.TheVariants.{NoMemory};

    ghost from_gives = { λ _ stop. stop ≡ NoMemory };

    fn from(_no_memory: NoMemory) -> Stop {
        Stop::NoMemory
    }
}

impl<T: Drop> From<AllocFailed<T>> for Stop {
    ghost use Rattle.yaml_tree_builder.specs.declared.stop.Stop.TheVariants.{NoMemory};

    ghost from_gives = { λ _ stop. stop ≡ NoMemory };

    fn from(_error: AllocFailed<T>) -> Stop {
        Stop::NoMemory
    }
}

impl From<CoreFault> for Stop {
    ghost from_gives = { λ fault stop. (found : Resolved) → RefusesScalar found fault → Blames found stop };

    fn from(fault: CoreFault) -> Stop {
        match fault {
            CoreFault::WrongKind => Stop::Refused(Cause::WrongKind),
            CoreFault::BadContent => Stop::Refused(Cause::BadContent),
            CoreFault::IntRange => Stop::Refused(Cause::IntRange),
            CoreFault::FloatRange => Stop::Refused(Cause::FloatRange),
            CoreFault::OutOfMemory => Stop::NoMemory,
        }
    }
}

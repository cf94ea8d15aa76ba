//! What is found of a file that a list names.
ghost use Rattle.std.specs.Prelude.{◌≡◌};

use crate::asked::Rules;
use crate::reason::Reason;
use crate::stop::Stop;

/// The status of a file that has another sum.
pub(crate) const DIFFERENT: u8 = 1;

/// What is found of a file that a list names.
#[derive(Clone, Copy)]
pub(crate) enum Finding {
    /// It has the digest of its line.
    Right,
    /// It has another.
    Wrong,
    /// It is not there, and left out.
    Missing,
    /// It has none, for this reason.
    Without(Stop),
}

impl Finding {
    ghost use Rattle.std.specs.Prelude.{◌≡◌};
    ghost use Rattle.yaml_sum.specs.Checks.{verdict, finding_status};

    /// What stands behind the file's name.
    pub(crate) fn verdict(self) -> &'static str
        ensures { result.now ≡ verdict self }
    {
        match self {
            Finding::Right => ": OK\n",
            Finding::Wrong => ": FAILED\n",
            Finding::Missing => "",
            Finding::Without(_) => ": FAILED open or read\n",
        }
    }

    /// The exit status.
    pub(crate) fn status(self) -> u8
        ensures { result ≡ finding_status self }
    {
        match self {
            Finding::Right | Finding::Missing => 0,
            Finding::Wrong => DIFFERENT,
            Finding::Without(stop) => stop.status(),
        }
    }
}

impl Rules {
    ghost use Rattle.std.specs.Prelude.{◌≡◌};
    ghost use Rattle.yaml_sum.specs.Checks.{shows, skips};

    /// Whether a file of which this is found has a line.
    pub(crate) fn shows(self, finding: Finding) -> bool
        ensures { result ≡ shows self finding }
    {
        match finding {
            Finding::Right => !self.is_quiet && !self.is_silent,
            Finding::Missing => false,
            Finding::Wrong | Finding::Without(_) => !self.is_silent,
        }
    }

    /// Whether a file that has no sum for this reason is left out.
    pub(crate) fn skips(self, stop: Stop) -> bool
        ensures { result ≡ skips self stop }
    {
        match stop {
            Stop::CannotOpen(Reason::NotFound) => self.skips_missing,
            _ => false,
        }
    }
}

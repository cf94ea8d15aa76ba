//! What is told of the lines of a list.

use crate::finding::Finding;
use crate::stop::greater;

/// What a line of a list is.
#[derive(Clone, Copy)]
pub(crate) enum Seen {
    /// An empty line, or one that begins with `#`.
    Remark,
    /// A line that is none of a sum.
    Improper,
    /// A line of a sum, of whose file this is found.
    File(Finding),
}

/// What is told of the lines of a list.
#[derive(Clone, Copy)]
pub(crate) struct Told {
    /// The greatest status of a file.
    pub(crate) worst: u8,
    /// Whether a line is one of a sum.
    pub(crate) has_sums: bool,
    /// Whether a file has its sum.
    pub(crate) is_verified: bool,
    /// How many lines are none of a sum.
    pub(crate) improper: usize,
    /// How many files have no sum and are not left out.
    pub(crate) unread: usize,
    /// How many files have another sum.
    pub(crate) wrong: usize,
}

impl Told {
    ghost use Rattle.std.specs.Prelude.{◌≡◌, ◌<◌, ◌+◌, ◌-◌, ◌^◌, false};
    ghost use Rattle.yaml_sum.specs.Checking.{Counts, CountsFile};
    ghost use Rattle.yaml_sum.specs.Checks.{IsNothing};

    /// Nothing yet.
    pub(crate) fn nothing() -> Told
        ensures { IsNothing result }
    {
        Told {
            worst: 0,
            has_sums: false,
            is_verified: false,
            improper: 0,
            unread: 0,
            wrong: 0,
        }
    }

    /// The same with a file more.
    fn with_file(self, finding: Finding) -> Told
        requires { self.improper + self.unread + self.wrong < 2 ^ 64 - 1 }
        ensures { CountsFile self finding result }
    {
        let told = Told {
            worst: greater(self.worst, finding.status()),
            has_sums: true,
            ..self
        };
        match finding {
            Finding::Right => Told {
                is_verified: true,
                ..told
            },
            Finding::Wrong => Told {
                wrong: told.wrong + 1,
                ..told
            },
            Finding::Missing => told,
            Finding::Without(_) => Told {
                unread: told.unread + 1,
                ..told
            },
        }
    }

    /// The same with a line more.
    pub(crate) fn with(self, seen: Seen) -> Told
        requires { self.improper + self.unread + self.wrong < 2 ^ 64 - 1 }
        ensures { Counts self seen result }
    {
        match seen {
            Seen::Remark => self,
            Seen::Improper => Told {
                improper: self.improper + 1,
                ..self
            },
            Seen::File(finding) => self.with_file(finding),
        }
    }
}

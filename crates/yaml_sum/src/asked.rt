//! What is asked of `sum`.

/// How a list is checked.
#[derive(Clone, Copy, Debug, PartialEq, Eq)]
pub struct Rules {
    /// Whether a file that has its sum has no line.
    pub is_quiet: bool,
    /// Whether nothing is written of files and lines, so that the status alone tells of them.
    pub is_silent: bool,
    /// Whether a line that is none of a sum counts for the status.
    pub is_strict: bool,
    /// Whether files that are not there are left out.
    pub skips_missing: bool,
}

/// Which files, and what of them.
#[derive(Clone, Copy, Debug, PartialEq, Eq)]
pub enum Asked<'a> {
    /// The sum of each of these files; `-` is standard input.
    Files(&'a [&'a str]),
    /// The sum of each file that this list names; `-` is standard input.
    FilesFrom(&'a str),
    /// Whether the files have the sums that this list tells; `-` is standard input.
    Check(&'a str, Rules),
}

impl<'a> Asked<'a> {
    ghost use Rattle.std.specs.Prelude.{◌≡◌};
    ghost use Rattle.yaml_sum.specs.Asks.{list_in};

    /// The list that names the files, if there is one.
    pub fn list(self) -> Option<&'a str>
        ensures { result ≡ list_in self.entry }
    {
        match self {
            Asked::Files(_) => None,
            Asked::FilesFrom(list) | Asked::Check(list, _) => Some(list),
        }
    }
}

//! A count of visits.
ghost use Rattle.std.specs.Prelude.{◌≡◌, ◌+◌, ◌<◌, ◌^◌};
ghost use Rattle.yaml_tree.specs.Visited.{count_of};

/// How many nodes were visited. It starts at 0, and only `add` changes it, by one.
#[derive(Clone, Copy, Debug, PartialEq, Eq)]
pub struct Visits {
    count: u64,
}

impl Visits {
    /// No visits yet.
    pub fn new() -> Visits
        ensures { count_of result ≡ 0 }
    {
        Visits { count: 0 }
    }

    /// Counts one visit.
    pub fn add(&mut self)
        requires { count_of self.old < 2 ^ 63 }
        ensures { count_of self.new ≡ count_of self.old + 1 }
    {
        self.count += 1;
    }

    /// How many visits were counted.
    pub fn count(&self) -> u64
        ensures { result ≡ count_of self.now }
    {
        self.count
    }
}

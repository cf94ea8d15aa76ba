//! Why a node has no value of JSON.
use yaml_show_scalar::Stop;

/// Why a node is not written as a value of JSON.
#[derive(Clone, Copy, Debug, PartialEq, Eq)]
pub enum Unsaid {
    /// The text would be too long, or memory does not suffice.
    Stopped(Stop),
    /// JSON has no such value, or too many nodes are inside one another.
    NoValue,
}

impl From<Stop> for Unsaid {
    ghost use Rattle.std.specs.Prelude.{◌≡◌};
    ghost use Rattle.review_paths.specs.declared.unsaid.Unsaid.TheVariants.{Stopped};

    ghost from_gives = { λ stop unsaid. unsaid ≡ Stopped stop };

    fn from(stop: Stop) -> Unsaid {
        Unsaid::Stopped(stop)
    }
}

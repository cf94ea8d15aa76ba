//! Why documents are not written as JSON.
ghost use Rattle.std.specs.Prelude.{◌≡◌};

use yaml_show_scalar::Stop;

/// Why documents are not written as JSON.
#[derive(Clone, Copy, Debug, PartialEq, Eq)]
pub enum Unwritten {
    /// The text is too long, or memory does not suffice.
    Stopped(Stop),
    /// JSON cannot express a node.
    NoJson,
}

impl From<Stop> for Unwritten {
    ghost use Rattle.yaml_show.specs.declared.unwritten.Unwritten.TheVariants.{Stopped};

    ghost from_gives = { λ stop why. why ≡ Stopped stop };

    fn from(stop: Stop) -> Unwritten {
        Unwritten::Stopped(stop)
    }
}

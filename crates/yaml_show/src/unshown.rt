//! Why a stream is not shown in JSON.
ghost use Rattle.std.specs.Prelude.{◌≡◌};

use yaml_text::fault::Fault;

/// Why a stream is not shown in JSON.
#[derive(Clone, Copy, Debug, PartialEq, Eq)]
pub enum Unshown {
    /// The stream is rejected (1 to 19), the text would be too long (20), or memory does not suffice (21).
    Rejected(Fault),
    /// JSON cannot express a node: a key is no string, a float is `.inf`, `-.inf` or `.nan`, or a tag is none of the core schema.
    NoJson,
    /// A line is not JSON, or the lines do not mean what the stream means. No input is known for which this is reported.
    Unlike,
}

impl From<Fault> for Unshown {
    ghost use Rattle.yaml_show.specs.declared.unshown.Unshown.TheVariants.{Rejected};

    ghost from_gives = { λ fault why. why ≡ Rejected fault };

    fn from(fault: Fault) -> Unshown {
        Unshown::Rejected(fault)
    }
}

//! What takes a text piece by piece.
ghost use Rattle.std.specs.Prelude.{◌≡◌, List, [], ℕ, true, false, OnOk, IfOk, IfErr};
ghost use Rattle.yaml_text.specs.declared.fault.Fault.{Fault};
ghost use Rattle.yaml_scalar.specs.Spelling.{quoted_bytes};
ghost use Rattle.yaml_spell.specs.Stops.{fault_of};
ghost use Rattle.yaml_spell.specs.Pieces.{Began, TakesPiece, Misses, Counts, Exceeds};

use crate::stop::Stop;

/// What takes a text piece by piece, on its way to an output.
pub trait Sink<O> {
    // The text that the sink and the output have so far.
    ghost holds: { Self → O → Began → List ℕ → Type 0 };

    // Why no more was taken of a text.
    ghost stops: { O → Began → Fault → List ℕ → Type 0 };

    /// Takes a piece as it is.
    fn put(&mut self, out: &mut O, piece: &str) -> Result<(), Stop>
        ensures ok { OnOk result (TakesPiece holds self.old out.old self.new out.new piece.now) }
        ensures err { IfErr result (λ stop. Misses holds stops self.old out.old out.new (fault_of stop) piece.now) };

    /// Takes a content's spelling, quotes included.
    fn put_spelled(&mut self, out: &mut O, content: &str) -> Result<(), Stop>
        ensures ok { OnOk result (TakesPiece holds self.old out.old self.new out.new (quoted_bytes content.now)) }
        ensures err { IfErr result (λ stop. Misses holds stops self.old out.old out.new (fault_of stop) (quoted_bytes content.now)) };

    /// Takes a text of so many bytes unseen, where a sink keeps no more of a text than its length. The
    /// answer is whether it did; if not, nothing was taken, and the text is still to be put.
    fn count(&mut self, out: &mut O, len: usize) -> Result<bool, Stop>
        ensures taken { IfOk result (λ counted. counted ≡ true → Counts holds self.old out.old self.new out.new len) }
        ensures kept { IfOk result (λ counted. counted ≡ false → TakesPiece holds self.old out.old self.new out.new []) }
        ensures err { IfErr result (λ stop. Exceeds holds stops self.old out.old out.new (fault_of stop) len) };
}

//! Whether a text means what a stream means.
ghost use Rattle.std.specs.Prelude.{◌≡◌, true, false, List, IfOk, IfErr};
ghost use Rattle.yaml_definitions.specs.model.Tree.{Tree};
ghost use Rattle.yaml_definitions.specs.model.Same.{Alike};
ghost use Rattle.yaml_definitions.specs.model.Proper.{Admitted};
ghost use Rattle.yaml_definitions.specs.model.Means.{Means};
ghost use Rattle.yaml_canon.specs.Accepting.{IsMemory};
ghost use Rattle.yaml_show.specs.Alike.{MeanAlike};

use std::alloc::Global;
use yaml_canon::same;
use yaml_text::fault::Fault;

/// Whether a text is a stream that means what the bytes mean. If it is not, and both mean admitted documents, these differ.
///
/// # Errors
/// `OutOfMemory`
pub(crate) fn is_alike(alloc: Global, bytes: &[u8], text: &str) -> Result<bool, Fault>
    ensures alike { IfOk result (λ answer. answer ≡ true → MeanAlike bytes.now text.now) }
    ensures unlike { IfOk result (λ answer. answer ≡ false → (f g : List Tree) → Admitted f → Admitted g → Means bytes.now f → Means text.now g → Alike f g → ⊥) }
    ensures memory { IfErr result IsMemory }
{
    match same(alloc, bytes, text.as_bytes()) {
        Ok(answer) => Ok(answer),
        Err((_, Fault::OutOfMemory)) => Err(Fault::OutOfMemory),
        Err(_) => Ok(false),
    }
}

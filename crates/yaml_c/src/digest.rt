//! The SHA-256 of a canonical text.
ghost use Rattle.std.specs.Prelude.{◌≡◌, List, IfOk, IfErr, MatchResult};
ghost use Rattle.sha2.specs.Sha256.{sha256};
ghost use Rattle.yaml_definitions.specs.model.Tree.{Tree};
ghost use Rattle.yaml_definitions.specs.model.Proper.{Admitted};
ghost use Rattle.yaml_definitions.specs.model.Means.{Means};
ghost use Rattle.yaml_definitions.specs.canonical.Spell.{spell_bytes};
ghost use Rattle.yaml_canon.specs.Claims.{CanonicalRefuses};
ghost use Rattle.yaml_canon.specs.Accepting.{IsMemory};
ghost use Rattle.yaml_c.specs.Digests.{IsDigest};

use sha2::{Digest, Sha256};
use std::alloc::Global;
use yaml_canon::canonical;
use yaml_text::fault::Fault;

/// The SHA-256 of the canonical text of the stream that these bytes are.
pub fn digest_of(alloc: Global, input: &[u8]) -> Result<[u8; 32], Fault>
    ensures ok { IfOk result (IsDigest input.now) }
    ensures err { IfErr result (CanonicalRefuses input.now) }
    ensures accepts { (f : List Tree) → Admitted f → Means input.now f → MatchResult result (λ digest. digest ≡ sha256 (spell_bytes f)) IsMemory }
{
    let text = canonical(alloc, input)?;
    Ok(Sha256::digest(text.as_bytes()))
}

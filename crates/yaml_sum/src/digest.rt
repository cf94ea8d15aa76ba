//! The digest of a canonical text.
ghost use Rattle.std.specs.Prelude.{◌≡◌, length, OnOk, IfOk, IfErr};
ghost use Rattle.yaml_canon.specs.Claims.{CanonicalRefuses};
ghost use Rattle.yaml_sum.specs.Digests.{IsDigest, HoldsText};

use sha2::{Digest, Sha256};
use std::alloc::{AllocError, Global};
use yaml_canon::canonical_into;
use yaml_text::fault::Fault;

/// Makes a room this long.
fn lengthen(room: &mut Vec<u8>, len: usize) -> Result<(), AllocError>
    ensures ok { OnOk result (length room.new.items ≡ len) }
{
    room.resize(len, 0)?;
    Ok(())
}

/// Puts the canonical text of the stream that these bytes are at the start of the room, which is made
/// longer where it is too short, and stays so. The answer is the text's length.
fn place(alloc: Global, bytes: &[u8], room: &mut Vec<u8>) -> Result<usize, Fault>
    ensures ok { IfOk result (HoldsText bytes.now room.new.items) }
    ensures err { IfErr result (CanonicalRefuses bytes.now) }
{
    let len = canonical_into(alloc, bytes, room.as_mut_slice())?;
    if len <= room.len() {
        return Ok(len);
    }
    lengthen(room, len)?;
    canonical_into(alloc, bytes, room.as_mut_slice())
}

/// The SHA-256 of the canonical text of the stream that these bytes are. Refused is what `canonical`
/// refuses.
pub(crate) fn digest_of(alloc: Global, bytes: &[u8], room: &mut Vec<u8>) -> Result<[u8; 32], Fault>
    ensures ok { IfOk result (IsDigest bytes.now) }
    ensures err { IfErr result (CanonicalRefuses bytes.now) }
{
    let len = place(alloc, bytes, room)?;
    Ok(Sha256::digest(&room[..len]))
}

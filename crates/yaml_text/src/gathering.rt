//! Reading an input whole.
ghost use Rattle.std.specs.Prelude.{◌<◌, ◌-◌, ◌^◌, IfOk, IfErr};
ghost use Rattle.yaml_text.specs.CountedModel.{faults_of};
ghost use Rattle.yaml_text.specs.Gathering.{Gathers, GatherFails};

use crate::counted::Counted;
use crate::fault::Fault;
use std::alloc::Global;
use std::io::Read;

/// How many bytes are asked of a reader at most in one call.
const PIECE: usize = 4096;

/// For how many bytes there is room at first. The allocator gives so much room by pages, of which only those that are used take memory.
const ROOM: usize = 131_072;

/// All bytes of a reader up to its end, at most `limit`.
///
/// # Errors
/// `TooLong` after `limit + 1` bytes of a longer input. `ReadFault` if the reader fails, also by an interrupted call.
/// `OutOfMemory`.
pub fn gather<R: Read>(
    alloc: Global,
    input: &mut Counted<R>,
    limit: usize,
) -> Result<Vec<u8>, Fault>
    requires room { limit < 2 ^ 64 - 1 }
    requires few { faults_of input.old < 2 ^ 64 - 1 }
    ensures ok { IfOk result (λ v. Gathers R.remaining input.old input.new limit v.items) }
    ensures err { IfErr result (GatherFails R.remaining input.old input.new limit) }
{
    let mut bytes = Vec::with_capacity(alloc, ROOM).map_err(|_| Fault::OutOfMemory)?;
    let mut piece = [0u8; PIECE];
    'read: loop {
        let want = (limit + 1 - bytes.len()).min(PIECE);
        let got = match input.read(&mut piece[..want]) {
            Ok(got) => got,
            Err(_) => return Err(Fault::ReadFault),
        };
        if got == 0 {
            return Ok(bytes);
        }
        bytes
            .extend_from_slice(&piece[..got])
            .map_err(|_| Fault::OutOfMemory)?;
        if bytes.len() > limit {
            return Err(Fault::TooLong);
        }
    }
}

//! Reading a file whole into a buffer that is kept.
ghost use Rattle.std.specs.Prelude.{◌<◌, ◌-◌, ◌^◌, OnOk, IfErr};
ghost use Rattle.yaml_sum.specs.Reading.{GivesAll, GivesNotAll};

use std::io::Read;
use yaml_text::fault::Fault;

/// How many bytes are asked of a reader at most in one call.
const PIECE: usize = 16_384;

/// Puts all that the reader gives up to its end into the buffer, in place of what that held, if it is
/// at most `limit` bytes.
///
/// Of a longer input it reads `limit + 1` bytes and answers `TooLong`. Any error of the reader, an
/// interrupted call too, is `ReadFault`.
pub(crate) fn refill<R: Read>(bytes: &mut Vec<u8>, input: &mut R, limit: usize) -> Result<(), Fault>
    requires { limit < 2 ^ 64 - 1 }
    ensures ok { OnOk result (GivesAll R.remaining input.old input.new limit bytes.new.items) }
    ensures err { IfErr result (GivesNotAll R.remaining input.old input.new limit) }
{
    let mut piece = [0u8; PIECE];
    bytes.clear();
    'read: loop {
        let want = (limit + 1 - bytes.len()).min(PIECE);
        let got = match input.read(&mut piece[..want]) {
            Ok(got) => got,
            Err(_) => return Err(Fault::ReadFault),
        };
        if got == 0 {
            return Ok(());
        }
        bytes
            .extend_from_slice(&piece[..got])
            .map_err(|_| Fault::OutOfMemory)?;
        if bytes.len() > limit {
            return Err(Fault::TooLong);
        }
    }
}

//! Reading a list whole.
ghost use Rattle.std.specs.Prelude.{◌≡◌, OnOk, IfErr};
ghost use Rattle.yaml_sum.specs.Sums.{IsRead};
ghost use Rattle.yaml_sum.specs.Asks.{list_limit, ListUnread};

use crate::file::read_file;
use crate::reason::Reason;
use crate::stop::{Halt, Stop};
use std::io::Read;
use yaml_command::shelf::Shelf;

/// The greatest length of a list, in bytes.
const LIST_LIMIT: usize = 1_073_741_824;

/// Reads the list of a name, or standard input for `-`, into the buffer.
#[tactic(auto, using(crate::proofs::SumLaws::not_opened))]
pub(crate) fn read_list<'a, S: Shelf, R: Read>(
    shelf: &S,
    list: &'a str,
    input: &mut R,
    bytes: &mut Vec<u8>,
) -> Result<(), Halt<'a>>
    ensures ok { OnOk result (IsRead (S.holds shelf.now) R.remaining list.now list_limit input.old input.new bytes.new.items) }
    ensures err { IfErr result (ListUnread (S.holds shelf.now) R.remaining list.now input.old input.new) }
{
    match read_file(shelf, list.as_bytes(), input, bytes, LIST_LIMIT) {
        Ok(()) => Ok(()),
        Err(Stop::CannotOpen(why)) => Err(Halt::NoList(list, why)),
        // A list is opened whatever it is.
        Err(Stop::NotRegular) => Err(Halt::NoList(list, Reason::Other)),
        Err(Stop::Unread(fault) | Stop::Refused(fault)) => Err(Halt::Unread(list, fault)),
    }
}

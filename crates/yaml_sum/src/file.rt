//! The sum of one file.
ghost use Rattle.std.specs.Prelude.{◌≡◌, ◌⊎◌, ◌<◌, ◌-◌, ◌^◌, OnOk, IfOk, IfErr};
ghost use Rattle.yaml_sum.specs.declared.stop.Stop.TheVariants.{Refused, Unread as NotRead};
ghost use Rattle.yaml_sum.specs.Sums.{is_input, kept_line, NotReadAs, IsRead, IsNotRead, HasDigest, HasNone, HasLine, Sums, Cuts};
ghost use Rattle.yaml_command.specs.Shelves.{IsOf};

use crate::buffers::Buffers;
use crate::digest::digest_of;
use crate::line::make_line;
use crate::reading::refill;
use crate::reason::{Reason, reason_of};
use crate::regular::NOT_REGULAR;
use crate::stop::Stop;
use crate::telling::tell;
use std::alloc::Global;
use std::io::{Read, Write};
use std::str;
use yaml_command::shelf::Shelf;
use yaml_spell::page::write_whole;
use yaml_text::counted::Counted;
use yaml_text::fault::Fault;
use yaml_text::limits::text_limit;

/// Whether a name is that of standard input.
fn is_input(name: &[u8]) -> bool
    ensures { result ≡ is_input name.now }
{
    match name {
        [byte] => *byte == b'-',
        _ => false,
    }
}

/// Why a file is not read to its end. One that is too long is refused, as others are for what they hold.
fn unread(fault: Fault) -> Stop
    ensures { (result ≡ Refused fault) ⊎ (result ≡ NotRead fault) }
{
    match fault {
        Fault::TooLong => Stop::Refused(fault),
        _ => Stop::Unread(fault),
    }
}

/// Reads the file of a name into the buffer. A name that is no UTF-8 is not opened.
fn read_named<S: Shelf>(
    shelf: &S,
    name: &[u8],
    bytes: &mut Vec<u8>,
    limit: usize,
) -> Result<(), Stop>
    requires { limit < 2 ^ 64 - 1 }
    ensures ok { OnOk result (IsOf (S.holds shelf.now name.now) bytes.new.items) }
    ensures err { IfErr result (NotReadAs (S.holds shelf.now name.now) name.now limit) }
{
    let text = match str::from_utf8(name) {
        Ok(text) => text,
        Err(_) => return Err(Stop::CannotOpen(Reason::NotUtf8)),
    };
    let mut file = match shelf.open(text) {
        Ok(file) => file,
        Err(error) if error.kind() == NOT_REGULAR => return Err(Stop::NotRegular),
        Err(error) => return Err(Stop::CannotOpen(reason_of(name, error.kind()))),
    };
    match refill(bytes, &mut file, limit) {
        Ok(()) => Ok(()),
        Err(fault) => Err(unread(fault)),
    }
}

/// Reads the file of a name, or standard input for `-`, into the buffer.
pub(crate) fn read_file<S: Shelf, R: Read>(
    shelf: &S,
    name: &[u8],
    input: &mut R,
    bytes: &mut Vec<u8>,
    limit: usize,
) -> Result<(), Stop>
    requires { limit < 2 ^ 64 - 1 }
    ensures ok { OnOk result (IsRead (S.holds shelf.now) R.remaining name.now limit input.old input.new bytes.new.items) }
    ensures err { IfErr result (IsNotRead (S.holds shelf.now) R.remaining name.now limit input.old input.new) }
{
    if !is_input(name) {
        return read_named(shelf, name, bytes, limit);
    }
    match refill(bytes, input, limit) {
        Ok(()) => Ok(()),
        Err(fault) => Err(unread(fault)),
    }
}

/// The digest of the canonical text of the file of a name, or of standard input.
pub(crate) fn digest_file<S: Shelf, R: Read>(
    shelf: &S,
    alloc: Global,
    name: &[u8],
    input: &mut R,
    bytes: &mut Vec<u8>,
    room: &mut Vec<u8>,
) -> Result<[u8; 32], Stop>
    ensures ok { IfOk result (HasDigest (S.holds shelf.now) R.remaining name.now input.old input.new) }
    ensures err { IfErr result (HasNone (S.holds shelf.now) R.remaining name.now input.old input.new) }
{
    read_file(shelf, name, input, bytes, text_limit())?;
    match digest_of(alloc, bytes, room) {
        Ok(digest) => Ok(digest),
        Err(fault) => Err(Stop::Refused(fault)),
    }
}

/// Makes the line of a file.
fn line_of<S: Shelf, R: Read>(
    shelf: &S,
    alloc: Global,
    name: &[u8],
    input: &mut R,
    buffers: &mut Buffers,
) -> Result<(), Stop>
    ensures ok { OnOk result (HasLine (S.holds shelf.now) R.remaining name.now input.old input.new (kept_line buffers.new)) }
    ensures err { IfErr result (HasNone (S.holds shelf.now) R.remaining name.now input.old input.new) }
{
    let digest = digest_file(
        shelf,
        alloc,
        name,
        input,
        &mut buffers.bytes,
        &mut buffers.text,
    )?;
    match make_line(&mut buffers.line, &digest, name) {
        Ok(()) => Ok(()),
        Err(refused) => Err(Stop::Refused(refused.into())),
    }
}

/// Writes the line of a file, or tells why it has none, and answers its status. Refused is what `out`
/// refuses, and want of memory for the line of `err`.
pub(crate) fn sum_file<S: Shelf, R: Read, W: Write, E: Write>(
    shelf: &S,
    alloc: Global,
    name: &[u8],
    input: &mut R,
    buffers: &mut Buffers,
    out: &mut Counted<W>,
    err: &mut Counted<E>,
) -> Result<u8, Fault>
    ensures ok { IfOk result (Sums (S.holds shelf.now) R.remaining W.contents E.contents name.now input.old input.new out.old out.new err.old err.new) }
    ensures cut { IfErr result (Cuts (S.holds shelf.now) R.remaining W.contents E.contents name.now input.old input.new out.old out.new err.old err.new) }
{
    match line_of(shelf, alloc, name, input, buffers) {
        Ok(()) => {
            write_whole(out, buffers.line.as_slice())?;
            Ok(0)
        }
        Err(stop) => {
            tell(alloc, &mut buffers.line, name, &buffers.bytes, stop, err)?;
            Ok(stop.status())
        }
    }
}

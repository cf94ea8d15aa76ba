//! Files that are read.
ghost use Rattle.std.specs.Prelude.{◌≡◌, Ok, IfOk, IfErr};
ghost use Rattle.yaml_command.specs.Shelves.{IsOf};
ghost use Rattle.review_files.specs.Named.{AreNamed, IsUnread, InputFails, ReadsNamed, ReadsNot, NotBothRead, AreNotBoth};
ghost use Rattle.review_files.specs.declared.files.NotBoth.TheVariants.{Unread as NotReadBoth};

use crate::unread::Unread;
use std::alloc::Global;
use std::io::Read;
use yaml_canon::gather;
use yaml_command::shelf::Shelf;
use yaml_sum::reason::reason_of;
use yaml_text::counted::Counted;
use yaml_text::limits::text_limit;

/// The name of standard input.
const INPUT: &str = "-";

/// All of the file of this name.
pub fn read_file<S: Shelf>(shelf: &S, alloc: Global, name: &str) -> Result<Vec<u8>, Unread>
    ensures ok { IfOk result (λ v. IsOf (S.holds shelf.now name.now) v.items) }
    ensures err { IfErr result (IsUnread (S.holds shelf.now name.now)) }
{
    let file = match shelf.open(name) {
        Ok(file) => file,
        Err(error) => return Err(Unread::CannotOpen(reason_of(name.as_bytes(), error.kind()))),
    };
    match gather(alloc, &mut Counted::new(file), text_limit()) {
        Ok(bytes) => Ok(bytes),
        Err(fault) => Err(Unread::Fault(fault)),
    }
}

/// All of standard input.
fn read_input<R: Read>(alloc: Global, input: &mut R) -> Result<Vec<u8>, Unread>
    ensures ok { IfOk result (λ v. IsOf (R.remaining input.old) v.items) }
    ensures err { IfErr result (InputFails (R.remaining input.old)) }
{
    match gather(alloc, &mut Counted::new(input), text_limit()) {
        Ok(bytes) => Ok(bytes),
        Err(fault) => Err(Unread::Fault(fault)),
    }
}

/// All of the file of this name, of which `-` is the input.
pub fn read_named<S: Shelf, R: Read>(
    shelf: &S,
    alloc: Global,
    name: &str,
    input: &mut R,
) -> Result<Vec<u8>, Unread>
    ensures ok { IfOk result (λ v. ReadsNamed (S.holds shelf.now) R.remaining name.now input.old input.new v.items) }
    ensures err { IfErr result (ReadsNot (S.holds shelf.now) R.remaining name.now input.old input.new) }
{
    if name == INPUT {
        read_input(alloc, input)
    } else {
        read_file(shelf, alloc, name)
    }
}

/// Why two files are not both read.
#[derive(Drop)]
pub enum NotBoth {
    /// Both are standard input, which is read once.
    OneInput,
    /// What reading each gave: one at least is not read.
    Unread(Result<Vec<u8>, Unread>, Result<Vec<u8>, Unread>),
}

/// Both files, if both are read.
fn both(
    left: Result<Vec<u8>, Unread>,
    right: Result<Vec<u8>, Unread>,
) -> Result<(Vec<u8>, Vec<u8>), NotBoth>
    ensures ok { IfOk result (λ read. (left ≡ Ok read.0) × (right ≡ Ok read.1)) }
    ensures err { IfErr result (λ none. (none ≡ NotReadBoth left right) × NotBothRead left right) }
{
    match left {
        Ok(left) => match right {
            Ok(right) => Ok((left, right)),
            Err(why) => Err(NotBoth::Unread(Ok(left), Err(why))),
        },
        Err(why) => Err(NotBoth::Unread(Err(why), right)),
    }
}

/// All of two files, of which one may be the input. The left one is read first, and the right one in any case.
pub fn read_both<S: Shelf, R: Read>(
    shelf: &S,
    alloc: Global,
    left: &str,
    right: &str,
    input: &mut R,
) -> Result<(Vec<u8>, Vec<u8>), NotBoth>
    ensures ok { IfOk result (λ both. AreNamed (S.holds shelf.now) (R.remaining input.old) left.now right.now both.0.items both.1.items) }
    ensures err { IfErr result (AreNotBoth (S.holds shelf.now) (R.remaining input.old) left.now right.now) }
{
    if left == INPUT {
        if right == INPUT {
            return Err(NotBoth::OneInput);
        }
        let first = read_input(alloc, input);
        let second = read_file(shelf, alloc, right);
        return both(first, second);
    }
    let first = read_file(shelf, alloc, left);
    let second = read_named(shelf, alloc, right, input);
    both(first, second)
}

//! Which nodes are always written out.
ghost use Rattle.std.specs.Prelude.{◌≡◌};
ghost use Rattle.yaml_spell.specs.Kinds.{number_of_kind};
ghost use Rattle.yaml_spell.specs.ShortNodes.{if_short, scalar_len, brackets_len, shown_len};

use crate::length::Length;
use crate::parts::{Kind, put_scalar, put_tag};
use crate::sink::Sink;
use yaml_text::limits::short_limit;
use yaml_tree::shown::{Inside, Shown};

/// A content of more bytes is not short: each character has four bytes at most, and is written by one or
/// more. So a long content is not read again each time that its node is met.
const LONG: usize = 256;

/// How many bytes a scalar of this tag and content takes, if it is short, else 0.
fn short_scalar_len(tag: &str, content: &str) -> usize
    ensures { result ≡ if_short (scalar_len tag.now content.now) }
{
    if content.len() > LONG {
        return 0;
    }
    let mut length = Length::new(short_limit());
    match put_scalar(&mut length, &mut (), tag, content) {
        Ok(()) => length.len(),
        Err(_) => 0,
    }
}

/// How many bytes a tag and two brackets take, if that is short, else 0.
fn short_brackets_len(tag: &str, kind: Kind) -> usize
    ensures { result ≡ if_short (brackets_len (number_of_kind kind) tag.now) }
{
    let mut length = Length::new(short_limit());
    if put_tag(&mut length, &mut (), tag, kind).is_err() {
        return 0;
    }
    match length.put(&mut (), "[]") {
        Ok(()) => length.len(),
        Err(_) => 0,
    }
}

/// How many bytes a node takes if it is a scalar or an empty collection of few bytes, else 0.
pub fn short_len<I: Copy>(node: &Shown<'_, I>) -> usize
    ensures { result ≡ shown_len node.now.tag.now node.now.inside }
{
    match node.inside {
        Inside::Scalar(content) => short_scalar_len(node.tag, content),
        Inside::Sequence(items) => {
            if items.is_empty() {
                short_brackets_len(node.tag, Kind::Sequence)
            } else {
                0
            }
        }
        Inside::Mapping(entries) => {
            if entries.is_empty() {
                short_brackets_len(node.tag, Kind::Mapping)
            } else {
                0
            }
        }
    }
}

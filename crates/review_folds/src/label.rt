//! Which items moved, in words.
ghost use Rattle.std.specs.Prelude.{◌≡◌, ◌++◌, ◌-◌, Some, option_map, string_bytes, OnOk, IfOk};
ghost use Rattle.yaml_store_rank.specs.Forests.{tree};
ghost use Rattle.review_folds.specs.Labels.{words_of, order_label, others_text, called, name_of, item_label, label, AreKeys};

use crate::Group;
use crate::keys::Keys;
use crate::left::{count_of, left_node};
use crate::names::name_of;
use review_text::text::{node_text, put_all};
use std::alloc::{AllocError, Global};
use yaml_diff::Step;
use yaml_store_rank::RankedForests;
use yaml_tree::node::NodeId;

/// What an item is called: the words that name it and their value or, where it has no name, its own text.
fn put_item(
    alloc: Global,
    out: &mut String,
    forests: &RankedForests<'_>,
    keys: &Keys,
    item: NodeId,
    room: usize,
) -> Result<(), AllocError>
    ensures ok { OnOk result (AreKeys forests.now keys.now → string_bytes out.new ≡ string_bytes out.old ++ called room (tree forests.now item.0) (name_of (Some (tree forests.now item.0)))) }
{
    match name_of(forests, item, keys) {
        Some((words, value)) => {
            let text = node_text(alloc, forests, value, room)?;
            put_all(out, &[words, " ", text.as_str()])?;
        }
        None => {
            let text = node_text(alloc, forests, item, room)?;
            out.push_str(text.as_str())?;
        }
    }
    Ok(())
}

/// What stands for the items of a list behind their number.
#[tactic(auto, using(crate::proofs::LabelLaws::words_none, crate::proofs::LabelLaws::words_some))]
fn words_of(list: &[Step]) -> &'static str
    ensures { result.now ≡ words_of list.now }
{
    if list.is_empty() {
        " documents"
    } else {
        " items"
    }
}

/// What is told of a list of which only the order changed.
fn order_label(
    alloc: Global,
    forests: &RankedForests<'_>,
    list: &[Step],
) -> Result<String, AllocError>
    ensures ok { IfOk result (λ text. string_bytes text ≡ order_label forests.now list.now) }
{
    let count = count_of(forests, list);
    let mut out = String::new(alloc);
    write!(out, "{count}")?;
    put_all(
        &mut out,
        &[words_of(list), " in another order, none changed"],
    )?;
    Ok(out)
}

/// How many others there are, if there are some.
#[tactic(auto, using(crate::proofs::LabelLaws::others_none, crate::proofs::LabelLaws::others_some))]
fn put_others(out: &mut String, others: usize) -> Result<(), AllocError>
    ensures ok { OnOk result (string_bytes out.new ≡ string_bytes out.old ++ others_text others) }
{
    if others == 0 {
        return Ok(());
    }
    write!(out, " and {others} more")?;
    Ok(())
}

/// How many items of a group there are beside the first one.
fn others_of(group: Group) -> usize
    ensures { result ≡ (group.end - group.first) - 1 }
{
    group.end.saturating_sub(group.first).saturating_sub(1)
}

/// What an item is called, and how many others there are.
fn item_label(
    alloc: Global,
    forests: &RankedForests<'_>,
    keys: &Keys,
    item: NodeId,
    others: usize,
    room: usize,
) -> Result<String, AllocError>
    ensures ok { IfOk result (λ text. AreKeys forests.now keys.now → Some (string_bytes text) ≡ item_label room others (Some (tree forests.now item.0))) }
{
    let mut out = String::new(alloc);
    put_item(alloc, &mut out, forests, keys, item, room)?;
    put_others(&mut out, others)?;
    Ok(out)
}

/// Which items moved, where this path leads to the first of them: what that is called, and how many others there are; or how many a
/// list has of which only the order changed. A text of a node has at most `room` bytes, and `...` if it is cut.
///
/// # Errors
/// `OutOfMemory`
pub fn label_of(
    alloc: Global,
    forests: &RankedForests<'_>,
    keys: &Keys,
    group: Group,
    path: &[Step],
    room: usize,
) -> Result<Option<String>, AllocError>
    ensures ok { IfOk result (λ told. AreKeys forests.now keys.now → option_map string_bytes told ≡ label forests.now room group path.now) }
{
    let Some((_, list)) = path.split_first() else {
        return Ok(None);
    };
    if group.whole {
        return Ok(Some(order_label(alloc, forests, list)?));
    }
    let Some(item) = left_node(forests, path) else {
        return Ok(None);
    };
    Ok(Some(item_label(alloc, forests, keys, item, others_of(group), room)?))
}

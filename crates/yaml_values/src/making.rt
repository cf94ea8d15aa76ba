//! The values of ranked nodes.
ghost use Rattle.std.specs.Prelude.{◌<◌, length, map, IfOk};
ghost use Rattle.std.specs.List.{All};
ghost use Rattle.std.specs.String.{string_bytes};
ghost use Rattle.yaml_tree.specs.Shown.{inside_shown};
ghost use Rattle.yaml_store_rank.specs.Walked.{StandsFor, walked_tree};
ghost use Rattle.yaml_values.specs.Denotes.{Denotes};
ghost use Rattle.yaml_values.specs.Making.{MakesInside, MakesValue};

use crate::parts::{are_below, are_entries_below, put_entries, put_items};
use crate::tags::TagPlaces;
use crate::texts::{place, put_text};
use crate::value::{Span, Value, scalar_kind};
use std::alloc::Global;
use yaml_store_rank::Ranked;
use yaml_text::fault::Fault;
use yaml_tree::shown::{Inside, Shown};

/// The values of a stream. Those of the documents are the first parts, so many.
#[derive(Drop)]
pub struct Values {
    pub values: Vec<Value>,
    pub parts: Vec<u32>,
    pub texts: String,
    pub documents: usize,
}

/// What is inside a value is put behind the others: its kind, and where that is.
fn put_inside(
    texts: &mut String,
    parts: &mut Vec<u32>,
    number: usize,
    shown: &Shown<'_, u32>,
) -> Result<(u32, Span), Fault>
    ensures { IfOk result (λ made. MakesInside (string_bytes texts.old) (string_bytes texts.new) parts.old.items parts.new.items number shown.now.tag.now (inside_shown (λ r. r) shown.now.inside) made.0 made.1) }
{
    match shown.inside {
        Inside::Scalar(content) => Ok((scalar_kind(shown.tag), put_text(texts, content)?)),
        Inside::Sequence(items) => {
            if !are_below(items, number) {
                return Err(Fault::OutOfMemory);
            }
            Ok((6, put_items(parts, items)?))
        }
        Inside::Mapping(entries) => {
            if !are_entries_below(entries, number) {
                return Err(Fault::OutOfMemory);
            }
            Ok((7, put_entries(parts, entries)?))
        }
    }
}

/// The value of a node.
fn put_value<'r>(
    tags: &mut TagPlaces<'r>,
    texts: &mut String,
    parts: &mut Vec<u32>,
    number: usize,
    shown: &Shown<'r, u32>,
) -> Result<Value, Fault>
    ensures { IfOk result (MakesValue (string_bytes texts.old) (string_bytes texts.new) parts.old.items parts.new.items number shown.now.tag.now (inside_shown (λ r. r) shown.now.inside)) }
{
    let tag = tags.put(texts, shown.tag)?;
    let (kind, span) = put_inside(texts, parts, number, shown)?;
    Ok(Value {
        kind,
        tag_start: tag.start,
        tag_end: tag.end,
        start: span.start,
        end: span.end,
    })
}

/// The values of ranked nodes, where these are the ranks of the documents' roots. The number of a value is its rank.
pub fn values_of(alloc: Global, ranked: &Ranked<'_>, roots: &[u32]) -> Result<Values, Fault>
    requires stands { StandsFor ranked.now }
    requires roots { All (λ r. r < length ranked.now.first.items) roots.now }
    ensures { IfOk result (λ v. Denotes v.values.items v.parts.items (string_bytes v.texts) v.documents (map (walked_tree ranked.now) roots.now)) }
{
    let mut tags = TagPlaces::new(alloc);
    let mut texts = String::new(alloc);
    let mut parts = Vec::new(alloc);
    parts.extend_from_slice(roots)?;
    let mut values = Vec::with_capacity(alloc, ranked.len())?;
    for number in 0..ranked.len() {
        let id = place(number)?;
        let shown = ranked.node(id);
        values.push(put_value(&mut tags, &mut texts, &mut parts, number, &shown)?)?;
    }
    Ok(Values {
        values,
        parts,
        texts,
        documents: roots.len(),
    })
}

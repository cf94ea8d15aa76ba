//! Parts of values, one after another.
ghost use Rattle.std.specs.Prelude.{◌<◌, IfOk};
ghost use Rattle.std.specs.Bool.{OnTrue};
ghost use Rattle.std.specs.List.{All};
ghost use Rattle.yaml_values.specs.Ranges.{Puts, in_turn};

use crate::texts::place;
use crate::value::Span;
use yaml_text::fault::Fault;

/// Puts the items of a value behind the parts. Where they are.
pub(crate) fn put_items(parts: &mut Vec<u32>, items: &[u32]) -> Result<Span, Fault>
    ensures { IfOk result (λ s. Puts parts.old.items parts.new.items s.start s.end items.now) }
{
    let start = place(parts.len())?;
    parts.extend_from_slice(items)?;
    let end = place(parts.len())?;
    Ok(Span { start, end })
}

/// Puts the keys and values of a mapping behind the parts, in turn. Where they are.
pub(crate) fn put_entries(parts: &mut Vec<u32>, entries: &[(u32, u32)]) -> Result<Span, Fault>
    ensures { IfOk result (λ s. Puts parts.old.items parts.new.items s.start s.end (in_turn entries.now)) }
{
    let start = place(parts.len())?;
    for entry in entries {
        parts.push(entry.0)?;
        parts.push(entry.1)?;
    }
    let end = place(parts.len())?;
    Ok(Span { start, end })
}

/// Whether each of these values is before the one of this number.
pub(crate) fn are_below(items: &[u32], number: usize) -> bool
    ensures { OnTrue result (All (λ i. i < number) items.now) }
{
    for item in items {
        if *item as usize >= number {
            return false;
        }
    }
    true
}

/// The same of keys and values.
pub(crate) fn are_entries_below(entries: &[(u32, u32)], number: usize) -> bool
    ensures { OnTrue result (All (λ p. (p.0 < number) × (p.1 < number)) entries.now) }
{
    for entry in entries {
        if entry.0 as usize >= number || entry.1 as usize >= number {
            return false;
        }
    }
    true
}

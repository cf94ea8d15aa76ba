//! Block sequences and mappings, entry by entry (YAML 1.2.2, 8.2.1 and 8.2.2).
ghost use Rattle.std.specs.Prelude.{IfSome, IfNone, IfOk, IfErr};
ghost use Rattle.std.specs.Bool.{OnTrue, OnFalse};
ghost use Rattle.yaml_text.specs.Source.{text_of, place_of};
ghost use Rattle.yaml_text.specs.LeafAnswer.{IsRefusal};
ghost use Rattle.yaml_text.specs.Placed.{IsPlaced};
ghost use Rattle.law_one_reading.specs.Follows.{Dash};
ghost use Rattle.yaml_layout.specs.NodeAnswer.{Perhaps};
ghost use Rattle.yaml_sink.specs.SinkModel.{holds_of};
ghost use Rattle.yaml_sink.specs.PropertyRules.{props_of};
ghost use Rattle.yaml_block.specs.BlockEnds.{NoneIn, IsFurther};
ghost use Rattle.yaml_block.specs.BlockCalls.{StartsEntryLine, StartsSequence, StartsInside, EndsLine, IsNext, IsNextDash, key_rule, sequence_rule, closed_rule, rest_rule, opened_at, StartsOpened, DecidesRest, ReadsLine, DecidesSequence, DecidesEntries, DecidesNextKey};

use crate::block::keys::read_key;
use crate::block::nodes::Opened;
use crate::block::signs::{Indicator, dash};
use crate::block::values::{open_entry, open_value};
use std::alloc::Global;
use yaml_layout::flow::FlowReader;
use yaml_layout::level::Level;
use yaml_layout::line::{Line, has_content};
use yaml_sink::properties::Properties;
use yaml_sink::push::{push_block_sequence, push_mapping_end, push_sequence_end};
use yaml_sink::sink::{Keeper, Sink};
use yaml_text::chars::Chars;
use yaml_text::context::Ctx;
use yaml_text::fault::Fault;
use yaml_text::lines::unusable;

/// Whether a line at a collection's column or further left is its next entry's; one further right is none's.
fn goes_on(source: &Chars<'_>, line: Line, column: usize) -> Result<bool, Fault>
    requires { StartsEntryLine source.now line }
    ensures next { IfOk result (λ is_next. OnTrue is_next (IsNext source.now line column)) }
    ensures over { IfOk result (λ is_next. OnFalse is_next (NoneIn source.now line column)) }
    ensures err { IfErr result IsRefusal }
    ensures further { IfErr result (λ _. IsFurther source.now line column) }
    ensures placed { IfErr result (IsPlaced source.now) }
{
    if !has_content(source, line) {
        return Ok(false);
    }
    if line.column < column {
        Ok(false)
    } else if line.column == column {
        Ok(true)
    } else {
        Err(unusable(source, line.first))
    }
}

/// The border after the dash of a sequence's next entry, if a line at its column or further left begins with one.
fn next_dash(source: &Chars<'_>, line: Line, column: usize) -> Result<Option<usize>, Fault>
    requires { StartsEntryLine source.now line }
    ensures found { IfOk result (λ found. IfSome found (IsNextDash source.now line column)) }
    ensures none { IfOk result (λ found. IfNone found (Dash (text_of source.now) column (place_of source.now line.start) → ⊥)) }
    ensures err { IfErr result IsRefusal }
    ensures further { IfErr result (λ _. IsFurther source.now line column) }
    ensures placed { IfErr result (IsPlaced source.now) }
{
    if !goes_on(source, line, column)? {
        return Ok(None);
    }
    match dash(source, line.first) {
        None => Ok(None),
        Some(after) => Ok(Some(after)),
    }
}

/// The border after the colon of a mapping's next key, if a line at its column or further left begins with one.
#[inline(always)]
fn next_colon<'a, K: Keeper, F: FlowReader>(
    alloc: Global,
    source: &Chars<'a>,
    line: Line,
    column: usize,
    level: &Level<'_, 'a>,
    out: &mut Sink<'a, K>,
) -> Result<Option<usize>, Fault>
    requires { StartsEntryLine source.now line }
    ensures reads { Perhaps (λ _. key_rule source.now level.now) (place_of source.now line.first) (place_of source.now) (holds_of K.holds) out.old out.new result }
    ensures decides { DecidesNextKey source.now level.now line column result }
    ensures placed { IfErr result (IsPlaced source.now) }
{
    if !goes_on(source, line, column)? {
        return Ok(None);
    }
    let colon = read_key::<K, F>(alloc, source, line.first, column, level, out)?;
    Ok(Some(colon))
}

/// The rest of a node whose start was read, and the line after it.
#[inline(always)]
#[cycle(blocks)]
pub fn read_opened<'a, K: Keeper, F: FlowReader>(
    alloc: Global,
    source: &Chars<'a>,
    opened: Opened<'a>,
    level: &Level<'_, 'a>,
    out: &mut Sink<'a, K>,
) -> Result<Line, Fault>
    requires { StartsOpened source.now level.now opened }
    ensures ends { IfOk result (EndsLine source.now (opened_at opened.entry)) }
    ensures reads { ReadsLine (rest_rule opened.entry) source.now level.now (opened_at opened.entry) (holds_of K.holds) out.old out.new result }
    ensures decides { DecidesRest source.now level.now opened.entry result }
    ensures placed { IfErr result (IsPlaced source.now) }
{
    match opened {
        Opened::Whole(line) => Ok(line),
        Opened::Mapping { column, after } => {
            read_entries::<K, F>(alloc, source, after, column, level, out)
        }
        Opened::Sequence(first, properties) => {
            read_sequence::<K, F>(alloc, source, first, properties, level, out)
        }
    }
}

/// A block sequence with its properties, from its first dash on (8.2.1).
#[inline(never)]
#[cycle(blocks)]
pub fn read_sequence<'a, K: Keeper, F: FlowReader>(
    alloc: Global,
    source: &Chars<'a>,
    first: Indicator,
    properties: Properties<'a>,
    level: &Level<'_, 'a>,
    out: &mut Sink<'a, K>,
) -> Result<Line, Fault>
    requires { StartsSequence source.now first }
    ensures ends { IfOk result (EndsLine source.now first.at) }
    ensures reads { ReadsLine (sequence_rule (props_of properties.entry) first.column) source.now level.now first.at (holds_of K.holds) out.old out.new result }
    ensures decides { DecidesSequence source.now level.now first.at (props_of properties.entry) first.column result }
    ensures placed { IfErr result (IsPlaced source.now) }
{
    if level.room == 0 {
        return Err(Fault::TooDeep(source.pos(first.at)));
    }
    push_block_sequence(out, properties, first.at)?;
    let inside = Level {
        least: first.column + 1,
        context: Ctx::BlockIn,
        room: level.room - 1,
        ..*level
    };
    let mut after = first.after;
    'entries: loop {
        let opened = open_entry::<K, F>(alloc, source, after, first.column, &inside, out)?;
        let line = read_opened::<K, F>(alloc, source, opened, &inside, out)?;
        match next_dash(source, line, first.column)? {
            None => {
                push_sequence_end(out, line.start)?;
                return Ok(line);
            }
            Some(next) => {
                after = next;
            }
        }
    }
}

/// The entries of a block mapping in this column, from its first key's colon on, and its end (8.2.2).
#[inline(never)]
#[cycle(blocks)]
fn read_entries<'a, K: Keeper, F: FlowReader>(
    alloc: Global,
    source: &Chars<'a>,
    after: usize,
    column: usize,
    level: &Level<'_, 'a>,
    out: &mut Sink<'a, K>,
) -> Result<Line, Fault>
    requires { StartsInside source.now level.now column after }
    ensures ends { IfOk result (EndsLine source.now after) }
    ensures reads { ReadsLine (closed_rule column) source.now level.now after (holds_of K.holds) out.old out.new result }
    ensures decides { DecidesEntries source.now level.now after column result }
    ensures placed { IfErr result (IsPlaced source.now) }
{
    let inside = Level {
        least: column + 1,
        context: Ctx::BlockOut,
        room: level.room - 1,
        ..*level
    };
    let mut colon = after;
    'entries: loop {
        let opened = open_value::<K, F>(alloc, source, colon, &inside, out)?;
        let line = read_opened::<K, F>(alloc, source, opened, &inside, out)?;
        match next_colon::<K, F>(alloc, source, line, column, &inside, out)? {
            None => {
                push_mapping_end(out, line.start)?;
                return Ok(line);
            }
            Some(next) => {
                colon = next;
            }
        }
    }
}

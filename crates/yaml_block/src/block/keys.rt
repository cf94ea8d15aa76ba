//! Keys of block mappings (YAML 1.2.2, 8.2.2).
ghost use Rattle.std.specs.Prelude.{IfOk, IfErr};
ghost use Rattle.yaml_text.specs.Source.{IsBorder};
ghost use Rattle.yaml_text.specs.LeafAnswer.{IsRefusal};
ghost use Rattle.yaml_text.specs.Placed.{IsPlaced};
ghost use Rattle.yaml_sink.specs.SinkModel.{holds_of};
ghost use Rattle.yaml_block.specs.BlockCalls.{StartsIn, IsFirstKey, ReadsFirstKey, NoKeyFits, EndsKey, ReadsKey, DecidesKey};

use crate::block::signs::{first_colon, line_goes_on};
use crate::block::words::read_word_key;
use std::alloc::Global;
use yaml_layout::flow::{FlowNode, FlowReader};
use yaml_layout::key::{Fit, key_fit};
use yaml_layout::level::Level;
use yaml_layout::properties::{Head, read_properties};
use yaml_mark::starts::begins_word;
use yaml_sink::list::EventList;
use yaml_sink::sink::{Keeper, Sink};
use yaml_text::chars::Chars;
use yaml_text::context::Ctx;
use yaml_text::fault::Fault;
use yaml_text::lines::{skip_spaces, unusable};
use yaml_text::places::accept;

/// A flow node that was read, and the mark where its events begin.
#[derive(Clone, Copy)]
pub struct Begun {
    pub node: FlowNode,
    pub start: usize,
}

/// The same, read as the first key of a mapping is, as a node that is a key if a colon follows.
#[inline(never)]
fn read_other_key<'a, K: Keeper, F: FlowReader>(
    alloc: Global,
    source: &Chars<'a>,
    at: usize,
    column: usize,
    level: &Level<'_, 'a>,
    out: &mut Sink<'a, K>,
) -> Result<usize, Fault>
    requires { StartsIn source.now column at }
    ensures ends { IfOk result (EndsKey source.now at) }
    ensures reads { ReadsKey source.now level.now at (holds_of K.holds) out.old out.new result }
    ensures decides { DecidesKey source.now level.now at result }
    ensures placed { IfErr result (IsPlaced source.now) }
{
    let begin = out.mark();
    let (own, end) = read_properties(alloc, source, at, 0, Ctx::BlockKey, level.handles)?;
    if !line_goes_on(source, end, &own) {
        return Err(unusable(source, end));
    }
    let head = Head { at, end, own };
    let flow = Level {
        least: column,
        context: Ctx::FlowOut,
        ..*level
    };
    let key = F::read_bare(alloc, source, &head, &flow, out)?;
    match first_colon(source, at, key.end, Some(column))? {
        None => Err(unusable(source, key.end)),
        Some(colon) => {
            out.dress(begin, head.own);
            Ok(colon.1)
        }
    }
}

/// The key of an entry in this column, which has to stand at a border, and the border after its colon.
#[inline(always)]
fn read_entry_key<'a, K: Keeper, F: FlowReader>(
    alloc: Global,
    source: &Chars<'a>,
    at: usize,
    column: usize,
    level: &Level<'_, 'a>,
    out: &mut Sink<'a, K>,
) -> Result<usize, Fault>
    requires { StartsIn source.now column at }
    ensures ends { IfOk result (EndsKey source.now at) }
    ensures reads { ReadsKey source.now level.now at (holds_of K.holds) out.old out.new result }
    ensures decides { DecidesKey source.now level.now at result }
    ensures placed { IfErr result (IsPlaced source.now) }
{
    if begins_word(source, at) {
        return read_word_key::<K, F>(alloc, source, at, column, level, out);
    }
    read_other_key::<K, F>(alloc, source, at, column, level, out)
}

/// The fault of a line on which no key stands, at the place where a key that is read by itself ends. The sink's type is that of
/// the line's reader, so that both read by the same code.
#[inline(never)]
fn key_fault<'a, K: Keeper, F: FlowReader>(
    alloc: Global,
    source: &Chars<'a>,
    at: usize,
    level: &Level<'_, 'a>,
) -> Fault
    requires { IsBorder source.now at }
    ensures refusal { IsRefusal result }
    ensures placed { IsPlaced source.now result }
{
    let mut events: Sink<'_, K> = Sink::Listed(EventList::new(alloc));
    let alone = Level {
        least: 0,
        context: Ctx::BlockKey,
        ..*level
    };
    match F::read_flow_node(alloc, source, at, &alone, &mut events) {
        Err(fault) => fault,
        Ok(key) => {
            let (_, colon) = skip_spaces(source, key.end);
            match accept(source, colon, ':') {
                None => unusable(source, colon),
                Some(_) => match key_fit(source, at, colon) {
                    Fit::Long => Fault::KeyTooLong(source.pos(at)),
                    _ => Fault::Syntax(source.pos(colon)),
                },
            }
        }
    }
}

/// A key in this column that has to stand at a border, and the border after its colon.
#[inline(always)]
pub fn read_key<'a, K: Keeper, F: FlowReader>(
    alloc: Global,
    source: &Chars<'a>,
    at: usize,
    column: usize,
    level: &Level<'_, 'a>,
    out: &mut Sink<'a, K>,
) -> Result<usize, Fault>
    requires { StartsIn source.now column at }
    ensures ends { IfOk result (EndsKey source.now at) }
    ensures reads { ReadsKey source.now level.now at (holds_of K.holds) out.old out.new result }
    ensures decides { DecidesKey source.now level.now at result }
    ensures placed { IfErr result (IsPlaced source.now) }
{
    match read_entry_key::<K, F>(alloc, source, at, column, level, out) {
        Ok(after) => Ok(after),
        Err(Fault::OutOfMemory) => Err(Fault::OutOfMemory),
        Err(_) => Err(key_fault::<K, F>(alloc, source, at, level)),
    }
}

/// The first key of a mapping, which was read with as much room as the mapping itself has: read again where that was too much.
#[inline(never)]
pub fn fit_key<'a, K: Keeper, F: FlowReader>(
    alloc: Global,
    source: &Chars<'a>,
    head: &Head<'a>,
    key: Begun,
    level: &Level<'_, 'a>,
    out: &mut Sink<'a, K>,
) -> Result<(), Fault>
    requires { IsFirstKey source.now level.now head.now key }
    ensures reads { IfOk result (λ _. ReadsFirstKey source.now level.now head.now key (holds_of K.holds) out.old out.new) }
    ensures err { IfErr result IsRefusal }
    ensures decides { IfErr result (NoKeyFits source.now level.now head.now) }
    ensures placed { IfErr result (IsPlaced source.now) }
{
    if key.node.deep < level.room {
        return Ok(());
    }
    if level.room == 0 {
        return Err(Fault::TooDeep(source.pos(head.at)));
    }
    out.cut(key.start);
    let inside = Level {
        context: Ctx::FlowOut,
        room: level.room - 1,
        ..*level
    };
    let again = F::read_bare(alloc, source, head, &inside, out)?;
    if again.end == key.node.end {
        Ok(())
    } else {
        Err(unusable(source, again.end))
    }
}

//! Block scalars (YAML 1.2.2, 8.1) and the empty node, with their properties.
ghost use Rattle.std.specs.Prelude.{◌≡◌, ◌≤◌, IfOk, IfErr};
ghost use Rattle.yaml_definitions.specs.model.Limits.{text_limit};
ghost use Rattle.yaml_text.specs.Source.{text_of, place_of};
ghost use Rattle.yaml_definitions.specs.grammar.Events.{e-scalar as empty, no_props};
ghost use Rattle.yaml_text.specs.declared.fault.Fault.TheVariants.{OutOfMemory};
ghost use Rattle.yaml_scalar.specs.BlockModel.{column};
ghost use Rattle.yaml_text.specs.Placed.{IsPlaced};
ghost use Rattle.law_going_on.specs.GoingOn.{Here};
ghost use Rattle.yaml_layout.specs.NodeAnswer.{Appends, Decides};
ghost use Rattle.yaml_sink.specs.Held.{Puts};
ghost use Rattle.yaml_sink.specs.SinkModel.{holds_of};
ghost use Rattle.yaml_sink.specs.PropertyRules.{props_of};
ghost use Rattle.yaml_block.specs.BlockRules.{block_scalar_rest};
ghost use Rattle.yaml_block.specs.BlockEnds.{AfterScalar};
ghost use Rattle.yaml_block.specs.BlockCalls.{StartsScalar, EndsLine};
ghost use Rattle.yaml_block.specs.declared.block.signs.Block.TheVariants.{Literal, Folded};

use crate::block::signs::{Block, Sign};
use std::alloc::Global;
use yaml_layout::line::{Line, line_at};
use yaml_scalar::block::{read_folded, read_literal};
use yaml_sink::properties::Properties;
use yaml_sink::push::{push_empty, push_scalar};
use yaml_sink::sink::{Keeper, Sink};
use yaml_text::chars::Chars;
use yaml_text::context::Ctx;
use yaml_text::event::Style;
use yaml_text::fault::Fault;

/// The indentation of a parent, by the column after it.
fn parent(col: usize) -> i32
    requires { col ≤ text_limit }
    ensures { column result ≡ col }
{
    col as i32 - 1
}

/// A literal scalar (8.1.2) without its properties, and the line after it.
#[inline(never)]
fn read_literal_node<'a, K: Keeper>(
    alloc: Global,
    source: &Chars<'a>,
    at: usize,
    col: usize,
    out: &mut Sink<'a, K>,
) -> Result<Line, Fault>
    requires { StartsScalar source.now col at Literal }
    ensures ends { IfOk result (EndsLine source.now at) }
    ensures reads { Appends (λ _. block_scalar_rest (text_of source.now) no_props col) (place_of source.now at) (λ line. place_of source.now line.start) (holds_of K.holds) out.old out.new result }
    ensures decides { Decides (block_scalar_rest (text_of source.now) no_props col) (AfterScalar (text_of source.now)) (place_of source.now at) Here (λ line. place_of source.now line.start) result }
    ensures placed { IfErr result (IsPlaced source.now) }
{
    let (text, end) = read_literal(alloc, source, at, parent(col), Ctx::BlockIn)?;
    push_scalar(out, Style::Literal, text, at)?;
    Ok(line_at(source, end))
}

/// A folded scalar (8.1.3) without its properties, and the line after it.
#[inline(never)]
fn read_folded_node<'a, K: Keeper>(
    alloc: Global,
    source: &Chars<'a>,
    at: usize,
    col: usize,
    out: &mut Sink<'a, K>,
) -> Result<Line, Fault>
    requires { StartsScalar source.now col at Folded }
    ensures ends { IfOk result (EndsLine source.now at) }
    ensures reads { Appends (λ _. block_scalar_rest (text_of source.now) no_props col) (place_of source.now at) (λ line. place_of source.now line.start) (holds_of K.holds) out.old out.new result }
    ensures decides { Decides (block_scalar_rest (text_of source.now) no_props col) (AfterScalar (text_of source.now)) (place_of source.now at) Here (λ line. place_of source.now line.start) result }
    ensures placed { IfErr result (IsPlaced source.now) }
{
    let (text, end) = read_folded(alloc, source, at, parent(col), Ctx::BlockIn)?;
    push_scalar(out, Style::Folded, text, at)?;
    Ok(line_at(source, end))
}

/// A block scalar without its properties, and the line after it.
fn read_bare_scalar<'a, K: Keeper>(
    alloc: Global,
    source: &Chars<'a>,
    sign: Sign,
    col: usize,
    out: &mut Sink<'a, K>,
) -> Result<Line, Fault>
    requires { StartsScalar source.now col sign.at sign.block }
    ensures ends { IfOk result (EndsLine source.now sign.at) }
    ensures reads { Appends (λ _. block_scalar_rest (text_of source.now) no_props col) (place_of source.now sign.at) (λ line. place_of source.now line.start) (holds_of K.holds) out.old out.new result }
    ensures decides { Decides (block_scalar_rest (text_of source.now) no_props col) (AfterScalar (text_of source.now)) (place_of source.now sign.at) Here (λ line. place_of source.now line.start) result }
    ensures placed { IfErr result (IsPlaced source.now) }
{
    match sign.block {
        Block::Literal => read_literal_node(alloc, source, sign.at, col, out),
        Block::Folded => read_folded_node(alloc, source, sign.at, col, out),
    }
}

/// A block scalar with its properties, and the line after it.
pub fn read_block_scalar<'a, K: Keeper>(
    alloc: Global,
    source: &Chars<'a>,
    sign: Sign,
    properties: Properties<'a>,
    col: usize,
    out: &mut Sink<'a, K>,
) -> Result<Line, Fault>
    requires { StartsScalar source.now col sign.at sign.block }
    ensures ends { IfOk result (EndsLine source.now sign.at) }
    ensures reads { Appends (λ _. block_scalar_rest (text_of source.now) (props_of properties.entry) col) (place_of source.now sign.at) (λ line. place_of source.now line.start) (holds_of K.holds) out.old out.new result }
    ensures decides { Decides (block_scalar_rest (text_of source.now) (props_of properties.entry) col) (AfterScalar (text_of source.now)) (place_of source.now sign.at) Here (λ line. place_of source.now line.start) result }
    ensures placed { IfErr result (IsPlaced source.now) }
{
    let start = out.mark();
    let line = read_bare_scalar(alloc, source, sign, col, out)?;
    out.dress(start, properties);
    Ok(line)
}

/// The empty scalar with these properties, at this offset.
#[inline(always)]
pub fn push_lone<'a, K: Keeper>(
    properties: Properties<'a>,
    at: usize,
    out: &mut Sink<'a, K>,
) -> Result<(), Fault>
    ensures ok { IfOk result (λ _. Puts (holds_of K.holds) out.old (empty (props_of properties.entry)) out.new) }
    ensures err { IfErr result (λ e. e ≡ OutOfMemory) }
{
    let start = out.mark();
    push_empty(out, at)?;
    out.dress(start, properties);
    Ok(())
}

/// The empty scalar without properties, at this offset. It is inlined, so that its answer has no room of its own in the frame of
/// a call that nests.
#[inline(always)]
pub fn push_nothing<'a, K: Keeper>(at: usize, out: &mut Sink<'a, K>) -> Result<(), Fault>
    ensures ok { IfOk result (λ _. Puts (holds_of K.holds) out.old (empty no_props) out.new) }
    ensures err { IfErr result (λ e. e ≡ OutOfMemory) }
{
    push_empty(out, at)
}

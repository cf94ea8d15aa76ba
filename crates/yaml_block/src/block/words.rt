//! Keys and values that begin with a letter or a digit, as most do. They are plain scalars without properties, and are read
//! without a call that nests.
ghost use Rattle.std.specs.Prelude.{IfOk, IfErr, None};
ghost use Rattle.std.specs.Char.{is_ascii_alphanumeric};
ghost use Rattle.yaml_text.specs.Source.{text_of, place_of};
ghost use Rattle.yaml_definitions.specs.grammar.Rules.{Stands};
ghost use Rattle.yaml_text.specs.Placed.{IsPlaced};
ghost use Rattle.yaml_sink.specs.SinkModel.{holds_of};
ghost use Rattle.yaml_block.specs.BlockCalls.{StartsIn, StartsWord, EndsLine, EndsKey, node_rule, ReadsLine, ReadsKey, DecidesBlockNode, DecidesKey};

use crate::block::signs::first_colon;
use std::alloc::Global;
use yaml_layout::flow::FlowReader;
use yaml_layout::level::Level;
use yaml_layout::line::{Line, next_line};
use yaml_sink::sink::{Keeper, Sink};
use yaml_text::chars::Chars;
use yaml_text::context::Ctx;
use yaml_text::fault::Fault;
use yaml_text::lines::unusable;

/// A value on the line of its sign that begins with a letter or a digit, and the line after it.
#[inline(always)]
pub fn read_word<'a, K: Keeper, F: FlowReader>(
    alloc: Global,
    source: &Chars<'a>,
    at: usize,
    level: &Level<'_, 'a>,
    out: &mut Sink<'a, K>,
) -> Result<Line, Fault>
    requires { StartsWord source.now level.now at }
    ensures ends { IfOk result (EndsLine source.now at) }
    ensures reads { ReadsLine (node_rule None) source.now level.now at (holds_of K.holds) out.old out.new result }
    ensures decides { DecidesBlockNode source.now level.now at (node_rule None) result }
    ensures placed { IfErr result (IsPlaced source.now) }
{
    let flow = Level {
        context: Ctx::FlowOut,
        ..*level
    };
    let found = F::read_plain_node(alloc, source, at, &flow, out)?;
    match found {
        None => Err(unusable(source, at)),
        Some(node) => {
            let line = next_line(source, node.end)?;
            Ok(line)
        }
    }
}

/// The key of an entry in this column that begins with a letter or a digit, and the border after its colon.
#[inline(never)]
pub fn read_word_key<'a, K: Keeper, F: FlowReader>(
    alloc: Global,
    source: &Chars<'a>,
    at: usize,
    column: usize,
    level: &Level<'_, 'a>,
    out: &mut Sink<'a, K>,
) -> Result<usize, Fault>
    requires start { StartsIn source.now column at }
    requires word { Stands (text_of source.now) is_ascii_alphanumeric (place_of source.now at) }
    ensures ends { IfOk result (EndsKey source.now at) }
    ensures reads { ReadsKey source.now level.now at (holds_of K.holds) out.old out.new result }
    ensures decides { DecidesKey source.now level.now at result }
    ensures placed { IfErr result (IsPlaced source.now) }
{
    let flow = Level {
        least: column,
        context: Ctx::FlowOut,
        ..*level
    };
    let found = F::read_plain_node(alloc, source, at, &flow, out)?;
    match found {
        None => Err(unusable(source, at)),
        Some(key) => match first_colon(source, at, key.end, Some(column))? {
            None => Err(unusable(source, key.end)),
            Some(colon) => Ok(colon.1),
        },
    }
}

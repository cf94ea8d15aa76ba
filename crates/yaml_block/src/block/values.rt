//! What stands after a colon or a dash, on its line or below (YAML 1.2.2, 8.2).
ghost use Rattle.std.specs.Prelude.{IfOk, IfErr};
ghost use Rattle.yaml_text.specs.Source.{text_of};
ghost use Rattle.yaml_text.specs.Placed.{IsPlaced};
ghost use Rattle.yaml_sink.specs.SinkModel.{holds_of};
ghost use Rattle.yaml_block.specs.BlockEnds.{AfterEntry};
ghost use Rattle.yaml_block.specs.BlockCalls.{StartsBlockValue, StartsEntry, StartsBelow, EndsLine, value_rule, inner_rule, line_rule, ReadsLine, DecidesBlockNode, EndsOpened, ReadsOpened, DecidesOpened, DecidesOpenedNode};

use crate::block::collections::read_opened;
use crate::block::nodes::{Opened, Site, open_node};
use crate::block::scalars::push_nothing;
use crate::block::signs::{Below, Indicator, begins_below, dash};
use crate::block::words::read_word;
use std::alloc::Global;
use yaml_layout::flow::FlowReader;
use yaml_layout::level::Level;
use yaml_layout::line::{Line, line_at, skip_line_rest};
use yaml_mark::starts::begins_word;
use yaml_sink::properties::Properties;
use yaml_sink::sink::{Keeper, Sink};
use yaml_text::chars::Chars;
use yaml_text::context::Ctx;
use yaml_text::fault::Fault;
use yaml_text::lines::{skip_spaces, unusable};

/// The start of the value after a key's colon, or of a document's node after its mark: on the line of the sign, on later lines, or
/// none.
#[inline(always)]
pub fn open_value<'a, K: Keeper, F: FlowReader>(
    alloc: Global,
    source: &Chars<'a>,
    at: usize,
    level: &Level<'_, 'a>,
    out: &mut Sink<'a, K>,
) -> Result<Opened<'a>, Fault>
    requires { StartsBlockValue source.now level.now at }
    ensures ends { IfOk result (EndsOpened source.now level.now at) }
    ensures reads { ReadsOpened value_rule source.now level.now at (holds_of K.holds) out.old out.new result }
    ensures decides { DecidesOpenedNode source.now level.now at value_rule result }
    ensures placed { IfErr result (IsPlaced source.now) }
{
    match skip_line_rest(source, at) {
        Some(start) => {
            let line = line_at(source, start);
            open_below::<K, F>(alloc, source, at, line, level, out)
        }
        None => {
            let (count, first) = skip_spaces(source, at);
            if count == 0 {
                return Err(unusable(source, first));
            }
            if begins_word(source, first) {
                let line = read_word::<K, F>(alloc, source, first, level, out)?;
                return Ok(Opened::Whole(line));
            }
            let outer = Properties::none();
            let site = Site {
                from: first,
                column: None,
                level,
            };
            open_node::<K, F>(alloc, source, first, outer, &site, out)
        }
    }
}

/// The value after a key's colon, or a document's node after its mark.
pub fn read_value<'a, K: Keeper, F: FlowReader>(
    alloc: Global,
    source: &Chars<'a>,
    at: usize,
    level: &Level<'_, 'a>,
    out: &mut Sink<'a, K>,
) -> Result<Line, Fault>
    requires { StartsBlockValue source.now level.now at }
    ensures ends { IfOk result (EndsLine source.now at) }
    ensures reads { ReadsLine value_rule source.now level.now at (holds_of K.holds) out.old out.new result }
    ensures decides { DecidesBlockNode source.now level.now at value_rule result }
    ensures placed { IfErr result (IsPlaced source.now) }
{
    let opened = open_value::<K, F>(alloc, source, at, level, out)?;
    read_opened::<K, F>(alloc, source, opened, level, out)
}

/// The start of what stands after the dash of an entry of a sequence in this column (`s-l+block-indented`, 8.2.1), at the level of
/// what stands in the entry.
#[inline(always)]
pub fn open_entry<'a, K: Keeper, F: FlowReader>(
    alloc: Global,
    source: &Chars<'a>,
    at: usize,
    column: usize,
    level: &Level<'_, 'a>,
    out: &mut Sink<'a, K>,
) -> Result<Opened<'a>, Fault>
    requires { StartsEntry source.now level.now column at }
    ensures ends { IfOk result (EndsOpened source.now level.now at) }
    ensures reads { ReadsOpened (inner_rule column) source.now level.now at (holds_of K.holds) out.old out.new result }
    ensures decides { DecidesOpened source.now level.now at (inner_rule column source.now level.now) (AfterEntry (text_of source.now) column) result }
    ensures placed { IfErr result (IsPlaced source.now) }
{
    match skip_line_rest(source, at) {
        Some(start) => {
            let line = line_at(source, start);
            open_below::<K, F>(alloc, source, at, line, level, out)
        }
        None => {
            let (count, first) = skip_spaces(source, at);
            if count == 0 {
                return Err(unusable(source, first));
            }
            let inner = column + 1 + count;
            let outer = Properties::none();
            match dash(source, first) {
                Some(after) => {
                    let indicator = Indicator {
                        at: first,
                        after,
                        column: inner,
                    };
                    Ok(Opened::Sequence(indicator, outer))
                }
                None => {
                    let site = Site {
                        from: first,
                        column: Some(inner),
                        level,
                    };
                    open_node::<K, F>(alloc, source, first, outer, &site, out)
                }
            }
        }
    }
}

/// The start of a node on a line below its indicator, or none where the line is not indented enough. An empty node has the offset
/// at which its indicator ends.
#[inline(always)]
fn open_below<'a, K: Keeper, F: FlowReader>(
    alloc: Global,
    source: &Chars<'a>,
    indicator_end: usize,
    line: Line,
    level: &Level<'_, 'a>,
    out: &mut Sink<'a, K>,
) -> Result<Opened<'a>, Fault>
    requires { StartsBelow source.now level.now line }
    ensures ends { IfOk result (EndsOpened source.now level.now line.start) }
    ensures reads { ReadsOpened line_rule source.now level.now line.start (holds_of K.holds) out.old out.new result }
    ensures decides { DecidesOpenedNode source.now level.now line.start line_rule result }
    ensures placed { IfErr result (IsPlaced source.now) }
{
    let outer = Properties::none();
    match begins_below(source, line, level) {
        Below::Nothing => {
            push_nothing(indicator_end, out)?;
            Ok(Opened::Whole(line))
        }
        Below::Sequence(after) => {
            let first = Indicator {
                at: line.first,
                after,
                column: line.column,
            };
            Ok(Opened::Sequence(first, outer))
        }
        Below::Node => {
            let column = Some(line.column);
            let site = Site {
                from: line.first,
                column,
                level,
            };
            open_node::<K, F>(alloc, source, line.first, outer, &site, out)
        }
    }
}

//! Flow nodes (YAML 1.2.2, 7.4 and 7.5).

mod entries;
mod mapping;
mod nodes;
mod pairs;
mod scalars;
mod sequence;
mod signs;

use std::alloc::Global;
use yaml_layout::flow::{FlowNode, FlowReader};
use yaml_layout::level::Level;
use yaml_layout::properties::Head;
use yaml_sink::sink::{Keeper, Sink};
use yaml_text::chars::Chars;
use yaml_text::fault::Fault;

/// The reader of flow nodes.
pub struct Flow;

impl FlowReader for Flow {
    #[inline(always)]
    fn read_flow_node<'a, K: Keeper>(
        alloc: Global,
        source: &Chars<'a>,
        at: usize,
        level: &Level<'_, 'a>,
        out: &mut Sink<'a, K>,
    ) -> Result<FlowNode, Fault> {
        nodes::read_flow_node(alloc, source, at, level, out)
    }

    #[inline(always)]
    fn read_bare<'a, K: Keeper>(
        alloc: Global,
        source: &Chars<'a>,
        head: &Head<'a>,
        level: &Level<'_, 'a>,
        out: &mut Sink<'a, K>,
    ) -> Result<FlowNode, Fault> {
        nodes::read_bare(alloc, source, head, level, out)
    }

    #[inline(always)]
    fn read_plain_node<'a, K: Keeper>(
        alloc: Global,
        source: &Chars<'a>,
        at: usize,
        level: &Level<'_, 'a>,
        out: &mut Sink<'a, K>,
    ) -> Result<Option<FlowNode>, Fault> {
        scalars::read_plain_node(alloc, source, at, level, out)
    }
}

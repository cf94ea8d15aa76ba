//! Documents' nodes (YAML 1.2.2, 9.1).
ghost use Rattle.std.specs.Prelude.{◌≡◌, ◌≤◌, IfOk, IfErr};
ghost use Rattle.yaml_definitions.specs.model.Limits.{open_limit};
ghost use Rattle.yaml_text.specs.Source.{text_of, place_of, IsBorder};
ghost use Rattle.yaml_text.specs.Placed.{IsPlaced};
ghost use Rattle.yaml_definitions.specs.grammar.Separation.{StartsLine};
ghost use Rattle.yaml_definitions.specs.grammar.Streams.{l-bare-document as bare_document};
ghost use Rattle.yaml_definitions.specs.grammar.Nodes.{wide};
ghost use Rattle.yaml_mark.specs.HandlesModel.{handles_of};
ghost use Rattle.yaml_sink.specs.SinkModel.{holds_of};
ghost use Rattle.yaml_layout.specs.Lines.{IsLine};
ghost use Rattle.yaml_block.specs.DocumentCalls.{after_mark, ReadsDocument, DecidesDocument};

use crate::block::{read_root, read_value};
use std::alloc::Global;
use yaml_layout::flow::FlowReader;
use yaml_layout::level::Level;
use yaml_layout::line::Line;
use yaml_mark::handles::Handles;
use yaml_sink::sink::{Keeper, Sink};
use yaml_text::chars::Chars;
use yaml_text::context::Ctx;
use yaml_text::fault::Fault;
use yaml_text::limits::open_limit;

/// How many collections may be open in a document.
fn room() -> u32
    ensures { result ≡ open_limit }
{
    open_limit() as u32
}

/// The node of a bare document on the line where it begins, with content on it (9.1.3), and the line after it.
pub fn read_bare<'a, K: Keeper, F: FlowReader>(
    alloc: Global,
    source: &Chars<'a>,
    line: Line,
    handles: Option<&Handles<'a>>,
    out: &mut Sink<'a, K>,
) -> Result<Line, Fault>
    requires line { IsLine source.now line }
    requires start { StartsLine (text_of source.now) (place_of source.now line.start) }
    ensures line { IfOk result (IsLine source.now) }
    ensures onward { IfOk result (λ next. line.start ≤ next.start) }
    ensures reads { ReadsDocument (bare_document (text_of source.now) wide open_limit (handles_of handles.entry)) source.now line.start (holds_of K.holds) out.old out.new result }
    ensures decides { DecidesDocument (bare_document (text_of source.now) wide open_limit (handles_of handles.entry)) source.now line.start result }
    ensures placed { IfErr result (IsPlaced source.now) }
{
    read_root::<K, F>(alloc, source, line, room(), handles, out)
}

/// What stands after the mark of an explicit document (9.1.4), and the line after it.
pub fn read_marked<'a, K: Keeper, F: FlowReader>(
    alloc: Global,
    source: &Chars<'a>,
    at: usize,
    handles: Option<&Handles<'a>>,
    out: &mut Sink<'a, K>,
) -> Result<Line, Fault>
    requires { IsBorder source.now at }
    ensures line { IfOk result (IsLine source.now) }
    ensures onward { IfOk result (λ next. at ≤ next.start) }
    ensures reads { ReadsDocument (after_mark (text_of source.now) (handles_of handles.entry)) source.now at (holds_of K.holds) out.old out.new result }
    ensures decides { DecidesDocument (after_mark (text_of source.now) (handles_of handles.entry)) source.now at result }
    ensures placed { IfErr result (IsPlaced source.now) }
{
    let level = Level {
        handles,
        least: 0,
        context: Ctx::BlockIn,
        room: room(),
    };
    read_value::<K, F>(alloc, source, at, &level, out)
}

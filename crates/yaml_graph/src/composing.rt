//! From the events of a stream to its graph.
ghost use Rattle.std.specs.Prelude.{◌≡◌, List, map, MatchResult};
ghost use Rattle.yaml_definitions.specs.model.Serial.{Document, stream_events};
ghost use Rattle.yaml_text.specs.EventModel.{event_of};
ghost use Rattle.yaml_tree.specs.Refused.{RefusesStream};
ghost use Rattle.yaml_graph.specs.Composed.{Composable, Composed};

use crate::composer::Composer;
use crate::copied::copies;
use crate::graph::Graph;
use std::alloc::Global;
use yaml_text::event::Event;
use yaml_text::fault::Fault;

/// The graph of the events of some documents. Nodes are numbered in the order in which they end. Texts and tags move from the
/// events to the nodes.
///
/// # Errors
/// At the first event that has one: an alias without an earlier node of its name in the document (12), or to a node that is still
/// open (13); a core tag on another kind of node (14); a text that does not match its explicit core tag (15); an int (16) or a
/// float (17) out of range. Otherwise the first document that is higher than the limit (18).
pub fn compose_owned<'s>(alloc: Global, events: Vec<Event<'s>>) -> Result<Graph<'s>, Fault>
    requires { Composable events.items }
    ensures { (ds : List Document) → map event_of events.entry.items ≡ stream_events ds → MatchResult result (Composed ds) (RefusesStream ds) }
{
    let mut composer = Composer::new(alloc);
    for (at, event) in events.into_iter().enumerate() {
        composer.take(alloc, at, event)?;
    }
    composer.finish()
}

/// The graph of events that stay with the caller, as `compose_owned` gives it. Texts and tags that
/// the events lend are lent on, so that the events may go before the graph; others are copied.
pub fn compose<'s>(alloc: Global, events: &[Event<'s>]) -> Result<Graph<'s>, Fault>
    requires { Composable events.now }
    ensures { (ds : List Document) → map event_of events.now ≡ stream_events ds → MatchResult result (Composed ds) (RefusesStream ds) }
{
    compose_owned(alloc, copies(alloc, events)?)
}

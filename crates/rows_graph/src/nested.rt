//! Whether events are those of documents, as `compose` requires.
ghost use Rattle.std.specs.Prelude.{◌≡◌, ◌≤◌, true, length};
ghost use Rattle.std.specs.Option.{IfSome};
ghost use Rattle.yaml_graph.specs.Composed.{Composable};
ghost use Rattle.rows_graph.specs.Nested.{IsNode, AreNodes, IsDocument, AreDocuments};

use yaml_text::event::Event;

/// The place after the node that begins here, if one does.
#[cycle(nested)]
fn after_node(events: &[Event<'_>], at: usize) -> Option<usize>
    ensures { IfSome result (IsNode events.now at) }
{
    if at >= events.len() {
        return None;
    }
    match &events[at] {
        Event::Scalar { .. } => Some(at + 1),
        Event::Alias { .. } => Some(at + 1),
        Event::SequenceStart { .. } => {
            let (end, _even) = after_nodes(events, at + 1);
            if end >= events.len() {
                return None;
            }
            match &events[end] {
                Event::SequenceEnd => Some(end + 1),
                _ => None,
            }
        }
        Event::MappingStart { .. } => {
            let (end, even) = after_nodes(events, at + 1);
            if !even || end >= events.len() {
                return None;
            }
            match &events[end] {
                Event::MappingEnd => Some(end + 1),
                _ => None,
            }
        }
        _ => None,
    }
}

/// The place after all nodes that follow here, and whether they are even in number.
#[cycle(nested)]
fn after_nodes(events: &[Event<'_>], at: usize) -> (usize, bool)
    requires { at ≤ length events.now }
    ensures { AreNodes events.now at result.0 result.1 }
{
    let mut end = at;
    let mut even = true;
    while let Some(next) = after_node(events, end) {
        end = next;
        even = !even;
    }
    (end, even)
}

/// The place after all documents that follow here.
fn after_documents(events: &[Event<'_>], at: usize) -> usize
    requires { at ≤ length events.now }
    ensures { AreDocuments events.now at result }
{
    let mut end = at;
    while let Some(next) = after_document(events, end) {
        end = next;
    }
    end
}

/// The place after the document that begins here, if one does.
fn after_document(events: &[Event<'_>], at: usize) -> Option<usize>
    ensures { IfSome result (IsDocument events.now at) }
{
    if at >= events.len() {
        return None;
    }
    let Event::DocumentStart { .. } = &events[at] else {
        return None;
    };
    let end = after_node(events, at + 1)?;
    if end >= events.len() {
        return None;
    }
    match &events[end] {
        Event::DocumentEnd { .. } => Some(end + 1),
        _ => None,
    }
}

/// Whether the events are those of a stream of documents.
pub fn is_stream(events: &[Event<'_>]) -> bool
    ensures { result ≡ true → Composable events.now }
{
    if events.len() < 2 {
        return false;
    }
    let Event::StreamStart = &events[0] else {
        return false;
    };
    let end = after_documents(events, 1);
    if end + 1 != events.len() {
        return false;
    }
    match &events[end] {
        Event::StreamEnd => true,
        _ => false,
    }
}

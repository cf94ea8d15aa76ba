//! What is shown of a stream, or of two, and the rows of all tables.
use crate::nested::is_stream;
use crate::shown::shown;
use crate::shown_ranks::{counted_ranks, shown_ranks};
use crate::words::events;
use crate::{ranks, rows};
use std::alloc::Global;
use std::process::Abort;
use std::test::Fail;
use yaml_graph::{Graph, compose, join};
use yaml_rank::rank;
use yaml_text::event::Event;
use yaml_text::fault::Fault;

/// The words of events, and what is shown.
pub struct Row {
    pub shows: &'static str,
    pub words: &'static str,
    pub gives: &'static str,
}

/// Two streams, and what is shown of both graphs as one.
pub struct Pair {
    pub shows: &'static str,
    pub left: &'static str,
    pub right: &'static str,
    pub gives: &'static str,
}

/// What of a graph is shown.
#[derive(Clone, Copy)]
pub enum Shown {
    Nodes,
    Ranks,
    /// How many nodes there are.
    Count,
    /// How many ranks and visits there are.
    Visits,
}

/// What is shown of a graph, or the message of the fault.
fn told(alloc: Global, graph: &Graph<'_>, what: Shown) -> Result<String, Fail> {
    match what {
        Shown::Nodes => return Ok(shown(alloc, graph)?),
        Shown::Count => return Ok(format!(in alloc; "{}", graph.len())?),
        Shown::Ranks | Shown::Visits => {}
    }
    match rank(alloc, graph) {
        Ok(ranks) => match what {
            Shown::Visits => Ok(counted_ranks(alloc, graph, &ranks)?),
            _ => Ok(shown_ranks(alloc, graph, &ranks)?),
        },
        Err(fault) => Ok(format!(in alloc; "{fault}")?),
    }
}

/// The graph of events, or what was refused. Events that are those of no stream give no graph.
fn composed<'s>(alloc: Global, events: &[Event<'s>]) -> Result<Option<Graph<'s>>, Fault> {
    if !is_stream(events) {
        return Ok(None);
    }
    match compose(alloc, events) {
        Ok(graph) => Ok(Some(graph)),
        Err(fault) => Err(fault),
    }
}

/// What is told of a graph, if there is one.
fn told_of(
    alloc: Global,
    graph: Result<Option<Graph<'_>>, Fault>,
    what: Shown,
) -> Result<String, Fail> {
    match graph {
        Ok(Some(graph)) => told(alloc, &graph, what),
        Ok(None) => Ok(format!(in alloc; "no stream")?),
        Err(fault) => Ok(format!(in alloc; "{fault}")?),
    }
}

/// Asserts what is told of a stream.
pub fn gives<T: Abort + AllocGlobal>(
    rt: &T,
    shows: &str,
    words: &str,
    what: Shown,
    want: &str,
) -> Result<(), Fail> {
    let alloc = rt.alloc();
    let events = events(alloc, words)?;
    let got = told_of(alloc, composed(alloc, &events), what)?;
    assert!(rt; got.as_str() == want, "{shows}: {got}");
    Ok(())
}

/// Both graphs as one, where both are streams.
fn both<'a>(
    alloc: Global,
    left: &'a [Event<'_>],
    right: &'a [Event<'_>],
) -> Result<Option<Graph<'a>>, Fault> {
    let Some(left) = composed(alloc, left)? else {
        return Ok(None);
    };
    let Some(right) = composed(alloc, right)? else {
        return Ok(None);
    };
    Ok(Some(join(left, right)?))
}

/// Asserts what is told of both graphs as one.
fn gives_both<T: Abort + AllocGlobal>(rt: &T, pair: &Pair, what: Shown) -> Result<(), Fail> {
    let alloc = rt.alloc();
    let (left, right) = (events(alloc, pair.left)?, events(alloc, pair.right)?);
    let got = told_of(alloc, both(alloc, &left, &right), what)?;
    assert!(rt; got.as_str() == pair.gives, "{}: {got}", pair.shows);
    Ok(())
}

#[test]
fn streams_have_their_graph_and_ranks_or_a_fault(rt: HostRuntime) -> Result<(), Fail> {
    let tables: [(&[Row], Shown); 7] = [
        (&rows::GRAPHS, Shown::Nodes),
        (&rows::SCALARS, Shown::Nodes),
        (&rows::REFUSED, Shown::Nodes),
        (&rows::REFUSED_SCALARS, Shown::Nodes),
        (&rows::NO_STREAMS, Shown::Nodes),
        (&ranks::RANKS, Shown::Ranks),
        (&ranks::EQUAL_KEYS, Shown::Ranks),
    ];
    for (table, what) in &tables {
        for row in *table {
            gives(&rt, row.shows, row.words, *what, row.gives)?;
        }
    }
    Ok(())
}

#[test]
fn two_graphs_are_one(rt: HostRuntime) -> Result<(), Fail> {
    let tables: [(&[Pair], Shown); 2] = [
        (&rows::PAIRS, Shown::Nodes),
        (&ranks::PAIRS, Shown::Ranks),
    ];
    for (table, what) in &tables {
        for pair in *table {
            gives_both(&rt, pair, *what)?;
        }
    }
    Ok(())
}

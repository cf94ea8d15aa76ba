//! Laws of equal keys. Each function has an empty body, and its contract is a law.
ghost use Rattle.law_store_keys.specs.Laws.{GraphRepeatsByTree, ViewRepeatsByTree, FirstRepeatIsStreams, FirstRepeatIsOne, GraphRefusesFirst, StreamRefusesFirst, JoinedRefusesFirst, StreamCounts, NumbersStay, NumbersGrow};

/// Nodes repeat a key exactly if their trees do.
pub fn repeats_by_tree()
    ensures graph { GraphRepeatsByTree }
    ensures view { ViewRepeatsByTree }
{}

/// The first equal keys of a store that keeps equal nodes once are those of the nodes that closed, at the number
/// of the first node that its node stands for.
pub fn first_repeat_is_streams()
    ensures { FirstRepeatIsStreams }
{}

/// There are no two first equal keys.
pub fn first_repeat_is_one()
    ensures { FirstRepeatIsOne }
{}

/// What ranks of a graph are refused for: the first equal keys of its nodes' trees. So `rank` of the graph that `compose` makes
/// of a stream refuses the keys that `canonical` refuses of it, with the same numbers, and so it is with two streams and `join`.
pub fn graphs_refuse_first_repeat()
    ensures graph { GraphRefusesFirst }
    ensures stream { StreamRefusesFirst }
    ensures joined { JoinedRefusesFirst }
    ensures count { StreamCounts }
{}

/// Numbers of the nodes of a store as one more node of a stream closes.
pub fn numbers_go_on()
    ensures stay { NumbersStay }
    ensures grow { NumbersGrow }
{}

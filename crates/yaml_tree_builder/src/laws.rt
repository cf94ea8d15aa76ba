//! Laws of what events come to. Each function has an empty body, and its contract is a law.
ghost use Rattle.yaml_tree_builder.specs.BuilderLog.{FollowsNone, FollowsStep, FollowsRest};
ghost use Rattle.yaml_tree_builder.specs.Reached.{StreamIsForest, StreamCloses, TwoStreamsAreForests, StreamsAreForests};

/// The roots after a stream's events are its forest, and the closed nodes those of its documents.
pub fn stream_is_forest()
    ensures forest { StreamIsForest }
    ensures closed { StreamCloses }
{}

/// The roots after the events of two streams are the forest of the first, and then that of the second.
pub fn two_streams_are_forests()
    ensures { TwoStreamsAreForests }
{}

/// The roots after the events of any streams are the forest of the first, and then those of the others.
pub fn streams_are_forests()
    ensures { StreamsAreForests }
{}

/// A builder whose calls are those of the events that were put down follows them.
pub fn log_is_followed()
    ensures none { FollowsNone }
    ensures step { FollowsStep }
    ensures rest { FollowsRest }
{}

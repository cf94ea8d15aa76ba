//! Laws of merges. Each function has an empty body, and its contract is a law.
ghost use Rattle.yaml_conflicts.specs.Laws.{MergeExists, MergeIsShown, MergeKeepsChanges, SequencesAreWhole, MergeIsOne, MergeEitherWay, MergeOfOne, StreamMergeExists, StreamMergeIsOne, StreamMergeEitherWay, StreamMergeOfOne, DocumentsAreMerged};

/// A merge exists exactly if there is no conflict.
pub fn merge_exists()
    ensures { MergeExists }
{}

/// What a merge shows at each path is what the side that changed it shows, or what the base shows.
pub fn merge_is_shown()
    ensures { MergeIsShown }
{}

/// Each change is in the merge, and what no side changed is as it was.
pub fn merge_keeps_changes()
    ensures { MergeKeepsChanges }
{}

/// A sequence in a merge is that of one side.
pub fn sequences_are_whole()
    ensures { SequencesAreWhole }
{}

/// Two merges are the same tree.
pub fn merge_is_one()
    ensures { MergeIsOne }
{}

/// The sides can change places.
pub fn merge_either_way()
    ensures { MergeEitherWay }
{}

/// A side that did not change gives way, and equal changes are one.
pub fn merge_of_one()
    ensures { MergeOfOne }
{}

/// A merge of streams exists exactly if there is no conflict.
pub fn stream_merge_exists()
    ensures { StreamMergeExists }
{}

/// Two merges of streams are the same documents.
pub fn stream_merge_is_one()
    ensures { StreamMergeIsOne }
{}

/// The sides of streams can change places.
pub fn stream_merge_either_way()
    ensures { StreamMergeEitherWay }
{}

/// A stream that did not change gives way, and equal changes are one.
pub fn stream_merge_of_one()
    ensures { StreamMergeOfOne }
{}

/// Each document of a merge of streams is a merge; of several each is that of one side.
pub fn documents_are_merged()
    ensures { DocumentsAreMerged }
{}

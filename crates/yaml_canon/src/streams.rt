//! The nodes of any number of streams in one store, ranked.
ghost use Rattle.std.specs.Prelude.{◌≡◌, ◌++◌, ◌∷◌, ℕ, List, [], map, IfOk};
ghost use Rattle.yaml_definitions.specs.model.Serial.{Document};
ghost use Rattle.yaml_sink.specs.Held.{Keeps};
ghost use Rattle.yaml_tree_builder.specs.Reached.{HaveDocuments, all_events};
ghost use Rattle.yaml_store_composer.specs.KeeperModel.{Composes};
ghost use Rattle.yaml_canon.specs.Read.{IsSource};
ghost use Rattle.yaml_canon.specs.Streams.{HoldsStreams, Reached};
ghost use Rattle.yaml_canon.specs.Tee.{KeepsStreams};
ghost use Rattle.yaml_canon.specs.Written.{ShowsStreams};

use crate::forest::{kept_source, lent, source_of};
use crate::tee::Tee;
use std::alloc::Global;
use yaml_sink::sink::Keeper;
use yaml_store_composer::Composing;
use yaml_store_rank::{RankedForests, rank_written};
use yaml_text::chars::Chars;
use yaml_text::fault::Fault;
use yaml_tree_builder::Forest;

/// What composes the events of streams, alone or beside another keeper.
pub(crate) trait Composer: Keeper {
    /// How many documents the streams have whose events were put down. The events of another stream may follow.
    fn count_documents(&mut self) -> Result<usize, Fault>
        ensures count { (dss : List (List Document)) → Self.holds self.old (all_events dss) → IfOk result (HaveDocuments dss) }
        ensures keeps { IfOk result (λ _. Keeps Self.holds self.old self.new) };
}

impl Composer for Composing<'_> {
    fn count_documents(&mut self) -> Result<usize, Fault> {
        let size = self.documents()?;
        Ok(size.documents)
    }
}

impl<K: Keeper> Composer for Tee<Composing<'_>, K> {
    fn count_documents(&mut self) -> Result<usize, Fault> {
        let size = self.first.documents()?;
        Ok(size.documents)
    }
}

/// Where each of some streams ends: how many documents there are up to there, and how many events.
#[derive(Drop)]
pub(crate) struct Ends {
    pub(crate) documents: Vec<usize>,
    pub(crate) events: Vec<usize>,
}

/// Reads a text behind the streams before it, and notes where it ends.
fn put_source<K: Composer>(
    alloc: Global,
    keeper: K,
    source: &Chars<'_>,
    ends: &mut Ends,
) -> Result<K, Fault>
    ensures { (bytes : List ℕ) → IsSource bytes source.now → (before : List (List ℕ)) → Reached K.holds before keeper ends.old → IfOk result (λ kept. Reached K.holds (before ++ (bytes ∷ [])) kept ends.new) }
{
    let mut kept = kept_source(alloc, keeper, source)?;
    let documents = kept.count_documents()?;
    ends.documents.push(documents)?;
    ends.events.push(kept.mark())?;
    Ok(kept)
}

/// The same of bytes.
fn put_bytes<K: Composer>(
    alloc: Global,
    keeper: K,
    bytes: &[u8],
    ends: &mut Ends,
) -> Result<K, Fault>
    ensures { (before : List (List ℕ)) → Reached K.holds before keeper ends.old → IfOk result (λ kept. Reached K.holds (before ++ (bytes.now ∷ [])) kept ends.new) }
{
    let source = source_of(bytes)?;
    put_source(alloc, keeper, &source, ends)
}

/// Reads the texts of streams one behind the other. The error is the number of the stream that is refused, or at which memory is.
fn put_streams<K: Composer>(
    alloc: Global,
    keeper: K,
    first: &Chars<'_>,
    others: &[&[u8]],
    ends: &mut Ends,
) -> Result<K, usize>
    ensures { (bytes : List ℕ) → IsSource bytes first.now → Reached K.holds [] keeper ends.old → IfOk result (λ kept. Reached K.holds (bytes ∷ map (λ it. it.now) others.now) kept ends.new) }
{
    let mut kept = match put_source(alloc, keeper, first, ends) {
        Ok(kept) => kept,
        Err(_) => return Err(0),
    };
    for place in 0..others.len() {
        kept = match put_bytes(alloc, kept, others[place], ends) {
            Ok(kept) => kept,
            Err(_) => return Err(place + 1),
        };
    }
    Ok(kept)
}

/// The nodes of streams that are composed, ranked.
fn ranked_of<'l>(
    alloc: Global,
    composing: Composing<'l>,
    ends: Vec<usize>,
) -> Result<RankedForests<'l>, Fault>
    requires { (sources : List (List ℕ)) × HoldsStreams Composes sources composing ends.items }
    ensures { (sources : List (List ℕ)) → HoldsStreams Composes sources composing.entry ends.items → IfOk result (ShowsStreams sources) }
{
    let Forest {
        store,
        roots,
        firsts: _,
    } = composing.finish()?;
    rank_written(alloc, store, &roots, ends)
}

/// The nodes of the streams that these bytes are, ranked.
///
/// # Errors
/// The number of a stream to ask first: of the first one that `canonical` rejects before it looks for equal keys (1 to 18), or at which
/// memory does not suffice (21). 0 for two equal keys of any stream (19), and for want of memory once all are read.
pub fn ranked_streams<'l>(
    alloc: Global,
    first: &'l [u8],
    others: &[&[u8]],
) -> Result<RankedForests<'l>, usize>
    ensures shows { IfOk result (ShowsStreams (first.now ∷ map (λ it. it.now) others.now)) }
{
    let Ok(source) = source_of(first) else {
        return Err(0);
    };
    let Ok(empty) = Composing::new(alloc, lent(&source)) else {
        return Err(0);
    };
    let mut ends = Ends {
        documents: Vec::new(alloc),
        events: Vec::new(alloc),
    };
    let composing = put_streams(alloc, empty, &source, others, &mut ends)?;
    match ranked_of(alloc, composing, ends.documents) {
        Ok(forests) => Ok(forests),
        Err(_) => Err(0),
    }
}

/// The same, with a keeper that starts empty and receives the events of all streams, one behind the other; and how many events there are
/// up to the end of each. So a caller learns the offsets of events without a second reading.
pub fn ranked_streams_with<'l, K: Keeper>(
    alloc: Global,
    first: &'l [u8],
    others: &[&[u8]],
    keeper: K,
) -> Result<(RankedForests<'l>, K, Vec<usize>), usize>
    requires { K.holds keeper [] }
    ensures shows { IfOk result (λ made. ShowsStreams (first.now ∷ map (λ it. it.now) others.now) made.0) }
    ensures kept { IfOk result (λ made. KeepsStreams K.holds (first.now ∷ map (λ it. it.now) others.now) made.1 made.2.items) }
{
    let Ok(source) = source_of(first) else {
        return Err(0);
    };
    let Ok(empty) = Composing::new(alloc, lent(&source)) else {
        return Err(0);
    };
    let tee = Tee {
        first: empty,
        second: keeper,
    };
    let mut ends = Ends {
        documents: Vec::new(alloc),
        events: Vec::new(alloc),
    };
    let Tee {
        first: composing,
        second: kept,
    } = put_streams(alloc, tee, &source, others, &mut ends)?;
    let Ends { documents, events } = ends;
    match ranked_of(alloc, composing, documents) {
        Ok(forests) => Ok((forests, kept, events)),
        Err(_) => Err(0),
    }
}

//! The forest of a stream's bytes.
ghost use Rattle.std.specs.Prelude.{ℕ, ◌≡◌, ◌⊎◌, List, IfOk, IfErr};
ghost use Rattle.yaml_definitions.specs.model.Limits.{open_limit};
ghost use Rattle.yaml_definitions.specs.model.Event.{Event};
ghost use Rattle.yaml_definitions.specs.model.Means.{Means};
ghost use Rattle.yaml_definitions.specs.grammar.Nodes.{wide};
ghost use Rattle.yaml_definitions.specs.grammar.Streams.{ReadsText};
ghost use Rattle.yaml_text.specs.LeafAnswer.{IsRefusal};
ghost use Rattle.yaml_text.specs.Placed.{IsPlaced};
ghost use Rattle.yaml_text.specs.Source.{text_of};
ghost use Rattle.yaml_sink.specs.Held.{Puts};
ghost use Rattle.yaml_read.specs.Decided.{HasNoReading};
ghost use Rattle.yaml_canon.specs.Read.{IsSource, Takes, HasForest, root_trees};
ghost use Rattle.yaml_canon.specs.Claims.{GraphRefuses};
ghost use Rattle.yaml_canon.specs.Refused.{Refuses};

use std::alloc::Global;
use yaml_read::read_into;
use yaml_sink::sink::{Keeper, Sink};
use yaml_store_composer::Composing;
use yaml_text::chars::Chars;
use yaml_text::fault::Fault;
use yaml_tree_builder::Forest;

/// What keeps the events that a text is read to, behind those that it had. Want of memory may be the keeper's; each other fault is
/// the reader's.
fn kept<K: Keeper>(alloc: Global, keeper: K, source: &Chars<'_>) -> Result<K, Fault>
    ensures ok { IfOk result (λ new. (es : List Event) × ReadsText (text_of source.now) wide open_limit es × Puts K.holds keeper es new) }
    ensures err { IfErr result IsRefusal }
    ensures decides { IfErr result (λ e. (e ≡ Fault.OutOfMemory) ⊎ HasNoReading (text_of source.now)) }
    ensures placed { IfErr result (IsPlaced source.now) }
{
    let mut out: Sink<'_, K> = Sink::Kept(keeper);
    read_into(alloc, source, &mut out)?;
    match out {
        Sink::Kept(keeper) => Ok(keeper),
        Sink::Listed(list) => {
            drop(list);
            Err(Fault::OutOfMemory)
        }
        Sink::Both(both) => {
            drop(both);
            Err(Fault::OutOfMemory)
        }
    }
}

/// The text that these bytes are.
pub(crate) fn source_of<'b>(bytes: &'b [u8]) -> Result<Chars<'b>, Fault>
    ensures source { IfOk result (IsSource bytes.now) }
    ensures why { IfErr result (Refuses GraphRefuses bytes.now) }
{
    Chars::read(bytes)
}

/// All of a text.
pub(crate) fn lent<'b>(source: &Chars<'b>) -> &'b str {
    source.rest(0)
}

/// What keeps the events of a text, behind those that it had.
pub(crate) fn kept_source<K: Keeper>(
    alloc: Global,
    keeper: K,
    source: &Chars<'_>,
) -> Result<K, Fault>
    ensures takes { (bytes : List ℕ) → IsSource bytes source.now → IfOk result (Takes K.holds bytes keeper) }
    ensures why { (bytes : List ℕ) → IsSource bytes source.now → IfErr result (Refuses GraphRefuses bytes) }
{
    kept(alloc, keeper, source)
}

/// The nodes of the stream that these bytes are.
///
/// # Errors
/// 1 to 3: the bytes are not a text. 4 to 11: the text is not a stream of the profile. 12 to 17: an event has an alias or a tag
/// without a meaning. 18: a document is too high. 21: memory does not suffice, or a number does not fit in 32 bits.
pub(crate) fn forest_of<'b>(alloc: Global, bytes: &'b [u8]) -> Result<Forest<'b>, Fault>
    ensures forest { IfOk result (HasForest bytes.now) }
    ensures means { IfOk result (λ forest. Means bytes.now (root_trees forest)) }
    ensures why { IfErr result (Refuses GraphRefuses bytes.now) }
{
    let source = source_of(bytes)?;
    let empty = Composing::new(alloc, lent(&source))?;
    let keeper = kept_source(alloc, empty, &source)?;
    let forest = keeper.finish()?;
    Ok(forest)
}

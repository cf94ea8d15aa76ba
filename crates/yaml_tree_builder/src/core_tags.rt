//! The tags of the core schema, which most nodes have, by the numbers that a store gave them.
ghost use Rattle.std.specs.Prelude.{◌≡◌, IfOk};
ghost use Rattle.yaml_store.specs.StoreGrows.{Good, Keeps, tags_of};
ghost use Rattle.yaml_tree_builder.specs.TagModel.{scalar_number, tag_number, AreCore};

use crate::tag::default_tag;
use std::alloc::Global;
use yaml_core::PlainKind;
use yaml_store::no_memory::NoMemory;
use yaml_store::nodes::Collection;
use yaml_store::store::Store;

/// The number of each tag of the core schema.
#[derive(Clone, Copy)]
pub(crate) struct CoreTags {
    nulls: u32,
    bools: u32,
    ints: u32,
    floats: u32,
    strings: u32,
    sequences: u32,
    mappings: u32,
}

impl CoreTags {
    /// Puts the tags into a store.
    pub(crate) fn new(alloc: Global, store: &mut Store<'_>) -> Result<CoreTags, NoMemory>
        ensures kept { Good store.old → IfOk result (λ _. Keeps store.old store.new) }
        ensures nodes { IfOk result (λ _. store.new.nodes ≡ store.old.nodes) }
        ensures core { Good store.old → IfOk result (AreCore (tags_of store.new)) }
    {
        let nulls = store.tag(alloc, PlainKind::Null.tag())?;
        let bools = store.tag(alloc, PlainKind::Bool.tag())?;
        let ints = store.tag(alloc, PlainKind::Int.tag())?;
        let floats = store.tag(alloc, PlainKind::Float.tag())?;
        let strings = store.tag(alloc, PlainKind::Str.tag())?;
        let sequences = store.tag(alloc, default_tag(Collection::Sequence))?;
        let mappings = store.tag(alloc, default_tag(Collection::Mapping))?;
        Ok(CoreTags {
            nulls,
            bools,
            ints,
            floats,
            strings,
            sequences,
            mappings,
        })
    }

    /// The number of the tag of scalars of a kind.
    pub(crate) fn scalar(self, kind: PlainKind) -> u32
        ensures { result ≡ scalar_number self kind }
    {
        match kind {
            PlainKind::Null => self.nulls,
            PlainKind::Bool => self.bools,
            PlainKind::Int => self.ints,
            PlainKind::Float => self.floats,
            PlainKind::Str => self.strings,
        }
    }

    /// The number of the tag of a kind of collection.
    pub(crate) fn collection(self, collection: Collection) -> u32
        ensures { result ≡ tag_number self collection }
    {
        match collection {
            Collection::Sequence => self.sequences,
            Collection::Mapping => self.mappings,
        }
    }
}

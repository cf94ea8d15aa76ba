//! The names of a document's anchors.
ghost use Rattle.std.specs.Prelude.{◌≡◌, ℕ, ◌+◌, [], ◌∷◌, ◌++◌, List, Some, length, slice_get, IfOk, IfSome};
ghost use Rattle.yaml_tree.specs.Anchors.{last_place};
ghost use Rattle.yaml_tree_builder.specs.AnchorsModel.{table_place, Names};

use std::alloc::Global;
use std::borrow::CowStr;
use std::collections::BTreeMap;
use yaml_store::no_memory::NoMemory;
use yaml_store::nodes::Span;
use yaml_store::text::Text;

/// How many places the table of recent names has, one for each hash.
const HASHES: usize = 4_096;

/// By what a hash is multiplied with each byte. Its upper bits are those on which all bytes tell.
const MULTIPLIER: u32 = 16_777_619;

/// How many bytes at the end of a name count for its hash.
const COUNTED: usize = 32;

/// How many numbers share a hash's upper bits.
const SHARED: u32 = 1_048_576;

/// The names of a document's anchors, in the order in which their nodes begin. The last node of a name is
/// found by a table as long as no other name of the same hash came since. Only where that fails do the
/// names come into a map, each of them once, so that no input makes look-ups slow.
#[derive(Drop)]
pub(crate) struct Anchors<'s> {
    /// All names: long ones may be parts of the text that is lent, the others stand one after the other.
    text: Text<'s>,
    /// Where each name stands.
    spans: Vec<Span>,
    /// For each hash the number of the last name that has it. What stands there for other hashes, and is
    /// from an earlier document, does no harm: the name of a number is compared.
    recent: Vec<u32>,
    /// For each of the names that came into the map, the last number among them.
    places: BTreeMap<String, usize>,
    /// How many names came into the map.
    mapped: usize,
}

/// The place of a name in the table: the upper bits of a hash of its end. Names that differ only before that share a place.
fn place_of(name: &[u8]) -> usize
    ensures { result ≡ table_place name.now }
{
    let end = &name[name.len().saturating_sub(COUNTED)..];
    let mut hash: u32 = 0;
    for byte in end {
        hash = hash.wrapping_add(u32::from(*byte)).wrapping_mul(MULTIPLIER);
    }
    (hash / SHARED) as usize
}

/// A number that fits.
fn number(of: usize) -> Result<u32, NoMemory>
    ensures { IfOk result (λ n. n ≡ of) }
{
    if of > u32::MAX as usize {
        return Err(NoMemory);
    }
    Ok(of as u32)
}

impl<'s> Anchors<'s> {
    /// No name yet. Long ones may be parts of the text that is lent.
    pub(crate) fn new(alloc: Global, lent: &'s str) -> Anchors<'s>
        ensures { Names result [] }
    {
        Anchors {
            text: Text::new(alloc, lent),
            spans: Vec::new(alloc),
            recent: Vec::new(alloc),
            places: BTreeMap::new(alloc),
            mapped: 0,
        }
    }

    /// A document begins, without names.
    pub(crate) fn clear(&mut self)
        ensures { Names self.new [] }
    {
        self.text.clear();
        self.spans.clear();
        self.places.clear();
        self.mapped = 0;
    }

    /// The table is there before the first name is. What stands in it then does no harm.
    fn make_table(&mut self) -> Result<(), NoMemory>
        ensures { (names : List (List ℕ)) → Names self.old names → IfOk result (λ _. Names self.new names) }
    {
        if self.spans.len() > 0 {
            return Ok(());
        }
        self.recent.resize(HASHES, 0)?;
        Ok(())
    }

    /// The number of names before this one, which comes behind them, and which may stand at this offset of the text that is lent.
    pub(crate) fn put(&mut self, name: &str, offset: usize) -> Result<usize, NoMemory>
        ensures place { (names : List (List ℕ)) → Names self.old names → IfOk result (λ place. place ≡ length names) }
        ensures names { (names : List (List ℕ)) → Names self.old names → IfOk result (λ _. Names self.new (names ++ (name.now ∷ []))) }
    {
        self.make_table()?;
        let place = self.spans.len();
        let last = number(place)?;
        let hash = place_of(name.as_bytes());
        if hash >= self.recent.len() {
            return Err(NoMemory);
        }
        let mut text = CowStr::Borrowed(name);
        let span = self.text.put(offset, &mut text)?;
        self.spans.push(span)?;
        self.recent[hash] = last;
        Ok(place)
    }

    /// The name of this number, if there is one.
    fn name(&self, place: usize) -> Option<&str>
        ensures { (names : List (List ℕ)) → Names self.now names → IfSome result (λ name. slice_get names place ≡ Some name.now) }
    {
        let span = self.spans.get(place)?;
        self.text.get(*span)
    }

    /// The last number of this name, if the table tells it.
    fn seen(&self, name: &str) -> Option<usize>
        ensures { (names : List (List ℕ)) → Names self.now names → IfSome result (λ place. last_place name.now names ≡ Some place) }
    {
        let last = self.recent.get(place_of(name.as_bytes()))?;
        let place = *last as usize;
        let found = self.name(place)?;
        if found == name { Some(place) } else { None }
    }

    /// The first name that is not in the map comes into it.
    fn map_next(&mut self, alloc: Global) -> Result<(), NoMemory>
        ensures names { (names : List (List ℕ)) → Names self.old names → IfOk result (λ _. Names self.new names) }
        ensures mapped { IfOk result (λ _. self.new.mapped ≡ self.old.mapped + 1) }
        ensures spans { self.new.spans ≡ self.old.spans }
    {
        let place = self.mapped;
        let Some(next) = place.checked_add(1) else {
            return Err(NoMemory);
        };
        let Some(name) = self.name(place) else {
            return Err(NoMemory);
        };
        let key = String::from_str(alloc, name)?;
        self.places.insert(key, place)?;
        self.mapped = next;
        Ok(())
    }

    /// The last number of this name, if there is one.
    pub(crate) fn find(&mut self, alloc: Global, name: &str) -> Result<Option<usize>, NoMemory>
        ensures place { (names : List (List ℕ)) → Names self.old names → IfOk result (λ place. last_place name.now names ≡ place) }
        ensures names { (names : List (List ℕ)) → Names self.old names → IfOk result (λ _. Names self.new names) }
    {
        if let Some(place) = self.seen(name) {
            return Ok(Some(place));
        }
        while self.mapped < self.spans.len() {
            self.map_next(alloc)?;
        }
        Ok(self.places.get(name).copied())
    }
}

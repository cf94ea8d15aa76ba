//! Nodes by number, equal ones mostly merged.
ghost use Rattle.std.specs.Prelude.{◌≡◌, ◌<◌, suc, min, [], ◌∷◌, ◌++◌, true, false, List, length, Some, IfOk, IsTrue};
ghost use Rattle.std.specs.Bool.{OnTrue};
ghost use Rattle.std.specs.Cow.{cow_str_bytes};
ghost use Rattle.std.specs.List.{slice_get, slice_range, All};
ghost use Rattle.yaml_definitions.specs.model.Tree.{Tree, scalar, heights};
ghost use Rattle.yaml_definitions.specs.model.Limits as limit;
ghost use Rattle.yaml_tree.specs.TreeLists.{trees as part_list, cut};
ghost use Rattle.yaml_tree.specs.ComposerSteps.{collection_from, paired};
ghost use Rattle.yaml_store.specs.StoreModel.{SpanWithin, AllMeasured, tag_at, parts_at, is_mapping};
ghost use Rattle.yaml_store.specs.StoreGrows.{AtMostOne, Good, IsLow, Fits, Keeps, tags_of, trees_of, Stands};

use crate::memo::{Memo, hash_parts, hash_tag, hash_text};
use crate::no_memory::NoMemory;
use crate::nodes::{Collection, Kind, Node, Span};
use crate::tag_numbers::{Found, TagNumbers};
use crate::tags::Tags;
use crate::text::{ROOM, Text, is_within, place};
use std::alloc::Global;
use std::borrow::CowStr;
use yaml_text::limits::height_limit;

/// The nodes, each after its parts: their tags, mostly each once; all contents one after the other, of which long ones may be parts of
/// a text that is lent, all items and all entries, by number. Those that were met last are found again by a hash.
#[derive(Drop)]
pub struct Store<'s> {
    pub memo: Memo,
    pub numbers: TagNumbers,
    pub tags: Tags,
    pub text: Text<'s>,
    pub items: Vec<u32>,
    pub entries: Vec<(u32, u32)>,
    pub nodes: Vec<Node>,
}

/// How many nodes are found again by a hash, at most.
const NODES_SEEN: usize = 32_768;

/// Whether these are the items that stand there.
fn has_items(all: &[u32], span: Span, parts: &[u32]) -> bool
    ensures { IsTrue result → slice_range all.now span.start span.end ≡ parts.now }
{
    if !is_within(span, all.len()) {
        return false;
    }
    &all[span.start as usize..span.end as usize] == parts
}

/// Whether these, a key and its value in turn, are the entries that stand there.
fn has_entries(all: &[(u32, u32)], span: Span, parts: &[u32]) -> bool
    ensures { IsTrue result → slice_range all.now span.start span.end ≡ paired parts.now }
{
    if !is_within(span, all.len()) {
        return false;
    }
    let entries = &all[span.start as usize..span.end as usize];
    if entries.len() != parts.len() / 2 {
        return false;
    }
    for (place, (key, value)) in entries.iter().enumerate() {
        if *key != parts[2 * place] || *value != parts[2 * place + 1] {
            return false;
        }
    }
    true
}

/// Puts these, a key and its value in turn, behind the entries.
fn push_entries(entries: &mut Vec<(u32, u32)>, parts: &[u32]) -> Result<(), NoMemory>
    ensures { IfOk result (λ _. entries.new.items ≡ entries.old.items ++ paired parts.now) }
{
    for place in 0..parts.len() / 2 {
        entries.push((parts[2 * place], parts[2 * place + 1]))?;
    }
    Ok(())
}

/// Puts a node behind the others. Its number.
fn push_node(nodes: &mut Vec<Node>, node: Node) -> Result<u32, NoMemory>
    ensures number { IfOk result (λ n. n ≡ length nodes.old.items) }
    ensures few { IfOk result (λ _. length nodes.new.items < 4294967296) }
    ensures pushed { IfOk result (λ _. nodes.new.items ≡ nodes.old.items ++ (node ∷ [])) }
    ensures one { IfOk result (AtMostOne (length nodes.old.items) (length nodes.new.items)) }
{
    let number = nodes.len();
    if number >= ROOM {
        return Err(NoMemory);
    }
    nodes.push(node)?;
    Ok(number as u32)
}

/// The height of a collection of these parts, cut just above the limit.
fn height_over(nodes: &[Node], parts: &[u32]) -> Result<u16, NoMemory>
    ensures { IfOk result (λ h. (ts : List Tree) → AllMeasured nodes.now ts → h ≡ min (heights (part_list (parts_at ts parts.now))) (suc limit.height_limit)) }
{
    let mut height: usize = 0;
    for part in parts {
        let Some(node) = nodes.get(*part as usize) else {
            return Err(NoMemory);
        };
        height = height.max(node.height as usize + 1);
    }
    Ok(height.min(height_limit() + 1) as u16)
}

impl<'s> Store<'s> {
    /// No node yet. Contents that are long may be parts of the text that is lent.
    pub fn new(alloc: Global, lent: &'s str) -> Result<Store<'s>, NoMemory>
        ensures good { IfOk result Good }
        ensures empty { IfOk result (λ s. trees_of s ≡ []) }
    {
        let memo = Memo::new(alloc, NODES_SEEN)?;
        let numbers = TagNumbers::new(alloc)?;
        Ok(Store {
            memo,
            numbers,
            tags: Tags::new(alloc),
            text: Text::new(alloc, lent),
            items: Vec::new(alloc),
            entries: Vec::new(alloc),
            nodes: Vec::new(alloc),
        })
    }

    /// How many nodes there are.
    pub fn len(&self) -> usize
        ensures { result ≡ length self.now.nodes.items }
    {
        self.nodes.len()
    }

    /// Whether no node's tree is higher than the limit.
    pub fn is_low(&self) -> bool
        ensures low { Good self.now → OnTrue result (IsLow self.now) }
        ensures high { Good self.now → IsLow self.now → IsTrue result }
    {
        for node in &self.nodes {
            if node.height as usize > height_limit() {
                return false;
            }
        }
        true
    }

    /// The height of the tree that a node stands for, cut just above the limit.
    pub fn height_of(&self, id: u32) -> Option<u16>
        ensures { (t : Tree) → Good self.now → Stands self.now id t → result ≡ Some (cut t) }
    {
        let node = self.nodes.get(id as usize)?;
        Some(node.height)
    }

    /// Whether this is the tag of that number.
    fn is_tag(&self, number: u32, tag: &str) -> bool
        ensures { IsTrue result → slice_get (tags_of self.now) number ≡ Some tag.now }
    {
        (number as usize) < self.tags.len() && self.tags.get(number) == tag
    }

    /// Puts a tag behind the others. Its number.
    fn add_tag(&mut self, tag: &str) -> Result<u32, NoMemory>
        ensures kept { Good self.old → IfOk result (λ _. Keeps self.old self.new) }
        ensures is { IfOk result (λ i. slice_get (tags_of self.new) i ≡ Some tag.now) }
        ensures nodes { IfOk result (λ _. self.new.nodes ≡ self.old.nodes) }
    {
        let number = self.tags.push(tag)?;
        Ok(number)
    }

    /// The number of this tag, which its hash does not tell, and which is added if it is new.
    fn other_tag(&mut self, alloc: Global, tag: &str) -> Result<u32, NoMemory>
        ensures kept { Good self.old → IfOk result (λ _. Keeps self.old self.new) }
        ensures is { IfOk result (λ i. slice_get (tags_of self.new) i ≡ Some tag.now) }
        ensures nodes { IfOk result (λ _. self.new.nodes ≡ self.old.nodes) }
    {
        if let Some(other) = self.numbers.other(tag) {
            if self.is_tag(other, tag) {
                return Ok(other);
            }
        }
        let number = self.add_tag(tag)?;
        self.numbers.keep_other(alloc, tag, number)?;
        Ok(number)
    }

    /// The number of this tag, which is added if it is new.
    pub fn tag(&mut self, alloc: Global, tag: &str) -> Result<u32, NoMemory>
        ensures kept { Good self.old → IfOk result (λ _. Keeps self.old self.new) }
        ensures is { IfOk result (λ i. slice_get (tags_of self.new) i ≡ Some tag.now) }
        ensures nodes { IfOk result (λ _. self.new.nodes ≡ self.old.nodes) }
    {
        let hash = hash_tag(tag.as_bytes());
        match self.numbers.find(hash) {
            Found::Number(first) => {
                if self.is_tag(first, tag) {
                    return Ok(first);
                }
            }
            Found::Free => {
                let number = self.add_tag(tag)?;
                self.numbers.keep(alloc, hash, number)?;
                return Ok(number);
            }
            Found::Full => {}
        }
        self.other_tag(alloc, tag)
    }

    /// Whether this node is a scalar of the same tag and content.
    fn is_scalar(&self, seen: u32, tag: u32, content: &str) -> bool
        ensures { Good self.now → IsTrue result → Stands self.now seen (scalar (tag_at (tags_of self.now) tag) content.now) }
    {
        let Some(node) = self.nodes.get(seen as usize) else {
            return false;
        };
        if node.kind != Kind::Scalar || node.tag != tag {
            return false;
        }
        self.text.has(node.span, content)
    }

    /// Whether this node is a sequence of the same tag and items.
    fn is_sequence(&self, seen: u32, tag: u32, items: &[u32]) -> bool
        ensures { Good self.now → IsTrue result → Stands self.now seen (collection_from false (tag_at (tags_of self.now) tag) (parts_at (trees_of self.now) items.now)) }
    {
        let Some(node) = self.nodes.get(seen as usize) else {
            return false;
        };
        if node.kind != Kind::Sequence || node.tag != tag {
            return false;
        }
        has_items(&self.items, node.span, items)
    }

    /// Whether this node is a mapping of the same tag and parts, a key and its value in turn.
    fn is_mapping(&self, seen: u32, tag: u32, parts: &[u32]) -> bool
        ensures { Good self.now → IsTrue result → Stands self.now seen (collection_from true (tag_at (tags_of self.now) tag) (parts_at (trees_of self.now) parts.now)) }
    {
        let Some(node) = self.nodes.get(seen as usize) else {
            return false;
        };
        if node.kind != Kind::Mapping || node.tag != tag {
            return false;
        }
        has_entries(&self.entries, node.span, parts)
    }

    /// The number of a scalar: that of a node that was seen, if it is the same, else that of a new one.
    fn add_scalar(
        &mut self,
        seen: u32,
        tag: u32,
        content: &mut CowStr<'_>,
        offset: usize,
    ) -> Result<u32, NoMemory>
        ensures kept { Good self.old → tag < length (tags_of self.old) → IfOk result (λ _. Keeps self.old self.new) }
        ensures stands { Good self.old → tag < length (tags_of self.old) → IfOk result (λ i. Stands self.new i (scalar (tag_at (tags_of self.old) tag) (cow_str_bytes content.old))) }
        ensures one { IfOk result (λ i. AtMostOne (length self.old.nodes.items) (length self.new.nodes.items) i) }
    {
        if self.is_scalar(seen, tag, content.as_str()) {
            return Ok(seen);
        }
        let span = self.text.put(offset, content)?;
        let node = Node {
            kind: Kind::Scalar,
            tag,
            height: 0,
            span,
        };
        let id = push_node(&mut self.nodes, node)?;
        Ok(id)
    }

    /// The number of a sequence of these items: that of a node that was seen, if it is the same, else that
    /// of a new one.
    fn add_sequence(&mut self, seen: u32, tag: u32, items: &[u32]) -> Result<u32, NoMemory>
        ensures kept { Fits self.old tag items.now → IfOk result (λ _. Keeps self.old self.new) }
        ensures stands { Fits self.old tag items.now → IfOk result (λ i. Stands self.new i (collection_from false (tag_at (tags_of self.old) tag) (parts_at (trees_of self.old) items.now))) }
        ensures one { IfOk result (λ i. AtMostOne (length self.old.nodes.items) (length self.new.nodes.items) i) }
    {
        if self.is_sequence(seen, tag, items) {
            return Ok(seen);
        }
        let height = height_over(&self.nodes, items)?;
        let start = place(self.items.len())?;
        self.items.extend_from_slice(items)?;
        let end = place(self.items.len())?;
        let node = Node {
            kind: Kind::Sequence,
            tag,
            height,
            span: Span { start, end },
        };
        let id = push_node(&mut self.nodes, node)?;
        Ok(id)
    }

    /// The number of a mapping of these parts, a key and its value in turn: that of a node that was seen, if
    /// it is the same, else that of a new one.
    fn add_mapping(&mut self, seen: u32, tag: u32, parts: &[u32]) -> Result<u32, NoMemory>
        ensures kept { Fits self.old tag parts.now → IfOk result (λ _. Keeps self.old self.new) }
        ensures stands { Fits self.old tag parts.now → IfOk result (λ i. Stands self.new i (collection_from true (tag_at (tags_of self.old) tag) (parts_at (trees_of self.old) parts.now))) }
        ensures one { IfOk result (λ i. AtMostOne (length self.old.nodes.items) (length self.new.nodes.items) i) }
    {
        if self.is_mapping(seen, tag, parts) {
            return Ok(seen);
        }
        if parts.len() % 2 != 0 {
            return Err(NoMemory);
        }
        let height = height_over(&self.nodes, parts)?;
        let start = place(self.entries.len())?;
        push_entries(&mut self.entries, parts)?;
        let end = place(self.entries.len())?;
        let node = Node {
            kind: Kind::Mapping,
            tag,
            height,
            span: Span { start, end },
        };
        let id = push_node(&mut self.nodes, node)?;
        Ok(id)
    }

    /// The number of a collection of these parts.
    fn add_collection(
        &mut self,
        seen: u32,
        collection: Collection,
        tag: u32,
        parts: &[u32],
    ) -> Result<u32, NoMemory>
        ensures kept { Fits self.old tag parts.now → IfOk result (λ _. Keeps self.old self.new) }
        ensures stands { Fits self.old tag parts.now → IfOk result (λ i. Stands self.new i (collection_from (is_mapping collection) (tag_at (tags_of self.old) tag) (parts_at (trees_of self.old) parts.now))) }
        ensures one { IfOk result (λ i. AtMostOne (length self.old.nodes.items) (length self.new.nodes.items) i) }
    {
        match collection {
            Collection::Sequence => self.add_sequence(seen, tag, parts),
            Collection::Mapping => self.add_mapping(seen, tag, parts),
        }
    }

    /// The number of a scalar with the tag of this number and this content, which may stand at this offset in the text that is lent.
    pub fn scalar_of(
        &mut self,
        tag: u32,
        content: &mut CowStr<'_>,
        offset: usize,
    ) -> Result<u32, NoMemory>
        ensures kept { Good self.old → tag < length (tags_of self.old) → IfOk result (λ _. Keeps self.old self.new) }
        ensures stands { Good self.old → tag < length (tags_of self.old) → IfOk result (λ i. Stands self.new i (scalar (tag_at (tags_of self.old) tag) (cow_str_bytes content.old))) }
        ensures one { IfOk result (λ i. AtMostOne (length self.old.nodes.items) (length self.new.nodes.items) i) }
    {
        let hash = hash_text(tag, content.as_str().as_bytes());
        let seen = self.memo.seen(hash);
        let id = self.add_scalar(seen, tag, content, offset)?;
        if id != seen {
            self.memo.keep(hash, id);
        }
        Ok(id)
    }

    /// The number of a scalar with this tag and this content, which may stand at this offset in the text that is lent.
    pub fn scalar(
        &mut self,
        alloc: Global,
        tag: &str,
        content: &mut CowStr<'_>,
        offset: usize,
    ) -> Result<u32, NoMemory>
        ensures kept { Good self.old → IfOk result (λ _. Keeps self.old self.new) }
        ensures stands { Good self.old → IfOk result (λ i. Stands self.new i (scalar tag.now (cow_str_bytes content.old))) }
        ensures one { IfOk result (λ i. AtMostOne (length self.old.nodes.items) (length self.new.nodes.items) i) }
    {
        let tag = self.tag(alloc, tag)?;
        let id = self.scalar_of(tag, content, offset)?;
        Ok(id)
    }

    /// The number of a collection of these parts. A mapping's are a key and its value in turn.
    pub fn collection(
        &mut self,
        collection: Collection,
        tag: u32,
        parts: &[u32],
    ) -> Result<u32, NoMemory>
        ensures kept { Fits self.old tag parts.now → IfOk result (λ _. Keeps self.old self.new) }
        ensures stands { Fits self.old tag parts.now → IfOk result (λ i. Stands self.new i (collection_from (is_mapping collection) (tag_at (tags_of self.old) tag) (parts_at (trees_of self.old) parts.now))) }
        ensures one { IfOk result (λ i. AtMostOne (length self.old.nodes.items) (length self.new.nodes.items) i) }
    {
        let hash = hash_parts(collection.kind(), tag, parts);
        let seen = self.memo.seen(hash);
        let id = self.add_collection(seen, collection, tag, parts)?;
        if id != seen {
            self.memo.keep(hash, id);
        }
        Ok(id)
    }
}

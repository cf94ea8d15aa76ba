//! The lists of a store, by which nodes of one height are compared.
ghost use Rattle.std.specs.Prelude.{◌≡◌, ◌<◌, length, IfOk};
ghost use Rattle.std.specs.Ordering.{is_lt};
ghost use Rattle.std.specs.List.Sorted.{IsPermutation};
ghost use Rattle.yaml_store_rank.specs.KeyModel.{inside_cmp, key_cmp, Rises, RanksFit};
ghost use Rattle.yaml_store_rank.specs.SlotModel.{held, InRange, inside_at, rest_at, key_at, keys_of, IsSlot};

use crate::groups::regroup;
use crate::slot::{Rest, Slot};
use std::alloc::Global;
use std::cmp::Ordering;
use yaml_store::no_memory::NoMemory;
use yaml_store::nodes::{Node, Place};
use yaml_store::text::Text;

/// The nodes of a store, what all of them hold, with ranks for parts, and the place of each tag in the
/// order of tags.
#[derive(Clone, Copy)]
pub(crate) struct Lists<'s, 't> {
    pub nodes: &'s [Node],
    pub text: &'s Text<'t>,
    pub items: &'s [u32],
    pub entries: &'s [(u32, u32)],
    pub places: &'s [u32],
}

impl<'s> Lists<'s, '_> {
    /// What is inside the node of this number; there is none of any other.
    fn inside(&self, number: u32) -> Rest<'s>
        requires { InRange self.now }
        ensures { held result ≡ inside_at self.now number }
    {
        let Some(node) = self.nodes.get(number as usize) else {
            return Rest::Text(&[]);
        };
        match node.place() {
            Place::Scalar(span) => Rest::Text(self.text.bytes(span)),
            Place::Sequence(span) => {
                Rest::Items(&self.items[span.start as usize..span.end as usize])
            }
            Place::Mapping(span) => {
                Rest::Entries(&self.entries[span.start as usize..span.end as usize])
            }
        }
    }

    /// What nodes are compared by where the numbers of their slots are equal: nothing of a content
    /// that these hold whole.
    fn rest(&self, slot: &Slot) -> Rest<'s>
        requires { InRange self.now }
        ensures { held result ≡ rest_at self.now slot.now }
    {
        if slot.is_whole() {
            return Rest::Text(&[]);
        }
        self.inside(slot.number)
    }

    /// The slot of a node.
    pub(crate) fn slot(&self, number: u32) -> Slot
        requires range { InRange self.now }
        requires number { number < length self.now.nodes.now }
        requires fit { RanksFit (inside_at self.now number) }
        ensures { IsSlot self.now number result }
    {
        let tag = self.places[self.nodes[number as usize].tag as usize];
        let inside = self.inside(number);
        let (high, low) = inside.front();
        Slot {
            high,
            low,
            head: inside.head(tag),
            number,
        }
    }

    /// How the first node stands to the second where the numbers of their slots are equal. Few
    /// comparisons come to this, so the code of the sort is shorter without it.
    #[inline(never)]
    fn compare_rest(&self, left: &Slot, right: &Slot) -> Ordering
        requires { InRange self.now }
        ensures { result ≡ inside_cmp (rest_at self.now left.now) (rest_at self.now right.now) }
    {
        self.rest(left).compare(&self.rest(right))
    }

    /// How the first node stands to the second.
    #[inline]
    fn compare(&self, left: &Slot, right: &Slot) -> Ordering
        requires { InRange self.now }
        ensures { result ≡ key_cmp (key_at self.now left.now) (key_at self.now right.now) }
    {
        if left.head != right.head {
            return left.head.cmp(&right.head);
        }
        if left.high != right.high {
            return left.high.cmp(&right.high);
        }
        if left.low != right.low {
            return left.low.cmp(&right.low);
        }
        self.compare_rest(left, right)
    }

    /// Whether the first node stands before the second.
    pub(crate) fn is_below(&self, left: &Slot, right: &Slot) -> bool
        requires { InRange self.now }
        ensures { result ≡ is_lt (key_cmp (key_at self.now left.now) (key_at self.now right.now)) }
    {
        self.compare(left, right) == Ordering::Less
    }

    /// Whether the last slots, all but an eighth of them, stand in order or in the opposite one. Keys that
    /// come sorted do so, with few others before them.
    fn end_in_run(&self, slots: &[Slot]) -> bool
        requires { InRange self.now }
    {
        let len = slots.len();
        if len < 2 {
            return true;
        }
        let falls = self.is_below(&slots[len - 1], &slots[len - 2]);
        let mut start = len - 1;
        while start > 0 && self.is_below(&slots[start], &slots[start - 1]) == falls {
            start -= 1;
        }
        start <= len / 8
    }

    /// Whether slots stand in few runs, maybe once they are put together by group.
    #[tactic(auto, using(crate::proofs::GroupLaws::all_stay))]
    fn in_runs(&self, alloc: Global, slots: &mut Vec<Slot>) -> Result<bool, NoMemory>
        requires { InRange self.now }
        ensures { IfOk result (λ _. IsPermutation slots.old.items slots.new.items) }
    {
        if self.end_in_run(slots) {
            return Ok(true);
        }
        regroup(alloc, self, slots)
    }

    /// Puts slots in order, whatever nodes they are of: so the sort may pass over nodes that are equal.
    /// The stable one keeps runs, and takes room for the shorter of two that it merges.
    pub(crate) fn sort(&self, alloc: Global, slots: &mut Vec<Slot>) -> Result<(), NoMemory>
        requires { InRange self.now }
        ensures permutation { IfOk result (λ _. IsPermutation slots.old.items slots.new.items) }
        ensures sorted { IfOk result (λ _. Rises (keys_of self.now slots.new.items)) }
    {
        let runs = self.in_runs(alloc, slots)?;
        if runs {
            slots.sort_by(|left, right| self.compare(left, right))?;
            return Ok(());
        }
        slots.sort_unstable_by(|left, right| self.compare(left, right));
        Ok(())
    }
}

//! A text that is written piece by piece until it stops.
ghost use Rattle.std.specs.Prelude.{◌≡◌, ◌<◌, ◌+◌, ◌++◌, ◌∷◌, [], ℕ, List, IfOk, IfErr, string_bytes};
ghost use Rattle.std.specs.Fmt.{decimal};
ghost use Rattle.yaml_definitions.specs.canonical.Serialize.{anchor_name};
ghost use Rattle.yaml_show_scalar.specs.Scalars.{scalar_text, scalar_lines};
ghost use Rattle.yaml_show_scalar.specs.Stops.{Stops};
ghost use Rattle.yaml_show_scalar.specs.Tags.{tag_before};
ghost use Rattle.yaml_show.specs.Drafts.{Holds, Adds, Forgone};
ghost use Rattle.yaml_show.specs.Layout.{space, is_root, lines_at, head, empty_text, before_part};

use crate::lines::{put_before, put_empty, put_head, put_scalar_node};
use crate::place::Place;
use std::alloc::Global;
use yaml_show_scalar::scalar::put_scalar;
use yaml_show_scalar::tag::put_tag_before;
use yaml_show_scalar::{Out, Quotes, Stop};

/// A text that is written piece by piece, and why it is not finished, if so. Then nothing more is put: a walk goes on to its end, and need not ask after each piece.
#[derive(Drop)]
pub(crate) struct Draft {
    out: Out,
    stop: Option<Stop>,
}

/// A digit of base 10.
fn digit(value: usize) -> &'static str
    requires { value < 10 }
    ensures { result.now ≡ (48 + value) ∷ [] }
{
    match value {
        0 => "0",
        1 => "1",
        2 => "2",
        3 => "3",
        4 => "4",
        5 => "5",
        6 => "6",
        7 => "7",
        8 => "8",
        _ => "9",
    }
}

impl Draft {
    /// An empty text that may grow to so many bytes.
    pub(crate) fn new(alloc: Global, limit: usize) -> Draft
        ensures { Holds limit result [] }
    {
        Draft {
            out: Out::new(alloc, limit),
            stop: None,
        }
    }

    /// The text.
    pub(crate) fn finish(self) -> Result<String, Stop>
        ensures ok { (limit : ℕ) (text : List ℕ) → Holds limit self text → IfOk result (λ whole. string_bytes whole ≡ text) }
        ensures err { (limit : ℕ) (text : List ℕ) → Holds limit self text → IfErr result (Stops limit text) }
    {
        match self.stop {
            None => Ok(self.out.text),
            Some(stop) => Err(stop),
        }
    }

    /// Gives the text up for want of memory.
    pub(crate) fn forgo(&mut self)
        ensures { Forgone self.new }
    {
        self.stop = Some(Stop::OutOfMemory);
    }

    /// Puts a piece.
    #[tactic(auto, using(crate::proofs::DraftLaws::adds_kept, crate::proofs::DraftLaws::adds_stopped))]
    pub(crate) fn put(&mut self, piece: &str)
        ensures { Adds self.old self.new piece.now }
    {
        if self.stop.is_some() {
            return;
        }
        self.stop = self.out.put(piece).err();
    }

    /// Puts what is before a part: nothing if its line is begun, else the indentation.
    #[tactic(auto, using(crate::proofs::DraftLaws::adds_kept, crate::proofs::DraftLaws::adds_stopped))]
    pub(crate) fn put_before(&mut self, begun: bool, level: usize)
        ensures { Adds self.old self.new (before_part begun level) }
    {
        if self.stop.is_some() {
            return;
        }
        self.stop = put_before(&mut self.out, begun, level).err();
    }

    /// Puts a scalar on one line.
    #[tactic(auto, using(crate::proofs::DraftLaws::adds_kept, crate::proofs::DraftLaws::adds_stopped))]
    pub(crate) fn put_scalar(&mut self, tag: &str, content: &str, quotes: Quotes)
        ensures { Adds self.old self.new (scalar_text quotes tag.now content.now) }
    {
        if self.stop.is_some() {
            return;
        }
        self.stop = put_scalar(&mut self.out, tag, content, quotes).err();
    }

    /// Puts a scalar and the end of its line.
    #[tactic(auto, using(crate::proofs::DraftLaws::adds_kept, crate::proofs::DraftLaws::adds_stopped))]
    pub(crate) fn put_scalar_node(&mut self, tag: &str, content: &str, place: Place, level: usize)
        ensures { Adds self.old self.new (space place ++ scalar_lines (lines_at place level) (is_root place) tag.now content.now) }
    {
        if self.stop.is_some() {
            return;
        }
        self.stop = put_scalar_node(&mut self.out, tag, content, place, level).err();
    }

    /// Puts a tag before a collection on one line.
    #[tactic(auto, using(crate::proofs::DraftLaws::adds_kept, crate::proofs::DraftLaws::adds_stopped))]
    pub(crate) fn put_tag_before(&mut self, tag: &str, own: &str)
        ensures { Adds self.old self.new (tag_before tag.now own.now) }
    {
        if self.stop.is_some() {
            return;
        }
        self.stop = put_tag_before(&mut self.out, tag, own).err();
    }

    /// Puts what of a block collection is on the line that is begun.
    #[tactic(auto, using(crate::proofs::DraftLaws::adds_kept, crate::proofs::DraftLaws::adds_stopped))]
    pub(crate) fn put_head(&mut self, place: Place, tag: &str, own: &str)
        ensures { Adds self.old self.new (head place tag.now own.now) }
    {
        if self.stop.is_some() {
            return;
        }
        self.stop = put_head(&mut self.out, place, tag, own).err();
    }

    /// Puts an empty collection and the end of its line.
    #[tactic(auto, using(crate::proofs::DraftLaws::adds_kept, crate::proofs::DraftLaws::adds_stopped))]
    pub(crate) fn put_empty(&mut self, place: Place, tag: &str, own: &str, brackets: &str)
        ensures { Adds self.old self.new (empty_text place tag.now own.now brackets.now) }
    {
        if self.stop.is_some() {
            return;
        }
        self.stop = put_empty(&mut self.out, place, tag, own, brackets).err();
    }
}

/// Writes a number in decimal.
fn put_number(draft: &mut Draft, number: usize)
    ensures { Adds draft.old draft.new (decimal number) }
{
    if number < 10 {
        draft.put(digit(number));
        return;
    }
    put_number(draft, number / 10);
    draft.put(digit(number % 10));
}

/// Writes an alias of this number.
pub(crate) fn put_alias(draft: &mut Draft, number: usize)
    requires { 0 < number }
    ensures { Adds draft.old draft.new (42 ∷ anchor_name number) }
{
    draft.put("*a");
    put_number(draft, number);
}

/// Writes an anchor of this number.
pub(crate) fn put_anchor(draft: &mut Draft, number: usize)
    requires { 0 < number }
    ensures { Adds draft.old draft.new (38 ∷ anchor_name number) }
{
    draft.put("&a");
    put_number(draft, number);
}

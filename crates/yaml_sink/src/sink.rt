//! What a reader puts its events into.
ghost use Rattle.std.specs.Prelude.{◌≡◌, ◌∷◌, [], ℕ, List, None, IfOk, IfErr};
ghost use Rattle.std.specs.Cow.{cow_str_bytes};
ghost use Rattle.yaml_definitions.specs.model.Event.{Event as PlainEvent, untagged, scalar_event, mapping_start};
ghost use Rattle.yaml_text.specs.EventModel.{event_of, style_of};
ghost use Rattle.yaml_text.specs.declared.fault.Fault.TheVariants.{OutOfMemory};
ghost use Rattle.yaml_sink.specs.PropertyRules.{props_of, dressed};
ghost use Rattle.yaml_sink.specs.Held.{Counts, Keeps, Puts, Alters};
ghost use Rattle.yaml_sink.specs.SinkModel.{holds_of, HeldBeside, start_of, end_of};

use crate::list::EventList;
use crate::properties::Properties;
use std::borrow::CowStr;
use yaml_text::event::{Event, Style};
use yaml_text::fault::Fault;

/// Which kind of collection.
#[derive(Clone, Copy)]
pub enum Collection {
    Sequence,
    Mapping,
}

/// What keeps events in a form of its own. It names no lifetime, so it copies what it keeps of a text, or keeps the places.
///
/// Events come in the order of the text but for two things: a mapping's start is put before its first key once the colon after
/// the key is read, and a node's properties are put on its first event once it is known whose they are. A keeper that cannot do
/// what it is asked answers that there is no memory; who made it looks at it before the fault.
pub trait Keeper: Drop {
    // These are the events that were put down and not taken back.
    ghost holds: { Self → List PlainEvent → Type 0 };

    /// How many events are held: the mark behind the last.
    fn mark(&self) -> usize
        ensures { Counts holds self.now result };

    /// Puts down an event, whose own text begins at this offset.
    fn push(&mut self, event: &Event<'_>, at: usize) -> Result<(), Fault>
        ensures ok { IfOk result (λ _. Puts holds self.old (event_of event.now ∷ []) self.new) }
        ensures err { IfErr result (λ e. e ≡ OutOfMemory) };

    /// Puts down a scalar without properties. Its text may be taken.
    fn scalar(&mut self, style: Style, text: &mut CowStr<'_>, at: usize) -> Result<(), Fault>
        ensures ok { IfOk result (λ _. Puts holds self.old (scalar_event None untagged (style_of style) (cow_str_bytes text.old) ∷ []) self.new) }
        ensures err { IfErr result (λ e. e ≡ OutOfMemory) };

    /// Puts down the start of a collection without properties.
    fn begin(&mut self, collection: Collection, flow: bool, at: usize) -> Result<(), Fault>
        ensures ok { IfOk result (λ _. Puts holds self.old (start_of collection flow ∷ []) self.new) }
        ensures err { IfErr result (λ e. e ≡ OutOfMemory) };

    /// Puts down the end of a collection.
    fn end(&mut self, collection: Collection, at: usize) -> Result<(), Fault>
        ensures ok { IfOk result (λ _. Puts holds self.old (end_of collection ∷ []) self.new) }
        ensures err { IfErr result (λ e. e ≡ OutOfMemory) };

    /// Puts the start of a mapping without properties before what was put down since a mark.
    fn insert(&mut self, start: usize, flow: bool, at: usize) -> Result<(), Fault>
        ensures ok { IfOk result (λ _. Alters holds start (λ es. mapping_start flow None untagged ∷ es) self.old self.new) }
        ensures err { IfErr result (λ e. e ≡ OutOfMemory) };

    /// A flow collection may follow, to which `dress` gives these properties, alone or with others, once it has ended. Where it has none
    /// of its own, it may get those that were told before.
    fn announce(&mut self, own: &Properties<'_>)
        ensures { Keeps holds self.old self.new };

    /// Puts properties on the first event since a mark, if there is one.
    fn dress(&mut self, start: usize, properties: &Properties<'_>)
        ensures { Alters holds start (dressed (props_of properties.now)) self.old self.new };

    /// Takes back what was put down since a mark.
    fn cut(&mut self, start: usize)
        ensures { Alters holds start (λ _. []) self.old self.new };
}

/// Puts down a scalar without properties, whose text stays where it is.
pub fn lend_scalar<K: Keeper>(
    keeper: &mut K,
    style: Style,
    text: &str,
    at: usize,
) -> Result<(), Fault>
    ensures ok { IfOk result (λ _. Puts K.holds keeper.old (scalar_event None untagged (style_of style) text.now ∷ []) keeper.new) }
    ensures err { IfErr result (λ e. e ≡ OutOfMemory) }
{
    let mut lent = CowStr::Borrowed(text);
    keeper.scalar(style, &mut lent, at)
}

/// Where a reader's events go: a list, or what keeps them in a form of its own, or both.
#[derive(Drop)]
pub enum Sink<'a, K: Keeper> {
    Listed(EventList<'a>),
    Kept(K),
    Both(Beside<'a, K>),
}

/// A list of events, and beside it what keeps the same in a form of its own.
#[derive(Drop)]
pub struct Beside<'a, K: Keeper> {
    pub list: EventList<'a>,
    pub keeper: K,
}

impl<'a, K: Keeper> Beside<'a, K> {
    #[tactic(auto, using(crate::proofs::SinkLemmas::both_put))]
    fn push(&mut self, event: Event<'a>, at: usize) -> Result<(), Fault>
        ensures ok { IfOk result (λ _. Puts (HeldBeside K.holds) self.old (event_of event.entry ∷ []) self.new) }
        ensures err { IfErr result (λ e. e ≡ OutOfMemory) }
    {
        self.keeper.push(&event, at)?;
        self.list.push(event)
    }

    #[tactic(auto, using(crate::proofs::SinkLemmas::both_put))]
    fn scalar(&mut self, style: Style, text: CowStr<'a>, at: usize) -> Result<(), Fault>
        ensures ok { IfOk result (λ _. Puts (HeldBeside K.holds) self.old (scalar_event None untagged (style_of style) (cow_str_bytes text.entry) ∷ []) self.new) }
        ensures err { IfErr result (λ e. e ≡ OutOfMemory) }
    {
        lend_scalar(&mut self.keeper, style, text.as_str(), at)?;
        self.list.scalar(style, text)
    }

    #[tactic(auto, using(crate::proofs::SinkLemmas::both_put))]
    fn begin(&mut self, collection: Collection, flow: bool, at: usize) -> Result<(), Fault>
        ensures ok { IfOk result (λ _. Puts (HeldBeside K.holds) self.old (start_of collection flow ∷ []) self.new) }
        ensures err { IfErr result (λ e. e ≡ OutOfMemory) }
    {
        self.keeper.begin(collection, flow, at)?;
        self.list.begin(collection, flow)
    }

    #[tactic(auto, using(crate::proofs::SinkLemmas::both_put))]
    fn end(&mut self, collection: Collection, at: usize) -> Result<(), Fault>
        ensures ok { IfOk result (λ _. Puts (HeldBeside K.holds) self.old (end_of collection ∷ []) self.new) }
        ensures err { IfErr result (λ e. e ≡ OutOfMemory) }
    {
        self.keeper.end(collection, at)?;
        self.list.end(collection)
    }

    #[tactic(auto, using(crate::proofs::SinkLemmas::both_altered))]
    fn insert(&mut self, start: usize, flow: bool, at: usize) -> Result<(), Fault>
        ensures ok { IfOk result (λ _. Alters (HeldBeside K.holds) start (λ es. mapping_start flow None untagged ∷ es) self.old self.new) }
        ensures err { IfErr result (λ e. e ≡ OutOfMemory) }
    {
        self.keeper.insert(start, flow, at)?;
        self.list.insert(start, flow)
    }

    #[tactic(auto, using(crate::proofs::SinkLemmas::both_kept))]
    fn announce(&mut self, own: &Properties<'a>)
        ensures { Keeps (HeldBeside K.holds) self.old self.new }
    {
        self.keeper.announce(own);
    }

    #[tactic(auto, using(crate::proofs::SinkLemmas::both_altered))]
    fn dress(&mut self, start: usize, properties: Properties<'a>)
        ensures { Alters (HeldBeside K.holds) start (dressed (props_of properties.entry)) self.old self.new }
    {
        self.keeper.dress(start, &properties);
        self.list.dress(start, properties);
    }

    #[tactic(auto, using(crate::proofs::SinkLemmas::both_altered))]
    fn cut(&mut self, start: usize)
        ensures { Alters (HeldBeside K.holds) start (λ _. []) self.old self.new }
    {
        self.keeper.cut(start);
        self.list.cut(start);
    }
}

impl<'a, K: Keeper> Sink<'a, K> {
    /// How many events are held: the mark behind the last.
    pub fn mark(&self) -> usize
        ensures { Counts (holds_of K.holds) self.now result }
    {
        match self {
            Sink::Listed(list) => list.mark(),
            Sink::Kept(keeper) => keeper.mark(),
            Sink::Both(both) => both.list.mark(),
        }
    }

    /// Puts down an event, whose own text begins at this offset.
    pub fn push(&mut self, event: Event<'a>, at: usize) -> Result<(), Fault>
        ensures ok { IfOk result (λ _. Puts (holds_of K.holds) self.old (event_of event.entry ∷ []) self.new) }
        ensures err { IfErr result (λ e. e ≡ OutOfMemory) }
    {
        match self {
            Sink::Listed(list) => list.push(event),
            Sink::Kept(keeper) => keeper.push(&event, at),
            Sink::Both(both) => both.push(event, at),
        }
    }

    /// Puts down a scalar without properties.
    pub fn scalar(&mut self, style: Style, text: CowStr<'a>, at: usize) -> Result<(), Fault>
        ensures ok { IfOk result (λ _. Puts (holds_of K.holds) self.old (scalar_event None untagged (style_of style) (cow_str_bytes text.entry) ∷ []) self.new) }
        ensures err { IfErr result (λ e. e ≡ OutOfMemory) }
    {
        match self {
            Sink::Listed(list) => list.scalar(style, text),
            Sink::Kept(keeper) => {
                let mut text = text;
                keeper.scalar(style, &mut text, at)
            }
            Sink::Both(both) => both.scalar(style, text, at),
        }
    }

    /// Puts down the start of a collection without properties.
    pub fn begin(&mut self, collection: Collection, flow: bool, at: usize) -> Result<(), Fault>
        ensures ok { IfOk result (λ _. Puts (holds_of K.holds) self.old (start_of collection flow ∷ []) self.new) }
        ensures err { IfErr result (λ e. e ≡ OutOfMemory) }
    {
        match self {
            Sink::Listed(list) => list.begin(collection, flow),
            Sink::Kept(keeper) => keeper.begin(collection, flow, at),
            Sink::Both(both) => both.begin(collection, flow, at),
        }
    }

    /// Puts down the end of a collection.
    pub fn end(&mut self, collection: Collection, at: usize) -> Result<(), Fault>
        ensures ok { IfOk result (λ _. Puts (holds_of K.holds) self.old (end_of collection ∷ []) self.new) }
        ensures err { IfErr result (λ e. e ≡ OutOfMemory) }
    {
        match self {
            Sink::Listed(list) => list.end(collection),
            Sink::Kept(keeper) => keeper.end(collection, at),
            Sink::Both(both) => both.end(collection, at),
        }
    }

    /// Puts the start of a mapping without properties before what was put down since a mark.
    pub fn insert(&mut self, start: usize, flow: bool, at: usize) -> Result<(), Fault>
        ensures ok { IfOk result (λ _. Alters (holds_of K.holds) start (λ es. mapping_start flow None untagged ∷ es) self.old self.new) }
        ensures err { IfErr result (λ e. e ≡ OutOfMemory) }
    {
        match self {
            Sink::Listed(list) => list.insert(start, flow),
            Sink::Kept(keeper) => keeper.insert(start, flow, at),
            Sink::Both(both) => both.insert(start, flow, at),
        }
    }

    /// A flow collection may follow, to which `dress` gives these properties, alone or with others, once it has ended. Where it has none
    /// of its own, it may get those that were told before.
    pub fn announce(&mut self, own: &Properties<'a>)
        ensures { Keeps (holds_of K.holds) self.old self.new }
    {
        match self {
            Sink::Listed(_) => {}
            Sink::Kept(keeper) => keeper.announce(own),
            Sink::Both(both) => both.announce(own),
        }
    }

    /// Puts properties on the first event since a mark, if there is one.
    pub fn dress(&mut self, start: usize, properties: Properties<'a>)
        ensures { Alters (holds_of K.holds) start (dressed (props_of properties.entry)) self.old self.new }
    {
        match self {
            Sink::Listed(list) => list.dress(start, properties),
            Sink::Kept(keeper) => keeper.dress(start, &properties),
            Sink::Both(both) => both.dress(start, properties),
        }
    }

    /// Takes back what was put down since a mark.
    pub fn cut(&mut self, start: usize)
        ensures { Alters (holds_of K.holds) start (λ _. []) self.old self.new }
    {
        match self {
            Sink::Listed(list) => list.cut(start),
            Sink::Kept(keeper) => keeper.cut(start),
            Sink::Both(both) => both.cut(start),
        }
    }
}

/// What keeps nothing: it takes no event. Where it stands in a sink's type, the sink is a list.
#[derive(Drop)]
pub struct Unkept;

impl Keeper for Unkept {
    ghost use Rattle.yaml_sink.specs.Held.{Counts, Keeps, Puts, Alters};

    ghost holds = { λ _ _. ⊥ };

    fn mark(&self) -> usize {
        0
    }

    fn push(&mut self, _event: &Event<'_>, _at: usize) -> Result<(), Fault> {
        Err(Fault::OutOfMemory)
    }

    fn scalar(&mut self, _style: Style, _text: &mut CowStr<'_>, _at: usize) -> Result<(), Fault> {
        Err(Fault::OutOfMemory)
    }

    fn begin(&mut self, _collection: Collection, _flow: bool, _at: usize) -> Result<(), Fault> {
        Err(Fault::OutOfMemory)
    }

    fn end(&mut self, _collection: Collection, _at: usize) -> Result<(), Fault> {
        Err(Fault::OutOfMemory)
    }

    fn insert(&mut self, _start: usize, _flow: bool, _at: usize) -> Result<(), Fault> {
        Err(Fault::OutOfMemory)
    }

    fn announce(&mut self, _own: &Properties<'_>) {}

    fn dress(&mut self, _start: usize, _properties: &Properties<'_>) {}

    fn cut(&mut self, _start: usize) {}
}

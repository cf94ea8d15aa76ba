//! Two keepers of the same events.
use std::borrow::CowStr;
use yaml_sink::properties::Properties;
use yaml_sink::sink::{Collection, Keeper, lend_scalar};
use yaml_text::event::{Event, Style};
use yaml_text::fault::Fault;

/// Two keepers, each of which is told of each event.
#[derive(Drop)]
pub(crate) struct Tee<A, B> {
    pub(crate) first: A,
    pub(crate) second: B,
}

impl<A: Keeper, B: Keeper> Keeper for Tee<A, B> {
    ghost use Rattle.yaml_sink.specs.Held.{Counts, Keeps, Puts, Alters};
    ghost use Rattle.yaml_canon.specs.Tee.{TeeHolds};

    ghost holds = { TeeHolds A.holds B.holds };

    fn mark(&self) -> usize {
        self.first.mark()
    }

    fn push(&mut self, event: &Event<'_>, at: usize) -> Result<(), Fault> {
        self.first.push(event, at)?;
        self.second.push(event, at)
    }

    fn scalar(&mut self, style: Style, text: &mut CowStr<'_>, at: usize) -> Result<(), Fault> {
        lend_scalar(&mut self.first, style, text.as_str(), at)?;
        self.second.scalar(style, text, at)
    }

    fn begin(&mut self, collection: Collection, flow: bool, at: usize) -> Result<(), Fault> {
        self.first.begin(collection, flow, at)?;
        self.second.begin(collection, flow, at)
    }

    fn end(&mut self, collection: Collection, at: usize) -> Result<(), Fault> {
        self.first.end(collection, at)?;
        self.second.end(collection, at)
    }

    fn insert(&mut self, start: usize, flow: bool, at: usize) -> Result<(), Fault> {
        self.first.insert(start, flow, at)?;
        self.second.insert(start, flow, at)
    }

    fn announce(&mut self, own: &Properties<'_>) {
        self.first.announce(own);
        self.second.announce(own);
    }

    fn dress(&mut self, start: usize, properties: &Properties<'_>) {
        self.first.dress(start, properties);
        self.second.dress(start, properties);
    }

    fn cut(&mut self, start: usize) {
        self.first.cut(start);
        self.second.cut(start);
    }
}

//! Where tags are among the texts, so that a tag is mostly there once.
ghost use Rattle.std.specs.Prelude.{◌≡◌, IfOk, IfSome};
ghost use Rattle.std.specs.String.{string_bytes};
ghost use Rattle.yaml_values.specs.Ranges.{IsRange, Puts};

use crate::texts::{has_text, put_text};
use crate::value::Span;
use std::alloc::Global;
use std::collections::BTreeMap;
use yaml_text::fault::Fault;

/// Where tags are: that of the value before, and each that was met.
#[derive(Drop)]
pub(crate) struct TagPlaces<'r> {
    last: Span,
    met: BTreeMap<&'r str, Span>,
}

impl<'r> TagPlaces<'r> {
    /// No tag was met.
    pub(crate) fn new(alloc: Global) -> TagPlaces<'r> {
        TagPlaces {
            last: Span { start: 0, end: 0 },
            met: BTreeMap::new(alloc),
        }
    }

    /// Where this tag is, if it was met.
    fn found(&self, texts: &str, tag: &str) -> Option<Span>
        ensures { IfSome result (λ s. IsRange texts.now s.start s.end tag.now) }
    {
        if has_text(texts, self.last, tag) {
            return Some(self.last);
        }
        let span = self.met.get(tag).copied()?;
        if has_text(texts, span, tag) {
            return Some(span);
        }
        None
    }

    /// Where this tag is. One that was not met is put behind the texts.
    pub(crate) fn put(&mut self, texts: &mut String, tag: &'r str) -> Result<Span, Fault>
        ensures { IfOk result (λ s. Puts (string_bytes texts.old) (string_bytes texts.new) s.start s.end tag.now) }
    {
        if let Some(span) = self.found(texts.as_str(), tag) {
            self.last = span;
            return Ok(span);
        }
        let span = put_text(texts, tag)?;
        self.met.insert(tag, span)?;
        self.last = span;
        Ok(span)
    }
}

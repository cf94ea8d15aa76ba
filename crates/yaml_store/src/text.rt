//! The text of all contents: one that is lent, and behind it one's own.
ghost use Rattle.std.specs.Prelude.{◌≡◌, [], length, IfOk, IfSome, IsTrue};
ghost use Rattle.std.specs.Bool.{OnTrue};
ghost use Rattle.std.specs.List.{slice_range};
ghost use Rattle.std.specs.Str.{IsUtf8};
ghost use Rattle.std.specs.String.{string_bytes};
ghost use Rattle.std.specs.Cow.{cow_str_bytes};
ghost use Rattle.yaml_store.specs.StoreModel.{SpanWithin};
ghost use Rattle.yaml_store.specs.TextModel.{text_of, border, IsWhole, PutsText, IsHome};

use crate::no_memory::NoMemory;
use crate::nodes::Span;
use std::alloc::Global;
use std::borrow::CowStr;
use std::mem;

/// What every number of a node and every place is below.
pub(crate) const ROOM: usize = 4_294_967_295;

/// Only a content of more bytes than this may be a part of the text that is lent. Shorter ones are copied, so that those that are
/// compared stand near one another.
const SHORT: usize = 64;

/// A text that is lent, and behind it one's own, with the places of both together.
#[derive(Drop)]
pub struct Text<'s> {
    pub(crate) lent: &'s str,
    pub(crate) own: String,
}

/// A place, if it fits.
pub(crate) fn place(at: usize) -> Result<u32, NoMemory>
    ensures { IfOk result (λ n. n ≡ at) }
{
    if at >= ROOM {
        return Err(NoMemory);
    }
    Ok(at as u32)
}

/// Whether these places are among so many.
pub(crate) fn is_within(span: Span, len: usize) -> bool
    ensures { OnTrue result (SpanWithin len span) }
{
    span.start <= span.end && span.end as usize <= len
}

/// Whether this is the content that stands there.
fn has_text(all: &[u8], span: Span, content: &[u8]) -> bool
    ensures is { IsTrue result → slice_range all.now span.start span.end ≡ content.now }
    ensures within { OnTrue result (SpanWithin (length all.now) span) }
{
    if !is_within(span, all.len()) {
        return false;
    }
    &all[span.start as usize..span.end as usize] == content
}

/// Where a content stands in a text, if it stands at this place.
fn found_at(text: &str, at: usize, content: &str) -> Option<Span>
    ensures is { IfSome result (λ span. slice_range text.now span.start span.end ≡ content.now) }
    ensures within { IfSome result (SpanWithin (length text.now)) }
{
    let end = at.checked_add(content.len())?;
    if end >= ROOM {
        return None;
    }
    let span = Span {
        start: at as u32,
        end: end as u32,
    };
    if has_text(text.as_bytes(), span, content.as_bytes()) {
        return Some(span);
    }
    None
}

impl<'s> Text<'s> {
    /// The text that is lent.
    pub fn new(alloc: Global, lent: &'s str) -> Text<'s>
        ensures { text_of result ≡ lent.now }
    {
        Text {
            lent,
            own: String::new(alloc),
        }
    }

    /// The text that is lent, with nothing behind it any more.
    pub fn clear(&mut self)
        ensures { text_of self.new ≡ self.old.lent.now }
    {
        self.own.clear();
    }

    /// How many bytes there are.
    fn len(&self) -> usize
        ensures { result ≡ length (text_of self.now) }
    {
        self.lent.len() + self.own.len()
    }

    /// Puts a content behind all. Where it stands.
    fn push(&mut self, content: &str) -> Result<Span, NoMemory>
        ensures { IfOk result (PutsText self.old self.new content.now) }
    {
        let start = place(self.len())?;
        self.own.push_str(content)?;
        let end = place(self.len())?;
        Ok(Span { start, end })
    }

    /// Takes a content behind the text that is lent, where there is no other yet: its room too, so that it is not copied.
    fn take(&mut self, content: &mut String) -> Result<Span, NoMemory>
        requires { string_bytes self.old.own ≡ [] }
        ensures { IfOk result (PutsText self.old self.new (string_bytes content.old)) }
    {
        let start = place(self.len())?;
        mem::swap(&mut self.own, content);
        let end = place(self.len())?;
        Ok(Span { start, end })
    }

    /// Where a long content stands: it is a part of the text that is lent if it stands there at this place, and the first one that does
    /// not is taken over.
    fn put_long(&mut self, at: usize, content: &mut CowStr<'_>) -> Result<Span, NoMemory>
        ensures puts { IfOk result (PutsText self.old self.new (cow_str_bytes content.old)) }
        ensures utf8 { IsUtf8 (cow_str_bytes content.old) }
    {
        if let Some(span) = found_at(self.lent, at, content.as_str()) {
            return Ok(span);
        }
        if self.own.is_empty() {
            if let CowStr::Owned(text) = content {
                return self.take(text);
            }
        }
        self.push(content.as_str())
    }

    /// Where a content stands, which may do so at this place of the text that is lent. Else it is put behind all.
    pub fn put(&mut self, at: usize, content: &mut CowStr<'_>) -> Result<Span, NoMemory>
        ensures puts { IfOk result (PutsText self.old self.new (cow_str_bytes content.old)) }
        ensures utf8 { IsUtf8 (cow_str_bytes content.old) }
    {
        if content.as_str().len() > SHORT {
            return self.put_long(at, content);
        }
        self.push(content.as_str())
    }

    /// Whether these places stand before the border, or behind it.
    pub fn is_whole(&self, span: Span) -> bool
        ensures { OnTrue result (IsWhole (border self.now) span) }
    {
        let border = self.lent.len();
        span.end as usize <= border || border <= span.start as usize
    }

    /// The part in which these places stand, and which they are there.
    fn home(&self, span: Span) -> (&str, Span)
        requires { IsWhole (border self.now) span }
        ensures home { IsHome self.now span result.0.now result.1 }
        ensures utf8 { IsUtf8 result.0.now }
    {
        let border = self.lent.len();
        if span.end as usize <= border {
            return (self.lent, span);
        }
        let inside = Span {
            start: (span.start as usize - border) as u32,
            end: (span.end as usize - border) as u32,
        };
        (self.own.as_str(), inside)
    }

    /// Whether this is the content that stands there.
    pub(crate) fn has(&self, span: Span, content: &str) -> bool
        ensures { IsTrue result → slice_range (text_of self.now) span.start span.end ≡ content.now }
    {
        if !self.is_whole(span) {
            return false;
        }
        let (part, inside) = self.home(span);
        has_text(part.as_bytes(), inside, content.as_bytes())
    }

    /// The bytes that stand there.
    pub fn bytes(&self, span: Span) -> &[u8]
        requires whole { IsWhole (border self.now) span }
        requires within { SpanWithin (length (text_of self.now)) span }
        ensures { result.now ≡ slice_range (text_of self.now) span.start span.end }
    {
        let (part, inside) = self.home(span);
        &part.as_bytes()[inside.start as usize..inside.end as usize]
    }

    /// The content that stands there.
    pub fn content(&self, span: Span) -> &str
        requires whole { IsWhole (border self.now) span }
        requires within { SpanWithin (length (text_of self.now)) span }
        requires utf8 { IsUtf8 (slice_range (text_of self.now) span.start span.end) }
        ensures { result.now ≡ slice_range (text_of self.now) span.start span.end }
    {
        let (part, inside) = self.home(span);
        part.get(inside.start as usize..inside.end as usize)
            .unwrap_or("")
    }

    /// The text that stands there, if one does.
    pub fn get(&self, span: Span) -> Option<&str>
        ensures { IfSome result (λ text. slice_range (text_of self.now) span.start span.end ≡ text.now) }
    {
        if !self.is_whole(span) {
            return None;
        }
        let (part, inside) = self.home(span);
        part.get(inside.start as usize..inside.end as usize)
    }
}

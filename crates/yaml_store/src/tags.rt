//! Tags, one after the other in one text.
ghost use Rattle.std.specs.Prelude.{◌≡◌, ◌<◌, [], ◌∷◌, ◌++◌, length, IfOk};
ghost use Rattle.yaml_store.specs.StoreModel.{tag_at};

use crate::no_memory::NoMemory;
use crate::text::place;
use std::alloc::Global;
use std::marker::Model;

/// The bytes from one place of the text up to another. A tag of two characters may stand for a thousand bytes (YAML 1.2.2, 6.8.2.2), so
/// the text of all tags may be longer than 32 bits count.
#[derive(Clone, Copy)]
struct Part {
    start: usize,
    end: usize,
}

/// Tags by number. Their texts stand one after the other, so that many long ones are let go at once.
#[derive(Drop)]
pub struct Tags {
    text: String,
    parts: Vec<Part>,
}

impl Model for Tags {
    ghost use Rattle.std.specs.Prelude.{ℕ, List};

    ghost Value = { List (List ℕ) };

    ghost use Rattle.yaml_store.specs.TagTexts.{texts_of, AreTexts};

    ghost view = { texts_of };

    ghost invariant = { AreTexts };
}

impl Tags {
    /// No tag.
    pub(crate) fn new(alloc: Global) -> Tags
        ensures { result ≡ [] }
    {
        Tags {
            text: String::new(alloc),
            parts: Vec::new(alloc),
        }
    }

    /// How many there are.
    pub fn len(&self) -> usize
        ensures { result ≡ length self.now }
    {
        self.parts.len()
    }

    /// The tag at this place.
    pub fn at(&self, place: usize) -> &str
        requires { place < length self.now }
        ensures { result.now ≡ tag_at self.now place }
    {
        let part = self.parts[place];
        if part.start >= part.end {
            return "";
        }
        &self.text[part.start..part.end]
    }

    /// The tag of this number.
    pub fn get(&self, number: u32) -> &str
        requires { number < length self.now }
        ensures { result.now ≡ tag_at self.now number }
    {
        self.at(number as usize)
    }

    /// Puts a tag behind the others. Its number.
    pub(crate) fn push(&mut self, tag: &str) -> Result<u32, NoMemory>
        ensures number { IfOk result (λ number. number ≡ length self.old) }
        ensures pushed { IfOk result (λ _. self.new ≡ self.old ++ (tag.now ∷ [])) }
    {
        let number = place(self.parts.len())?;
        let start = self.text.len();
        self.text.push_str(tag)?;
        let end = self.text.len();
        self.parts.push(Part { start, end })?;
        Ok(number)
    }
}

//! Keys of a mapping that are equal in Python or JavaScript, and not in YAML.
ghost use Rattle.std.specs.Prelude.{◌≡◌, ℕ, ◌+◌, List, Some, slice_get, take, IfOk, OnOk};
ghost use Rattle.yaml_definitions.specs.model.Core.{by_table};
ghost use Rattle.yaml_definitions.specs.model.Event.{Event as PlainEvent};
ghost use Rattle.yaml_text.specs.EventModel.{event_of};
ghost use Rattle.review_faults.specs.Keys.{number, python_form, value_form, is_its_text, string_form, script_form, key_of};
ghost use Rattle.review_faults.specs.Seen.{HoldsNames, AreForms};

use crate::label::anchor_of;
use std::alloc::{AllocError, Global};
use std::collections::BTreeMap;
use yaml_core::CoreFault;
use yaml_core::scalar::{by_table, resolve};
use yaml_text::core_tag;
use yaml_text::event::Event;

/// A language in which other keys are equal.
#[derive(Clone, Copy)]
pub enum Reader {
    /// It compares bools, ints and floats as numbers.
    Python,
    /// It makes a string of each key, of a number by its value as a binary float.
    JavaScript,
}

impl Reader {
    ghost use Rattle.std.specs.Prelude.{◌≡◌};
    ghost use Rattle.review_faults.specs.Says.{reader_name};

    /// Its name.
    pub(crate) fn name(self) -> &'static str
        ensures { result.now ≡ reader_name self }
    {
        match self {
            Reader::Python => "Python",
            Reader::JavaScript => "JavaScript",
        }
    }
}

/// What a key is there, unless it is one that is equal to itself alone.
#[derive(Clone, Copy, PartialEq, Eq, PartialOrd, Ord)]
pub enum Form {
    Null,
    False,
    True,
    /// A binary float, by its bits.
    Number(u64),
}

/// What a node is in each of the languages.
#[derive(Clone, Copy)]
pub struct Forms {
    pub python: Option<Form>,
    pub script: Option<Form>,
}

/// No node that could be equal to another one.
const NONE: Forms = Forms {
    python: None,
    script: None,
};

/// How many characters an int has at most that is a binary float without loss.
const EXACT: usize = 15;

/// The binary float that is nearest to a number.
fn number(text: &str) -> Option<Form>
    ensures { result ≡ number text.now }
{
    match fast_float::parse::<f64, _>(text.as_bytes()) {
        Ok(number) if !number.is_nan() => Some(Form::Number(number.to_bits())),
        _ => None,
    }
}

/// What a scalar of this tag and canonical content is in Python.
#[tactic(auto, unfolding(yaml_definitions::specs::model::Tag::core_tag))]
fn python_form(tag: &str, content: &str) -> Option<Form>
    ensures { result ≡ python_form tag.now content.now }
{
    match tag {
        core_tag::BOOL => number(if content == "true" { "1" } else { "0" }),
        core_tag::INT if content.len() <= EXACT => number(content),
        core_tag::FLOAT => number(match content {
            ".inf" => "inf",
            "-.inf" => "-inf",
            _ => content,
        }),
        _ => None,
    }
}

/// What a scalar of this tag and canonical content is in JavaScript, if it is a null, a bool or a number.
#[tactic(auto, unfolding(yaml_definitions::specs::model::Tag::core_tag))]
fn value_form(tag: &str, content: &str) -> Option<Form>
    ensures { result ≡ value_form tag.now content.now }
{
    match tag {
        core_tag::NULL => Some(Form::Null),
        core_tag::BOOL => Some(if content == "true" {
            Form::True
        } else {
            Form::False
        }),
        core_tag::INT | core_tag::FLOAT => number(content),
        _ => None,
    }
}

/// Whether a string is what JavaScript makes of a scalar of this tag and canonical content, which is no float.
#[tactic(auto, unfolding(yaml_definitions::specs::model::Tag::core_tag))]
fn is_its_text(tag: &str, content: &str, text: &str) -> bool
    ensures { result ≡ is_its_text tag.now content.now text.now }
{
    tag != core_tag::FLOAT && text.len() <= EXACT && content == text
}

/// What a string is in JavaScript, if it is the text of a null, a bool or an int there.
fn string_form(alloc: Global, text: &str) -> Result<Option<Form>, AllocError>
    ensures ok { IfOk result (λ form. form ≡ string_form text.now (by_table text.now)) }
{
    match by_table(alloc, text) {
        Ok(scalar) => {
            let (tag, content) = (scalar.tag.as_str(), scalar.content.as_str());
            if is_its_text(tag, content, text) {
                Ok(value_form(tag, content))
            } else {
                Ok(None)
            }
        }
        Err(CoreFault::OutOfMemory) => Err(AllocError),
        Err(_) => Ok(None),
    }
}

/// What a scalar of this tag and canonical content is in JavaScript.
#[tactic(auto, unfolding(yaml_definitions::specs::model::Tag::core_tag))]
fn script_form(alloc: Global, tag: &str, content: &str) -> Result<Option<Form>, AllocError>
    ensures ok { IfOk result (λ form. form ≡ script_form tag.now content.now) }
{
    if tag == core_tag::STR {
        string_form(alloc, content)
    } else {
        Ok(value_form(tag, content))
    }
}

/// What a scalar of this tag and canonical content is in each language.
fn scalar_forms(alloc: Global, tag: &str, content: &str) -> Result<Forms, AllocError>
    ensures ok { IfOk result (λ forms. (forms.python ≡ python_form tag.now content.now) × (forms.script ≡ script_form tag.now content.now)) }
{
    Ok(Forms {
        python: python_form(tag, content),
        script: script_form(alloc, tag, content)?,
    })
}

/// What the nodes with anchors are, by the names of these.
type Named<'e> = BTreeMap<&'e str, Forms>;

/// What the node of an event is, by what those of earlier events with anchors are.
fn forms_of(alloc: Global, event: &Event<'_>, named: &Named<'_>) -> Result<Forms, AllocError>
    ensures ok { (before : List PlainEvent) → HoldsNames before named.now → IfOk result (AreForms before (event_of event.now)) }
{
    match event {
        Event::Scalar {
            tag,
            style,
            text,
            ..
        } => match resolve(alloc, tag, *style, text.as_str()) {
            Ok(scalar) => scalar_forms(alloc, scalar.tag.as_str(), scalar.content.as_str()),
            Err(CoreFault::OutOfMemory) => Err(AllocError),
            Err(_) => Ok(NONE),
        },
        Event::Alias { name } => Ok(named.get(name.as_str()).copied().unwrap_or(NONE)),
        _ => Ok(NONE),
    }
}

/// Keeps what the node of an event is, if it has an anchor.
fn keep<'e>(named: &mut Named<'e>, event: &'e Event<'_>, forms: Forms) -> Result<(), AllocError>
    ensures ok { (events : List PlainEvent) (n : ℕ) → slice_get events n ≡ Some (event_of event.entry.now) → AreForms (take n events) (event_of event.entry.now) forms → HoldsNames (take n events) named.old → OnOk result (HoldsNames (take (n + 1) events) named.new) }
{
    if let Some(name) = anchor_of(event) {
        named.insert(name, forms)?;
    }
    Ok(())
}

/// A key of the mapping that begins at an event.
#[derive(Clone, Copy, PartialEq, Eq, PartialOrd, Ord)]
pub(crate) struct Key {
    mapping: usize,
    form: Form,
}

/// The keys that came, each with the event of the first of those that are equal to it.
#[derive(Drop)]
pub(crate) struct Seen {
    firsts: BTreeMap<Key, usize>,
}

impl Seen {
    ghost use Rattle.std.specs.Prelude.{◌≡◌, ◌+◌, List, IfOk};
    ghost use Rattle.yaml_definitions.specs.model.Event.{Event as PlainEvent};
    ghost use Rattle.review_faults.specs.Keys.{key_at, IsEqualKey};
    ghost use Rattle.review_faults.specs.Seen.{HoldsKeys};
    ghost use Rattle.review_faults.specs.declared.keys.Reader.{Reader};

    /// No key yet.
    fn new(alloc: Global) -> Seen
        ensures { (reader : Reader) (events : List PlainEvent) → HoldsKeys ⟦<Key as Ord>⟧.cmp reader events 0 result }
    {
        Seen {
            firsts: BTreeMap::new(alloc),
        }
    }

    /// Takes the key that begins at the event of this number, if one does. Tells the first equal one, if one came before.
    fn take(&mut self, at: usize, key: Option<Key>) -> Result<Option<usize>, AllocError>
        ensures first { (reader : Reader) (events : List PlainEvent) → HoldsKeys ⟦<Key as Ord>⟧.cmp reader events at self.old → key ≡ key_at reader events at → IfOk result (IsEqualKey reader events at) }
        ensures holds { (reader : Reader) (events : List PlainEvent) → HoldsKeys ⟦<Key as Ord>⟧.cmp reader events at self.old → key ≡ key_at reader events at → IfOk result (λ _. HoldsKeys ⟦<Key as Ord>⟧.cmp reader events (at + 1) self.new) }
    {
        let Some(key) = key else {
            return Ok(None);
        };
        let first = self.firsts.get(&key).copied();
        if first.is_none() {
            self.firsts.insert(key, at)?;
        }
        Ok(first)
    }
}

/// The first keys that are equal to one in each language.
#[derive(Clone, Copy)]
pub(crate) struct Equals {
    pub(crate) python: Option<usize>,
    pub(crate) script: Option<usize>,
}

/// A key of a mapping.
fn key_of(mapping: Option<usize>, form: Option<Form>) -> Option<Key>
    ensures { result ≡ key_of mapping form }
{
    Some(Key {
        mapping: mapping?,
        form: form?,
    })
}

/// The keys that came, and what the nodes with anchors are.
#[derive(Drop)]
pub(crate) struct Keys<'e> {
    named: Named<'e>,
    python: Seen,
    script: Seen,
}

impl<'e> Keys<'e> {
    ghost use Rattle.std.specs.Prelude.{◌≡◌, ◌+◌, List, Some, slice_get, IfOk};
    ghost use Rattle.yaml_definitions.specs.model.Event.{Event as PlainEvent};
    ghost use Rattle.yaml_text.specs.EventModel.{event_of};
    ghost use Rattle.review_faults.specs.Keys.{mapping_at};
    ghost use Rattle.review_faults.specs.Seen.{Holds, AreEqualKeys};

    /// No event yet.
    pub(crate) fn new(alloc: Global) -> Keys<'e>
        ensures { (events : List PlainEvent) → Holds ⟦<Key as Ord>⟧.cmp events 0 result }
    {
        Keys {
            named: BTreeMap::new(alloc),
            python: Seen::new(alloc),
            script: Seen::new(alloc),
        }
    }

    /// Takes the event of this number, at which a key begins of the mapping that began at the other one, if there is one. Tells the
    /// first keys of that mapping that are equal to it.
    pub(crate) fn take(
        &mut self,
        alloc: Global,
        at: usize,
        event: &'e Event<'_>,
        mapping: Option<usize>,
    ) -> Result<Equals, AllocError>
        ensures equal { (events : List PlainEvent) → slice_get events at ≡ Some (event_of event.entry.now) → mapping ≡ mapping_at events at → Holds ⟦<Key as Ord>⟧.cmp events at self.old → IfOk result (AreEqualKeys events at) }
        ensures holds { (events : List PlainEvent) → slice_get events at ≡ Some (event_of event.entry.now) → mapping ≡ mapping_at events at → Holds ⟦<Key as Ord>⟧.cmp events at self.old → IfOk result (λ _. Holds ⟦<Key as Ord>⟧.cmp events (at + 1) self.new) }
    {
        let forms = forms_of(alloc, event, &self.named)?;
        keep(&mut self.named, event, forms)?;
        Ok(Equals {
            python: self.python.take(at, key_of(mapping, forms.python))?,
            script: self.script.take(at, key_of(mapping, forms.script))?,
        })
    }
}

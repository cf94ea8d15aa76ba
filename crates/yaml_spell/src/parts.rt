//! The parts of a node's text: names, tags and contents.
ghost use Rattle.std.specs.Prelude.{◌≡◌, ◌<◌, ◌/◌, ◌%◌, ◌++◌, ◌∷◌, [], OnOk, IfErr, Some};
ghost use Rattle.std.specs.Fmt.{decimal};
ghost use Rattle.std.specs.Str.{encode_utf8_all, chars};
ghost use Rattle.yaml_definitions.specs.canonical.CharText.{hex_digit};
ghost use Rattle.yaml_definitions.specs.canonical.Serialize.{anchor_name};
ghost use Rattle.yaml_definitions.specs.model.Serial.{alias_at};
ghost use Rattle.yaml_definitions.specs.canonical.NodeText.{node_text, anchor_text, quoted};
ghost use Rattle.yaml_definitions.specs.model.Tag.{default_tag};
ghost use Rattle.yaml_definitions.specs.canonical.TagText.{spell_byte, encoded, full_text, tag_text, written_tag};
ghost use Rattle.yaml_definitions.specs.model.Tree.{a_scalar};
ghost use Rattle.yaml_definitions.specs.grammar.Tags.{percent};
ghost use Rattle.yaml_definitions.specs.grammar.Characters.{c-double-quote};
ghost use Rattle.yaml_spell.specs.Stops.{fault_of};
ghost use Rattle.yaml_spell.specs.Pieces.{TakesPiece, Puts, Misses, Fails};
ghost use Rattle.yaml_spell.specs.Kinds.{number_of_kind};

use crate::sink::Sink;
use crate::stop::Stop;
use yaml_text::class::is_uri;
use yaml_text::core_tag;

/// The kinds of nodes.
#[derive(Clone, Copy)]
pub(crate) enum Kind {
    Scalar,
    Sequence,
    Mapping,
}

/// The tag of a node of this kind that carries none.
#[tactic(auto, unfolding(yaml_definitions::specs::model::Tag::core_tag))]
pub(crate) fn default_tag(kind: Kind) -> &'static str
    ensures { result.now ≡ default_tag (number_of_kind kind) }
{
    match kind {
        Kind::Scalar => core_tag::STR,
        Kind::Sequence => core_tag::SEQ,
        Kind::Mapping => core_tag::MAP,
    }
}

/// A digit of base 16, in upper case.
fn digit(value: u8) -> &'static str
    requires { value < 16 }
    ensures { result.now ≡ hex_digit value ∷ [] }
{
    match value {
        0 => "0",
        1 => "1",
        2 => "2",
        3 => "3",
        4 => "4",
        5 => "5",
        6 => "6",
        7 => "7",
        8 => "8",
        9 => "9",
        10 => "A",
        11 => "B",
        12 => "C",
        13 => "D",
        14 => "E",
        _ => "F",
    }
}

/// A number in decimal.
fn put_number<O, S: Sink<O>>(sink: &mut S, out: &mut O, number: usize) -> Result<(), Stop>
    ensures ok { OnOk result (TakesPiece S.holds sink.old out.old sink.new out.new (decimal number)) }
    ensures err { IfErr result (λ stop. Misses S.holds S.stops sink.old out.old out.new (fault_of stop) (decimal number)) }
{
    let last = digit((number % 10) as u8);
    if number < 10 {
        return sink.put(out, last);
    }
    put_number(sink, out, number / 10)?;
    sink.put(out, last)
}

/// An alias of this number.
pub(crate) fn put_alias<O, S: Sink<O>>(sink: &mut S, out: &mut O, number: usize) -> Result<(), Stop>
    requires { 0 < number }
    ensures ok { OnOk result (Puts S.holds sink.old out.old sink.new out.new (node_text (alias_at (anchor_name number)))) }
    ensures err { IfErr result (λ stop. Fails S.holds S.stops sink.old out.old out.new (fault_of stop) (node_text (alias_at (anchor_name number)))) }
{
    sink.put(out, "*a")?;
    put_number(sink, out, number)
}

/// An anchor of this number, and a space.
pub(crate) fn put_anchor<O, S: Sink<O>>(
    sink: &mut S,
    out: &mut O,
    number: usize,
) -> Result<(), Stop>
    requires { 0 < number }
    ensures ok { OnOk result (Puts S.holds sink.old out.old sink.new out.new (anchor_text (Some (anchor_name number)))) }
    ensures err { IfErr result (λ stop. Fails S.holds S.stops sink.old out.old out.new (fault_of stop) (anchor_text (Some (anchor_name number)))) }
{
    sink.put(out, "&a")?;
    put_number(sink, out, number)?;
    sink.put(out, " ")
}

/// `%HH`, for a byte that is not written as itself.
fn put_escape<O, S: Sink<O>>(sink: &mut S, out: &mut O, byte: u8) -> Result<(), Stop>
    ensures ok { OnOk result (TakesPiece S.holds sink.old out.old sink.new out.new (percent ∷ hex_digit (byte / 16) ∷ hex_digit (byte % 16) ∷ [])) }
    ensures err { IfErr result (λ stop. Misses S.holds S.stops sink.old out.old out.new (fault_of stop) (percent ∷ hex_digit (byte / 16) ∷ hex_digit (byte % 16) ∷ [])) }
{
    sink.put(out, "%")?;
    sink.put(out, digit(byte / 16))?;
    sink.put(out, digit(byte % 16))
}

/// A byte of a tag: as it is where it is a URI character, else percent-encoded.
fn put_byte<O, S: Sink<O>>(sink: &mut S, out: &mut O, byte: u8) -> Result<(), Stop>
    ensures ok { OnOk result (TakesPiece S.holds sink.old out.old sink.new out.new (encode_utf8_all (spell_byte byte))) }
    ensures err { IfErr result (λ stop. Misses S.holds S.stops sink.old out.old out.new (fault_of stop) (encode_utf8_all (spell_byte byte))) }
{
    let c = char::from(byte);
    if is_uri(c) {
        let mut utf8 = [0u8; 4];
        sink.put(out, c.encode_utf8(&mut utf8))
    } else {
        put_escape(sink, out, byte)
    }
}

/// A tag's bytes, percent-encoded.
fn put_encoded<O, S: Sink<O>>(sink: &mut S, out: &mut O, tag: &str) -> Result<(), Stop>
    ensures ok { OnOk result (TakesPiece S.holds sink.old out.old sink.new out.new (encode_utf8_all (encoded tag.now []))) }
    ensures err { IfErr result (λ stop. Misses S.holds S.stops sink.old out.old out.new (fault_of stop) (encode_utf8_all (encoded tag.now []))) }
{
    for byte in tag.as_bytes() {
        put_byte(sink, out, *byte)?;
    }
    Ok(())
}

/// A tag that is not left out, and a space.
#[inline(never)]
fn put_full_tag<O, S: Sink<O>>(sink: &mut S, out: &mut O, tag: &str) -> Result<(), Stop>
    ensures ok { OnOk result (Puts S.holds sink.old out.old sink.new out.new (λ more. full_text tag.now ++ more)) }
    ensures err { IfErr result (λ stop. Fails S.holds S.stops sink.old out.old out.new (fault_of stop) (λ more. full_text tag.now ++ more)) }
{
    if let Some(known) = core_tag::core_text(tag) {
        return sink.put(out, known);
    }
    sink.put(out, "!<")?;
    put_encoded(sink, out, tag)?;
    sink.put(out, "> ")
}

/// A tag of a node of this kind, and a space. The kind's own tag is not written: mostly it is that one.
#[inline(always)]
pub(crate) fn put_tag<O, S: Sink<O>>(
    sink: &mut S,
    out: &mut O,
    tag: &str,
    kind: Kind,
) -> Result<(), Stop>
    ensures ok { OnOk result (Puts S.holds sink.old out.old sink.new out.new (λ more. tag_text (written_tag (number_of_kind kind) tag.now) ++ more)) }
    ensures err { IfErr result (λ stop. Fails S.holds S.stops sink.old out.old out.new (fault_of stop) (λ more. tag_text (written_tag (number_of_kind kind) tag.now) ++ more)) }
{
    if tag == default_tag(kind) {
        return Ok(());
    }
    put_full_tag(sink, out, tag)
}

/// A scalar's tag and content.
#[inline(always)]
pub(crate) fn put_scalar<O, S: Sink<O>>(
    sink: &mut S,
    out: &mut O,
    tag: &str,
    content: &str,
) -> Result<(), Stop>
    ensures ok { OnOk result (Puts S.holds sink.old out.old sink.new out.new (λ more. tag_text (written_tag a_scalar tag.now) ++ (c-double-quote ∷ quoted (chars content.now) more))) }
    ensures err { IfErr result (λ stop. Fails S.holds S.stops sink.old out.old out.new (fault_of stop) (λ more. tag_text (written_tag a_scalar tag.now) ++ (c-double-quote ∷ quoted (chars content.now) more))) }
{
    put_tag(sink, out, tag, Kind::Scalar)?;
    sink.put_spelled(out, content)
}

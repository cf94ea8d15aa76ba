//! Tags as they are written.
ghost use Rattle.std.specs.Prelude.{◌≡◌, ◌++◌, ◌/◌, ◌%◌, [], ◌∷◌, OnOk, IfErr, encode_utf8_all, flat_map};
ghost use Rattle.std.specs.List.{list_all};
ghost use Rattle.std.specs.Option.{option_map};
ghost use Rattle.yaml_definitions.specs.canonical.CharText.{hex_digit};
ghost use Rattle.yaml_definitions.specs.grammar.Tags.{percent};
ghost use Rattle.yaml_show_scalar.specs.Tags.{is_suffix_byte, is_suffix, suffix_behind, is_tag_byte, tag_byte, verbatim, other_text, tag_text, is_resolved, is_left_out, tag_before};
ghost use Rattle.yaml_show_scalar.specs.Stops.{limit_of, Stops};
ghost use Rattle.yaml_show_scalar.specs.Texts.{written};

use crate::output::Out;
use crate::stop::Stop;
use crate::texts::behind;
use yaml_text::class::is_uri;
use yaml_text::core_tag;

/// Whether a byte may stand in a shorthand as it is.
#[tactic(auto, unfolding(crate::specs::Tags::is_suffix_byte))]
fn is_suffix_byte(byte: u8) -> bool
    ensures { result ≡ is_suffix_byte byte }
{
    matches!(byte, b'0'..=b'9' | b'A'..=b'Z' | b'a'..=b'z' | b'_' | b'.' | b'/' | b':' | b'@' | b'+' | b'-')
}

/// Whether each byte of a text may stand in a shorthand as it is.
fn are_suffix_bytes(text: &str) -> bool
    ensures { result ≡ list_all is_suffix_byte text.now }
{
    text.as_bytes().iter().all(|byte| is_suffix_byte(*byte))
}

/// Whether a tag of this suffix is written as a shorthand, with `!` or `!!` before it.
fn is_suffix(text: &str) -> bool
    ensures { result ≡ is_suffix text.now }
{
    !text.is_empty() && are_suffix_bytes(text)
}

/// Whether a scalar of this tag is written by its canonical content.
#[tactic(auto, unfolding(crate::specs::Tags::is_resolved, yaml_definitions::specs::model::Tag::core_tag))]
pub fn is_resolved(tag: &str) -> bool
    ensures { result ≡ is_resolved tag.now }
{
    tag == core_tag::NULL || tag == core_tag::BOOL || tag == core_tag::INT || tag == core_tag::FLOAT
}

/// Whether a tag is left out: it is the kind's own, or a plain scalar has it by its text.
#[tactic(auto, unfolding(crate::specs::Tags::is_left_out))]
pub fn is_left_out(tag: &str, own: &str) -> bool
    ensures { result ≡ is_left_out tag.now own.now }
{
    tag == own || is_resolved(tag)
}

/// Writes a byte percent-encoded.
fn put_percent(out: &mut Out, byte: u8) -> Result<(), Stop>
    ensures ok { OnOk result (written out.new ≡ written out.old ++ (percent ∷ hex_digit (byte / 16 % 16) ∷ hex_digit (byte % 16) ∷ [])) }
    ensures limit { limit_of out.new ≡ limit_of out.old }
    ensures err { IfErr result (Stops (limit_of out.old) (written out.old ++ (percent ∷ hex_digit (byte / 16 % 16) ∷ hex_digit (byte % 16) ∷ []))) }
{
    out.put("%")?;
    out.put_digit(u32::from(byte) / 16)?;
    out.put_digit(u32::from(byte))
}

/// Whether a byte is written as it is in a verbatim tag. Some readers reject `#` there, though it is a URI character.
#[tactic(auto, unfolding(crate::specs::Tags::is_tag_byte))]
fn is_tag_byte(byte: u8) -> bool
    ensures { result ≡ is_tag_byte byte }
{
    byte != b'#' && is_uri(char::from(byte))
}

/// Writes a byte of a verbatim tag: as it is, or percent-encoded.
fn put_byte(out: &mut Out, byte: u8) -> Result<(), Stop>
    ensures ok { OnOk result (written out.new ≡ written out.old ++ encode_utf8_all (tag_byte byte)) }
    ensures limit { limit_of out.new ≡ limit_of out.old }
    ensures err { IfErr result (Stops (limit_of out.old) (written out.old ++ encode_utf8_all (tag_byte byte))) }
{
    let c = char::from(byte);
    if is_tag_byte(byte) {
        let mut room = [0u8; 4];
        return out.put(c.encode_utf8(&mut room));
    }
    put_percent(out, byte)
}

/// Writes the bytes of a verbatim tag.
fn put_encoded(out: &mut Out, tag: &str) -> Result<(), Stop>
    ensures ok { OnOk result (written out.new ≡ written out.old ++ encode_utf8_all (flat_map tag_byte tag.now)) }
    ensures limit { limit_of out.new ≡ limit_of out.old }
    ensures err { IfErr result (Stops (limit_of out.old) (written out.old ++ encode_utf8_all (flat_map tag_byte tag.now))) }
{
    for byte in tag.as_bytes() {
        put_byte(out, *byte)?;
    }
    Ok(())
}

/// Writes a verbatim tag (YAML 1.2.2, 6.9.1).
fn put_verbatim(out: &mut Out, tag: &str) -> Result<(), Stop>
    ensures ok { OnOk result (written out.new ≡ written out.old ++ verbatim tag.now) }
    ensures limit { limit_of out.new ≡ limit_of out.old }
    ensures err { IfErr result (Stops (limit_of out.old) (written out.old ++ verbatim tag.now)) }
{
    out.put("!<")?;
    put_encoded(out, tag)?;
    out.put(">")
}

/// What stands behind this front of a tag, if it is written as it is in a shorthand.
#[tactic(auto, unfolding(crate::specs::Tags::suffix_behind))]
fn suffix_behind<'t>(tag: &'t str, front: &str) -> Option<&'t str>
    ensures { option_map (λ suffix. suffix.now) result ≡ suffix_behind front.now tag.now }
{
    let suffix = behind(tag, front)?;
    if is_suffix(suffix) {
        Some(suffix)
    } else {
        None
    }
}

/// Writes a shorthand of a tag.
fn put_shorthand(out: &mut Out, handle: &str, suffix: &str) -> Result<(), Stop>
    ensures ok { OnOk result (written out.new ≡ written out.old ++ (handle.now ++ suffix.now)) }
    ensures limit { limit_of out.new ≡ limit_of out.old }
    ensures err { IfErr result (Stops (limit_of out.old) (written out.old ++ (handle.now ++ suffix.now))) }
{
    out.put(handle)?;
    out.put(suffix)
}

/// Writes a tag that has no shorthand with `!!`.
fn put_other(out: &mut Out, tag: &str) -> Result<(), Stop>
    ensures ok { OnOk result (written out.new ≡ written out.old ++ other_text tag.now) }
    ensures limit { limit_of out.new ≡ limit_of out.old }
    ensures err { IfErr result (Stops (limit_of out.old) (written out.old ++ other_text tag.now)) }
{
    match suffix_behind(tag, "!") {
        Some(suffix) => put_shorthand(out, "!", suffix),
        None => put_verbatim(out, tag),
    }
}

/// Writes a tag.
pub fn put_tag(out: &mut Out, tag: &str) -> Result<(), Stop>
    ensures ok { OnOk result (written out.new ≡ written out.old ++ tag_text tag.now) }
    ensures limit { limit_of out.new ≡ limit_of out.old }
    ensures err { IfErr result (Stops (limit_of out.old) (written out.old ++ tag_text tag.now)) }
{
    match suffix_behind(tag, core_tag::PREFIX) {
        Some(suffix) => put_shorthand(out, "!!", suffix),
        None => put_other(out, tag),
    }
}

/// Writes a tag that is not left out, and a space.
#[tactic(auto, unfolding(crate::specs::Tags::tag_before))]
pub fn put_tag_before(out: &mut Out, tag: &str, own: &str) -> Result<(), Stop>
    ensures ok { OnOk result (written out.new ≡ written out.old ++ tag_before tag.now own.now) }
    ensures limit { limit_of out.new ≡ limit_of out.old }
    ensures err { IfErr result (Stops (limit_of out.old) (written out.old ++ tag_before tag.now own.now)) }
{
    if is_left_out(tag, own) {
        return Ok(());
    }
    put_tag(out, tag)?;
    out.put(" ")
}

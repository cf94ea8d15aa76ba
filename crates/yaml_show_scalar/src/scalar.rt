//! Scalars.
ghost use Rattle.std.specs.Prelude.{◌≡◌, ◌==◌, ◌||◌, ◌++◌, [], ◌∷◌, OnOk, IfErr};
ghost use Rattle.std.specs.List.{list_any};
ghost use Rattle.yaml_definitions.specs.grammar.Characters.{b-line-feed, s-space, s-tab};
ghost use Rattle.yaml_show_scalar.specs.Scalars.{stands_plain, string_text, scalar_text, is_feed, is_long, is_seen, is_blank, leads_blank, literal_text, broken_text, folded_text, is_folded, is_literal, long_text, scalar_lines};
ghost use Rattle.yaml_show_scalar.specs.Tags.{tag_before};
ghost use Rattle.yaml_definitions.specs.model.Tag.{str_tag};
ghost use Rattle.yaml_show_scalar.specs.Stops.{limit_of, Stops};
ghost use Rattle.yaml_show_scalar.specs.Texts.{written};

use crate::chars::is_unseen;
use crate::escapes::put_quoted;
use crate::lines::{body_of, put_broken, put_literal};
use crate::number::put_float;
use crate::output::Out;
use crate::paragraphs::{is_folded, put_folded};
use crate::plain::is_plain;
use crate::stop::Stop;
use crate::tag::{is_resolved, put_tag_before};
use yaml_text::core_tag;

/// Whether a string that may be plain is written so.
#[derive(Clone, Copy, PartialEq, Eq)]
pub enum Quotes {
    /// In block style.
    WhereNeeded,
    /// In flow style.
    Always,
}

/// Whether a string is written plain here.
fn stands_plain(content: &str, quotes: Quotes) -> bool
    ensures { result ≡ stands_plain quotes content.now }
{
    match quotes {
        Quotes::WhereNeeded => is_plain(content),
        Quotes::Always => false,
    }
}

/// Writes a string on one line, behind its tag.
#[tactic(auto, unfolding(crate::specs::Scalars::string_text, yaml_definitions::specs::model::Tag::core_tag))]
fn put_string(out: &mut Out, tag: &str, content: &str, quotes: Quotes) -> Result<(), Stop>
    ensures ok { OnOk result (written out.new ≡ written out.old ++ string_text quotes tag.now content.now) }
    ensures limit { limit_of out.new ≡ limit_of out.old }
    ensures err { IfErr result (Stops (limit_of out.old) (written out.old ++ string_text quotes tag.now content.now)) }
{
    put_tag_before(out, tag, core_tag::STR)?;
    if stands_plain(content, quotes) {
        return out.put(content);
    }
    put_quoted(out, content)
}

/// Writes a scalar on one line.
#[tactic(auto, unfolding(crate::specs::Scalars::scalar_text, yaml_definitions::specs::model::Tag::core_tag))]
pub fn put_scalar(out: &mut Out, tag: &str, content: &str, quotes: Quotes) -> Result<(), Stop>
    ensures ok { OnOk result (written out.new ≡ written out.old ++ scalar_text quotes tag.now content.now) }
    ensures limit { limit_of out.new ≡ limit_of out.old }
    ensures err { IfErr result (Stops (limit_of out.old) (written out.old ++ scalar_text quotes tag.now content.now)) }
{
    if tag == core_tag::FLOAT {
        return put_float(out, content);
    }
    if is_resolved(tag) {
        return out.put(content);
    }
    put_string(out, tag, content, quotes)
}

/// Whether a text has a line feed.
fn has_feed(text: &str) -> bool
    ensures { result ≡ list_any is_feed text.now }
{
    text.as_bytes().iter().any(|byte| *byte == b'\n')
}

/// Whether a text has nothing but line feeds, spaces and tabs.
#[tactic(auto, unfolding(crate::specs::Scalars::is_blank))]
fn is_blank(text: &str) -> bool
    ensures { result ≡ is_blank text.now }
{
    text.as_bytes()
        .iter()
        .all(|byte| matches!(*byte, b'\n' | b' ' | b'\t'))
}

/// Whether a string may be written on several lines.
#[tactic(auto, unfolding(crate::specs::Scalars::is_long))]
fn is_long(content: &str) -> bool
    ensures { result ≡ is_long content.now }
{
    has_feed(content) && !is_blank(content)
}

/// Whether each character may be in a literal scalar.
#[tactic(auto, unfolding(crate::specs::Scalars::is_seen))]
fn is_seen(content: &str) -> bool
    ensures { result ≡ is_seen content.now }
{
    content
        .chars()
        .all(|c| matches!(c, '\n' | '\t') || !is_unseen(c))
}

/// Whether a byte is a space or a tab.
fn is_white(byte: u8) -> bool
    ensures { result ≡ ((byte == s-space) || (byte == s-tab)) }
{
    byte == b' ' || byte == b'\t'
}

/// Whether the first line that is not empty begins with a space or a tab.
pub(crate) fn leads_blank(content: &str) -> bool
    ensures { result ≡ leads_blank content.now }
{
    for byte in content.as_bytes() {
        if *byte != b'\n' {
            return is_white(*byte);
        }
    }
    false
}

/// Whether a string is written as a literal scalar, where it is written on several lines.
#[tactic(auto, unfolding(crate::specs::Scalars::is_literal))]
fn is_literal(content: &str, is_root: bool) -> bool
    ensures { result ≡ is_literal is_root content.now }
{
    is_seen(content) && !(is_root && leads_blank(content))
}

/// Writes a literal scalar behind its tag.
#[tactic(auto, unfolding(yaml_definitions::specs::model::Tag::core_tag))]
fn put_literal_string(out: &mut Out, tag: &str, content: &str, level: usize) -> Result<(), Stop>
    ensures ok { OnOk result (written out.new ≡ written out.old ++ (tag_before tag.now str_tag ++ literal_text level content.now)) }
    ensures limit { limit_of out.new ≡ limit_of out.old }
    ensures err { IfErr result (Stops (limit_of out.old) (written out.old ++ (tag_before tag.now str_tag ++ literal_text level content.now))) }
{
    put_tag_before(out, tag, core_tag::STR)?;
    put_literal(out, content, level)
}

/// Writes a double-quoted scalar on several lines behind its tag.
#[tactic(auto, unfolding(yaml_definitions::specs::model::Tag::core_tag))]
fn put_broken_string(out: &mut Out, tag: &str, content: &str, level: usize) -> Result<(), Stop>
    ensures ok { OnOk result (written out.new ≡ written out.old ++ (tag_before tag.now str_tag ++ broken_text level content.now)) }
    ensures limit { limit_of out.new ≡ limit_of out.old }
    ensures err { IfErr result (Stops (limit_of out.old) (written out.old ++ (tag_before tag.now str_tag ++ broken_text level content.now))) }
{
    put_tag_before(out, tag, core_tag::STR)?;
    put_broken(out, content, level)
}

/// Writes a folded scalar behind its tag.
#[tactic(auto, unfolding(yaml_definitions::specs::model::Tag::core_tag))]
fn put_folded_string(out: &mut Out, tag: &str, content: &str, level: usize) -> Result<(), Stop>
    ensures ok { OnOk result (written out.new ≡ written out.old ++ (tag_before tag.now str_tag ++ folded_text level content.now)) }
    ensures limit { limit_of out.new ≡ limit_of out.old }
    ensures err { IfErr result (Stops (limit_of out.old) (written out.old ++ (tag_before tag.now str_tag ++ folded_text level content.now))) }
{
    put_tag_before(out, tag, core_tag::STR)?;
    put_folded(out, content, level)
}

/// Writes a scalar on one line, and its end.
fn put_line(out: &mut Out, tag: &str, content: &str, quotes: Quotes) -> Result<(), Stop>
    ensures ok { OnOk result (written out.new ≡ written out.old ++ (scalar_text quotes tag.now content.now ++ (b-line-feed ∷ []))) }
    ensures limit { limit_of out.new ≡ limit_of out.old }
    ensures err { IfErr result (Stops (limit_of out.old) (written out.old ++ (scalar_text quotes tag.now content.now ++ (b-line-feed ∷ [])))) }
{
    put_scalar(out, tag, content, quotes)?;
    out.put("\n")
}

/// Writes a string with line feeds, and the end of its line.
#[tactic(auto, unfolding(crate::specs::Scalars::long_text))]
fn put_long(
    out: &mut Out,
    tag: &str,
    content: &str,
    level: usize,
    is_root: bool,
) -> Result<(), Stop>
    ensures ok { OnOk result (written out.new ≡ written out.old ++ long_text level is_root tag.now content.now) }
    ensures limit { limit_of out.new ≡ limit_of out.old }
    ensures err { IfErr result (Stops (limit_of out.old) (written out.old ++ long_text level is_root tag.now content.now)) }
{
    if is_literal(content, is_root) {
        return put_literal_string(out, tag, content, level);
    }
    if has_feed(body_of(content)) {
        return put_broken_string(out, tag, content, level);
    }
    put_line(out, tag, content, Quotes::Always)
}

/// Writes a scalar and the end of its line. Its further lines are at this level. A literal scalar that is a document begins with no
/// blank, since its indentation indicator could not say so.
#[tactic(auto, unfolding(crate::specs::Scalars::scalar_lines))]
pub fn put_scalar_lines(
    out: &mut Out,
    tag: &str,
    content: &str,
    level: usize,
    is_root: bool,
) -> Result<(), Stop>
    ensures ok { OnOk result (written out.new ≡ written out.old ++ scalar_lines level is_root tag.now content.now) }
    ensures limit { limit_of out.new ≡ limit_of out.old }
    ensures err { IfErr result (Stops (limit_of out.old) (written out.old ++ scalar_lines level is_root tag.now content.now)) }
{
    if !is_resolved(tag) && is_folded(content) {
        return put_folded_string(out, tag, content, level);
    }
    if is_resolved(tag) || !is_long(content) {
        return put_line(out, tag, content, Quotes::WhereNeeded);
    }
    put_long(out, tag, content, level, is_root)
}

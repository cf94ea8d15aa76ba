//! Strings on several lines.
ghost use Rattle.std.specs.Prelude.{◌≡◌, ◌++◌, OnOk, IfErr, flat_map};
ghost use Rattle.std.specs.List.{slice_split};
ghost use Rattle.yaml_show_scalar.specs.Scalars.{is_feed, body, chomping, literal_header, literal_line, literal_text, broken_line, broken_feed, joined, broken_text};
ghost use Rattle.yaml_show_scalar.specs.Stops.{limit_of, Stops};
ghost use Rattle.yaml_show_scalar.specs.Texts.{written};

use crate::escapes::put_escaped;
use crate::output::Out;
use crate::scalar::leads_blank;
use crate::stop::Stop;
use crate::texts::{byte_at, ends_in};

/// A text without the line feed with which it may end.
pub(crate) fn body_of(content: &str) -> &str
    ensures { result.now ≡ body content.now }
{
    match content.strip_suffix('\n') {
        Some(body) => body,
        None => content,
    }
}

/// Writes the chomping indicator and the end of its line.
#[tactic(auto, unfolding(crate::specs::Scalars::chomping))]
pub(crate) fn put_chomping(out: &mut Out, content: &str) -> Result<(), Stop>
    ensures ok { OnOk result (written out.new ≡ written out.old ++ chomping content.now) }
    ensures limit { limit_of out.new ≡ limit_of out.old }
    ensures err { IfErr result (Stops (limit_of out.old) (written out.old ++ chomping content.now)) }
{
    if !ends_in(content, '\n') {
        return out.put("-\n");
    }
    out.put(if ends_in(body_of(content), '\n') {
        "+\n"
    } else {
        "\n"
    })
}

/// Writes the line on which a literal scalar begins.
fn put_header(out: &mut Out, content: &str) -> Result<(), Stop>
    ensures ok { OnOk result (written out.new ≡ written out.old ++ literal_header content.now) }
    ensures limit { limit_of out.new ≡ limit_of out.old }
    ensures err { IfErr result (Stops (limit_of out.old) (written out.old ++ literal_header content.now)) }
{
    out.put(if leads_blank(content) { "|2" } else { "|" })?;
    put_chomping(out, content)
}

/// Writes a line of a literal scalar.
fn put_literal_line(out: &mut Out, line: &str, level: usize) -> Result<(), Stop>
    ensures ok { OnOk result (written out.new ≡ written out.old ++ literal_line level line.now) }
    ensures limit { limit_of out.new ≡ limit_of out.old }
    ensures err { IfErr result (Stops (limit_of out.old) (written out.old ++ literal_line level line.now)) }
{
    if line.is_empty() {
        return out.put("\n");
    }
    out.put_times(level, "  ")?;
    out.put(line)?;
    out.put("\n")
}

/// Writes the lines of a literal scalar.
fn put_literal_lines(out: &mut Out, body: &str, level: usize) -> Result<(), Stop>
    ensures ok { OnOk result (written out.new ≡ written out.old ++ flat_map (literal_line level) (slice_split is_feed body.now)) }
    ensures limit { limit_of out.new ≡ limit_of out.old }
    ensures err { IfErr result (Stops (limit_of out.old) (written out.old ++ flat_map (literal_line level) (slice_split is_feed body.now))) }
{
    let mut rest = body;
    'lines: loop {
        let Some((line, after)) = rest.split_once('\n') else {
            return put_literal_line(out, rest, level);
        };
        put_literal_line(out, line, level)?;
        rest = after;
    }
}

/// Writes a literal scalar (YAML 1.2.2, 8.1.2). Its lines are at this level.
#[tactic(auto, unfolding(crate::specs::Scalars::literal_text))]
pub(crate) fn put_literal(out: &mut Out, content: &str, level: usize) -> Result<(), Stop>
    ensures ok { OnOk result (written out.new ≡ written out.old ++ literal_text level content.now) }
    ensures limit { limit_of out.new ≡ limit_of out.old }
    ensures err { IfErr result (Stops (limit_of out.old) (written out.old ++ literal_text level content.now)) }
{
    put_header(out, content)?;
    put_literal_lines(out, body_of(content), level)
}

/// Writes a line between double quotes.
fn put_broken_line(out: &mut Out, line: &str, level: usize) -> Result<(), Stop>
    ensures ok { OnOk result (written out.new ≡ written out.old ++ broken_line level line.now) }
    ensures limit { limit_of out.new ≡ limit_of out.old }
    ensures err { IfErr result (Stops (limit_of out.old) (written out.old ++ broken_line level line.now)) }
{
    out.put_times(level, "  ")?;
    if byte_at(line, 0) == b' ' {
        out.put("\\")?;
    }
    put_escaped(out, line)
}

/// Writes lines between double quotes. Each break between them is escaped.
fn put_broken_lines(out: &mut Out, body: &str, level: usize) -> Result<(), Stop>
    ensures ok { OnOk result (written out.new ≡ written out.old ++ joined (broken_line level) broken_feed (slice_split is_feed body.now)) }
    ensures limit { limit_of out.new ≡ limit_of out.old }
    ensures err { IfErr result (Stops (limit_of out.old) (written out.old ++ joined (broken_line level) broken_feed (slice_split is_feed body.now))) }
{
    let mut rest = body;
    'lines: loop {
        let Some((line, after)) = rest.split_once('\n') else {
            return put_broken_line(out, rest, level);
        };
        put_broken_line(out, line, level)?;
        out.put("\\n\\\n")?;
        rest = after;
    }
}

/// Writes a double-quoted scalar with a line for each line of the text, and the end of its line. A change of the text is then one of few
/// lines.
#[tactic(auto, unfolding(crate::specs::Scalars::broken_text))]
pub(crate) fn put_broken(out: &mut Out, content: &str, level: usize) -> Result<(), Stop>
    ensures ok { OnOk result (written out.new ≡ written out.old ++ broken_text level content.now) }
    ensures limit { limit_of out.new ≡ limit_of out.old }
    ensures err { IfErr result (Stops (limit_of out.old) (written out.old ++ broken_text level content.now)) }
{
    out.put("\"\\\n")?;
    put_broken_lines(out, body_of(content), level)?;
    out.put(if ends_in(content, '\n') {
        "\\n\"\n"
    } else {
        "\"\n"
    })
}

//! Folded scalars (YAML 1.2.2, 8.1.3): strings whose lines are long.
ghost use Rattle.std.specs.Prelude.{◌≡◌, ◌==◌, ◌&&◌, ◌||◌, ◌/◌, ◌-◌, ◌++◌, ◌∷◌, [], not, cond, nat_le, OnOk, IfErr};
ghost use Rattle.std.specs.List.{count_by, list_all, list_any, slice_split};
ghost use Rattle.std.specs.Str.{chars};
ghost use Rattle.yaml_definitions.specs.grammar.Characters.{b-line-feed, s-space};
ghost use Rattle.yaml_show_scalar.specs.Escapes.{is_unseen};
ghost use Rattle.yaml_show_scalar.specs.Folds.{width, is_foldable};
ghost use Rattle.yaml_show_scalar.specs.Scalars.{is_feed, is_full, joined, paragraph, folded_text, is_prose, is_folded};
ghost use Rattle.yaml_show_scalar.specs.Stops.{limit_of, Stops};
ghost use Rattle.yaml_show_scalar.specs.Texts.{has_pair, written};

use crate::chars::is_unseen;
use crate::fold::{is_foldable, put_folded_line, width};
use crate::lines::{body_of, put_chomping};
use crate::output::Out;
use crate::stop::Stop;
use crate::texts::byte_at;

/// How many columns the lines have on average, if they are folded. Lines of a script have fewer, and stay as they are.
const AVERAGE: usize = 80;

/// Writes a line of the text. An empty one has nothing but the line feed that is written behind it.
fn put_paragraph(out: &mut Out, line: &str, level: usize) -> Result<(), Stop>
    ensures ok { OnOk result (written out.new ≡ written out.old ++ paragraph level line.now) }
    ensures limit { limit_of out.new ≡ limit_of out.old }
    ensures err { IfErr result (Stops (limit_of out.old) (written out.old ++ paragraph level line.now)) }
{
    if line.is_empty() {
        return Ok(());
    }
    put_folded_line(out, line, level)
}

/// Writes the lines of a text. One line feed in a folded scalar is read as a space, so there is a second one between two lines.
fn put_paragraphs(out: &mut Out, body: &str, level: usize) -> Result<(), Stop>
    ensures ok { OnOk result (written out.new ≡ written out.old ++ joined (paragraph level) (b-line-feed ∷ []) (slice_split is_feed body.now)) }
    ensures limit { limit_of out.new ≡ limit_of out.old }
    ensures err { IfErr result (Stops (limit_of out.old) (written out.old ++ joined (paragraph level) (b-line-feed ∷ []) (slice_split is_feed body.now))) }
{
    let mut rest = body;
    'lines: loop {
        let Some((line, after)) = rest.split_once('\n') else {
            return put_paragraph(out, rest, level);
        };
        put_paragraph(out, line, level)?;
        out.put("\n")?;
        rest = after;
    }
}

/// Writes a folded scalar. Its lines are at this level.
#[tactic(auto, unfolding(crate::specs::Scalars::folded_text))]
pub(crate) fn put_folded(out: &mut Out, content: &str, level: usize) -> Result<(), Stop>
    ensures ok { OnOk result (written out.new ≡ written out.old ++ folded_text level content.now) }
    ensures limit { limit_of out.new ≡ limit_of out.old }
    ensures err { IfErr result (Stops (limit_of out.old) (written out.old ++ folded_text level content.now)) }
{
    out.put(">")?;
    put_chomping(out, content)?;
    put_paragraphs(out, body_of(content), level)
}

/// Whether a line is one more than there may be, if so many more may be.
fn is_over(left: usize, line: &str) -> bool
    ensures { result ≡ (is_full line.now && (left == 0)) }
{
    !line.is_empty() && left == 0
}

/// How many more lines there may be behind this one.
fn left_after(left: usize, line: &str) -> usize
    ensures { result ≡ cond (is_full line.now) (left - 1) left }
{
    if line.is_empty() {
        left
    } else {
        left.saturating_sub(1)
    }
}

/// Whether a text has at most so many lines that are not empty.
fn has_at_most(text: &str, most: usize) -> bool
    ensures { result ≡ nat_le (count_by is_full (slice_split is_feed text.now)) most }
{
    let mut rest = text;
    let mut left = most;
    'lines: loop {
        let Some((line, after)) = rest.split_once('\n') else {
            return !is_over(left, rest);
        };
        if is_over(left, line) {
            return false;
        }
        left = left_after(left, line);
        rest = after;
    }
}

/// Whether the lines of a text that are not empty are so long on average.
fn are_long(text: &str) -> bool
    ensures { result ≡ nat_le (count_by is_full (slice_split is_feed text.now)) (width text.now / 80) }
{
    has_at_most(text, width(text) / AVERAGE)
}

/// Whether a line after the first one begins with a space. A folded scalar keeps the breaks beside such a line.
fn has_indentation(text: &str) -> bool
    ensures { result ≡ has_pair b-line-feed s-space text.now }
{
    text.contains("\n ")
}

/// Whether no character of a text is unseen but its line feeds.
fn are_seen(text: &str) -> bool
    ensures { result ≡ list_all (λ c. (c == b-line-feed) || not (is_unseen c)) (chars text.now) }
{
    text.chars().all(|c| c == '\n' || !is_unseen(c))
}

/// Whether a line of a text is written on several lines.
fn has_foldable(text: &str) -> bool
    ensures { result ≡ list_any is_foldable (slice_split is_feed text.now) }
{
    let mut rest = text;
    'lines: loop {
        let Some((line, after)) = rest.split_once('\n') else {
            return is_foldable(rest);
        };
        if is_foldable(line) {
            return true;
        }
        rest = after;
    }
}

/// Whether the lines of a text are folded.
#[tactic(auto, unfolding(crate::specs::Scalars::is_prose))]
fn is_prose(body: &str) -> bool
    ensures { result ≡ is_prose body.now }
{
    are_long(body)
        && byte_at(body, 0) != b' '
        && !has_indentation(body)
        && are_seen(body)
        && has_foldable(body)
}

/// Whether a string is folded, with or without the line feed at its end.
pub(crate) fn is_folded(content: &str) -> bool
    ensures { result ≡ is_folded content.now }
{
    is_prose(body_of(content))
}

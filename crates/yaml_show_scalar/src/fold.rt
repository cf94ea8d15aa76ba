//! A long line of a string on several lines. A line ends where its own words say so, so a changed word changes few lines.
ghost use Rattle.std.specs.Prelude.{◌≡◌, ◌+◌, ◌++◌, nat_le, OnOk, IfErr};
ghost use Rattle.std.specs.List.{list_any, slice_split};
ghost use Rattle.yaml_show_scalar.specs.Folds.{is_space, width, column_after, ends_phrase, column_behind, ends_line, next_column, next_word, further_words, folded_words, folded_line, is_foldable};
ghost use Rattle.yaml_show_scalar.specs.Stops.{limit_of, Stops};
ghost use Rattle.yaml_show_scalar.specs.Texts.{written};

use crate::output::Out;
use crate::plain::is_all_seen;
use crate::stop::Stop;
use crate::texts::{byte_at, ends_in};

/// The last column of a folded line, from its indentation on.
const COLUMNS: usize = 80;

/// How many columns a text takes.
pub(crate) fn width(text: &str) -> usize
    ensures { result ≡ width text.now }
{
    text.chars().count()
}

/// Whether so many columns further are still on a line.
fn is_within(column: usize, count: usize) -> bool
    ensures { result ≡ nat_le (column + count) 80 }
{
    column.saturating_add(count) <= COLUMNS
}

/// So many columns further. 81 stands for each column past the 80th.
fn column_after(column: usize, count: usize) -> usize
    ensures { result ≡ column_after column count }
{
    if is_within(column, count) {
        column + count
    } else {
        81
    }
}

/// Whether a word ends with a mark of punctuation.
#[tactic(auto, unfolding(crate::specs::Folds::ends_phrase))]
fn ends_phrase(word: &str) -> bool
    ensures { result ≡ ends_phrase word.now }
{
    ends_in(word, '.')
        || ends_in(word, ',')
        || ends_in(word, ';')
        || ends_in(word, ':')
        || ends_in(word, '!')
        || ends_in(word, '?')
}

/// The column behind the next word, if that is on the same line.
fn column_behind(column: usize, word: &str) -> usize
    ensures { result ≡ column_behind column word.now }
{
    column_after(column_after(column, 1), width(word))
}

/// Whether a line ends at this column, between these words. They have one space between them if neither is empty.
#[tactic(auto, unfolding(crate::specs::Folds::ends_line))]
fn ends_line(column: usize, before: &str, word: &str) -> bool
    ensures { result ≡ ends_line column before.now word.now }
{
    !before.is_empty()
        && !word.is_empty()
        && (column_behind(column, word) > COLUMNS || (column >= 30 && ends_phrase(before)))
}

/// The column behind the next word.
fn next_column(ends: bool, column: usize, word: &str) -> usize
    ensures { result ≡ next_column ends column word.now }
{
    if ends {
        column_after(0, width(word))
    } else {
        column_behind(column, word)
    }
}

/// Writes a word, and before it the end of a line or a space.
fn put_next(out: &mut Out, ends: bool, word: &str, level: usize) -> Result<(), Stop>
    ensures ok { OnOk result (written out.new ≡ written out.old ++ next_word level ends word.now) }
    ensures limit { limit_of out.new ≡ limit_of out.old }
    ensures err { IfErr result (Stops (limit_of out.old) (written out.old ++ next_word level ends word.now)) }
{
    if ends {
        out.put("\n")?;
        out.put_times(level, "  ")?;
    } else {
        out.put(" ")?;
    }
    out.put(word)
}

/// Writes the words after the first one of a line.
fn put_further(out: &mut Out, first: &str, words: &str, level: usize) -> Result<(), Stop>
    ensures ok { OnOk result (written out.new ≡ written out.old ++ further_words level (column_after 0 (width first.now)) first.now (slice_split is_space words.now)) }
    ensures limit { limit_of out.new ≡ limit_of out.old }
    ensures err { IfErr result (Stops (limit_of out.old) (written out.old ++ further_words level (column_after 0 (width first.now)) first.now (slice_split is_space words.now))) }
{
    let mut before = first;
    let mut column = column_after(0, width(first));
    let mut rest = words;
    'words: loop {
        let Some((word, after)) = rest.split_once(' ') else {
            return put_next(out, ends_line(column, before, rest), rest, level);
        };
        let ends = ends_line(column, before, word);
        put_next(out, ends, word, level)?;
        column = next_column(ends, column, word);
        before = word;
        rest = after;
    }
}

/// Writes the words of a line.
fn put_words(out: &mut Out, line: &str, level: usize) -> Result<(), Stop>
    ensures ok { OnOk result (written out.new ≡ written out.old ++ folded_words level (slice_split is_space line.now)) }
    ensures limit { limit_of out.new ≡ limit_of out.old }
    ensures err { IfErr result (Stops (limit_of out.old) (written out.old ++ folded_words level (slice_split is_space line.now))) }
{
    let Some((first, words)) = line.split_once(' ') else {
        return out.put(line);
    };
    out.put(first)?;
    put_further(out, first, words, level)
}

/// Writes a line of words at this level.
pub(crate) fn put_folded_line(out: &mut Out, line: &str, level: usize) -> Result<(), Stop>
    ensures ok { OnOk result (written out.new ≡ written out.old ++ folded_line level line.now) }
    ensures limit { limit_of out.new ≡ limit_of out.old }
    ensures err { IfErr result (Stops (limit_of out.old) (written out.old ++ folded_line level line.now)) }
{
    out.put_times(level, "  ")?;
    put_words(out, line, level)?;
    out.put("\n")
}

/// Whether a text has a space.
fn has_space(text: &str) -> bool
    ensures { result ≡ list_any is_space text.now }
{
    text.as_bytes().iter().any(|byte| *byte == b' ')
}

/// Whether a line is written on several lines.
#[tactic(auto, unfolding(crate::specs::Folds::is_foldable))]
pub(crate) fn is_foldable(line: &str) -> bool
    ensures { result ≡ is_foldable line.now }
{
    width(line) > 100
        && has_space(line)
        && byte_at(line, 0) != b' '
        && !ends_in(line, ' ')
        && is_all_seen(line)
}

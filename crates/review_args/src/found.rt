//! What `clap` found for the arguments of a command.
ghost use Rattle.std.specs.Prelude.{◌≡◌, ◌≤◌, codes, IfOk, min, option_map, unwrap_or, ◌&&◌, not};
ghost use Rattle.clap.specs.Words.{all_of, first_of, found_of, rows_of};
ghost use Rattle.clap.specs.Walk.{texts};
ghost use Rattle.review_args.specs.Words.{
  color_in,
  file_of,
  files_in,
  form_in,
  format_in,
  has,
  included_in,
  is_on,
  is_there,
  lines_or,
  loud_lines_or,
  number_in,
  page_in,
  paths_in,
  texts_in,
};

use crate::words::Format;
use clap::ArgMatches;
use review_text::options::{CONTEXT, Form, Page, Paths};
use std::alloc::{AllocError, Global};

/// The first value of an argument.
pub(crate) fn value_of<'a>(matches: &ArgMatches<'a>, id: &str) -> Option<&'a str>
    ensures { option_map (λ s. s.now) result ≡ first_of id.now (rows_of (found_of matches.now)) }
{
    matches.get_str(id)
}

/// Whether the first value of an argument is a word.
pub(crate) fn has(matches: &ArgMatches<'_>, id: &str, word: &str) -> bool
    ensures { result ≡ has id.now word.now (rows_of (found_of matches.now)) }
{
    match value_of(matches, id) {
        Some(text) => text == word,
        None => false,
    }
}

/// Whether a flag is given.
pub(crate) fn is_on(matches: &ArgMatches<'_>, id: &str) -> bool
    ensures { result ≡ is_on id.now (rows_of (found_of matches.now)) }
{
    has(matches, id, "true")
}

/// Whether an argument has a value.
pub(crate) fn is_there(matches: &ArgMatches<'_>, id: &str) -> bool
    ensures { result ≡ is_there id.now (rows_of (found_of matches.now)) }
{
    match value_of(matches, id) {
        Some(_) => true,
        None => false,
    }
}

/// The name of a file, or that of standard input.
pub(crate) fn file_of<'a>(matches: &ArgMatches<'a>, id: &str) -> &'a str
    ensures { result.now ≡ file_of id.now (rows_of (found_of matches.now)) }
{
    match value_of(matches, id) {
        Some(name) => name,
        None => "-",
    }
}

/// The number that an argument has.
pub(crate) fn number_of(matches: &ArgMatches<'_>, id: &str) -> Option<usize>
    ensures { result ≡ number_in id.now (rows_of (found_of matches.now)) }
{
    matches.get_one::<usize>(id)
}

pub(crate) fn form_of(matches: &ArgMatches<'_>) -> Form
    ensures { result ≡ form_in (rows_of (found_of matches.now)) }
{
    if has(matches, "format", "json") {
        Form::Json
    } else {
        Form::Line
    }
}

/// The form in which all that is found is written as a whole, if one is asked for.
pub(crate) fn page_of(matches: &ArgMatches<'_>) -> Option<Page>
    ensures { result ≡ page_in (rows_of (found_of matches.now)) }
{
    if has(matches, "format", "html") {
        Some(Page::Html)
    } else if has(matches, "format", "markdown") {
        Some(Page::Markdown)
    } else if has(matches, "format", "sarif") {
        Some(Page::Sarif)
    } else if has(matches, "format", "github") {
        Some(Page::Github)
    } else {
        None
    }
}

/// The greatest number of lines, where it is given, or another.
pub(crate) fn lines_or(matches: &ArgMatches<'_>, most: usize) -> usize
    ensures { result ≡ lines_or most (rows_of (found_of matches.now)) }
{
    number_of(matches, "lines").unwrap_or(most)
}

/// The same, and none for the status alone.
pub(crate) fn loud_lines_or(matches: &ArgMatches<'_>, most: usize) -> usize
    ensures { result ≡ loud_lines_or most (rows_of (found_of matches.now)) }
{
    if is_on(matches, "quiet") {
        0
    } else {
        lines_or(matches, most)
    }
}

/// How many lines are printed around changed ones.
pub(crate) fn context_of(matches: &ArgMatches<'_>) -> usize
    ensures few { result ≤ 1000 }
    ensures given { result ≡ min (unwrap_or (number_in (codes "unified") (rows_of (found_of matches.now))) 0) 1000 }
{
    number_of(matches, "unified").unwrap_or(0).min(CONTEXT)
}

/// How paths are written: in columns as it is asked for, and else plain.
pub(crate) fn paths_of(matches: &ArgMatches<'_>) -> Paths
    ensures { result ≡ paths_in (rows_of (found_of matches.now)) }
{
    if !has(matches, "format", "line") {
        Paths::Plain
    } else if has(matches, "paths", "jq") {
        Paths::Jq
    } else if has(matches, "paths", "jsonpointer") {
        Paths::JsonPointer
    } else {
        Paths::Plain
    }
}

/// Whether lines are in colour.
pub(crate) fn color_of(matches: &ArgMatches<'_>, is_terminal: bool) -> bool
    ensures { result ≡ color_in is_terminal (rows_of (found_of matches.now)) }
{
    if has(matches, "color", "always") {
        true
    } else if has(matches, "color", "never") {
        false
    } else {
        is_terminal
    }
}

/// All values of an argument, if it has any.
pub(crate) fn values_of<'m, 'a>(matches: &'m ArgMatches<'a>, id: &str) -> Option<&'m [&'a str]>
    ensures { option_map (λ s. texts s.now) result ≡ all_of id.now (rows_of (found_of matches.now)) }
{
    matches.get_strs(id)
}

/// All values of an argument.
pub(crate) fn texts_of<'a>(
    alloc: Global,
    matches: &ArgMatches<'a>,
    id: &str,
) -> Result<Vec<&'a str>, AllocError>
    ensures { IfOk result (λ list. texts list.items ≡ texts_in id.now (rows_of (found_of matches.now))) }
{
    match values_of(matches, id) {
        Some(values) => {
            let mut list = Vec::new(alloc);
            list.extend_from_slice(values)?;
            Ok(list)
        }
        None => Ok(Vec::new(alloc)),
    }
}

/// The names of files; with none, that of standard input.
pub(crate) fn files_of<'a>(
    alloc: Global,
    matches: &ArgMatches<'a>,
) -> Result<Vec<&'a str>, AllocError>
    ensures { IfOk result (λ list. texts list.items ≡ files_in (rows_of (found_of matches.now))) }
{
    let mut files = texts_of(alloc, matches, "FILE")?;
    if files.is_empty() {
        files.push("-")?;
    }
    Ok(files)
}

/// The globs of the files of folders; with none, those of YAML and JSON.
pub(crate) fn globs_of<'a>(
    alloc: Global,
    matches: &ArgMatches<'a>,
) -> Result<Vec<&'a str>, AllocError>
    ensures { IfOk result (λ list. texts list.items ≡ included_in (rows_of (found_of matches.now))) }
{
    let globs = texts_of(alloc, matches, "include")?;
    if globs.is_empty() {
        Ok(vec![in alloc; "*.yaml", "*.yml", "*.json"]?)
    } else {
        Ok(globs)
    }
}

/// Whether one line tells several differences: in each form but JSON, unless it is asked otherwise.
pub(crate) fn folds_of(matches: &ArgMatches<'_>) -> bool
    ensures { result ≡ (not (has (codes "format") (codes "json") (rows_of (found_of matches.now))) && not (is_on (codes "no-fold") (rows_of (found_of matches.now)))) }
{
    !has(matches, "format", "json") && !is_on(matches, "no-fold")
}

pub(crate) fn format_of(matches: &ArgMatches<'_>) -> Format
    ensures { result ≡ format_in (rows_of (found_of matches.now)) }
{
    if has(matches, "format", "json") {
        Format::Json
    } else if is_on(matches, "keep-order") {
        Format::AsRead
    } else if is_on(matches, "sharing") {
        Format::Sharing
    } else {
        Format::Yaml
    }
}

//! Reads the program's words.
ghost use Rattle.std.specs.Prelude.{◌≡◌, List, ℕ, Some, codes, IfOk, IfErr, map, option_map, string_bytes};
ghost use Rattle.std.specs.List.{list_all};
ghost use Rattle.clap.specs.Words.{found_of, kind_of, rows_of};
ghost use Rattle.clap.specs.Walk.{texts};
ghost use Rattle.review_patterns.specs.Globs.{is_glob};
ghost use Rattle.review_args.specs.Words.{
  Asks,
  AsksDiff,
  AsksIgnored,
  AsksIn,
  AsksIncluded,
  AsksMerge,
  AsksReport,
  AsksShow,
  AsksSum,
  AsksWarn,
  HasKeys,
  Refuses,
  RefusesDiff,
  RefusesGlobs,
  RefusesIn,
  RefusesPatterns,
  RefusesShow,
  RefusesSum,
  are_several,
  git_words,
  has_bytes,
  has_keys,
  has_two_modes,
  keeps_json,
  shares_otherwise,
  keys_in,
  lacks_list,
};

use crate::found::{
    color_of, context_of, file_of, files_of, folds_of, form_of, format_of, globs_of, has, is_on,
    is_there, lines_or, loud_lines_or, page_of, paths_of, texts_of, value_of,
};
use crate::grammar::grammar;
use crate::words::{Asked, LINES, Merge, Report, Show, Sum, Warn};
use clap::error::ErrorKind;
use clap::{ArgMatches, Error};
use review_patterns::{Pattern, is_glob, read_pattern};
use review_text::options::Diff;
use std::alloc::{AllocError, Global};

/// How many differences are counted where no number is given.
const COUNTED: usize = 1_000_000;

fn report_of<'a>(alloc: Global, matches: &ArgMatches<'a>) -> Result<Report<'a>, AllocError>
    ensures { IfOk result (AsksReport (rows_of (found_of matches.now))) }
{
    Ok(Report {
        files: files_of(alloc, matches)?,
        form: form_of(matches),
    })
}

fn warn_of<'a>(alloc: Global, matches: &ArgMatches<'a>) -> Result<Warn<'a>, AllocError>
    ensures { IfOk result (AsksWarn (rows_of (found_of matches.now))) }
{
    Ok(Warn {
        lines: lines_or(matches, LINES),
        is_strict: is_on(matches, "strict"),
        allowed: texts_of(alloc, matches, "allow")?,
    })
}

fn diff_of<'a>(matches: &ArgMatches<'a>, by: &'a [&'a str], is_terminal: bool) -> Diff<'a>
    ensures { AsksDiff (rows_of (found_of matches.now)) (texts by.entry.now) is_terminal result }
{
    let stat = is_on(matches, "stat");
    Diff {
        left: file_of(matches, "A"),
        right: file_of(matches, "B"),
        places: !is_on(matches, "no-places"),
        whole: is_on(matches, "whole"),
        lines: loud_lines_or(matches, if stat { COUNTED } else { LINES }),
        form: form_of(matches),
        context: context_of(matches),
        color: color_of(matches, is_terminal),
        stat,
        by_position: is_on(matches, "by-position"),
        by,
        folds: folds_of(matches),
        paths: paths_of(matches),
    }
}

fn merge_of<'a>(matches: &ArgMatches<'a>, is_terminal: bool) -> Merge<'a>
    ensures { AsksMerge (rows_of (found_of matches.now)) is_terminal result }
{
    Merge {
        base: file_of(matches, "BASE"),
        ours: file_of(matches, "OURS"),
        theirs: file_of(matches, "THEIRS"),
        result: value_of(matches, "RESULT"),
        lines: loud_lines_or(matches, LINES),
        places: !is_on(matches, "no-places"),
        whole: is_on(matches, "whole"),
        color: color_of(matches, is_terminal),
    }
}

/// An error of the words, of which `clap` knows nothing.
fn refusal(alloc: Global, kind: ErrorKind, message: &str) -> Result<Error, AllocError>
    ensures { IfOk result (λ e. kind_of e ≡ kind) }
{
    grammar(alloc)?.error(kind, message)
}

/// What is wrong with a pattern.
const NO_PATTERN: &str =
    "--ignore takes a path as diff prints it, with `*` for any step: .spec.replicas, .metadata.annotations[\"a/b\"], .containers[*].image";

/// The error of a text that is no pattern.
fn no_pattern(alloc: Global, text: &str) -> Result<Error, AllocError>
    ensures { IfOk result (λ e. kind_of e ≡ ErrorKind.ValueValidation) }
{
    let message = format!(in alloc; "{text}: {NO_PATTERN}")?;
    refusal(alloc, ErrorKind::ValueValidation, message.as_str())
}

/// The patterns of the paths whose differences are left out.
fn ignored_of<'a>(alloc: Global, matches: &ArgMatches<'a>) -> Result<Vec<Pattern<'a>>, Error>
    ensures ok { IfOk result (λ list. AsksIgnored (rows_of (found_of matches.now)) list.items) }
    ensures err { IfErr result (λ e. RefusesPatterns (rows_of (found_of matches.now)) (kind_of e)) }
{
    let texts = texts_of(alloc, matches, "ignore")?;
    let mut list = Vec::new(alloc);
    for text in &texts {
        match read_pattern(alloc, text)? {
            Some(pattern) => list.push(pattern)?,
            None => return Err(no_pattern(alloc, text)?),
        }
    }
    Ok(list)
}

/// What is wrong with a glob.
const NO_GLOB: &str =
    "--include takes the name of a file, in which one `*` stands for any text: *.yaml, values-*.yaml, Chart.lock";

/// Whether all texts are globs.
#[tactic(auto, using(crate::proofs::Getters::all_next, crate::proofs::Getters::all_stops, crate::proofs::Getters::all_ends))]
fn are_globs(list: &[&str]) -> bool
    ensures { result ≡ list_all is_glob (texts list.now) }
{
    for text in list {
        if !is_glob(text) {
            return false;
        }
    }
    true
}

/// The error of texts of which one is no glob.
fn no_glob(alloc: Global, list: &[&str]) -> Result<Error, AllocError>
    ensures { IfOk result (λ e. kind_of e ≡ ErrorKind.ValueValidation) }
{
    let text = list.iter().find(|text| !is_glob(text)).unwrap_or(&"");
    let message = format!(in alloc; "{text}: {NO_GLOB}")?;
    refusal(alloc, ErrorKind::ValueValidation, message.as_str())
}

/// The globs of the files of folders.
fn included_of<'a>(alloc: Global, matches: &ArgMatches<'a>) -> Result<Vec<&'a str>, Error>
    ensures ok { IfOk result (λ list. AsksIncluded (rows_of (found_of matches.now)) list.items) }
    ensures err { IfErr result (λ e. RefusesGlobs (rows_of (found_of matches.now)) (kind_of e)) }
{
    let globs = globs_of(alloc, matches)?;
    if are_globs(&globs) {
        Ok(globs)
    } else {
        Err(no_glob(alloc, &globs)?)
    }
}

/// What is wrong with keys.
const NO_KEYS: &str = "--by takes keys, parted by commas: host,spec.id";

/// Whether a text is not empty.
fn has_bytes(text: &str) -> bool
    ensures { result ≡ has_bytes text.now }
{
    !text.is_empty()
}

/// Whether no text is empty.
#[tactic(auto, using(crate::proofs::Getters::all_next, crate::proofs::Getters::all_stops, crate::proofs::Getters::all_ends))]
fn are_keys(list: &[&str]) -> bool
    ensures { result ≡ list_all has_bytes (texts list.now) }
{
    for text in list {
        if !has_bytes(text) {
            return false;
        }
    }
    true
}

/// Whether no text of `--by` is empty.
fn has_keys(alloc: Global, matches: &ArgMatches<'_>) -> Result<bool, AllocError>
    ensures { IfOk result (λ answer. answer ≡ has_keys (rows_of (found_of matches.now))) }
{
    let texts = texts_of(alloc, matches, "by")?;
    Ok(are_keys(&texts))
}

/// What is wrong with `--stat` beside the form of a page.
const NO_STAT: &str =
    "--stat is for --format=line and --format=json: a page has the numbers itself";

/// What the words of `diff` ask for.
fn diff_asked<'a>(
    alloc: Global,
    inner: &ArgMatches<'a>,
    by: &'a [&'a str],
    is_terminal: bool,
) -> Result<Asked<'a>, Error>
    ensures ok { IfOk result (AsksIn (codes "diff") (rows_of (found_of inner.now)) (texts by.entry.now) is_terminal) }
    ensures err { IfErr result (λ e. RefusesDiff (rows_of (found_of inner.now)) (kind_of e)) }
{
    if !has_keys(alloc, inner)? {
        return Err(refusal(alloc, ErrorKind::ValueValidation, NO_KEYS)?);
    }
    let ignored = ignored_of(alloc, inner)?;
    let included = included_of(alloc, inner)?;
    let diff = diff_of(inner, by, is_terminal);
    match page_of(inner) {
        None => Ok(Asked::Diff(diff, ignored, included)),
        Some(_) if diff.stat => Err(refusal(alloc, ErrorKind::ArgumentConflict, NO_STAT)?),
        Some(page) => Ok(Asked::DiffPage(page, diff, ignored, included)),
    }
}

/// What the words of `faults` ask for.
fn faults_asked<'a>(alloc: Global, inner: &ArgMatches<'a>) -> Result<Asked<'a>, AllocError>
    ensures { IfOk result (λ asked. (by : List (List ℕ)) (is_terminal : _) → AsksIn (codes "faults") (rows_of (found_of inner.now)) by is_terminal asked) }
{
    let report = report_of(alloc, inner)?;
    match page_of(inner) {
        None => Ok(Asked::Faults(report)),
        Some(page) => Ok(Asked::FaultsPage(page, report)),
    }
}

/// What the words of `warn` ask for.
fn warn_asked<'a>(alloc: Global, inner: &ArgMatches<'a>) -> Result<Asked<'a>, AllocError>
    ensures { IfOk result (λ asked. (by : List (List ℕ)) (is_terminal : _) → AsksIn (codes "warn") (rows_of (found_of inner.now)) by is_terminal asked) }
{
    let report = report_of(alloc, inner)?;
    let warn = warn_of(alloc, inner)?;
    match page_of(inner) {
        None => Ok(Asked::Warn(report, warn)),
        Some(page) => Ok(Asked::WarnPage(page, report, warn)),
    }
}

/// What is wrong with two of the words that say what becomes of a file.
const TWO_MODES: &str = "--check, --strict and --textconv cannot be used with one another";

/// Whether more than one of `--check`, `--strict` and `--textconv` is given.
fn has_two_modes(inner: &ArgMatches<'_>) -> bool
    ensures { result ≡ has_two_modes (rows_of (found_of inner.now)) }
{
    let is_strict = is_on(inner, "strict");
    let textconv = is_on(inner, "textconv");
    (is_strict && textconv) || (is_on(inner, "check") && (is_strict || textconv))
}

/// What is wrong with `--keep-order` where JSON is asked for.
const NO_ORDER: &str = "--keep-order is for YAML";

/// Whether the order of the source is asked for, and JSON.
fn keeps_json(inner: &ArgMatches<'_>) -> bool
    ensures { result ≡ keeps_json (rows_of (found_of inner.now)) }
{
    is_on(inner, "keep-order") && has(inner, "format", "json")
}

/// What is wrong with `--sharing` where JSON or the order of the source is asked for.
const NO_SHARING: &str = "--sharing is for YAML, and cannot be used with --keep-order";

/// Whether anchors and aliases are asked for, and JSON or the order of the source.
fn shares_otherwise(inner: &ArgMatches<'_>) -> bool
    ensures { result ≡ shares_otherwise (rows_of (found_of inner.now)) }
{
    is_on(inner, "sharing") && (is_on(inner, "keep-order") || has(inner, "format", "json"))
}

/// What the words of `show` ask for.
fn show_of<'a>(alloc: Global, inner: &ArgMatches<'a>) -> Result<Show<'a>, Error>
    ensures ok { IfOk result (AsksShow (rows_of (found_of inner.now))) }
    ensures err { IfErr result (λ e. RefusesShow (rows_of (found_of inner.now)) (kind_of e)) }
{
    if has_two_modes(inner) {
        return Err(refusal(alloc, ErrorKind::ArgumentConflict, TWO_MODES)?);
    }
    if keeps_json(inner) {
        return Err(refusal(alloc, ErrorKind::ArgumentConflict, NO_ORDER)?);
    }
    if shares_otherwise(inner) {
        return Err(refusal(alloc, ErrorKind::ArgumentConflict, NO_SHARING)?);
    }
    Ok(Show {
        files: files_of(alloc, inner)?,
        format: format_of(inner),
        textconv: is_on(inner, "textconv"),
        is_check: is_on(inner, "check"),
        is_strict: is_on(inner, "strict"),
    })
}

/// What is wrong with two of the words that name what is summed.
const SEVERAL: &str = "FILE, --files-from and --check cannot be used with one another";

/// Whether more than one of FILE, `--files-from` and `--check` is given.
fn are_several(inner: &ArgMatches<'_>) -> bool
    ensures { result ≡ are_several (rows_of (found_of inner.now)) }
{
    let has_files = is_there(inner, "FILE");
    let has_names = is_there(inner, "files-from");
    (has_names && has_files) || (is_there(inner, "check") && (has_files || has_names))
}

/// What is wrong with words that say how a list is checked, where none is.
const NO_LIST: &str = "--ignore-missing, --quiet, --status and --strict are for --check";

/// Whether one of these is given without `--check`.
fn lacks_list(inner: &ArgMatches<'_>) -> bool
    ensures { result ≡ lacks_list (rows_of (found_of inner.now)) }
{
    !is_there(inner, "check")
        && (is_on(inner, "ignore-missing")
            || is_on(inner, "quiet")
            || is_on(inner, "status")
            || is_on(inner, "strict"))
}

/// What the words of `sum` ask for.
fn sum_of<'a>(alloc: Global, inner: &ArgMatches<'a>) -> Result<Sum<'a>, Error>
    ensures ok { IfOk result (AsksSum (rows_of (found_of inner.now))) }
    ensures err { IfErr result (λ e. RefusesSum (rows_of (found_of inner.now)) (kind_of e)) }
{
    if are_several(inner) {
        return Err(refusal(alloc, ErrorKind::ArgumentConflict, SEVERAL)?);
    }
    if lacks_list(inner) {
        return Err(refusal(alloc, ErrorKind::ArgumentConflict, NO_LIST)?);
    }
    Ok(Sum {
        files: files_of(alloc, inner)?,
        files_from: value_of(inner, "files-from"),
        check: value_of(inner, "check"),
        is_quiet: is_on(inner, "quiet"),
        is_silent: is_on(inner, "status"),
        is_strict: is_on(inner, "strict"),
        skips_missing: is_on(inner, "ignore-missing"),
    })
}

/// The error of words that give no command.
fn no_command(alloc: Global) -> Result<Error, AllocError>
    ensures { IfOk result (λ e. kind_of e ≡ ErrorKind.MissingSubcommand) }
{
    refusal(alloc, ErrorKind::MissingSubcommand, "no command is given")
}

/// What the words of this command ask for, which is not `git`.
fn asked_of<'a>(
    alloc: Global,
    name: &str,
    inner: &ArgMatches<'a>,
    by: &'a [&'a str],
    is_terminal: bool,
) -> Result<Asked<'a>, Error>
    ensures ok { IfOk result (AsksIn name.now (rows_of (found_of inner.now)) (texts by.entry.now) is_terminal) }
    ensures err { IfErr result (λ e. RefusesIn name.now (rows_of (found_of inner.now)) (kind_of e)) }
{
    match name {
        "diff" => diff_asked(alloc, inner, by, is_terminal),
        "faults" => Ok(faults_asked(alloc, inner)?),
        "warn" => Ok(warn_asked(alloc, inner)?),
        "show" => Ok(Asked::Show(show_of(alloc, inner)?)),
        "sum" => Ok(Asked::Sum(sum_of(alloc, inner)?)),
        "merge3" => Ok(Asked::Merge(merge_of(inner, is_terminal))),
        _ => Err(no_command(alloc)?),
    }
}

/// The words that git passes, if the words call `git` and ask for no help: those behind `git`, whatever they begin with, without a
/// first `--`.
fn git_words(words: &[String]) -> Option<&[String]>
    ensures { option_map (λ passed. map string_bytes passed.now) result ≡ git_words (map string_bytes words.now) }
{
    let (command, behind) = words.split_first()?;
    let (first, rest) = behind.split_first()?;
    if command.as_str() != "git" {
        return None;
    }
    match first.as_str() {
        "--help" | "-h" => None,
        "--" if rest.is_empty() => None,
        "--" => Some(rest),
        _ => Some(behind),
    }
}

/// The texts of words.
fn texts<'a>(alloc: Global, words: &'a [String]) -> Result<Vec<&'a str>, AllocError>
    ensures { IfOk result (λ list. texts list.items ≡ map string_bytes words.entry.now) }
{
    let mut list = Vec::new(alloc);
    for word in words {
        list.push(word.as_str())?;
    }
    Ok(list)
}

/// The texts of `--by`, if the command is `diff`.
fn keys_of<'a>(
    alloc: Global,
    name: &str,
    inner: &ArgMatches<'a>,
) -> Result<Vec<&'a str>, AllocError>
    ensures { IfOk result (λ keys. texts keys.items ≡ keys_in (Some (name.now, rows_of (found_of inner.now)))) }
{
    if name == "diff" {
        texts_of(alloc, inner, "by")
    } else {
        Ok(Vec::new(alloc))
    }
}

/// The texts of `diff --by` among the words behind the program's own name, which `read_words` takes; none if the words ask for no
/// command.
pub fn read_keys<'a>(alloc: Global, words: &'a [String]) -> Result<Vec<&'a str>, AllocError>
    ensures { IfOk result (λ keys. HasKeys (map string_bytes words.entry.now) (texts keys.items)) }
{
    let matches = match grammar(alloc)?.try_get_matches_from(words) {
        Ok(matches) => matches,
        Err(error) => {
            return match error.kind() {
                ErrorKind::OutOfMemory => Err(AllocError),
                _ => Ok(Vec::new(alloc)),
            };
        }
    };
    match matches.subcommand() {
        Some((name, inner)) => keys_of(alloc, name, inner),
        None => Ok(Vec::new(alloc)),
    }
}

/// Reads the words behind the program's own name, with the texts that `read_keys` finds in them, of a run whose output is a terminal or
/// not. An error has the text for the user: what is wrong with the words, or the help or version that they ask for.
pub fn read_words<'a>(
    alloc: Global,
    words: &'a [String],
    by: &'a [&'a str],
    is_terminal: bool,
) -> Result<Asked<'a>, Error>
    ensures ok { IfOk result (Asks (map string_bytes words.entry.now) (texts by.entry.now) is_terminal) }
    ensures err { IfErr result (λ e. Refuses (map string_bytes words.entry.now) (kind_of e)) }
{
    if let Some(passed) = git_words(words) {
        return Ok(Asked::Git(texts(alloc, passed)?, is_terminal));
    }
    let matches = grammar(alloc)?.try_get_matches_from(words)?;
    match matches.subcommand() {
        Some((name, inner)) => asked_of(alloc, name, inner, by, is_terminal),
        None => Err(no_command(alloc)?),
    }
}

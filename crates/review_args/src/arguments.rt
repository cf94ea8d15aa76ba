//! The arguments of the commands.
ghost use Rattle.std.specs.Prelude.{◌≡◌, codes, false};
ghost use Rattle.clap.specs.Words.{rule_of};
ghost use Rattle.review_args.specs.Grammar.{
  AreChoices,
  choices_of,
  color,
  file,
  files,
  flag,
  form,
  format,
  letter,
  lines,
  list,
  number,
  one_of,
  repeated,
  spelling,
  unified,
  words_of,
};

use clap::builder::ValueParser;
use clap::{Arg, ArgAction};
use std::alloc::Global;

/// The words of which an argument takes one.
#[derive(Clone, Copy)]
pub(crate) struct Choices<'a> {
    colors: &'a [&'a str],
    formats: &'a [&'a str],
    forms: &'a [&'a str],
    spellings: &'a [&'a str],
}

/// The words that there are.
pub(crate) fn all_choices<'a>() -> Choices<'a>
    ensures { AreChoices (choices_of result) }
{
    Choices {
        colors: &["auto", "always", "never"],
        formats: &["yaml", "json"],
        forms: &["line", "json", "html", "markdown", "sarif", "github"],
        spellings: &["plain", "jq", "jsonpointer"],
    }
}

/// A file, which has to be given or not.
pub(crate) fn file<'a>(alloc: Global, id: &'a str, required: bool, help: &'a str) -> Arg<'a>
    ensures rule { rule_of result ≡ file id.entry.now required }
    ensures local { result.global ≡ false }
{
    Arg::new(alloc, id).required(required).help(help)
}

/// Any number of files.
pub(crate) fn files<'a>(alloc: Global) -> Arg<'a>
    ensures rule { rule_of result ≡ files }
    ensures local { result.global ≡ false }
{
    Arg::new(alloc, "FILE")
        .num_args(0..)
        .action(ArgAction::Append)
        .help("A file; `-`, or none, is standard input")
}

/// Whether it is given.
pub(crate) fn flag<'a>(alloc: Global, id: &'a str, help: &'a str) -> Arg<'a>
    ensures rule { rule_of result ≡ flag id.entry.now }
    ensures local { result.global ≡ false }
{
    Arg::new(alloc, id)
        .long(id)
        .action(ArgAction::SetTrue)
        .help(help)
}

/// The same, by one letter too.
pub(crate) fn letter<'a>(alloc: Global, id: &'a str, short: char, help: &'a str) -> Arg<'a>
    ensures rule { rule_of result ≡ letter id.entry.now short }
    ensures local { result.global ≡ false }
{
    flag(alloc, id, help).short(short)
}

/// A number of lines, at most so many.
pub(crate) fn number<'a>(alloc: Global, id: &'a str, most: u64, help: &'a str) -> Arg<'a>
    ensures rule { rule_of result ≡ number id.entry.now most }
    ensures local { result.global ≡ false }
{
    Arg::new(alloc, id)
        .long(id)
        .value_name("N")
        .value_parser(ValueParser::unsigned(0, most))
        .help(help)
}

/// The greatest number of lines.
pub(crate) fn lines<'a>(alloc: Global, help: &'a str) -> Arg<'a>
    ensures rule { rule_of result ≡ lines }
    ensures local { result.global ≡ false }
{
    number(alloc, "lines", 1_000_000, help).default_value("1000")
}

/// One of some words, of which one is taken if none is given.
pub(crate) fn one_of<'a>(
    alloc: Global,
    id: &'a str,
    name: &'a str,
    words: &'a [&'a str],
    taken: &'a str,
    help: &'a str,
) -> Arg<'a>
    ensures rule { rule_of result ≡ one_of id.entry.now words.entry taken.entry.now }
    ensures local { result.global ≡ false }
{
    Arg::new(alloc, id)
        .long(id)
        .value_name(name)
        .value_parser(words)
        .default_value(taken)
        .help(help)
}

/// When lines are in colour.
pub(crate) fn color<'a>(alloc: Global, choices: &Choices<'a>) -> Arg<'a>
    ensures rule { rule_of result ≡ color (choices_of choices.now) }
    ensures local { result.global ≡ false }
{
    let help = "Print lines in colour; `auto` does so on a terminal";
    one_of(alloc, "color", "WHEN", choices.colors, "auto", help)
}

/// The form of what is found.
pub(crate) fn form<'a>(alloc: Global, choices: &Choices<'a>) -> Arg<'a>
    ensures rule { rule_of result ≡ form (choices_of choices.now) }
    ensures local { result.global ≡ false }
{
    let help =
        "Lines of text, one JSON object a line, a page, a table, SARIF 2.1.0, or GitHub's annotations";
    one_of(alloc, "format", "FORM", choices.forms, "line", help)
}

/// A text, of which each use adds one.
pub(crate) fn repeated<'a>(alloc: Global, id: &'a str, name: &'a str, help: &'a str) -> Arg<'a>
    ensures rule { rule_of result ≡ repeated id.entry.now }
    ensures local { result.global ≡ false }
{
    Arg::new(alloc, id)
        .long(id)
        .value_name(name)
        .action(ArgAction::Append)
        .help(help)
}

/// The name of a list.
pub(crate) fn list<'a>(alloc: Global, id: &'a str, help: &'a str) -> Arg<'a>
    ensures rule { rule_of result ≡ list id.entry.now }
    ensures local { result.global ≡ false }
{
    Arg::new(alloc, id).long(id).value_name("LIST").help(help)
}

/// The words that git passes.
pub(crate) fn words<'a>(alloc: Global) -> Arg<'a>
    ensures rule { rule_of result ≡ words_of }
    ensures local { result.global ≡ false }
{
    Arg::new(alloc, "WORD")
        .required(true)
        .num_args(1..)
        .action(ArgAction::Append)
        .trailing_var_arg(true)
        .help("The 1, 7 or 9 arguments that git passes")
}

/// How many lines are printed around changed ones.
pub(crate) fn unified<'a>(alloc: Global) -> Arg<'a>
    ensures rule { rule_of result ≡ unified }
    ensures local { result.global ≡ false }
{
    let help =
        "Of strings that have several lines, print N lines before and after each changed line";
    number(alloc, "unified", 1_000, help)
        .short('U')
        .default_value("0")
}

/// How paths are written.
pub(crate) fn spelling<'a>(alloc: Global, choices: &Choices<'a>) -> Arg<'a>
    ensures rule { rule_of result ≡ spelling (choices_of choices.now) }
    ensures local { result.global ≡ false }
{
    let help = "How paths are written: as filters of jq, as JSON pointers (RFC 6901), or `plain`";
    one_of(alloc, "paths", "HOW", choices.spellings, "plain", help)
}

/// The form of what is shown.
pub(crate) fn format<'a>(alloc: Global, choices: &Choices<'a>) -> Arg<'a>
    ensures rule { rule_of result ≡ format (choices_of choices.now) }
    ensures local { result.global ≡ false }
{
    let help = "YAML in block style, or a line of JSON for each document";
    one_of(alloc, "format", "FORMAT", choices.formats, "yaml", help)
}

/// Whether lines and columns are left out.
pub(crate) fn no_places<'a>(alloc: Global) -> Arg<'a>
    ensures rule { rule_of result ≡ flag (codes "no-places") }
    ensures local { result.global ≡ false }
{
    flag(alloc, "no-places", "Leave the lines and columns out")
}

/// Whether texts are shown whole.
pub(crate) fn whole<'a>(alloc: Global) -> Arg<'a>
    ensures rule { rule_of result ≡ flag (codes "whole") }
    ensures local { result.global ≡ false }
{
    flag(alloc, "whole", "Show texts of more than 60 bytes whole")
}

/// The greatest number of lines of `diff`, whose default depends on other arguments.
pub(crate) fn most<'a>(alloc: Global) -> Arg<'a>
    ensures rule { rule_of result ≡ number (codes "lines") 1000000 }
    ensures local { result.global ≡ false }
{
    let help =
        "Print at most N lines, and then `...` if there are more; 0 for the status alone [default: 1000]";
    number(alloc, "lines", 1_000_000, help)
}

/// Whether nothing is printed.
pub(crate) fn quiet<'a>(alloc: Global) -> Arg<'a>
    ensures rule { rule_of result ≡ letter (codes "quiet") 113 }
    ensures local { result.global ≡ false }
{
    let help = "Print nothing; the status reports the result";
    letter(alloc, "quiet", 'q', help)
}

/// Whether differences are counted.
pub(crate) fn stat<'a>(alloc: Global) -> Arg<'a>
    ensures rule { rule_of result ≡ flag (codes "stat") }
    ensures local { result.global ≡ false }
{
    let help =
        "Print how many differences there are: `+` only right, `-` only left, `~` changed, `>` moved; for --format=line or json";
    flag(alloc, "stat", help)
}

/// Whether items are paired by their places.
pub(crate) fn by_position<'a>(alloc: Global) -> Arg<'a>
    ensures rule { rule_of result ≡ flag (codes "by-position") }
    ensures local { result.global ≡ false }
{
    let help = "Pair items in their order, so that none moves";
    flag(alloc, "by-position", help)
}

/// Keys that name items.
pub(crate) fn by<'a>(alloc: Global) -> Arg<'a>
    ensures rule { rule_of result ≡ repeated (codes "by") }
    ensures local { result.global ≡ false }
{
    let help =
        "Pair items first by the values of these keys, separated by commas: `host,spec.id`; repeatable";
    repeated(alloc, "by", "KEYS", help)
}

/// Whether each change of an alias has a line.
pub(crate) fn no_fold<'a>(alloc: Global) -> Arg<'a>
    ensures rule { rule_of result ≡ flag (codes "no-fold") }
    ensures local { result.global ≡ false }
{
    let help =
        "Print a line for each path at which aliases show one change, and for each pair that moved";
    flag(alloc, "no-fold", help)
}

/// Globs of the files of folders.
pub(crate) fn include<'a>(alloc: Global) -> Arg<'a>
    ensures rule { rule_of result ≡ repeated (codes "include") }
    ensures local { result.global ≡ false }
{
    let help =
        "Of two folders, compare files whose names match GLOB (*.yaml, *.yml, *.json); repeatable";
    repeated(alloc, "include", "GLOB", help)
}

/// Patterns of paths that are left out.
pub(crate) fn ignore<'a>(alloc: Global) -> Arg<'a>
    ensures rule { rule_of result ≡ repeated (codes "ignore") }
    ensures local { result.global ≡ false }
{
    let help =
        "Leave out what is at or below PATH: steps as they are printed, `*` for any step; repeatable";
    repeated(alloc, "ignore", "PATH", help)
}

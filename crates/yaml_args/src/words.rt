//! What the program's words ask for.
ghost use Rattle.std.specs.Prelude.{◌≡◌, true, false, codes, IfOk, IfErr, drop, option_map, map, string_bytes};
ghost use Rattle.clap.specs.Words.{app_of, found_of, new_app, rows_of, rule_of, with_rule};
ghost use Rattle.yaml_args.specs.Words.{Asks, RefusesWords, call_of};
ghost use Rattle.yaml_args.specs.declared.words.Asked.{Asked};
ghost use Rattle.yaml_args.specs.Grammar.{file_rule, whole_app, call_in};

use clap::error::ErrorKind;
use clap::{Arg, ArgMatches, Command, Error};
use std::alloc::{AllocError, Global};
use std::io;

/// A command and the names of its files.
#[derive(Clone, Copy)]
pub enum Asked<'a> {
    /// The canonical text of this file, or of the standard input.
    Canon(Option<&'a str>),
    /// Whether these two files have the same documents.
    Same(&'a str, &'a str),
    /// The event text of this file, or of the standard input.
    Events(Option<&'a str>),
    /// Whether the first file's events are those of the second, an event text.
    Check(&'a str, &'a str),
}

/// Why it is not told what words ask for.
#[derive(Clone, Copy, Debug, PartialEq, Eq)]
pub enum WordsFault {
    /// The words give no command.
    Usage,
    /// Memory was refused while the words were gathered or read.
    OutOfMemory,
}

impl From<AllocError> for WordsFault {
    ghost use Rattle.std.specs.Prelude.{◌≡◌};
    ghost use Rattle.yaml_args.specs.declared.words.WordsFault.TheVariants.{OutOfMemory};

    ghost from_gives = { λ _ told. told ≡ OutOfMemory };

    fn from(_fault: AllocError) -> WordsFault {
        WordsFault::OutOfMemory
    }
}

impl From<Error> for WordsFault {
    ghost use Rattle.std.specs.Prelude.{◌≡◌};
    ghost use Rattle.clap.specs.Words.{kind_of};
    ghost use Rattle.yaml_args.specs.Grammar.{fault_for};

    ghost from_gives = { λ fault told. told ≡ fault_for (kind_of fault) };

    fn from(fault: Error) -> WordsFault {
        match fault.kind() {
            ErrorKind::OutOfMemory => WordsFault::OutOfMemory,
            _ => WordsFault::Usage,
        }
    }
}

impl From<io::Error> for WordsFault {
    ghost use Rattle.std.specs.Prelude.{◌≡◌};
    ghost use Rattle.std.specs.IoError.{error_kind};
    ghost use Rattle.yaml_args.specs.Grammar.{fault_for_io};

    ghost from_gives = { λ fault told. told ≡ fault_for_io (error_kind fault) };

    fn from(fault: io::Error) -> WordsFault {
        match fault.kind() {
            io::ErrorKind::OutOfMemory => WordsFault::OutOfMemory,
            _ => WordsFault::Usage,
        }
    }
}

fn file(alloc: Global, name: &str, required: bool) -> Arg<'_>
    ensures rule { rule_of result ≡ file_rule name.now required }
    ensures local { result.global ≡ false }
{
    Arg::new(alloc, name).required(required)
}

/// A command with one file, that may be left out.
fn one_file<'a>(alloc: Global, name: &'a str) -> Result<Command<'a>, AllocError>
    ensures { IfOk result (λ command. app_of command ≡ with_rule (new_app name.now) (file_rule (codes "FILE") false)) }
{
    Command::new(alloc, name).arg(file(alloc, "FILE", false))
}

/// A command with two files, that have to be given.
fn two_files<'a>(
    alloc: Global,
    name: &'a str,
    first: &'a str,
    second: &'a str,
) -> Result<Command<'a>, AllocError>
    ensures { IfOk result (λ command. app_of command ≡ with_rule (with_rule (new_app name.now) (file_rule first.now true)) (file_rule second.now true)) }
{
    Command::new(alloc, name)
        .arg(file(alloc, first, true))?
        .arg(file(alloc, second, true))
}

fn grammar<'a>(alloc: Global) -> Result<Command<'a>, AllocError>
    ensures { IfOk result (λ command. app_of command ≡ whole_app) }
{
    let canon = one_file(alloc, "canon")?;
    let whole = Command::new(alloc, "yamlcanon")
        .no_binary_name(true)
        .subcommand_required(true)
        .disable_help_flag(true)
        .disable_version_flag(true)
        .disable_help_subcommand(true)
        .subcommand(canon)?;
    let same = two_files(alloc, "same", "A", "B")?;
    let whole = whole.subcommand(same)?;
    let events = one_file(alloc, "events")?;
    let whole = whole.subcommand(events)?;
    let check = two_files(alloc, "check", "FILE", "EVENTS")?;
    whole.subcommand(check)
}

fn chosen<'a>(name: &str, files: &ArgMatches<'a>) -> Option<Asked<'a>>
    ensures { option_map call_of result ≡ call_in name.now (rows_of (found_of files.now)) }
{
    match name {
        "canon" => Some(Asked::Canon(files.get_str("FILE"))),
        "same" => Some(Asked::Same(files.get_str("A")?, files.get_str("B")?)),
        "events" => Some(Asked::Events(files.get_str("FILE"))),
        "check" => Some(Asked::Check(files.get_str("FILE")?, files.get_str("EVENTS")?)),
        _ => None,
    }
}

/// Reads the words behind the program's own name. There are no options: a word of two or more
/// characters that begins with `-` is a file's name only after the word `--`.
pub fn read_words<'a>(alloc: Global, words: &'a [String]) -> Result<Asked<'a>, WordsFault>
    ensures ok { IfOk result (Asks (map string_bytes words.now)) }
    ensures alone { IfOk result (λ asked. (other : Asked) → Asks (map string_bytes words.now) other → call_of other ≡ call_of asked) }
    ensures err { IfErr result (RefusesWords (map string_bytes words.now)) }
{
    let matches = grammar(alloc)?.try_get_matches_from(words)?;
    let (name, files) = matches.subcommand().ok_or(WordsFault::Usage)?;
    chosen(name, files).ok_or(WordsFault::Usage)
}

/// The words behind the first, which is the program's own name.
pub fn behind_name(words: &[String]) -> &[String]
    ensures { result.now ≡ drop 1 words.now }
{
    match words.split_first() {
        Some((_, rest)) => rest,
        None => words,
    }
}

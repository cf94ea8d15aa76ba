//! The grammar of the program's words: its commands.
ghost use Rattle.std.specs.Prelude.{◌≡◌, IfOk, List, map};
ghost use Rattle.clap.specs.Words.{Rule, app_of};
ghost use Rattle.review_args.specs.Grammar.{
  IsLocal,
  IsProgram,
  arg_with_global,
  choices_of,
  command,
  command_with_globals,
  diff,
  faults,
  git,
  merge3,
  own,
  shapes,
  show,
  sum,
  warn,
};

use crate::arguments::{
    Choices, all_choices, by, by_position, color, file, files, flag, form, format, ignore, include,
    lines, list, most, no_fold, no_places, quiet, repeated, spelling, stat, unified, whole, words,
};
use clap::{Arg, Command};
use std::alloc::{AllocError, Global};

const DIFF_STATUSES: &str =
    "A and B are two files, or two folders whose files are compared by their names. One file may be `-`, standard input. In two folders,
files with the same bytes are the same, even if they are rejected.

Items of two lists are pairs if they are equal, or by the first of these names that occurs once on each side:
  apiVersion (without its version), kind, metadata.namespace, metadata.name
  name, id, key, alert, uid, containerPort, path (not of documents)
Then by what they have in common, and then in turn. A pair that moved has a line `>` with its name or its text. Neighbours
that moved together have one line, and so has a list of which only the order changed.

With --paths=jq and --paths=jsonpointer there are two columns of paths, the path in A and that in B. A side that has no such
node has `-`. Of several documents the first step is the number of the document, as `jq --slurp` has it. Where a path has a
key that is not a string, has more than 65536 bytes, or has a character that a terminal does not show, both columns have `!`
and the path of --paths=plain. JSON and pages have plain paths.

Exit status:
  0  the files mean the same, or differ only at or below ignored paths
  1  they differ
  2  a file is rejected, or memory runs out
  3  the arguments are wrong, a file cannot be read, or standard input or output fails";

const FAULTS_STATUSES: &str = "Exit status (of several files the greatest):
  0  no file is rejected
  2  a file is rejected, or memory runs out
  3  the arguments are wrong, a file cannot be read, or standard input or output fails";

const WARN_STATUSES: &str = "There is a warning for each
  plain scalar that YAML 1.1 reads differently, and for a float such as 3.10, which is 3.1
  plain scalar in a flow collection that begins with `?` or `:`
  anchor or alias whose name has another character than A to Z, a to z, 0 to 9, `-` and `_`
  key that is equal to an earlier key of its mapping in Python, such as true and 1, or in JavaScript, such as 1 and \"1\"
  int with the tag `!!int` that YAML 1.1 reads as octal, such as `!!int 010`
  slip: `{{ x }}`, `{type:string}`, `{a=b}`, `data:{}`, `a:: b`, `<<` that is no key, typographic quotes around a text,
    a quote, bracket or brace at its end alone, a no-break space or a zero-width space in it, full stops and commas alone,
    `// x` or a key `x \"b\"` in brackets or braces, two words there with a line's end between them, lines such as `-a` and
    `-b` below each other, which are one text, and the values of `a: |` without a text, `a: !f()`, `a: #/b` and `a:` above `b:c`
The first three were compared with PyYAML, libyaml and yaml.v3. Tags and characters that end a line in YAML 1.1 alone are not looked at.

Exit status (of several files the greatest):
  0  no file is rejected, and with --strict there is no warning
  1  with --strict: there is a warning
  2  a file is rejected, or memory runs out
  3  the arguments are wrong, a file cannot be read, or standard input or output fails";

const SHOW_STATUSES: &str =
    "What `yamlreview warn` lists of a file is printed on standard error, unless --check or --textconv is given.

Give only one of --check, --strict and --textconv, and only one of --keep-order, --sharing and --format=json.

Exit status (of several files the greatest):
  0  each file is shown, or with --check is as `show` writes it; with --textconv also if one is rejected
  1  with --check: a file is not as `show` writes it; with --strict: a file has a warning, and is not shown
  2  a file is rejected, JSON cannot express it, or memory runs out
  3  the arguments are wrong, a file cannot be read, or standard input or output fails";

const SUM_STATUSES: &str =
    "Give only one of FILE, --files-from and --check. --check takes LIST as its value: write `sum --quiet --check LIST`.

Exit status (of several files the greatest):
  0  each file has a checksum, or with --check the one that LIST has
  1  with --check: a file has another checksum than LIST has; with --strict: a line of LIST is not a checksum line;
     with --ignore-missing: no file has its checksum
  2  a file is rejected, or memory runs out
  3  the arguments are wrong, a file or LIST cannot be read, LIST has no checksum line, or standard input or output fails";

const MERGE_STATUSES: &str =
    "Each conflict has a line: `!`, the path, what BASE, OURS and THEIRS have there, and where. With RESULT there is a line `~` for each path
at which it is not the merge. One of the files may be `-`, standard input.

Where one side is as BASE, the merge has what the other side has. Where both sides are the same, it has that. Otherwise mappings are
merged by their keys. All else is one value: if both sides changed it, they conflict. A list is one value, and so is each of several
documents.

Exit status:
  0  both changes can be merged; with RESULT: it is the merge
  1  they conflict, or RESULT is not the merge
  2  a file is rejected, aliases make too many paths to look at, or memory runs out
  3  the arguments are wrong, a file cannot be read, or standard input or output fails";

const GIT_STATUSES: &str = "One of these options may be before the arguments of git:
  --lines=show    Print changed lines of what `show` writes
  --color=<WHEN>  Print differences in colour [possible values: auto, always, never]

Exit status:
  0  whatever is found, since git stops at any other status
  2  memory runs out
  3  the arguments are wrong, or the output fails";

/// A command with its arguments.
fn command<'a>(
    alloc: Global,
    name: &'a str,
    about: &'a str,
    statuses: &'a str,
    args: Vec<Arg<'a>>,
) -> Result<Command<'a>, AllocError>
    ensures app { IfOk result (λ c. (rules : List Rule) → map arg_with_global args.entry.items ≡ map own rules → app_of c ≡ command name.entry.now rules) }
    ensures local { IfOk result (λ c. (rules : List Rule) → map arg_with_global args.entry.items ≡ map own rules → IsLocal c) }
{
    Command::new(alloc, name)
        .about(about)
        .after_help(statuses)
        .args(args)
}

/// The words of `diff`.
fn diff<'a>(alloc: Global, choices: &Choices<'a>) -> Result<Command<'a>, AllocError>
    ensures app { IfOk result (λ c. app_of c ≡ diff (choices_of choices.now)) }
    ensures local { IfOk result IsLocal }
{
    let args = vec![in alloc;
        file(alloc, "A", true, "The left file or folder"),
        file(alloc, "B", true, "The right file or folder"),
        no_places(alloc),
        whole(alloc),
        most(alloc),
        unified(alloc),
        quiet(alloc),
        stat(alloc),
        by_position(alloc),
        by(alloc),
        no_fold(alloc),
        color(alloc, choices),
        ignore(alloc),
        include(alloc),
        spelling(alloc, choices),
        form(alloc, choices),
    ]?;
    command(
        alloc,
        "diff",
        "Prints where two files differ",
        DIFF_STATUSES,
        args,
    )
}

/// The words of `faults`.
fn faults<'a>(alloc: Global, choices: &Choices<'a>) -> Result<Command<'a>, AllocError>
    ensures app { IfOk result (λ c. app_of c ≡ faults (choices_of choices.now)) }
    ensures local { IfOk result IsLocal }
{
    let args = vec![in alloc; files(alloc), form(alloc, choices)]?;
    command(
        alloc,
        "faults",
        "Prints where files are rejected, and why",
        FAULTS_STATUSES,
        args,
    )
}

/// The words of `warn`.
fn warn<'a>(alloc: Global, choices: &Choices<'a>) -> Result<Command<'a>, AllocError>
    ensures app { IfOk result (λ c. app_of c ≡ warn (choices_of choices.now)) }
    ensures local { IfOk result IsLocal }
{
    let args = vec![in alloc;
        files(alloc),
        flag(alloc, "strict", "End with status 1 if there is a warning"),
        repeated(
            alloc,
            "allow",
            "WORD",
            "Do not warn of WORD: a scalar, such as `on`, or a name with its `&` or `*`; repeatable"
        ),
        lines(
            alloc,
            "Print at most N lines for each file, and then `...` if there are more; 0 for the status alone"
        ),
        form(alloc, choices),
    ]?;
    command(
        alloc,
        "warn",
        "Prints what other tools read differently",
        WARN_STATUSES,
        args,
    )
}

/// The words of `show`.
fn show<'a>(alloc: Global, choices: &Choices<'a>) -> Result<Command<'a>, AllocError>
    ensures app { IfOk result (λ c. app_of c ≡ show (choices_of choices.now)) }
    ensures local { IfOk result IsLocal }
{
    let args = vec![in alloc;
        files(alloc),
        flag(
            alloc,
            "check",
            "Write nothing but the name of each file that is not as `show` writes it, with status 1"
        ),
        format(alloc, choices),
        flag(
            alloc,
            "keep-order",
            "Write entries in the order of the file; files that mean the same may then have different texts"
        ),
        flag(
            alloc,
            "sharing",
            "Write a repeated node as an alias, with the anchors of the canonical text"
        ),
        flag(
            alloc,
            "strict",
            "Do not show a file with a warning, and end with status 1"
        ),
        flag(
            alloc,
            "textconv",
            "Write a rejected file as it is, with status 0, as git wants it"
        ),
    ]?;
    command(
        alloc,
        "show",
        "Prints files as readable YAML, or as JSON",
        SHOW_STATUSES,
        args,
    )
}

/// The words of `sum`.
fn sum<'a>(alloc: Global) -> Result<Command<'a>, AllocError>
    ensures app { IfOk result (λ c. app_of c ≡ sum) }
    ensures local { IfOk result IsLocal }
{
    let args = vec![in alloc;
        files(alloc),
        list(
            alloc,
            "files-from",
            "Take names from LIST, each ended by NUL or a line feed; `-` is standard input"
        ),
        list(
            alloc,
            "check",
            "Check files against the checksums of LIST, which `sum` or `sha256sum` wrote"
        ),
        flag(
            alloc,
            "ignore-missing",
            "With --check: leave out files that are not there, if one file has its checksum"
        ),
        flag(
            alloc,
            "quiet",
            "With --check: print no line for a file that has its checksum"
        ),
        flag(
            alloc,
            "status",
            "With --check: print nothing about files and lines; the status reports the result"
        ),
        flag(
            alloc,
            "strict",
            "With --check: end with status 1 if a line of LIST is not a checksum line"
        ),
    ]?;
    command(
        alloc,
        "sum",
        "Prints the SHA-256 of each file's canonical text, as sha256sum does",
        SUM_STATUSES,
        args,
    )
}

/// The words of `merge3`.
fn merge3<'a>(alloc: Global, choices: &Choices<'a>) -> Result<Command<'a>, AllocError>
    ensures app { IfOk result (λ c. app_of c ≡ merge3 (choices_of choices.now)) }
    ensures local { IfOk result IsLocal }
{
    let args = vec![in alloc;
        file(alloc, "BASE", true, "The file that both sides changed"),
        file(alloc, "OURS", true, "What one side made of it"),
        file(alloc, "THEIRS", true, "What the other side made of it"),
        file(
            alloc,
            "RESULT",
            false,
            "What was made of both, to be checked"
        ),
        no_places(alloc),
        whole(alloc),
        lines(
            alloc,
            "Print at most N lines, and then `...` if there are more; 0 for the status alone"
        ),
        quiet(alloc),
        color(alloc, choices),
    ]?;
    command(
        alloc,
        "merge3",
        "Prints where two changes of a file conflict, or where RESULT is not their merge",
        MERGE_STATUSES,
        args,
    )
}

/// The words of `git`.
fn git<'a>(alloc: Global) -> Result<Command<'a>, AllocError>
    ensures app { IfOk result (λ c. app_of c ≡ git) }
    ensures local { IfOk result IsLocal }
{
    let args = vec![in alloc; words(alloc)]?;
    command(
        alloc,
        "git",
        "Prints what differs, called by git as GIT_EXTERNAL_DIFF or diff.NAME.command",
        GIT_STATUSES,
        args,
    )
}

/// The commands of the program.
fn commands<'a>(alloc: Global, choices: &Choices<'a>) -> Result<Vec<Command<'a>>, AllocError>
    ensures { IfOk result (λ list. map command_with_globals list.items ≡ map own (shapes (choices_of choices.now))) }
{
    let diff = diff(alloc, choices)?;
    let faults = faults(alloc, choices)?;
    let warn = warn(alloc, choices)?;
    let show = show(alloc, choices)?;
    let sum = sum(alloc)?;
    let merge = merge3(alloc, choices)?;
    let git = git(alloc)?;
    Ok(vec![in alloc; diff, faults, warn, show, sum, merge, git]?)
}

/// The grammar of the program's words.
pub(crate) fn grammar<'a>(alloc: Global) -> Result<Command<'a>, AllocError>
    ensures { IfOk result (λ command. IsProgram (app_of command)) }
{
    let choices = all_choices();
    let commands = commands(alloc, &choices)?;
    Command::new(alloc, "yamlreview")
        .version("1.1.0 (yamlcanon-form-1)")
        .about("Prints where two YAML files differ, and where and why a file is rejected")
        .bin_name("yamlreview")?
        .no_binary_name(true)
        .subcommand_required(true)
        .subcommands(commands)
}

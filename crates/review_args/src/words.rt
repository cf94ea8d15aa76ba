//! What the program's words ask for.
use review_patterns::Pattern;
use review_text::options::{Diff, Form, Page};

/// How many lines are told where no number is given.
pub const LINES: usize = 1_000;

/// What is told of files, one after another.
#[derive(Drop)]
pub struct Report<'a> {
    /// Their names, of which `-` is standard input.
    pub files: Vec<&'a str>,
    pub form: Form,
}

/// Which warnings are told, and what they mean for the status.
#[derive(Drop)]
pub struct Warn<'a> {
    /// The greatest number of lines a file.
    pub lines: usize,
    /// Whether a file with a warning has the status 1.
    pub is_strict: bool,
    /// Plain words that are not warned of.
    pub allowed: Vec<&'a str>,
}

/// How `show` writes a stream.
#[derive(Clone, Copy, Debug, PartialEq, Eq)]
pub enum Format {
    /// YAML in block style, with entries in the order of their keys.
    Yaml,
    /// YAML in block style, with entries in the order of the source.
    AsRead,
    /// YAML in block style, with the anchors and aliases of the canonical text.
    Sharing,
    /// A line of JSON for each document.
    Json,
}

/// Files that are shown.
#[derive(Drop)]
pub struct Show<'a> {
    pub files: Vec<&'a str>,
    pub format: Format,
    /// Whether a rejected file is written as it is.
    pub textconv: bool,
    /// Whether files are compared with what would be written, and nothing is.
    pub is_check: bool,
    /// Whether a file with a warning is not shown.
    pub is_strict: bool,
}

/// Digests of files.
#[derive(Drop)]
pub struct Sum<'a> {
    pub files: Vec<&'a str>,
    /// The file with names of further files.
    pub files_from: Option<&'a str>,
    /// The list that is checked.
    pub check: Option<&'a str>,
    /// Whether files that have the digest of the list are not told of.
    pub is_quiet: bool,
    /// Whether nothing is told of files and lines, but by the status.
    pub is_silent: bool,
    /// Whether a line that is none of a digest counts for the status.
    pub is_strict: bool,
    /// Whether files that are not there are left out.
    pub skips_missing: bool,
}

/// A base and two changes of it, and what was made of them, if it is to be judged.
#[derive(Clone, Copy)]
pub struct Merge<'a> {
    pub base: &'a str,
    pub ours: &'a str,
    pub theirs: &'a str,
    pub result: Option<&'a str>,
    /// The greatest number of lines.
    pub lines: usize,
    /// Whether the places of nodes are printed.
    pub places: bool,
    /// Whether texts of more than 60 bytes are printed whole.
    pub whole: bool,
    /// Whether lines are in colour.
    pub color: bool,
}

/// A command.
#[derive(Drop)]
pub enum Asked<'a> {
    /// With the paths whose differences are left out, and the globs of the files of folders.
    Diff(Diff<'a>, Vec<Pattern<'a>>, Vec<&'a str>),
    DiffPage(Page, Diff<'a>, Vec<Pattern<'a>>, Vec<&'a str>),
    Faults(Report<'a>),
    FaultsPage(Page, Report<'a>),
    Warn(Report<'a>, Warn<'a>),
    WarnPage(Page, Report<'a>, Warn<'a>),
    Show(Show<'a>),
    Sum(Sum<'a>),
    Merge(Merge<'a>),
    /// What `GIT_EXTERNAL_DIFF` passes, and whether lines are in colour unless it asks otherwise.
    Git(Vec<&'a str>, bool),
}

//! What is listed of two files, and in which form lists are written.
ghost use Rattle.std.specs.Prelude.{◌≤◌};

/// The greatest number of lines that are printed before and behind each changed line of a string.
pub const CONTEXT: usize = 1_000;

/// In which form lines are written.
#[derive(Clone, Copy)]
pub enum Form {
    /// Text with columns.
    Line,
    /// One JSON object a line.
    Json,
}

impl Form {
    ghost use Rattle.std.specs.Prelude.{◌≡◌};
    ghost use Rattle.review_text.specs.Forms.{more_text};

    /// The line which says that there are more.
    pub fn more(self) -> &'static str
        ensures { result.now ≡ more_text self }
    {
        match self {
            Form::Line => "...\n",
            Form::Json => "{\"kind\":\"more\"}\n",
        }
    }
}

/// In which form all that is found is written as a whole.
#[derive(Clone, Copy)]
pub enum Page {
    /// One page, which asks for nothing else.
    Html,
    /// A table.
    Markdown,
    /// SARIF 2.1.0.
    Sarif,
    /// A command of GitHub's workflows for each place.
    Github,
}

/// How paths are written.
#[derive(Clone, Copy)]
pub enum Paths {
    /// As the pages show them, with both places of an item that moved.
    Plain,
    /// As filters of jq.
    Jq,
    /// As JSON pointers.
    JsonPointer,
}

/// Where two files differ.
#[derive(Clone, Copy)]
pub struct Diff<'a> {
    pub left: &'a str,
    pub right: &'a str,
    /// Whether lines and columns are told.
    pub places: bool,
    /// Whether texts are shown whole.
    pub whole: bool,
    /// The greatest number of lines.
    pub lines: usize,
    pub form: Form,
    /// How many lines are printed before and behind each changed line of a string.
    pub context: usize,
    /// Whether lines are in colour.
    pub color: bool,
    /// Whether differences are counted, and not told.
    pub stat: bool,
    /// Whether items are paired by their places, so that none moves.
    pub by_position: bool,
    /// Keys whose values name items, before other names, each text with some of them: `spec.id,host`.
    pub by: &'a [&'a str],
    /// Whether one line tells all differences of one node for which aliases stand.
    pub folds: bool,
    /// How paths are written in columns. In JSON and on pages they are plain.
    pub paths: Paths,
    pub ghost few: { context ≤ 1000 },
}

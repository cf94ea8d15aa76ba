//! What is found in files.
ghost use Rattle.std.specs.Prelude.{◌≡◌, ◌++◌, string_bytes, OnOk};
ghost use Rattle.review_formats.specs.Findings.{sign_word, sign_mark, sign_says, others_text, differences_in, moves_in, are_whole, left_out_of, count_of};

use crate::left_out::LeftOut;
use std::alloc::AllocError;
use yaml_path::Place;

/// How much something that is found matters.
#[derive(Clone, Copy, Debug, PartialEq, Eq)]
pub enum Level {
    /// A file is rejected.
    Error,
    /// Other tools read something else.
    Warning,
    /// Two files differ.
    Note,
}

/// What two sides have at a path.
#[derive(Clone, Copy, Debug, PartialEq, Eq)]
pub enum Sign {
    Changed,
    Left,
    Right,
    Moved,
}

impl Sign {
    /// What it is called.
    pub fn word(self) -> &'static str
        ensures { result.now ≡ sign_word self }
    {
        match self {
            Sign::Changed => "changed",
            Sign::Left => "left",
            Sign::Right => "right",
            Sign::Moved => "moved",
        }
    }

    /// One character for it.
    pub fn mark(self) -> &'static str
        ensures { result.now ≡ sign_mark self }
    {
        match self {
            Sign::Changed => "~",
            Sign::Left => "-",
            Sign::Right => "+",
            Sign::Moved => ">",
        }
    }

    /// What it says of the two sides.
    pub fn says(self) -> &'static str
        ensures { result.now ≡ sign_says self }
    {
        match self {
            Sign::Changed => "changed",
            Sign::Left => "only on the left",
            Sign::Right => "only on the right",
            Sign::Moved => "moved",
        }
    }
}

/// What two sides have at a path, as text.
#[derive(Drop)]
pub struct Sides {
    pub sign: Sign,
    /// How many other differences aliases show, which are not listed.
    pub others: usize,
    pub left: Option<String>,
    pub right: Option<String>,
    pub left_place: Option<Place>,
    pub right_place: Option<Place>,
    /// The changed lines of two strings, each behind a tab and its sign.
    pub changes: Option<String>,
}

impl Sides {
    ghost use Rattle.std.specs.Prelude.{◌≡◌, ◌++◌, string_bytes, OnOk};
    ghost use Rattle.review_formats.specs.Findings.{sides_says};

    /// Writes what the two sides have, and how many other differences aliases show.
    pub fn put_says(&self, out: &mut String) -> Result<(), AllocError>
        ensures ok { OnOk result (string_bytes out.new ≡ string_bytes out.old ++ sides_says self.now) }
    {
        out.push_str(self.sign.says())?;
        put_others(out, self.others)?;
        Ok(())
    }
}

/// Writes how many other differences aliases show, if there are some.
#[tactic(auto, using(crate::proofs::PieceLaws::others_none, crate::proofs::PieceLaws::others_some))]
fn put_others(out: &mut String, others: usize) -> Result<(), AllocError>
    ensures ok { OnOk result (string_bytes out.new ≡ string_bytes out.old ++ others_text others) }
{
    if others == 0 {
        return Ok(());
    }
    write!(out, " (and {others} more through aliases)")?;
    Ok(())
}

/// What is found at a place of a file.
#[derive(Drop)]
pub struct Finding {
    /// What it is called.
    pub rule: &'static str,
    pub level: Level,
    pub file: String,
    pub place: Option<Place>,
    pub path: Option<String>,
    pub message: String,
    /// The line of the place.
    pub line: Option<String>,
    pub sides: Option<Sides>,
}

/// A file of which the lines are shown.
#[derive(Drop)]
pub struct Shown {
    pub name: String,
    pub text: String,
}

/// What was found in files, or in one of two folders' files.
#[derive(Drop)]
pub struct Part {
    /// The name that the file has in both folders, if folders were compared.
    pub name: Option<String>,
    pub list: Vec<Finding>,
    /// The lines of both files, if a page shows them.
    pub shown: Option<(Shown, Shown)>,
    /// What was found and is not listed.
    pub left_out: LeftOut,
}

/// What a command found.
#[derive(Drop)]
pub struct Findings {
    /// The command.
    pub command: &'static str,
    /// The files or folders that were compared, if two were.
    pub names: Option<(String, String)>,
    pub parts: Vec<Part>,
}

impl Findings {
    /// How many places are listed.
    pub fn count(&self) -> usize
        ensures { result ≡ count_of self.now.parts.items }
    {
        let mut count: usize = 0;
        'parts: for part in &self.parts {
            count = count.saturating_add(part.list.len());
        }
        count
    }

    /// How many differences are not listed.
    fn differences(&self) -> usize
        ensures { result ≡ differences_in self.now.parts.items }
    {
        let mut differences: usize = 0;
        'parts: for part in &self.parts {
            differences = differences.saturating_add(part.left_out.differences);
        }
        differences
    }

    /// How many moves are not.
    fn moves(&self) -> usize
        ensures { result ≡ moves_in self.now.parts.items }
    {
        let mut moves: usize = 0;
        'parts: for part in &self.parts {
            moves = moves.saturating_add(part.left_out.moves);
        }
        moves
    }

    /// Whether all were looked for.
    fn is_whole(&self) -> bool
        ensures { result ≡ are_whole self.now.parts.items }
    {
        self.parts.iter().all(|part| part.left_out.whole)
    }

    /// What was found and is not listed, of all parts.
    pub fn left_out(&self) -> LeftOut
        ensures { result ≡ left_out_of self.now.parts.items }
    {
        LeftOut {
            differences: self.differences(),
            moves: self.moves(),
            whole: self.is_whole(),
        }
    }
}

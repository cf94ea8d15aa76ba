//! The lines of a comparison.
ghost use Rattle.std.specs.Prelude.{◌≡◌, ◌++◌, cond, unwrap_or, option_map, [], string_bytes, OnOk};
ghost use Rattle.review_text.specs.Hidden.{visible};
ghost use Rattle.review_lines.specs.Lines.{column, place_text, more_text, rest_object, rest_json, rest_text, others_text};

use crate::stat::{put_number, put_whole};
use review_formats::LeftOut;
use review_paths::Members;
use review_paths::writing::{put_place_json, put_raw, put_text};
use review_text::json::text_of;
use review_text::options::{Diff, Form};
use review_text::{put_json, put_visible};
use std::alloc::{AllocError, Global};
use yaml_path::Place;

/// The changed lines of two scalars of one tag.
#[derive(Drop)]
pub struct Changes {
    /// How many lines there are, how many are changed, and where.
    pub summary: String,
    /// The changed lines, each behind a tab and its sign.
    pub text: String,
}

/// One difference, or items that moved, as they are told.
#[derive(Drop)]
pub struct Line {
    pub path: String,
    /// What tells which items moved, in columns.
    pub label: Option<String>,
    /// The texts of the two nodes, where there are nodes; none of both where a pair of items moved.
    pub left: Option<String>,
    pub right: Option<String>,
    /// The places of the two nodes, where they are told.
    pub left_place: Option<Place>,
    pub right_place: Option<Place>,
    /// The changed lines, where both nodes are scalars of one tag and one of them has a line feed.
    pub changes: Option<Changes>,
    /// What a program reads beside the texts, where JSON is written.
    pub members: Option<Members>,
    /// How many differences the line tells: 0 where another line tells this one.
    pub count: usize,
}

/// What stands behind lines that are not all.
const MORE: &str = "...\n";

/// What turns the colour of a terminal off.
const PLAIN: &str = "\u{1b}[0m";

impl Line {
    ghost use Rattle.std.specs.Prelude.{◌≡◌, ◌++◌, [], cond, unwrap_or, option_map, string_bytes, OnOk};
    ghost use Rattle.review_lines.specs.Lines.{sign, kind, color_text, plain_text, label_or, values, below, places_text, columns, told_text, left_value, right_value, steps_text, line_object, line_json, line_text};

    /// What the two sides have at the path: other things, or one of them nothing. Where both have no text, a pair of items moved.
    fn sign(&self) -> &'static str
        ensures { result.now ≡ sign self.now }
    {
        match (self.left.is_some(), self.right.is_some()) {
            (true, true) => "~",
            (true, false) => "-",
            (false, true) => "+",
            (false, false) => ">",
        }
    }

    fn kind(&self) -> &'static str
        ensures { result.now ≡ kind self.now }
    {
        match (self.left.is_some(), self.right.is_some()) {
            (true, true) => "changed",
            (true, false) => "left",
            (false, true) => "right",
            (false, false) => "moved",
        }
    }

    /// What turns a colour on: yellow, red, green or blue.
    fn color(&self) -> &'static str
        ensures { result.now ≡ color_text self.now }
    {
        match (self.left.is_some(), self.right.is_some()) {
            (true, true) => "\u{1b}[33m",
            (true, false) => "\u{1b}[31m",
            (false, true) => "\u{1b}[32m",
            (false, false) => "\u{1b}[34m",
        }
    }

    /// What stands where the left text does.
    fn label(&self) -> Option<&str>
        ensures { unwrap_or (option_map (λ told. told.now) result) [] ≡ label_or self.now.label self.now.left }
    {
        match &self.label {
            Some(label) => Some(label.as_str()),
            None => text_of(&self.left),
        }
    }

    /// Both texts or, of scalars whose changed lines are printed below, what is said of these; of items that moved their label.
    fn put_values(&self, out: &mut String) -> Result<(), AllocError>
        ensures ok { OnOk result (string_bytes out.new ≡ string_bytes out.old ++ values self.now.changes self.now) }
    {
        match &self.changes {
            Some(changes) => put_column(out, Some(changes.summary.as_str())),
            None => {
                put_column(out, self.label())?;
                put_column(out, text_of(&self.right))
            }
        }
    }

    /// The places' columns, if they are told.
    fn put_places(&self, out: &mut String, places: bool) -> Result<(), AllocError>
        ensures ok { OnOk result (string_bytes out.new ≡ string_bytes out.old ++ places_text places self.now) }
    {
        if places {
            put_place(out, self.left_place)?;
            put_place(out, self.right_place)?;
        }
        Ok(())
    }

    /// The changed lines, where they are printed.
    fn put_below(&self, out: &mut String) -> Result<(), AllocError>
        ensures ok { OnOk result (string_bytes out.new ≡ string_bytes out.old ++ below self.now.changes) }
    {
        match &self.changes {
            Some(changes) => put_visible(out, &changes.text),
            None => Ok(()),
        }
    }

    /// Columns parted by tabs: sign, path, what the sides have, and behind these the places if they are told; and the lines below.
    fn put_columns(&self, out: &mut String, places: bool, color: bool) -> Result<(), AllocError>
        ensures ok { OnOk result (string_bytes out.new ≡ string_bytes out.old ++ columns places color self.now) }
    {
        put_if(out, color, self.color())?;
        out.push_str(self.sign())?;
        put_column(out, Some(self.path.as_str()))?;
        self.put_values(out)?;
        self.put_places(out, places)?;
        put_if(out, color, PLAIN)?;
        out.push('\n')?;
        self.put_below(out)?;
        Ok(())
    }

    /// The columns and, where the line tells several differences, how many others; nothing where another line tells this one.
    #[tactic(auto, using(crate::proofs::LineLaws::told_none, crate::proofs::LineLaws::told_some))]
    fn put_told(&self, out: &mut String, places: bool, color: bool) -> Result<(), AllocError>
        ensures ok { OnOk result (string_bytes out.new ≡ string_bytes out.old ++ told_text self.now.count (columns places color self.now)) }
    {
        if self.count == 0 {
            return Ok(());
        }
        self.put_columns(out, places, color)?;
        put_others(out, self.count - 1)?;
        Ok(())
    }

    /// The value of the left node as JSON, if it is told.
    fn left_value(&self) -> Option<&str>
        ensures { option_map (λ told. told.now) result ≡ left_value self.now.members }
    {
        match &self.members {
            Some(members) => text_of(&members.left),
            None => None,
        }
    }

    /// The same of the right node.
    fn right_value(&self) -> Option<&str>
        ensures { option_map (λ told. told.now) result ≡ right_value self.now.members }
    {
        match &self.members {
            Some(members) => text_of(&members.right),
            None => None,
        }
    }

    /// The path as JSON, if it is told.
    fn steps(&self) -> Option<&str>
        ensures { option_map (λ told. told.now) result ≡ steps_text self.now.members }
    {
        match &self.members {
            Some(members) => Some(members.steps.as_str()),
            None => None,
        }
    }

    /// One JSON object, with all characters as they are.
    fn put_object(&self, alloc: Global, out: &mut String) -> Result<(), AllocError>
        ensures ok { OnOk result (string_bytes out.new ≡ string_bytes out.old ++ line_object self.now) }
    {
        put_text(alloc, out, "{\"kind\":", Some(self.kind()))?;
        put_text(alloc, out, ",\"left\":", text_of(&self.left))?;
        put_place_json(out, ",\"left_place\":", self.left_place)?;
        put_raw(out, ",\"left_value\":", self.left_value())?;
        put_text(alloc, out, ",\"path\":", Some(self.path.as_str()))?;
        put_text(alloc, out, ",\"right\":", text_of(&self.right))?;
        put_place_json(out, ",\"right_place\":", self.right_place)?;
        put_raw(out, ",\"right_value\":", self.right_value())?;
        put_raw(out, ",\"steps\":", self.steps())?;
        out.push_str("}\n")?;
        Ok(())
    }

    /// The same with escapes for the characters that a terminal would not show.
    fn put_json(&self, alloc: Global, out: &mut String) -> Result<(), AllocError>
        ensures ok { OnOk result (string_bytes out.new ≡ string_bytes out.old ++ line_json self.now) }
    {
        let mut object = String::new(alloc);
        self.put_object(alloc, &mut object)?;
        put_json(out, object.as_str())
    }

    /// Writes the line in the form that is asked for.
    pub fn put(&self, alloc: Global, out: &mut String, asked: &Diff<'_>) -> Result<(), AllocError>
        ensures ok { OnOk result (string_bytes out.new ≡ string_bytes out.old ++ line_text asked.now self.now) }
    {
        match asked.form {
            Form::Line => self.put_told(out, asked.places, asked.color),
            Form::Json => self.put_json(alloc, out),
        }
    }
}

/// Tells that there are more lines.
pub fn put_more(out: &mut String, form: Form) -> Result<(), AllocError>
    ensures ok { OnOk result (string_bytes out.new ≡ string_bytes out.old ++ more_text form) }
{
    match form {
        Form::Line => out.push_str(MORE)?,
        Form::Json => out.push_str("{\"kind\":\"more\"}\n")?,
    }
    Ok(())
}

/// Writes what no line tells as an object of JSON.
fn put_rest_object(out: &mut String, left_out: LeftOut) -> Result<(), AllocError>
    ensures ok { OnOk result (string_bytes out.new ≡ string_bytes out.old ++ rest_object left_out) }
{
    put_number(out, "{\"differences\":", left_out.differences)?;
    put_number(out, ",\"kind\":\"more\",\"moves\":", left_out.moves)?;
    put_whole(out, left_out.whole)?;
    Ok(())
}

/// The same, if there is something.
fn put_rest_json(out: &mut String, left_out: LeftOut) -> Result<(), AllocError>
    ensures ok { OnOk result (string_bytes out.new ≡ string_bytes out.old ++ rest_json left_out) }
{
    if left_out.is_none() {
        return Ok(());
    }
    put_rest_object(out, left_out)
}

/// Writes in the form that is asked for what no line tells, if there is something.
pub(crate) fn put_rest(out: &mut String, form: Form, left_out: LeftOut) -> Result<(), AllocError>
    ensures ok { OnOk result (string_bytes out.new ≡ string_bytes out.old ++ rest_text form left_out) }
{
    match form {
        Form::Line => left_out.put_between(out, "... not listed: ", "\n"),
        Form::Json => put_rest_json(out, left_out),
    }
}

/// How many other differences a line tells, on a line of its own behind a tab, if there are some.
#[tactic(auto, using(crate::proofs::LineLaws::others_none, crate::proofs::LineLaws::others_some))]
fn put_others(out: &mut String, others: usize) -> Result<(), AllocError>
    ensures ok { OnOk result (string_bytes out.new ≡ string_bytes out.old ++ others_text others) }
{
    if others == 0 {
        return Ok(());
    }
    write!(out, "\t(and {others} more through aliases)\n")?;
    Ok(())
}

/// A text, if it is asked for.
fn put_if(out: &mut String, is_asked: bool, text: &str) -> Result<(), AllocError>
    ensures ok { OnOk result (string_bytes out.new ≡ string_bytes out.old ++ cond is_asked text.now []) }
{
    if is_asked {
        out.push_str(text)?;
    }
    Ok(())
}

/// A column behind another: the text, if there is one, with escapes for the characters that a terminal would not show.
fn put_column(out: &mut String, text: Option<&str>) -> Result<(), AllocError>
    ensures ok { OnOk result (string_bytes out.new ≡ string_bytes out.old ++ column (visible (unwrap_or (option_map (λ told. told.now) text.entry) []))) }
{
    out.push('\t')?;
    if let Some(text) = text {
        put_visible(out, text)?;
    }
    Ok(())
}

/// A column with a place, if there is one.
fn put_place(out: &mut String, place: Option<Place>) -> Result<(), AllocError>
    ensures ok { OnOk result (string_bytes out.new ≡ string_bytes out.old ++ column (place_text place)) }
{
    out.push('\t')?;
    if let Some(place) = place {
        let line = place.line;
        let column = place.column;
        write!(out, "{line}:{column}")?;
    }
    Ok(())
}

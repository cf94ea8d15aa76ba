//! The lines of conflicts.
ghost use Rattle.std.specs.Prelude.{◌≡◌, ◌++◌, ℕ, List, Option, cond, [], map, length, unwrap_or, string_bytes, OnOk, IfOk};
ghost use Rattle.std.specs.Option.{is_some, option_map};
ghost use Rattle.std.specs.List.{slice_get, enumerate_from};
ghost use Rattle.yaml_diff.specs.Lines.{way_of};
ghost use Rattle.yaml_path.specs.declared.place.Place.{Place};
ghost use Rattle.review_text.specs.PathText.{path_text};
ghost use Rattle.review_merge.specs.declared.told.Seats.{Seats};
ghost use Rattle.review_merge.specs.Parts.{values_in, ShowsValues, budget};
ghost use Rattle.review_merge.specs.Placed.{Each, Tells, HasSeats, HasAsked};
ghost use Rattle.review_merge.specs.Lines.{sign, color_text, side_name, value_text, value_column, values_text, place_text, places_text, column, line_text, count_text, result_count_text, streams_text, shown_step, steps_of, nodes_of, AreLines, is_numbered, result_side, sides_in, IsListText, IsOutcomeText, more_text, IsStyled};

use crate::print::Print;
use crate::seats::seats_of;
use crate::texts::{Budget, texts_of};
use crate::told::Seats;
use review_text::path::path_text;
use review_text::put_visible;
use std::alloc::{AllocError, Global};
use yaml_conflicts::{Conflict, Outcome, Roots, Step};
use yaml_diff::Step as Shown;
use yaml_path::Place;
use yaml_path::places::Places;
use yaml_store_rank::RankedForests;
use yaml_text::fault::Fault;
use yaml_tree::node::NodeId;

/// What stands behind lines that are not all.
const MORE: &str = "...\n";

/// What turns the colour of a terminal off.
const PLAIN: &str = "\u{1b}[0m";

/// What a line begins with: a conflict, or a place at which the result is not the merge.
fn sign(given: bool) -> &'static str
    ensures { result.now ≡ sign given }
{
    if given { "~" } else { "!" }
}

/// What turns the colour of a line on: red for a conflict, and yellow.
fn color(given: bool) -> &'static str
    ensures { result.now ≡ color_text given }
{
    if given { "\u{1b}[33m" } else { "\u{1b}[31m" }
}

/// A text, if it is asked for.
fn put_if(out: &mut String, is_asked: bool, text: &str) -> Result<(), AllocError>
    ensures ok { OnOk result (string_bytes out.new ≡ string_bytes out.old ++ cond is_asked text.now []) }
{
    if is_asked {
        out.push_str(text)?;
    }
    Ok(())
}

/// What the values of a line are called.
fn name_of(number: usize) -> &'static str
    ensures { result.now ≡ side_name number }
{
    match number {
        0 => "base",
        1 => "ours",
        2 => "theirs",
        3 => "result",
        _ => "",
    }
}

/// The text of a side's node, or that there is none.
fn put_value(out: &mut String, text: &Option<String>) -> Result<(), AllocError>
    ensures ok { OnOk result (string_bytes out.new ≡ string_bytes out.old ++ value_text (option_map string_bytes text.now)) }
{
    match text {
        Some(text) => put_visible(out, text)?,
        None => out.push_str("absent")?,
    }
    Ok(())
}

/// A column: whose value it is, and its text, or that there is none.
fn put_column(out: &mut String, number: usize, text: &Option<String>) -> Result<(), AllocError>
    ensures ok { OnOk result (string_bytes out.new ≡ string_bytes out.old ++ value_column (number, option_map string_bytes text.now)) }
{
    out.push('\t')?;
    out.push_str(name_of(number))?;
    out.push(' ')?;
    put_value(out, text)
}

/// Columns: whose value each is, and its text, or that there is none.
fn put_values(out: &mut String, texts: &[Option<String>]) -> Result<(), AllocError>
    ensures ok { OnOk result (string_bytes out.new ≡ string_bytes out.old ++ values_text (values_in texts.now)) }
{
    'texts: for (number, text) in texts.iter().enumerate() {
        put_column(out, number, text)?;
    }
    Ok(())
}

/// A column with a place, which is empty where there is none.
fn put_place(out: &mut String, place: Option<Place>) -> Result<(), AllocError>
    ensures ok { OnOk result (string_bytes out.new ≡ string_bytes out.old ++ column (place_text place)) }
{
    out.push('\t')?;
    if let Some(place) = place {
        let line = place.line;
        let column = place.column;
        write!(out, "{line}:{column}")?;
    }
    Ok(())
}

/// A column with the place of each value of a line, which is empty where there is none.
fn put_places(out: &mut String, seats: &[Seats], number: usize) -> Result<(), AllocError>
    ensures ok { OnOk result ((places : List (Option Place)) × Tells number seats.now places × (string_bytes out.new ≡ string_bytes out.old ++ places_text places)) }
{
    'seats: for side in seats {
        put_place(out, side.place(number))?;
    }
    Ok(())
}

/// A step of a path as `diff` has it.
fn shown_step(step: Step) -> Shown
    ensures { result ≡ shown_step step }
{
    match step {
        Step::Document(place) => Shown::Item(Places::Both(place, place)),
        Step::Value(key) => Shown::Value(key),
    }
}

/// The steps of a path as `diff` has them.
fn shown_steps(alloc: Global, path: &[Step]) -> Result<Vec<Shown>, AllocError>
    ensures ok { IfOk result (λ list. list.items ≡ map shown_step path.now) }
{
    let mut list = Vec::new(alloc);
    'steps: for step in path {
        list.push(shown_step(*step))?;
    }
    Ok(list)
}

/// How the lines of conflicts are written.
#[derive(Drop)]
struct Style {
    /// Whether a result is judged.
    given: bool,
    /// Whether paths have the number of the document.
    numbered: bool,
    print: Print,
    /// Where the nodes of each side are, if that is printed.
    seats: Vec<Seats>,
}

/// The texts of what each side has at the path of a conflict.
fn values_of(
    alloc: Global,
    forests: &RankedForests<'_>,
    one: &Conflict,
    style: &Style,
    budget: &mut Budget,
) -> Result<Vec<Option<String>>, AllocError>
    ensures ok { IfOk result (λ texts. ShowsValues forests.now (nodes_of style.now.given one.now.sides) budget.old.bytes budget.new.bytes (values_in texts.items) style.now.print.whole) }
{
    let sides = one.sides;
    let whole = style.print.whole;
    if style.given {
        let nodes = [sides.base, sides.ours, sides.theirs, sides.merge];
        return texts_of(alloc, forests, &nodes, whole, budget);
    }
    let nodes = [sides.base, sides.ours, sides.theirs];
    texts_of(alloc, forests, &nodes, whole, budget)
}

/// A line: the path of a conflict, what each side has there, and where.
fn put_line(
    out: &mut String,
    path: &str,
    values: &[Option<String>],
    style: &Style,
    number: usize,
) -> Result<(), AllocError>
    ensures ok { OnOk result ((places : List (Option Place)) × Tells number style.now.seats.items places × (string_bytes out.new ≡ string_bytes out.old ++ line_text style.now.given style.now.print.color path.now (values_in values.now) places)) }
{
    put_if(out, style.print.color, color(style.given))?;
    out.push_str(sign(style.given))?;
    out.push('\t')?;
    put_visible(out, path)?;
    put_values(out, values)?;
    put_places(out, &style.seats, number)?;
    put_if(out, style.print.color, PLAIN)?;
    out.push('\n')?;
    Ok(())
}

/// How many documents a stream has.
fn put_count(out: &mut String, whose: &str, count: usize) -> Result<(), AllocError>
    ensures ok { OnOk result (string_bytes out.new ≡ string_bytes out.old ++ count_text whose.now count) }
{
    let unit = if count == 1 { "document" } else { "documents" };
    write!(out, "\t{whose} {count} {unit}")?;
    Ok(())
}

/// How many documents the result has, if there is one.
fn put_result_count(out: &mut String, given: bool, count: usize) -> Result<(), AllocError>
    ensures ok { OnOk result (string_bytes out.new ≡ string_bytes out.old ++ result_count_text given count) }
{
    if given {
        put_count(out, "result", count)?;
    }
    Ok(())
}

/// The line of streams that have not equally many documents.
fn put_streams(
    out: &mut String,
    roots: &Roots<'_>,
    given: bool,
    is_colored: bool,
) -> Result<(), AllocError>
    ensures ok { OnOk result (string_bytes out.new ≡ string_bytes out.old ++ streams_text given is_colored roots.now) }
{
    put_if(out, is_colored, color(given))?;
    out.push_str(sign(given))?;
    out.push('\t')?;
    put_count(out, "base", roots.base.len())?;
    put_count(out, "ours", roots.ours.len())?;
    put_count(out, "theirs", roots.theirs.len())?;
    put_result_count(out, given, roots.merge.len())?;
    put_if(out, is_colored, PLAIN)?;
    out.push('\n')?;
    Ok(())
}

/// The paths of conflicts as `diff` has them.
fn paths_of(alloc: Global, list: &[Conflict]) -> Result<Vec<Vec<Shown>>, AllocError>
    ensures ok { IfOk result (λ paths. map (λ path. path.items) paths.items ≡ map steps_of list.now) }
{
    let mut paths = Vec::new(alloc);
    'list: for one in list {
        paths.push(shown_steps(alloc, &one.path)?)?;
    }
    Ok(paths)
}

/// The path of this number.
fn path_at<'p>(paths: &'p [Vec<Shown>], number: usize) -> &'p [Shown]
    ensures { result.now ≡ unwrap_or (slice_get (map (λ path. path.items) paths.now) number) [] }
{
    match paths.get(number) {
        Some(path) => path.as_slice(),
        None => &[],
    }
}

/// The line of a conflict, to which these steps lead.
fn put_conflict(
    alloc: Global,
    out: &mut String,
    forests: &RankedForests<'_>,
    one: (usize, &Conflict),
    steps: &[Shown],
    style: &Style,
    budget: &mut Budget,
) -> Result<(), AllocError>
    requires steps { steps.now ≡ steps_of one.1.now }
    ensures ok { OnOk result ((text : List ℕ) × IsStyled forests.now style.now (one.entry.0, one.entry.1.now) budget.old.bytes budget.new.bytes text × (string_bytes out.new ≡ string_bytes out.old ++ text)) }
{
    let path = path_text(alloc, forests, steps, style.numbered)?;
    let values = values_of(alloc, forests, one.1, style, budget)?;
    put_line(out, &path, &values, style, one.0)
}

/// That there are more lines, unless these are all.
fn put_more(out: &mut String, whole: bool) -> Result<(), AllocError>
    ensures ok { OnOk result (string_bytes out.new ≡ string_bytes out.old ++ more_text whole) }
{
    if !whole {
        out.push_str(MORE)?;
    }
    Ok(())
}

/// The lines of the places in documents.
fn put_lines(
    alloc: Global,
    out: &mut String,
    forests: &RankedForests<'_>,
    list: &[Conflict],
    paths: &[Vec<Shown>],
    style: &Style,
) -> Result<(), AllocError>
    requires paths { map (λ path. path.items) paths.now ≡ map steps_of list.now }
    ensures ok { OnOk result ((text : List ℕ) × AreLines (IsStyled forests.now style.now) (enumerate_from 0 list.now) budget text × (string_bytes out.new ≡ string_bytes out.old ++ text)) }
{
    let mut budget = Budget::new();
    'list: for (number, one) in list.iter().enumerate() {
        let steps = path_at(paths, number);
        put_conflict(
            alloc,
            out,
            forests,
            (number, one),
            steps,
            style,
            &mut budget,
        )?;
    }
    Ok(())
}

/// Whether paths have the number of the document: unless each stream has one.
fn is_numbered(roots: &Roots<'_>) -> bool
    ensures { result ≡ is_numbered roots.now }
{
    !(roots.base.len() == 1
        && (roots.ours.len() == 1 && (roots.theirs.len() == 1 && roots.merge.len() == 1)))
}

/// The bytes of the base, of ours, of theirs and of the result, if it is given.
#[derive(Clone, Copy)]
pub(crate) struct Sources<'b> {
    pub(crate) base: &'b [u8],
    pub(crate) ours: &'b [u8],
    pub(crate) theirs: &'b [u8],
    pub(crate) result: Option<&'b [u8]>,
}

/// Adds where the nodes of the result are, if there is one.
fn add_result(
    alloc: Global,
    forests: &RankedForests<'_>,
    roots: &[NodeId],
    bytes: Option<&[u8]>,
    paths: &[Vec<Shown>],
    seats: &mut Vec<Seats>,
) -> Result<(), Fault>
    ensures { OnOk result ((more : List Seats) × Each (HasSeats forests.now (map (λ path. path.items) paths.now)) (result_side roots.now (option_map (λ it. it.now) bytes.entry)) more × (seats.new.items ≡ seats.old.items ++ more)) }
{
    match bytes {
        Some(bytes) => {
            let one = seats_of(alloc, forests, roots, bytes, paths)?;
            seats.push(one)?;
            Ok(())
        }
        None => Ok(()),
    }
}

/// Where the nodes of each side are, by the paths that lead to them.
fn all_seats(
    alloc: Global,
    forests: &RankedForests<'_>,
    roots: &Roots<'_>,
    sources: Sources<'_>,
    paths: &[Vec<Shown>],
) -> Result<Vec<Seats>, Fault>
    ensures { IfOk result (λ seats. Each (HasSeats forests.now (map (λ path. path.items) paths.now)) (sides_in roots.now sources.entry) seats.items) }
{
    let mut seats = Vec::new(alloc);
    let base = seats_of(alloc, forests, roots.base, sources.base, paths)?;
    seats.push(base)?;
    let ours = seats_of(alloc, forests, roots.ours, sources.ours, paths)?;
    seats.push(ours)?;
    let theirs = seats_of(alloc, forests, roots.theirs, sources.theirs, paths)?;
    seats.push(theirs)?;
    add_result(
        alloc,
        forests,
        roots.merge,
        sources.result,
        paths,
        &mut seats,
    )?;
    Ok(seats)
}

/// The same, if places are asked for.
fn seats_if(
    alloc: Global,
    forests: &RankedForests<'_>,
    roots: &Roots<'_>,
    sources: Sources<'_>,
    paths: &[Vec<Shown>],
    places: bool,
) -> Result<Vec<Seats>, Fault>
    ensures { IfOk result (λ seats. HasAsked places forests.now (map (λ path. path.items) paths.now) (sides_in roots.now sources.entry) seats.items) }
{
    if places {
        return all_seats(alloc, forests, roots, sources, paths);
    }
    Ok(Vec::new(alloc))
}

/// A style of these parts.
fn style_of(given: bool, numbered: bool, print: Print, seats: Vec<Seats>) -> Style
    ensures given { result.given ≡ given }
    ensures numbered { result.numbered ≡ numbered }
    ensures print { result.print ≡ print }
    ensures seats { result.seats.items ≡ seats.items }
{
    Style {
        given,
        numbered,
        print,
        seats,
    }
}

/// The lines of the places at which something was found, and `...` if they are not all.
fn list_text(
    alloc: Global,
    forests: &RankedForests<'_>,
    roots: &Roots<'_>,
    list: &[Conflict],
    whole: bool,
    sources: Sources<'_>,
    print: Print,
) -> Result<String, Fault>
    ensures { IfOk result (λ out. IsListText forests.now print (is_some sources.entry.result) (is_numbered roots.now) (sides_in roots.now sources.entry) list.now whole (string_bytes out)) }
{
    let mut out = String::new(alloc);
    if list.len() == 0 {
        return Ok(out);
    }
    let paths = paths_of(alloc, list)?;
    let seats = seats_if(alloc, forests, roots, sources, &paths, print.places)?;
    let given = sources.result.is_some();
    let style = style_of(given, is_numbered(roots), print, seats);
    put_lines(alloc, &mut out, forests, list, &paths, &style)?;
    put_more(&mut out, whole)?;
    Ok(out)
}

/// The lines of what was found.
pub(crate) fn text_of(
    alloc: Global,
    forests: &RankedForests<'_>,
    roots: &Roots<'_>,
    outcome: &Outcome,
    sources: Sources<'_>,
    print: Print,
) -> Result<String, Fault>
    ensures { IfOk result (λ out. IsOutcomeText forests.now print (is_some sources.entry.result) roots.now (sides_in roots.now sources.entry) outcome.now (string_bytes out)) }
{
    match outcome {
        Outcome::Streams => {
            let mut out = String::new(alloc);
            put_streams(&mut out, roots, sources.result.is_some(), print.color)?;
            Ok(out)
        }
        Outcome::Documents(found) => {
            let list = &found.list;
            list_text(alloc, forests, roots, list, found.whole, sources, print)
        }
    }
}

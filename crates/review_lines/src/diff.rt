//! Where two streams differ, as lines.
ghost use Rattle.std.specs.Prelude.{◌≡◌, ◌↔◌, ◌<◌, ◌≤◌, ◌&&◌, ◌==◌, ◌++◌, ◌-◌, true, false, not, length, map, take, drop, [], string_bytes, OnOk, IfOk};
ghost use Rattle.std.specs.List.{sum_by};
ghost use Rattle.yaml_definitions.specs.model.Same.{Alike};
ghost use Rattle.yaml_store_rank.specs.Forests.{documents_of, tree};
ghost use Rattle.yaml_diff.specs.Lines.{way_of};
ghost use Rattle.review_lines.specs.Lines.{lines_text};
ghost use Rattle.review_lines.specs.Stat.{stat_text};
ghost use Rattle.review_lines.specs.Compared.{room_of, is_numbered, has_left, has_right, path_as, ShowsNode, ShowsBoth, ShowsApart, TellsApart, IsAscii, are_alike, is_line, with_lines, left_out_of, TellsMembers, TellsOne, TellsEach, TellsDifferences, TellsFound, TellsAsked, TellsStreams};

use crate::lines::{Line, put_rest};
use crate::moved::{MoveLines, lines_of_moves};
use crate::nodes::{Places, find_places, place_at};
use crate::search::{lists_none, searched};
use crate::stat::stat_text;
use crate::strings::{Budget, changed_lines, differing_parts};
use review_folds::{counts, kept};
use review_formats::LeftOut;
use review_paths::{Members, members_of, pasted};
use review_patterns::Pattern;
use review_places::trace::Traced;
use review_text::alike::{ascii_text, look_alike};
use review_text::options::{Diff, Form, Paths};
use review_text::path::path_text;
use review_text::text::{CUT, WHOLE, node_text};
use std::alloc::{AllocError, Global};
use yaml_diff::{Difference, Found};
use yaml_path::Place;
use yaml_store_rank::RankedForests;
use yaml_tree::node::NodeId;

/// The text of a node, if there is one.
fn shown(
    alloc: Global,
    forests: &RankedForests<'_>,
    id: Option<NodeId>,
    room: usize,
) -> Result<Option<String>, AllocError>
    ensures ok { IfOk result (ShowsNode forests.now room id) }
{
    match id {
        Some(id) => Ok(Some(node_text(alloc, forests, id, room)?)),
        None => Ok(None),
    }
}

/// What is shown of two nodes.
#[derive(Drop)]
struct Texts {
    left: Option<String>,
    right: Option<String>,
}

impl Texts {
    ghost use Rattle.std.specs.Prelude.{◌≡◌, true};
    ghost use Rattle.review_lines.specs.Compared.{SameTexts};

    /// Whether both sides show the same.
    fn is_one(&self) -> bool
        ensures { (result ≡ true) → SameTexts self.now.left self.now.right }
    {
        match (&self.left, &self.right) {
            (Some(left), Some(right)) => left.as_str() == right.as_str(),
            _ => false,
        }
    }
}

/// The texts of both nodes as far as there is room.
fn fronts(
    alloc: Global,
    forests: &RankedForests<'_>,
    difference: &Difference,
    room: usize,
) -> Result<Texts, AllocError>
    ensures left { IfOk result (λ s. ShowsNode forests.now room difference.now.left s.left) }
    ensures right { IfOk result (λ s. ShowsNode forests.now room difference.now.right s.right) }
{
    Ok(Texts {
        left: shown(alloc, forests, difference.left, room)?,
        right: shown(alloc, forests, difference.right, room)?,
    })
}

/// What is shown of both nodes: their texts as far as there is room or, where these are the same, the parts where they differ.
#[tactic(auto, using(crate::proofs::StringLaws::both_shown, crate::proofs::StringLaws::parts_shown))]
fn shown_both(
    alloc: Global,
    forests: &RankedForests<'_>,
    difference: &Difference,
    room: usize,
    budget: &mut Budget,
) -> Result<Texts, AllocError>
    ensures ok { IfOk result (λ s. ShowsBoth forests.now room difference.now s.left s.right) }
{
    let texts = fronts(alloc, forests, difference, room)?;
    if !texts.is_one() {
        return Ok(texts);
    }
    match differing_parts(alloc, forests, difference, room, budget)? {
        Some((left, right)) => Ok(Texts {
            left: Some(left),
            right: Some(right),
        }),
        None => Ok(texts),
    }
}

/// Whether both sides have a text, and these look the same.
fn are_alike(alloc: Global, texts: &Texts) -> Result<bool, AllocError>
    ensures ok { IfOk result (λ answer. answer ≡ are_alike texts.now.left texts.now.right) }
{
    let Some(left) = &texts.left else {
        return Ok(false);
    };
    let Some(right) = &texts.right else {
        return Ok(false);
    };
    look_alike(alloc, left.as_str(), right.as_str())
}

/// The text of a side with an escape for each character outside ASCII.
fn in_ascii(alloc: Global, text: &Option<String>) -> Result<Option<String>, AllocError>
    ensures ok { IfOk result (λ s. IsAscii text.now s) }
{
    match text {
        Some(text) => Ok(Some(ascii_text(alloc, text.as_str())?)),
        None => Ok(None),
    }
}

/// Two texts, both with escapes where they would look the same.
#[tactic(auto, using(crate::proofs::StringLaws::as_they_are, crate::proofs::StringLaws::in_escapes))]
fn told_apart(alloc: Global, texts: Texts) -> Result<Texts, AllocError>
    ensures ok { IfOk result (λ s. TellsApart (are_alike texts.left texts.right) texts.left texts.right s.left s.right) }
{
    if !are_alike(alloc, &texts)? {
        return Ok(texts);
    }
    Ok(Texts {
        left: in_ascii(alloc, &texts.left)?,
        right: in_ascii(alloc, &texts.right)?,
    })
}

/// What is shown of both nodes, with escapes where they would look the same.
#[tactic(auto, using(crate::proofs::StringLaws::apart_shown))]
fn shown_apart(
    alloc: Global,
    forests: &RankedForests<'_>,
    difference: &Difference,
    room: usize,
    budget: &mut Budget,
) -> Result<Texts, AllocError>
    ensures ok { IfOk result (λ s. ShowsApart forests.now room difference.now s.left s.right) }
{
    let texts = shown_both(alloc, forests, difference, room, budget)?;
    told_apart(alloc, texts)
}

/// Whether paths tell the number of the document: unless each side has one document.
pub(crate) fn is_numbered(forests: &RankedForests<'_>) -> bool
    ensures { result ≡ is_numbered forests.now }
{
    !(forests.documents(0).len() == 1 && forests.documents(1).len() == 1)
}

/// Whether the left side has a node: unless only the right one has. Where a pair of items moved, both have.
fn has_left(difference: &Difference) -> bool
    ensures { result ≡ has_left difference.now.left difference.now.right }
{
    match (difference.left, difference.right) {
        (None, Some(_)) => false,
        _ => true,
    }
}

/// The same of the right side.
fn has_right(difference: &Difference) -> bool
    ensures { result ≡ has_right difference.now.left difference.now.right }
{
    match (difference.left, difference.right) {
        (Some(_), None) => false,
        _ => true,
    }
}

/// The path of a difference in the form that is asked for.
fn path_of(
    alloc: Global,
    forests: &RankedForests<'_>,
    difference: &Difference,
    paths: Paths,
) -> Result<String, AllocError>
    ensures ok { IfOk result (λ s. string_bytes s ≡ path_as paths (is_numbered forests.now) difference.now.left difference.now.right (way_of forests.now difference.now.path.items)) }
{
    let numbered = is_numbered(forests);
    let path = &difference.path;
    let (left, right) = (has_left(difference), has_right(difference));
    match paths {
        Paths::Plain => path_text(alloc, forests, path, numbered),
        Paths::Jq => pasted(alloc, forests, path, numbered, true, left, right),
        Paths::JsonPointer => pasted(alloc, forests, path, numbered, false, left, right),
    }
}

/// What a program reads of a difference, where JSON is written.
pub(crate) fn members_in(
    alloc: Global,
    forests: &RankedForests<'_>,
    difference: &Difference,
    form: Form,
    budget: &mut Budget,
) -> Result<Option<Members>, AllocError>
    ensures ok { IfOk result (TellsMembers form forests.now difference.now) }
{
    match form {
        Form::Line => Ok(None),
        Form::Json => Ok(Some(members_of(alloc, forests, difference, &mut budget.values)?)),
    }
}

/// The line of a difference, with these places of its nodes, which tells so many differences.
#[tactic(auto, using(crate::proofs::StringLaws::one_told))]
fn line_of(
    alloc: Global,
    forests: &RankedForests<'_>,
    difference: &Difference,
    asked: &Diff<'_>,
    places: (Option<Place>, Option<Place>),
    count: usize,
    budget: &mut Budget,
) -> Result<Line, AllocError>
    ensures one { IfOk result (TellsOne forests.now asked.now difference.now) }
    ensures count { IfOk result (λ line. line.count ≡ count) }
{
    let path = path_of(alloc, forests, difference, asked.paths)?;
    let nodes = shown_apart(alloc, forests, difference, room_of(asked.whole), budget)?;
    let lines = changed_lines(alloc, forests, difference, asked, budget)?;
    let members = members_in(alloc, forests, difference, asked.form, budget)?;
    Ok(Line {
        path,
        label: None,
        left: nodes.left,
        right: nodes.right,
        left_place: places.0,
        right_place: places.1,
        changes: lines,
        members,
        count,
    })
}

/// The lines of the first differences, at most so many of those that have a line, with how many each tells.
fn lines_with(
    alloc: Global,
    forests: &RankedForests<'_>,
    list: &[Difference],
    asked: &Diff<'_>,
    places: &Places,
    counts: &[usize],
) -> Result<Vec<Line>, AllocError>
    requires level { length counts.now ≡ length list.now }
    ensures ok { IfOk result (λ lines. TellsEach forests.now asked.now (take asked.now.lines (with_lines list.now counts.now)) lines.items) }
{
    let mut lines = Vec::new(alloc);
    let mut budget = Budget::new();
    for (number, difference) in list.iter().enumerate() {
        let count = counts[number];
        if count > 0 && lines.len() < asked.lines {
            let at = (
                place_at(asked, &places.left, number),
                place_at(asked, &places.right, number),
            );
            lines.push(line_of(alloc, forests, difference, asked, at, count, &mut budget)?)?;
        }
    }
    Ok(lines)
}

/// The lines of differences, as many as are asked for. But for JSON, of those of the same cause one tells all, if that is asked for.
#[tactic(auto, using(crate::proofs::CompareLaws::differences_told))]
pub(crate) fn lines_of(
    alloc: Global,
    forests: &RankedForests<'_>,
    list: &[Difference],
    asked: &Diff<'_>,
    columns: bool,
    sides: Option<(Traced<'_>, Traced<'_>)>,
) -> Result<Vec<Line>, AllocError>
    ensures ok { IfOk result (λ lines. TellsDifferences columns forests.now asked.now list.now lines.items) }
{
    let folds = columns && asked.folds;
    let sides = if list.is_empty() { None } else { sides };
    // Places of other differences are used only to fold.
    let placed = if folds {
        list
    } else {
        list.get(..asked.lines).unwrap_or(list)
    };
    let places = find_places(alloc, forests, placed, sides, asked.lines)?;
    let counts = counts(alloc, folds, list, &places.causes)?;
    lines_with(alloc, forests, list, asked, &places, &counts)
}

/// How many differences no line tells.
fn untold(list: &[Difference], lines: &[Line]) -> usize
    ensures { result ≡ length list.now - sum_by (λ line. line.count) lines.now }
{
    let mut count = list.len();
    for line in lines {
        count = count.saturating_sub(line.count);
    }
    count
}

/// What lines leave out of what was found.
pub(crate) fn left_out(found: &Found, lines: &[Line], moves: &MoveLines) -> LeftOut
    ensures { result ≡ left_out_of found.now lines.now moves.now.untold }
{
    LeftOut {
        differences: untold(&found.list, lines),
        moves: moves.untold,
        whole: found.whole,
    }
}

/// Lines as text.
fn put_each(
    alloc: Global,
    text: &mut String,
    lines: &[Line],
    asked: &Diff<'_>,
) -> Result<(), AllocError>
    ensures ok { OnOk result (string_bytes text.new ≡ string_bytes text.old ++ lines_text asked.now lines.now) }
{
    for line in lines {
        line.put(alloc, text, asked)?;
    }
    Ok(())
}

/// How many bytes of a node are shown.
pub(crate) fn room_of(whole: bool) -> usize
    ensures { result ≡ room_of whole }
{
    if whole { WHOLE } else { CUT }
}

/// Whether differences and moves are in columns.
fn is_line(form: Form) -> bool
    ensures { result ≡ is_line form }
{
    match form {
        Form::Line => true,
        Form::Json => false,
    }
}

/// The lines of differences and moves as text.
fn text_of(
    alloc: Global,
    forests: &RankedForests<'_>,
    asked: &Diff<'_>,
    sides: Option<(Traced<'_>, Traced<'_>)>,
    found: &Found,
) -> Result<String, AllocError>
    ensures ok { IfOk result (λ text. TellsFound forests.now asked.now found.now (string_bytes text)) }
{
    let columns = is_line(asked.form);
    let lines = lines_of(alloc, forests, &found.list, asked, columns, sides)?;
    let room = asked.lines.saturating_sub(lines.len());
    let moves = lines_of_moves(alloc, forests, asked, sides, found, room, columns)?;
    let mut text = String::new(alloc);
    put_each(alloc, &mut text, &lines, asked)?;
    put_each(alloc, &mut text, &moves.lines, asked)?;
    put_rest(&mut text, asked.form, left_out(found, &lines, &moves))?;
    Ok(text)
}

/// The same, and no text where no line is asked for.
#[tactic(auto, using(crate::proofs::CompareLaws::asked_none, crate::proofs::CompareLaws::asked_some))]
fn asked_text(
    alloc: Global,
    forests: &RankedForests<'_>,
    asked: &Diff<'_>,
    sides: Option<(Traced<'_>, Traced<'_>)>,
    found: &Found,
) -> Result<String, AllocError>
    ensures ok { IfOk result (λ text. TellsAsked asked.now.lines forests.now asked.now found.now (string_bytes text)) }
{
    if asked.lines == 0 {
        return Ok(String::new(alloc));
    }
    text_of(alloc, forests, asked, sides, found)
}

/// The same, or how many differences of each kind there are.
fn told_text(
    alloc: Global,
    forests: &RankedForests<'_>,
    asked: &Diff<'_>,
    sides: Option<(Traced<'_>, Traced<'_>)>,
    found: &Found,
) -> Result<String, AllocError>
    ensures lines { IfOk result (λ text. asked.now.stat ≡ false → TellsAsked asked.now.lines forests.now asked.now found.now (string_bytes text)) }
    ensures counts { IfOk result (λ text. asked.now.stat ≡ true → string_bytes text ≡ stat_text asked.now found.now) }
{
    if asked.stat {
        return stat_text(alloc, asked, found);
    }
    asked_text(alloc, forests, asked, sides, found)
}

/// What a comparison tells: its lines, and whether no difference is told.
#[derive(Drop)]
pub struct Compared {
    pub text: String,
    pub same: bool,
}

/// The lines of the differences and moves of the first two streams, but for those that are at or below a path that one of the
/// patterns matches, and whether there are none. Without patterns this is so if the streams have equally many documents, pairwise the same.
/// Places are told where both sides are given with their traces.
pub fn compare(
    alloc: Global,
    forests: &RankedForests<'_>,
    asked: &Diff<'_>,
    ignored: &[Pattern<'_>],
    sides: Option<(Traced<'_>, Traced<'_>)>,
) -> Result<Compared, AllocError>
    ensures text { IfOk result (λ told. TellsStreams forests.now asked.now ignored.now told.same (string_bytes told.text)) }
    ensures same { IfOk result (λ told. ignored.now ≡ [] → ((told.same ≡ true) ↔ Alike (map (tree forests.now) (documents_of forests.now 0)) (map (tree forests.now) (documents_of forests.now 1)))) }
{
    forests.laws();
    let found = searched(alloc, forests, asked, ignored)?;
    let kept = kept(alloc, forests, ignored, found)?;
    let same = lists_none(&kept);
    let text = told_text(alloc, forests, asked, sides, &kept)?;
    Ok(Compared { text, same })
}

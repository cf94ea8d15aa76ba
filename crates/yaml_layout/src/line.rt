//! Comments, separation and the starts of lines (YAML 1.2.2, chapter 6).
ghost use Rattle.std.specs.Prelude.{◌≡◌, ◌≢◌, ◌≤◌, ◌⊎◌, IfSome, IfNone, IfOk, IfErr, ℕ, length, false};
ghost use Rattle.std.specs.Bool.{OnTrue, OnFalse};
ghost use Rattle.yaml_text.specs.Source.{text_of, place_of, IsBorder};
ghost use Rattle.yaml_text.specs.EventModel.{context_of};
ghost use Rattle.yaml_definitions.specs.grammar.Rules.{any_span};
ghost use Rattle.yaml_definitions.specs.grammar.Separation.{s-l-comments as s_l_comments, l-comment as l_comment};
ghost use Rattle.yaml_text.specs.Lines.{AfterLine, Inside, is_key};
ghost use Rattle.yaml_text.specs.Lines.{LooksLikeMarker};
ghost use Rattle.yaml_text.specs.LeafAnswer.{IsRefusal};
ghost use Rattle.yaml_text.specs.Placed.{IsPlaced};
ghost use Rattle.yaml_layout.specs.Lines.{IsLine, LeadsTo, NothingFollows};

use yaml_mark::comments;
use yaml_mark::starts::begins_text;
use yaml_text::chars::Chars;
use yaml_text::class::is_key;
use yaml_text::context::Ctx;
use yaml_text::fault::Fault;
use yaml_text::lines::{end_line, is_mark, skip_comment_lines, skip_spaces, unusable};
use yaml_text::places::is_end;

/// A line that is no comment, or the end of the text: its start, how many spaces it begins with, and the border after them.
#[derive(Clone, Copy)]
pub struct Line {
    pub start: usize,
    pub column: usize,
    pub first: usize,
}

/// The line that starts at a border, and is no comment.
#[inline(never)]
pub fn line_at(source: &Chars<'_>, start: usize) -> Line
    requires border { IsBorder source.now start }
    requires stuck { (j : ℕ) → l_comment (text_of source.now) (place_of source.now start) j → ⊥ }
    ensures line { IsLine source.now result }
    ensures start { result.start ≡ start }
{
    let (column, first) = skip_spaces(source, start);
    Line {
        start,
        column,
        first,
    }
}

/// The first line of a text.
pub fn first_line(source: &Chars<'_>) -> Line
    ensures line { IsLine source.now result }
    ensures comments { any_span (l_comment (text_of source.now)) 0 (place_of source.now result.start) }
    ensures after { AfterLine (text_of source.now) (place_of source.now result.start) }
{
    let start = skip_comment_lines(source, 0);
    line_at(source, start)
}

/// Whether a line has content: it is no document mark and not the end.
#[inline]
pub fn has_content(source: &Chars<'_>, line: Line) -> bool
    requires { IsLine source.now line }
    ensures yes { OnTrue result ((place_of source.now line.first ≢ length (text_of source.now)) × (LooksLikeMarker (text_of source.now) (place_of source.now line.start) → ⊥)) }
    ensures no { OnFalse result ((place_of source.now line.first ≡ length (text_of source.now)) ⊎ LooksLikeMarker (text_of source.now) (place_of source.now line.start)) }
{
    if is_end(source, line.first) {
        return false;
    }
    if line.column > 0 {
        // a mark stands at the start of its line
        return true;
    }
    !is_mark(source, line.start)
}

/// The same as `skip_line_rest`, out of line.
#[inline(never)]
#[tactic(auto, unfolding(yaml_text::specs::Calls::skip_comments))]
fn skip_rest(source: &Chars<'_>, at: usize) -> Option<usize>
    requires { IsBorder source.now at }
    ensures border { IfSome result (λ to. IsBorder source.now to) }
    ensures onward { IfSome result (λ to. at ≤ to) }
    ensures some { IfSome result (λ to. s_l_comments (text_of source.now) (place_of source.now at) (place_of source.now to)) }
    ensures stuck { IfSome result (λ to. (j : ℕ) → l_comment (text_of source.now) (place_of source.now to) j → ⊥) }
    ensures none { IfNone result ((j : ℕ) → s_l_comments (text_of source.now) (place_of source.now at) j → ⊥) }
{
    comments::skip_comments(source, at)
}

/// The start of the line after the rest of a line and any comment lines (`s-l-comments`, 6.6), the furthest that there is.
#[inline(always)]
pub fn skip_line_rest(source: &Chars<'_>, at: usize) -> Option<usize>
    requires { IsBorder source.now at }
    ensures border { IfSome result (λ to. IsBorder source.now to) }
    ensures onward { IfSome result (λ to. at ≤ to) }
    ensures some { IfSome result (λ to. s_l_comments (text_of source.now) (place_of source.now at) (place_of source.now to)) }
    ensures stuck { IfSome result (λ to. (j : ℕ) → l_comment (text_of source.now) (place_of source.now to) j → ⊥) }
    ensures none { IfNone result ((j : ℕ) → s_l_comments (text_of source.now) (place_of source.now at) j → ⊥) }
{
    if comments::has_text(source, at) {
        return None;
    }
    skip_rest(source, at)
}

/// The line right below a node's last character, if the line ends there and text stands on the one below, as most often.
#[inline(always)]
fn text_below(source: &Chars<'_>, at: usize) -> Option<Line>
    requires { IsBorder source.now at }
    ensures line { IfSome result (IsLine source.now) }
    ensures onward { IfSome result (λ line. at ≤ line.start) }
    ensures comments { IfSome result (λ line. s_l_comments (text_of source.now) (place_of source.now at) (place_of source.now line.start)) }
{
    if comments::is_cut(source, at) {
        return None;
    }
    match end_line(source, at) {
        None => None,
        Some(start) => {
            let (spaces, first) = skip_spaces(source, start);
            if !begins_text(source, first) {
                return None;
            }
            Some(Line {
                start,
                column: spaces,
                first,
            })
        }
    }
}

/// The line after a block node's last character.
#[inline(never)]
pub fn next_line(source: &Chars<'_>, at: usize) -> Result<Line, Fault>
    requires { IsBorder source.now at }
    ensures line { IfOk result (IsLine source.now) }
    ensures onward { IfOk result (λ line. at ≤ line.start) }
    ensures comments { IfOk result (λ line. s_l_comments (text_of source.now) (place_of source.now at) (place_of source.now line.start)) }
    ensures err { IfErr result IsRefusal }
    ensures none { IfErr result (λ _. (j : ℕ) → s_l_comments (text_of source.now) (place_of source.now at) j → ⊥) }
    ensures placed { IfErr result (IsPlaced source.now) }
{
    if let Some(line) = text_below(source, at) {
        return Ok(line);
    }
    match skip_rest(source, at) {
        Some(start) => Ok(line_at(source, start)),
        None => {
            let (_, first) = skip_spaces(source, at);
            Err(unusable(source, first))
        }
    }
}

/// The border after the separation inside a flow collection (6.7), as much as there is: where content goes on, if it does.
#[inline(always)]
pub fn separation(source: &Chars<'_>, at: usize, least: usize, context: Ctx) -> Result<usize, Fault>
    requires { IsBorder source.now at }
    ensures leads { IfOk result (LeadsTo source.now at least (context_of context)) }
    ensures err { IfErr result IsRefusal }
    ensures lines { IfErr result (λ _. is_key (context_of context) ≡ false) }
    ensures none { IfErr result (λ _. Inside (text_of source.now) (place_of source.now at) → NothingFollows source.now at least (context_of context)) }
    ensures placed { IfErr result (IsPlaced source.now) }
{
    if is_key(context) {
        let (_, end) = skip_spaces(source, at);
        return Ok(end);
    }
    match skip_line_rest(source, at) {
        None => {
            let (_, end) = skip_spaces(source, at);
            Ok(end)
        }
        Some(start) => {
            let line = line_at(source, start);
            if is_mark(source, start) {
                Err(Fault::Syntax(source.pos(start)))
            } else if line.column < least {
                Err(unusable(source, line.first))
            } else if is_end(source, line.first) {
                Err(unusable(source, line.first))
            } else {
                Ok(line.first)
            }
        }
    }
}

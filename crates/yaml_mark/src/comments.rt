//! Comments and the ends of lines (YAML 1.2.2, 6.6).
ghost use Rattle.std.specs.Prelude.{◌≡◌, ◌≤◌, ◌⊎◌, IfSome, IfNone, Some, slice_get, ℕ};
ghost use Rattle.std.specs.Bool.{OnTrue, OnFalse};
ghost use Rattle.yaml_text.specs.Source.{text_of, place_of, IsBorder};
ghost use Rattle.yaml_text.specs.Calls as calls;
ghost use Rattle.yaml_definitions.specs.grammar.Separation.{s-l-comments as s_l_comments, l-comment as l_comment, StartsLine, AtEnd};
ghost use Rattle.yaml_text.specs.Lines.{Uncut};
ghost use Rattle.yaml_definitions.specs.grammar.Characters.{b-line-feed};

use crate::starts::begins_text;
use yaml_text::chars::Chars;
use yaml_text::lines::{skip_blank, skip_comment_lines, starts_line};
use yaml_text::places::{accept, is_border};

/// Whether a border cuts a CR LF in two.
#[inline]
pub fn is_cut(source: &Chars<'_>, at: usize) -> bool
    requires { IsBorder source.now at }
    ensures yes { OnTrue result (Uncut (text_of source.now) (place_of source.now at) → ⊥) }
    ensures feed { OnTrue result (slice_get (text_of source.now) (place_of source.now at) ≡ Some b-line-feed) }
    ensures no { OnFalse result (Uncut (text_of source.now) (place_of source.now at)) }
{
    match accept(source, at, '\n') {
        None => false,
        Some(_) => {
            if at == 0 {
                return false;
            }
            if !is_border(source, at - 1) {
                return false;
            }
            match accept(source, at - 1, '\r') {
                None => false,
                Some(_) => true,
            }
        }
    }
}

/// Whether text surely stands on the rest of a line that has begun, at once or after a space, as most values do after their
/// colons.
#[inline(always)]
pub fn has_text(source: &Chars<'_>, at: usize) -> bool
    requires { IsBorder source.now at }
    ensures { OnTrue result ((j : ℕ) → s_l_comments (text_of source.now) (place_of source.now at) j → ⊥) }
{
    if starts_line(source, at) {
        return false;
    }
    if begins_text(source, at) {
        return true;
    }
    match accept(source, at, ' ') {
        None => false,
        Some(to) => begins_text(source, to),
    }
}

/// The border after the rest of a line without content and the comment lines that follow it (`s-l-comments`), the furthest
/// that there is.
///
/// None where content stands on the rest of the line, unless a line starts at `at`. Offsets count bytes of the text.
pub fn skip_comments(source: &Chars<'_>, at: usize) -> Option<usize>
    requires { IsBorder source.now at }
    ensures border { IfSome result (λ to. IsBorder source.now to) }
    ensures onward { IfSome result (λ to. at ≤ to) }
    ensures line { IfSome result (λ to. StartsLine (text_of source.now) (place_of source.now to) ⊎ AtEnd (text_of source.now) (place_of source.now to)) }
    ensures stuck { IfSome result (λ to. (j : ℕ) → l_comment (text_of source.now) (place_of source.now to) j → ⊥) }
    ensures some { IfSome result (λ to. calls.skip_comments (text_of source.now) (place_of source.now at) (place_of source.now to)) }
    ensures none { IfNone result ((j : ℕ) → s_l_comments (text_of source.now) (place_of source.now at) j → ⊥) }
{
    if starts_line(source, at) {
        return Some(skip_comment_lines(source, at));
    }
    match accept(source, at, '#') {
        Some(_) => None,
        None => {
            if is_cut(source, at) {
                return None;
            }
            match skip_blank(source, at) {
                None => None,
                Some(line) => Some(skip_comment_lines(source, line)),
            }
        }
    }
}

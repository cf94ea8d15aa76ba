//! The comment lines after a block scalar.
ghost use Rattle.std.specs.Prelude.{◌≤◌};
ghost use Rattle.yaml_text.specs.Source.{text_of, place_of, IsBorder};
ghost use Rattle.yaml_definitions.specs.grammar.Rules.{maybe, furthest_span};
ghost use Rattle.yaml_definitions.specs.grammar.BlockScalars.{l-trail-comments as comment_lines};

use crate::line::read_spaces;
use yaml_text::chars::Chars;
use yaml_text::lines::{read_comment, skip_comment_lines};

/// The border after the comment lines that stand after a block scalar.
pub fn trailing_comments(source: &Chars<'_>, at: usize, indent: usize) -> usize
    requires { IsBorder source.now at }
    ensures border { IsBorder source.now result }
    ensures onward { at ≤ result }
    ensures lines { furthest_span (maybe (comment_lines (text_of source.now) indent)) (place_of source.now at) (place_of source.now result) }
{
    let (count, from) = read_spaces(source, at, indent);
    if count == indent {
        return at;
    }
    match read_comment(source, from) {
        None => at,
        Some(after) => skip_comment_lines(source, after),
    }
}

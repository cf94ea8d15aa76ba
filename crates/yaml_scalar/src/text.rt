//! Texts that are put together.
ghost use Rattle.std.specs.Prelude.{◌≡◌, ◌≤◌, ◌++◌, IfOk, slice_range, replicate};
ghost use Rattle.std.specs.Str.{chars};
ghost use Rattle.std.specs.String.{string_bytes};
ghost use Rattle.yaml_text.specs.Source.{text_of, place_of, IsBorder};
ghost use Rattle.yaml_definitions.specs.grammar.FlowScalars.{line_feeds};
ghost use Rattle.yaml_scalar.specs.Chains.{folded_breaks};

use std::alloc::AllocError;
use yaml_text::chars::Chars;
use yaml_text::places::text_between;

/// Puts so many LFs at the end of a text.
pub fn push_lines(text: &mut String, count: usize) -> Result<(), AllocError>
    ensures { IfOk result (λ _. chars (string_bytes text.new) ≡ chars (string_bytes text.old) ++ line_feeds count) }
{
    for done in 0..count {
        text.push('\n')?;
    }
    Ok(())
}

/// Puts one space, or an LF for each empty line of a fold, at the end of a text.
pub fn push_fold(text: &mut String, count: usize) -> Result<(), AllocError>
    ensures { IfOk result (λ _. chars (string_bytes text.new) ≡ chars (string_bytes text.old) ++ folded_breaks (line_feeds count)) }
{
    if count == 0 {
        text.push(' ')
    } else {
        push_lines(text, count)
    }
}

/// Puts what stands between two borders at the end of a text.
pub fn push_between(
    text: &mut String,
    source: &Chars<'_>,
    from: usize,
    to: usize,
) -> Result<(), AllocError>
    requires from { IsBorder source.now from }
    requires to { IsBorder source.now to }
    requires order { from ≤ to }
    ensures { IfOk result (λ _. chars (string_bytes text.new) ≡ chars (string_bytes text.old)
        ++ slice_range (text_of source.now) (place_of source.now from) (place_of source.now to)) }
{
    text.push_str(text_between(source, from, to))
}

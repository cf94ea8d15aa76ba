//! Which paths a pattern matches.
ghost use Rattle.std.specs.Prelude.{◌≡◌, map, string_bytes};
ghost use Rattle.review_patterns.specs.Patterns.{is_any, fits, covers, is_covered};

use crate::place::has_items;

/// A pattern of paths: the texts of its steps, of which the first one is for the document.
///
/// Each is the text of a step as `diff` prints it, also that of neighbours that moved together, or stands for any step: `.*` and `[*]`,
/// and of the document `*` and no text.
#[derive(Debug, Drop)]
pub struct Pattern<'a> {
    pub steps: Vec<&'a str>,
}

/// Whether a step of a pattern stands for any step.
fn is_any(step: &str) -> bool
    ensures { result ≡ is_any step.now }
{
    matches!(step, "" | "*" | ".*" | "[*]")
}

/// Whether a step of a pattern stands for a step of this text: it stands for any step, has the same text, or has the places of its items.
fn fits(step: &str, text: &str) -> bool
    ensures { result ≡ fits step.now text.now }
{
    is_any(step) || step == text || has_items(step, text)
}

/// Whether steps of a pattern fit those of a path from the first one on. It goes as deep as the path has steps.
fn covers(steps: &[&str], texts: &[String]) -> bool
    ensures { result ≡ covers (map (λ step. step.now) steps.now) (map string_bytes texts.now) }
{
    match steps.split_first() {
        Some((step, steps)) => match texts.split_first() {
            Some((text, texts)) => fits(step, text.as_str()) && covers(steps, texts),
            None => false,
        },
        None => true,
    }
}

impl Pattern<'_> {
    ghost use Rattle.std.specs.Prelude.{◌≡◌, map, string_bytes};
    ghost use Rattle.review_patterns.specs.Patterns.{covers, steps_of};

    /// Whether a path whose steps have these texts is at or below one that the pattern matches.
    pub fn covers(&self, texts: &[String]) -> bool
        ensures { result ≡ covers (steps_of self.now) (map string_bytes texts.now) }
    {
        covers(&self.steps, texts)
    }
}

/// Whether one of the patterns does so.
pub fn is_covered(patterns: &[Pattern<'_>], texts: &[String]) -> bool
    ensures { result ≡ is_covered patterns.now (map string_bytes texts.now) }
{
    patterns.iter().any(|pattern| pattern.covers(texts))
}

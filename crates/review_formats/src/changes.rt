//! The changed lines of two strings, each behind a tab and its sign.
ghost use Rattle.std.specs.Prelude.{◌≡◌};
ghost use Rattle.review_formats.specs.Changes.{without_end, without_tab};

/// The text without the line feed at its end.
pub fn without_end(text: &str) -> &str
    ensures { result.now ≡ without_end text.now }
{
    match text.strip_suffix('\n') {
        Some(front) => front,
        None => text,
    }
}

/// The line without the tab at its beginning.
pub fn without_tab(line: &str) -> &str
    ensures { result.now ≡ without_tab line.now }
{
    match line.strip_prefix('\t') {
        Some(rest) => rest,
        None => line,
    }
}

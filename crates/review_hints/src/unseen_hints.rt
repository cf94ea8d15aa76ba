//! Causes of syntax faults that are not seen: characters that look like a space, or like nothing.
ghost use Rattle.std.specs.Prelude.{◌≡◌, true, IfSome};
ghost use Rattle.review_hints.specs.Hinted.{is_line};

/// What is said of a character that looks like a space, or like nothing.
fn words_of(c: char) -> Option<&'static str>
    ensures { IfSome result (λ words. is_line words.now ≡ true) }
{
    match c {
        '\u{A0}' => Some("has a no-break space (U+00A0): write a space"),
        '\u{3000}' => Some("has an ideographic space (U+3000): write spaces"),
        '\u{200B}' => Some("has a zero-width space (U+200B): remove it"),
        '\u{200C}' | '\u{200D}' | '\u{2060}' => {
            Some("has a character of no width that is no space: remove it")
        }
        '\u{1680}' | '\u{2000}'..='\u{200A}' | '\u{202F}' | '\u{205F}' => {
            Some("has a space of Unicode, which is no space in YAML: write a space")
        }
        _ => None,
    }
}

/// What is at the start of a text that only looks like a space.
fn first_words(text: &str) -> Option<&'static str>
    ensures { IfSome result (λ words. is_line words.now ≡ true) }
{
    let first = text.chars().next()?;
    words_of(first)
}

/// What only looks like a space where a line has one: in its indentation, or after its dash or its colon.
pub fn unseen_words(line: &str) -> Option<&'static str>
    ensures { IfSome result (λ words. is_line words.now ≡ true) }
{
    if let Some(words) = first_words(line.trim_start_matches([' ', '-'])) {
        return Some(words);
    }
    let (_, value) = line.split_once(':')?;
    first_words(value.trim_start_matches(' '))
}

//! Lines above a fault that may be its cause.
use crate::spot::{LINES, indent_of, is_item};
use crate::stray_hints::begins_here;

/// What is looked for above.
#[derive(Clone, Copy)]
pub enum Sought {
    /// A line that begins a here-document.
    Here,
    /// A line that is no comment, and no item that is indented by so many spaces at least.
    Text(usize),
}

impl Sought {
    /// Whether a line is what is looked for.
    fn is(self, line: &str) -> bool {
        match self {
            Sought::Here => begins_here(line),
            Sought::Text(indent) => {
                let text = line.trim();
                let is_dash = is_item(line) && indent <= indent_of(line);
                !text.is_empty() && !text.starts_with('#') && !is_dash
            }
        }
    }
}

/// The offset of the first of the comments at the end of a text that is indented by fewer spaces than these.
pub fn comment_above(text: &str, indent: usize) -> Option<usize> {
    let mut end = text.len();
    let mut found = None;
    for line in text.rsplit('\n') {
        let start = end.saturating_sub(line.len());
        let is_comment = line.trim_start().starts_with('#');
        if !is_comment && !line.trim().is_empty() {
            return found;
        }
        if is_comment && indent_of(line) < indent {
            found = Some(start.saturating_add(indent_of(line)));
        }
        end = start.saturating_sub(1);
    }
    found
}

/// The offset of the first character of the last such line, if it is near.
pub fn find_above(text: &str, sought: Sought) -> Option<usize> {
    let mut end = text.len();
    for (count, line) in text.rsplit('\n').enumerate() {
        if count > LINES {
            return None;
        }
        let start = end.saturating_sub(line.len());
        if sought.is(line) {
            return Some(start.saturating_add(indent_of(line)));
        }
        end = start.saturating_sub(1);
    }
    None
}

//! Lines that belong to no file of YAML: of a diff, a shell, an editor.
ghost use Rattle.std.specs.Prelude.{◌≡◌, true, IfSome};
ghost use Rattle.review_hints.specs.Hinted.{is_line};

use crate::byte_hints::is_name;
use crate::spot::value_of;

/// What a line is that belongs to no file of YAML.
pub fn stray_words(line: &str) -> Option<&'static str>
    ensures { IfSome result (λ words. is_line words.now ≡ true) }
{
    let text = line.trim();
    if is_diff_head(line) {
        Some("is a line of a diff: remove it")
    } else if line.starts_with("+ ") || line.starts_with("+\t") {
        Some("begins with `+`, as in a diff: remove the `+`")
    } else if matches!(text, ":w" | ":q" | ":wq" | ":q!" | ":wq!" | ":x") {
        Some("looks like a command of vi: remove the line")
    } else if text.starts_with("cat <<") || text.starts_with("cat >") {
        Some("looks like a command of a shell: remove the line, and the end of its here-document")
    } else if is_prompt(text) {
        Some("looks like a command at a shell's prompt: remove the line")
    } else {
        None
    }
}

/// Whether a line is an alias alone.
pub fn is_alias(line: &str) -> bool {
    match line.trim().strip_prefix('*') {
        Some(name) => is_name(name),
        None => false,
    }
}

fn is_diff_head(line: &str) -> bool {
    line.starts_with("+++ ") || line.starts_with("@@ -") || line.starts_with("diff --git ")
}

/// Whether a line begins as `$ ` or `user@host:~$`.
fn is_prompt(text: &str) -> bool {
    let word = text.split(' ').next().unwrap_or("");
    let is_host = word.contains('@') && !word.contains(['"', '\'']);
    text.starts_with("$ ") || (is_host && word.ends_with(['$', '#', '%']))
}

/// Whether a line is taken out by a diff, and the line after it put in.
pub fn is_diff(line: &str, behind: &str) -> bool {
    let next = behind.split('\n').nth(1).unwrap_or("");
    line.starts_with("- ") && next.starts_with("+ ")
}

/// Whether the value of a line begins a here-document of a shell, as `<<EOF` does.
pub fn begins_here(line: &str) -> bool {
    let value = value_of(line).trim_end();
    let word = value.rsplit(' ').next().unwrap_or("");
    let Some(word) = word.strip_prefix("<<") else {
        return false;
    };
    let word = word.trim_start_matches(['-', '~', '\'', '"']);
    line.contains(": ") && word.starts_with(|c: char| c.is_alphabetic()) && !word.contains(':')
}

/// Whether a text is such a word as ends a here-document.
pub fn is_here_end(text: &str) -> bool {
    let is_other = |c: char| !(c.is_ascii_uppercase() || c == '_');
    text.len() > 2 && !text.contains(is_other)
}

/// Whether a text is the head of a section of INI or TOML, as `[name]` is.
pub fn is_section(text: &str) -> bool {
    let is_other = |c: char| !(c.is_alphanumeric() || "[]._- ".contains(c));
    text.starts_with('[') && text.ends_with(']') && text.len() > 2 && !text.contains(is_other)
}

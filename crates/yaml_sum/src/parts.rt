//! The parts of a line.
ghost use Rattle.std.specs.Prelude.{◌≡◌, option_map};
ghost use Rattle.yaml_sum.specs.Parts.{cut_last, is_marked, is_white, line_text, pair_of, skip_white, unmarked};

/// A line without the carriage return at its end, if it has one.
pub(crate) fn line_text(line: &[u8]) -> &[u8]
    ensures { result.now ≡ line_text line.now }
{
    match line.split_last() {
        Some((last, rest)) => { if *last == b'\r' { rest } else { line } }
        None => line,
    }
}

/// Whether a byte is a space or a tab.
pub(crate) fn is_white(byte: u8) -> bool
    ensures { result ≡ is_white byte }
{
    byte == b' ' || byte == b'\t'
}

/// A text without the spaces and tabs at its start.
pub(crate) fn skip_white(text: &[u8]) -> &[u8]
    ensures { result.now ≡ skip_white text.now }
{
    let mut at = 0;
    'bytes: while at < text.len() {
        if !is_white(text[at]) {
            return &text[at..];
        }
        at += 1;
    }
    &text[at..]
}

/// A line without the backslash at its start, and whether it has one.
pub(crate) fn unmarked(line: &[u8]) -> (bool, &[u8])
    ensures marked { result.0 ≡ is_marked line.now }
    ensures rest { result.1.now ≡ unmarked line.now }
{
    match line {
        [] => (false, line),
        [first, rest @ ..] => {
            if *first == b'\\' {
                (true, rest)
            } else {
                (false, line)
            }
        }
    }
}

/// What is before the last closing bracket of a text, and what is behind it.
pub(crate) fn cut_last(text: &[u8]) -> Option<(&[u8], &[u8])>
    ensures { option_map pair_of result ≡ cut_last text.now }
{
    let mut at = text.len();
    'bytes: while at > 0 {
        at -= 1;
        if text[at] == b')' {
            return Some((&text[..at], &text[at + 1..]));
        }
    }
    None
}

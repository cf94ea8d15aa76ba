//! What is commonly a slip, although it is read.
ghost use Rattle.std.specs.Prelude.{◌≡◌, ◌==◌, option_map};
ghost use Rattle.std.specs.List.{list_all, list_any};
ghost use Rattle.review_faults.specs.Slips.{after_name_byte, after_word, is_between, is_tight, is_quote_end, begins_quote, is_quoted, begins_space, has_space, has_colon, has_equals, ends_first, is_half_quoted, is_unopened, begins_comment, has_blank, has_quote, is_mark, is_comma, is_marks, after_same, apart, after_break, after_breaks, is_dashed, is_item, is_listed, is_joined, is_pointer, is_below, is_word_pair, is_colon_word, value_slip, slip_in};

use crate::cause::is_name_byte;

/// What is around a scalar.
#[derive(Clone, Copy)]
pub(crate) struct Around {
    pub(crate) is_key: bool,
    pub(crate) is_in_flow: bool,
    /// The two events before it begin flow mappings.
    pub(crate) is_doubled: bool,
    /// The next event begins a node that is not written.
    pub(crate) has_no_value: bool,
    /// It has several lines, and the second one is commonly an item.
    pub(crate) is_listed: bool,
    /// It has two lines, each of one word.
    pub(crate) is_joined: bool,
    /// A colon, a space and `#/` follow it.
    pub(crate) is_pointer: bool,
    /// A colon and a line's end follow it.
    pub(crate) is_below: bool,
    /// The next event is an empty block scalar.
    pub(crate) has_empty_block: bool,
    /// The next event has a tag with a parenthesis in it, and begins a node that is not written.
    pub(crate) has_call: bool,
    /// The next event is a plain scalar as `a:b`.
    pub(crate) has_pair: bool,
}

/// What a plain scalar commonly is by a slip.
#[derive(Clone, Copy)]
pub enum Slip {
    /// It is a key without a value in two pairs of braces, as `{{ x }}`.
    Template,
    /// It is in brackets or braces, and begins as comments of other languages do.
    Comment,
    /// It is a key in braces that has a space and a quote, as `x "b"`.
    Comma,
    /// It is a key without a value in braces, and has a colon, as `{type:string}`.
    Key,
    /// It is a word, a colon, and brackets or braces, as `data:{}`.
    Value,
    /// It is `<<` and no key.
    Merge,
    /// It has several lines, and the second one is commonly an item.
    Lines,
    /// Its first and last characters are quotes as books have them.
    Quotes,
    /// It has a no-break space, or a space of no width.
    Space,
    /// It has stops and commas alone, and a comma among them.
    Marks,
    /// It is a key without a value in braces, and has `=`, as `{a=b}`.
    Equals,
    /// It is a key that ends with a colon.
    Colon,
    /// It ends with a quote, and has no other one.
    Quote,
    /// It ends with a bracket or a brace, and has none that opens it.
    Bracket,
    /// It is in brackets or braces, and has two lines, each of one word.
    Joined,
    /// It is a key whose value is an empty block scalar.
    Empty,
    /// It is a key whose value is such a tag as `!f()`, and no more.
    Call,
    /// It is a key with a null value before a comment such as `#/a`.
    Pointer,
    /// It is a key with a value such as `a:b` on the line below.
    Below,
}

impl Slip {
    ghost use Rattle.std.specs.Prelude.{◌≡◌};
    ghost use Rattle.review_faults.specs.Slips.{slip_words};

    /// What is said of it.
    pub(crate) fn words(self) -> &'static str
        ensures { result.now ≡ slip_words self }
    {
        match self {
            Slip::Template =>
                "a key in a key here, as in `{{ x }}`: render a template first, or quote the value",
            Slip::Comment => "a text here: a comment begins with `#`",
            Slip::Comma => "one key here: a comma is missing before its quote",
            Slip::Key => "a key without a value here: a space is missing after its colon",
            Slip::Value => "one string here: a space is missing after its colon",
            Slip::Merge => "a string here, which PyYAML rejects",
            Slip::Lines =>
                "one string of several lines here: an item begins with `- `, below a key without a value",
            Slip::Quotes =>
                "its quotes are part of the string here: the quotes of YAML are \" and '",
            Slip::Space => "a string with a no-break space or a space of no width",
            Slip::Marks => "a string here: a comma is an indicator in brackets and braces alone",
            Slip::Equals => "a key without a value here: an entry has `: ` in place of `=`",
            Slip::Colon => "its last colon is part of the key here",
            Slip::Quote => "its quote is part of the string here: the first one is missing",
            Slip::Bracket => "a string here: what opens its bracket or brace is missing",
            Slip::Joined => "one string of two lines here: two items have a comma between them",
            Slip::Empty =>
                "its value is an empty block scalar here: quote `|` or `>` if that is meant",
            Slip::Call => "its value is a tag and no text here: quote a value that begins with `!`",
            Slip::Pointer =>
                "its value is null here: what begins with ` #` is a comment, unless it is quoted",
            Slip::Below => "its value is one string here: a space is missing after its colon",
        }
    }
}

/// The bytes after the first one, if that is a letter, a digit, `-` or `_`.
fn after_name_byte(text: &[u8]) -> Option<&[u8]>
    ensures { option_map (λ rest. rest.now) result ≡ after_name_byte text.now }
{
    match text.split_first() {
        Some((first, rest)) if is_name_byte(*first) => Some(rest),
        _ => None,
    }
}

/// A text without such bytes at its beginning.
fn after_word(text: &[u8]) -> &[u8]
    ensures { result.now ≡ after_word text.now }
{
    let mut rest = text;
    'bytes: while let Some(more) = after_name_byte(rest) {
        rest = more;
    }
    rest
}

/// Whether a text begins and ends with these.
fn is_between(front: &[u8], end: &[u8], text: &[u8]) -> bool
    ensures { result ≡ is_between front.now end.now text.now }
{
    text.starts_with(front) && text.ends_with(end)
}

/// Whether a text is a word, a colon, and brackets or braces.
fn is_tight(text: &[u8]) -> bool
    ensures { result ≡ is_tight text.now }
{
    let rest = after_word(text);
    let is_value = is_between(b":{", b"}", rest) || is_between(b":[", b"]", rest);
    rest.len() != text.len() && is_value
}

/// The bytes with which a quote as books have it begins in UTF-8.
const QUOTE: [u8; 2] = [0xE2, 0x80];

/// Whether a byte ends one of the quotes from U+2018 to U+201F.
fn is_quote_end(byte: Option<&u8>) -> bool
    ensures { result ≡ is_quote_end (option_map (λ b. b.now) byte.entry) }
{
    match byte {
        Some(byte) => 0x98 <= *byte && *byte <= 0x9F,
        None => false,
    }
}

/// Whether a text begins with one of these quotes.
fn begins_quote(text: &[u8]) -> bool
    ensures { result ≡ begins_quote text.now }
{
    text.starts_with(&QUOTE) && is_quote_end(text.get(2))
}

/// Whether a text begins and ends with one of these.
fn is_quoted(text: &[u8]) -> bool
    ensures { result ≡ is_quoted text.now }
{
    let last = text.get(text.len().saturating_sub(3)..).unwrap_or(&[]);
    3 < text.len() && begins_quote(text) && begins_quote(last)
}

/// U+00A0
const NO_BREAK: [u8; 2] = [0xC2, 0xA0];

/// U+200B
const ZERO_WIDTH: [u8; 3] = [0xE2, 0x80, 0x8B];

/// U+202F
const NARROW: [u8; 3] = [0xE2, 0x80, 0xAF];

/// U+2060
const JOINER: [u8; 3] = [0xE2, 0x81, 0xA0];

/// Whether a text begins with a no-break space, or a space of no width.
fn begins_space(text: &[u8]) -> bool
    ensures { result ≡ begins_space text.now }
{
    text.starts_with(&NO_BREAK)
        || text.starts_with(&ZERO_WIDTH)
        || text.starts_with(&NARROW)
        || text.starts_with(&JOINER)
}

/// Whether a text has such a space.
fn has_space(text: &[u8]) -> bool
    ensures { result ≡ has_space text.now }
{
    let mut rest = text;
    'bytes: while let Some((_, more)) = rest.split_first() {
        if begins_space(rest) {
            return true;
        }
        rest = more;
    }
    false
}

/// Whether a text has a colon.
fn has_colon(text: &[u8]) -> bool
    ensures { result ≡ has_colon text.now }
{
    text.iter().any(|byte| *byte == b':')
}

/// Whether a text has an equals sign.
fn has_equals(text: &[u8]) -> bool
    ensures { result ≡ has_equals text.now }
{
    text.iter().any(|byte| *byte == b'=')
}

/// Whether the first such byte of a text is its last byte.
fn ends_first(mark: u8, text: &[u8]) -> bool
    ensures { result ≡ ends_first mark text.now }
{
    let mut rest = text;
    'bytes: while let Some((first, more)) = rest.split_first() {
        if *first == mark {
            return more.is_empty();
        }
        rest = more;
    }
    false
}

/// Whether a text ends with a quote, and has no other one. A text of several words may end with an apostrophe.
fn is_half_quoted(text: &[u8]) -> bool
    ensures { result ≡ is_half_quoted text.now }
{
    ends_first(b'"', text) || (ends_first(b'\'', text) && !has_blank(text))
}

/// Whether a text has an opening bracket.
fn has_bracket(text: &[u8]) -> bool
    ensures { result ≡ list_any (λ c. c == 91) text.now }
{
    text.iter().any(|byte| *byte == b'[')
}

/// Whether a text has an opening brace.
fn has_brace(text: &[u8]) -> bool
    ensures { result ≡ list_any (λ c. c == 123) text.now }
{
    text.iter().any(|byte| *byte == b'{')
}

/// Whether a text ends with a bracket or a brace, and has none that opens it.
fn is_unopened(text: &[u8]) -> bool
    ensures { result ≡ is_unopened text.now }
{
    (text.ends_with(b"]") && !has_bracket(text)) || (text.ends_with(b"}") && !has_brace(text))
}

/// Whether a byte is a stop or a comma.
fn is_mark(byte: u8) -> bool
    ensures { result ≡ is_mark byte }
{
    byte == b',' || byte == b'.'
}

/// Whether a text has stops and commas alone.
fn has_marks_alone(text: &[u8]) -> bool
    ensures { result ≡ list_all is_mark text.now }
{
    text.iter().all(|byte| is_mark(*byte))
}

/// Whether a text has a comma.
fn has_comma(text: &[u8]) -> bool
    ensures { result ≡ list_any is_comma text.now }
{
    text.iter().any(|byte| *byte == b',')
}

/// Whether a text has stops and commas alone, and a comma among them. `.` and `..` are names of folders.
fn is_marks(text: &[u8]) -> bool
    ensures { result ≡ is_marks text.now }
{
    has_marks_alone(text) && has_comma(text)
}

/// What is behind the first bytes of a source and of a text, if these are the same.
fn after_same<'s, 't>(source: &'s [u8], text: &'t [u8]) -> Option<(&'s [u8], &'t [u8])>
    ensures { option_map (λ rests. (rests.0.now, rests.1.now)) result ≡ after_same source.now text.now }
{
    match (source.split_first(), text.split_first()) {
        (Some((one, source)), Some((other, rest))) if *one == *other => Some((source, rest)),
        _ => None,
    }
}

/// What is left of a text from where the source has something else: behind the end of its first line, if it has several.
fn apart<'t>(source: &[u8], text: &'t [u8]) -> &'t [u8]
    ensures { result.now ≡ apart source.now text.now }
{
    let mut from = source;
    let mut rest = text;
    'bytes: while let Some((source, text)) = after_same(from, rest) {
        from = source;
        rest = text;
    }
    rest
}

/// The bytes behind a space or a line feed, if a text begins with one.
fn after_break(text: &[u8]) -> Option<&[u8]>
    ensures { option_map (λ rest. rest.now) result ≡ after_break text.now }
{
    match text.split_first() {
        Some((b' ' | b'\n', rest)) => Some(rest),
        _ => None,
    }
}

/// A text without spaces and line feeds at its beginning.
fn after_breaks(text: &[u8]) -> &[u8]
    ensures { result.now ≡ after_breaks text.now }
{
    let mut rest = text;
    'bytes: while let Some(more) = after_break(rest) {
        rest = more;
    }
    rest
}

/// Whether a text begins with one dash.
fn is_dashed(text: &[u8]) -> bool
    ensures { result ≡ is_dashed text.now }
{
    text.starts_with(b"-") && !text.starts_with(b"--")
}

/// Whether a line of a text is commonly an item by a slip: it begins as one, or this line and the text begin with one dash.
fn is_item(text: &[u8], line: &[u8]) -> bool
    ensures { result ≡ is_item text.now line.now }
{
    line.starts_with(b"- ") || (is_dashed(text) && is_dashed(line))
}

/// Whether the second line of a plain scalar, whose text is read from this source, is such a line.
pub(crate) fn is_listed(source: &[u8], text: &[u8]) -> bool
    ensures { result ≡ is_listed source.now text.now }
{
    is_item(text, after_breaks(apart(source, text)))
}

/// Whether a plain scalar, whose text is read from this source, has two lines, each of one word.
pub(crate) fn is_joined(source: &[u8], text: &[u8]) -> bool
    ensures { result ≡ is_joined source.now text.now }
{
    let rest = apart(source, text);
    let len = text.len().saturating_sub(rest.len());
    let first = text.get(..len).unwrap_or(&[]);
    let is_parted = !rest.is_empty() && !first.is_empty();
    is_parted && !has_blank(first) && !has_blank(after_breaks(rest))
}

/// Whether a colon, a space and `#/` follow a text in its source.
pub(crate) fn is_pointer(source: &[u8], text: &[u8]) -> bool
    ensures { result ≡ is_pointer source.now text.now }
{
    let behind = source.get(text.len()..).unwrap_or(&[]);
    behind.starts_with(b": #/")
}

/// Whether a colon and a line's end follow a text in its source.
pub(crate) fn is_below(source: &[u8], text: &[u8]) -> bool
    ensures { result ≡ is_below source.now text.now }
{
    let behind = source.get(text.len()..).unwrap_or(&[]);
    behind.starts_with(b":\n")
}

/// Whether a text is a colon and a word.
fn is_colon_word(text: &[u8]) -> bool
    ensures { result ≡ is_colon_word text.now }
{
    match text.split_first() {
        Some((first, word)) => *first == b':' && !word.is_empty() && after_word(word).is_empty(),
        None => false,
    }
}

/// Whether a text is two words with a colon between them.
pub(crate) fn is_word_pair(text: &[u8]) -> bool
    ensures { result ≡ is_word_pair text.now }
{
    let rest = after_word(text);
    rest.len() != text.len() && is_colon_word(rest)
}

/// Whether a text begins as a comment of other languages does.
fn begins_comment(text: &[u8]) -> bool
    ensures { result ≡ begins_comment text.now }
{
    text.starts_with(b"//") || text.starts_with(b"/*")
}

/// Whether a text has a space.
fn has_blank(text: &[u8]) -> bool
    ensures { result ≡ has_blank text.now }
{
    text.iter().any(|byte| *byte == b' ')
}

/// Whether a text has a double quote.
fn has_quote(text: &[u8]) -> bool
    ensures { result ≡ has_quote text.now }
{
    text.iter().any(|byte| *byte == b'"')
}

/// What the value of a key commonly is by a slip.
fn value_slip(around: Around) -> Option<Slip>
    ensures { result ≡ value_slip around }
{
    if around.has_empty_block {
        Some(Slip::Empty)
    } else if around.has_call {
        Some(Slip::Call)
    } else if around.has_no_value && around.is_pointer {
        Some(Slip::Pointer)
    } else if around.has_pair && around.is_below {
        Some(Slip::Below)
    } else {
        None
    }
}

/// What the text of a plain scalar commonly is by a slip.
pub(crate) fn slip_in(around: Around, text: &str) -> Option<Slip>
    ensures { result ≡ slip_in around text.now }
{
    let bytes = text.as_bytes();
    if around.is_doubled && around.has_no_value {
        Some(Slip::Template)
    } else if around.is_in_flow && begins_comment(bytes) {
        Some(Slip::Comment)
    } else if around.is_key && around.is_in_flow && has_blank(bytes) && has_quote(bytes) {
        Some(Slip::Comma)
    } else if around.is_key && around.is_in_flow && around.has_no_value && has_colon(bytes) {
        Some(Slip::Key)
    } else if is_tight(bytes) {
        Some(Slip::Value)
    } else if !around.is_key && text == "<<" {
        Some(Slip::Merge)
    } else if around.is_listed {
        Some(Slip::Lines)
    } else if is_quoted(bytes) {
        Some(Slip::Quotes)
    } else if has_space(bytes) {
        Some(Slip::Space)
    } else if is_marks(bytes) {
        Some(Slip::Marks)
    } else if around.is_key && around.is_in_flow && around.has_no_value && has_equals(bytes) {
        Some(Slip::Equals)
    } else if around.is_key && bytes.ends_with(b":") {
        Some(Slip::Colon)
    } else if is_half_quoted(bytes) {
        Some(Slip::Quote)
    } else if is_unopened(bytes) {
        Some(Slip::Bracket)
    } else if around.is_in_flow && around.is_joined {
        Some(Slip::Joined)
    } else if around.is_key {
        value_slip(around)
    } else {
        None
    }
}

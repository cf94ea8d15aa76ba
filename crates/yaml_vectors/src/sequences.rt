//! Double-quoted scalars and flow sequences, places of faults.
use crate::rows::{Pair, Row};

pub static READ_1: [Row; 9] = [
    Row {
        shows: "spaces round brackets and commas are free",
        input: b"--- [\"x\",[ \"y\" ],[]]",
        answer: "--- [\"x\", [\"y\"], []]\n",
    },
    Row {
        shows: "escapes are read",
        input: b"--- \"\\x41\\/\"",
        answer: "--- \"A/\"\n",
    },
    Row {
        shows: "a comma may follow the last item",
        input: b"--- [\"x\",]",
        answer: "--- [\"x\"]\n",
    },
    Row {
        shows: "a short node is written out each time",
        input: b"--- [\"x\", \"x\"]",
        answer: "--- [\"x\", \"x\"]\n",
    },
    Row {
        shows: "an empty sequence is short",
        input: b"--- [[],[ ]]",
        answer: "--- [[], []]\n",
    },
    Row {
        shows: "one LF may end the stream",
        input: b"--- \"a\"\n",
        answer: "--- \"a\"\n",
    },
    Row {
        shows: "one CR may end the stream",
        input: b"--- \"a\"\r",
        answer: "--- \"a\"\n",
    },
    Row {
        shows: "CR LF is one break",
        input: b"--- \"a\"\r\n",
        answer: "--- \"a\"\n",
    },
    Row {
        shows: "spaces may stand round the root",
        input: b"---   \"a\"  \n",
        answer: "--- \"a\"\n",
    },
];

pub static READ_2: [Row; 9] = [
    Row {
        shows: "the empty text is a scalar",
        input: b"--- \"\"",
        answer: "--- \"\"\n",
    },
    Row {
        shows: "a byte order mark is skipped",
        input: b"\xef\xbb\xbf--- \"a\"",
        answer: "--- \"a\"\n",
    },
    Row {
        shows: "a tab in quotes is content and is written escaped",
        input: b"--- \"a\tb\"",
        answer: "--- \"a\\tb\"\n",
    },
    Row {
        shows: "quotes and backslashes are written escaped",
        input: b"--- \"\\\"\\\\\"",
        answer: "--- \"\\\"\\\\\"\n",
    },
    Row {
        shows: "a printable character from xA0 on is written as itself",
        input: b"--- \"\xc2\xa0\xc3\xa9\xf0\x9f\x98\x80\"",
        answer: "--- \"\u{A0}\u{E9}\u{1F600}\"\n",
    },
    Row {
        shows: "x85 is printable, no break, and written escaped",
        input: b"--- \"\xc2\x85\"",
        answer: "--- \"\\x85\"\n",
    },
    Row {
        shows: "each single escape has its character",
        input: b"--- \"\\0\\a\\b\\t\\\t\\n\\v\\f\\r\\e\\ \\\"\\/\\\\\"",
        answer: "--- \"\\x00\\x07\\x08\\t\\t\\n\\x0B\\x0C\\x0D\\x1B \\\"/\\\\\"\n",
    },
    Row {
        shows: "the escapes past ASCII have their characters",
        input: b"--- \"\\N\\_\\L\\P\"",
        answer: "--- \"\\x85\u{A0}\u{2028}\u{2029}\"\n",
    },
    Row {
        shows: "hexadecimal digits are read in either case",
        input: b"--- \"\\xe9\\xE9\\u00eB\\U0001f600\"",
        answer: "--- \"\u{E9}\u{E9}\u{EB}\u{1F600}\"\n",
    },
];

pub static READ_3: [Row; 9] = [
    Row {
        shows: "the greatest code point is written as itself",
        input: b"--- \"\\U0010ffff\"",
        answer: "--- \"\u{10FFFF}\"\n",
    },
    Row {
        shows: "a character that is not printable is written escaped in upper case",
        input: b"--- \"\\x7f\\x9f\\ufffe\"",
        answer: "--- \"\\x7F\\x9F\\uFFFE\"\n",
    },
    Row {
        shows: "a byte order mark in a text is written escaped",
        input: b"--- \"\\ufeff\"",
        answer: "--- \"\\uFEFF\"\n",
    },
    Row {
        shows: "the letter e with an accent and an escape character",
        input: b"--- \"\\x41\\u00e9\\/\\e\"",
        answer: "--- \"A\u{E9}/\\x1B\"\n",
    },
    Row {
        shows: "a scalar of 64 bytes of text is short",
        input: b"--- [\"aaaaaaaaaaaaaaaaaaaaaaaaaaaaaaaaaaaaaaaaaaaaaaaaaaaaaaaaaaaaaa\",\"aaaaaaaaaaaaaaaaaaaaaaaaaaaaaaaaaaaaaaaaaaaaaaaaaaaaaaaaaaaaaa\"]",
        answer: "--- [\"aaaaaaaaaaaaaaaaaaaaaaaaaaaaaaaaaaaaaaaaaaaaaaaaaaaaaaaaaaaaaa\", \"aaaaaaaaaaaaaaaaaaaaaaaaaaaaaaaaaaaaaaaaaaaaaaaaaaaaaaaaaaaaaa\"]\n",
    },
    Row {
        shows: "nodes that differ in an item are no repetition",
        input: b"--- [[\"x\"],[\"x\",\"y\"],[[\"x\",\"y\",\"z\"]]]",
        answer: "--- [[\"x\"], [\"x\", \"y\"], [[\"x\", \"y\", \"z\"]]]\n",
    },
    Row {
        shows: "a collection that stands twice has an anchor",
        input: b"--- [[\"x\"], [\"x\"]]",
        answer: "--- [&a1 [\"x\"], *a1]\n",
    },
    Row {
        shows: "a collection that stands twice at different depths",
        input: b"--- [[\"x\"], [[\"x\"]]]",
        answer: "--- [&a1 [\"x\"], [*a1]]\n",
    },
    Row {
        shows: "a scalar of 65 bytes of text that stands twice has an anchor",
        input: b"--- [\"aaaaaaaaaaaaaaaaaaaaaaaaaaaaaaaaaaaaaaaaaaaaaaaaaaaaaaaaaaaaaaa\",\"aaaaaaaaaaaaaaaaaaaaaaaaaaaaaaaaaaaaaaaaaaaaaaaaaaaaaaaaaaaaaaa\"]",
        answer: "--- [&a1 \"aaaaaaaaaaaaaaaaaaaaaaaaaaaaaaaaaaaaaaaaaaaaaaaaaaaaaaaaaaaaaaa\", *a1]\n",
    },
];

pub static REFUSED_1: [Row; 10] = [
    Row {
        shows: "the empty input has no document",
        input: b"",
        answer: "",
    },
    Row {
        shows: "a document may stand without a mark",
        input: b"\"a\"",
        answer: "--- \"a\"\n",
    },
    Row {
        shows: "a mark alone has null",
        input: b"---",
        answer: "--- !!null \"null\"\n",
    },
    Row {
        shows: "so has one with spaces after it",
        input: b"---  \n",
        answer: "--- !!null \"null\"\n",
    },
    Row {
        shows: "a comma needs an item before it",
        input: b"--- [,]",
        answer: "4 Syntax at byte 5",
    },
    Row {
        shows: "two commas need an item between them",
        input: b"--- [\"a\",,\"b\"]",
        answer: "4 Syntax at byte 9",
    },
    Row {
        shows: "two items need a comma between them",
        input: b"--- [\"a\" \"b\"]",
        answer: "4 Syntax at byte 9",
    },
    Row {
        shows: "a bracket that is not closed",
        input: b"--- [\"a\"",
        answer: "4 Syntax at byte 8",
    },
    Row {
        shows: "an inner bracket that is not closed",
        input: b"--- [[\"a\"]",
        answer: "4 Syntax at byte 10",
    },
    Row {
        shows: "a bracket that was not opened",
        input: b"--- []]",
        answer: "4 Syntax at byte 6",
    },
];

pub static REFUSED_2: [Row; 11] = [
    Row {
        shows: "a quote that is not closed",
        input: b"--- \"x",
        answer: "4 Syntax at byte 6",
    },
    Row {
        shows: "a quote that is not closed before its escape",
        input: b"--- \"abc\\n",
        answer: "4 Syntax at byte 10",
    },
    Row {
        shows: "text after the end",
        input: b"--- \"a\" \"b\"",
        answer: "4 Syntax at byte 8",
    },
    Row {
        shows: "text on the line after the end",
        input: b"--- \"a\"\nb",
        answer: "4 Syntax at byte 8",
    },
    Row {
        shows: "a second document",
        input: b"--- \"a\"\n--- \"b\"\n",
        answer: "--- \"a\"\n--- \"b\"\n",
    },
    Row {
        shows: "empty lines may follow",
        input: b"--- \"a\"\n\n",
        answer: "--- \"a\"\n",
    },
    Row {
        shows: "a break inside quotes is a space",
        input: b"--- \"a\nb\"",
        answer: "--- \"a b\"\n",
    },
    Row {
        shows: "a plain scalar",
        input: b"--- a",
        answer: "--- \"a\"\n",
    },
    Row {
        shows: "a single quoted scalar",
        input: b"--- 'a'",
        answer: "--- \"a\"\n",
    },
    Row {
        shows: "a comment after a node",
        input: b"--- \"a\" # b",
        answer: "--- \"a\"\n",
    },
    Row {
        shows: "places count the byte order mark",
        input: b"\xef\xbb\xbf--- [,]",
        answer: "4 Syntax at byte 8",
    },
];

pub static REFUSED_3: [Row; 10] = [
    Row {
        shows: "places count bytes and not characters",
        input: b"--- [\"\xc3\xa9\" \"b\"]",
        answer: "4 Syntax at byte 10",
    },
    Row {
        shows: "a tab is no separation",
        input: b"---\t\"a\"",
        answer: "5 Tab at byte 3",
    },
    Row {
        shows: "a tab after the spaces",
        input: b"--- \t\"a\"",
        answer: "5 Tab at byte 4",
    },
    Row {
        shows: "a tab between items",
        input: b"--- [\"a\",\t\"b\"]",
        answer: "5 Tab at byte 9",
    },
    Row {
        shows: "a tab before a comma",
        input: b"--- [\"a\"\t,\"b\"]",
        answer: "5 Tab at byte 8",
    },
    Row {
        shows: "a tab inside empty brackets",
        input: b"--- [\t]",
        answer: "5 Tab at byte 5",
    },
    Row {
        shows: "a tab after the root",
        input: b"--- \"a\"\t",
        answer: "5 Tab at byte 7",
    },
    Row {
        shows: "an unknown escape",
        input: b"--- \"\\q\"",
        answer: "8 BadEscape at byte 5",
    },
    Row {
        shows: "a surrogate",
        input: b"--- \"\\ud800\"",
        answer: "8 BadEscape at byte 5",
    },
    Row {
        shows: "a surrogate of eight digits",
        input: b"--- \"\\U0000dfff\"",
        answer: "8 BadEscape at byte 5",
    },
];

pub static REFUSED_4: [Row; 11] = [
    Row {
        shows: "an escape past the greatest code point",
        input: b"--- \"\\U00110000\"",
        answer: "8 BadEscape at byte 5",
    },
    Row {
        shows: "an escape with too few digits",
        input: b"--- \"\\x4\"",
        answer: "8 BadEscape at byte 5",
    },
    Row {
        shows: "an escape with a letter that is no digit",
        input: b"--- \"a\\u00g0\"",
        answer: "8 BadEscape at byte 6",
    },
    Row {
        shows: "the first fault from the left",
        input: b"--- [\"\\q\", \"\\ud800\", ",
        answer: "8 BadEscape at byte 6",
    },
    Row {
        shows: "a byte that begins no character",
        input: b"\xff",
        answer: "2 NotUtf8 at byte 0",
    },
    Row {
        shows: "a byte that begins no character inside quotes",
        input: b"--- \"\xff\"",
        answer: "2 NotUtf8 at byte 5",
    },
    Row {
        shows: "a character that is cut by the end",
        input: b"--- \"\xe2\x82",
        answer: "2 NotUtf8 at byte 5",
    },
    Row {
        shows: "a surrogate in three bytes",
        input: b"--- \"\xed\xa0\x80\"",
        answer: "2 NotUtf8 at byte 5",
    },
    Row {
        shows: "a character in too many bytes",
        input: b"--- \"\xc0\x80\"",
        answer: "2 NotUtf8 at byte 5",
    },
    Row {
        shows: "a zero byte",
        input: b"a\x00",
        answer: "3 NotPrintable at byte 1",
    },
    Row {
        shows: "a control character inside quotes",
        input: b"--- \"\x1b\"",
        answer: "3 NotPrintable at byte 5",
    },
];

pub static REFUSED_5: [Row; 11] = [
    Row {
        shows: "the delete character",
        input: b"--- \"\x7f\"",
        answer: "3 NotPrintable at byte 5",
    },
    Row {
        shows: "a control character past ASCII",
        input: b"--- \"\xc2\x9f\"",
        answer: "3 NotPrintable at byte 5",
    },
    Row {
        shows: "a byte order mark past the start",
        input: b"--- \"\xef\xbb\xbf\"",
        answer: "3 NotPrintable at byte 5",
    },
    Row {
        shows: "a second byte order mark",
        input: b"\xef\xbb\xbf\xef\xbb\xbf--- \"a\"",
        answer: "3 NotPrintable at byte 3",
    },
    Row {
        shows: "the non-character FFFE",
        input: b"--- \"\xef\xbf\xbe\"",
        answer: "3 NotPrintable at byte 5",
    },
    Row {
        shows: "bytes are judged before characters",
        input: b"\x00\xff",
        answer: "2 NotUtf8 at byte 1",
    },
    Row {
        shows: "characters are judged before the productions",
        input: b"b: \x00",
        answer: "3 NotPrintable at byte 3",
    },
    Row {
        shows: "an escape that the end cuts",
        input: b"--- \"\\",
        answer: "8 BadEscape at byte 5",
    },
    Row {
        shows: "an escape that the end cuts",
        input: b"--- \"\\x",
        answer: "8 BadEscape at byte 5",
    },
    Row {
        shows: "an escape that the end cuts",
        input: b"--- \"\\u12",
        answer: "8 BadEscape at byte 5",
    },
    Row {
        shows: "an escape that the end cuts",
        input: b"--- \"\\U0000004",
        answer: "8 BadEscape at byte 5",
    },
];

pub static PAIRS: [Pair; 8] = [
    Pair {
        shows: "spellings of one document",
        left: b"--- [\"A\",[ ]]",
        right: b"---  [ \"\\x41\" , [], ]\n",
        answer: "same",
    },
    Pair {
        shows: "a repeated node is no fault here",
        left: b"--- [[\"x\"], [\"x\"]]",
        right: b"--- [[\"x\"],[\"x\"]]",
        answer: "same",
    },
    Pair {
        shows: "the order of items counts",
        left: b"--- [\"a\",\"b\"]",
        right: b"--- [\"b\",\"a\"]",
        answer: "different",
    },
    Pair {
        shows: "a scalar is no sequence",
        left: b"--- \"a\"",
        right: b"--- [\"a\"]",
        answer: "different",
    },
    Pair {
        shows: "the number of items counts",
        left: b"--- [\"a\"]",
        right: b"--- [\"a\",\"a\"]",
        answer: "different",
    },
    Pair {
        shows: "the left side is judged first",
        left: b"--- [",
        right: b"\xff",
        answer: "left: 4 Syntax at byte 5",
    },
    Pair {
        shows: "the right side is judged too",
        left: b"--- []",
        right: b"\xff",
        answer: "right: 2 NotUtf8 at byte 0",
    },
    Pair {
        shows: "a fault of the right side has its place there",
        left: b"--- \"a\"",
        right: b"--- [,]",
        answer: "right: 4 Syntax at byte 5",
    },
];

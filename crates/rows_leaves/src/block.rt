//! Block scalars: the worked rows, and a row for each sentence of the productions.
use crate::scalar_rows::{Block, NoBlock, is_block, is_no_block};
use std::alloc::Global;
use std::test::Fail;
use yaml_scalar::block::read_folded;
use yaml_text::chars::Chars;
use yaml_text::context::Ctx;

/// Reads the rows of the profile.
static READS_THE_ROWS_OF_THE_PROFILE: [Block; 8] = [
    ("|2-\n   a\n", 0, 0, " a", 9),
    (">+\n a\n\n", 0, -1, "a\n\n", 7),
    ("x: |+\n  a\n\n", 3, 0, "a\n\n", 11),
    ("x: |\n  a\n\n", 3, 0, "a\n", 10),
    ("x: |-\n  a\n\n", 3, 0, "a", 11),
    ("x: |\n# c\ny: b\n", 3, 0, "", 9),
    ("--- >\n a\n b\n\n c\n", 4, -1, "a b\nc\n", 16),
    ("--- >\n a\n  b\n c\n", 4, -1, "a\n b\nc\n", 16),
];

/// Reads a header in either order.
static READS_A_HEADER_IN_EITHER_ORDER: [Block; 9] = [
    ("|2-\n   a\n", 0, 0, " a", 9),
    ("|-2\n   a\n", 0, 0, " a", 9),
    ("|+1\n a\n\n", 0, 0, "a\n\n", 8),
    ("|1+\n a\n\n", 0, 0, "a\n\n", 8),
    ("|9\n          a\n", 0, 0, " a\n", 15),
    ("| # c\n a\n", 0, 0, "a\n", 9),
    ("|-  \n a\n", 0, 0, "a", 8),
    ("|", 0, 0, "", 1),
    ("|+ #", 0, 0, "", 4),
];

/// Finds the indentation.
static FINDS_THE_INDENTATION: [Block; 13] = [
    ("|\n  a\n b\n", 0, 0, "a\n", 6),
    ("|\n\n  \n   a\n", 0, 0, "\n\na\n", 11),
    ("|\n a\n  b\n", 0, 0, "a\n b\n", 9),
    ("|\na\n", 0, 0, "", 2),
    ("|\n\n  \na\n", 0, 0, "", 6),
    ("|+\n\n  \na\n", 0, 0, "\n\n", 7),
    ("|+\n \n\ta\n", 0, 0, "\n", 5),
    ("|\n \ta\n", 0, 0, "\ta\n", 6),
    ("|\na\n", 0, -1, "a\n", 4),
    ("|\n# c\n", 0, -1, "# c\n", 6),
    ("|\n---a\n", 0, -1, "---a\n", 7),
    ("|\n    a\n", 0, 3, "a\n", 8),
    ("|\n   a\n", 0, 3, "", 2),
];

/// Ends before a mark.
static ENDS_BEFORE_A_MARK: [Block; 6] = [
    ("|\n...\n", 0, -1, "", 2),
    ("|+\n\n--- a", 0, -1, "\n", 4),
    ("|\n a\n---\n", 0, -1, "a\n", 5),
    ("|\na\n...", 0, -1, "a\n", 4),
    ("|\n ---\n", 0, -1, "---\n", 7),
    ("|-\n a\n---\n", 0, -1, "a", 6),
];

/// Chomps.
static CHOMPS: [Block; 18] = [
    ("|\n a\n", 0, 0, "a\n", 5),
    ("|-\n a\n", 0, 0, "a", 6),
    ("|+\n a\n", 0, 0, "a\n", 6),
    ("|\n a\n\n \n", 0, 0, "a\n", 8),
    ("|-\n a\n\n \n", 0, 0, "a", 9),
    ("|+\n a\n\n \n", 0, 0, "a\n\n\n", 9),
    ("|\n\n", 0, 0, "", 3),
    ("|-\n\n", 0, 0, "", 4),
    ("|+\n\n", 0, 0, "\n", 4),
    ("|1\n\n \n", 0, 0, "", 6),
    ("|1-\n\n \n", 0, 0, "", 7),
    ("|1+\n\n \n", 0, 0, "\n\n", 7),
    ("|\n", 0, 0, "", 2),
    ("|+\n", 0, 0, "", 3),
    (">\n a\n\n", 0, 0, "a\n", 6),
    (">-\n a\n\n", 0, 0, "a", 7),
    (">+\n a\n\n", 0, 0, "a\n\n", 7),
    (">+\n\n\n", 0, 0, "\n\n", 5),
];

/// Reads a last line without a break.
static READS_A_LAST_LINE_WITHOUT_A_BREAK: [Block; 10] = [
    ("|\n a", 0, 0, "a", 4),
    ("|-\n a", 0, 0, "a", 5),
    ("|+\n a", 0, 0, "a", 5),
    ("|\n a\n ", 0, 0, "a\n", 6),
    ("|+\n a\n ", 0, 0, "a\n", 7),
    ("|\n a\n   ", 0, 0, "a\n  ", 8),
    ("|+\n   ", 0, 0, "", 6),
    ("|\n ", 0, 0, "", 3),
    ("|1\n   ", 0, 0, "  ", 6),
    (">\n a\n b", 0, 0, "a b", 7),
];

/// Reads lines of spaces.
static READS_LINES_OF_SPACES: [Block; 4] = [
    ("|\n a\n   \n", 0, 0, "a\n  \n", 9),
    ("|1\n   \n", 0, 0, "  \n", 7),
    ("|2\n \n   a\n", 0, 0, "\n a\n", 10),
    ("|\n a\n \n\n b\n", 0, 0, "a\n\n\nb\n", 11),
];

/// Folds lines.
static FOLDS_LINES: [Block; 9] = [
    (">\n a\n b\n", 0, 0, "a b\n", 8),
    (">\n a\n\n b\n", 0, 0, "a\nb\n", 9),
    (">\n a\n\n\n b\n", 0, 0, "a\n\nb\n", 10),
    (">\n a\n\n  b\n\n c\n", 0, 0, "a\n\n b\n\nc\n", 14),
    (">1\n  a\n  b\n", 0, 0, " a\n b\n", 11),
    (">1\n  a\n\n  b\n", 0, 0, " a\n\n b\n", 12),
    (">\n a\n \tb\n c\n", 0, 0, "a\n\tb\nc\n", 12),
    (">\n\n\n a\n b\n", 0, 0, "\n\na b\n", 10),
    (">\n a \n b\t\n c\n", 0, 0, "a  b\t c\n", 13),
];

/// Reads each break as one line feed.
static READS_EACH_BREAK_AS_ONE_LINE_FEED: [Block; 5] = [
    ("|\r\n a\r\n b\r\n", 0, 0, "a\nb\n", 11),
    ("|\r a\r\r b", 0, 0, "a\n\nb", 8),
    (">\r\n a\r\n\r\n b\n", 0, 0, "a\nb\n", 12),
    ("|+\r\n a\n\r\n\r", 0, 0, "a\n\n\n", 10),
    ("|\n \u{E9}\u{85}\n", 0, 0, "\u{E9}\u{85}\n", 8),
];

/// Reads comment lines after it.
static READS_COMMENT_LINES_AFTER_IT: [Block; 8] = [
    ("|\n a\n# c\n  # d\n\n b: c", 0, 0, "a\n", 16),
    ("|\n a\n # c\n", 0, 0, "a\n# c\n", 10),
    ("|\n  a\n # c\n", 0, 0, "a\n", 11),
    ("|+\n  a\n\n # c\n\n", 0, 0, "a\n\n", 14),
    ("|\n a\n#", 0, 0, "a\n", 6),
    ("|\n a\n# c\n\tb", 0, 0, "a\n", 9),
    ("|\n  a\n\tb", 0, 0, "a\n", 6),
    ("|\n# c\n a\n", 0, 0, "", 6),
];

#[test]
fn block_scalars_are_read(rt: HostRuntime) -> Result<(), Fail> {
    let tables: [&[Block]; 10] = [
        &READS_THE_ROWS_OF_THE_PROFILE,
        &READS_A_HEADER_IN_EITHER_ORDER,
        &FINDS_THE_INDENTATION,
        &ENDS_BEFORE_A_MARK,
        &CHOMPS,
        &READS_A_LAST_LINE_WITHOUT_A_BREAK,
        &READS_LINES_OF_SPACES,
        &FOLDS_LINES,
        &READS_EACH_BREAK_AS_ONE_LINE_FEED,
        &READS_COMMENT_LINES_AFTER_IT,
    ];
    for table in &tables {
        for row in *table {
            is_block(&rt, row)?;
        }
    }
    Ok(())
}

static REFUSED: [NoBlock; 20] = [
    ("a", 0, 0, "4 Syntax at byte 0"),
    ("", 0, 0, "4 Syntax at byte 0"),
    ("|#c", 0, 0, "4 Syntax at byte 1"),
    ("| a", 0, 0, "4 Syntax at byte 2"),
    ("|0", 0, 0, "4 Syntax at byte 1"),
    ("|10", 0, 0, "4 Syntax at byte 2"),
    ("|2-3", 0, 0, "4 Syntax at byte 3"),
    ("|+-", 0, 0, "4 Syntax at byte 2"),
    ("|\t", 0, 0, "5 Tab at byte 1"),
    ("|- \t# c", 0, 0, "5 Tab at byte 3"),
    ("|1\n a", 0, -1, "4 Syntax at byte 1"),
    ("|-1\n a", 0, -1, "4 Syntax at byte 2"),
    ("|2a", 0, -1, "4 Syntax at byte 1"),
    ("|2\t", 0, -1, "4 Syntax at byte 1"),
    ("|+2a", 0, -1, "4 Syntax at byte 2"),
    ("|2a", 0, 0, "4 Syntax at byte 2"),
    ("|2\t", 0, 0, "5 Tab at byte 2"),
    ("x: |\n   \n a", 3, 0, "4 Syntax at byte 10"),
    ("x: |\n   \n \ta", 3, 0, "5 Tab at byte 10"),
    ("\u{FEFF}|x", 0, 0, "4 Syntax at byte 4"),
];

#[test]
fn refuses_with_a_place(rt: HostRuntime) -> Result<(), Fail> {
    for row in &REFUSED {
        is_no_block(&rt, row)?;
    }
    Ok(())
}

/// Whether the call for folded scalars reads this text.
fn is_folded(alloc: Global, text: &[u8]) -> Result<bool, Fail> {
    let source = Chars::read(text)?;
    Ok(read_folded(alloc, &source, 0, 0, Ctx::FlowIn).is_ok())
}

#[test]
fn a_literal_scalar_is_not_folded(rt: HostRuntime) -> Result<(), Fail> {
    assert_eq!(rt; is_folded(rt.alloc(), b"|")?, false);
    Ok(())
}

//! Comments and the ends of lines.
use crate::mark_rows::{Call, Row, answers};
use std::test::Fail;

/// Comments end as far as they can.
static ENDS: [Row; 24] = [
    ("", 0, "ends at 0"),
    ("a", 0, "ends at 0"),
    ("a", 1, "ends at 1"),
    ("a\nb", 1, "ends at 2"),
    ("a\r\nb", 1, "ends at 3"),
    ("a\rb", 1, "ends at 2"),
    ("a #b\nc", 1, "ends at 5"),
    ("a   # b", 1, "ends at 7"),
    ("a #", 1, "ends at 3"),
    ("a #\tb\n", 1, "ends at 6"),
    ("# b", 0, "ends at 3"),
    ("  # b\nc", 0, "ends at 6"),
    ("a\n#b\n\n  #c\nd", 1, "ends at 11"),
    ("a\n  d", 1, "ends at 2"),
    ("a\n   ", 1, "ends at 5"),
    ("a\n \n\n \n", 1, "ends at 7"),
    ("a\n#b", 1, "ends at 4"),
    ("a\n\t\nb", 1, "ends at 2"),
    ("a\n#b\n --- c", 1, "ends at 5"),
    ("a\n--- c", 1, "ends at 2"),
    ("é # ü\nx", 2, "ends at 8"),
    ("a\n\n\r\n \r\n  \r d", 1, "ends at 11"),
    ("a\n\n  \n#é\r\n\n  - d", 1, "ends at 12"),
    ("a\r\n\n  # b \n\n   ", 1, "ends at 15"),
];

/// Content and tabs are no comments.
static NONE: [Row; 9] = [
    ("a b", 1, "none"),
    ("a  b", 1, "none"),
    ("a#b\nc", 1, "none"),
    ("a\tb", 1, "none"),
    ("a\t\n", 1, "none"),
    ("a \t#b\n", 1, "none"),
    ("\r\n", 1, "none"),
    ("a\u{85}b", 1, "none"),
    ("a\u{2028}", 1, "none"),
];

#[test]
fn comments_end_as_far_as_they_can(rt: HostRuntime) -> Result<(), Fail> {
    let tables: [&[Row]; 2] = [&ENDS, &NONE];
    for table in &tables {
        for row in *table {
            answers(&rt, Call::Comments, row)?;
        }
    }
    Ok(())
}

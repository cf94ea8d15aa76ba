//! Directives.
use crate::mark_rows::{Call, Row, answers};
use std::test::Fail;

/// Directives end before the first other line.
static ENDS: [Row; 16] = [
    ("%YAML 1.2\n---", 0, "ends at 10"),
    ("%YAML  1.2 # c\n\n#d\n---", 0, "ends at 19"),
    ("%YAML 1.2", 0, "ends at 9"),
    ("%TAG !a! b\n%TAG !b! c\n%YAML 1.2\n---", 0, "ends at 32"),
    ("%TAG   !   !x   # c\n---", 0, "ends at 20"),
    ("%TAG ! a#b\n---", 0, "ends at 11"),
    ("%TAG ! %41,[]\n---", 0, "ends at 14"),
    ("%x a b # c\n---", 0, "ends at 11"),
    ("%x a#b\n---", 0, "ends at 7"),
    ("%x #\t\n---", 0, "ends at 6"),
    ("%x a #b\tc\n---", 0, "ends at 10"),
    ("%YAMLS 1.3\n%yaml 1\n%TAGS\n---", 0, "ends at 25"),
    ("%x", 0, "ends at 2"),
    ("%x\n  # c\n%y\n---", 0, "ends at 12"),
    ("%x\n  %y", 0, "ends at 3"),
    ("%x\r\n%y\r---", 0, "ends at 7"),
];

/// Malformed and repeated directives are refused.
static MALFORMED: [Row; 18] = [
    ("%YAML 1.3\n---", 0, "9 BadDirective at byte 0"),
    ("%YAML 1.1\n---", 0, "9 BadDirective at byte 0"),
    ("%YAML 1.2\n%YAML 1.2\n---", 0, "9 BadDirective at byte 10"),
    ("%TAG ! a\n%TAG ! b\n---", 0, "9 BadDirective at byte 9"),
    ("% x", 0, "9 BadDirective at byte 0"),
    ("%", 0, "9 BadDirective at byte 0"),
    ("%YAML 1.2 x", 0, "9 BadDirective at byte 0"),
    ("%YAML 1.2#", 0, "9 BadDirective at byte 0"),
    ("%YAML 1.22", 0, "9 BadDirective at byte 0"),
    ("%YAML", 0, "9 BadDirective at byte 0"),
    ("%TAG", 0, "9 BadDirective at byte 0"),
    ("%TAG !a b", 0, "9 BadDirective at byte 0"),
    ("%TAG a b", 0, "9 BadDirective at byte 0"),
    ("%TAG !a!b c", 0, "9 BadDirective at byte 0"),
    ("%TAG !a! ,b", 0, "9 BadDirective at byte 0"),
    ("%TAG !a! b c", 0, "9 BadDirective at byte 0"),
    ("%x\n%TAG !e! a%2\n", 0, "9 BadDirective at byte 3"),
    ("\u{FEFF}%YAML 1.3\n---", 0, "9 BadDirective at byte 3"),
];

/// A directive is repeated as soon as its name (`%YAML`) or its handle (`%TAG`) has been read: what follows on its line comes
/// later from left to right.
static REPEATED: [Row; 14] = [
    (
        "%TAG !e! a:\n%TAG !e! t\t\n---",
        0,
        "9 BadDirective at byte 12",
    ),
    (
        "%TAG !e! a:\n%TAG !e!\tt\n---",
        0,
        "9 BadDirective at byte 12",
    ),
    (
        "%TAG !e! a:\n%TAG !e! \tt\n---",
        0,
        "9 BadDirective at byte 12",
    ),
    (
        "%TAG !e! a:\n%TAG !e! t #\t\n---",
        0,
        "9 BadDirective at byte 12",
    ),
    (
        "%TAG !e! a:\n%TAG !e! %zz\t\n---",
        0,
        "9 BadDirective at byte 12",
    ),
    ("%TAG ! a:\n%TAG !\tt\n---", 0, "9 BadDirective at byte 10"),
    (
        "%TAG !! a:\n%TAG !! t\t\n---",
        0,
        "9 BadDirective at byte 11",
    ),
    (
        "%YAML 1.2\n%YAML 1.2\t\n---",
        0,
        "9 BadDirective at byte 10",
    ),
    ("%YAML 1.2\n%YAML\t1.2\n---", 0, "9 BadDirective at byte 10"),
    ("%YAML 1.2\n%YAML 1.3\n---", 0, "9 BadDirective at byte 10"),
    ("%TAG !e! a:\n%TAG\t!e! t\n---", 0, "5 Tab at byte 16"),
    ("%TAG !e! a:\n%TAG \t!e! t\n---", 0, "5 Tab at byte 17"),
    ("%TAG !e! a:\n%TAG !f! t\t\n---", 0, "5 Tab at byte 22"),
    ("%TAG !e! a:\n%YAML 1.2\t\n---", 0, "5 Tab at byte 21"),
];

/// A tab is no separation.
static TABS: [Row; 9] = [
    ("%YAML\t1.2", 0, "5 Tab at byte 5"),
    ("%YAML \t1.2", 0, "5 Tab at byte 6"),
    ("%YAML 1.2\t", 0, "5 Tab at byte 9"),
    ("%YAML 1.2 \t#", 0, "5 Tab at byte 10"),
    ("%TAG\t! a", 0, "5 Tab at byte 4"),
    ("%TAG !\ta", 0, "5 Tab at byte 6"),
    ("%TAG ! a\t", 0, "5 Tab at byte 8"),
    ("%x\t", 0, "5 Tab at byte 2"),
    ("%x a\tb", 0, "5 Tab at byte 4"),
];

#[test]
fn directives_end_or_are_refused(rt: HostRuntime) -> Result<(), Fail> {
    let tables: [&[Row]; 4] = [&ENDS, &MALFORMED, &REPEATED, &TABS];
    for table in &tables {
        for row in *table {
            answers(&rt, Call::Directives, row)?;
        }
    }
    Ok(())
}

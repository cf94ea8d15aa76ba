//! Two streams of which `diff_json` rejects one. Its lines are compared with those of the program by `tools/bindings`.
use review_compare::diff_json;
use std::test::Fail;
use yaml_canon::Side;

/// Two streams, how many lines are asked for, and the side and the message of the fault.
struct Row {
    left: &'static str,
    right: &'static str,
    lines: usize,
    side: Side,
    message: &'static str,
}

/// The left side is judged first, and equal keys behind all other faults.
static ROWS: [Row; 5] = [
    Row {
        left: "a:\tb",
        right: "[",
        lines: 1000,
        side: Side::Left,
        message: "5 Tab at byte 2",
    },
    Row {
        left: "a: b",
        right: "a:\tb",
        lines: 1000,
        side: Side::Right,
        message: "5 Tab at byte 2",
    },
    Row {
        left: "{1: a, 0x1: b}",
        right: "[",
        lines: 1000,
        side: Side::Right,
        message: "4 Syntax at byte 1",
    },
    Row {
        left: "a: b",
        right: "- a\n- {1: a, 0x1: b}",
        lines: 1000,
        side: Side::Right,
        message: "19 EqualKeys in node 5, entries 0 and 1",
    },
    Row {
        left: "{1: a, 0x1: b}",
        right: "{1: a, 0x1: b}",
        lines: 0,
        side: Side::Left,
        message: "19 EqualKeys in node 4, entries 0 and 1",
    },
];

#[test]
fn a_side_is_rejected(rt: HostRuntime) -> Result<(), Fail> {
    for row in &ROWS {
        let (left, right) = (row.left.as_bytes(), row.right.as_bytes());
        match diff_json(rt.alloc(), left, right, row.lines) {
            Ok(_) => assert!(rt; false, "{:?} {:?}: no fault", row.left, row.right),
            Err((side, fault)) => {
                let told = format!(in rt.alloc(); "{fault}")?;
                assert!(rt; side == row.side && told.as_str() == row.message, "{told}");
            }
        }
    }
    Ok(())
}

//! Numbers (RFC 8259, 6).
use crate::json_rows::{Row, answers};
use std::test::Fail;

static NUMBERS: [Row; 46] = [
    ("-0", true),
    ("7", true),
    ("-1", true),
    ("10", true),
    ("1234567890", true),
    ("0.0", true),
    ("-0.5", true),
    ("1.50", true),
    ("1e1", true),
    ("1E1", true),
    ("1e+1", true),
    ("1E-1", true),
    ("0e0", true),
    ("0e00", true),
    ("12.5e-07", true),
    ("1.0e+16", true),
    ("99999999999999999999999999999999999999", true),
    ("1e999999", true),
    ("[-1,0,1.5]", true),
    ("-", false),
    ("+1", false),
    ("--1", false),
    ("- 1", false),
    ("00", false),
    ("01", false),
    ("-01", false),
    ("1.", false),
    (".5", false),
    ("-.5", false),
    ("1.e1", false),
    ("1..5", false),
    ("1.5.5", false),
    ("1e", false),
    ("1e+", false),
    ("1e+-1", false),
    ("1e1.5", false),
    ("1ee1", false),
    ("1 e1", false),
    ("1_000", false),
    ("0x1F", false),
    ("0o7", false),
    ("1a", false),
    ("NaN", false),
    ("Infinity", false),
    ("-Infinity", false),
    (".inf", false),
];

#[test]
fn a_number_is_decimal_without_leading_zeros(rt: HostRuntime) -> Result<(), Fail> {
    for row in &NUMBERS {
        answers(&rt, row)?;
    }
    Ok(())
}

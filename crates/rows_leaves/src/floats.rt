//! Floats, their canonical content, their zeros, and their exponents at both ends.
use crate::core_rows::{Given, Is, Row, check};
use std::test::Fail;

/// Each digit counts.
static FLOATS_1: [Row; 11] = [
    Row {
        given: Given::Plain,
        text: "1e3",
        is: Is::Float,
        content: "1e+3",
    },
    Row {
        given: Given::Plain,
        text: ".5e1",
        is: Is::Float,
        content: "5",
    },
    Row {
        given: Given::Plain,
        text: "12.50",
        is: Is::Float,
        content: "1.25e+1",
    },
    Row {
        given: Given::Plain,
        text: "1.0",
        is: Is::Float,
        content: "1",
    },
    Row {
        given: Given::Plain,
        text: ".5",
        is: Is::Float,
        content: "5e-1",
    },
    Row {
        given: Given::Plain,
        text: "5e-1",
        is: Is::Float,
        content: "5e-1",
    },
    Row {
        given: Given::Plain,
        text: "0.50",
        is: Is::Float,
        content: "5e-1",
    },
    Row {
        given: Given::Plain,
        text: "-1.5",
        is: Is::Float,
        content: "-1.5",
    },
    Row {
        given: Given::Plain,
        text: "+1.5",
        is: Is::Float,
        content: "1.5",
    },
    Row {
        given: Given::Plain,
        text: "100.",
        is: Is::Float,
        content: "1e+2",
    },
    Row {
        given: Given::Plain,
        text: "0.001",
        is: Is::Float,
        content: "1e-3",
    },
];

static FLOATS_2: [Row; 11] = [
    Row {
        given: Given::Plain,
        text: "120e-2",
        is: Is::Float,
        content: "1.2",
    },
    Row {
        given: Given::Plain,
        text: "1.20e+00",
        is: Is::Float,
        content: "1.2",
    },
    Row {
        given: Given::Plain,
        text: "00012.3400",
        is: Is::Float,
        content: "1.234e+1",
    },
    Row {
        given: Given::Plain,
        text: "10.01",
        is: Is::Float,
        content: "1.001e+1",
    },
    Row {
        given: Given::Plain,
        text: "1e-0",
        is: Is::Float,
        content: "1",
    },
    Row {
        given: Given::Plain,
        text: "1E007",
        is: Is::Float,
        content: "1e+7",
    },
    Row {
        given: Given::Plain,
        text: "0.1234567890123456789012345678901234567890",
        is: Is::Float,
        content: "1.23456789012345678901234567890123456789e-1",
    },
    Row {
        given: Given::Plain,
        text: "123456789012345678.9",
        is: Is::Float,
        content: "1.234567890123456789e+17",
    },
    Row {
        given: Given::Float,
        text: "1",
        is: Is::Float,
        content: "1",
    },
    Row {
        given: Given::Float,
        text: "100",
        is: Is::Float,
        content: "1e+2",
    },
    Row {
        given: Given::Float,
        text: "-012",
        is: Is::Float,
        content: "-1.2e+1",
    },
];

/// Every zero is 0.
static ZEROS: [Row; 9] = [
    Row {
        given: Given::Plain,
        text: "-0.0",
        is: Is::Float,
        content: "0",
    },
    Row {
        given: Given::Plain,
        text: "0e99999999",
        is: Is::Float,
        content: "0",
    },
    Row {
        given: Given::Plain,
        text: ".0",
        is: Is::Float,
        content: "0",
    },
    Row {
        given: Given::Plain,
        text: "0.",
        is: Is::Float,
        content: "0",
    },
    Row {
        given: Given::Plain,
        text: "-.0e-5",
        is: Is::Float,
        content: "0",
    },
    Row {
        given: Given::Plain,
        text: "+0.000e+1000001",
        is: Is::Float,
        content: "0",
    },
    Row {
        given: Given::Plain,
        text: "0e-99999999999999999999999999999999999999999999",
        is: Is::Float,
        content: "0",
    },
    Row {
        given: Given::Float,
        text: "0",
        is: Is::Float,
        content: "0",
    },
    Row {
        given: Given::Float,
        text: "-00",
        is: Is::Float,
        content: "0",
    },
];

/// Exponents end at a million.
static ENDS_1: [Row; 9] = [
    Row {
        given: Given::Plain,
        text: "1e1000000",
        is: Is::Float,
        content: "1e+1000000",
    },
    Row {
        given: Given::Plain,
        text: "10e999999",
        is: Is::Float,
        content: "1e+1000000",
    },
    Row {
        given: Given::Plain,
        text: "0.1e1000001",
        is: Is::Float,
        content: "1e+1000000",
    },
    Row {
        given: Given::Plain,
        text: "9.99e1000000",
        is: Is::Float,
        content: "9.99e+1000000",
    },
    Row {
        given: Given::Plain,
        text: "1e1000001",
        is: Is::FloatRange,
        content: "",
    },
    Row {
        given: Given::Plain,
        text: "10e1000000",
        is: Is::FloatRange,
        content: "",
    },
    Row {
        given: Given::Plain,
        text: "100e999999",
        is: Is::FloatRange,
        content: "",
    },
    Row {
        given: Given::Plain,
        text: "0.1e1000002",
        is: Is::FloatRange,
        content: "",
    },
    Row {
        given: Given::Plain,
        text: "1e-1000000",
        is: Is::Float,
        content: "1e-1000000",
    },
];

static ENDS_2: [Row; 9] = [
    Row {
        given: Given::Plain,
        text: ".1e-999999",
        is: Is::Float,
        content: "1e-1000000",
    },
    Row {
        given: Given::Plain,
        text: "10e-1000001",
        is: Is::Float,
        content: "1e-1000000",
    },
    Row {
        given: Given::Plain,
        text: "1e-1000001",
        is: Is::FloatRange,
        content: "",
    },
    Row {
        given: Given::Plain,
        text: ".1e-1000000",
        is: Is::FloatRange,
        content: "",
    },
    Row {
        given: Given::Plain,
        text: "-1e+1000001",
        is: Is::FloatRange,
        content: "",
    },
    Row {
        given: Given::Plain,
        text: "1e340282366920938463463374607431768211456",
        is: Is::FloatRange,
        content: "",
    },
    Row {
        given: Given::Plain,
        text: "1e-340282366920938463463374607431768211456",
        is: Is::FloatRange,
        content: "",
    },
    Row {
        given: Given::Plain,
        text: "1e18446744073709551616",
        is: Is::FloatRange,
        content: "",
    },
    Row {
        given: Given::Float,
        text: "1e1000001",
        is: Is::FloatRange,
        content: "",
    },
];

/// Infinities and not a number.
static WORDS: [Row; 8] = [
    Row {
        given: Given::Plain,
        text: ".inf",
        is: Is::Float,
        content: ".inf",
    },
    Row {
        given: Given::Plain,
        text: "+.inf",
        is: Is::Float,
        content: ".inf",
    },
    Row {
        given: Given::Plain,
        text: "-.INF",
        is: Is::Float,
        content: "-.inf",
    },
    Row {
        given: Given::Plain,
        text: "+.Inf",
        is: Is::Float,
        content: ".inf",
    },
    Row {
        given: Given::Plain,
        text: ".NAN",
        is: Is::Float,
        content: ".nan",
    },
    Row {
        given: Given::Plain,
        text: ".nan",
        is: Is::Float,
        content: ".nan",
    },
    Row {
        given: Given::Plain,
        text: "-.nan",
        is: Is::Str,
        content: "-.nan",
    },
    Row {
        given: Given::Float,
        text: ".Inf",
        is: Is::Float,
        content: ".inf",
    },
];

#[test]
fn floats_are_exact(rt: HostRuntime) -> Result<(), Fail> {
    let tables: [&[Row]; 6] = [&FLOATS_1, &FLOATS_2, &ZEROS, &ENDS_1, &ENDS_2, &WORDS];
    for table in &tables {
        for row in *table {
            check(&rt, row)?;
        }
    }
    Ok(())
}

//! Ints in each base, their canonical content, and their range at both ends.
use crate::core_rows::{Given, Is, Row, check};
use std::test::Fail;

/// Each base gives decimal.
static INTS_1: [Row; 9] = [
    Row {
        given: Given::Plain,
        text: "0",
        is: Is::Int,
        content: "0",
    },
    Row {
        given: Given::Plain,
        text: "-0",
        is: Is::Int,
        content: "0",
    },
    Row {
        given: Given::Plain,
        text: "+0",
        is: Is::Int,
        content: "0",
    },
    Row {
        given: Given::Plain,
        text: "000",
        is: Is::Int,
        content: "0",
    },
    Row {
        given: Given::Plain,
        text: "-000",
        is: Is::Int,
        content: "0",
    },
    Row {
        given: Given::Plain,
        text: "+12",
        is: Is::Int,
        content: "12",
    },
    Row {
        given: Given::Plain,
        text: "012",
        is: Is::Int,
        content: "12",
    },
    Row {
        given: Given::Plain,
        text: "-007",
        is: Is::Int,
        content: "-7",
    },
    Row {
        given: Given::Plain,
        text: "-7",
        is: Is::Int,
        content: "-7",
    },
];

static INTS_2: [Row; 9] = [
    Row {
        given: Given::Plain,
        text: "7",
        is: Is::Int,
        content: "7",
    },
    Row {
        given: Given::Plain,
        text: "0x1F",
        is: Is::Int,
        content: "31",
    },
    Row {
        given: Given::Plain,
        text: "0xaB",
        is: Is::Int,
        content: "171",
    },
    Row {
        given: Given::Plain,
        text: "0o17",
        is: Is::Int,
        content: "15",
    },
    Row {
        given: Given::Plain,
        text: "0x0",
        is: Is::Int,
        content: "0",
    },
    Row {
        given: Given::Plain,
        text: "0o0",
        is: Is::Int,
        content: "0",
    },
    Row {
        given: Given::Plain,
        text: "0x00010",
        is: Is::Int,
        content: "16",
    },
    Row {
        given: Given::Int,
        text: "0x1f",
        is: Is::Int,
        content: "31",
    },
    Row {
        given: Given::Int,
        text: "+5",
        is: Is::Int,
        content: "5",
    },
];

/// Ranges end where 128 bits do.
static RANGES_1: [Row; 10] = [
    Row {
        given: Given::Plain,
        text: "170141183460469231731687303715884105727",
        is: Is::Int,
        content: "170141183460469231731687303715884105727",
    },
    Row {
        given: Given::Plain,
        text: "+170141183460469231731687303715884105727",
        is: Is::Int,
        content: "170141183460469231731687303715884105727",
    },
    Row {
        given: Given::Plain,
        text: "000170141183460469231731687303715884105727",
        is: Is::Int,
        content: "170141183460469231731687303715884105727",
    },
    Row {
        given: Given::Plain,
        text: "170141183460469231731687303715884105728",
        is: Is::IntRange,
        content: "",
    },
    Row {
        given: Given::Plain,
        text: "+170141183460469231731687303715884105728",
        is: Is::IntRange,
        content: "",
    },
    Row {
        given: Given::Plain,
        text: "-170141183460469231731687303715884105728",
        is: Is::Int,
        content: "-170141183460469231731687303715884105728",
    },
    Row {
        given: Given::Plain,
        text: "-00170141183460469231731687303715884105728",
        is: Is::Int,
        content: "-170141183460469231731687303715884105728",
    },
    Row {
        given: Given::Plain,
        text: "-170141183460469231731687303715884105729",
        is: Is::IntRange,
        content: "",
    },
    Row {
        given: Given::Plain,
        text: "0x7fffffffffffffffffffffffffffffff",
        is: Is::Int,
        content: "170141183460469231731687303715884105727",
    },
    Row {
        given: Given::Plain,
        text: "0x80000000000000000000000000000000",
        is: Is::IntRange,
        content: "",
    },
];

static RANGES_2: [Row; 10] = [
    Row {
        given: Given::Plain,
        text: "0x80000000000000000000000000000000",
        is: Is::IntRange,
        content: "",
    },
    Row {
        given: Given::Plain,
        text: "0x007fffffffffffffffffffffffffffffff",
        is: Is::Int,
        content: "170141183460469231731687303715884105727",
    },
    Row {
        given: Given::Plain,
        text: "0x100000000000000000000000000000000",
        is: Is::IntRange,
        content: "",
    },
    Row {
        given: Given::Plain,
        text: "0o1777777777777777777777777777777777777777777",
        is: Is::Int,
        content: "170141183460469231731687303715884105727",
    },
    Row {
        given: Given::Plain,
        text: "0o2000000000000000000000000000000000000000000",
        is: Is::IntRange,
        content: "",
    },
    Row {
        given: Given::Plain,
        text: "999999999999999999999999999999999999999",
        is: Is::IntRange,
        content: "",
    },
    Row {
        given: Given::Plain,
        text: "100000000000000000000000000000000000000",
        is: Is::Int,
        content: "100000000000000000000000000000000000000",
    },
    Row {
        given: Given::Plain,
        text: "1000000000000000000000000000000000000000",
        is: Is::IntRange,
        content: "",
    },
    Row {
        given: Given::Quoted,
        text: "170141183460469231731687303715884105728",
        is: Is::Str,
        content: "170141183460469231731687303715884105728",
    },
    Row {
        given: Given::Int,
        text: "170141183460469231731687303715884105728",
        is: Is::IntRange,
        content: "",
    },
];

#[test]
fn ints_are_decimal_and_have_128_bits(rt: HostRuntime) -> Result<(), Fail> {
    let tables: [&[Row]; 4] = [&INTS_1, &INTS_2, &RANGES_1, &RANGES_2];
    for table in &tables {
        for row in *table {
            check(&rt, row)?;
        }
    }
    Ok(())
}

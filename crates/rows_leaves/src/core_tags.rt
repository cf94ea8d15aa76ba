//! Scalars with a tag, with the lone `!`, in quotes, and plain ones by the table.
use crate::core_rows::{Given, Is, Row, check};
use std::test::Fail;

/// Written tags and quotes.
static TAGS_1: [Row; 12] = [
    Row {
        given: Given::Quoted,
        text: "1",
        is: Is::Str,
        content: "1",
    },
    Row {
        given: Given::Quoted,
        text: "",
        is: Is::Str,
        content: "",
    },
    Row {
        given: Given::Quoted,
        text: "null",
        is: Is::Str,
        content: "null",
    },
    Row {
        given: Given::Lone,
        text: "12",
        is: Is::Str,
        content: "12",
    },
    Row {
        given: Given::Lone,
        text: "~",
        is: Is::Str,
        content: "~",
    },
    Row {
        given: Given::Null,
        text: "",
        is: Is::Null,
        content: "null",
    },
    Row {
        given: Given::Null,
        text: "~",
        is: Is::Null,
        content: "null",
    },
    Row {
        given: Given::Null,
        text: "0",
        is: Is::BadContent,
        content: "",
    },
    Row {
        given: Given::Bool,
        text: "TRUE",
        is: Is::Bool,
        content: "true",
    },
    Row {
        given: Given::Bool,
        text: "False",
        is: Is::Bool,
        content: "false",
    },
    Row {
        given: Given::Bool,
        text: "yes",
        is: Is::BadContent,
        content: "",
    },
    Row {
        given: Given::Bool,
        text: "",
        is: Is::BadContent,
        content: "",
    },
];

static TAGS_2: [Row; 12] = [
    Row {
        given: Given::Int,
        text: "0o8",
        is: Is::BadContent,
        content: "",
    },
    Row {
        given: Given::Int,
        text: "x",
        is: Is::BadContent,
        content: "",
    },
    Row {
        given: Given::Int,
        text: "1.0",
        is: Is::BadContent,
        content: "",
    },
    Row {
        given: Given::Float,
        text: "0x1",
        is: Is::BadContent,
        content: "",
    },
    Row {
        given: Given::Float,
        text: "",
        is: Is::BadContent,
        content: "",
    },
    Row {
        given: Given::Float,
        text: "1e",
        is: Is::BadContent,
        content: "",
    },
    Row {
        given: Given::Str,
        text: "12",
        is: Is::Str,
        content: "12",
    },
    Row {
        given: Given::Str,
        text: "",
        is: Is::Str,
        content: "",
    },
    Row {
        given: Given::Seq,
        text: "x",
        is: Is::WrongKind,
        content: "",
    },
    Row {
        given: Given::Map,
        text: "",
        is: Is::WrongKind,
        content: "",
    },
    Row {
        given: Given::Own,
        text: "1",
        is: Is::Own,
        content: "1",
    },
    Row {
        given: Given::Own,
        text: "a b",
        is: Is::Own,
        content: "a b",
    },
];

/// Plain scalars.
static PLAIN: [Row; 11] = [
    Row {
        given: Given::Plain,
        text: "",
        is: Is::Null,
        content: "null",
    },
    Row {
        given: Given::Plain,
        text: "~",
        is: Is::Null,
        content: "null",
    },
    Row {
        given: Given::Plain,
        text: "NULL",
        is: Is::Null,
        content: "null",
    },
    Row {
        given: Given::Plain,
        text: "True",
        is: Is::Bool,
        content: "true",
    },
    Row {
        given: Given::Plain,
        text: "FALSE",
        is: Is::Bool,
        content: "false",
    },
    Row {
        given: Given::Plain,
        text: "+0x1",
        is: Is::Str,
        content: "+0x1",
    },
    Row {
        given: Given::Plain,
        text: "1_000",
        is: Is::Str,
        content: "1_000",
    },
    Row {
        given: Given::Plain,
        text: "abc",
        is: Is::Str,
        content: "abc",
    },
    Row {
        given: Given::Plain,
        text: "-.nan",
        is: Is::Str,
        content: "-.nan",
    },
    Row {
        given: Given::Plain,
        text: "<<",
        is: Is::Str,
        content: "<<",
    },
    Row {
        given: Given::Plain,
        text: "é",
        is: Is::Str,
        content: "é",
    },
];

#[test]
fn tags_and_quotes_are_kept_to(rt: HostRuntime) -> Result<(), Fail> {
    let tables: [&[Row]; 3] = [&TAGS_1, &TAGS_2, &PLAIN];
    for table in &tables {
        for row in *table {
            check(&rt, row)?;
        }
    }
    Ok(())
}

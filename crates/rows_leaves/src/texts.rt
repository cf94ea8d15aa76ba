//! White space, structural characters, values, objects and arrays (RFC 8259, 2 to 5).
use crate::json_rows::{Row, answers};
use std::test::Fail;

static TEXTS: [Row; 24] = [
    ("null", true),
    ("true", true),
    ("false", true),
    ("0", true),
    ("\"a\"", true),
    ("[]", true),
    ("{}", true),
    (" \t\r\nnull\n\r\t ", true),
    (" [ ] ", true),
    ("\n{\t}\r", true),
    ("", false),
    (" ", false),
    ("nul", false),
    ("nulll", false),
    ("Null", false),
    ("TRUE", false),
    ("truefalse", false),
    ("1 2", false),
    ("null,", false),
    ("\u{FEFF}null", false),
    ("null\u{A0}", false),
    ("\u{B}null", false),
    ("null // no", false),
    ("/**/null", false),
];

static ARRAYS: [Row; 20] = [
    ("[1]", true),
    ("[1,2,3]", true),
    ("[ 1 , 2 ]", true),
    ("[null,[true,[false,[]]],{}]", true),
    ("[[],[[]]]", true),
    ("[1,\n2]", true),
    ("[", false),
    ("]", false),
    ("[1", false),
    ("[1,", false),
    ("[1,]", false),
    ("[,1]", false),
    ("[1,,2]", false),
    ("[1 2]", false),
    ("[1}", false),
    ("[]]", false),
    ("[[]", false),
    ("[\"a\":1]", false),
    ("[,]", false),
    ("[a]", false),
];

static OBJECTS: [Row; 28] = [
    ("{\"a\":1}", true),
    ("{\"a\": 1, \"b\": 2}", true),
    ("{ \"a\" : 1 , \"b\" : 2 }", true),
    ("{\"a\":1,\"a\":2}", true),
    ("{\"\":0}", true),
    ("{\"a\":{\"b\":{\"c\":{}}}}", true),
    ("{\"a\":[{\"b\":[]},{}],\"c\":null}", true),
    ("{\"\\u0061\":\"\\n\"}", true),
    ("{", false),
    ("}", false),
    ("{\"a\"", false),
    ("{\"a\":", false),
    ("{\"a\":1", false),
    ("{\"a\":1,", false),
    ("{\"a\":1,}", false),
    ("{,\"a\":1}", false),
    ("{\"a\":1,,\"b\":2}", false),
    ("{\"a\":1 \"b\":2}", false),
    ("{\"a\"}", false),
    ("{\"a\",1}", false),
    ("{\"a\"::1}", false),
    ("{\"a\":}", false),
    ("{a:1}", false),
    ("{1:1}", false),
    ("{null:1}", false),
    ("{[]:1}", false),
    ("{\"a\":1]", false),
    ("{\"a\":1}}", false),
];

#[test]
fn a_text_is_one_value_between_white_space(rt: HostRuntime) -> Result<(), Fail> {
    for row in &TEXTS {
        answers(&rt, row)?;
    }
    Ok(())
}

#[test]
fn an_array_has_values_between_commas(rt: HostRuntime) -> Result<(), Fail> {
    for row in &ARRAYS {
        answers(&rt, row)?;
    }
    Ok(())
}

#[test]
fn an_object_has_members_between_commas(rt: HostRuntime) -> Result<(), Fail> {
    for row in &OBJECTS {
        answers(&rt, row)?;
    }
    Ok(())
}

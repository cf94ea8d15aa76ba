//! The values of streams, each written as a line.
use std::process::Abort;
use std::test::Fail;
use yaml_values::{Value, Values, values};

/// The numbers from one place up to another, each after a space.
fn numbers<T: Abort + AllocGlobal>(rt: &T, parts: &[u32]) -> Result<String, Fail> {
    let mut text = String::new(rt.alloc());
    for part in parts {
        text.push_str(format!(in rt.alloc(); " {part}")?.as_str())?;
    }
    Ok(text)
}

/// A value as a line: its kind, its tag, and its content or its parts.
fn line<T: Abort + AllocGlobal>(rt: &T, made: &Values, value: &Value) -> Result<String, Fail> {
    let texts = made.texts.as_str();
    let tag = texts
        .get(value.tag_start as usize..value.tag_end as usize)
        .unwrap_or("?");
    let kind = value.kind;
    let (start, end) = (value.start as usize, value.end as usize);
    if kind < 6 {
        let content = texts.get(start..end).unwrap_or("?");
        return Ok(format!(in rt.alloc(); "{kind} {tag} {content}\n")?);
    }
    let parts = numbers(rt, made.parts.get(start..end).unwrap_or(&[]))?;
    Ok(format!(in rt.alloc(); "{kind} {tag}{parts}\n")?)
}

/// All values, a line each, and then the documents.
fn shown<T: Abort + AllocGlobal>(rt: &T, input: &str) -> Result<String, Fail> {
    let made = match values(rt.alloc(), input.as_bytes()) {
        Ok(made) => made,
        Err(fault) => return Ok(format!(in rt.alloc(); "{fault}")?),
    };
    let mut text = String::new(rt.alloc());
    for value in &made.values {
        text.push_str(line(rt, &made, value)?.as_str())?;
    }
    let documents = numbers(rt, made.parts.get(..made.documents).unwrap_or(&[]))?;
    text.push_str("documents")?;
    text.push_str(documents.as_str())?;
    Ok(text)
}

/// A stream, and its values.
struct Row {
    input: &'static str,
    values: &'static str,
}

static ROWS: [Row; 8] = [
    // no document
    Row {
        input: "",
        values: "documents",
    },
    // each kind of scalar, in the order of tags
    Row {
        input: "[a, 0x10, ~, 1.50, !t b, yes, TRUE]",
        values: "5 !t b\n1 tag:yaml.org,2002:bool true\n3 tag:yaml.org,2002:float 1.5\n2 tag:yaml.org,2002:int 16\n0 tag:yaml.org,2002:null null\n4 tag:yaml.org,2002:str a\n4 tag:yaml.org,2002:str yes\n6 tag:yaml.org,2002:seq 5 3 4 2 0 6 1\ndocuments 7",
    },
    // entries are in the order of their keys
    Row {
        input: "{b: 0x1, a: [~]}",
        values: "2 tag:yaml.org,2002:int 1\n0 tag:yaml.org,2002:null null\n4 tag:yaml.org,2002:str a\n4 tag:yaml.org,2002:str b\n6 tag:yaml.org,2002:seq 1\n7 tag:yaml.org,2002:map 2 4 3 0\ndocuments 5",
    },
    // equal nodes are one value, with and without an alias
    Row {
        input: "- &x [q]\n- *x\n- [q]\n- [[q], [q]]",
        values: "4 tag:yaml.org,2002:str q\n6 tag:yaml.org,2002:seq 0\n6 tag:yaml.org,2002:seq 1 1\n6 tag:yaml.org,2002:seq 1 1 1 2\ndocuments 3",
    },
    // documents, in order
    Row {
        input: "--- b\n--- a\n--- b\n",
        values: "4 tag:yaml.org,2002:str a\n4 tag:yaml.org,2002:str b\ndocuments 1 0 1",
    },
    // empty collections and other tags
    Row {
        input: "[[], {}, !s [], !m {}]",
        values: "6 !s\n6 tag:yaml.org,2002:seq\n7 !m\n7 tag:yaml.org,2002:map\n6 tag:yaml.org,2002:seq 1 3 0 2\ndocuments 4",
    },
    // a rejection
    Row {
        input: "{1: a, 0x1: b}",
        values: "19 EqualKeys in node 4, entries 0 and 1",
    },
    Row {
        input: "a:\tb",
        values: "5 Tab at byte 2",
    },
];

#[test]
fn streams_have_their_values(rt: HostRuntime) -> Result<(), Fail> {
    for row in &ROWS {
        let found = shown(&rt, row.input)?;
        assert_eq!(rt; found.as_str(), row.values, "{:?}", row.input);
    }
    Ok(())
}

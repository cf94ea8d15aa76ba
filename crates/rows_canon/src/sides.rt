//! Comparisons of which one side is rejected: the fault is what the canonicaliser answers for that side alone.
use std::alloc::Global;
use std::process::Abort;
use std::test::Fail;
use yaml_canon::{Side, canonical, same};

/// What is rejected, by the beginning of its message.
struct Row {
    fault: &'static str,
    text: &'static str,
}

/// Texts that `canonical` rejects.
static REJECTED: [Row; 14] = [
    Row {
        fault: "10 UnknownHandle ",
        text: "--- &x a\n--- !e!x b\n",
    },
    Row {
        fault: "4 Syntax ",
        text: "--- &x [a, *x]\n--- [",
    },
    Row {
        fault: "12 UndefinedAlias ",
        text: "--- {a: &x b}\n--- *x\n",
    },
    Row {
        fault: "12 UndefinedAlias ",
        text: "- &x a\n- *x\n- *y\n",
    },
    Row {
        fault: "13 CyclicAlias ",
        text: "--- &x a\n--- &x [a, {b: *x}]\n",
    },
    Row {
        fault: "14 WrongKind ",
        text: "- &x a\n- !!map [*x]\n",
    },
    Row {
        fault: "15 BadContent ",
        text: "--- &x [a]\n--- {&x !!int b : [c]}\n",
    },
    Row {
        fault: "16 IntRange ",
        text: "--- a\n--- &x 170141183460469231731687303715884105728\n--- b\n",
    },
    Row {
        fault: "17 FloatRange ",
        text: "{a: &x [b], c: [*x, 1e1000001]}",
    },
    Row {
        fault: "13 CyclicAlias ",
        text: "--- a\n--- &x [a, *x, &x !!float 1e1000001]\n",
    },
    Row {
        fault: "19 EqualKeys ",
        text: "--- {a: b}\n--- {&x c: d, *x : e}\n",
    },
    Row {
        fault: "19 EqualKeys ",
        text: "- &x [a, b]\n- *x\n- {[a, b]: c, d: e, *x : f}\n",
    },
    Row {
        fault: "19 EqualKeys ",
        text: "--- {a: 1, a: 2}\n--- {{a: 1}: 1, {a: 1}: 2, {a: 1}: 3}\n",
    },
    Row {
        fault: "19 EqualKeys ",
        text: "{&x {k: v}: {k: v}, *x : w}",
    },
];

/// Texts that are accepted.
static ACCEPTED: [&str; 5] = [
    "",
    "a",
    "- &x [a, b]\n- *x\n- {c: *x, *x : d}\n",
    "--- &x {k: v}\n--- [&x 1, *x, 2]\n--- b\n",
    "--- {a: b}\n--- {c: d}\n",
];

/// What `canonical` answers for a text alone: the message of its fault.
fn alone(alloc: Global, text: &str) -> Result<String, Fail> {
    match canonical(alloc, text.as_bytes()) {
        Ok(_) => Ok("accepted".to_string(alloc)?),
        Err(fault) => Ok(format!(in alloc; "{fault}")?),
    }
}

/// What `same` answers: the side, and the message of the fault.
fn compared(alloc: Global, left: &str, right: &str) -> Result<String, Fail> {
    match same(alloc, left.as_bytes(), right.as_bytes()) {
        Ok(_) => Ok("compared".to_string(alloc)?),
        Err((Side::Left, fault)) => Ok(format!(in alloc; "left: {fault}")?),
        Err((Side::Right, fault)) => Ok(format!(in alloc; "right: {fault}")?),
    }
}

/// Asserts that a text is rejected as each side of a comparison with an accepted one, by the fault that it has alone.
fn is_rejected<T: Abort + AllocGlobal>(rt: &T, fault: &str, text: &str) -> Result<(), Fail> {
    let alloc = rt.alloc();
    let message = alone(alloc, text)?;
    assert!(rt; message.as_str().starts_with(fault), "{text}: {message}");
    let left = format!(in alloc; "left: {message}")?;
    let right = format!(in alloc; "right: {message}")?;
    for accepted in &ACCEPTED {
        let other = *accepted;
        let got = compared(alloc, other, text)?;
        assert_eq!(rt; got.as_str(), right.as_str(), "{other} and {text}");
        let got = compared(alloc, text, other)?;
        assert_eq!(rt; got.as_str(), left.as_str(), "{text} and {other}");
    }
    Ok(())
}

#[test]
fn a_side_has_the_fault_that_it_has_alone(rt: HostRuntime) -> Result<(), Fail> {
    for row in &REJECTED {
        is_rejected(&rt, row.fault, row.text)?;
    }
    Ok(())
}

/// Three documents, of which the second is a sequence of one more item than that, each of which has the one before it in it.
fn linked(alloc: Global, count: usize) -> Result<String, Fail> {
    let mut text = "--- &x b\n---\n- &a0 [x]\n".to_string(alloc)?;
    for item in 0..count {
        let next = item + 1;
        let line = format!(in alloc; "- &a{next} [*a{item}]\n")?;
        text.push_str(line.as_str())?;
    }
    text.push_str("--- c\n")?;
    Ok(text)
}

#[test]
fn a_high_document_is_that_of_its_side(rt: HostRuntime) -> Result<(), Fail> {
    let text = linked(rt.alloc(), 1023)?;
    is_rejected(&rt, "18 TooHigh in document 1", text.as_str())
}

/// Two texts that are rejected, and what `same` answers.
struct Pair {
    left: &'static str,
    right: &'static str,
    answer: &'static str,
}

static PAIRS: [Pair; 6] = [
    Pair {
        left: "{a: 1, a: 2}",
        right: "*x",
        answer: "right: 12 UndefinedAlias at event 2",
    },
    Pair {
        left: "{a: 1, a: 2}",
        right: "[",
        answer: "right: 4 Syntax at byte 1",
    },
    Pair {
        left: "*x",
        right: "[",
        answer: "left: 12 UndefinedAlias at event 2",
    },
    Pair {
        left: "--- {a: [b]}\n--- [{a: 1, a: 2}]",
        right: "{a: 1, a: 2}",
        answer: "left: 19 EqualKeys in node 8, entries 0 and 1",
    },
    Pair {
        left: "{[a]: 1, [a]: 2}",
        right: "--- b\n--- {c: 1, d: 1, c: 3}",
        answer: "right: 19 EqualKeys in node 7, entries 0 and 2",
    },
    Pair {
        left: "--- {c: 1, d: 1, c: 3}",
        right: "{{k: v}: 1, {k: v}: 2}",
        answer: "left: 19 EqualKeys in node 6, entries 0 and 2",
    },
];

#[test]
fn the_left_side_is_judged_first_but_for_equal_keys(rt: HostRuntime) -> Result<(), Fail> {
    for pair in &PAIRS {
        let got = compared(rt.alloc(), pair.left, pair.right)?;
        assert_eq!(rt;
            got.as_str(),
            pair.answer,
            "{} and {}",
            pair.left,
            pair.right
        );
    }
    Ok(())
}

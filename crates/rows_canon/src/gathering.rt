//! Readers that are read whole.
use crate::streams::Source;
use std::test::Fail;
use yaml_canon::gather;
use yaml_text::counted::Counted;

/// Inputs by the limit 3: the bytes, how many a call gives and the call that fails, if any; what is read,
/// or the message of the fault, and the count.
static ROWS: [(&str, usize, u32, &str, u64); 8] = [
    ("abc", 1, 0, "abc", 0),
    ("abc", 2, 0, "abc", 0),
    ("abc", 3, 0, "abc", 0),
    ("abc", 4096, 0, "abc", 0),
    ("abcd", 2, 0, "1 TooLong", 0),
    ("abcdefgh", 2, 0, "1 TooLong", 0),
    ("abc", 2, 1, "22 ReadFault", 1),
    ("abc", 2, 3, "22 ReadFault", 1),
];

#[test]
fn an_input_of_the_limit_is_read_and_others_are_told(rt: HostRuntime) -> Result<(), Fail> {
    let alloc = rt.alloc();
    for (text, step, bad, told, faults) in &ROWS {
        let mut input = Counted::new(Source {
            bytes: text.as_bytes(),
            step: *step,
            calls: 0,
            bad: *bad,
        });
        let got = match gather(alloc, &mut input, 3) {
            Ok(bytes) => String::from_utf8(bytes)?,
            Err(fault) => format!(in alloc; "{fault}")?,
        };
        assert!(rt;
            got.as_str() == *told && input.faults() == *faults,
            "{text} by {step}, call {bad}: {got} {}",
            input.faults()
        );
    }
    Ok(())
}

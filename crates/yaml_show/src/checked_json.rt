//! Whether lines are JSON.
ghost use Rattle.std.specs.Prelude.{◌≡◌, true, string_bytes, IfOk, IfErr};
ghost use Rattle.std.specs.List.{All, list_all};
ghost use Rattle.yaml_canon.specs.Accepting.{IsMemory};
ghost use Rattle.yaml_show.specs.Lines.{is_inside, IsJsonLine};

use std::alloc::Global;
use yaml_json::is_json;
use yaml_text::fault::Fault;

/// Whether a byte is no line feed.
fn is_inside(byte: u8) -> bool
    ensures { result ≡ is_inside byte }
{
    byte != b'\n'
}

/// Whether a text has no line feed.
fn is_line(text: &str) -> bool
    ensures { result ≡ list_all is_inside text.now }
{
    text.as_bytes().iter().all(|byte| is_inside(*byte))
}

/// Whether a text is JSON on one line.
///
/// # Errors
/// `OutOfMemory`
fn is_json_line(alloc: Global, text: &str) -> Result<bool, Fault>
    ensures json { IfOk result (λ answer. answer ≡ true → IsJsonLine text.now) }
    ensures memory { IfErr result IsMemory }
{
    if !is_line(text) {
        return Ok(false);
    }
    let answer = is_json(alloc, text)?;
    Ok(answer)
}

/// Whether each text is JSON on one line.
///
/// # Errors
/// `OutOfMemory`
pub(crate) fn are_json_lines(alloc: Global, lines: &[String]) -> Result<bool, Fault>
    ensures json { IfOk result (λ answer. answer ≡ true → All (λ line. IsJsonLine (string_bytes line)) lines.now) }
    ensures memory { IfErr result IsMemory }
{
    for line in lines {
        if !is_json_line(alloc, line.as_str())? {
            return Ok(false);
        }
    }
    Ok(true)
}

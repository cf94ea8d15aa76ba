//! Lines as one text.
ghost use Rattle.std.specs.Prelude.{◌≡◌, ◌++◌, map, string_bytes, OnOk, IfOk, IfErr};
ghost use Rattle.yaml_canon.specs.Accepting.{IsMemory};
ghost use Rattle.yaml_show.specs.Lines.{line_after, joined};

use std::alloc::Global;
use yaml_text::fault::Fault;

/// Writes a line after a text, and ends it by a line feed.
fn put_line(out: &mut String, before: &str, line: &str) -> Result<(), Fault>
    ensures ok { OnOk result (string_bytes out.new ≡ string_bytes out.old ++ line_after before.now line.now) }
    ensures err { IfErr result IsMemory }
{
    out.push_str(before)?;
    out.push_str(line)?;
    out.push_str("\n")?;
    Ok(())
}

/// The lines, each after a text and ended by a line feed.
///
/// # Errors
/// `OutOfMemory`
pub(crate) fn join(alloc: Global, before: &str, lines: &[String]) -> Result<String, Fault>
    ensures ok { IfOk result (λ text. string_bytes text ≡ joined before.now (map string_bytes lines.now)) }
    ensures err { IfErr result IsMemory }
{
    let mut text = String::new(alloc);
    for line in lines {
        put_line(&mut text, before, line.as_str())?;
    }
    Ok(text)
}

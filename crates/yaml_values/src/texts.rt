//! Texts, one after another.
ghost use Rattle.std.specs.Prelude.{◌≡◌, length, IfOk, IsTrue};
ghost use Rattle.std.specs.String.{string_bytes};
ghost use Rattle.yaml_values.specs.Ranges.{IsRange, Puts};

use crate::value::Span;
use yaml_text::fault::Fault;

/// What every place is below.
const ROOM: usize = 4_294_967_295;

/// A place, if it fits.
pub(crate) fn place(at: usize) -> Result<u32, Fault>
    ensures { IfOk result (λ n. n ≡ at) }
{
    if at >= ROOM {
        return Err(Fault::OutOfMemory);
    }
    Ok(at as u32)
}

/// Puts a text behind the others. Where it is.
pub(crate) fn put_text(texts: &mut String, text: &str) -> Result<Span, Fault>
    ensures { IfOk result (λ s. Puts (string_bytes texts.old) (string_bytes texts.new) s.start s.end text.now) }
{
    let start = place(texts.as_str().len())?;
    texts.push_str(text)?;
    let end = place(texts.as_str().len())?;
    Ok(Span { start, end })
}

/// Whether this text is there.
pub(crate) fn has_text(texts: &str, span: Span, text: &str) -> bool
    ensures { IsTrue result → IsRange texts.now span.start span.end text.now }
{
    let all = texts.as_bytes();
    if span.start > span.end || span.end as usize > all.len() {
        return false;
    }
    &all[span.start as usize..span.end as usize] == text.as_bytes()
}

//! A text that is held whole.
ghost use Rattle.std.specs.Prelude.{◌≡◌, ◌++◌, ◌∷◌, [], OnOk, IfErr};
ghost use Rattle.std.specs.String.{string_bytes};
ghost use Rattle.yaml_scalar.specs.Spelling.{quoted_bytes};
ghost use Rattle.yaml_definitions.specs.grammar.Characters.{c-double-quote};

use crate::quoted::is_unescaped;
use crate::sink::Sink;
use crate::stop::Stop;
use yaml_scalar::spell::spell_into;

/// Puts a text at the end of a string.
#[derive(Drop)]
pub struct Whole;

/// Puts a text between quotes at the end of a string.
fn push_quoted(text: &str, out: &mut String) -> Result<(), Stop>
    ensures ok { OnOk result (string_bytes out.new ≡ string_bytes out.old ++ (c-double-quote ∷ (text.now ++ (c-double-quote ∷ [])))) }
    ensures err { IfErr result (λ stop. stop ≡ Stop.OutOfMemory) }
{
    out.push_str("\"")?;
    out.push_str(text)?;
    out.push_str("\"")?;
    Ok(())
}

/// Puts a content's spelling at the end of a string.
fn push_spelled(content: &str, out: &mut String) -> Result<(), Stop>
    ensures ok { OnOk result (string_bytes out.new ≡ string_bytes out.old ++ quoted_bytes content.now) }
    ensures err { IfErr result (λ stop. stop ≡ Stop.OutOfMemory) }
{
    if is_unescaped(content) {
        return push_quoted(content, out);
    }
    spell_into(content, out).map_err(|_| Stop::OutOfMemory)
}

impl Sink<String> for Whole {
    ghost use Rattle.std.specs.Prelude.{◌≡◌};
    ghost use Rattle.std.specs.String.{string_bytes};
    ghost use Rattle.yaml_text.specs.declared.fault.Fault.TheVariants.{OutOfMemory};

    ghost holds = { λ _ out _ xs. string_bytes out ≡ xs };

    ghost stops = { λ _ _ fault _. fault ≡ OutOfMemory };

    fn put(&mut self, out: &mut String, piece: &str) -> Result<(), Stop> {
        out.push_str(piece)?;
        Ok(())
    }

    fn put_spelled(&mut self, out: &mut String, content: &str) -> Result<(), Stop> {
        push_spelled(content, out)
    }

    #[inline(always)]
    fn count(&mut self, _out: &mut String, _len: usize) -> Result<bool, Stop> {
        Ok(false)
    }
}

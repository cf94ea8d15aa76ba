//! Texts between double quotes, in YAML (YAML 1.2.2, 5.7) and in JSON (RFC 8259, 7).
ghost use Rattle.std.specs.Prelude.{◌≡◌, ◌++◌, OnOk, IfErr};
ghost use Rattle.yaml_show_scalar.specs.Escapes.{is_escaped, code_escape, json_escape, escape_text, escaped, quoted};
ghost use Rattle.yaml_show_scalar.specs.declared.escapes.Language.TheVariants.{Yaml, Json};
ghost use Rattle.yaml_show_scalar.specs.Stops.{limit_of, Stops};
ghost use Rattle.yaml_show_scalar.specs.Texts.{written};

use crate::chars::is_unseen;
use crate::output::Out;
use crate::stop::Stop;

/// In which language a text is quoted.
#[derive(Clone, Copy, PartialEq, Eq)]
pub enum Language {
    Yaml,
    Json,
}

/// Whether a character is written as an escape. JSON has no escape of one code past the basic plane, so there it is written as it is.
#[tactic(auto, unfolding(crate::specs::Escapes::is_escaped))]
fn is_escaped(c: char, language: Language) -> bool
    ensures { result ≡ is_escaped language c }
{
    if c == '"' || c == '\\' {
        return true;
    }
    match language {
        Language::Yaml => is_unseen(c),
        Language::Json => is_unseen(c) && u32::from(c) < 65_536,
    }
}

/// Writes the code of a character as `\x`, `\u` or `\U` with two, four or eight digits. JSON has `\u` alone.
fn put_code(out: &mut Out, code: u32, language: Language) -> Result<(), Stop>
    ensures ok { OnOk result (written out.new ≡ written out.old ++ code_escape language code) }
    ensures limit { limit_of out.new ≡ limit_of out.old }
    ensures err { IfErr result (Stops (limit_of out.old) (written out.old ++ code_escape language code)) }
{
    if language == Language::Json {
        out.put("\\u")?;
        return out.put_four(code);
    }
    if code < 256 {
        out.put("\\x")?;
        out.put_digit(code / 16)?;
        return out.put_digit(code);
    }
    if code < 65_536 {
        out.put("\\u")?;
        return out.put_four(code);
    }
    out.put("\\U")?;
    out.put_four(code / 65_536)?;
    out.put_four(code)
}

/// The escape of a character: of two characters if the language has one, else by its code.
#[tactic(auto, unfolding(crate::specs::Escapes::escape_text))]
fn put_escape(out: &mut Out, c: char, language: Language) -> Result<(), Stop>
    ensures ok { OnOk result (written out.new ≡ written out.old ++ escape_text language c) }
    ensures limit { limit_of out.new ≡ limit_of out.old }
    ensures err { IfErr result (Stops (limit_of out.old) (written out.old ++ escape_text language c)) }
{
    match c {
        '"' => out.put("\\\""),
        '\\' => out.put("\\\\"),
        '\n' => out.put("\\n"),
        '\t' => out.put("\\t"),
        _ => match language {
            Language::Yaml => put_code(out, u32::from(c), language),
            Language::Json => put_json_escape(out, c),
        },
    }
}

/// The further escapes of two characters that JSON has, and those by a code.
#[tactic(auto, unfolding(crate::specs::Escapes::json_escape))]
fn put_json_escape(out: &mut Out, c: char) -> Result<(), Stop>
    ensures ok { OnOk result (written out.new ≡ written out.old ++ json_escape c) }
    ensures limit { limit_of out.new ≡ limit_of out.old }
    ensures err { IfErr result (Stops (limit_of out.old) (written out.old ++ json_escape c)) }
{
    match c {
        '\r' => out.put("\\r"),
        '\u{8}' => out.put("\\b"),
        '\u{C}' => out.put("\\f"),
        _ => put_code(out, u32::from(c), Language::Json),
    }
}

/// Writes a text with its escapes. What needs none is written in runs.
fn put_runs(out: &mut Out, text: &str, language: Language) -> Result<(), Stop>
    ensures ok { OnOk result (written out.new ≡ written out.old ++ escaped language text.now) }
    ensures limit { limit_of out.new ≡ limit_of out.old }
    ensures err { IfErr result (Stops (limit_of out.old) (written out.old ++ escaped language text.now)) }
{
    let mut run = 0;
    'spell: for (at, c) in text.char_indices() {
        if is_escaped(c, language) {
            out.put(&text[run..at])?;
            put_escape(out, c, language)?;
            run = at + c.len_utf8();
        }
    }
    out.put(&text[run..])
}

/// Writes what stands for a text between double quotes.
pub fn put_escaped(out: &mut Out, text: &str) -> Result<(), Stop>
    ensures ok { OnOk result (written out.new ≡ written out.old ++ escaped Yaml text.now) }
    ensures limit { limit_of out.new ≡ limit_of out.old }
    ensures err { IfErr result (Stops (limit_of out.old) (written out.old ++ escaped Yaml text.now)) }
{
    put_runs(out, text, Language::Yaml)
}

/// Writes a double-quoted scalar on one line.
pub fn put_quoted(out: &mut Out, text: &str) -> Result<(), Stop>
    ensures ok { OnOk result (written out.new ≡ written out.old ++ quoted Yaml text.now) }
    ensures limit { limit_of out.new ≡ limit_of out.old }
    ensures err { IfErr result (Stops (limit_of out.old) (written out.old ++ quoted Yaml text.now)) }
{
    out.put("\"")?;
    put_escaped(out, text)?;
    out.put("\"")
}

/// Writes a string of JSON.
pub fn put_json_string(out: &mut Out, text: &str) -> Result<(), Stop>
    ensures ok { OnOk result (written out.new ≡ written out.old ++ quoted Json text.now) }
    ensures limit { limit_of out.new ≡ limit_of out.old }
    ensures err { IfErr result (Stops (limit_of out.old) (written out.old ++ quoted Json text.now)) }
{
    out.put("\"")?;
    put_runs(out, text, Language::Json)?;
    out.put("\"")
}

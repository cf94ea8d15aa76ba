//! The classes of characters (YAML 1.2.2, chapter 5).
ghost use Rattle.std.specs.Prelude.{◌≡◌};
ghost use Rattle.yaml_definitions.specs.model.Text.{is_text};
ghost use Rattle.yaml_text.specs.EventModel.{context_of};
ghost use Rattle.yaml_text.specs.Lines.{is_key};
ghost use Rattle.yaml_definitions.specs.grammar.Characters.{is_printable, is_white, is_break, is_ns, is_word, is_uri, is_indicator, is_flow_indicator};
ghost use Rattle.yaml_definitions.specs.grammar.FlowScalars.{is_flow, plain_safe};

use crate::context::Ctx;

/// Whether `c` is printable (5.1). U+FEFF is.
#[tactic(auto, unfolding(yaml_definitions::specs::grammar::Characters::is_printable))]
pub fn is_printable(c: char) -> bool
    ensures { result ≡ is_printable c }
{
    matches!(
        c,
        '\t' | '\n' | '\r' | ' '..='~' | '\u{85}' | '\u{A0}'..='\u{D7FF}' | '\u{E000}'..='\u{FFFD}' | '\u{10000}'..='\u{10FFFF}'
    )
}

/// Whether `c` is a space or a tab (5.5).
#[tactic(auto, unfolding(yaml_definitions::specs::grammar::Characters::is_white))]
pub fn is_white(c: char) -> bool
    ensures { result ≡ is_white c }
{
    matches!(c, ' ' | '\t')
}

/// Whether `c` is a line feed or a carriage return (5.4).
#[tactic(auto, unfolding(yaml_definitions::specs::grammar::Characters::is_break))]
pub fn is_break(c: char) -> bool
    ensures { result ≡ is_break c }
{
    matches!(c, '\n' | '\r')
}

/// Whether `c` is an ASCII letter, a digit or `-` (5.6).
#[tactic(auto, unfolding(yaml_definitions::specs::grammar::Characters::is_word))]
pub fn is_word(c: char) -> bool
    ensures { result ≡ is_word c }
{
    c.is_ascii_alphanumeric() || c == '-'
}

/// Whether `c` is a character of a URI that is written as itself (5.6). `%` is not.
#[tactic(auto, unfolding(yaml_definitions::specs::grammar::Characters::is_uri))]
pub fn is_uri(c: char) -> bool
    ensures { result ≡ is_uri c }
{
    is_word(c)
        || matches!(
            c,
            '#' | ';'
                | '/'
                | '?'
                | ':'
                | '@'
                | '&'
                | '='
                | '+'
                | '$'
                | ','
                | '_'
                | '.'
                | '!'
                | '~'
                | '*'
                | '\''
                | '('
                | ')'
                | '['
                | ']'
        )
}

/// Whether `c` is a bracket, a brace or a comma (5.3).
#[tactic(auto, unfolding(yaml_definitions::specs::grammar::Characters::is_flow_indicator))]
pub fn is_flow_indicator(c: char) -> bool
    ensures { result ≡ is_flow_indicator c }
{
    matches!(c, ',' | '[' | ']' | '{' | '}')
}

/// Whether a character is no white and no break (YAML 1.2.2, 5.5).
#[tactic(auto, unfolding(yaml_definitions::specs::grammar::Characters::is_ns, yaml_definitions::specs::grammar::Characters::is_nb))]
pub fn is_ns(c: char) -> bool
    ensures { result ≡ is_ns c }
{
    !is_break(c) && !is_white(c)
}

/// Whether a character has a meaning of its own where a node begins (5.3).
#[tactic(auto, unfolding(yaml_definitions::specs::grammar::Characters::is_indicator))]
pub fn is_indicator(c: char) -> bool
    ensures { result ≡ is_indicator c }
{
    matches!(
        c,
        '-' | '?'
            | ':'
            | ','
            | '['
            | ']'
            | '{'
            | '}'
            | '#'
            | '&'
            | '*'
            | '!'
            | '|'
            | '>'
            | '\''
            | '"'
            | '%'
            | '@'
            | '`'
    )
}

/// Whether a context is inside a flow collection.
#[tactic(auto, unfolding(yaml_definitions::specs::grammar::FlowScalars::is_flow))]
pub fn is_flow(context: Ctx) -> bool
    ensures { result ≡ is_flow (context_of context) }
{
    match context {
        Ctx::FlowIn => true,
        Ctx::FlowKey => true,
        Ctx::BlockOut => false,
        Ctx::BlockIn => false,
        Ctx::FlowOut => false,
        Ctx::BlockKey => false,
    }
}

/// Whether a context is that of a key on one line.
pub fn is_key(context: Ctx) -> bool
    ensures { result ≡ is_key (context_of context) }
{
    match context {
        Ctx::BlockKey => true,
        Ctx::FlowKey => true,
        Ctx::BlockOut => false,
        Ctx::BlockIn => false,
        Ctx::FlowOut => false,
        Ctx::FlowIn => false,
    }
}

/// Whether a character is safe in a plain scalar (7.3.3).
#[tactic(auto, unfolding(yaml_definitions::specs::grammar::FlowScalars::plain_safe))]
pub fn is_plain_safe(context: Ctx, c: char) -> bool
    ensures { result ≡ plain_safe (context_of context) c }
{
    is_ns(c) && !(is_flow(context) && is_flow_indicator(c))
}

/// Whether `c` may stand in a checked text, after the mark that its input may begin with.
pub(crate) fn is_text(c: char) -> bool
    ensures { result ≡ is_text c }
{
    is_printable(c) && c != '\u{FEFF}'
}

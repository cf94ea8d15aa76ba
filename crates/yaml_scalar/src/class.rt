//! The classes of characters that a scalar asks for.
ghost use Rattle.std.specs.Prelude.{◌≡◌, ◌≤◌, ◌<◌, ℕ, true, length, slice_index};
ghost use Rattle.yaml_definitions.specs.grammar.Separation.{flow_in};
ghost use Rattle.yaml_text.specs.EventModel.{context_of};
ghost use Rattle.yaml_definitions.specs.grammar.Characters.{c-double-quote, c-single-quote};
ghost use Rattle.yaml_scalar.specs.Chains.{plain_inner, plain_head, plain_sign, verbatim};

use yaml_text::class::{is_indicator, is_ns, is_plain_safe};
use yaml_text::context::Ctx;
use yaml_text::front::{front_len, len_by_one};

/// Fronts shorter than this are told one byte after the other, where more bytes than this stand.
const NEAR: usize = 64;

/// Whether a character of a plain scalar needs no look at its neighbours.
#[tactic(auto, unfolding(crate::specs::Chains::plain_inner))]
pub fn is_plain_inner(context: Ctx, c: char) -> bool
    ensures { result ≡ plain_inner (context_of context) c }
{
    is_plain_safe(context, c) && c != ':' && c != '#'
}

/// Whether a byte is an ASCII character that is plain in every context, whatever its neighbours are.
#[tactic(auto, unfolding(crate::specs::Chains::plain_inner, yaml_definitions::specs::grammar::FlowScalars::plain_safe, yaml_definitions::specs::grammar::FlowScalars::is_flow, yaml_definitions::specs::grammar::Characters::is_ns, yaml_definitions::specs::grammar::Characters::is_nb, yaml_definitions::specs::grammar::Characters::is_break, yaml_definitions::specs::grammar::Characters::is_white, yaml_definitions::specs::grammar::Characters::is_flow_indicator))]
#[inline]
fn is_plain_byte(byte: u8) -> bool
    ensures ascii { result ≡ true → byte < 128 }
    ensures inner { result ≡ true → plain_inner flow_in byte ≡ true }
{
    // most are told by one comparison
    (byte >= b'a' && byte <= b'z')
        || (byte > b' '
            && byte < 127
            && !matches!(byte, b'#' | b',' | b':' | b'[' | b']' | b'{' | b'}'))
}

/// Whether a character may begin a plain scalar whatever follows.
#[tactic(auto, unfolding(crate::specs::Chains::plain_head))]
pub fn is_plain_head(c: char) -> bool
    ensures { result ≡ plain_head c }
{
    is_ns(c) && !is_indicator(c)
}

/// Whether a character may begin a plain scalar where a plain-safe one follows.
#[tactic(auto, unfolding(crate::specs::Chains::plain_sign))]
pub fn is_plain_sign(c: char) -> bool
    ensures { result ≡ plain_sign c }
{
    matches!(c, '?' | ':' | '-')
}

/// Whether a character that is no white stands for itself between these quotes.
#[tactic(auto, unfolding(crate::specs::Chains::verbatim))]
pub fn is_verbatim(quote: char, c: char) -> bool
    ensures { result ≡ verbatim quote c }
{
    is_ns(c) && c != quote && !(quote == '"' && c == '\\')
}

/// Whether a byte is an ASCII character that stands for itself between both kinds of quotes.
#[tactic(auto, unfolding(crate::specs::Chains::verbatim, yaml_definitions::specs::grammar::Characters::is_ns, yaml_definitions::specs::grammar::Characters::is_nb, yaml_definitions::specs::grammar::Characters::is_break, yaml_definitions::specs::grammar::Characters::is_white))]
#[inline]
fn is_quoted_byte(byte: u8) -> bool
    ensures ascii { result ≡ true → byte < 128 }
    ensures single { result ≡ true → verbatim c-single-quote byte ≡ true }
    ensures double { result ≡ true → verbatim c-double-quote byte ≡ true }
{
    // most are told by one comparison
    (byte >= b'a' && byte <= b'z')
        || (byte > b' ' && byte < 127 && !matches!(byte, b'"' | b'\'' | b'\\'))
}

/// The same as `is_plain_byte` of most bytes, without a branch, so that many are tested at once.
#[tactic(auto, unfolding(crate::specs::Chains::plain_inner, yaml_definitions::specs::grammar::FlowScalars::plain_safe, yaml_definitions::specs::grammar::FlowScalars::is_flow, yaml_definitions::specs::grammar::Characters::is_ns, yaml_definitions::specs::grammar::Characters::is_nb, yaml_definitions::specs::grammar::Characters::is_break, yaml_definitions::specs::grammar::Characters::is_white, yaml_definitions::specs::grammar::Characters::is_flow_indicator))]
fn is_plain_in_many(byte: u8) -> bool
    ensures ascii { result ≡ true → byte < 128 }
    ensures inner { result ≡ true → plain_inner flow_in byte ≡ true }
{
    (byte > b' ')
        & (byte < 127)
        & (byte != b'#')
        & (byte != b',')
        & (byte != b':')
        & (byte != b'[')
        & (byte != b']')
        & (byte != b'{')
        & (byte != b'}')
}

/// The same as `is_quoted_byte`, without a branch.
#[tactic(auto, unfolding(crate::specs::Chains::verbatim, yaml_definitions::specs::grammar::Characters::is_ns, yaml_definitions::specs::grammar::Characters::is_nb, yaml_definitions::specs::grammar::Characters::is_break, yaml_definitions::specs::grammar::Characters::is_white))]
fn is_quoted_in_many(byte: u8) -> bool
    ensures ascii { result ≡ true → byte < 128 }
    ensures single { result ≡ true → verbatim c-single-quote byte ≡ true }
    ensures double { result ≡ true → verbatim c-double-quote byte ≡ true }
{
    (byte > b' ') & (byte < 127) & (byte != b'"') & (byte != b'\'') & (byte != b'\\')
}

/// The same as `plain_len`, by many bytes that are tested together. Out of line, since few fronts are long or near the text's end.
#[inline(never)]
fn far_plain_len(bytes: &[u8]) -> usize
    ensures len { result ≤ length bytes.now }
    ensures front { (k : ℕ) → k < result → (slice_index bytes.now k < 128) × (plain_inner flow_in (slice_index bytes.now k) ≡ true) }
{
    front_len(bytes, is_plain_in_many)
}

/// How many bytes at the start are ASCII characters that are plain in every context, whatever their neighbours are.
#[inline(always)]
pub fn plain_len(bytes: &[u8]) -> usize
    ensures len { result ≤ length bytes.now }
    ensures front { (k : ℕ) → k < result → (slice_index bytes.now k < 128) × (plain_inner flow_in (slice_index bytes.now k) ≡ true) }
{
    if bytes.len() > NEAR {
        let len = len_by_one(&bytes[..NEAR], &is_plain_byte);
        if len < NEAR {
            return len;
        }
    }
    far_plain_len(bytes)
}

/// The same as `quoted_len`, by many bytes that are tested together. Out of line, since few fronts are long or near the text's end.
#[inline(never)]
fn far_quoted_len(bytes: &[u8]) -> usize
    ensures len { result ≤ length bytes.now }
    ensures front { (k : ℕ) → k < result → (slice_index bytes.now k < 128) × (verbatim c-single-quote (slice_index bytes.now k) ≡ true) × (verbatim c-double-quote (slice_index bytes.now k) ≡ true) }
{
    front_len(bytes, is_quoted_in_many)
}

/// How many bytes at the start are ASCII characters that stand for themselves between both kinds of quotes.
#[inline(always)]
pub fn quoted_len(bytes: &[u8]) -> usize
    ensures len { result ≤ length bytes.now }
    ensures front { (k : ℕ) → k < result → (slice_index bytes.now k < 128) × (verbatim c-single-quote (slice_index bytes.now k) ≡ true) × (verbatim c-double-quote (slice_index bytes.now k) ≡ true) }
{
    if bytes.len() > NEAR {
        let len = len_by_one(&bytes[..NEAR], &is_quoted_byte);
        if len < NEAR {
            return len;
        }
    }
    far_quoted_len(bytes)
}

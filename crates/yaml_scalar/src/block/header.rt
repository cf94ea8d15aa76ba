//! The header of a block scalar (8.1.1).
ghost use Rattle.std.specs.Prelude.{◌≡◌, ◌≤◌, IfOk, IfErr, IfSome};
ghost use Rattle.std.specs.Int.{is_in_range};
ghost use Rattle.yaml_text.specs.Placed.{IsPlaced};
ghost use Rattle.yaml_text.specs.Source.{text_of, place_of, IsBorder};
ghost use Rattle.yaml_definitions.specs.grammar.Rules.{Stands};
ghost use Rattle.yaml_text.specs.LeafAnswer.{Unread};
ghost use Rattle.yaml_definitions.specs.grammar.BlockScalars.{c-indentation-indicator as indentation_indicator, c-chomping-indicator as chomping_indicator, c-b-block-header as header};
ghost use Rattle.yaml_text.specs.LeafAnswer.{ScalarFaultMeans};
ghost use Rattle.yaml_text.specs.LeafAnswer.{ScalarFaultMeans, IsSyntaxFault};
ghost use Rattle.yaml_scalar.specs.BlockRules.{is_sign, EndIndicators, indicators};
ghost use Rattle.yaml_text.specs.Lines.{AfterLine, Inside};
ghost use Rattle.yaml_scalar.specs.BlockModel.{chomp_of, header_of};

use yaml_text::chars::Chars;
use yaml_text::fault::Fault;
use yaml_text::lines::{skip_blank, skip_spaces, unusable};
use yaml_text::places::{accept, next};

/// Which breaks stay at the end of a content.
#[derive(Clone, Copy)]
pub enum Chomp {
    Strip,
    Clip,
    Keep,
}

/// What stands in a header, and the border before its digit.
#[derive(Clone, Copy)]
pub struct Header {
    pub digit: Option<usize>,
    pub digit_at: usize,
    pub chomp: Chomp,
}

/// The digit from 1 to 9 that stands at a border, and the border after it.
fn read_digit(source: &Chars<'_>, at: usize) -> (Option<usize>, usize)
    requires { IsBorder source.now at }
    ensures border { IsBorder source.now result.1 }
    ensures onward { at ≤ result.1 }
    ensures digit { indentation_indicator (text_of source.now) (place_of source.now at) (place_of source.now result.1) result.0 }
    ensures none { place_of source.now result.1 ≡ place_of source.now at → Stands (text_of source.now) (is_in_range 49 57) (place_of source.now at) → ⊥ }
    ensures small { IfSome result.0 (λ d. d ≤ 9) }
{
    match next(source, at) {
        None => (None, at),
        Some((c, to)) => {
            if c >= '1' && c <= '9' {
                (Some(c as usize - '0' as usize), to)
            } else {
                (None, at)
            }
        }
    }
}

/// The sign that stands at a border, and the border after it.
fn read_sign(source: &Chars<'_>, at: usize) -> (Chomp, usize)
    requires { IsBorder source.now at }
    ensures border { IsBorder source.now result.1 }
    ensures onward { at ≤ result.1 }
    ensures sign { chomping_indicator (text_of source.now) (place_of source.now at) (place_of source.now result.1) (chomp_of result.0) }
    ensures none { place_of source.now result.1 ≡ place_of source.now at → Stands (text_of source.now) is_sign (place_of source.now at) → ⊥ }
{
    match accept(source, at, '-') {
        Some(to) => (Chomp::Strip, to),
        None => match accept(source, at, '+') {
            Some(to) => (Chomp::Keep, to),
            None => (Chomp::Clip, at),
        },
    }
}

/// The indicators that stand at a border, and the border after them.
fn read_indicators(source: &Chars<'_>, at: usize) -> (Header, usize)
    requires { IsBorder source.now at }
    ensures border { IsBorder source.now result.1 }
    ensures onward { at ≤ result.1 }
    ensures digit_at { IsBorder source.now result.0.digit_at }
    ensures small { IfSome result.0.digit (λ d. d ≤ 9) }
    ensures indicators { indicators (text_of source.now) (place_of source.now at) (place_of source.now result.1) (header_of result.0) }
    ensures only { EndIndicators (text_of source.now) (place_of source.now at) (place_of source.now result.1) }
{
    let (digit, first) = read_digit(source, at);
    let (chomp, second) = read_sign(source, first);
    match digit {
        Some(_) => (
            Header {
                digit,
                digit_at: at,
                chomp,
            },
            second,
        ),
        None => {
            let (later, third) = read_digit(source, second);
            (
                Header {
                    digit: later,
                    digit_at: second,
                    chomp,
                },
                third,
            )
        }
    }
}

/// The fault of a header that does not go on at `stop`. A scalar at the root has no digit, so one that stands there is the
/// first character that can't be used.
fn header_fault(source: &Chars<'_>, header: Header, stop: usize, is_root: bool) -> Fault
    requires digit_at { IsBorder source.now header.digit_at }
    requires stop { IsBorder source.now stop }
    ensures unread { IsSyntaxFault result }
    ensures placed { IsPlaced source.now result }
{
    if is_root && header.digit.is_some() {
        return Fault::Syntax(source.pos(header.digit_at));
    }
    unusable(source, stop)
}

/// The header that stands after `|` or `>`, and the border after its line. Whether the scalar is at the root, where no digit
/// may stand, tells the place of a fault alone.
pub fn read_header(source: &Chars<'_>, at: usize, is_root: bool) -> Result<(Header, usize), Fault>
    requires border { IsBorder source.now at }
    requires inside { Inside (text_of source.now) (place_of source.now at) }
    ensures border { IfOk result (λ r. IsBorder source.now r.1) }
    ensures onward { IfOk result (λ r. at ≤ r.1) }
    ensures digit_at { IfOk result (λ r. IsBorder source.now r.0.digit_at) }
    ensures small { IfOk result (λ r. IfSome r.0.digit (λ d. d ≤ 9)) }
    ensures after { IfOk result (λ r. AfterLine (text_of source.now) (place_of source.now r.1)) }
    ensures header { IfOk result (λ r. header (text_of source.now) (place_of source.now at) (place_of source.now r.1) (header_of r.0)) }
    ensures none { IfErr result (λ e. ScalarFaultMeans e (Unread (header (text_of source.now)) (place_of source.now at))) }
    ensures placed { IfErr result (IsPlaced source.now) }
{
    let (header, end) = read_indicators(source, at);
    match accept(source, end, '#') {
        Some(_) => Err(header_fault(source, header, end, is_root)),
        None => match skip_blank(source, end) {
            Some(after) => Ok((header, after)),
            None => {
                let (_, stop) = skip_spaces(source, end);
                Err(header_fault(source, header, stop, is_root))
            }
        },
    }
}

//! The canonical content of a text under the tag of each kind.
ghost use Rattle.std.specs.Prelude.{◌≡◌, Ok, MatchResult, IsOk};
ghost use Rattle.std.specs.Cow.{cow_str_bytes};
ghost use Rattle.yaml_core.specs.CoreAnswer.{RefusesScalar};
ghost use Rattle.yaml_core.specs.Form.{form_of};
ghost use Rattle.yaml_core.specs.Kind.{kind_tag, of_kind, IsWord, HasNoWord};

use crate::fault::CoreFault;
use crate::form::Form;
use crate::kind::PlainKind;
use crate::{float, int};
use std::alloc::Global;
use std::borrow::CowStr;

/// The canonical content of a text of this form under the tag of a kind.
pub fn content<'a>(
    alloc: Global,
    kind: PlainKind,
    form: Form,
    text: &'a str,
) -> Result<CowStr<'a>, CoreFault>
    requires { form ≡ form_of text.now }
    ensures means { MatchResult result (λ c. of_kind kind text.now ≡ Ok (kind_tag kind, cow_str_bytes c)) (RefusesScalar (of_kind kind text.now)) }
    ensures kept { kind ≡ PlainKind.Str → IsOk result }
{
    match kind {
        PlainKind::Null => null_content(form),
        PlainKind::Bool => bool_content(form),
        PlainKind::Int => int_content(alloc, form, text),
        PlainKind::Float => float_content(alloc, form, text),
        PlainKind::Str => Ok(CowStr::Borrowed(text)),
    }
}

fn null_content<'a>(form: Form) -> Result<CowStr<'a>, CoreFault>
    ensures { MatchResult result (λ c. IsWord PlainKind.Null form (cow_str_bytes c)) (λ fault. (fault ≡ CoreFault.BadContent) × HasNoWord PlainKind.Null form) }
{
    match form {
        Form::Null => Ok(CowStr::Borrowed("null")),
        _ => Err(CoreFault::BadContent),
    }
}

fn bool_content<'a>(form: Form) -> Result<CowStr<'a>, CoreFault>
    ensures { MatchResult result (λ c. IsWord PlainKind.Bool form (cow_str_bytes c)) (λ fault. (fault ≡ CoreFault.BadContent) × HasNoWord PlainKind.Bool form) }
{
    match form {
        Form::True => Ok(CowStr::Borrowed("true")),
        Form::False => Ok(CowStr::Borrowed("false")),
        _ => Err(CoreFault::BadContent),
    }
}

fn int_content<'a>(alloc: Global, form: Form, text: &'a str) -> Result<CowStr<'a>, CoreFault>
    requires { form ≡ form_of text.now }
    ensures { MatchResult result (λ c. of_kind PlainKind.Int text.now ≡ Ok (kind_tag PlainKind.Int, cow_str_bytes c)) (RefusesScalar (of_kind PlainKind.Int text.now)) }
{
    match form {
        Form::Decimal => int::decimal(alloc, text),
        Form::Octal => int::prefixed(alloc, text, 8),
        Form::Hexadecimal => int::prefixed(alloc, text, 16),
        _ => Err(CoreFault::BadContent),
    }
}

fn float_content<'a>(alloc: Global, form: Form, text: &'a str) -> Result<CowStr<'a>, CoreFault>
    requires { form ≡ form_of text.now }
    ensures { MatchResult result (λ c. of_kind PlainKind.Float text.now ≡ Ok (kind_tag PlainKind.Float, cow_str_bytes c)) (RefusesScalar (of_kind PlainKind.Float text.now)) }
{
    match form {
        Form::Decimal | Form::Float => float::decimal(alloc, text),
        Form::Infinity => Ok(CowStr::Borrowed(float::infinity(text))),
        Form::NotANumber => Ok(CowStr::Borrowed(".nan")),
        _ => Err(CoreFault::BadContent),
    }
}

//! The one pass over a text that tells by which patterns of the core schema it matches.
ghost use Rattle.std.specs.Prelude.{◌≡◌, ◌≤◌, ℕ, true, false, List, [], ◌∷◌, MatchOption, bytes_eq, length, drop};
ghost use Rattle.std.specs.Char.{is_digit};
ghost use Rattle.yaml_core.specs.Form.{form_of, form_kind};
ghost use Rattle.yaml_core.specs.State.{meaning, by_test};

use crate::kind::PlainKind;
use yaml_text::front::front_len;

/// In texts of more bytes than this digits are passed over together.
const LONG: usize = 64;

/// What a text is by the patterns of the core schema. A decimal int is a float too.
#[derive(Clone, Copy)]
pub enum Form {
    Null,
    True,
    False,
    Decimal,
    Octal,
    Hexadecimal,
    Float,
    Infinity,
    NotANumber,
    Other,
}

impl Form {
    /// The kind of scalar that a plain text of this form is.
    pub fn kind(self) -> PlainKind
        ensures { result ≡ form_kind self }
    {
        match self {
            Form::Null => PlainKind::Null,
            Form::True | Form::False => PlainKind::Bool,
            Form::Decimal | Form::Octal | Form::Hexadecimal => PlainKind::Int,
            Form::Float | Form::Infinity | Form::NotANumber => PlainKind::Float,
            Form::Other => PlainKind::Str,
        }
    }
}

/// What has been read of a text.
#[derive(Clone, Copy)]
enum State {
    Start,
    Sign,
    /// A zero without a sign, which may begin `0o` and `0x`.
    Zero,
    Digits,
    /// A point without a sign, which may begin `.nan`.
    Point,
    SignedPoint,
    /// A point and digits on one side of it at least.
    Fraction,
    Exponent,
    ExponentSign,
    ExponentDigits,
    OctalMark,
    OctalDigits,
    HexadecimalMark,
    HexadecimalDigits,
    /// The beginning of a word, with the letters that are left.
    Word(Form, &'static [u8]),
    /// The same after a capital: the letters that are left in lower case, and in upper case.
    Capital(Form, &'static [u8], &'static [u8]),
    /// No pattern goes on like this.
    Other,
}

/// What a text is by the patterns of the core schema.
pub fn judge(text: &str) -> Form
    ensures { result ≡ form_of text.now }
{
    let bytes = text.as_bytes();
    if bytes.len() > LONG {
        return judge_long(bytes);
    }
    let mut state = State::Start;
    for byte in bytes {
        state = state.step(*byte);
        if let State::Other = state {
            return Form::Other;
        }
    }
    state.end()
}

/// The same of a long text.
#[inline(never)]
fn judge_long(bytes: &[u8]) -> Form
    ensures { result ≡ form_of bytes.now }
{
    let mut state = State::Start;
    let mut at = 0;
    while at < bytes.len() {
        state = state.step(bytes[at]);
        at += 1;
        match state {
            State::Other => return Form::Other,
            _ => at += state.run_len(&bytes[at..]),
        }
    }
    state.end()
}

/// Whether a byte is a decimal digit. It has no branch, for `front_len`, as those below have none.
fn is_decimal(byte: u8) -> bool
    ensures { result ≡ true → is_digit byte 10 ≡ true }
{
    (byte >= b'0') & (byte <= b'9')
}

/// Whether a byte is an octal digit.
fn is_octal(byte: u8) -> bool
    ensures { result ≡ true → is_digit byte 8 ≡ true }
{
    (byte >= b'0') & (byte <= b'7')
}

/// Whether a byte is a hexadecimal digit.
fn is_hexadecimal(byte: u8) -> bool
    ensures { result ≡ true → is_digit byte 16 ≡ true }
{
    ((byte >= b'0') & (byte <= b'9'))
        | ((byte >= b'a') & (byte <= b'f'))
        | ((byte >= b'A') & (byte <= b'F'))
}

impl State {
    /// How many of these bytes at the front are digits behind which the state is the same.
    fn run_len(self, bytes: &[u8]) -> usize
        ensures len { result ≤ length bytes.now }
        ensures same { meaning self bytes.now ≡ meaning self (drop result bytes.now) }
    {
        match self {
            State::Digits => front_len(bytes, is_decimal),
            State::Fraction => front_len(bytes, is_decimal),
            State::ExponentDigits => front_len(bytes, is_decimal),
            State::OctalDigits => front_len(bytes, is_octal),
            State::HexadecimalDigits => front_len(bytes, is_hexadecimal),
            _ => 0,
        }
    }

    /// The state after one more byte.
    #[inline(always)]
    fn step(self, byte: u8) -> State
        ensures { (rest : List ℕ) → meaning self (byte ∷ rest) ≡ meaning result rest }
    {
        match self {
            State::Start => after_start(byte),
            State::Sign => after_sign(byte),
            State::Zero => after_zero(byte),
            State::Digits => after_digits(byte),
            State::Point => after_point(byte),
            State::SignedPoint => after_signed_point(byte),
            State::Fraction => after_fraction(byte),
            State::Exponent => after_exponent(byte),
            State::ExponentSign | State::ExponentDigits => after_exponent_sign(byte),
            State::OctalMark | State::OctalDigits => after_octal_mark(byte),
            State::HexadecimalMark | State::HexadecimalDigits => after_hexadecimal_mark(byte),
            State::Word(form, left) => after_letter(form, left, byte),
            State::Capital(form, lower, upper) => after_capital(form, lower, upper, byte),
            State::Other => State::Other,
        }
    }

    /// What a text is that ends here.
    #[tactic(auto, unfolding(crate::specs::State::meaning, crate::specs::Form::form_of, yaml_definitions::specs::model::Core::is_null, crate::specs::State::float_rest, crate::specs::State::fraction_rest, yaml_definitions::specs::model::Core::split_at))]
    fn end(self) -> Form
        ensures { result ≡ meaning self [] }
    {
        match self {
            State::Start => Form::Null,
            State::Zero | State::Digits => Form::Decimal,
            State::Fraction | State::ExponentDigits => Form::Float,
            State::OctalDigits => Form::Octal,
            State::HexadecimalDigits => Form::Hexadecimal,
            State::Word(form, left) => form_at_end(form, left.is_empty()),
            State::Capital(form, lower, upper) => {
                form_at_end(form, lower.is_empty() || upper.is_empty())
            }
            State::Sign
            | State::Point
            | State::SignedPoint
            | State::Exponent
            | State::ExponentSign
            | State::OctalMark
            | State::HexadecimalMark
            | State::Other => Form::Other,
        }
    }
}

/// The form of a word that is whole or not.
fn form_at_end(form: Form, is_whole: bool) -> Form
    ensures { result ≡ by_test is_whole form }
{
    if is_whole { form } else { Form::Other }
}

#[inline(always)]
fn after_start(byte: u8) -> State
    ensures { (rest : List ℕ) → meaning State.Start (byte ∷ rest) ≡ meaning result rest }
{
    match byte {
        b'+' | b'-' => State::Sign,
        b'0' => State::Zero,
        b'1'..=b'9' => State::Digits,
        b'.' => State::Point,
        b'~' => State::Word(Form::Null, b""),
        b'n' => State::Word(Form::Null, b"ull"),
        b'N' => State::Capital(Form::Null, b"ull", b"ULL"),
        b't' => State::Word(Form::True, b"rue"),
        b'T' => State::Capital(Form::True, b"rue", b"RUE"),
        b'f' => State::Word(Form::False, b"alse"),
        b'F' => State::Capital(Form::False, b"alse", b"ALSE"),
        _ => State::Other,
    }
}

#[inline(always)]
fn after_sign(byte: u8) -> State
    ensures { (rest : List ℕ) → meaning State.Sign (byte ∷ rest) ≡ meaning result rest }
{
    match byte {
        b'0'..=b'9' => State::Digits,
        b'.' => State::SignedPoint,
        _ => State::Other,
    }
}

#[inline(always)]
fn after_zero(byte: u8) -> State
    ensures { (rest : List ℕ) → meaning State.Zero (byte ∷ rest) ≡ meaning result rest }
{
    match byte {
        b'o' => State::OctalMark,
        b'x' => State::HexadecimalMark,
        _ => after_digits(byte),
    }
}

#[inline(always)]
fn after_digits(byte: u8) -> State
    ensures { (rest : List ℕ) → meaning State.Digits (byte ∷ rest) ≡ meaning result rest }
{
    match byte {
        b'0'..=b'9' => State::Digits,
        b'.' => State::Fraction,
        b'e' | b'E' => State::Exponent,
        _ => State::Other,
    }
}

#[inline(always)]
fn after_point(byte: u8) -> State
    ensures { (rest : List ℕ) → meaning State.Point (byte ∷ rest) ≡ meaning result rest }
{
    match byte {
        b'n' => State::Word(Form::NotANumber, b"an"),
        b'N' => State::Capital(Form::NotANumber, b"aN", b"AN"),
        _ => after_signed_point(byte),
    }
}

#[inline(always)]
fn after_signed_point(byte: u8) -> State
    ensures { (rest : List ℕ) → meaning State.SignedPoint (byte ∷ rest) ≡ meaning result rest }
{
    match byte {
        b'0'..=b'9' => State::Fraction,
        b'i' => State::Word(Form::Infinity, b"nf"),
        b'I' => State::Capital(Form::Infinity, b"nf", b"NF"),
        _ => State::Other,
    }
}

#[inline(always)]
fn after_fraction(byte: u8) -> State
    ensures { (rest : List ℕ) → meaning State.Fraction (byte ∷ rest) ≡ meaning result rest }
{
    match byte {
        b'0'..=b'9' => State::Fraction,
        b'e' | b'E' => State::Exponent,
        _ => State::Other,
    }
}

#[inline(always)]
fn after_exponent(byte: u8) -> State
    ensures { (rest : List ℕ) → meaning State.Exponent (byte ∷ rest) ≡ meaning result rest }
{
    match byte {
        b'+' | b'-' => State::ExponentSign,
        _ => after_exponent_sign(byte),
    }
}

/// After the sign of an exponent, or after some of its digits.
#[inline(always)]
fn after_exponent_sign(byte: u8) -> State
    ensures sign { (rest : List ℕ) → meaning State.ExponentSign (byte ∷ rest) ≡ meaning result rest }
    ensures digits { (rest : List ℕ) → meaning State.ExponentDigits (byte ∷ rest) ≡ meaning result rest }
{
    match byte {
        b'0'..=b'9' => State::ExponentDigits,
        _ => State::Other,
    }
}

/// After `0o`, or after some digits there.
#[inline(always)]
fn after_octal_mark(byte: u8) -> State
    ensures mark { (rest : List ℕ) → meaning State.OctalMark (byte ∷ rest) ≡ meaning result rest }
    ensures digits { (rest : List ℕ) → meaning State.OctalDigits (byte ∷ rest) ≡ meaning result rest }
{
    match byte {
        b'0'..=b'7' => State::OctalDigits,
        _ => State::Other,
    }
}

/// After `0x`, or after some digits there.
#[inline(always)]
fn after_hexadecimal_mark(byte: u8) -> State
    ensures mark { (rest : List ℕ) → meaning State.HexadecimalMark (byte ∷ rest) ≡ meaning result rest }
    ensures digits { (rest : List ℕ) → meaning State.HexadecimalDigits (byte ∷ rest) ≡ meaning result rest }
{
    match byte {
        b'0'..=b'9' | b'a'..=b'f' | b'A'..=b'F' => State::HexadecimalDigits,
        _ => State::Other,
    }
}

#[inline(always)]
fn after_letter(form: Form, left: &'static [u8], byte: u8) -> State
    ensures { (rest : List ℕ) → meaning (State.Word form left.entry) (byte ∷ rest) ≡ meaning result rest }
{
    match left_after(left, byte) {
        Some(left) => State::Word(form, left),
        None => State::Other,
    }
}

#[inline(always)]
fn after_capital(form: Form, lower: &'static [u8], upper: &'static [u8], byte: u8) -> State
    ensures { (rest : List ℕ) → meaning (State.Capital form lower.entry upper.entry) (byte ∷ rest) ≡ meaning result rest }
{
    match (left_after(lower, byte), left_after(upper, byte)) {
        (Some(lower), Some(upper)) => State::Capital(form, lower, upper),
        (Some(lower), None) => State::Word(form, lower),
        (None, Some(upper)) => State::Word(form, upper),
        (None, None) => State::Other,
    }
}

/// What is left of a word after its first letter, if that is this one.
#[inline(always)]
fn left_after(word: &'static [u8], letter: u8) -> Option<&'static [u8]>
    ensures { MatchOption result ((rest : List ℕ) → bytes_eq (letter ∷ rest) word.now ≡ false) (λ left. (rest : List ℕ) → bytes_eq (letter ∷ rest) word.now ≡ bytes_eq rest left.now) }
{
    match word.split_first() {
        Some((first, left)) if *first == letter => Some(left),
        _ => None,
    }
}

//! A digit of a number.
ghost use Rattle.std.specs.Prelude.{◌≡◌, ◌<◌};
ghost use Rattle.yaml_definitions.specs.canonical.CharText.{hex_digit};

/// The byte of a digit of base 16, in upper case.
pub fn hex_digit(digit: u32) -> u8
    requires { digit < 16 }
    ensures { result ≡ hex_digit digit }
{
    if digit < 10 {
        b'0' + digit as u8
    } else {
        b'A' + (digit as u8 - 10)
    }
}

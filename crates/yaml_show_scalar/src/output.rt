//! A text that grows up to a limit.
ghost use Rattle.std.specs.Prelude.{◌≡◌, ◌<◌, ◌++◌, ◌-◌, ◌/◌, ◌%◌, [], ◌∷◌, length, OnOk, IfErr};
ghost use Rattle.yaml_definitions.specs.canonical.CharText.{hex_digit};
ghost use Rattle.yaml_show_scalar.specs.Escapes.{four_digits};
ghost use Rattle.yaml_show_scalar.specs.Stops.{limit_of, Stops};
ghost use Rattle.yaml_show_scalar.specs.Texts.{times, written};

use crate::stop::Stop;
use std::alloc::Global;

/// A text that grows up to a limit.
#[derive(Drop)]
pub struct Out {
    pub text: String,
    limit: usize,
}

impl Out {
    /// An empty text that may grow to so many bytes.
    pub fn new(alloc: Global, limit: usize) -> Out
        ensures empty { written result ≡ [] }
        ensures limit { limit_of result ≡ limit }
    {
        Out {
            text: String::new(alloc),
            limit,
        }
    }

    /// How many bytes may still be written.
    pub fn left(&self) -> usize
        ensures { result ≡ limit_of self.now - length (written self.now) }
    {
        self.limit.saturating_sub(self.text.as_str().len())
    }

    /// Writes a piece.
    pub fn put(&mut self, piece: &str) -> Result<(), Stop>
        ensures ok { OnOk result (written self.new ≡ written self.old ++ piece.now) }
        ensures limit { limit_of self.new ≡ limit_of self.old }
        ensures err { IfErr result (Stops (limit_of self.old) (written self.old ++ piece.now)) }
    {
        if piece.len() > self.left() {
            return Err(Stop::TooLong);
        }
        self.text.push_str(piece)?;
        Ok(())
    }

    /// Writes a piece so many times.
    pub fn put_times(&mut self, count: usize, piece: &str) -> Result<(), Stop>
        ensures ok { OnOk result (written self.new ≡ written self.old ++ times count piece.now) }
        ensures limit { limit_of self.new ≡ limit_of self.old }
        ensures err { IfErr result (Stops (limit_of self.old) (written self.old ++ times count piece.now)) }
    {
        for _ in 0..count {
            self.put(piece)?;
        }
        Ok(())
    }

    /// Writes the last hexadecimal digit of a number.
    pub(crate) fn put_digit(&mut self, number: u32) -> Result<(), Stop>
        ensures ok { OnOk result (written self.new ≡ written self.old ++ (hex_digit (number % 16) ∷ [])) }
        ensures limit { limit_of self.new ≡ limit_of self.old }
        ensures err { IfErr result (Stops (limit_of self.old) (written self.old ++ (hex_digit (number % 16) ∷ []))) }
    {
        if self.left() == 0 {
            return Err(Stop::TooLong);
        }
        self.text.push(digit(number % 16))?;
        Ok(())
    }

    /// Writes the last four hexadecimal digits of a number.
    pub(crate) fn put_four(&mut self, number: u32) -> Result<(), Stop>
        ensures ok { OnOk result (written self.new ≡ written self.old ++ four_digits number) }
        ensures limit { limit_of self.new ≡ limit_of self.old }
        ensures err { IfErr result (Stops (limit_of self.old) (written self.old ++ four_digits number)) }
    {
        self.put_digit(number / 4096)?;
        self.put_digit(number / 256)?;
        self.put_digit(number / 16)?;
        self.put_digit(number)
    }
}

/// A digit of base 16, in upper case.
fn digit(value: u32) -> char
    requires { value < 16 }
    ensures { result ≡ hex_digit value }
{
    if value < 10 {
        char::from(b'0' + value as u8)
    } else {
        char::from(b'A' + (value as u8 - 10))
    }
}

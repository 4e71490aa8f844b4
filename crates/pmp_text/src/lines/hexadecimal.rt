//! Numbers in hexadecimal digits.

ghost use Rattle.std.specs.Prelude.{◌≡◌, ◌<◌, ◌≤◌, Some};
ghost use Rattle.pmp_text.specs.Hexadecimal.{hex_digit, hex_text, value_text};

use std::fmt;

/// How many hexadecimal digits a byte address of 56 bits has.
pub const ADDRESS_DIGITS: usize = 14;

/// How many hexadecimal digits a register's value has.
pub const VALUE_DIGITS: usize = 16;

fn hex_digit(digit: u8) -> char
    requires { digit < 16 }
    ensures { result ≡ hex_digit digit }
{
    char::from(if digit < 10 {
        b'0' + digit
    } else {
        b'a' + (digit - 10)
    })
}

/// The given number of lowest hexadecimal digits of a number, the highest of them first.
#[derive(Clone, Copy)]
pub struct Hex<const DIGITS: usize> {
    value: u64,
    ghost few: { DIGITS ≤ 16 },
}

impl<const DIGITS: usize> Hex<DIGITS> {
    pub fn new(value: u64) -> Self
        requires { DIGITS ≤ 16 }
        ensures { result.value ≡ value }
    {
        Hex { value }
    }
}

impl<const DIGITS: usize> fmt::Display for Hex<DIGITS> {
    ghost output = { λ hex. Some (hex_text DIGITS hex.value) };

    fn fmt<W: fmt::Write>(&self, f: &mut fmt::Formatter<W>) -> fmt::Result {
        for place in 0..DIGITS {
            let digit = hex_digit(((self.value >> (4 * (DIGITS - 1 - place))) % 16) as u8);
            write!(f, "{digit}")?;
        }
        Ok(())
    }
}

/// A register's value: `0x` and its digits.
#[derive(Clone, Copy)]
pub struct Value(pub u64);

impl fmt::Display for Value {
    ghost output = { λ value. Some (value_text value.0) };

    fn fmt<W: fmt::Write>(&self, f: &mut fmt::Formatter<W>) -> fmt::Result {
        let digits = Hex::<VALUE_DIGITS>::new(self.0);
        write!(f, "0x{digits}")
    }
}

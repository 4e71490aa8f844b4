//! The key by which names of harts' scripts are ordered.

ghost use Rattle.std.specs.Char.{is_ascii_digit};
ghost use Rattle.std.specs.Prelude.{◌≡◌, ◌∷◌, [], List, ℕ, IfOk, OnOk, false, true};
ghost use Rattle.pmp_names.specs.HartNames.{order_key};
ghost use Rattle.pmp_names.specs.Keys.{keyed};

use std::alloc::{AllocError, Global};

/// The key of a name, as far as it was read.
#[derive(Drop)]
pub struct OrderKey {
    bytes: Vec<u8>,
    /// The digits of the number that is being read, from the first that isn't 0 on.
    digits: Vec<u8>,
    is_open: bool,
}

impl OrderKey {
    fn take(&mut self, byte: u8) -> Result<(), AllocError>
        ensures { OnOk result ((rest : List ℕ) → keyed self.new rest ≡ keyed self.old (byte ∷ rest)) }
    {
        if byte.is_ascii_digit() {
            self.take_digit(byte)
        } else {
            self.end_number()?;
            Ok(self.bytes.push(byte)?)
        }
    }

    fn take_digit(&mut self, digit: u8) -> Result<(), AllocError>
        requires { is_ascii_digit digit ≡ true }
        ensures { OnOk result ((rest : List ℕ) → keyed self.new rest ≡ keyed self.old (digit ∷ rest)) }
    {
        self.is_open = true;
        if digit == b'0' && self.digits.is_empty() {
            return Ok(());
        }
        self.bytes.push(b'1')?;
        Ok(self.digits.push(digit)?)
    }

    /// Ends the number, if the name is within one.
    fn end_number(&mut self) -> Result<(), AllocError>
        ensures bytes { OnOk result (self.new.bytes.items ≡ keyed self.old []) }
        ensures is_open { self.new.is_open ≡ false }
        ensures digits { OnOk result (self.new.digits.items ≡ []) }
    {
        if self.is_open {
            self.is_open = false;
            self.bytes.push(b'0')?;
            self.bytes.extend_from_slice(&self.digits)?;
        }
        self.digits.clear();
        Ok(())
    }
}

pub fn order_key(alloc: Global, name: &[u8]) -> Result<Vec<u8>, AllocError>
    ensures { IfOk result (λ key. key.items ≡ order_key name.now) }
{
    let mut key = OrderKey {
        bytes: Vec::new(alloc),
        digits: Vec::new(alloc),
        is_open: false,
    };
    for byte in name {
        key.take(*byte)?;
    }
    key.end_number()?;
    Ok(key.bytes)
}

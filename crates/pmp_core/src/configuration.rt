//! Configuration bytes.

ghost use Rattle.std.specs.Prelude.{◌≡◌};
ghost use Rattle.pmp_core.specs.Configuration.{byte_of, configuration_of, is_reserved};
ghost use Rattle.pmp_core.specs.Grain.{selectable};
ghost use Rattle.pmp_core.specs.RegisterWrite.{without_reserved};

use crate::hart::Hart;
use std::marker::Model;

/// How an entry's address register is read: the field A (Volume II, 3.7.1.1).
#[derive(Clone, Copy, Debug, PartialEq, Eq)]
pub enum AddressMatching {
    /// The entry matches nothing.
    Off,
    /// Top of range: from the address register before it up to its own.
    Tor,
    /// Naturally aligned four bytes.
    Na4,
    /// A naturally aligned power of two, eight bytes or more.
    Napot,
}

/// A configuration byte, whose bits 6 and 5 are zero. A contract sees its fields.
#[derive(Clone, Copy, PartialEq, Eq)]
pub struct Configuration {
    byte: u8,
}

impl Model for Configuration {
    ghost use Rattle.std.specs.Prelude.{◌≡◌};
    ghost use Rattle.std.proofs.Common.{ap};
    ghost use Rattle.pmp_core.specs.Configuration.{Configuration as Fields, byte_of, configuration_of};

    ghost Value = { Fields };

    ghost view = { λ c. configuration_of c.byte };

    ghost invariant = { λ c. byte_of (configuration_of c.byte) ≡ c.byte };

    ghost inverse = { λ fields. record { byte = byte_of fields } };

    ghost inverse_ok = { λ c h. ap (λ byte. record { byte = byte }) h };
}

impl Configuration {
    /// Decodes a byte, ignoring bits 6 and 5.
    #[inline(always)]
    pub fn from_byte(byte: u8) -> Configuration
        ensures { result ≡ configuration_of byte }
    {
        Configuration {
            byte: byte / 128 * 128 + byte % 32,
        }
    }

    /// Returns the byte that encodes it.
    #[inline(always)]
    pub fn byte(self) -> u8
        ensures { result ≡ byte_of self }
    {
        self.byte
    }

    /// L: the rule applies to M-mode too, and writes leave the entry as it is.
    #[inline(always)]
    pub fn is_locked(&self) -> bool
        ensures { result ≡ self.now.locked }
    {
        self.byte / 128 == 1
    }

    /// A.
    #[inline(always)]
    pub fn matching(&self) -> AddressMatching
        ensures { result ≡ self.now.matching }
    {
        match self.byte / 8 % 4 {
            0 => AddressMatching::Off,
            1 => AddressMatching::Tor,
            2 => AddressMatching::Na4,
            _ => AddressMatching::Napot,
        }
    }

    /// X.
    #[inline(always)]
    pub fn executes(&self) -> bool
        ensures { result ≡ self.now.execute }
    {
        self.byte / 4 % 2 == 1
    }

    /// W.
    #[inline(always)]
    pub fn writes(&self) -> bool
        ensures { result ≡ self.now.write }
    {
        self.byte / 2 % 2 == 1
    }

    /// R.
    #[inline(always)]
    pub fn reads(&self) -> bool
        ensures { result ≡ self.now.read }
    {
        self.byte % 2 == 1
    }

    /// Whether it has W without R, which is reserved while MML is 0.
    #[inline(always)]
    pub fn is_reserved(&self) -> bool
        ensures { result ≡ is_reserved self.now }
    {
        self.byte % 4 == 2
    }

    /// Returns it as it is stored: without rights if its R and W are a reserved combination.
    #[inline(always)]
    pub fn without_reserved(self) -> Configuration
        ensures { result ≡ without_reserved self }
    {
        if self.is_reserved() {
            Configuration {
                byte: self.byte / 8 * 8,
            }
        } else {
            self
        }
    }

    /// Returns it as it is stored: OFF instead of NA4 if the grain is above four bytes.
    #[inline(always)]
    pub fn selectable(self, hart: Hart) -> Configuration
        ensures { result ≡ selectable hart.grain self }
    {
        if hart.grain() > 0 && self.byte / 8 % 4 == 2 {
            Configuration {
                byte: self.byte - 16,
            }
        } else {
            self
        }
    }
}

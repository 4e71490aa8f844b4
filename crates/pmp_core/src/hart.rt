//! The hart of a unit: its XLEN, the number of its entries, its grain, its address bits, and whether it has Smepmp.

ghost use Rattle.std.specs.Prelude.{◌≡◌, ◌<◌, ◌≤◌, IfOk, IfErr, MatchOption, None, Some, false, true};
ghost use Rattle.pmp_core.specs.declared.hart.TheConstants.{MAX_GRAIN};
ghost use Rattle.pmp_core.specs.declared.register_write.TheConstants.{ENTRIES_PER_CFG, WORD_ADDRESSES};
ghost use Rattle.pmp_core.specs.declared.size.TheConstants.{MAX_ENTRIES};

use crate::configuration::AddressMatching;
use crate::csr::{Csr, CsrFault};
use crate::register_write::ENTRIES_PER_CFG;
use crate::size::{MAX_ENTRIES, Size};
use std::marker::Model;

/// The greatest G, for a grain of 4096 bytes.
pub const MAX_GRAIN: u8 = 10;

/// The smallest number of physical address bits, on RV32.
pub const MIN_ADDRESS_BITS: u8 = 32;

/// The greatest number of physical address bits on RV32, and the smallest on RV64.
pub const MID_ADDRESS_BITS: u8 = 34;

/// The greatest number of physical address bits, on RV64.
pub const MAX_ADDRESS_BITS: u8 = 56;

/// The PMP parameters of a hart (Volume II, 3.7.1); `Hart::new` tests whether there is such a hart.
#[derive(Clone, Copy, Debug, PartialEq, Eq)]
pub struct Profile {
    /// The number of entries, 0 to 64.
    pub entries: u8,
    /// The manual's G, 0 to 10: the grain is `2^(G+2)` bytes.
    pub grain: u8,
    /// The number of physical address bits, 34 to 56, or 32 to 34 on RV32.
    pub address_bits: u8,
    /// Whether it has Smepmp, and with it `mseccfg`.
    pub has_smepmp: bool,
    /// Whether XLEN is 32, and not 64.
    pub is_rv32: bool,
}

/// A hart, which never changes once it is made. A contract sees it as its profile.
#[derive(Clone, Copy, Debug, PartialEq, Eq)]
pub struct Hart {
    profile: Profile,
}

/// Why a profile describes no hart.
#[derive(Clone, Copy, Debug, PartialEq, Eq)]
pub enum HartFault {
    /// There are more than 64 entries.
    Entries,
    /// The grain has more than 4096 bytes.
    Grain,
    /// An address has fewer than 34 bits, or more than 56; on RV32 fewer than 32, or more than 34.
    AddressBits,
}

impl Model for Hart {
    ghost use Rattle.pmp_core.specs.declared.hart.Profile.{Profile};
    ghost use Rattle.pmp_core.specs.Hart.{IsProfile};

    ghost Value = { Profile };

    ghost view = { λ h. h.profile };

    ghost invariant = { λ h. IsProfile h.profile };

    ghost inverse = { λ p. record { profile = p } };
}

impl Hart {
    ghost use Rattle.std.specs.Prelude.{◌+◌, ◌-◌, ◌*◌, ◌/◌, ◌^◌, ◌&&◌, ℕ, min, nat_lt};
    ghost use Rattle.pmp_core.specs.SavedRegisters.{is_usual, hart_number, names_hart, saved_hart, spelled_hart, spells_hart};
    ghost use Rattle.pmp_core.specs.Grain.{napot_address, read_address, tor_address};
    ghost use Rattle.pmp_core.specs.Csr.{numbered_on};
    ghost use Rattle.pmp_core.specs.Hart.{bytes_in, hart_fault, holds_byte_of, profile_of, word_addresses};

    /// Returns the hart of this profile. Entries, grain and address bits are tested in this order.
    pub fn new(profile: Profile) -> Result<Hart, HartFault>
        ensures made { IfOk result (λ hart. (hart_fault profile ≡ None) × (hart ≡ profile)) }
        ensures refused { IfErr result (λ fault. hart_fault profile ≡ Some fault) }
    {
        if usize::from(profile.entries) > MAX_ENTRIES {
            return Err(HartFault::Entries);
        }
        if profile.grain > MAX_GRAIN {
            return Err(HartFault::Grain);
        }
        let (fewest, most) = if profile.is_rv32 {
            (MIN_ADDRESS_BITS, MID_ADDRESS_BITS)
        } else {
            (MID_ADDRESS_BITS, MAX_ADDRESS_BITS)
        };
        if profile.address_bits < fewest || profile.address_bits > most {
            return Err(HartFault::AddressBits);
        }
        Ok(Hart { profile })
    }

    /// Returns the RV64 hart of this size, with the finest grain, the widest addresses and Smepmp.
    #[inline(always)]
    pub fn of(size: Size) -> Hart
        ensures { result ≡ profile_of size }
    {
        let profile = Profile {
            is_rv32: false,
            entries: size.entries(),
            grain: 0,
            address_bits: MAX_ADDRESS_BITS,
            has_smepmp: true,
        };
        Hart { profile }
    }

    /// Returns its profile.
    #[inline(always)]
    pub fn profile(&self) -> Profile
        ensures { result ≡ self.now }
    {
        self.profile
    }

    /// Returns its register with this CSR number. A hart without Smepmp has no `mseccfg` and no `mseccfgh`, but their
    /// numbers name them all the same.
    #[inline(always)]
    pub fn csr(&self, number: u16) -> Result<Csr, CsrFault>
        ensures { result ≡ numbered_on self.now.is_rv32 number }
    {
        Csr::on(self.profile.is_rv32, number)
    }

    /// Returns how many entries have a byte in the configuration register: the first is entry `4 * register`.
    #[inline(always)]
    pub fn bytes_in(&self, register: u8) -> usize
        ensures bytes { result ≡ bytes_in self.now register }
        ensures most { result ≤ ENTRIES_PER_CFG }
        ensures within { register < 16 → 4 * register + result ≤ MAX_ENTRIES }
    {
        if self.profile.is_rv32 {
            4
        } else if register % 2 == 0 {
            ENTRIES_PER_CFG
        } else {
            0
        }
    }

    /// Returns how many bytes of the configuration register belong to entries of the hart. They are its lowest ones.
    #[inline(always)]
    pub(crate) fn bytes_there(&self, register: u8) -> usize
        ensures there { (j : ℕ) → j < ENTRIES_PER_CFG → (holds_byte_of self.now register (4 * register + j)
            && nat_lt (4 * register + j) self.now.entries) ≡ nat_lt j result }
        ensures most { result ≤ ENTRIES_PER_CFG }
        ensures count { result ≡ min (self.now.entries - 4 * register) (bytes_in self.now register) }
    {
        let first = 4 * usize::from(register);
        usize::from(self.entries())
            .saturating_sub(first)
            .min(self.bytes_in(register))
    }

    /// Whether `of` returns this hart. RV32 has no addresses that wide.
    fn is_usual(&self) -> bool
        ensures { result ≡ is_usual self.now }
    {
        let profile = self.profile;
        let is_one_of_two = profile.entries == 16 || profile.entries == 64;
        let is_widest = profile.address_bits == MAX_ADDRESS_BITS;
        is_one_of_two && profile.grain == 0 && is_widest && profile.has_smepmp
    }

    /// Returns the hart as a number: if `of` returns the hart, the number of its entries; otherwise the entries in bits
    /// 7 to 0, the address bits in bits 15 to 8, whether it has Smepmp in bit 16, whether it is RV32 in bit 17, G in
    /// bits 31 to 24, and bit 32 set.
    pub fn number(&self) -> u64
        ensures { result ≡ hart_number self.now }
    {
        let profile = self.profile;
        let entries = u64::from(profile.entries);
        if self.is_usual() {
            entries
        } else {
            let smepmp = u64::from(profile.has_smepmp);
            let rv32 = u64::from(profile.is_rv32);
            let grain = u64::from(profile.grain);
            entries
                + 256 * u64::from(profile.address_bits)
                + 65536 * smepmp
                + 131072 * rv32
                + 16777216 * grain
                + (1 << 32)
        }
    }

    /// Returns the standard hart of a number with bit 32 clear: for 64 the one of sixty-four entries, and for any other
    /// number the one of sixteen. Code inlined into a branch that has it is compiled for these two.
    #[inline(always)]
    pub(crate) fn standard(number: u64) -> Option<Hart>
        ensures { MatchOption result (number / 2 ^ 32 ≡ 1) (λ hart. hart ≡ saved_hart number) }
    {
        if number >> 32 == 1 {
            None
        } else if number == 64 {
            Some(Hart::of(Size::SixtyFour))
        } else {
            Some(Hart::of(Size::Sixteen))
        }
    }

    /// Returns the hart that a number encodes. If it encodes none, returns what `of` returns for sixty-four entries if
    /// the number is 64, and for sixteen otherwise.
    #[inline(always)]
    pub fn from_number(number: u64) -> Hart
        ensures { result ≡ saved_hart number }
    {
        match Hart::standard(number) {
            Some(hart) => hart,
            None => match Hart::spelled(number) {
                Some(hart) => hart,
                None => Hart::of(Size::Sixteen),
            },
        }
    }

    /// Returns the hart that a number names: 16 and 64 are those that `of` returns, any other the one it encodes.
    pub fn named(number: u64) -> Option<Hart>
        ensures { MatchOption result (names_hart number ≡ false)
            (λ hart. (names_hart number ≡ true) × (hart ≡ saved_hart number)) }
    {
        if number == 16 || number == 64 {
            return Some(Hart::from_number(number));
        }
        if number >> 32 != 1 {
            return None;
        }
        Hart::spelled(number)
    }

    /// Returns the hart that a number with bit 32 encodes, if there is such a hart.
    #[inline(always)]
    fn spelled(number: u64) -> Option<Hart>
        requires { number / 2 ^ 32 ≡ 1 }
        ensures { MatchOption result (spells_hart number ≡ false)
            (λ hart. (spells_hart number ≡ true) × (hart ≡ spelled_hart number)) }
    {
        if number / 262144 % 64 != 0 {
            return None;
        }
        let profile = Profile {
            is_rv32: number / 131072 % 2 == 1,
            entries: (number % 256) as u8,
            grain: (number / 16777216 % 256) as u8,
            address_bits: (number / 256 % 256) as u8,
            has_smepmp: number / 65536 % 2 == 1,
        };
        Hart::new(profile).ok()
    }

    /// Returns the number of entries.
    #[inline]
    pub fn entries(&self) -> u8
        ensures count { result ≡ self.now.entries }
        ensures most { result ≤ MAX_ENTRIES }
    {
        self.profile.entries
    }

    /// Returns the manual's G: the grain is `2^(G+2)` bytes.
    #[inline]
    pub fn grain(&self) -> u8
        ensures grain { result ≡ self.now.grain }
        ensures most { result ≤ MAX_GRAIN }
    {
        self.profile.grain
    }

    /// Returns the address as TOR uses it, without the bits below the grain.
    #[inline(always)]
    pub fn tor_address(&self, address: u64) -> u64
        ensures { result ≡ tor_address self.now.grain address }
    {
        address >> self.profile.grain << self.profile.grain
    }

    /// Returns the address as NAPOT uses it, with all ones below the grain.
    #[inline(always)]
    pub fn napot_address(&self, address: u64) -> u64
        ensures seen { result ≡ napot_address self.now.grain address }
        ensures within { address < WORD_ADDRESSES → result < WORD_ADDRESSES }
    {
        let ones = self.profile.grain.saturating_sub(1);
        (address >> ones << ones) + ((1 << ones) - 1)
    }

    /// Returns what the address register of an entry reads.
    #[inline]
    pub fn read_address(&self, matching: AddressMatching, address: u64) -> u64
        ensures { result ≡ read_address self.now.grain matching address }
    {
        match matching {
            AddressMatching::Off | AddressMatching::Tor => self.tor_address(address),
            AddressMatching::Na4 => address,
            AddressMatching::Napot => self.napot_address(address),
        }
    }

    /// Returns the number of physical address bits.
    #[inline]
    pub fn address_bits(&self) -> u8
        ensures { result ≡ self.now.address_bits }
    {
        self.profile.address_bits
    }

    /// Whether it has Smepmp, and with it `mseccfg`.
    #[inline]
    pub fn has_smepmp(&self) -> bool
        ensures { result ≡ self.now.has_smepmp }
    {
        self.profile.has_smepmp
    }

    /// Returns the number of word addresses: an address register keeps the numbers below it.
    #[inline(always)]
    pub fn word_addresses(&self) -> u64
        ensures { result ≡ word_addresses self.now }
    {
        1 << (self.profile.address_bits - 2)
    }
}

//! The hart that words of the command line describe.

ghost use Rattle.std.specs.Prelude.{◌≡◌, IfOk, None};
ghost use Rattle.pmp_core.specs.Hart.{hart_fault, most_bits};
ghost use Rattle.clap.specs.Words.{found_of, rows_of};
ghost use Rattle.pmp_tool.specs.HartWords.{aim_in, argument_of, hart_in, hart_with, made, profile_said, says_aim};
ghost use Rattle.pmp_tool.specs.HartWords.{says_hart, says_security, says_watch, security_in};

use crate::argument::Argument;
use crate::fault_line::FaultLine;
use crate::word::{Grain, Smepmp, Xlen, asked, is_set, is_used};
use clap::ArgMatches;
use pmp_core::{Hart, HartFault, MAX_ADDRESS_BITS, MID_ADDRESS_BITS, Profile};
use pmp_plan::{Aim, Security, Watch};

/// Returns the option whose number no hart has.
fn argument_of(fault: HartFault) -> Argument
    ensures { result ≡ argument_of fault }
{
    match fault {
        HartFault::Entries => Argument::Entries,
        HartFault::Grain => Argument::Grain,
        HartFault::AddressBits => Argument::AddressBits,
    }
}

/// Returns the profile, if there is such a hart.
fn made(profile: Profile) -> Result<Profile, FaultLine>
    ensures value { result ≡ made profile }
    ensures there { IfOk result (λ hart. hart_fault hart ≡ None) }
{
    match Hart::new(profile) {
        Ok(_) => Ok(profile),
        Err(fault) => Err(FaultLine::of_word(argument_of(fault))),
    }
}

/// Returns the greatest number of physical address bits.
fn most_bits(is_rv32: bool) -> u8
    ensures { result ≡ most_bits is_rv32 }
{
    if is_rv32 {
        MID_ADDRESS_BITS
    } else {
        MAX_ADDRESS_BITS
    }
}

/// What words say about a hart.
#[derive(Clone, Copy)]
struct HartWords {
    xlen: Option<Xlen>,
    entries: Option<u8>,
    grain: Option<Grain>,
    bits: Option<u8>,
    smepmp: Option<Smepmp>,
}

impl HartWords {
    /// Returns the profile, which defaults to that of an RV64 hart with 16 entries.
    fn profile(self) -> Profile
        ensures { result ≡ profile_said self }
    {
        let is_rv32 = self.xlen.map(|said| said.is_rv32).unwrap_or(false);
        Profile {
            entries: self.entries.unwrap_or(16),
            grain: self.grain.map(|said| said.place).unwrap_or(0),
            address_bits: self.bits.unwrap_or(most_bits(is_rv32)),
            has_smepmp: self.smepmp.map(|said| said.is_there).unwrap_or(true),
            is_rv32,
        }
    }
}

/// Returns the hart with this XLEN, number of entries and grain.
fn read_hart_with(
    words: &ArgMatches,
    xlen: Option<Xlen>,
    entries: Option<u8>,
    grain: Option<Grain>,
) -> Result<Profile, FaultLine>
    ensures value { result ≡ hart_with xlen entries grain (rows_of (found_of words.now)) }
    ensures there { IfOk result (λ hart. hart_fault hart ≡ None) }
{
    let bits = asked(words, Argument::AddressBits)?;
    let smepmp = asked(words, Argument::Smepmp)?;
    let said = HartWords {
        xlen,
        entries,
        grain,
        bits,
        smepmp,
    };
    made(said.profile())
}

/// Returns the hart that the words describe.
pub fn read_hart(words: &ArgMatches) -> Result<Profile, FaultLine>
    ensures value { result ≡ hart_in (rows_of (found_of words.now)) }
    ensures there { IfOk result (λ hart. hart_fault hart ≡ None) }
{
    let xlen = asked(words, Argument::Xlen)?;
    let entries = asked(words, Argument::Entries)?;
    let grain = asked(words, Argument::Grain)?;
    read_hart_with(words, xlen, entries, grain)
}

/// Returns the bits of `mseccfg` that the words ask for.
fn read_security(words: &ArgMatches) -> Security
    ensures { result ≡ security_in (rows_of (found_of words.now)) }
{
    Security {
        mml: is_set(words, Argument::Mml),
        mmwp: is_set(words, Argument::Mmwp),
        rlb: is_set(words, Argument::Rlb),
    }
}

/// Whether the words say anything about a hart.
pub fn says_hart(words: &ArgMatches) -> bool
    ensures { result ≡ says_hart (rows_of (found_of words.now)) }
{
    is_used(words, Argument::Xlen)
        || is_used(words, Argument::Entries)
        || is_used(words, Argument::Grain)
        || is_used(words, Argument::AddressBits)
        || is_used(words, Argument::Smepmp)
}

/// Whether the words ask for a bit of `mseccfg`.
fn says_security(words: &ArgMatches) -> bool
    ensures { result ≡ says_security (rows_of (found_of words.now)) }
{
    is_set(words, Argument::Mml) || is_set(words, Argument::Mmwp) || is_set(words, Argument::Rlb)
}

/// Whether the words ask for anything from one write to the next.
fn says_watch(words: &ArgMatches) -> bool
    ensures { result ≡ says_watch (rows_of (found_of words.now)) }
{
    is_used(words, Argument::From)
        || is_set(words, Argument::Keep)
        || is_set(words, Argument::WhileM)
}

/// Returns what the words ask of the writes of a plan.
pub fn read_aim(words: &ArgMatches) -> Aim
    ensures { result ≡ aim_in (rows_of (found_of words.now)) }
{
    let watch = Watch {
        is_machine_alone: is_set(words, Argument::WhileM),
        keeps_open: is_set(words, Argument::Keep),
    };
    Aim {
        security: read_security(words),
        watch: if says_watch(words) { Some(watch) } else { None },
    }
}

/// Whether the words ask anything of the writes of a plan.
pub fn says_aim(words: &ArgMatches) -> bool
    ensures { result ≡ says_aim (rows_of (found_of words.now)) }
{
    says_security(words) || says_watch(words)
}

//! What a rule allows.

ghost use Rattle.std.specs.Prelude.{◌≡◌, ◌<◌, length};
ghost use Rattle.pmp_core.specs.Rights.{bits_of, perms_of, lockdown_rights, rights, rule_rights};
ghost use Rattle.pmp_core.specs.Rights.{default_rights, default_rights_by};

use crate::access::Mode;
use crate::configuration::Configuration;
use crate::mseccfg::MseccfgFields;
use crate::perms::Perms;
use crate::registers::Registers;
use bitflags::Flags;

/// Returns the bits R, W and X themselves.
fn bits(configuration: &Configuration) -> Perms
    ensures { result ≡ perms_of (bits_of configuration.now) }
{
    Perms::of(
        configuration.reads(),
        configuration.writes(),
        configuration.executes(),
    )
}

/// Returns what the rule allows while MML is set.
///
/// W without R marks a region that the modes share, and so does a rule with L, R, W and X all set. Any other rule
/// applies only to M-mode if it is locked, and only to the other modes if it isn't.
fn lockdown_rights(configuration: &Configuration, mode: Mode) -> Perms
    ensures { result ≡ perms_of (lockdown_rights configuration.now.locked configuration.now.read configuration.now.write
        configuration.now.execute mode) }
{
    let locked = configuration.is_locked();
    let execute = configuration.executes();
    let is_machine = mode == Mode::M;
    match (configuration.reads(), configuration.writes()) {
        (false, true) if locked && execute && is_machine => Perms::RX,
        (false, true) if locked => Perms::X,
        (false, true) if execute || is_machine => Perms::RW,
        (false, true) => Perms::R,
        (true, true) if locked && execute => Perms::R,
        _ if locked == is_machine => bits(configuration),
        _ => Perms::NONE,
    }
}

/// Returns what the rule allows the mode.
fn rule_rights(configuration: &Configuration, mode: Mode, mseccfg: &MseccfgFields) -> Perms
    ensures { result ≡ perms_of (rule_rights mseccfg.now.mml configuration.now mode) }
{
    if mseccfg.mml {
        lockdown_rights(configuration, mode)
    } else if mode == Mode::M && !configuration.is_locked() {
        Perms::RWX
    } else {
        bits(configuration)
    }
}

/// Returns what the mode may do if no entry matches any byte, for a hart with or without entries.
fn default_rights_by(has_entries: bool, mode: Mode, mseccfg: &MseccfgFields) -> Perms
    ensures { result ≡ perms_of (default_rights_by has_entries mseccfg.now.mml mseccfg.now.mmwp mode) }
{
    match mode {
        Mode::M if mseccfg.mmwp => Perms::NONE,
        Mode::M if mseccfg.mml => Perms::RW,
        Mode::S | Mode::U if has_entries => Perms::NONE,
        _ => Perms::RWX,
    }
}

impl<'a> Registers<'a> {
    /// Returns what the entry's rule allows the mode, if the entry matches every byte of an access.
    #[inline]
    pub fn rights(&self, index: usize, mode: Mode) -> Perms
        requires { index < length self.now.entries }
        ensures { result ≡ perms_of (rights self.now index mode) }
    {
        rule_rights(&self.configuration(index), mode, &self.fields())
    }

    /// Returns what the mode may do if no entry matches any byte of an access.
    #[inline]
    pub fn default_rights(&self, mode: Mode) -> Perms
        ensures { result ≡ perms_of (default_rights self.now mode) }
    {
        default_rights_by(self.count() != 0, mode, &self.fields())
    }
}

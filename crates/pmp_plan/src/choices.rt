//! The rules that give a byte what a plan asks for.

ghost use Rattle.std.specs.Prelude.{◌≡◌, IsTrue, false};
ghost use Rattle.pmp_core.specs.Configuration.{configuration_of, is_reserved};
ghost use Rattle.pmp_plan.specs.PlanRules.{HasRule, IsRuleFor, rule_pair};
ghost use Rattle.pmp_plan.specs.StoredRules.{stored_rule};

use crate::plan_row::Demand;
use crate::security::Security;
use pmp_core::{Hart, Registers, SavedRegisters, Size};
use pmp_map::ModeRights;

/// L of a configuration byte.
pub const LOCK: u8 = 128;

/// The configuration bytes of all rules, OFF: without L and with it, each of R, W and X.
const RULES: [u8; 16] = [
    0, 1, 2, 3, 4, 5, 6, 7, 128, 129, 130, 131, 132, 133, 134, 135,
];

/// Returns what an entry with this byte gives, as it is stored.
fn rights_by(security: Security, byte: u8) -> ModeRights
    ensures { result ≡ rule_pair security (stored_rule security byte) }
{
    let mut saved = SavedRegisters::reset_on(Hart::of(Size::Sixteen));
    saved.mseccfg = security.value();
    saved.configurations[0] = byte;
    ModeRights::of_owner(&Registers::of(&saved), Some(0))
}

/// Whether it is W without R.
fn is_reserved(byte: u8) -> bool
    ensures { result ≡ is_reserved (configuration_of byte) }
{
    byte / 2 % 2 == 1 && byte % 2 != 1
}

/// Whether a rule gives what is asked for.
fn is_rule_for(security: Security, demand: Demand, byte: u8) -> bool
    ensures yes { IsTrue result → IsRuleFor security demand (configuration_of byte) }
    ensures no { IsRuleFor security demand (configuration_of byte) → IsTrue result }
{
    let is_legal = security.mml || !is_reserved(byte);
    let is_held = byte / LOCK == 1 && !security.rlb;
    is_legal && rights_by(security, byte) == demand.rights && (is_held || !demand.is_locked)
}

/// Whether some rule gives what is asked for.
pub fn has_rule(security: Security, demand: Demand) -> bool
    ensures yes { IsTrue result → HasRule security demand }
    ensures no { result ≡ false → ¬ (HasRule security demand) }
{
    for byte in RULES {
        if is_rule_for(security, demand, byte) {
            return true;
        }
    }
    false
}

/// Returns the first and the last rule that give what is asked for: there are no others.
pub fn choices(security: Security, demand: Demand) -> [Option<u8>; 2] {
    let mut first = None;
    let mut last = None;
    for byte in RULES {
        if is_rule_for(security, demand, byte) {
            if first.is_none() {
                first = Some(byte);
            } else {
                last = Some(byte);
            }
        }
    }
    [first, last]
}

/// Whether entries with this rule hold the bytes that they own.
pub fn holds(security: Security, rule: u8) -> bool {
    rule / LOCK == 1 && !security.rlb
}

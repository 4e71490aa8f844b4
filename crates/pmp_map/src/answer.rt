//! The numbers that encode answers.

ghost use Rattle.std.specs.Prelude.{◌≡◌, ◌+◌, ◌*◌, ◌≤◌};
ghost use Rattle.pmp_core.specs.FaultCode.{access_fault_code};
ghost use Rattle.pmp_core.specs.declared.access.Access.{Access};
ghost use Rattle.pmp_core.specs.declared.decision.Decision.{Decision};
ghost use Rattle.pmp_map.specs.AnswerLaw.{IsByteCause};
ghost use Rattle.pmp_map.specs.Answer.{cause_number, number_by, answer_number, no_access};

use pmp_core::{Access, Cause, Decision, Kind};

/// The number of the cause if the numbers name no access.
pub const NO_CAUSE: u16 = 1023;

/// Returns the answer for numbers of this kind that name no access.
#[cold]
pub fn no_access(kind: u32) -> u16
    ensures { result ≡ no_access kind }
{
    match kind {
        0 => NO_CAUSE + 1024,
        2 => NO_CAUSE + 7 * 1024,
        _ => NO_CAUSE + 5 * 1024,
    }
}

/// Returns the number of what decides.
pub fn cause_number(cause: Cause) -> u16
    ensures number { result ≡ cause_number cause }
    ensures most { result ≤ 512 }
{
    match cause {
        Cause::Rule(entry) => u16::from(entry),
        Cause::Split(entry) => 256 + u16::from(entry),
        Cause::NoMatch => 512,
    }
}

/// Returns the number of an answer to an access of this kind.
pub fn number_by(kind: Kind, cause: Cause, allowed: bool) -> u16
    ensures { result ≡ number_by kind cause allowed }
{
    let cause = cause_number(cause);
    if allowed {
        cause
    } else {
        cause + 1024 * u16::from(kind.access_fault_code())
    }
}

/// Returns the number of the answer to the access.
pub fn answer_number(access: &Access, decision: &Decision) -> u16
    ensures { result ≡ answer_number access.now decision.now }
{
    number_by(access.kind, decision.cause, decision.allowed)
}

/// Returns the number that refuses an access of this kind because this entry splits it.
pub fn split_number(kind: Kind, entry: u16) -> u16
    requires { entry ≤ 512 }
    ensures { result ≡ 256 + entry + 1024 * access_fault_code kind }
{
    256 + entry + 1024 * u16::from(kind.access_fault_code())
}

/// Returns the decision that this number encodes.
#[inline(always)]
pub fn decision(number: u16) -> Decision
    ensures { (access : Access) (decision : Decision) → IsByteCause decision.cause
        → number ≡ answer_number access decision → result ≡ decision }
{
    let cause = number % 1024;
    Decision {
        allowed: number < 1024,
        cause: if cause < 256 {
            Cause::Rule(cause as u8)
        } else if cause < 512 {
            Cause::Split((cause - 256) as u8)
        } else {
            Cause::NoMatch
        },
    }
}

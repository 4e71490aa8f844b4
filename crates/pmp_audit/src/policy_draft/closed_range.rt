//! The ranges of bytes that are closed to a mode and a kind of access.

ghost use Rattle.std.specs.Prelude.{◌≡◌, ◌<◌, ◌≤◌, IfSome, length};
ghost use Rattle.pmp_core.specs.declared.access.TheConstants.{ADDRESS_LIMIT};
ghost use Rattle.pmp_core.specs.Rights.{allows};
ghost use Rattle.pmp_map.specs.Answers.{owned_rights};
ghost use Rattle.pmp_audit.specs.ClosedRanges.{IsFirstClosed};
ghost use Rattle.pmp_audit.specs.AnsweredBytes.{IsFirstAnswered};

use pmp_core::{ADDRESS_LIMIT, Kind, Mode, Registers, Span};
use pmp_map::{ModeRights, run_around};

/// Whether the owner's bytes are open to the mode and the kind.
#[tactic(auto, using(pmp_map::proofs::KeptRights::rights_kept))]
fn is_open(registers: &Registers<'_>, owner: Option<u8>, mode: Mode, kind: Kind) -> bool
    requires { IfSome owner (λ entry. entry < length registers.now.entries) }
    ensures { result ≡ allows (owned_rights registers.now owner mode) kind }
{
    ModeRights::of_owner(registers, owner).of(mode).allows(kind)
}

/// Returns the first byte from this one on that is open to the mode and the kind, or closed to them if `allowed`
/// is false; `2^56` if there is none.
fn first_answered(
    registers: &Registers<'_>,
    allowed: bool,
    mode: Mode,
    kind: Kind,
    from: u64,
) -> u64
    requires { from ≤ ADDRESS_LIMIT }
    ensures { IsFirstAnswered registers.now allowed mode kind from result }
{
    let mut first = from;
    while first < ADDRESS_LIMIT {
        let run = run_around(registers, first);
        if is_open(registers, run.owner, mode, kind) == allowed {
            return first;
        }
        first = run.last + 1;
    }
    first
}

/// Returns the first range of bytes from this one on that are closed to the mode and the kind, as long as it goes.
pub fn closed_range_from(
    registers: &Registers<'_>,
    mode: Mode,
    kind: Kind,
    from: u64,
) -> Option<Span>
    requires { from ≤ ADDRESS_LIMIT }
    ensures { IsFirstClosed registers.now mode kind from result }
{
    let first = first_answered(registers, false, mode, kind, from);
    if first == ADDRESS_LIMIT {
        return None;
    }
    let end = first_answered(registers, true, mode, kind, first + 1);
    Some(Span {
        first,
        last: end - 1,
    })
}

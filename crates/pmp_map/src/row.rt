//! The answers to accesses whose bytes have one owner.

ghost use Rattle.std.specs.Prelude.{◌≡◌, ◌<◌, ◌≤◌, ℕ, IfSome, Option, length};
ghost use Rattle.pmp_core.specs.declared.access.Mode.{Mode};
ghost use Rattle.pmp_core.specs.RegisterFile.{RegisterFile};
ghost use Rattle.pmp_core.specs.Rights.{perms_of};
ghost use Rattle.pmp_map.specs.Answers.{owned_rights};
ghost use Rattle.pmp_map.specs.Columns.{column_of};
ghost use Rattle.pmp_map.specs.Rows.{IsRow, owned_answer};

use crate::answer::{NO_CAUSE, number_by};
use crate::mode_rights::{ModeRights, whole_cause};
use pmp_core::{Kind, Mode, Perms, Registers};

/// An answer for each mode and kind, at 4 times the mode's level plus the kind's number. There is no level 2.
pub type Row = [u16; 16];

/// Returns where a row has the answer for the mode and the kind.
#[inline(always)]
pub fn column_of(mode: Mode, kind: Kind) -> usize
    ensures column { result ≡ column_of mode kind }
    ensures inside { result < 16 }
{
    4 * mode as usize + kind as usize
}

/// Returns the answer to an access of this kind, whose bytes have this owner, in a mode with these rights.
fn owned_answer(owner: Option<u8>, rights: Perms, kind: Kind) -> u16
    ensures answer { (file : RegisterFile) (mode : Mode) → rights ≡ perms_of (owned_rights file owner mode)
        → result ≡ owned_answer file owner mode kind }
    ensures number { IfSome owner (λ entry. entry < 256) }
{
    number_by(kind, whole_cause(owner), rights.allows(kind))
}

/// Returns the answers if all bytes have this owner. S-mode and U-mode have the same answers.
pub fn row_of(registers: &Registers<'_>, owner: Option<u8>) -> Row
    requires { IfSome owner (λ entry. entry < length registers.now.entries) }
    ensures { IsRow registers.now owner result }
{
    let rights = ModeRights::of_owner(registers, owner);
    let fetch = owned_answer(owner, rights.others, Kind::Fetch);
    let load = owned_answer(owner, rights.others, Kind::Load);
    let store = owned_answer(owner, rights.others, Kind::Store);
    [
        fetch,
        load,
        store,
        NO_CAUSE,
        fetch,
        load,
        store,
        NO_CAUSE,
        NO_CAUSE,
        NO_CAUSE,
        NO_CAUSE,
        NO_CAUSE,
        owned_answer(owner, rights.machine, Kind::Fetch),
        owned_answer(owner, rights.machine, Kind::Load),
        owned_answer(owner, rights.machine, Kind::Store),
        NO_CAUSE,
    ]
}

/// Returns the owner that a row is for.
#[inline(always)]
pub fn row_owner(row: &Row) -> Option<u8>
    ensures { (file : RegisterFile) (owner : Option ℕ) → IsRow file owner row.now → result ≡ owner }
{
    let cause = row[0] % 1024;
    if cause < 256 { Some(cause as u8) } else { None }
}

/// Returns what a row allows the mode.
#[inline(always)]
pub fn row_rights(row: &Row, mode: Mode) -> Perms
    ensures { (file : RegisterFile) (owner : Option ℕ) → IsRow file owner row.now
        → result ≡ perms_of (owned_rights file owner mode) }
{
    Perms::of(
        row[column_of(mode, Kind::Load)] < 1024,
        row[column_of(mode, Kind::Store)] < 1024,
        row[column_of(mode, Kind::Fetch)] < 1024,
    )
}

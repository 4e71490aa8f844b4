//! The rows that say where two register files differ in what they let the modes do with bytes, or how they lock them.

ghost use Rattle.std.specs.Prelude.{◌≡◌, [], IfOk, OnOk, OnErr};
ghost use Rattle.pmp_text.specs.Changes.{asked_rows, byte_lock_text, change_of, change_text, goes_beyond, has_beyond};
ghost use Rattle.pmp_text.specs.Changes.{has_row, is_asked};

use crate::lines::NoMemory;
use crate::lines::cell::Cell;
use crate::lines::row_kind::RowKind;
use crate::lines::row_sink::RowSink;
use pmp_core::{Kind, Perms};
use pmp_map::{ByteLock, Compared, ComparedRun, ModeRights};

/// How a new register file differs from an old one in what it lets the modes do with bytes.
#[derive(Clone, Copy, Debug, PartialEq, Eq)]
pub enum Change {
    /// Nothing is lost.
    More,
    /// Nothing is gained.
    Less,
    /// Something is lost, and something gained.
    Both,
}

/// Which changes of rights are wanted, if not all.
#[derive(Clone, Copy, Debug, PartialEq, Eq)]
pub enum Only {
    /// Those that gain something.
    More,
    /// Those that lose something.
    Less,
}

/// Whether the first set has a right that the second hasn't.
fn has_beyond(one: Perms, other: Perms) -> bool
    ensures { result ≡ has_beyond one other }
{
    one.allows(Kind::Load) && !other.allows(Kind::Load)
        || one.allows(Kind::Store) && !other.allows(Kind::Store)
        || one.allows(Kind::Fetch) && !other.allows(Kind::Fetch)
}

/// Whether some mode has such a right.
fn goes_beyond(one: &ModeRights, other: &ModeRights) -> bool
    ensures { result ≡ goes_beyond one.now other.now }
{
    has_beyond(one.machine, other.machine) || has_beyond(one.others, other.others)
}

/// Returns how the files differ in what they let the modes do, if they do.
fn change_of(old: &ModeRights, new: &ModeRights) -> Option<Change>
    ensures { result ≡ change_of old.now new.now }
{
    match (goes_beyond(old, new), goes_beyond(new, old)) {
        (false, false) => None,
        (false, true) => Some(Change::More),
        (true, false) => Some(Change::Less),
        (true, true) => Some(Change::Both),
    }
}

fn is_asked(only: Option<Only>, change: Change) -> bool
    ensures { result ≡ is_asked only change }
{
    !matches!(
        (only, change),
        (Some(Only::More), Change::Less) | (Some(Only::Less), Change::More)
    )
}

fn change_word(change: Change) -> &'static str
    ensures { result.now ≡ change_text change }
{
    match change {
        Change::More => "more",
        Change::Less => "less",
        Change::Both => "both",
    }
}

/// Returns the word for how bytes are locked: that of an entry's lock, or `held`.
fn byte_lock_word(lock: ByteLock) -> &'static str
    ensures { result.now ≡ byte_lock_text lock }
{
    match lock {
        ByteLock::Open => "-",
        ByteLock::Bypassed => "bypassed",
        ByteLock::Frozen => "frozen",
        ByteLock::Held => "held",
    }
}

/// Adds the row of a run if the files differ, and returns whether it has one: the first and the last byte, and then for
/// rights with a wanted difference what the old file lets M-mode do there, and S-mode and U-mode, the same for the new
/// file, and how they differ; for locks how the old file locks, and the new one.
#[tactic(auto, unfolding(crate::specs::Changes::asked_rows, crate::specs::Changes::has_row))]
pub fn add_change<R: RowSink>(
    out: &mut R,
    run: &ComparedRun,
    only: Option<Only>,
) -> Result<bool, NoMemory>
    ensures ok { OnOk result (R.Adds (asked_rows only run.now) out.old out.new) }
    ensures has { IfOk result (λ has. has ≡ has_row only run.now) }
    ensures err { OnErr result (R.Adds [] out.old out.new) }
{
    let (first, last) = (Cell::Address(run.first), Cell::Address(run.last));
    match run.both {
        Compared::Rights(old, new) => match change_of(&old, &new) {
            Some(change) if is_asked(only, change) => {
                let cells = [
                    first,
                    last,
                    Cell::Rights(old.machine),
                    Cell::Rights(old.others),
                    Cell::Rights(new.machine),
                    Cell::Rights(new.others),
                    Cell::Word(change_word(change)),
                ];
                out.add(RowKind::Rights, &cells)?;
                Ok(true)
            }
            _ => Ok(false),
        },
        Compared::Locks(old, new) if old == new => Ok(false),
        Compared::Locks(old, new) => {
            let (old, new) = (byte_lock_word(old), byte_lock_word(new));
            out.add(
                RowKind::Locks,
                &[first, last, Cell::Word(old), Cell::Word(new)],
            )?;
            Ok(true)
        }
    }
}

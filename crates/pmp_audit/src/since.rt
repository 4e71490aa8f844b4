//! The moments since which entries are frozen, and since which they are held.

ghost use Rattle.std.specs.Prelude.{◌≡◌, ◌<◌, ◌≤◌, ℕ, length, take};
ghost use Rattle.std.specs.List.{list_all, slice_index_or};
ghost use Rattle.pmp_core.specs.Histories.{is_write};
ghost use Rattle.pmp_core.specs.RegisterFile.{IsLegal, is_frozen, is_held};
ghost use Rattle.pmp_text.specs.EntryRows.{no_since};
ghost use Rattle.pmp_audit.specs.Since.{AreSince};
ghost use Rattle.pmp_audit.specs.SinceStep.{since_after};

use crate::replay::Replay;
use pmp_core::{Event, MAX_ENTRIES, RegFile};
use pmp_text::{ReadScript, Since};

fn are_writes(events: &[Event]) -> bool
    ensures { result ≡ list_all is_write events.now }
{
    events.iter().all(|event| matches!(event, Event::Write(..)))
}

/// Returns since when an entry is frozen, or held, after one more publication, number `done`. A reset discards what was
/// before it.
fn since_after(before: Option<u64>, is_so: bool, are_writes: bool, done: u64) -> Option<u64>
    ensures { result ≡ since_after before is_so are_writes done }
{
    match (is_so, are_writes) {
        (false, _) => None,
        (true, false) => Some(done),
        (true, true) => Some(before.unwrap_or(done)),
    }
}

/// Takes in publication number `done`, which left this register file.
fn count_in(since: &mut [Since], file: &RegFile, are_writes: bool, done: u64)
    requires { length file.now.entries ≤ length since.old }
    ensures frozen { (i : ℕ) → i < length file.now.entries → (slice_index_or since.new i no_since).frozen
        ≡ since_after (slice_index_or since.old i no_since).frozen (is_frozen file.now i) are_writes done }
    ensures held { (i : ℕ) → i < length file.now.entries → (slice_index_or since.new i no_since).held
        ≡ since_after (slice_index_or since.old i no_since).held (is_held file.now i) are_writes done }
{
    let registers = file.registers();
    for entry in 0..file.entries() {
        let place = usize::from(entry);
        let before = since[place];
        since[place] = Since {
            frozen: since_after(before.frozen, file.is_locked(entry), are_writes, done),
            held: since_after(before.held, registers.is_held(place), are_writes, done),
        };
    }
}

/// Returns the script after its first `count` publications, and for each entry that is frozen there the number of the
/// publication that froze it, 0 if the script begins with it frozen: it has been frozen ever since. The same for each
/// entry that is held, that is, it and all entries before it are frozen.
pub fn since_of<'a>(script: &'a ReadScript<'a>, count: u64) -> (Replay<'a>, [Since; MAX_ENTRIES])
    requires legal { IsLegal script.now.start }
    requires within { count ≤ length script.now.batches }
    ensures position { result.0 ≡ record { script = script.now; done = count } }
    ensures since { AreSince script.now.start (take count script.now.batches) result.1 }
{
    let none = Since {
        frozen: None,
        held: None,
    };
    let mut since = [none; MAX_ENTRIES];
    let mut replay = Replay::new(script);
    count_in(&mut since, replay.file(), true, 0);
    for index in 0..count {
        replay.advance(index + 1);
        let are_writes = are_writes(script.batch(index));
        count_in(&mut since, replay.file(), are_writes, index + 1);
    }
    (replay, since)
}

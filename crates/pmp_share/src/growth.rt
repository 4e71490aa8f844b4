//! How a journal takes in a batch, and updates what its events give.

ghost use Rattle.std.specs.Prelude.{◌≡◌, ◌∷◌, ◌++◌, [], OnOk, OnErr};
ghost use Rattle.pmp_core.specs.RegisterFile.{RegisterFile};
ghost use Rattle.pmp_share.specs.Batches.{file_from};

use crate::journal::Journal;
use pmp_core::{Event, RegFile};
use pmp_map::RunMap;
use std::alloc::AllocError;

/// Adds a batch to the journal, to the register file that it gives, from any base, and to that file's map. If memory is
/// refused nothing changes.
pub fn grow(
    journal: &mut Journal,
    file: &mut RegFile,
    map: &mut RunMap,
    batch: &[Event],
) -> Result<(), AllocError>
    requires mapped { map.old ≡ file.old }
    ensures added { OnOk result (journal.new ≡ journal.old ++ batch.now ∷ []) }
    ensures refused { OnErr result (journal.new ≡ journal.old) }
    ensures replayed { (base : RegisterFile) → file.old ≡ file_from base journal.old
        → file.new ≡ file_from base journal.new }
    ensures mapped { map.new ≡ file.new }
{
    journal.push(batch)?;
    file.run_events(batch);
    *map = RunMap::build(file);
    Ok(())
}

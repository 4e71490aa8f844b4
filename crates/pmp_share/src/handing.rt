//! How pending batches are handed over.

ghost use Rattle.std.specs.Prelude.{◌≡◌, ◌+◌, ◌<◌, ◌≤◌, true, false, ◌++◌, length, take, IfErr, OnOk};
ghost use Rattle.pmp_share.specs.declared.fault.ShareFault.TheVariants.{Memory};

use crate::fault::ShareFault;
use crate::journal::Journal;
use crate::writer_state::WriterState;

/// Hands over the pending batches that aren't handed over yet.
pub fn hand_over(
    state: &mut WriterState,
    pending: &Journal,
    handed: &mut usize,
) -> Result<(), ShareFault>
    requires within { handed.old ≤ length pending.now }
    requires handed { state.old.handed ≡ state.old.shown ++ take handed.old pending.now }
    requires ahead { state.old.ahead ≡ true → (handed.old < length pending.now)
        × (state.old.noted ≡ state.old.shown ++ take (handed.old + 1) pending.now) }
    ensures unit { state.new.unit ≡ state.old.unit }
    ensures shown { state.new.shown ≡ state.old.shown }
    ensures within { handed.new ≤ length pending.now }
    ensures handed { state.new.handed ≡ state.new.shown ++ take handed.new pending.now }
    ensures ahead { state.new.ahead ≡ true → (handed.new < length pending.now)
        × (state.new.noted ≡ state.new.shown ++ take (handed.new + 1) pending.now) }
    ensures all { OnOk result (handed.new ≡ length pending.now) }
    ensures memory { IfErr result (λ fault. fault ≡ Memory) }
{
    let batches = pending.batches();
    while *handed < batches {
        state.hand(pending.batch(*handed))?;
        *handed += 1;
    }
    Ok(())
}

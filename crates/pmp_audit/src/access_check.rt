//! One access, decided after some of a script's publications.

ghost use Rattle.std.specs.Prelude.{[], IfErr, IfOk, OnErr};
ghost use Rattle.pmp_audit.specs.AccessCheck.{CheckSays};
ghost use Rattle.pmp_audit.specs.Answers.{AreAdded, Declines};
ghost use Rattle.pmp_audit.specs.AskedFile.{FileRefuses};

use crate::replay::file_after;
use pmp_core::{Access, Decision};
use pmp_text::{EventLog, Fault, RowSink, When, add_answer};

/// Decides the access after the script's publications done at `after`, or after all of them if that is none, and adds
/// its row, with the number 1. The log keeps the script's events; `Memory` means that there is no room for them there,
/// or none for the row.
#[inline(never)]
pub fn add_check<L: EventLog, R: RowSink>(
    log: &mut L,
    script: &[u8],
    access: &Access,
    after: Option<When>,
    out: &mut R,
) -> Result<Decision, Fault>
    ensures ok { IfOk result (AreAdded R.Adds (CheckSays script.now access.now after) out.old out.new) }
    ensures err { IfErr result (Declines (FileRefuses script.now after)) }
    ensures kept { OnErr result (R.Adds [] out.old out.new) }
{
    let file = file_after(log, script, after)?;
    let decision = file.decide(access);
    add_answer(out, 1, access, &decision)?;
    Ok(decision)
}

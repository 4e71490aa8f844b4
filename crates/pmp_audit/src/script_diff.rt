//! The differences between the register files of two scripts in what they let the modes do, and in how they lock.

ghost use Rattle.std.specs.Prelude.{◌≡◌, ◌≤◌, [], IfOk, IfErr, OnErr};
ghost use Rattle.pmp_audit.specs.Answers.{AreAdded, Declines};
ghost use Rattle.pmp_text.specs.Cells.{AddsSome};
ghost use Rattle.pmp_core.specs.declared.access.TheConstants.{ADDRESS_LIMIT};
ghost use Rattle.pmp_audit.specs.ScriptDiff.{ChangesSay, DiffRefuses, DiffSays, FilesSay, GivesFile, LocksSay};
ghost use Rattle.pmp_audit.specs.Sides.{OnSide};
ghost use Rattle.pmp_audit.specs.AskedFile.{FileRefuses};

use crate::replay::file_after;
use pmp_core::{ADDRESS_LIMIT, RegFile, Registers};
use pmp_map::{Aspect, compared_run_from};
use pmp_text::{EventLog, Fault, Only, RowSink, Source, When, add_change};
use std::alloc::AllocError;

/// The wanted rows of a difference.
#[derive(Clone, Copy, Debug, PartialEq, Eq)]
pub struct AskedChanges {
    /// Which rows of rights are wanted, if not all.
    pub only: Option<Only>,
    /// Whether the rows of locks are wanted too.
    pub has_locks: bool,
}

/// A script, and the moment at which its register file is compared: after all its publications if that is none.
#[derive(Clone, Copy)]
pub struct Moment<'a> {
    pub script: &'a [u8],
    pub after: Option<When>,
}

/// Adds a row for each of the longest ranges of bytes where the two register files differ in what they let the modes do,
/// regardless of the owner of the bytes, and returns the number of rows. If only more or only less is wanted, other rows
/// of rights are left out. If locks are wanted, a row follows for each of the longest ranges where the files differ in
/// how they lock.
///
/// The old script's fault comes first. The log keeps the events of one script after the other; `Memory` means that
/// there is no room for them there, or none for the rows.
#[inline(never)]
pub fn add_diff<L: EventLog, R: RowSink>(
    log: &mut L,
    old: Moment<'_>,
    new: Moment<'_>,
    asked: AskedChanges,
    out: &mut R,
) -> Result<u64, Fault>
    ensures ok { IfOk result (AreAdded R.Adds
        (DiffSays old.entry.script.now old.entry.after new.entry.script.now new.entry.after asked) out.old out.new) }
    ensures err { IfErr result (Declines
        (DiffRefuses old.entry.script.now old.entry.after new.entry.script.now new.entry.after)) }
    ensures kept { OnErr result (R.Adds [] out.old out.new) }
{
    let old_file = file_on(Source::Old, log, old)?;
    let new_file = file_on(Source::New, log, new)?;
    Ok(add_rows(out, &old_file, &new_file, asked)?)
}

/// Adds the rows that are asked for, all or none, and returns how many these are.
fn add_rows<R: RowSink>(
    out: &mut R,
    old: &RegFile,
    new: &RegFile,
    asked: AskedChanges,
) -> Result<u64, AllocError>
    ensures ok { IfOk result (AreAdded R.Adds (FilesSay old.now new.now asked) out.old out.new) }
    ensures kept { OnErr result (R.Adds [] out.old out.new) }
{
    let before = out.position();
    let rows = add_all(out, &old.registers(), &new.registers(), asked);
    if rows.is_err() {
        out.go_back(before);
    }
    rows
}

/// Adds the wanted rows, and returns their number.
fn add_all<R: RowSink>(
    out: &mut R,
    old: &Registers<'_>,
    new: &Registers<'_>,
    asked: AskedChanges,
) -> Result<u64, AllocError>
    ensures ok { IfOk result (AreAdded R.Adds (FilesSay old.now new.now asked) out.old out.new) }
    ensures err { OnErr result (AddsSome R.Adds out.old out.new) }
{
    let rights = add_differences(out, Aspect::Rights, old, new, asked.only)?;
    let locks = add_locks(out, old, new, asked)?;
    Ok(rights + locks)
}

/// Adds the rows of locks, if they are wanted, and returns their number.
fn add_locks<R: RowSink>(
    out: &mut R,
    old: &Registers<'_>,
    new: &Registers<'_>,
    asked: AskedChanges,
) -> Result<u64, AllocError>
    ensures ok { IfOk result
        (AreAdded R.Adds (LocksSay old.now new.now asked.only asked.has_locks) out.old out.new) }
    ensures few { IfOk result (λ rows. rows ≤ ADDRESS_LIMIT) }
    ensures err { OnErr result (AddsSome R.Adds out.old out.new) }
{
    if asked.has_locks {
        add_differences(out, Aspect::Locks, old, new, asked.only)
    } else {
        Ok(0)
    }
}

/// Adds a row for each of the longest ranges where the files have a wanted difference in this aspect, and returns
/// the number of rows.
fn add_differences<R: RowSink>(
    out: &mut R,
    aspect: Aspect,
    old: &Registers<'_>,
    new: &Registers<'_>,
    only: Option<Only>,
) -> Result<u64, AllocError>
    ensures ok { IfOk result (AreAdded R.Adds (ChangesSay aspect old.now new.now only) out.old out.new) }
    ensures few { IfOk result (λ rows. rows ≤ ADDRESS_LIMIT) }
    ensures err { OnErr result (AddsSome R.Adds out.old out.new) }
{
    let mut rows = 0;
    let mut first = 0;
    while first < ADDRESS_LIMIT {
        let run = compared_run_from(aspect, old, new, first);
        if add_change(out, &run, only)? {
            rows += 1;
        }
        first = run.last + 1;
    }
    Ok(rows)
}

/// Returns the register file of the script on this side, or why it has none.
fn file_on<L: EventLog>(side: Source, log: &mut L, moment: Moment<'_>) -> Result<RegFile, Fault>
    ensures ok { IfOk result (λ file. GivesFile moment.entry.script.now moment.entry.after file) }
    ensures err { IfErr result (Declines (OnSide side (FileRefuses moment.entry.script.now moment.entry.after))) }
{
    match file_after(log, moment.script, moment.after) {
        Ok(file) => Ok(file),
        Err(fault) => Err(fault.on(side)),
    }
}

//! Bytes that a mode may both write and execute.

ghost use Rattle.std.specs.Prelude.{◌≡◌, ◌<◌, IfSome, OnErr, OnOk, length};
ghost use Rattle.pmp_text.specs.Cells.{AddsSome};
ghost use Rattle.pmp_core.specs.Rights.{Rights, perms_of};
ghost use Rattle.pmp_map.specs.Runs.{HasOwnersBelow};
ghost use Rattle.pmp_lint.specs.Telling.{HasTold, telling};
ghost use Rattle.pmp_lint.specs.WriteAndExecute.{owner_line, write_and_execute, writes_and_executes, writing_modes};
ghost use Rattle.pmp_lint.specs.WriteAndExecute.{written_and_executed};

use crate::end_state::{Ended, found_if};
use crate::finding::Finding;
use crate::lint::Lint;
use crate::subject::Subject;
use crate::told::Told;
use pmp_core::{Kind, Perms, Registers, Span};
use pmp_map::{ModeRights, Run};
use pmp_text::{Modes, NoMemory, RowSink};

fn writes_and_executes(perms: Perms) -> bool
    ensures { (rights : Rights) → perms ≡ perms_of rights → result ≡ writes_and_executes rights }
{
    perms.allows(Kind::Store) && perms.allows(Kind::Fetch)
}

fn writing_modes(registers: &Registers<'_>, owner: Option<u8>) -> Modes
    requires { IfSome owner (λ entry. entry < length registers.now.entries) }
    ensures { result ≡ writing_modes registers.now owner }
{
    let rights = ModeRights::of_owner(registers, owner);
    let others = writes_and_executes(rights.others);
    Modes {
        machine: writes_and_executes(rights.machine),
        supervisor: others,
        user: others,
    }
}

impl<'a> Ended<'a> {
    fn owner_line(&self, owner: Option<u8>) -> u64
        requires { IfSome owner (λ entry. entry < length self.now.file.now.entries) }
        ensures { result ≡ owner_line self.now.script.now owner }
    {
        let _count = self.file.entries();
        match owner {
            Some(entry) => self.changed_last(Subject::Entry(entry)),
            None => 0,
        }
    }

    fn write_and_execute(&self, run: &Run) -> Option<Finding>
        requires { IfSome run.now.owner (λ entry. entry < length self.now.file.now.entries) }
        ensures { result ≡ write_and_execute self.now.script.now run.now }
    {
        let modes = writing_modes(&self.file.registers(), run.owner);
        let finding = Finding {
            lint: Lint::WriteAndExecute,
            line: self.owner_line(run.owner),
            entry: run.owner,
            bytes: Some(Span {
                first: run.first,
                last: run.last,
            }),
            modes,
        };
        found_if(modes.machine || modes.user, finding)
    }

    /// Tells a finding for each of these runs, which are the file's, that a mode may both write and execute.
    pub fn add_write_and_execute<R: RowSink>(
        &self,
        out: &mut R,
        told: &mut Told<'_>,
        runs: &[Run],
    ) -> Result<(), NoMemory>
        requires { HasOwnersBelow (length self.now.file.now.entries) runs.now }
        ensures ok { OnOk result (HasTold R.Adds (written_and_executed self.now.script.now runs.now)
            (telling out.old told.old) (telling out.new told.new)) }
        ensures err { OnErr result (AddsSome R.Adds out.old out.new) }
    {
        for run in runs {
            told.add(out, self.write_and_execute(run))?;
        }
        Ok(())
    }
}

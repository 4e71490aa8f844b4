//! The findings that are told: each that isn't accepted, by its row.

ghost use Rattle.std.specs.Prelude.{[], OnErr, OnOk};
ghost use Rattle.std.specs.Option.{option_to_list};
ghost use Rattle.pmp_lint.specs.Telling.{HasTold, telling};

use crate::accepted::is_accepted;
use crate::finding::{Finding, add_finding};
use pmp_text::{NoMemory, RowSink};

/// Which findings aren't told, and how many rows the others have so far.
#[derive(Clone, Copy)]
pub struct Told<'a> {
    /// Names, as `NAME` or `NAME:LINE`, which commas separate.
    pub accepted: &'a [u8],
    pub count: usize,
}

impl<'a> Told<'a> {
    /// Appends a finding's row and counts it, if there is a finding and it isn't accepted; or nothing.
    #[tactic(auto, unfolding(crate::specs::Findings::is_told))]
    pub fn add<R: RowSink>(&mut self, out: &mut R, finding: Option<Finding>) -> Result<(), NoMemory>
        ensures ok { OnOk result (HasTold R.Adds (option_to_list finding)
            (telling out.old self.old) (telling out.new self.new)) }
        ensures err { OnErr result (R.Adds [] out.old out.new) }
    {
        let Some(finding) = finding else {
            return Ok(());
        };
        if !is_accepted(self.accepted, finding.lint.name().as_bytes(), finding.line) {
            let count = self.count.checked_add(1).ok_or(NoMemory)?;
            add_finding(out, finding)?;
            self.count = count;
        }
        Ok(())
    }
}

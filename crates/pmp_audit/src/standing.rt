//! The progress of a long audit.

ghost use Rattle.std.specs.Prelude.{◌≡◌, ◌-◌, ◌≤◌, MatchResult, false, true};
ghost use Rattle.pmp_text.specs.LongTraces.{beginning};
ghost use Rattle.pmp_text.specs.Flaws.{at_row};
ghost use Rattle.pmp_text.specs.declared.refusal.Refusal.TheVariants.{BadHeader};
ghost use Rattle.pmp_text.specs.Flaws.{as_whole};
ghost use Rattle.pmp_text.specs.declared.fault.Source.TheVariants as source;

use crate::trace_audit::AuditSummary;
use pmp_text::{Fault, Position, Refusal, Source};

/// Where the next piece begins, and how many accesses were refused before it.
#[derive(Clone, Copy)]
pub struct Standing {
    pub place: Position,
    pub faults: u64,
}

impl Standing {
    /// Returns the standing before the first piece of a trace whose first row has this number.
    pub fn beginning(first: u64) -> Standing
        ensures { result ≡ record { place = beginning first; faults = 0 } }
    {
        Standing {
            place: Position::beginning(first),
            faults: 0,
        }
    }

    /// Returns, after the last piece, the accesses decided and refused. A trace without a record has no header.
    pub fn end(self, first: u64) -> Result<AuditSummary, Fault>
        requires { first ≤ self.place.next }
        ensures { MatchResult result
            (λ summary. (self.place.begun ≡ true)
            × (summary ≡ record { rows = self.place.next - first; faults = self.faults; bare = self.place.bare }))
            (λ fault. (self.place.begun ≡ false) × (fault ≡ at_row source.Trace 0 (as_whole BadHeader))) }
    {
        if !self.place.begun {
            return Err(Refusal::BadHeader.whole().at_row(Source::Trace, 0));
        }
        Ok(AuditSummary {
            rows: self.place.next - first,
            faults: self.faults,
            bare: self.place.bare,
        })
    }
}

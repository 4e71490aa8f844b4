//! A row of a policy by which a range of bytes stays closed.

ghost use Rattle.std.specs.Prelude.{◌≡◌, Some};
ghost use Rattle.pmp_audit.specs.PolicyDraft.{kind_word, last_word, modes_word, never_row};

use pmp_core::{Kind, Mode, Span};
use std::fmt;

/// The moment after the last publication.
#[derive(Clone, Copy)]
pub struct LastMoment {
    /// How many publications there are.
    pub publications: u64,
    /// Whether the script's version has names of moments.
    pub has_names: bool,
}

impl fmt::Display for LastMoment {
    ghost output = { λ moment. Some (last_word moment.has_names moment.publications) };

    fn fmt<W: fmt::Write>(&self, f: &mut fmt::Formatter<W>) -> fmt::Result {
        let publications = self.publications;
        if self.has_names {
            write!(f, "last")
        } else {
            write!(f, "{publications}")
        }
    }
}

/// Returns the letters of M-mode, or those of S-mode and U-mode, which have the same rights.
fn modes_word(mode: Mode) -> &'static str
    ensures { result.now ≡ modes_word mode }
{
    match mode {
        Mode::M => "M",
        Mode::S | Mode::U => "SU",
    }
}

fn kind_word(kind: Kind) -> &'static str
    ensures { result.now ≡ kind_word kind }
{
    match kind {
        Kind::Fetch => "fetch",
        Kind::Load => "load",
        Kind::Store => "store",
    }
}

/// The row for a range of bytes that is closed to the mode and the kind.
#[derive(Clone, Copy)]
pub struct NeverRow {
    pub moment: LastMoment,
    pub mode: Mode,
    pub kind: Kind,
    pub range: Span,
}

impl fmt::Display for NeverRow {
    ghost output = { λ row. Some
        (never_row (last_word row.moment.has_names row.moment.publications) row.mode row.kind row.range) };

    #[tactic(auto, unfolding(crate::specs::PolicyDraft::never_row))]
    fn fmt<W: fmt::Write>(&self, f: &mut fmt::Formatter<W>) -> fmt::Result {
        let moment = self.moment;
        let modes = modes_word(self.mode);
        let kind = kind_word(self.kind);
        let Span { first, last } = self.range;
        write!(
            f,
            "{moment},,{modes},{kind},0x{first:014x},0x{last:014x},never\n"
        )
    }
}

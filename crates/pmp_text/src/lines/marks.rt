//! Rights as three characters.

ghost use Rattle.std.specs.Prelude.{◌≡◌, ◌++◌, Some, codes, if◌then◌else◌};
ghost use Rattle.pmp_text.specs.RightsTexts.{perms_text};

use pmp_core::{Kind, Perms};
use pmp_map::ModeRights;
use std::fmt;

/// Returns a letter if the right is given, and otherwise a dash.
fn mark(given: bool, letter: &'static str) -> &'static str
    ensures { result.now ≡ (if given then letter.now else codes "-") }
{
    if given { letter } else { "-" }
}

/// `r`, `w` and `x`, each if the right is there.
#[derive(Clone, Copy)]
pub struct Marks(pub Perms);

impl fmt::Display for Marks {
    ghost output = { λ marks. Some (perms_text marks.0) };

    #[tactic(auto, unfolding(crate::specs::RightsTexts::perms_text))]
    fn fmt<W: fmt::Write>(&self, f: &mut fmt::Formatter<W>) -> fmt::Result {
        let read = mark(self.0.allows(Kind::Load), "r");
        let write = mark(self.0.allows(Kind::Store), "w");
        let execute = mark(self.0.allows(Kind::Fetch), "x");
        write!(f, "{read}{write}{execute}")
    }
}

/// The marks of M-mode, a comma and those of S-mode and U-mode.
#[derive(Clone, Copy)]
pub struct ModeMarks(pub ModeRights);

impl fmt::Display for ModeMarks {
    ghost output = { λ marks. Some (perms_text marks.0.machine ++ (codes "," ++ perms_text marks.0.others)) };

    fn fmt<W: fmt::Write>(&self, f: &mut fmt::Formatter<W>) -> fmt::Result {
        let machine = Marks(self.0.machine);
        let others = Marks(self.0.others);
        write!(f, "{machine},{others}")
    }
}

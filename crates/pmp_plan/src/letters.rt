//! The words of plans and of verdicts.

ghost use Rattle.std.specs.Prelude.{◌≡◌, Some, codes, if◌then◌else◌};
ghost use Rattle.pmp_text.specs.RightsTexts.{perms_text};
ghost use Rattle.pmp_plan.specs.Verdicts.{yes_no};

use pmp_core::{Kind, Perms};
use std::fmt;

/// Returns a letter if the right is given, and otherwise a dash.
fn letter(given: bool, letter: &'static str) -> &'static str
    ensures { result.now ≡ (if given then letter.now else codes "-") }
{
    if given { letter } else { "-" }
}

/// Returns `yes` or `no`.
pub fn yes_no(is: bool) -> &'static str
    ensures { result.now ≡ yes_no is }
{
    if is { "yes" } else { "no" }
}

/// Rights as a plan writes them.
#[derive(Clone, Copy)]
pub struct Letters(pub Perms);

impl fmt::Display for Letters {
    ghost output = { λ letters. Some (perms_text letters.0) };

    #[tactic(auto, unfolding(pmp_text::specs::RightsTexts::perms_text))]
    fn fmt<W: fmt::Write>(&self, f: &mut fmt::Formatter<W>) -> fmt::Result {
        let read = letter(self.0.allows(Kind::Load), "r");
        let write = letter(self.0.allows(Kind::Store), "w");
        let execute = letter(self.0.allows(Kind::Fetch), "x");
        write!(f, "{read}{write}{execute}")
    }
}

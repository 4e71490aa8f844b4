//! The expected answer to a check.

ghost use Rattle.std.specs.Prelude.{◌≡◌};
ghost use Rattle.pmp_tool.specs.Expected.{is_met};

use pmp_core::Decision;

/// The answer for which the exit status is 0.
#[derive(Clone, Copy)]
pub enum Expected {
    Allow,
    Fault,
}

impl Expected {
    /// Whether the decision is this answer.
    pub fn is_met(self, decision: Decision) -> bool
        ensures { result ≡ is_met self decision }
    {
        match self {
            Expected::Allow => decision.allowed,
            Expected::Fault => !decision.allowed,
        }
    }
}

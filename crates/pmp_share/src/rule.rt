//! The running rule: what the published version says, and what each step does.

use crate::knowledge::{Knowledge, Known};
use crate::version::Version;
use atomic_table::{Join, Split};
use crossbeam_utils::rule::{Outcome, Protocol};

/// What is known is always a prefix of the published batches.
pub struct OneHistory;

impl Protocol<Version, Knowledge> for OneHistory {
    ghost use Rattle.std.specs.Prelude.{None};
    ghost use Rattle.pmp_share.specs.Rule.{Kept};

    ghost holds = { Kept };

    ghost first = { None };
}

/// A checker's entrance.
pub struct Looks;

impl Outcome<Version, Knowledge> for Looks {
    ghost use Rattle.pmp_share.specs.Rule.{Enters};

    ghost then = { Enters };
}

/// The publisher's step.
pub struct Shows;

impl Outcome<Version, Knowledge> for Shows {
    ghost use Rattle.pmp_share.specs.Rule.{Shown};

    ghost then = { Shown };
}

/// A new reader is told what the publisher knows.
pub struct Tells;

impl Split<Knowledge> for Tells {
    ghost left = { λ view. view };

    ghost right = { λ view. view };
}

/// A reader that knew nothing knows what it is told.
pub struct Hears;

impl Join<Knowledge> for Hears {
    ghost use Rattle.std.specs.Prelude.{None};

    ghost both = { λ _ told. told };

    ghost spent = { None };
}

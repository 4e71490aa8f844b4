//! Why a case stops.

use pmp_core::AccessFault;
use pmp_share::{BatchFull, ShareFault};

#[derive(Clone, Copy)]
pub enum Stop {
    /// The call that is tried was refused for want of memory, and what has to stand stands.
    Refused,
    /// A call before or behind it was.
    Outside,
    /// This isn't as it has to be.
    Wrong(&'static str),
}

/// `Ok` where the call answered as it has to.
pub type Tried = Result<(), Stop>;

impl From<AccessFault> for Stop {
    fn from(_fault: AccessFault) -> Stop {
        Stop::Wrong("no access")
    }
}

impl From<BatchFull> for Stop {
    fn from(_full: BatchFull) -> Stop {
        Stop::Wrong("a full batch")
    }
}

impl From<ShareFault> for Stop {
    fn from(fault: ShareFault) -> Stop {
        match fault {
            ShareFault::Memory => Stop::Outside,
            _ => Stop::Wrong("a refusal outside the call"),
        }
    }
}

pub fn expect(holds: bool, what: &'static str) -> Tried {
    if holds {
        Ok(())
    } else {
        Err(Stop::Wrong(what))
    }
}

//! Why there is nothing to compare or to time.

use pmp_core::AccessFault;
use pmp_share::{BatchFull, ShareFault};
use std::alloc::{AllocError, AllocFailed};
use std::io;

#[derive(Clone, Copy, Debug)]
pub enum Failure {
    /// The words, the clock, the output or what the system says of memory.
    System,
    Memory,
    /// A thread couldn't be made.
    Thread,
    /// A batch or an access isn't lawful.
    Unlawful,
    /// An answer isn't what it has to be.
    Answer,
    /// A call of the unit was refused.
    Unit(ShareFault),
}

impl From<io::Error> for Failure {
    fn from(_error: io::Error) -> Failure {
        Failure::System
    }
}

impl From<AllocError> for Failure {
    fn from(_error: AllocError) -> Failure {
        Failure::Memory
    }
}

impl<T: Drop> From<AllocFailed<T>> for Failure {
    fn from(_failed: AllocFailed<T>) -> Failure {
        Failure::Memory
    }
}

impl From<BatchFull> for Failure {
    fn from(_full: BatchFull) -> Failure {
        Failure::Unlawful
    }
}

impl From<AccessFault> for Failure {
    fn from(_fault: AccessFault) -> Failure {
        Failure::Unlawful
    }
}

impl From<ShareFault> for Failure {
    fn from(fault: ShareFault) -> Failure {
        Failure::Unit(fault)
    }
}

//! The events that change a register file.

use crate::csr::Csr;

/// The greatest number of events in one batch of a history.
pub const BATCH_EVENTS: usize = 64;

/// One step of a unit's history.
#[derive(Clone, Copy, Debug, PartialEq, Eq, Default)]
pub enum Event {
    /// The register is written with this value, as if by CSRRW in M-mode.
    Write(Csr, u64),
    /// The hart is reset.
    #[default]
    Reset,
}

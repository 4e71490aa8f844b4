//! What a script expects of a register.

use pmp_core::Csr;

/// What a script expects a register to hold at one of its lines.
#[derive(Clone, Copy, Debug, PartialEq, Eq)]
pub struct Expectation {
    pub register: Csr,
    pub value: u64,
    /// The line, counted from 1.
    pub line: u64,
    /// How many events of the script come before it.
    pub events: u64,
}

impl Default for Expectation {
    fn default() -> Self {
        Expectation {
            register: Csr::Mseccfg,
            value: 0,
            line: 0,
            events: 0,
        }
    }
}

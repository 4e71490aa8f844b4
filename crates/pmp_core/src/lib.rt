//! The physical memory protection (PMP) unit of one RISC-V hart.
//!
//! `RegFile` is the unit's registers: it takes CSR writes, and decides accesses as the RISC-V Privileged
//! Architecture, Volume II, section 3.7 says. The definitions that its contracts cite are in `specs/`.
#![tactic(auto)]

mod access;
mod configuration;
mod configuration_word;
mod csr;
mod decision;
mod event;
mod hart;
pub mod laws;
mod lock;
mod moved;
mod mseccfg;
mod perms;
mod range;
mod register_file;
mod register_write;
mod registers;
mod rights;
mod saved_registers;
mod size;
mod span;
mod write_reasons;

pub use access::{ADDRESS_LIMIT, Access, AccessFault, Kind, MAX_LENGTH, Mode};
pub use configuration::AddressMatching;
pub use csr::{Csr, CsrFault};
pub use decision::{Cause, Decision, fault_code};
pub use event::{BATCH_EVENTS, Event};
pub use hart::{
    Hart, HartFault, MAX_ADDRESS_BITS, MAX_GRAIN, MID_ADDRESS_BITS, MIN_ADDRESS_BITS, Profile,
};
pub use lock::Lock;
pub use mseccfg::Mseccfg;
pub use perms::Perms;
pub use range::ByteRange;
pub use register_file::{ENTRIES, RegFile};
pub use register_write::Written;
pub use registers::Registers;
pub use saved_registers::SavedRegisters;
pub use size::{MAX_ENTRIES, Size};
pub use span::Span;
pub use write_reasons::{Reasons, WriteReason};

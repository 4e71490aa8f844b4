//! The bytes of a plan, divided into parts by what is asked for.

use crate::choices::choices;
use crate::plan_row::{Demand, PlanRow};
use crate::rows::{row_at, unnamed_to};
use crate::security::Security;
use pmp_core::{ADDRESS_LIMIT, ByteRange, Hart, MAX_ADDRESS_BITS};

/// The greatest number of parts that are searched: sixty-four entries give no more ranges of bytes.
pub const PARTS: usize = 129;

/// Contiguous bytes that one thing is asked for.
#[derive(Clone, Copy)]
pub struct Part {
    pub bytes: ByteRange,
    pub demand: Demand,
    /// The rules that give it.
    pub choices: [Option<u8>; 2],
    /// Whether entries must own the bytes: otherwise they have other rights, or aren't held.
    pub is_needed: bool,
}

/// The problem that entries are sought for.
#[derive(Clone, Copy)]
pub struct Parts {
    pub hart: Hart,
    pub security: Security,
    pub list: [Part; PARTS],
    pub count: usize,
}

impl Parts {
    /// Returns the parts of a plan, or none if there are too many.
    pub fn of(hart: Hart, security: Security, rows: &[PlanRow<'_>]) -> Option<Parts> {
        let rest = Demand {
            rights: security.rest(),
            is_locked: false,
        };
        let mut parts = Parts {
            hart,
            security,
            list: [Part {
                bytes: ByteRange::EMPTY,
                demand: rest,
                choices: [None; 2],
                is_needed: false,
            }; PARTS],
            count: 0,
        };
        let mut at = 0;
        while at < ADDRESS_LIMIT {
            let (demand, last) = match row_at(rows, at) {
                Some(row) => (row.demand, row.last),
                None => (rest, unnamed_to(rows, at)),
            };
            let end = last + 1;
            parts.push(ByteRange { start: at, end }, demand, demand != rest)?;
            at = end;
        }
        Some(parts)
    }

    fn push(&mut self, bytes: ByteRange, demand: Demand, is_needed: bool) -> Option<()> {
        let choices = choices(self.security, demand);
        let part = self.list.get_mut(self.count)?;
        *part = Part {
            bytes,
            demand,
            choices,
            is_needed,
        };
        self.count += 1;
        Some(())
    }

    /// Returns the end of the bytes that entries of the hart can match.
    pub fn end(&self) -> u64 {
        self.hart.word_addresses().saturating_mul(4)
    }

    /// Returns the largest naturally aligned block around the byte that lies in the room, at least a grain.
    pub fn block_at(&self, byte: u64, room: ByteRange) -> Option<ByteRange> {
        let mut found = None;
        for bits in self.hart.grain() + 2..self.hart.address_bits().min(MAX_ADDRESS_BITS) + 1 {
            let start = byte >> bits << bits;
            let end = start.saturating_add(1 << bits);
            if start < room.start || end > room.end {
                return found;
            }
            found = Some(ByteRange { start, end });
        }
        found
    }

    /// Returns the highest address up to this one at which a top of range ends.
    pub fn top_at(&self, end: u64) -> u64 {
        let last = self.hart.word_addresses().saturating_sub(1);
        self.hart.tor_address(last.min(end / 4)).saturating_mul(4)
    }
}

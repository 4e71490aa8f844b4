//! The writes that produce entries after a reset.

ghost use Rattle.std.specs.Prelude.{◌≡◌};
ghost use Rattle.std.specs.List.{list_all};
ghost use Rattle.pmp_core.specs.Histories.{is_write};

use crate::security::Security;
use crate::state::Chosen;
use arrayvec::ArrayVec;
use pmp_core::{Csr, Event, Hart};

/// The greatest number of writes. After a reset a hart needs `mseccfg` three times, each address register, and each
/// configuration register twice; on the way from other registers, where an entry may be written several times, more.
pub const WRITES: usize = 256;

/// The number of configuration register numbers.
pub const CONFIGURATIONS: u8 = 16;

/// Whether no event is a reset.
pub fn are_writes(events: &[Event]) -> bool
    ensures { result ≡ list_all is_write events.now }
{
    events.iter().all(|event| matches!(event, Event::Write(..)))
}

/// Writes in their order.
#[derive(Drop)]
struct Writes {
    list: ArrayVec<Event, WRITES>,
    /// The value of `mseccfg` after them.
    security: Security,
}

/// Whether a configuration is stored only while MML is 1: W without R.
fn needs_lockdown(configuration: u8) -> bool {
    configuration % 4 == 2
}

/// Returns the byte of an entry until MML is 1. A locked rule of W without R, by which M-mode executes, is replaced by
/// one of X, by which it does so before MML is 1 and after, and of R if M-mode reads there too.
pub fn before_lockdown(configuration: u8) -> u8 {
    match configuration {
        configuration if !needs_lockdown(configuration) => configuration,
        configuration if configuration < 0x80 => 0,
        configuration if configuration / 4 % 2 == 1 => configuration & !7 | 5,
        configuration => configuration & !7 | 4,
    }
}

/// Returns the bytes of the given number of entries from this one on, as in a configuration register.
fn word(entries: &[Chosen], first: usize, count: usize, is_locked_down: bool) -> u64 {
    let mut bytes = [0; 8];
    for place in 0..count.min(8) {
        match entries.get(first.saturating_add(place)) {
            Some(entry) if is_locked_down => bytes[place] = entry.configuration,
            Some(entry) => bytes[place] = before_lockdown(entry.configuration),
            None => {}
        }
    }
    u64::from_le_bytes(bytes)
}

impl Writes {
    fn push(&mut self, csr: Csr, value: u64) {
        let _full = self.list.try_push(Event::Write(csr, value));
    }

    fn push_security(&mut self, security: Security) {
        if security != self.security {
            self.push(Csr::Mseccfg, security.value());
            self.security = security;
        }
    }

    fn push_addresses(&mut self, entries: &[Chosen]) {
        for (index, entry) in entries.iter().enumerate() {
            if index < 64 {
                self.push(Csr::Addr(index as u8), entry.address);
            }
        }
    }

    fn push_configurations(&mut self, hart: Hart, entries: &[Chosen], is_locked_down: bool) {
        for register in 0..CONFIGURATIONS {
            let first = 4 * usize::from(register);
            let count = hart.bytes_in(register);
            if count > 0 && first < entries.len() {
                self.push(
                    Csr::Cfg(register),
                    word(entries, first, count, is_locked_down),
                );
            }
        }
    }
}

/// Returns the writes that leave these entries and these bits of `mseccfg` on a hart after reset.
///
/// RLB is set first, if MML or RLB is asked for: entries may then be locked, and be executable, in any order, and
/// M-mode continues to execute by them once MML is set. Addresses come before configurations, so that no entry matches
/// bytes on the way that it doesn't match in the end.
pub fn writes_of(hart: Hart, security: Security, entries: &[Chosen]) -> ArrayVec<Event, WRITES> {
    let mut writes = Writes {
        list: ArrayVec::new(),
        security: Security::default(),
    };
    if security.mml || security.rlb {
        writes.push_security(Security::BYPASS);
    }
    writes.push_addresses(entries);
    writes.push_configurations(hart, entries, false);
    if security.mml {
        writes.push_security(Security {
            rlb: true,
            ..security
        });
        if entries
            .iter()
            .any(|entry| needs_lockdown(entry.configuration))
        {
            writes.push_configurations(hart, entries, true);
        }
    }
    writes.push_security(security);
    writes.list
}

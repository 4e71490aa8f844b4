//! The unit that is timed: one with sixteen regions, and loads from each of them.

ghost use Rattle.std.specs.Prelude.{◌≡◌};

use crate::failure::Failure;
use pmp_core::{Access, Csr, Event, Kind, Mode, RegFile};
use pmp_share::{Batch, Publisher};
use std::sync::Wait;

const REGIONS: usize = 16;

/// How many writes set them.
pub const EVENTS: u64 = REGIONS as u64 + 2;

/// All sixteen are readable and writable.
pub const RULES: u64 = 0x1b1b_1b1b_1b1b_1b1b;

/// A write that changes no decision.
pub const WRITE: Event = Event::Write(Csr::Addr(0), 0x2000_01ff);

pub type Loads = [Access; REGIONS];

/// The first byte of a region of 4 KiB.
fn region(entry: u8) -> u64 {
    0x8000_0000 + 0x1_0000 * u64::from(entry)
}

/// The writes that set sixteen regions.
fn regions() -> [Event; REGIONS + 2] {
    let mut events = [Event::Write(Csr::Cfg(0), RULES); REGIONS + 2];
    for entry in 0..16u8 {
        events[usize::from(entry)] = Event::Write(Csr::Addr(entry), (region(entry) >> 2) | 0x1ff);
    }
    events[REGIONS] = Event::Write(Csr::Cfg(2), RULES);
    events
}

/// A load of eight bytes by user mode.
fn load(entry: u8) -> Result<Access, Failure> {
    Ok(Access::new(Mode::U, Kind::Load, region(entry), 8)?)
}

/// One from each region.
pub fn loads() -> Result<Loads, Failure> {
    let mut loads = [load(0)?; REGIONS];
    for entry in 1..16u8 {
        loads[usize::from(entry)] = load(entry)?;
    }
    Ok(loads)
}

/// The register file with sixteen regions.
pub fn file() -> RegFile {
    let mut file = RegFile::reset();
    file.run_events(&regions());
    file
}

pub fn publish<R: Wait>(rt: &R, publisher: &mut Publisher, batch: &Batch) -> Result<(), Failure>
    ensures { publisher.new.unit ≡ publisher.old.unit }
{
    publisher.submit(batch)?;
    publisher.publish(rt)?;
    Ok(())
}

/// Publishes the sixteen regions.
pub fn publish_regions<R: Wait>(rt: &R, publisher: &mut Publisher) -> Result<(), Failure>
    ensures { publisher.new.unit ≡ publisher.old.unit }
{
    publish(rt, publisher, &Batch::of(&regions())?)
}

//! One unit and its map.

use super::page_load;
use pmp_core::{
    Access, AccessFault, Cause, Csr, CsrFault, Decision, Event, Kind, Mode, Mseccfg, Perms,
    RegFile, Size, fault_code,
};
use pmp_map::{Run, RunMap};
use std::test::Fail;

fn numbers_of_values(mode: Mode, kind: Kind, size: Size) -> (u8, u8, u8) {
    let mode = match mode {
        Mode::M => 3,
        Mode::S => 1,
        Mode::U => 0,
    };
    let kind = match kind {
        Kind::Fetch => 1,
        Kind::Load => 5,
        Kind::Store => 7,
    };
    let size = match size {
        Size::Sixteen => 16,
        Size::SixtyFour => 64,
    };
    (mode, kind, size)
}

fn entry_of(cause: Cause) -> Option<u8> {
    match cause {
        Cause::Rule(entry) => Some(entry),
        Cause::Split(entry) => Some(entry),
        Cause::NoMatch => None,
    }
}

fn register_of(event: Event) -> Option<(Csr, u64)> {
    match event {
        Event::Write(csr, value) => Some((csr, value)),
        Event::Reset => None,
    }
}

fn csr_fault(number: u16) -> u8 {
    match Csr::from_number(number) {
        Ok(_) => 0,
        Err(CsrFault::OddCfg) => 1,
        Err(CsrFault::NotPmp) => 2,
    }
}

fn access_fault(length: u64) -> u8 {
    match Access::new(Mode::U, Kind::Load, 0xffffffffffffff, length) {
        Ok(_) => 0,
        Err(AccessFault::BadLength) => 3,
        Err(AccessFault::PastEnd) => 4,
    }
}

#[test]
fn the_unit_answers(rt: HostRuntime) -> Result<(), Fail> {
    let file: RegFile = RegFile::reset();
    assert!(rt; file.size() == Size::Sixteen && Size::Sixteen.entries() == 16);
    let mut file: RegFile = RegFile::reset_of(Size::SixtyFour);
    assert!(rt; file.size() == Size::SixtyFour && Size::SixtyFour.entries() == 64);
    file.step(Event::Write(Csr::Addr(63), 0x003fffffffffffff));
    file.run_events(&[Event::Write(Csr::Cfg(14), 0x1900000000000000)]);
    let value: u64 = file.read(Csr::Mseccfg);
    assert!(rt; value == 0);
    let access: Access = Access::new(Mode::U, Kind::Load, 0xffffffffffffff, 1)?;
    let Decision { allowed, cause } = file.decide(&access);
    assert!(rt; allowed && cause == Cause::Rule(63) && entry_of(cause) == Some(63));
    let code: Option<u8> = fault_code(&access, &file.decide(&access));
    assert!(rt; code.is_none());
    let rights: Perms = file.default_rights(Mode::M);
    assert!(rt; rights == Perms::R | Perms::W | Perms::X);
    assert!(rt; file.entries() == 64);
    let rights: Perms = file.rights(63, Mode::U);
    assert!(rt; rights == Perms::R && !file.is_locked(63) && file.matches(63, 0xffffffffffffff));
    let sticky: Mseccfg = Mseccfg::MML | Mseccfg::MMWP;
    assert!(rt; sticky != Mseccfg::MMWP && sticky | Mseccfg::RLB != sticky);
    Ok(())
}

#[test]
fn values_have_no_more_variants(rt: HostRuntime) {
    assert!(rt; numbers_of_values(Mode::M, Kind::Fetch, Size::Sixteen) == (3, 1, 16));
    assert!(rt; numbers_of_values(Mode::S, Kind::Load, Size::SixtyFour) == (1, 5, 64));
    assert!(rt; numbers_of_values(Mode::U, Kind::Store, Size::Sixteen) == (0, 7, 16));
    assert!(rt; register_of(Event::Write(Csr::Mseccfg, 1)) == Some((Csr::Mseccfg, 1)));
    assert!(rt; register_of(Event::Reset).is_none() && entry_of(Cause::NoMatch).is_none());
    assert!(rt; csr_fault(0x3a1) == 1 && csr_fault(0x3f0) == 2 && csr_fault(0x747) == 0);
    assert!(rt; access_fault(0) == 3 && access_fault(2) == 4 && access_fault(1) == 0);
}

#[test]
fn the_map_answers(rt: HostRuntime) -> Result<(), Fail> {
    let mut file = RegFile::reset();
    file.step(Event::Write(Csr::Addr(0), 0x200001ff));
    file.step(Event::Write(Csr::Cfg(0), 0x19));
    let map: RunMap = RunMap::build(&file);
    let runs: &[Run] = map.runs();
    assert!(rt; runs.len() == 3);
    let Run { first, last, owner } = runs[1];
    assert!(rt; first == 0x80000000 && last == 0x80000fff && owner == Some(0));
    assert!(rt; map.owner(0x80001000).is_none());
    let decision: Decision = map.decide(&file, &page_load()?);
    assert!(rt; decision.allowed);
    Ok(())
}

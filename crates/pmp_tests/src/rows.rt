//! The longest rows, which must fit.

use pmp_core::*;
use pmp_text::{Since, add_entries, write_row};
use std::test::Fail;

/// Its number has twenty digits.
#[test]
fn the_longest_report_row_has_room(rt: HostRuntime) -> Result<(), Fail> {
    let mut out = Vec::new(rt.alloc());
    let access = Access::new(Mode::U, Kind::Store, 0, 4)?;
    let decision = Decision {
        allowed: false,
        cause: Cause::Split(63),
    };
    write_row(&mut out, u64::MAX, &access, &decision)?;
    assert!(rt; out.as_slice() == b"18446744073709551615,fault,7,split,63\n".as_slice());
    Ok(())
}

/// Its numbers have twenty digits, and the last entry of sixty-four is frozen and has every byte.
#[test]
fn the_longest_entry_row_has_room(rt: HostRuntime) -> Result<(), Fail> {
    let mut out = Vec::new(rt.alloc());
    let mut file = RegFile::reset_of(Size::SixtyFour);
    file.step(Event::Write(Csr::Addr(63), u64::MAX));
    file.step(Event::Write(Csr::Cfg(14), 0x9f << 56));
    let last = Since {
        frozen: Some(u64::MAX),
        held: Some(u64::MAX),
    };
    add_entries(&mut out, &file, &[last; MAX_ENTRIES])?;
    let row = b"63,napot,00000000000000,ffffffffffffff,rwx,rwx,frozen,frozen,18446744073709551615,\
        18446744073709551615\n";
    assert!(rt; out.ends_with(row.as_slice()));
    Ok(())
}

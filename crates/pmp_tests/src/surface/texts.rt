//! Scripts, traces, inputs and the lines of answers.

use super::{REPORT, SCRIPT, TRACE, number_of_script, number_of_trace, page_load};
use pmp_core::{Csr, Event, RegFile, Size};
use pmp_map::RunMap;
use pmp_text::{
    InputFault, NoMemory, OutputFault, Row, Script, ScriptFault, TraceFault, read_bytes,
    read_script, read_trace, read_word_number, write_out, write_registers, write_row, write_runs,
};
use std::alloc::Global;
use std::io::{Read, Write};
use std::test::Fail;

fn number_of_input(fault: InputFault) -> u8 {
    match fault {
        InputFault::TooLong => 17,
        InputFault::Input => 41,
        InputFault::Memory => 40,
    }
}

/// A script outlives the bytes that it was read from.
struct Kept {
    script: Script,
}

fn keep(alloc: Global) -> Result<Kept, ScriptFault> {
    let script: Script = read_script(alloc, SCRIPT)?;
    Ok(Kept { script })
}

#[test]
fn scripts_are_read(rt: HostRuntime) -> Result<(), Fail> {
    let Kept { script } = keep(rt.alloc()).ok().expect(&rt, "a script");
    assert!(rt; script.size() == Size::Sixteen && script.batches() == 2);
    let second: &[Event] = script.batch(1);
    assert!(rt;
        second
            == [
                Event::Write(Csr::Cfg(0), 0x1900),
                Event::Write(Csr::Addr(1), 0x200001ff)
            ]
            .as_slice()
    );
    let long = read_script(rt.alloc(), b"pmp 2\nwrite pmpaddr63 1\npublish\n");
    assert!(rt; long.is_ok_and(|script| script.size() == Size::SixtyFour));
    Ok(())
}

/// The beginning of the script with this many bytes is refused with this number at this line, or it has this many
/// publications.
#[test]
fn beginnings_of_scripts_are_read(rt: HostRuntime) {
    for (bytes, number, line, batches) in [
        (0, 10, 1, 0),
        (4, 10, 1, 0),
        (5, 0, 0, 0),
        (7, 11, 2, 0),
        (22, 16, 2, 0),
        (23, 14, 2, 0),
        (47, 16, 2, 0),
        (48, 14, 3, 0),
        (58, 0, 0, 1),
        (75, 14, 5, 1),
        (113, 0, 0, 2),
    ] {
        match read_script(rt.alloc(), &SCRIPT[..bytes]) {
            Ok(script) => assert!(rt; number == 0 && script.batches() == batches),
            Err(ScriptFault { kind, line: at }) => {
                assert!(rt; number_of_script(kind) == number && at == line)
            }
        }
    }
}

/// Every other kind, and that version 3 is none here: it is refused at the line that names it, whatever follows.
#[test]
fn faults_of_scripts_have_their_lines(rt: HostRuntime) {
    for (text, number, line) in [
        (b"pmp 1\nwrite pmpaddr64 0\n".as_slice(), 12, 2),
        (b"pmp 1\nwrite pmpcfg1 0\n".as_slice(), 13, 2),
        (b"\n# a comment\npmp 3\nhart entries 99\n".as_slice(), 10, 3),
        (b"pmp 3\nwrite pmpaddr0 1\npublish\n".as_slice(), 10, 1),
    ] {
        let fault = read_script(rt.alloc(), text).err();
        let found = fault.map(|ScriptFault { kind, line }| (number_of_script(kind), line));
        assert!(rt; found == Some((number, line)));
    }
}

#[test]
fn traces_are_read(rt: HostRuntime) -> Result<(), Fail> {
    let rows: Vec<Row> = read_trace(rt.alloc(), TRACE, 2).ok().expect(&rt, "a trace");
    assert!(rt; rows.len() == 4);
    let Row { after, access } = rows[3];
    assert!(rt; after == 2 && access == page_load()?);
    for (text, number, row) in [
        (b"".as_slice(), 20, 0),
        (
            b"after,mode,kind,start,length\n0,U,load,0x0\n".as_slice(),
            21,
            1,
        ),
        (
            b"after,mode,kind,start,length\nlast,U,load,0x0,4\n".as_slice(),
            21,
            1,
        ),
        (
            b"after,mode,kind,start,length\n0,U,load,0x0,0\n".as_slice(),
            3,
            1,
        ),
        (
            b"after,mode,kind,start,length\n0,U,load,0xffffffffffffff,2\n".as_slice(),
            4,
            1,
        ),
        (
            b"after,mode,kind,start,length\n3,U,load,0x0,0\n".as_slice(),
            22,
            1,
        ),
        (
            b"after,mode,kind,start,length\n1,U,load,0x0,4\n0,U,load,0x0,4\n".as_slice(),
            23,
            2,
        ),
    ] {
        let fault = read_trace(rt.alloc(), text, 2).err();
        let found = fault.map(|TraceFault { kind, row }| (number_of_trace(kind), row));
        assert!(rt; found == Some((number, row)));
    }
    Ok(())
}

/// Reads all bytes, and returns how many there are, or the number of the fault.
fn count_bytes<R: Read>(alloc: Global, reader: &mut R) -> Result<usize, u8> {
    let bytes: Result<Vec<u8>, InputFault> = read_bytes(alloc, reader, 4);
    match bytes {
        Ok(bytes) => Ok(bytes.len()),
        Err(fault) => Err(number_of_input(fault)),
    }
}

#[test]
fn inputs_are_read(rt: HostRuntime) {
    assert!(rt; count_bytes(rt.alloc(), &mut b"four".as_slice()) == Ok(4));
    assert!(rt; count_bytes(rt.alloc(), &mut b"five!".as_slice()) == Err(17));
    let number: Option<u64> = read_word_number(b"0x10");
    assert!(rt; number == Some(16));
}

/// Writes the report row, the runs and the registers of a unit after reset.
fn write_all(alloc: Global) -> Result<Vec<u8>, NoMemory> {
    let mut out = Vec::new(alloc);
    let file = RegFile::reset();
    let access = page_load().or(Err(NoMemory))?;
    write_row(&mut out, 1, &access, &file.decide(&access))?;
    write_runs(&mut out, &file, &RunMap::build(&file))?;
    write_registers(&mut out, &file)?;
    Ok(out)
}

fn write_to<W: Write>(writer: &mut W, bytes: &[u8]) -> Result<(), OutputFault> {
    write_out(writer, bytes)
}

#[test]
fn texts_are_written(rt: HostRuntime) {
    let text = write_all(rt.alloc()).ok().expect(&rt, "memory");
    let beginning =
        b"1,fault,5,none,\n00000000000000,ffffffffffffff,-,rwx,---\npmpcfg0 0x0000000000000000\n";
    assert!(rt; text.starts_with(beginning.as_slice()));
    let mut out = Vec::new(rt.alloc());
    assert!(rt; write_to(&mut out, REPORT).is_ok() && out.as_slice() == REPORT);
}

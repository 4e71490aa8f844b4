//! The writes of a plan as an array in C.

ghost use Rattle.std.specs.Prelude.{◌≡◌, ◌++◌, OnOk, true};
ghost use Rattle.std.specs.List.{list_all};
ghost use Rattle.pmp_core.specs.Histories.{is_write};
ghost use Rattle.pmp_plan.specs.PlanArrays.{array_line, array_text, csr_number};

use crate::writes::are_writes;
use pmp_core::{Csr, Event};
use pmp_text::{NoMemory, RegisterName, Sink, append_line};

/// Returns the number of a register (Volume II, 2.2).
fn csr_number(csr: Csr) -> u16
    ensures { result ≡ csr_number csr }
{
    match csr {
        Csr::Cfg(register) => 0x3A0 + u16::from(register),
        Csr::Addr(entry) => 0x3B0 + u16::from(entry),
        Csr::Mseccfg => 0x747,
        Csr::Mseccfgh => 0x757,
    }
}

/// Appends an event as an element of the array.
fn append_element<S: Sink>(out: &mut S, event: Event) -> Result<(), NoMemory>
    ensures { OnOk result (S.text out.new ≡ S.text out.old ++ array_line event) }
{
    match event {
        Event::Write(csr, value) => {
            let number = csr_number(csr);
            let name = RegisterName(csr);
            append_line(
                out,
                format_args!("    {{0x{number:x}, 0x{value:x}}}, /* {name} */\n"),
            )
        }
        Event::Reset => Ok(()),
    }
}

/// Appends the writes as a C array of CSR numbers and values in the order in which they are to be written.
///
/// If memory runs out, a part of it may have been appended.
pub fn append_array<S: Sink>(out: &mut S, writes: &[Event]) -> Result<(), NoMemory>
    ensures writes { OnOk result (list_all is_write writes.now ≡ true) }
    ensures text { OnOk result (S.text out.new ≡ S.text out.old ++ array_text writes.now) }
{
    if !are_writes(writes) {
        return Err(NoMemory);
    }
    out.append(
        b"static const struct { unsigned csr; unsigned long long value; } pmp_writes[] = {\n",
    )?;
    for event in writes {
        append_element(out, *event)?;
    }
    out.append(b"};\n")
}

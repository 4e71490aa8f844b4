//! The script of a plan.

ghost use Rattle.std.specs.Prelude.{◌≡◌, ◌++◌, IsTrue, List, ℕ, OnErr, OnOk};
ghost use Rattle.pmp_plan.specs.PlanScripts.{MeansPlan};

use crate::aim::Goal;
use crate::passing::leads;
use crate::writes::WRITES;
use arrayvec::ArrayVec;
use pmp_core::{BATCH_EVENTS, Event, RegFile};
use pmp_text::{FixedLog, NoMemory, RegisterName, Sink, append_line, read_script_in, write_script};

/// The greatest length of a script in bytes: a head with all registers, and a line for each write.
const SCRIPT: usize = 16384;

/// Returns the script by itself: the registers, and the writes, with a publication after the last and wherever one is
/// full.
fn script_of(start: &RegFile, writes: &[Event]) -> Result<ArrayVec<u8, SCRIPT>, NoMemory> {
    let mut text = ArrayVec::new();
    write_script(&mut text, start)?;
    for (index, event) in writes.iter().enumerate() {
        if index > 0 && index % BATCH_EVENTS == 0 {
            text.append(b"publish\n")?;
        }
        match *event {
            Event::Write(csr, value) => {
                let name = RegisterName(csr);
                append_line(&mut text, format_args!("write {name} 0x{value:x}\n"))?;
            }
            Event::Reset => text.append(b"reset\n")?,
        }
    }
    text.append(b"publish\n")?;
    Ok(text)
}

/// Whether the text reads as a script that begins with these registers, expects nothing and names no moment, and whose
/// writes lead to the plan.
fn means_plan(text: &[u8], start: &RegFile, goal: Goal<'_, '_>) -> bool
    ensures { IsTrue result → MeansPlan start.now goal.entry.aim goal.entry.rows.now text.now }
{
    let mut log = FixedLog::<WRITES, 4, 1, 1>::new();
    let Ok(script) = read_script_in(&mut log, text) else {
        return false;
    };
    if script.start().save() != start.save() {
        return false;
    }
    if !script.expectations().is_empty() {
        return false;
    }
    let Some(marks) = script.moments().marks else {
        return false;
    };
    if !marks.is_empty() {
        return false;
    }
    leads(start, goal.aim, goal.rows, script.events())
}

/// Appends the script of version 3 that begins with these registers and makes these writes, if they lead to the plan:
/// it is read back and judged before it is appended.
pub fn append_script<S: Sink>(
    out: &mut S,
    start: &RegFile,
    goal: Goal<'_, '_>,
    writes: &[Event],
) -> Result<(), NoMemory>
    ensures ok { OnOk result ((text : List ℕ) × MeansPlan start.now goal.entry.aim goal.entry.rows.now text
        × (S.text out.new ≡ S.text out.old ++ text)) }
    ensures err { OnErr result (S.text out.new ≡ S.text out.old) }
{
    let text = script_of(start, writes)?;
    if !means_plan(&text, start, goal) {
        return Err(NoMemory);
    }
    out.append(&text)
}

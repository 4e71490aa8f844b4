//! A script that begins with a register file.

ghost use Rattle.std.specs.Prelude.{◌≡◌, ◌+◌, ◌^◌, ◌++◌, IfOk, IsTrue, List, ℕ, OnErr, OnOk, codes, if◌then◌else◌};
ghost use Rattle.pmp_text.specs.GivenBack.{GivesBack, script_text, xlen_line};

use crate::event_log::FixedLog;
use crate::lines::registers::{Form, Lines};
use crate::lines::{NoMemory, text_of};
use crate::script::read_script_in;
use crate::sink::Sink;
use arrayvec::ArrayString;
use pmp_core::{Hart, RegFile};

/// The greatest length in bytes of a script that sets each register of sixty-four entries.
const SCRIPT: usize = 4096;

/// Returns the grain in bytes.
fn grain_bytes(hart: &Hart) -> u32
    ensures { result ≡ 2 ^ (hart.now.grain + 2) }
{
    1 << (hart.grain() + 2)
}

fn smepmp_word(has_smepmp: bool) -> &'static str
    ensures { result.now ≡ (if has_smepmp then codes "yes" else codes "no") }
{
    if has_smepmp { "yes" } else { "no" }
}

/// Returns the line that gives XLEN, only for RV32.
#[tactic(auto, unfolding(crate::specs::GivenBack::xlen_line))]
fn xlen_line(hart: &Hart) -> &'static str
    ensures { result.now ≡ xlen_line hart.now }
{
    if hart.profile().is_rv32 {
        "hart xlen 32\n"
    } else {
        ""
    }
}

/// Returns the script by itself.
#[tactic(auto, unfolding(crate::specs::GivenBack::script_text))]
fn script_of(file: &RegFile) -> Result<ArrayString<SCRIPT>, NoMemory>
    ensures { IfOk result (λ text. text.bytes ≡ script_text file.now) }
{
    let hart = file.hart();
    let entries = hart.entries();
    let grain = grain_bytes(&hart);
    let bits = hart.address_bits();
    let smepmp = smepmp_word(hart.has_smepmp());
    let form = Form::Script;
    let lines = Lines { form, file };
    let xlen = xlen_line(&hart);
    text_of(format_args!(
        "pmp 3\n{xlen}hart entries {entries}\nhart grain {grain}\nhart bits {bits}\nhart smepmp {smepmp}\n{lines}"
    ))
}

/// Whether the files are equal in everything they keep.
fn is_same(one: &RegFile, other: &RegFile) -> bool
    ensures { IsTrue result → one.now ≡ other.now }
{
    one.save() == other.save()
}

/// Whether the text reads as a script that begins with this register file, publishes nothing and expects nothing.
fn gives_back(text: &[u8], file: &RegFile) -> bool
    requires { text.now ≡ script_text file.now }
    ensures { IsTrue result → GivesBack file.now text.now }
{
    let mut log = FixedLog::<1, 1, 1, 1>::new();
    let Ok(script) = read_script_in(&mut log, text) else {
        return false;
    };
    is_same(&script.start(), file) && script.batches() == 0 && script.expectations().is_empty()
}

/// Appends a script of version 3 that begins with this register file, and does nothing: the hart, and a line for each
/// register that doesn't keep zero. Reading it gives the file: it is read back before it is appended, and would not be
/// appended if it gave another file.
#[inline(never)]
pub fn write_script<S: Sink>(out: &mut S, file: &RegFile) -> Result<(), NoMemory>
    ensures ok { OnOk result ((text : List ℕ) × GivesBack file.now text
        × (S.text out.new ≡ S.text out.old ++ text)) }
    ensures err { OnErr result (S.text out.new ≡ S.text out.old) }
{
    let script = script_of(file)?;
    let text = script.as_str().as_bytes();
    if !gives_back(text, file) {
        return Err(NoMemory);
    }
    out.append(text)
}

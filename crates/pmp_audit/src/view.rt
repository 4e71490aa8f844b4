//! Views of the register file after some of a script's publications.

ghost use Rattle.std.specs.Prelude.{◌≡◌, ◌≤◌, ◌++◌, [], List, ℕ, IfOk, IfErr, OnErr, OnOk, length};
ghost use Rattle.pmp_core.specs.RegisterFile.{IsLegal};
ghost use Rattle.pmp_text.specs.Cells.{RowValue};
ghost use Rattle.pmp_text.specs.MetNames.{given_names};
ghost use Rattle.pmp_audit.specs.Answers.{AreAdded, Declines, IsAppended};
ghost use Rattle.pmp_audit.specs.AskedFile.{FileRefuses};
ghost use Rattle.pmp_audit.specs.View.{AreListed, IsViewText, ListingSays, ViewSays};

use crate::asked_count::asked_count;
use crate::replay::file_of;
use crate::since::since_of;
use pmp_map::RunMap;
use pmp_text::laws::law_legal_start;
use pmp_text::{
    AddressNames, Drawing, EventLog, Fault, ReadScript, RowSink, Sink, When, add_entries, add_runs,
    read_script_in, write_picture, write_registers, write_script,
};
use std::alloc::AllocError;

/// A view of a register file in rows.
#[derive(Clone, Copy)]
pub enum Listing {
    Runs,
    /// The entries, with the publications since which each is frozen and held.
    Entries,
}

/// Another view of a register file.
#[derive(Clone, Copy)]
pub enum View {
    Registers,
    /// A script that begins with the registers.
    Script,
    /// The runs, as a picture.
    Picture,
}

/// Adds the rows of this view of the register file after the script's publications done then, or after all of them if
/// that is none. The log keeps the script's events; `Memory` means that there is no room for them there, or none for
/// the rows.
#[inline(never)]
pub fn add_listing<L: EventLog, R: RowSink>(
    log: &mut L,
    listing: Listing,
    script: &[u8],
    after: Option<When>,
    out: &mut R,
) -> Result<(), Fault>
    ensures ok { IfOk result (AreAdded R.Adds (ListingSays listing script.now after) out.old out.new) }
    ensures err { IfErr result (Declines (FileRefuses script.now after)) }
    ensures kept { OnErr result (R.Adds [] out.old out.new) }
{
    let script = read_script_in(log, script)?;
    let done = asked_count(&script, after)?;
    law_legal_start();
    list(out, listing, &script, done)?;
    Ok(())
}

/// Adds the rows of this view after the given number of publications.
fn list<R: RowSink>(
    out: &mut R,
    listing: Listing,
    script: &ReadScript,
    done: u64,
) -> Result<(), AllocError>
    requires legal { IsLegal script.now.start }
    requires within { done ≤ length script.now.batches }
    ensures ok { OnOk result ((rows : List RowValue) × AreListed listing script.now done rows
        × R.Adds rows out.old out.new) }
    ensures err { OnErr result (R.Adds [] out.old out.new) }
{
    match listing {
        Listing::Runs => {
            let file = file_of(script, done);
            add_runs(out, &file, &RunMap::build(&file))
        }
        Listing::Entries => {
            let (replay, since) = since_of(script, done);
            add_entries(out, replay.file(), &since)
        }
    }
}

/// A view that is asked for, and when, after all publications if that is none.
#[derive(Clone, Copy)]
pub struct AskedView<'a> {
    pub view: View,
    pub after: Option<When>,
    /// The names that addresses have, if a picture is to show them.
    pub names: Option<AddressNames<'a>>,
}

/// Appends the text of this view, likewise.
#[inline(never)]
pub fn append_view<L: EventLog, S: Sink>(
    log: &mut L,
    asked: AskedView<'_>,
    script: &[u8],
    out: &mut S,
) -> Result<(), Fault>
    ensures ok { IfOk result (IsAppended
        (ViewSays asked.entry.view (given_names asked.entry.names) script.now asked.entry.after)
        (S.text out.old) (S.text out.new)) }
    ensures err { IfErr result (Declines (FileRefuses script.now asked.entry.after)) }
    ensures kept { OnErr result (S.text out.new ≡ S.text out.old) }
{
    let script = read_script_in(log, script)?;
    let done = asked_count(&script, asked.after)?;
    law_legal_start();
    write_view(out, asked, &script, done)?;
    Ok(())
}

/// Appends the text of this view after the given number of publications.
fn write_view<S: Sink>(
    out: &mut S,
    asked: AskedView<'_>,
    script: &ReadScript,
    done: u64,
) -> Result<(), AllocError>
    requires legal { IsLegal script.now.start }
    requires within { done ≤ length script.now.batches }
    ensures ok { OnOk result ((text : List ℕ)
        × IsViewText asked.entry.view (given_names asked.entry.names) script.now done text
        × (S.text out.new ≡ S.text out.old ++ text)) }
    ensures err { OnErr result (S.text out.new ≡ S.text out.old) }
{
    let file = file_of(script, done);
    match asked.view {
        View::Registers => write_registers(out, &file),
        View::Script => write_script(out, &file),
        View::Picture => {
            let drawing = Drawing {
                file: &file,
                publications: done,
                names: asked.names,
            };
            write_picture(out, drawing)
        }
    }
}

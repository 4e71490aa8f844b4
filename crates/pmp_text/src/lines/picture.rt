//! The runs of a register file as a picture, an SVG document.

ghost use Rattle.std.specs.Prelude.{◌≡◌, ◌<◌, ◌≤◌, ◌++◌, List, ℕ, length};
ghost use Rattle.std.specs.Prelude.{IfSome, OnOk, OnErr, is_some};
ghost use Rattle.std.specs.Io.{StartsWith};
ghost use Rattle.pmp_map.specs.declared.run.TheConstants.{RUNS};
ghost use Rattle.pmp_map.specs.Runs.{AreRuns, HasOwnersBelow};
ghost use Rattle.pmp_text.specs.MetNames.{given_names};
ghost use Rattle.pmp_text.specs.Picture.{IsPicture, band, bands, legend_part, strip_text, title_part};
ghost use Rattle.pmp_core.specs.declared.access.TheConstants.{ADDRESS_LIMIT};

mod band;
mod column;
mod head;

use crate::address_name::AddressNames;
use crate::lines::hexadecimal::{ADDRESS_DIGITS, Hex};
use crate::lines::marks::Marks;
use crate::lines::{NoMemory, append_line, append_text};
use crate::sink::Sink;
use band::{OwnerName, Size, lock_sign};
use column::append_names;
use head::{BANDS, LEGEND, STYLE, names_head, switch_word, switches, width_word};
use pmp_core::RegFile;
use pmp_map::{ModeRights, Run, RunMap};
use std::alloc::AllocError;

/// The end of the bands and of the document.
const FOOT: &str = "</g>\n</svg>\n";

/// The end of a band.
const BAND_END: &str = "</g>\n";

/// The most bytes of what stands above the bands.
const HEAD: usize = 4096;

/// How high a band is.
pub const BAND: usize = 24;

/// A register file after so many publications, and the names that addresses have, where they are to be shown.
#[derive(Clone, Copy)]
pub struct Drawing<'a> {
    pub file: &'a RegFile,
    pub publications: u64,
    pub names: Option<AddressNames<'a>>,
}

/// Appends the title of a picture of so many bands, its colours and its background.
fn write_title<S: Sink>(out: &mut S, drawing: Drawing<'_>, bands: usize) -> Result<(), AllocError>
    requires { bands ≤ RUNS }
    ensures ok { OnOk result (S.text out.new ≡ S.text out.old
        ++ title_part drawing.entry.publications (is_some (given_names drawing.entry.names)) bands) }
    ensures err { OnErr result (S.text out.new ≡ S.text out.old) }
{
    let height = BAND * bands + 176;
    let publications = drawing.publications;
    let width = width_word(drawing.names);
    let opening = format_args!(
        "<svg xmlns='http://www.w3.org/2000/svg' width='{width}' height='{height}' viewBox='0 0 {width} {height}'>\n"
    );
    let title = format_args!("PMP memory map, publications done: {publications}");
    let background = format_args!("<rect width='{width}' height='100%'/>\n");
    append_text::<HEAD, _, _>(
        out,
        format_args!("{opening}<title>{title}</title>\n{STYLE}{background}"),
    )
}

/// Appends what stands between the background and the bands.
fn write_legend<S: Sink>(out: &mut S, drawing: Drawing<'_>) -> Result<(), AllocError>
    ensures ok { OnOk result (S.text out.new ≡ S.text out.old
        ++ legend_part drawing.entry.file.now drawing.entry.publications (is_some (given_names drawing.entry.names))) }
    ensures err { OnErr result (S.text out.new ≡ S.text out.old) }
{
    let publications = drawing.publications;
    let title = format_args!("PMP memory map, publications done: {publications}");
    let (mml, mmwp, rlb) = switches(drawing.file);
    let mml = switch_word(mml);
    let mmwp = switch_word(mmwp);
    let rlb = switch_word(rlb);
    let settings = format_args!(
        "<text x='16' y='62'>Lockdown (MML) {mml}, allow-list policy (MMWP) {mmwp}, \
        rule-locking bypass (RLB) {rlb}</text>\n"
    );
    let names = names_head(drawing.names);
    append_text::<HEAD, _, _>(
        out,
        format_args!(
            "<text class='large' x='16' y='36'>{title}</text>\n{settings}{LEGEND}{names}{BANDS}"
        ),
    )
}

/// Appends the band of the run in this place but for its names, and its end.
fn write_strip<S: Sink>(
    out: &mut S,
    file: &RegFile,
    place: usize,
    run: &Run,
) -> Result<(), AllocError>
    requires place { place < RUNS }
    requires proper { run.now.first ≤ run.now.last }
    requires inside { run.now.last < ADDRESS_LIMIT }
    requires owner { IfSome run.now.owner (λ entry. entry < length file.now.entries) }
    ensures ok { OnOk result (S.text out.new ≡ S.text out.old ++ strip_text file.now place run.now) }
    ensures err { OnErr result (S.text out.new ≡ S.text out.old) }
{
    let rights = ModeRights::of_owner(&file.registers(), run.owner);
    let machine = Marks(rights.machine);
    let others = Marks(rights.others);
    let top = BAND * place;
    let first = Hex::<ADDRESS_DIGITS>::new(run.first);
    let last = Hex::<ADDRESS_DIGITS>::new(run.last);
    let size = Size::of(run);
    let owner = OwnerName(run.owner);
    let strip = format_args!(
        "<g class='su{others}' transform='translate(0,{top})'><rect y='-17' width='928' height='{BAND}'/>"
    );
    let ends = format_args!("<text x='8'>0x{first}</text><text x='148'>0x{last}</text>");
    let extent = format_args!("<text x='292'>{size}</text><text x='496'>{owner}</text>");
    let permissions = format_args!("<text x='592'>{machine}</text><text x='700'>{others}</text>");
    let sign = lock_sign(file, run.owner);
    append_line(
        out,
        format_args!("{strip}{ends}{extent}{permissions}{sign}"),
    )
}

/// Appends the band of the run in this place, or a prefix of it.
fn write_band<S: Sink>(
    out: &mut S,
    drawing: Drawing<'_>,
    place: usize,
    run: &Run,
) -> Result<(), AllocError>
    requires place { place < RUNS }
    requires proper { run.now.first ≤ run.now.last }
    requires inside { run.now.last < ADDRESS_LIMIT }
    requires owner { IfSome run.now.owner (λ entry. entry < length drawing.file.now.entries) }
    ensures ok { OnOk result (S.text out.new ≡ S.text out.old
        ++ band drawing.entry.file.now (given_names drawing.entry.names) place run.now) }
    ensures err { OnErr result (StartsWith (S.text out.new) (S.text out.old)) }
{
    write_strip(out, drawing.file, place, run)?;
    append_names(out, drawing.names, run)?;
    out.append(BAND_END.as_bytes())
}

/// Appends a band for each run, from the top down.
fn write_bands<S: Sink>(out: &mut S, drawing: Drawing<'_>, runs: &[Run]) -> Result<(), AllocError>
    requires few { length runs.now ≤ RUNS }
    requires runs { AreRuns drawing.file.now runs.now }
    requires owners { HasOwnersBelow (length drawing.file.now.entries) runs.now }
    ensures ok { OnOk result (S.text out.new ≡ S.text out.old
        ++ bands drawing.entry.file.now (given_names drawing.entry.names) runs.now) }
    ensures err { OnErr result (StartsWith (S.text out.new) (S.text out.old)) }
{
    for (place, run) in runs.iter().enumerate() {
        write_band(out, drawing, place, run)?;
    }
    Ok(())
}

fn write_all<S: Sink>(out: &mut S, drawing: Drawing<'_>, runs: &[Run]) -> Result<(), AllocError>
    requires few { length runs.now ≤ RUNS }
    requires runs { AreRuns drawing.file.now runs.now }
    requires owners { HasOwnersBelow (length drawing.file.now.entries) runs.now }
    ensures ok { OnOk result ((text : List ℕ)
        × IsPicture drawing.entry.file.now drawing.entry.publications (given_names drawing.entry.names) text
        × (S.text out.new ≡ S.text out.old ++ text)) }
    ensures err { OnErr result (StartsWith (S.text out.new) (S.text out.old)) }
{
    write_title(out, drawing, runs.len())?;
    write_legend(out, drawing)?;
    write_bands(out, drawing, runs)?;
    out.append(FOOT.as_bytes())
}

/// Appends a picture of the register file's runs, an SVG document with one band for each from the top down, which shows
/// what a row of `add_runs` says, its size, and whether its owner is held or frozen. It tells how many publications are
/// done and which of lockdown, allow-list policy and rule-locking bypass are on. Where names are given, a last column
/// has those that overlap each band.
#[inline(never)]
pub fn write_picture<S: Sink>(out: &mut S, drawing: Drawing<'_>) -> Result<(), NoMemory>
    ensures ok { OnOk result ((text : List ℕ)
        × IsPicture drawing.entry.file.now drawing.entry.publications (given_names drawing.entry.names) text
        × (S.text out.new ≡ S.text out.old ++ text)) }
    ensures err { OnErr result (S.text out.new ≡ S.text out.old) }
{
    let map = RunMap::build(drawing.file);
    let before = out.position();
    let written = write_all(out, drawing, map.runs());
    if written.is_err() {
        out.go_back(before);
    }
    written
}

//! The column of names in a picture.

ghost use Rattle.std.specs.Prelude.{◌≡◌, ◌++◌, ◌&&◌, IfOk, OnErr, OnOk, map, not, true};
ghost use Rattle.std.specs.Io.{StartsWith};
ghost use Rattle.pmp_text.specs.MetNames.{given_names, meets, named};
ghost use Rattle.pmp_text.specs.Picture.{band_name, beginning, escaped, escaped_byte, met_in_band, names_from, names_text};

use crate::address_name::{AddressName, AddressNames};
use crate::lines::{NoMemory, append_line};
use crate::sink::Sink;
use pmp_map::Run;
use std::slice;

/// Returns a byte of a text as XML writes it.
fn escaped_byte(byte: &u8) -> &[u8]
    ensures { result.now ≡ escaped_byte byte.now }
{
    match *byte {
        b'<' => b"&lt;",
        b'>' => b"&gt;",
        b'&' => b"&amp;",
        _ => slice::from_ref(byte),
    }
}

/// Appends a text as XML writes it, or a prefix of that.
fn append_escaped<S: Sink>(out: &mut S, text: &[u8]) -> Result<(), NoMemory>
    ensures ok { OnOk result (S.text out.new ≡ S.text out.old ++ escaped text.now) }
    ensures err { OnErr result (StartsWith (S.text out.new) (S.text out.old)) }
{
    for byte in text {
        out.append(escaped_byte(byte))?;
    }
    Ok(())
}

/// Appends a name as XML writes it and, where only a part of it is in the run, the offset of that part; or a prefix of
/// this.
fn append_name<S: Sink>(out: &mut S, name: &AddressName<'_>, run: &Run) -> Result<(), NoMemory>
    ensures ok { OnOk result (S.text out.new
        ≡ S.text out.old ++ band_name (named name.now) run.now.first run.now.last) }
    ensures err { OnErr result (StartsWith (S.text out.new) (S.text out.old)) }
{
    append_escaped(out, name.name)?;
    if !name.is_whole(run.first, run.last) {
        let offset = run.first.max(name.first) - name.first;
        append_line(out, format_args!("+0x{offset:x}"))?;
    }
    Ok(())
}

/// Returns what stands before a name: the beginning of the cell, or a blank.
fn beginning(is_first: bool) -> &'static [u8]
    ensures { result.now ≡ beginning is_first }
{
    if is_first { b"<text x='936'>" } else { b" " }
}

/// Appends a name if it is one of the run's bytes, after the beginning of the cell if it is the first one, or a prefix of
/// this. Returns whether the next one is the first.
fn append_met_name<S: Sink>(
    out: &mut S,
    name: &AddressName<'_>,
    run: &Run,
    is_first: bool,
) -> Result<bool, NoMemory>
    ensures ok { OnOk result (S.text out.new
        ≡ S.text out.old ++ met_in_band is_first (named name.now) run.now.first run.now.last) }
    ensures next { IfOk result (λ next. next ≡ is_first && not (meets (named name.now) run.now.first run.now.last)) }
    ensures err { OnErr result (StartsWith (S.text out.new) (S.text out.old)) }
{
    if !name.meets(run.first, run.last) {
        return Ok(is_first);
    }
    out.append(beginning(is_first))?;
    append_name(out, name, run)?;
    Ok(false)
}

/// Appends a cell with the names that a run's bytes have, if it has some, or a prefix of this.
fn append_cell<S: Sink>(out: &mut S, names: &[AddressName<'_>], run: &Run) -> Result<(), NoMemory>
    ensures ok { OnOk result (S.text out.new
        ≡ S.text out.old ++ names_from true (map named names.now) run.now.first run.now.last) }
    ensures err { OnErr result (StartsWith (S.text out.new) (S.text out.old)) }
{
    let mut is_first = true;
    for name in names {
        is_first = append_met_name(out, name, run, is_first)?;
    }
    if is_first {
        return Ok(());
    }
    out.append(b"</text>")
}

/// Appends the names that a run's bytes have, where names are given and it has some, or a prefix of this.
pub fn append_names<S: Sink>(
    out: &mut S,
    names: Option<AddressNames<'_>>,
    run: &Run,
) -> Result<(), NoMemory>
    ensures ok { OnOk result (S.text out.new
        ≡ S.text out.old ++ names_text (given_names names.entry) run.now.first run.now.last) }
    ensures err { OnErr result (StartsWith (S.text out.new) (S.text out.old)) }
{
    match names {
        Some(names) => append_cell(out, names.all, run),
        None => Ok(()),
    }
}

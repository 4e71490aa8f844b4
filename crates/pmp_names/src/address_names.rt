//! The names of addresses that a text gives.

ghost use Rattle.std.specs.Prelude.{◌≡◌, ◌⊎◌, Err, IfErr, IfOk, Ok, OnOk, map};
ghost use Rattle.pmp_text.specs.Lines.{lines};
ghost use Rattle.pmp_names.specs.AddressNames.{names_from, names_said};
ghost use Rattle.pmp_names.specs.NameLists.{AddsName, IsFaultOf};
ghost use Rattle.pmp_text.specs.Outcomes.{no_memory};
ghost use Rattle.pmp_text.specs.MetNames.{named};

use crate::address_name::read_name;
use pmp_text::{AddressName, Fault, Refusal, Source, split_first_line};
use std::alloc::{AllocError, Global};

/// Returns the names that a text gives: the line `first,last,name`, and a line with these three fields for each name;
/// else its first fault, `BadHeader` or `BadRow`.
pub fn read_names<'a>(alloc: Global, text: &'a [u8]) -> Result<Vec<AddressName<'a>>, Fault>
    ensures ok { IfOk result (λ names. names_said text.now ≡ Ok (map named names.items)) }
    ensures err { IfErr result (λ fault. (fault ≡ no_memory) ⊎ (names_said text.now ≡ Err fault)) }
{
    match split_first_line(text) {
        Some((header, rows)) if header == b"first,last,name".as_slice() => read_rows(alloc, rows),
        _ => Err(Refusal::BadHeader.whole().at_row(Source::Names, 0)),
    }
}

fn read_rows<'a>(alloc: Global, text: &'a [u8]) -> Result<Vec<AddressName<'a>>, Fault>
    ensures ok { IfOk result (λ names. names_from 1 (lines text.now) ≡ Ok (map named names.items)) }
    ensures err { IfErr result (λ fault. (fault ≡ no_memory) ⊎ (names_from 1 (lines text.now) ≡ Err fault)) }
{
    let mut names = Vec::new(alloc);
    let mut row = 1u64;
    let mut rest = text;
    while let Some((line, behind)) = split_first_line(rest) {
        add(&mut names, line, row)?;
        row = row.saturating_add(1);
        rest = behind;
    }
    Ok(names)
}

fn add<'a>(names: &mut Vec<AddressName<'a>>, line: &'a [u8], row: u64) -> Result<(), Fault>
    ensures ok { OnOk result (AddsName line.now names.old.items names.new.items) }
    ensures err { IfErr result (λ fault. (fault ≡ no_memory) ⊎ IsFaultOf line.now row fault) }
{
    match read_name(line) {
        Ok(name) => Ok(names.push(name).map_err(|_| AllocError)?),
        Err(flaw) => Err(flaw.at_row(Source::Names, row)),
    }
}

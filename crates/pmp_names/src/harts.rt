//! The harts of a folder of scripts, in order.

ghost use Rattle.std.specs.Bool.{Decides};
ghost use Rattle.std.specs.Prelude.{◌≡◌, ◌⊎◌, IfErr, IfOk, OnOk, map, string_bytes, true, false};
ghost use Rattle.pmp_text.specs.declared.refusal.Refusal.TheVariants.{BadFolder, Memory};
ghost use Rattle.pmp_names.specs.HartNames.{AreHarts, HasNoHarts, is_hart_name, is_script};
ghost use Rattle.pmp_names.specs.HartLists.{AddsFile, AreNames, names_of};

use crate::hart_name::HartName;
use pmp_text::Refusal;
use std::alloc::{AllocError, Global};

/// The greatest number of harts in a folder.
pub const HARTS: usize = 4096;

fn is_script(name: &str) -> bool
    ensures { result ≡ is_script name.now }
{
    let name = name.as_bytes();
    name.ends_with(b".pmp") && !name.starts_with(b".")
}

/// Returns the harts of a folder that has these files, in order.
pub fn read_harts(alloc: Global, files: &[String]) -> Result<Vec<HartName>, Refusal>
    ensures ok { IfOk result (λ harts. AreHarts (map string_bytes files.now) (names_of harts.items)) }
    ensures err { IfErr result (HasNoHarts (map string_bytes files.now)) }
{
    let mut harts = read_names(alloc, files)?;
    if harts.is_empty() || harts.len() > HARTS {
        return Err(Refusal::BadFolder);
    }
    harts.sort_unstable();
    Ok(harts)
}

/// Returns the scripts among these files.
fn read_names(alloc: Global, files: &[String]) -> Result<Vec<HartName>, Refusal>
    ensures ok { IfOk result (λ harts. AreNames (map string_bytes files.now) harts.items) }
    ensures err { IfErr result (HasNoHarts (map string_bytes files.now)) }
{
    let mut harts = Vec::new(alloc);
    for file in files {
        add_file(alloc, &mut harts, file.as_str())?;
    }
    Ok(harts)
}

/// Adds a file, if it is a script.
fn add_file(alloc: Global, harts: &mut Vec<HartName>, file: &str) -> Result<(), Refusal>
    ensures ok { OnOk result (AddsFile file.now harts.old.items harts.new.items) }
    ensures err { IfErr result (λ refusal. (refusal ≡ Memory)
        ⊎ ((refusal ≡ BadFolder) × (is_script file.now ≡ true) × (is_hart_name file.now ≡ false))) }
{
    if is_script(file) {
        let hart = HartName::read(alloc, file)?;
        harts.push(hart).map_err(|_| AllocError)?;
    }
    Ok(())
}

/// Whether these are the same harts.
pub fn are_same(first: &[HartName], second: &[HartName]) -> bool
    ensures { Decides result (names_of first.now ≡ names_of second.now) }
{
    first == second
}

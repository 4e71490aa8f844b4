//! Names of ranges of addresses, and which of them a range overlaps.

ghost use Rattle.std.specs.Prelude.{◌≡◌, ◌++◌, OnOk, map};
ghost use Rattle.pmp_text.specs.MetNames.{is_whole, meets, met_name, met_names, named};

use crate::lines::append_line;
use std::alloc::{AllocError, Global};

/// A name of the bytes from `first` to `last`.
#[derive(Clone, Copy)]
pub struct AddressName<'a> {
    /// The address of the first byte.
    pub first: u64,
    /// The address of the last byte.
    pub last: u64,
    pub name: &'a [u8],
}

/// The names that addresses have, and the memory for those of one range.
#[derive(Clone, Copy)]
pub struct AddressNames<'a> {
    pub alloc: Global,
    pub all: &'a [AddressName<'a>],
}

impl<'a> AddressName<'a> {
    pub(crate) fn meets(&self, first: u64, last: u64) -> bool
        ensures { result ≡ meets (named self.now) first last }
    {
        self.first <= last && first <= self.last
    }

    pub(crate) fn is_whole(&self, first: u64, last: u64) -> bool
        ensures { result ≡ is_whole (named self.now) first last }
    {
        first <= self.first && self.last <= last
    }

    /// Appends the name, and if only a part of it overlaps, the offset of that part.
    fn append_to(&self, out: &mut Vec<u8>, first: u64, last: u64) -> Result<(), AllocError>
        ensures { OnOk result (out.new.items ≡ out.old.items ++ met_name (named self.now) first last) }
    {
        out.extend_from_slice(self.name)?;
        if !self.is_whole(first, last) {
            let offset = first.max(self.first) - self.first;
            append_line(out, format_args!("+0x{offset:x}"))?;
        }
        Ok(())
    }
}

/// Appends the names that overlap a range, separated by blanks.
pub fn append_met(
    out: &mut Vec<u8>,
    names: &[AddressName<'_>],
    first: u64,
    last: u64,
) -> Result<(), AllocError>
    ensures { OnOk result (out.new.items ≡ out.old.items ++ met_names (map named names.now) first last) }
{
    let mut is_first = true;
    for name in names {
        if name.meets(first, last) {
            if !is_first {
                out.push(b' ')?;
            }
            name.append_to(out, first, last)?;
            is_first = false;
        }
    }
    Ok(())
}

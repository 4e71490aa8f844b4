//! The parts of a picture's bands.

ghost use Rattle.std.specs.Prelude.{◌≡◌, ◌<◌, ◌≤◌, ◌++◌, IfSome, Some, decimal, length};
ghost use Rattle.pmp_core.specs.declared.access.TheConstants.{ADDRESS_LIMIT};
ghost use Rattle.pmp_text.specs.Picture.{lock_sign, owner_name, size_name, size_of, size_text};

use pmp_core::{ADDRESS_LIMIT, Lock, RegFile};
use pmp_map::Run;
use std::fmt;

/// The sign of an owner that is held, a full lock, and the word.
const HELD: &str = "<path d='M846-6h12v8h-12zM848-6v-3a4 4 0 0 1 8 0v3h-2v-3a2 2 0 0 0-4 0v3z'/>\
<text x='864'>holds</text>";

/// The sign of an owner that is frozen while an entry before it isn't, an empty lock, and the word.
const FROZEN: &str =
    "<path class='empty' d='M846-6h12v8h-12zM848-6v-3a4 4 0 0 1 8 0v3h-2v-3a2 2 0 0 0-4 0v3z'/>\
<text x='864'>frozen</text>";

/// The sign of an owner whose lock RLB bypasses, an open lock, and the word.
const BYPASSED: &str =
    "<path class='empty' d='M846-6h12v8h-12zM848-6v-6a4 4 0 0 1 8 0'/><text x='864'>bypassed</text>";

/// How many units the bytes are, and the unit's name behind a space: the largest of which they are a whole number.
fn in_units(bytes: u64) -> (u64, &'static str)
    ensures { decimal result.0 ++ result.1.now ≡ size_text bytes }
{
    if bytes % (1 << 50) == 0 {
        (bytes >> 50, " PiB")
    } else if bytes % (1 << 40) == 0 {
        (bytes >> 40, " TiB")
    } else if bytes % (1 << 30) == 0 {
        (bytes >> 30, " GiB")
    } else if bytes % (1 << 20) == 0 {
        (bytes >> 20, " MiB")
    } else if bytes % (1 << 10) == 0 {
        (bytes >> 10, " KiB")
    } else {
        (bytes, " bytes")
    }
}

/// So many bytes, in the largest unit of which they are a whole number, or none for those to the end.
#[derive(Clone, Copy)]
pub struct Size(Option<u64>);

impl fmt::Display for Size {
    ghost output = { λ size. Some (size_name size.0) };

    fn fmt<W: fmt::Write>(&self, f: &mut fmt::Formatter<W>) -> fmt::Result {
        match self.0 {
            Some(bytes) => {
                let (count, unit) = in_units(bytes);
                write!(f, "{count}{unit}")
            }
            None => write!(f, "to the end"),
        }
    }
}

impl Size {
    pub fn of(run: &Run) -> Size
        requires proper { run.now.first ≤ run.now.last }
        requires inside { run.now.last < ADDRESS_LIMIT }
        ensures { result.0 ≡ size_of run.now.first run.now.last }
    {
        Size((run.last + 1 != ADDRESS_LIMIT).then_some(run.last + 1 - run.first))
    }
}

/// A run's owner, in words.
#[derive(Clone, Copy)]
pub struct OwnerName(pub Option<u8>);

impl fmt::Display for OwnerName {
    ghost output = { λ owner. Some (owner_name owner.0) };

    fn fmt<W: fmt::Write>(&self, f: &mut fmt::Formatter<W>) -> fmt::Result {
        match self.0 {
            Some(entry) => write!(f, "entry {entry}"),
            None => write!(f, "no entry"),
        }
    }
}

/// The sign of the owner's lock, if it has one.
pub fn lock_sign(file: &RegFile, owner: Option<u8>) -> &'static str
    requires { IfSome owner (λ entry. entry < length file.now.entries) }
    ensures { result.now ≡ lock_sign file.now owner }
{
    let Some(entry) = owner else {
        return "";
    };
    let (registers, entry) = (file.registers(), usize::from(entry));
    match registers.lock(entry) {
        Lock::Frozen if registers.is_held(entry) => HELD,
        Lock::Frozen => FROZEN,
        Lock::Bypassed => BYPASSED,
        Lock::Open => "",
    }
}

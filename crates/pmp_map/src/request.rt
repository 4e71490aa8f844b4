//! An access as numbers: its mode, its kind and its bytes.

ghost use Rattle.std.specs.Prelude.{◌≡◌, ◌+◌, ◌<◌, ◌≤◌, IfSome, None};
ghost use Rattle.pmp_core.specs.declared.access.Access.{Access};
ghost use Rattle.pmp_core.specs.declared.access.Kind.{Kind};
ghost use Rattle.pmp_core.specs.declared.access.Mode.{Mode};
ghost use Rattle.pmp_map.specs.Request.{IsNamed, mode_number, kind_number};

use pmp_core::{Access, Kind, Mode};

/// Returns the mode of this level.
#[inline]
pub fn mode_of(number: u32) -> Option<Mode>
    ensures some { IfSome result (λ mode. mode_number mode ≡ number) }
    ensures none { result ≡ None → (mode : Mode) → ¬ (mode_number mode ≡ number) }
{
    match number {
        0 => Some(Mode::U),
        1 => Some(Mode::S),
        3 => Some(Mode::M),
        _ => None,
    }
}

/// Returns the kind with this number.
#[inline]
pub fn kind_of(number: u32) -> Option<Kind>
    ensures some { IfSome result (λ kind. kind_number kind ≡ number) }
    ensures none { result ≡ None → (kind : Kind) → ¬ (kind_number kind ≡ number) }
{
    match number {
        0 => Some(Kind::Fetch),
        1 => Some(Kind::Load),
        2 => Some(Kind::Store),
        _ => None,
    }
}

/// Returns the access that these numbers name, if they name one.
#[inline]
pub fn access_of(mode: u32, kind: u32, start: u64, length: u64) -> Option<Access>
    ensures named { IfSome result (λ access. IsNamed access mode kind start length) }
    ensures none { result ≡ None → (access : Access) → ¬ (IsNamed access mode kind start length) }
{
    Access::new(mode_of(mode)?, kind_of(kind)?, start, length).ok()
}

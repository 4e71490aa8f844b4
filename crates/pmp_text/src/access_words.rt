//! The words for an access's mode and kind, as traces and command lines write them.

ghost use Rattle.std.specs.Prelude.{◌≡◌};
ghost use Rattle.pmp_text.specs.AccessWords.{mode_named, kind_named};

use pmp_core::{Kind, Mode};

/// Returns the mode that a word names: `M`, `S` or `U`.
pub fn read_mode(word: &[u8]) -> Option<Mode>
    ensures { result ≡ mode_named word.now }
{
    match word {
        b"M" => Some(Mode::M),
        b"S" => Some(Mode::S),
        b"U" => Some(Mode::U),
        _ => None,
    }
}

/// Returns the kind that a word names: `fetch`, `load` or `store`.
pub fn read_kind(word: &[u8]) -> Option<Kind>
    ensures { result ≡ kind_named word.now }
{
    match word {
        b"fetch" => Some(Kind::Fetch),
        b"load" => Some(Kind::Load),
        b"store" => Some(Kind::Store),
        _ => None,
    }
}

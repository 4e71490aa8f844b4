//! The name of a hart's script, with which rows of the hart begin.

ghost use Rattle.std.specs.Prelude.{◌≡◌, ◌⊎◌, IfErr, IfOk, false, true};
ghost use Rattle.std.specs.List.{list_all};
ghost use Rattle.pmp_text.specs.declared.refusal.Refusal.TheVariants.{BadFolder, Memory};
ghost use Rattle.pmp_names.specs.HartNames.{is_hart_name, is_plain, order_key};

use crate::order_key::order_key;
use arrayvec::ArrayString;
use pmp_text::Refusal;
use std::alloc::Global;

/// The greatest length of the name of a hart's script in bytes: file systems allow no more.
pub const HART_NAME: usize = 255;

/// The file name of a hart's script.
#[derive(Drop, PartialEq, Eq, PartialOrd, Ord)]
pub struct HartName {
    /// The key that it is ordered by.
    key: Vec<u8>,
    pub name: ArrayString<HART_NAME>,
    ghost is_key: { key.items ≡ order_key name.bytes },
}

fn is_plain(byte: u8) -> bool
    ensures { result ≡ is_plain byte }
{
    byte.is_ascii_alphanumeric() || matches!(byte, b'-' | b'_' | b'.')
}

fn are_plain(name: &[u8]) -> bool
    ensures { result ≡ list_all is_plain name.now }
{
    name.iter().all(|byte| is_plain(*byte))
}

impl HartName {
    /// Returns the name, if rows can begin with it.
    pub fn read(alloc: Global, name: &str) -> Result<HartName, Refusal>
        ensures ok { IfOk result (λ hart. (hart.name.bytes ≡ name.now) × (is_hart_name name.now ≡ true)) }
        ensures err { IfErr result (λ refusal. (refusal ≡ Memory)
            ⊎ ((refusal ≡ BadFolder) × (is_hart_name name.now ≡ false))) }
    {
        if !are_plain(name.as_bytes()) {
            return Err(Refusal::BadFolder);
        }
        let Ok(text) = ArrayString::from(name) else {
            return Err(Refusal::BadFolder);
        };
        let key = order_key(alloc, name.as_bytes())?;
        Ok(HartName { key, name: text })
    }
}

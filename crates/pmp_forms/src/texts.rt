//! Texts that are put together.

ghost use Rattle.std.specs.Prelude.{◌≡◌, ◌++◌, IfOk, OnOk};
ghost use Rattle.pmp_forms.specs.Texts.{joined_now};

use std::alloc::{AllocError, Global};

/// Appends texts, one after another.
pub fn append_all(out: &mut Vec<u8>, parts: &[&[u8]]) -> Result<(), AllocError>
    ensures { OnOk result (out.new.items ≡ out.old.items ++ joined_now parts.now) }
{
    for part in parts {
        out.extend_from_slice(part)?;
    }
    Ok(())
}

/// Returns these bytes by themselves.
pub fn bytes(alloc: Global, text: &[u8]) -> Result<Vec<u8>, AllocError>
    ensures { IfOk result (λ all. all.items ≡ text.now) }
{
    let mut all = Vec::new(alloc);
    all.extend_from_slice(text)?;
    Ok(all)
}

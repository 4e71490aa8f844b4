//! The script of one hart of a log, in a folder with those of the others.

ghost use Rattle.std.specs.Prelude.{◌≡◌, IfOk, string_bytes};
ghost use Rattle.pmp_tool.specs.HartScripts.{path_in};

use std::alloc::{AllocError, Global};

/// The script of a hart.
#[derive(Drop)]
pub struct HartScript {
    pub hart: u64,
    pub text: Vec<u8>,
}

/// Returns the path of a hart's script in a folder.
pub fn path_in(alloc: Global, folder: &str, hart: u64) -> Result<String, AllocError>
    ensures { IfOk result (λ path. string_bytes path ≡ path_in folder.now hart) }
{
    format!(in alloc; "{folder}/hart{hart}.pmp")
}

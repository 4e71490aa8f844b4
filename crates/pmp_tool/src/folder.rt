//! Folders of the system.

ghost use Rattle.std.specs.Prelude.{◌≡◌, IfErr};
ghost use Rattle.pmp_tool.specs.HartScripts.{CantBeMade};

use crate::hart_script::{HartScript, path_in};
use pmp_text::Refusal;
use std::io::ErrorKind;
use std::rt::Files;
use std::{fs, io};

/// Creates a folder with these scripts. It gets its name once it is complete: until then `.part` is appended to the
/// name.
pub fn fill_folder<R: Files + AllocGlobal>(
    runtime: &R,
    path: &str,
    scripts: &[HartScript],
) -> Result<(), Refusal>
    ensures { IfErr result CantBeMade }
{
    let part = format!(in runtime.alloc(); "{path}.part")?;
    fs::create_dir(runtime, part.as_str()).map_err(|error| unmade(&error))?;
    match complete(runtime, part.as_str(), path, scripts) {
        Ok(()) => Ok(()),
        Err(refusal) => {
            let _ = fs::remove_dir_all(runtime, part.as_str());
            Err(refusal)
        }
    }
}

/// Writes the scripts to a folder, and gives it its name.
fn complete<R: Files + AllocGlobal>(
    runtime: &R,
    part: &str,
    path: &str,
    scripts: &[HartScript],
) -> Result<(), Refusal>
    ensures { IfErr result CantBeMade }
{
    write_scripts(runtime, part, scripts)?;
    fs::rename(runtime, part, path).map_err(|error| unmade(&error))
}

fn write_scripts<R: Files + AllocGlobal>(
    runtime: &R,
    folder: &str,
    scripts: &[HartScript],
) -> Result<(), Refusal>
    ensures { IfErr result CantBeMade }
{
    for script in scripts {
        let path = path_in(runtime.alloc(), folder, script.hart)?;
        fs::write(runtime, path.as_str(), script.text.as_slice()).map_err(|error| unmade(&error))?;
    }
    Ok(())
}

/// Returns why a folder can't be created.
fn unmade(error: &io::Error) -> Refusal
    ensures { CantBeMade result }
{
    match error.kind() {
        ErrorKind::OutOfMemory => Refusal::Memory,
        _ => Refusal::Output,
    }
}

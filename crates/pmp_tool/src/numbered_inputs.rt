//! Traces and policies that may give addresses by name.

ghost use Rattle.std.specs.Prelude.{◌≡◌, IfErr, IfOk};
ghost use Rattle.pmp_text.specs.declared.trace.reader.TheConstants.{MAX_TRACE};
ghost use Rattle.pmp_tool.specs.Inputs.{AreBytesOf, CantBeOpened, CantBeRead, GivesBytesOf};
ghost use Rattle.pmp_text.specs.MetNames.{given_names};
ghost use Rattle.pmp_tool.specs.NumberedInputs.{paths_for};

use crate::inputs::Inputs;
use pmp_names::number_text;
use pmp_text::{AddressNames, MAX_TRACE, Refusal};
use std::alloc::Global;

/// Returns the bytes of the trace or the policy at this path, with numbers instead of names.
pub fn read_trace<I: Inputs>(
    alloc: Global,
    names: Option<AddressNames<'_>>,
    inputs: &mut I,
    path: &str,
) -> Result<Vec<u8>, Refusal>
    ensures read { IfOk result (λ bytes. AreBytesOf ((paths_for (given_names names.entry) (I.paths inputs.old)).traces path.now)
        bytes.items) }
    ensures unread { IfErr result (CantBeRead MAX_TRACE ((paths_for (given_names names.entry) (I.paths inputs.old)).traces
        path.now)) }
    ensures paths { I.paths inputs.new ≡ I.paths inputs.old }
{
    let text = inputs.trace(path)?;
    match names {
        Some(names) if text.len() <= MAX_TRACE => Ok(number_text(alloc, names.all, &text)?),
        _ => Ok(text),
    }
}

/// Returns a reader of the trace or the log at this path. It can't put numbers instead of names, so none is returned if
/// names are given: the words of a command never ask for both.
pub fn open_trace<I: Inputs>(
    names: Option<AddressNames<'_>>,
    inputs: &mut I,
    path: &str,
) -> Result<I::Trace, Refusal>
    ensures opened { IfOk result (λ reader. GivesBytesOf ((paths_for (given_names names.entry) (I.paths inputs.old)).traces
        path.now) (I.Trace.remaining reader)) }
    ensures unopened { IfErr result CantBeOpened }
    ensures paths { I.paths inputs.new ≡ I.paths inputs.old }
{
    match names {
        Some(_) => Err(Refusal::Input),
        None => Ok(inputs.open_trace(path)?),
    }
}

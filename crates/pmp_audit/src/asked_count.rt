//! The number of a script's publications that a question asks for.

ghost use Rattle.std.specs.Prelude.{◌≤◌, IfOk, IfErr, length};
ghost use Rattle.pmp_audit.specs.AskedFile.{IsAsked, IsLacking};

use crate::moments::moments_of;
use pmp_text::{Fault, ReadScript, Refusal, Source, When};

/// Returns how many are done then, or the number of all if that is none; `BadAfter` if there are fewer, and `NoMoment`
/// if the script has no such moment.
pub fn asked_count(script: &ReadScript, after: Option<When>) -> Result<u64, Fault>
    ensures within { IfOk result (λ count. count ≤ length script.now.batches) }
    ensures count { IfOk result (IsAsked after script.now) }
    ensures lacking { IfErr result (IsLacking after script.now) }
{
    let count = match after {
        None => script.batches(),
        Some(When::Number(count)) => count,
        Some(When::Labelled(label)) => match moments_of(script).after(When::Labelled(label)) {
            Ok(count) => count,
            Err(_) => return Err(Refusal::NoMoment.whole().at_row(Source::Script, 0)),
        },
    };
    if count > script.batches() {
        return Err(Refusal::BadAfter.whole().at_row(Source::Script, 0));
    }
    Ok(count)
}

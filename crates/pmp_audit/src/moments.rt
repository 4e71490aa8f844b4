//! The moments of a script that words may name.

ghost use Rattle.std.specs.Prelude.{◌≡◌, length};
ghost use Rattle.pmp_audit.specs.LastingStep.{lasting_with, since};
ghost use Rattle.pmp_audit.specs.Moments.{AllLast, AreMoments};

use crate::replay::Replay;
use pmp_core::{Csr, RegFile};
use pmp_text::{Lasting, Moments, ReadScript};

/// Returns since when it holds after `done` publications, if before that it held since `before`.
fn since(before: Option<u64>, holds: bool, done: u64) -> Option<u64>
    ensures { result ≡ since before holds done }
{
    holds.then_some(before.unwrap_or(done))
}

/// Returns the same for each lasting condition, given the register file after `done` publications.
fn lasting_with(before: &Lasting, file: &RegFile, done: u64) -> Lasting
    ensures { result ≡ lasting_with before.now file.now done }
{
    let mseccfg = file.read(Csr::Mseccfg);
    Lasting {
        mml: since(before.mml, mseccfg % 2 == 1, done),
        mmwp: since(before.mmwp, mseccfg / 2 % 2 == 1, done),
        rlb_clear: since(before.rlb_clear, mseccfg / 4 % 2 == 0, done),
    }
}

/// Returns since when each condition lasts to the script's end.
fn lasting(script: &ReadScript<'_>) -> Lasting
    ensures { AllLast script.now (length script.now.batches) result }
{
    let mut replay = Replay::new(script);
    let mut lasting = lasting_with(&Lasting::default(), replay.file(), 0);
    for done in 0..script.batches() {
        replay.advance(done + 1);
        lasting = lasting_with(&lasting, replay.file(), done + 1);
    }
    lasting
}

/// Returns the moments of a script that words may name.
pub fn moments_of<'a>(script: &ReadScript<'a>) -> Moments<'a>
    ensures { AreMoments script.now result }
{
    let mut moments = script.moments();
    if moments.marks.is_some() {
        moments.lasting = Some(lasting(script));
    }
    moments
}

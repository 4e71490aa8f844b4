//! How a unit starts.

ghost use Rattle.std.specs.Prelude.{◌≡◌, ◌≤◌, IfOk, IfErr, replicate};
ghost use Rattle.pmp_core.specs.declared.register_file.TheConstants.{ENTRIES};
ghost use Rattle.pmp_core.specs.RegisterFile.{reset_file};
ghost use Rattle.pmp_core.specs.SavedRegisters.{restored_file};
ghost use Rattle.pmp_core.specs.Hart.{profile_of};
ghost use Rattle.pmp_core.specs.declared.size.Size.TheVariants.{Sixteen};
ghost use Rattle.pmp_share.specs.declared.fault.ShareFault.TheVariants.{Full};
ghost use Rattle.pmp_share.specs.declared.opening.TheConstants.{CHECKERS};
ghost use Rattle.pmp_share.specs.Known.{known};
ghost use Rattle.pmp_share.specs.Openings.{Started};

use crate::checker::Checker;
use crate::fault::ShareFault;
use crate::publisher::Publisher;
use pmp_core::{Hart, RegFile, SavedRegisters, Size};
use std::alloc::Global;
use std::sync::Wait;

/// The greatest number of checkers of one unit.
pub const CHECKERS: u8 = 8;

/// Returns the given number of checkers of the publisher's unit.
fn seat_checkers(
    alloc: Global,
    publisher: &mut Publisher,
    k: u8,
) -> Result<Vec<Checker>, ShareFault>
    ensures same { publisher.new ≡ publisher.old }
    ensures made { IfOk result (λ checkers. checkers.items
        ≡ replicate k (known publisher.old.unit publisher.old.published)) }
    ensures refused { IfErr result (λ fault. ¬ (fault ≡ Full)) }
{
    let mut checkers = Vec::new(alloc);
    for seated in 0..k {
        checkers.push(publisher.checker()?)?;
    }
    Ok(checkers)
}

/// Returns one publisher and `k` checkers of one unit that begins with this register file.
fn start_with<R: Wait>(
    rt: &R,
    alloc: Global,
    base: &RegFile,
    k: u8,
) -> Result<(Publisher, Vec<Checker>), ShareFault>
    ensures started { IfOk result (λ unit. Started base.now k unit.0 unit.1.items) }
    ensures refused { IfErr result (λ fault. ¬ (fault ≡ Full)) }
{
    let mut publisher = Publisher::open(rt, alloc, base)?;
    match seat_checkers(alloc, &mut publisher, k) {
        Ok(checkers) => Ok((publisher, checkers)),
        Err(fault) => {
            publisher.end(rt);
            Err(fault)
        }
    }
}

/// Returns one publisher and `k` checkers of one unit, with nothing published, which begins with the register file that
/// these numbers stand for: a snapshot's, or the last one of a unit whose history is full. The numbers are treated as
/// in `RegFile::restore`. The unit keeps its size, and a reset leads to the register file of reset.
pub fn start_from<R: Wait>(
    rt: &R,
    alloc: Global,
    saved: &SavedRegisters,
    k: u8,
) -> Result<(Publisher, Vec<Checker>), ShareFault>
    requires { (1 ≤ k) × (k ≤ CHECKERS) }
    ensures started { IfOk result (λ unit. Started (restored_file saved.now) k unit.0 unit.1.items) }
    ensures refused { IfErr result (λ fault. ¬ (fault ≡ Full)) }
{
    start_with(rt, alloc, &RegFile::restore(saved), k)
}

/// Does the same as `start_from` for a unit of this hart, which begins with the register file of reset.
pub fn start_on<R: Wait>(
    rt: &R,
    alloc: Global,
    hart: Hart,
    k: u8,
) -> Result<(Publisher, Vec<Checker>), ShareFault>
    requires { (1 ≤ k) × (k ≤ CHECKERS) }
    ensures started { IfOk result (λ unit. Started (reset_file hart) k unit.0 unit.1.items) }
    ensures refused { IfErr result (λ fault. ¬ (fault ≡ Full)) }
{
    start_with(rt, alloc, &RegFile::reset_on(hart), k)
}

/// Does the same as `start_on` for a unit of this size, with the widest addresses and Smepmp.
pub fn start_of<R: Wait>(
    rt: &R,
    alloc: Global,
    size: Size,
    k: u8,
) -> Result<(Publisher, Vec<Checker>), ShareFault>
    requires { (1 ≤ k) × (k ≤ CHECKERS) }
    ensures started { IfOk result (λ unit. Started (reset_file (profile_of size)) k unit.0 unit.1.items) }
    ensures refused { IfErr result (λ fault. ¬ (fault ≡ Full)) }
{
    start_on(rt, alloc, Hart::of(size), k)
}

/// Does the same as `start_of` for a unit of sixteen entries.
pub fn start<R: Wait>(rt: &R, alloc: Global, k: u8) -> Result<(Publisher, Vec<Checker>), ShareFault>
    requires { (1 ≤ k) × (k ≤ CHECKERS) }
    ensures started { IfOk result (λ unit. Started (reset_file (profile_of Sixteen)) k unit.0 unit.1.items) }
    ensures refused { IfErr result (λ fault. ¬ (fault ≡ Full)) }
{
    start_of(rt, alloc, Size::Sixteen, k)
}

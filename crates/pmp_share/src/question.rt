//! The questions that a checker is asked.

ghost use Rattle.std.specs.Prelude.{◌≡◌, ◌+◌, ◌<◌, ◌≤◌, length, IfOk, IfErr};
ghost use Rattle.std.specs.List.{AllZip};
ghost use Rattle.pmp_core.specs.declared.access.TheConstants.{ADDRESS_LIMIT};
ghost use Rattle.pmp_core.specs.RegisterValue.{register_value};
ghost use Rattle.pmp_map.specs.RangeRights.{AreRangeRights};
ghost use Rattle.pmp_share.specs.declared.fault.ShareFault.TheVariants.{Full};
ghost use Rattle.pmp_share.specs.declared.knowledge.Known.{Known};
ghost use Rattle.pmp_share.specs.declared.question.TheConstants.{GROUP_ACCESSES};
ghost use Rattle.pmp_share.specs.Known.{file_of, IsDecidedIn};

use crate::decider::Decider;
use crate::fault::ShareFault;
use crate::journal::Journal;
use arrayvec::ArrayVec;
use pmp_core::{Access, Csr, Decision, Mode, Perms};

/// The greatest number of accesses in a group.
pub const GROUP_ACCESSES: usize = 16;

pub trait Question {
    type Answer;

    /// Whether it may be asked.
    ghost is_sound: { Self → Type 0 } = { λ _. Unit {0} };

    /// Whether the answer is right in what is known.
    ghost answers: { Self → Known → Self.Answer → Type 0 };

    fn ask<D: Decider>(&self, decider: &D) -> Self::Answer
        requires { is_sound self.now }
        ensures { answers self.now (D.known decider.now) result };
}

impl Question for Access {
    type Answer = Decision;

    ghost answers = { λ access known decision. IsDecidedIn known access decision };

    fn ask<D: Decider>(&self, decider: &D) -> Decision {
        decider.decide(self)
    }
}

/// Accesses that are decided in the same batches.
#[derive(Clone, Copy)]
pub struct Group<'a> {
    pub accesses: &'a [Access],
}

impl Question for Group<'_> {
    type Answer = ArrayVec<Decision, GROUP_ACCESSES>;

    ghost is_sound = { λ group. length group.accesses.now ≤ GROUP_ACCESSES };

    ghost answers = { λ group known decisions. AllZip (IsDecidedIn known) group.accesses.now decisions.items };

    #[tactic(auto, using(crate::proofs::GroupFacts::zip_more))]
    fn ask<D: Decider>(&self, decider: &D) -> ArrayVec<Decision, GROUP_ACCESSES> {
        let mut decisions = ArrayVec::new();
        for access in self.accesses {
            decisions.push(decider.decide(access));
        }
        decisions
    }
}

/// The rights of a mode in the `length` bytes from byte address `start` on.
#[derive(Clone, Copy)]
pub struct Range {
    pub mode: Mode,
    pub start: u64,
    pub length: u64,
}

impl Question for Range {
    type Answer = Option<Perms>;

    ghost is_sound = { λ range. (0 < range.length) × (range.start + range.length ≤ ADDRESS_LIMIT) };

    ghost answers = { λ range known rights.
        AreRangeRights (file_of known) range.mode range.start range.length rights };

    fn ask<D: Decider>(&self, decider: &D) -> Option<Perms> {
        decider.rights(self.mode, self.start, self.length)
    }
}

/// The value of a register.
impl Question for Csr {
    type Answer = u64;

    ghost answers = { λ csr known value. value ≡ register_value (file_of known) csr };

    fn ask<D: Decider>(&self, decider: &D) -> u64 {
        decider.read(*self)
    }
}

/// Nothing besides the number of events.
#[derive(Clone, Copy)]
pub struct Count;

impl Question for Count {
    type Answer = ();

    ghost answers = { λ _ _ _. Unit {0} };

    fn ask<D: Decider>(&self, _decider: &D) {}
}

/// All batches.
#[derive(Clone, Copy)]
pub struct WholeJournal;

impl Question for WholeJournal {
    type Answer = Result<Journal, ShareFault>;

    ghost answers = { λ _ known copied.
        IfOk copied (λ journal. journal ≡ known.list) × IfErr copied (λ fault. ¬ (fault ≡ Full)) };

    fn ask<D: Decider>(&self, decider: &D) -> Result<Journal, ShareFault> {
        decider.copy_journal()
    }
}

//! Many accesses in one call.

ghost use Rattle.pmp_c.specs.Questions.{IsAnswered};

use crate::tilvenka_pmp_decide;
use crate::unit::Unit;

/// An access as numbers, and the number of its answer.
#[repr(C)]
#[derive(Clone, Copy)]
pub struct Question {
    pub start: u64,
    pub length: u32,
    pub mode: u32,
    pub kind: u32,
    pub answer: u32,
}

impl Question {
    /// Decides it and stores the answer.
    #[inline(always)]
    pub fn decide(&mut self, unit: &Unit)
        ensures { IsAnswered unit.now self.old self.new }
    {
        let length = u64::from(self.length);
        self.answer = tilvenka_pmp_decide(unit, self.mode, self.kind, self.start, length);
    }
}

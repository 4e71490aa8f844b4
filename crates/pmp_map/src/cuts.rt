//! Stacks of cuts, the places where bytes of another owner begin.

ghost use Rattle.std.specs.Prelude.{◌≡◌, ◌<◌, ◌≤◌, [], ◌∷◌, MatchOption, false, length};
ghost use Rattle.pmp_map.specs.Painting.{is_below, is_from, owner_of, start_of};

use crate::run::RUNS;
use pmp_core::ADDRESS_LIMIT;
use std::marker::Model;

/// A place where bytes of another owner begin.
#[derive(Clone, Copy, Debug, PartialEq, Eq)]
pub struct Cut {
    /// The byte address of the first of them.
    pub start: u64,
    pub owner: Option<u8>,
}

/// Some of the cuts of all bytes, in order. A contract sees the list, the last pushed first.
#[derive(Drop)]
pub struct Cuts {
    cuts: [Cut; RUNS],
    count: usize,
}

impl Model for Cuts {
    ghost use Rattle.std.specs.Prelude.{List, reverse, take, ◌≤◌};
    ghost use Rattle.pmp_map.specs.declared.cuts.Cut.{Cut};
    ghost use Rattle.pmp_map.specs.declared.run.TheConstants.{RUNS};

    ghost Value = { List Cut };

    ghost view = { λ c. reverse (take c.count c.cuts) };

    ghost invariant = { λ c. c.count ≤ RUNS };
}

impl Cuts {
    pub const EMPTY: Cuts = Cuts {
        cuts: [Cut {
            start: 0,
            owner: None,
        }; RUNS],
        count: 0,
    };

    /// The cut that begins all bytes, without an owner.
    pub const BLANK: Cuts = Cuts {
        count: 1,
        ..Cuts::EMPTY
    };

    pub fn push(&mut self, cut: Cut)
        requires { length self.old < RUNS }
        ensures { self.new ≡ cut ∷ self.old }
    {
        self.cuts[self.count] = cut;
        self.count += 1;
    }

    /// Removes the first cut, if there is one and it begins at or above the byte.
    pub fn pop_from(&mut self, byte: u64) -> Option<Cut>
        ensures { MatchOption result ((is_from byte self.old ≡ false) × (self.new ≡ self.old))
            (λ cut. (self.old ≡ cut ∷ self.new) × (byte ≤ cut.start)) }
    {
        if self.count == 0 || self.cuts[self.count - 1].start < byte {
            return None;
        }
        self.count -= 1;
        Some(self.cuts[self.count])
    }

    /// Removes the first cut, if there is one and it begins below the byte.
    pub fn pop_below(&mut self, byte: u64) -> Option<Cut>
        ensures { MatchOption result ((is_below byte self.old ≡ false) × (self.new ≡ self.old))
            (λ cut. (self.old ≡ cut ∷ self.new) × (cut.start < byte)) }
    {
        if self.count == 0 || self.cuts[self.count - 1].start >= byte {
            return None;
        }
        self.count -= 1;
        Some(self.cuts[self.count])
    }

    /// Returns where the first cut begins, or the end of all bytes if there is none.
    pub fn start(&self) -> u64
        ensures { result ≡ start_of self.now }
    {
        if self.count == 0 {
            ADDRESS_LIMIT
        } else {
            self.cuts[self.count - 1].start
        }
    }

    /// Returns the owner of the first cut.
    pub fn owner(&self) -> Option<u8>
        ensures { result ≡ owner_of self.now }
    {
        if self.count == 0 {
            None
        } else {
            self.cuts[self.count - 1].owner
        }
    }
}

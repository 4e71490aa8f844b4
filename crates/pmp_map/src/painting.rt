//! The owners of all bytes, by painting the ranges of the entries from the last to the first.

ghost use Rattle.std.specs.Prelude.{◌≡◌, ◌+◌, ◌<◌, ◌≤◌, ℕ, false, length};
ghost use Rattle.pmp_core.specs.declared.access.TheConstants.{ADDRESS_LIMIT};
ghost use Rattle.pmp_core.specs.Decision.{IsOwner};
ghost use Rattle.pmp_core.specs.Ranges.{range_of};
ghost use Rattle.pmp_core.specs.RegisterFile.{IsLegal, RegisterFile};
ghost use Rattle.pmp_map.specs.declared.run.TheConstants.{RUNS};
ghost use Rattle.pmp_map.specs.Painting.{AreUp, ArePainted, is_from, start_of};

use crate::cuts::{Cut, Cuts};
use pmp_core::{ADDRESS_LIMIT, ByteRange, Registers};

/// The cuts of all bytes, on both sides of a gap. The gap moves to where an entry is painted, so that ranges in
/// ascending or descending order cost little.
#[derive(Drop)]
struct Canvas {
    /// From the gap downwards.
    below: Cuts,
    /// From the gap upwards.
    above: Cuts,
}

impl Canvas {
    /// All bytes without an owner.
    const BLANK: Canvas = Canvas {
        below: Cuts::BLANK,
        above: Cuts::EMPTY,
    };

    /// Moves the gap to the byte: the cuts that begin below it are below, and all others above.
    fn part_at(&mut self, byte: u64)
        requires inside { byte ≤ ADDRESS_LIMIT }
        requires room { length self.old.below + length self.old.above ≤ RUNS }
        ensures painted { (file : RegisterFile) (i : ℕ) → ArePainted file i self.old.below self.old.above
            → ArePainted file i self.new.below self.new.above }
        ensures above { byte ≤ start_of self.new.above }
        ensures below { is_from byte self.new.below ≡ false }
        ensures count { length self.new.below + length self.new.above
            ≡ length self.old.below + length self.old.above }
    {
        while let Some(cut) = self.above.pop_below(byte) {
            self.below.push(cut);
        }
        while let Some(cut) = self.below.pop_from(byte) {
            self.above.push(cut);
        }
    }

    /// Gives the entry all bytes of its range, once all entries after it are painted.
    fn paint(&mut self, range: &ByteRange, entry: u8)
        requires { length self.old.below + length self.old.above + 2 ≤ RUNS }
        ensures painted { (file : RegisterFile) → range.now ≡ range_of file entry
            → ArePainted file (entry + 1) self.old.below self.old.above
            → ArePainted file entry self.new.below self.new.above }
        ensures count { length self.new.below + length self.new.above
            ≤ length self.old.below + length self.old.above + 2 }
    {
        let end = range.end.min(ADDRESS_LIMIT);
        if range.start >= end {
            return;
        }
        self.part_at(end);
        if self.above.start() != end {
            let owner = self.below.owner();
            self.above.push(Cut { start: end, owner });
        }
        while let Some(_cut) = self.below.pop_from(range.start) {}
        self.below.push(Cut {
            start: range.start,
            owner: Some(entry),
        });
    }
}

/// Returns the cuts of all bytes in ascending order.
pub fn cuts_of(registers: &Registers<'_>) -> Cuts
    ensures cuts { AreUp (IsOwner registers.now) result }
    ensures begins { start_of result ≡ 0 }
    ensures few { length result ≤ RUNS }
    ensures legal { IsLegal registers.now }
{
    let mut canvas = Canvas::BLANK;
    let mut index = registers.count();
    while index > 0 {
        index -= 1;
        canvas.paint(&registers.range(index), index as u8);
    }
    canvas.part_at(0);
    let Canvas { below: _, above } = canvas;
    above
}

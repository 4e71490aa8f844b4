//! The rooms that a page and the module share.

ghost use Rattle.std.specs.Prelude.{◌≡◌, ◌++◌, ◌≤◌, [], OnErr, OnOk, length, take};
ghost use Rattle.pmp_web.specs.Rooms.{script_in, text_in};

use pmp_text::{Cell, MAX_SCRIPT, NoMemory, RowKind, RowSink, Sink, append_row};

/// The greatest length of an answer in bytes.
pub const MAX_ANSWER: usize = 1 << 21;

/// The room of a script, which is as large as the longest script that the program reads.
#[repr(C)]
#[derive(Clone, Copy)]
pub struct Script {
    /// The length of the script in bytes. A number above the size of the room means all of it.
    pub length: u64,
    pub bytes: [u8; MAX_SCRIPT],
}

/// The room of an answer.
#[repr(C)]
#[derive(Clone, Copy)]
pub struct Answer {
    /// The line of the script's fault, or 0 if no line of a script is at fault.
    pub line: u64,
    /// The length of the answer in bytes. A number above the size of the room means all of it.
    pub length: u64,
    pub bytes: [u8; MAX_ANSWER],
}

/// The room for a policy's row, in numbers.
#[repr(C)]
#[derive(Clone, Copy)]
pub struct Demand {
    /// The number of the row.
    pub number: u64,
    /// The smallest number of publications that are done.
    pub from: u64,
    /// The greatest number of publications that are done.
    pub to: u64,
    /// The byte address of the first byte.
    pub first: u64,
    /// The byte address of the last byte.
    pub last: u64,
    /// A bit for each mode, with the mode's number: bit 0 for U-mode, 1 for S-mode, 3 for M-mode.
    pub modes: u32,
    /// 0 for a fetch, 1 for a load, 2 for a store, 3 for all three.
    pub kind: u32,
    /// 0 never, 1 always, 2 held.
    pub demand: u32,
    /// 0 after each publication, 1 after each event.
    pub pace: u32,
}

impl Answer {
    /// Empties the room.
    pub fn clear(&mut self)
        ensures line { self.new.line ≡ 0 }
        ensures text { text_in self.new ≡ [] }
    {
        self.line = 0;
        self.length = 0;
    }
}

impl Script {
    /// Returns the script.
    pub fn text(&self) -> &[u8]
        ensures { result.now ≡ script_in self.now }
    {
        let length = self.length.min(MAX_SCRIPT as u64) as usize;
        &self.bytes[..length]
    }
}

impl Sink for Answer {
    ghost text = { text_in };

    fn append(&mut self, bytes: &[u8]) -> Result<(), NoMemory> {
        let start = Sink::position(self);
        if bytes.len() > MAX_ANSWER - start {
            return Err(NoMemory);
        }
        let end = start + bytes.len();
        self.bytes[start..end].copy_from_slice(bytes);
        self.length = end as u64;
        Ok(())
    }

    fn position(&self) -> usize {
        self.length.min(MAX_ANSWER as u64) as usize
    }

    fn go_back(&mut self, position: usize) {
        self.length = self.length.min(position as u64);
    }
}

impl RowSink for Answer {
    ghost use Rattle.std.proofs.Common.{sym, ◌∙◌, append-nil};
    ghost use Rattle.pmp_text.specs.Cells.{csv_text};
    ghost use Rattle.pmp_text.specs.CsvTexts.{both_texts};

    ghost Adds = { λ rows before after. text_in after ≡ text_in before ++ csv_text rows };

    ghost place = { λ answer. length (text_in answer) };

    #[tactic(auto, using(pmp_text::specs::CsvTexts::one_text))]
    fn add(&mut self, _: RowKind, cells: &[Cell<&[u8]>]) -> Result<(), NoMemory> {
        append_row(self, cells)
    }

    fn position(&self) -> usize {
        Sink::position(self)
    }

    fn go_back(&mut self, position: usize) {
        Sink::go_back(self, position);
    }

    ghost none = { λ answer. sym (append-nil (text_in answer)) };

    ghost both = { λ one other first second third start end. both_texts one other (text_in first) (text_in second)
        (text_in third) start end };
}

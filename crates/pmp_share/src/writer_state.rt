//! The two copies of a version, as the publisher has them.

ghost use Rattle.std.specs.Prelude.{◌≡◌, true, false, [], ◌∷◌, ◌++◌, IfOk, IfErr, OnOk, OnErr};
ghost use Rattle.pmp_share.specs.declared.fault.ShareFault.TheVariants.{Full, Memory};
ghost use Rattle.pmp_share.specs.Batches.{file_from};

use crate::digest::Digest;
use crate::fault::ShareFault;
use crate::journal::Journal;
use crate::knowledge::Knowledge;
use crate::logged_batch::LoggedBatch;
use crate::reader_state::ReaderState;
use crate::recorder::Recorder;
use crate::rule::{Hears, OneHistory, Shows, Tells};
use crate::version::Version;
use core::mem::replace_with;
use left_right::writer::Writer;
use pmp_core::{Event, RegFile};
use std::alloc::{AllocError, Global};
use std::marker::Model;
use std::snapshot::Snapshot;
use std::sync::Wait;

/// The greatest number of checkers and notices of one unit at the same time.
pub const PLACES: usize = 32;

type UnitWriter = Writer<Version, LoggedBatch, Knowledge, OneHistory>;

/// The published version and the next one. A contract sees the batches that are shown, those that the next publication
/// shows, and the history.
pub struct WriterState {
    alloc: Global,
    /// What the unit began with, for contracts only.
    base: Snapshot<RegFile>,
    writer: UnitWriter,
    recorder: Recorder,
    /// Whether the history has one batch that isn't handed over.
    ahead: bool,
}

impl Model for WriterState {
    ghost use Rattle.std.specs.Prelude.{drop};
    ghost use Rattle.pmp_share.specs.Known.{known};
    ghost use Rattle.pmp_share.specs.WriterStates.{WriterProgress, after, state_of, IsWriterState};
    ghost use Rattle.pmp_share.specs.Tokens.{unit_with};

    ghost Value = { WriterProgress };

    ghost view = { λ state. record {
      unit = unit_with state.recorder.book state.base.value;
      shown = state.writer.desk.shown.value.journal;
      handed = (after state.writer.desk.shown.value (drop state.writer.behind state.writer.log.items)).batches;
      noted = state.recorder.list;
      ahead = state.ahead;
    } };

    ghost invariant = { λ state.
        IsWriterState (known (unit_with state.recorder.book state.base.value) state.recorder.list) state.ahead
        state.writer.desk.place.me.0.client state.writer.desk.shown.value
        (after state.writer.desk.shown.value (drop state.writer.behind state.writer.log.items)) };
}

impl WriterState {
    /// Creates two versions without batches, of a unit that begins with this register file.
    pub fn open<R: Wait>(rt: &R, alloc: Global, base: &RegFile) -> Result<WriterState, ShareFault>
        ensures made { IfOk result (λ state. (state.shown ≡ []) × (state.handed ≡ []) × (state.ahead ≡ false)) }
        ensures base { IfOk result (λ state. state.unit.base ≡ base.now) }
        ensures refused { IfErr result (λ fault. fault ≡ Memory) }
    {
        let recorder = Recorder::open();
        let first = Version::new(alloc, base, recorder.history());
        let second = Version::new(alloc, base, recorder.history());
        let writer = Writer::new(alloc, first, second, PLACES)?;
        let (writer, learnt) = writer.publish_as::<Shows, R>(rt);
        match learnt {
            Ok(()) => Ok(WriterState {
                alloc,
                base: Snapshot::of(base),
                writer,
                recorder,
                ahead: false,
            }),
            Err(_) => {
                drop(writer.take(rt));
                Err(ShareFault::Memory)
            }
        }
    }

    /// Returns what is published.
    pub fn shown(&self) -> &Journal
        ensures { result.now ≡ self.now.shown }
    {
        self.writer.published().journal()
    }

    /// Returns the register file that it gives.
    pub fn file(&self) -> &RegFile
        ensures { result.now ≡ file_from self.now.unit.base self.now.shown }
    {
        self.writer.published().file()
    }

    /// Notes a batch in the history, if it isn't noted yet.
    fn note(&mut self, batch: &Vec<Event>) -> Result<(), ShareFault>
        requires ahead { self.old.ahead ≡ true → self.old.noted ≡ self.old.handed ++ batch.now.items ∷ [] }
        ensures noted { OnOk result (self.new
            ≡ record self.old { noted = self.old.handed ++ batch.now.items ∷ []; ahead = true }) }
        ensures refused { OnErr result (self.new ≡ self.old) }
        ensures memory { IfErr result (λ fault. fault ≡ Memory) }
    {
        if self.ahead {
            return Ok(());
        }
        if !self.recorder.add(batch) {
            return Err(ShareFault::Memory);
        }
        self.ahead = true;
        Ok(())
    }

    /// Hands over one more batch, for the next publication.
    pub fn hand(&mut self, batch: &[Event]) -> Result<(), ShareFault>
        requires ahead { self.old.ahead ≡ true → self.old.noted ≡ self.old.handed ++ batch.now ∷ [] }
        ensures unit { self.new.unit ≡ self.old.unit }
        ensures shown { self.new.shown ≡ self.old.shown }
        ensures handed { OnOk result (self.new.handed ≡ self.old.handed ++ batch.now ∷ []) }
        ensures refused { OnErr result (self.new.handed ≡ self.old.handed) }
        ensures done { OnOk result (self.new.ahead ≡ false) }
        ensures ahead { OnErr result (self.new.ahead ≡ true → self.new.noted ≡ self.new.handed ++ batch.now ∷ []) }
        ensures memory { IfErr result (λ fault. fault ≡ Memory) }
    {
        let mut events = Vec::new(self.alloc);
        events.extend_from_slice(batch)?;
        self.note(&events)?;
        let history = self.recorder.history();
        match self.writer.append(LoggedBatch { events, history }) {
            Ok(()) => {
                self.ahead = false;
                Ok(())
            }
            Err(_logged) => Err(ShareFault::Memory),
        }
    }

    /// Shows all that was handed over. It waits for checkers that still read the previous version.
    pub fn show<R: Wait>(&mut self, rt: &R) -> Result<(), ShareFault>
        ensures unit { self.new.unit ≡ self.old.unit }
        ensures history { (self.new.noted ≡ self.old.noted) × (self.new.ahead ≡ self.old.ahead) }
        ensures handed { self.new.handed ≡ self.old.handed }
        ensures shown { OnOk result (self.new.shown ≡ self.old.handed) }
        ensures refused { OnErr result (self.new.shown ≡ self.old.shown) }
        ensures memory { IfErr result (λ fault. fault ≡ Memory) }
    {
        replace_with(self, rt, |state, rt| state.turn(rt))?;
        Ok(())
    }

    /// Returns the state after the publication, and its result.
    fn turn<R: Wait>(self, rt: &R) -> (WriterState, Result<(), AllocError>)
        ensures unit { result.0.unit ≡ self.unit }
        ensures history { (result.0.noted ≡ self.noted) × (result.0.ahead ≡ self.ahead) }
        ensures handed { result.0.handed ≡ self.handed }
        ensures shown { OnOk result.1 (result.0.shown ≡ self.handed) }
        ensures refused { OnErr result.1 (result.0.shown ≡ self.shown) }
    {
        let WriterState {
            alloc,
            base,
            writer,
            recorder,
            ahead,
        } = self;
        let (writer, shown) = writer.publish_as::<Shows, R>(rt);
        let state = WriterState {
            alloc,
            base,
            writer,
            recorder,
            ahead,
        };
        (state, shown)
    }

    /// Returns the reader state of a checker or a notice that knows exactly what is published.
    pub fn reader_state(&mut self) -> Result<ReaderState, ShareFault>
        ensures same { self.new ≡ self.old }
        ensures made { IfOk result (λ state. state ≡ record { unit = self.old.unit; list = self.old.shown }) }
        ensures refused { IfErr result (λ fault. ¬ (fault ≡ Full)) }
    {
        let Ok(mut reader) = self.writer.factory().reader() else {
            return Err(ShareFault::NoPlace);
        };
        reader.learn::<Hears>(self.writer.tell::<Tells>());
        let digest = Box::new(self.alloc, Digest::of(self.writer.published()))?;
        Ok(ReaderState::new(reader, digest))
    }

    /// Ends both, and returns what is published. It waits for checkers that are reading a version.
    pub fn end<R: Wait>(self, rt: &R) -> Journal
        ensures { result ≡ self.shown }
    {
        let WriterState {
            alloc: _,
            base: _base,
            writer,
            recorder: _recorder,
            ahead: _,
        } = self;
        Box::into_inner(writer.take(rt)).into_journal()
    }
}

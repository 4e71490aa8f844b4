//! The publisher: it alone adds batches to a unit's history.

ghost use Rattle.std.specs.Prelude.{◌≡◌, ◌↔◌, [], ◌∷◌, ◌++◌, Err, ◌⊎◌, IfOk, IfErr, OnOk, OnErr, false, length, take};
ghost use Rattle.pmp_core.specs.RegisterValue.{register_value};
ghost use Rattle.pmp_share.specs.declared.fault.ShareFault.TheVariants.{Full, Memory};
ghost use Rattle.pmp_share.specs.Batches.{event_count, file_from};
ghost use Rattle.pmp_share.specs.Known.{known};
ghost use Rattle.pmp_share.specs.Object.{Publishes};
ghost use Rattle.pmp_share.specs.Room.{has_room};

use crate::batch::Batch;
use crate::checker::Checker;
use crate::fault::ShareFault;
use crate::handing::hand_over;
use crate::journal::Journal;
use crate::notice::Notice;
use crate::room::has_room;
use crate::writer_state::WriterState;
use pmp_core::{Csr, RegFile};
use std::alloc::Global;
use std::marker::Model;
use std::sync::Wait;

/// Adds batches to the history of its unit: `submit` adds them to the pending list, and `publish` publishes that list
/// in one step. It isn't dropped but ended.
pub struct Publisher {
    state: WriterState,
    pending: Journal,
    /// How many pending batches are handed over to the next version.
    handed: usize,
    /// How many pending batches the last publication left.
    tried: usize,
}

impl Model for Publisher {
    ghost use Rattle.pmp_share.specs.Tokens.{PublisherToken};
    ghost use Rattle.pmp_share.specs.Publishing.{IsPublisher};

    ghost Value = { PublisherToken };

    ghost view = { λ publisher. record {
      unit = publisher.state.unit;
      published = publisher.state.shown;
      pending = publisher.pending;
      tried = publisher.tried;
    } };

    ghost invariant = { λ publisher. IsPublisher publisher.state publisher.pending publisher.handed publisher.tried };
}

impl Publisher {
    /// Creates the publisher of a new unit, which begins with this register file.
    pub(crate) fn open<R: Wait>(
        rt: &R,
        alloc: Global,
        base: &RegFile,
    ) -> Result<Publisher, ShareFault>
        ensures made { IfOk result (λ publisher. (publisher.published ≡ []) × (publisher.pending ≡ [])
            × (publisher.tried ≡ 0)) }
        ensures base { IfOk result (λ publisher. publisher.unit.base ≡ base.now) }
        ensures refused { IfErr result (λ fault. fault ≡ Memory) }
    {
        Ok(Publisher {
            state: WriterState::open(rt, alloc, base)?,
            pending: Journal::new(alloc),
            handed: 0,
            tried: 0,
        })
    }

    /// Returns a checker of its unit, which holds what is published.
    pub(crate) fn checker(&mut self) -> Result<Checker, ShareFault>
        ensures same { self.new ≡ self.old }
        ensures made { IfOk result (λ checker. checker ≡ known self.old.unit self.old.published) }
        ensures refused { IfErr result (λ fault. ¬ (fault ≡ Full)) }
    {
        Ok(Checker::new(self.state.reader_state()?))
    }

    /// Adds a copy of the batch to the pending list. An empty batch is a batch.
    pub fn submit(&mut self, batch: &Batch) -> Result<(), ShareFault>
        ensures appends { OnOk result (self.new ≡ record self.old { pending = self.old.pending ++ batch.now ∷ [] }) }
        ensures refused { OnErr result (self.new ≡ self.old) }
        ensures full { (result ≡ Err Full)
            ↔ (has_room self.old.published self.old.pending batch.now ≡ false) }
        ensures memory { IfErr result (λ fault. (fault ≡ Full) ⊎ (fault ≡ Memory)) }
    {
        if !has_room(self.state.shown(), &self.pending, batch.events()) {
            return Err(ShareFault::Full);
        }
        self.pending.push(batch.events())?;
        Ok(())
    }

    /// Removes from the pending list what was submitted since the last `publish`. What a refused `publish` left stays.
    pub fn withdraw(&mut self)
        ensures { self.new ≡ record self.old { pending = take self.old.tried self.old.pending } }
    {
        self.pending.truncate(self.tried);
    }

    /// Publishes all pending batches in one step, and returns how many events are published now. It may wait for
    /// checkers. If it is refused it may be called again.
    pub fn publish<R: Wait>(&mut self, rt: &R) -> Result<u64, ShareFault>
        ensures unit { self.new.unit ≡ self.old.unit }
        ensures appends { OnOk result (Publishes self.old.published self.old.pending self.new.published) }
        ensures emptied { OnOk result (self.new.pending ≡ []) }
        ensures count { IfOk result (λ events. events ≡ event_count self.new.published) }
        ensures refused { OnErr result ((self.new.published ≡ self.old.published)
            × (self.new.pending ≡ self.old.pending)) }
        ensures memory { IfErr result (λ fault. fault ≡ Memory) }
        ensures tried { self.new.tried ≡ length self.new.pending }
    {
        self.tried = self.pending.batches();
        hand_over(&mut self.state, &self.pending, &mut self.handed)?;
        self.state.show(rt)?;
        self.pending.clear();
        self.handed = 0;
        self.tried = 0;
        Ok(self.state.shown().event_count())
    }

    /// Ends the publisher. What is pending is lost, and no checker ever sees it. The checkers continue to decide.
    pub fn end<R: Wait>(self, rt: &R) {
        let _journal = self.into_journal(rt);
    }

    /// Ends the publisher, as [`end`](Publisher::end) does, and returns what it published.
    pub fn into_journal<R: Wait>(self, rt: &R) -> Journal
        ensures { result ≡ self.published }
    {
        let Publisher {
            state,
            pending: _pending,
            handed: _,
            tried: _,
        } = self;
        state.end(rt)
    }

    /// Returns a notice of all that is published. `NoPlace` if checkers and notices have taken all `PLACES`; one is
    /// free again once a notice or a checker is dropped, or a notice learnt.
    pub fn tell(&mut self) -> Result<Notice, ShareFault>
        ensures same { self.new ≡ self.old }
        ensures told { IfOk result (λ notice. notice ≡ known self.old.unit self.old.published) }
        ensures refused { IfErr result (λ fault. ¬ (fault ≡ Full)) }
    {
        Ok(Notice::new(self.state.reader_state()?))
    }

    /// Returns what the register reads after what is published and what is pending, as firmware reads back what it
    /// wrote, published or not.
    pub fn read(&self, csr: Csr) -> u64
        ensures { result
            ≡ register_value (file_from self.now.unit.base (self.now.published ++ self.now.pending)) csr }
    {
        let mut file = *self.state.file();
        file.run_events(self.pending.events());
        file.read(csr)
    }

    /// Returns how many events are published.
    pub fn journal_len(&self) -> u64
        ensures { result ≡ event_count self.now.published }
    {
        self.state.shown().event_count()
    }

    /// Returns how many events are pending.
    pub fn pending_len(&self) -> u64
        ensures { result ≡ event_count self.now.pending }
    {
        self.pending.event_count()
    }
}

//! Versions of a unit: what a checker enters.

ghost use Rattle.std.specs.Prelude.{◌≡◌, [], length};
ghost use Rattle.pmp_share.specs.Batches.{file_from};

use crate::decider::Decider;
use crate::fault::ShareFault;
use crate::growth::grow;
use crate::history::History;
use crate::journal::Journal;
use crate::logged_batch::LoggedBatch;
use crate::version_state::VersionState;
use left_right::Absorb;
use pmp_core::{Access, Csr, Decision, Mode, Perms, RegFile};
use pmp_map::RunMap;
use std::alloc::{AllocError, Global};
use std::snapshot::Snapshot;

/// The published batches, the register file that they give, and its map.
#[derive(Drop)]
pub struct Version {
    journal: Journal,
    file: RegFile,
    map: RunMap,
    history: History,
    /// What the unit began with, for contracts only.
    base: Snapshot<RegFile>,
    ghost replayed: { file ≡ file_from base.value journal },
    ghost mapped: { map ≡ file },
}

impl Absorb<LoggedBatch> for Version {
    ghost use Rattle.pmp_share.specs.Tokens.{unit_with};
    ghost use Rattle.pmp_share.specs.Versions.{applied};

    type State = VersionState;

    ghost state = { λ version. record {
      batches = version.journal;
      log = version.history.log;
      unit = unit_with version.history.book version.base.value;
    } };

    ghost applied = { applied };

    fn absorb_first(&mut self, logged: &LoggedBatch, _other: &Version) -> Result<(), AllocError> {
        let history = logged.history.again();
        grow(
            &mut self.journal,
            &mut self.file,
            &mut self.map,
            logged.events.as_slice(),
        )?;
        self.history = history;
        Ok(())
    }
}

impl Version {
    /// Returns the version without batches, of a unit that begins with this register file.
    pub fn new(alloc: Global, base: &RegFile, history: History) -> Version
        ensures journal { result.journal ≡ [] }
        ensures base { result.base.value ≡ base.now }
        ensures history { result.history ≡ history }
    {
        Version {
            journal: Journal::new(alloc),
            file: *base,
            map: RunMap::build(base),
            history,
            base: Snapshot::of(base),
        }
    }

    /// Returns how many batches it has.
    pub fn batches(&self) -> usize
        ensures { result ≡ length self.now.journal }
    {
        self.journal.batches()
    }

    /// Returns its batches.
    pub fn journal(&self) -> &Journal
        ensures { result.now ≡ self.now.journal }
    {
        &self.journal
    }

    /// Returns its batches, without the rest.
    pub fn into_journal(self) -> Journal
        ensures { result ≡ self.journal }
    {
        self.journal
    }

    /// Returns the register file that its events give.
    pub fn file(&self) -> &RegFile
        ensures same { result.now ≡ self.now.file }
        ensures replayed { result.now ≡ file_from self.now.base.value self.now.journal }
    {
        &self.file
    }

    /// Returns the history up to it.
    pub fn history(&self) -> History
        ensures { result ≡ self.now.history }
    {
        self.history.again()
    }
}

/// It decides by the map.
impl Decider for Version {
    ghost use Rattle.pmp_share.specs.Rule.{known_of};

    ghost known = { known_of };

    fn decide(&self, access: &Access) -> Decision {
        self.map.decide(&self.file, access)
    }

    fn rights(&self, mode: Mode, start: u64, length: u64) -> Option<Perms> {
        self.map.rights(mode, start, length)
    }

    fn read(&self, csr: Csr) -> u64 {
        self.file.read(csr)
    }

    fn events(&self) -> u64 {
        self.journal.event_count()
    }

    fn copy_journal(&self) -> Result<Journal, ShareFault> {
        Ok(self.journal.copy()?)
    }
}

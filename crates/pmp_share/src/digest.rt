//! Digests of the batches that a checker or a notice knows.

ghost use Rattle.std.specs.Prelude.{◌≡◌, MatchBool};
ghost use Rattle.pmp_share.specs.Batches.{StartsWith};
ghost use Rattle.pmp_share.specs.Known.{file_of};
ghost use Rattle.pmp_share.specs.Looks.{is_as_late};
ghost use Rattle.pmp_share.specs.Rule.{known_of};

use crate::decider::Decider;
use crate::fault::ShareFault;
use crate::history::History;
use crate::journal::Journal;
use crate::version::Version;
use pmp_core::{Access, Csr, Decision, Mode, Perms, RegFile};
use pmp_map::rights_in;
use std::marker::Model;
use std::snapshot::Snapshot;

/// The register file that batches give, and the numbers of their events and of the batches. A contract sees the
/// batches, and which unit they belong to.
#[derive(Drop)]
pub struct Digest {
    file: RegFile,
    events: u64,
    batches: usize,
    history: History,
    of: Snapshot<Version>,
}

impl Model for Digest {
    ghost use Rattle.pmp_share.specs.declared.knowledge.Known.{Known};
    ghost use Rattle.pmp_share.specs.Digests.{IsDigest};
    ghost use Rattle.pmp_share.specs.Rule.{known_of};

    ghost Value = { Known };

    ghost view = { λ digest. known_of digest.of.value };

    ghost invariant = { λ digest. IsDigest (known_of digest.of.value) digest.file digest.events digest.batches
        digest.history.book digest.history.log };
}

impl Digest {
    /// Returns the digest of a version's batches, which its history has.
    pub fn of(version: &Version) -> Digest
        requires noted { version.now.history.log ≡ version.now.journal }
        ensures { result ≡ known_of version.now }
    {
        Digest {
            file: *version.file(),
            events: version.events(),
            batches: version.batches(),
            history: version.history(),
            of: Snapshot::of(version),
        }
    }

    /// Updates it to a version that begins with its batches. It is written only if the version has more.
    #[inline]
    pub fn catch_up(&mut self, version: &Version)
        requires noted { version.now.history.log ≡ version.now.journal }
        requires unit { self.old.unit ≡ (known_of version.now).unit }
        requires begins { StartsWith version.now.journal self.old.list }
        ensures { self.new ≡ known_of version.now }
    {
        if self.batches != version.batches() {
            self.refresh(version);
        }
    }

    /// Writes it anew. Few looks need this, so it is out of line.
    #[cold]
    #[inline(never)]
    fn refresh(&mut self, version: &Version)
        requires noted { version.now.history.log ≡ version.now.journal }
        ensures { self.new ≡ known_of version.now }
    {
        *self = Digest::of(version);
    }

    pub fn file(&self) -> RegFile
        ensures { result ≡ file_of self.now }
    {
        self.file
    }

    /// Whether the other's batches hold more events, or as many in no fewer batches.
    fn is_as_late(&self, other: &Digest) -> bool
        ensures { result ≡ is_as_late self.now.list other.now.list }
    {
        self.events < other.events || (self.events == other.events && self.batches <= other.batches)
    }

    /// Returns the same for batches of one unit. If true, these batches are a prefix of the other's; otherwise
    /// the other's are a prefix of these.
    pub fn is_before(&self, other: &Digest) -> bool
        requires unit { other.now.unit ≡ self.now.unit }
        ensures late { result ≡ is_as_late self.now.list other.now.list }
        ensures begins { MatchBool result (StartsWith other.now.list self.now.list)
            (StartsWith self.now.list other.now.list) }
    {
        let mut both = self.history.again();
        both.learn(&other.history);
        self.is_as_late(other)
    }
}

/// It answers by the register file, without a map.
impl Decider for Digest {
    ghost known = { λ digest. digest };

    fn decide(&self, access: &Access) -> Decision {
        self.file.decide(access)
    }

    fn rights(&self, mode: Mode, start: u64, length: u64) -> Option<Perms> {
        rights_in(&self.file.registers(), mode, start, length)
    }

    fn read(&self, csr: Csr) -> u64 {
        self.file.read(csr)
    }

    fn events(&self) -> u64 {
        self.events
    }

    fn copy_journal(&self) -> Result<Journal, ShareFault> {
        Err(ShareFault::NoPlace)
    }
}

//! A hart: its checker, and in front of that a TLB with the rights of pages.

ghost use Rattle.std.specs.Prelude.{◌≡◌};
ghost use Rattle.pmp_share.specs.Batches.{StartsWith, event_count};
ghost use Rattle.pmp_harts.specs.declared.hart.TheConstants.{PAGE};
ghost use Rattle.pmp_harts.specs.Pages.{allows_at, HasRights, IsInside};

use pmp_core::{Access, Mode, Perms};
use pmp_share::laws::law_same_events;
use pmp_share::{Checker, Notice};
use std::marker::Model;
use std::snapshot::Snapshot;

const PAGE: u64 = 4096;

/// An answer, the manual's for the registers after its events, and their number. `seen` is for contracts only.
#[derive(Drop)]
pub struct Answer {
    pub access: Access,
    pub allowed: bool,
    pub events: u64,
    pub by_tlb: bool,
    seen: Snapshot<Checker>,
    ghost decided: { allowed ≡ allows_at seen.value access },
    ghost counted: { events ≡ event_count seen.value.list },
}

/// What a mode may do in a page, in the registers after the given number of events.
#[derive(Drop)]
struct Page {
    mode: Mode,
    start: u64,
    rights: Perms,
    events: u64,
    seen: Snapshot<Checker>,
    ghost right: { HasRights seen.value mode start PAGE rights },
    ghost counted: { events ≡ event_count seen.value.list },
}

impl Page {
    /// Whether the page's rights allow an access inside the page.
    fn allows(&self, access: &Access) -> bool
        requires { IsInside access.now self.now.mode self.now.start PAGE }
        ensures { result ≡ allows_at self.now.seen.value access.now }
    {
        self.rights.allows(access.kind)
    }
}

/// Evidence that a hart has learnt of `events` events. Only its `learn` creates one.
#[derive(Drop)]
pub struct Learnt {
    events: u64,
}

impl Learnt {
    pub fn events(&self) -> u64
        ensures { result ≡ self.now.events }
    {
        self.events
    }
}

/// A hart of an emulator. A contract sees its checker: the TLB's pages are of registers that the checker had or has.
#[derive(Drop)]
pub struct Hart {
    checker: Checker,
    tlb: [Option<Page>; 4],
}

impl Model for Hart {
    ghost use Rattle.pmp_share.specs.declared.knowledge.Known.{Known};
    ghost use Rattle.pmp_harts.specs.Tlb.{AreBehind};

    ghost Value = { Known };

    ghost view = { λ hart. hart.checker };

    ghost invariant = { λ hart. AreBehind hart.checker hart.tlb };
}

impl Hart {
    /// Returns a hart with an empty TLB.
    pub fn new(checker: Checker) -> Hart
        ensures { result ≡ checker }
    {
        let tlb = [None, None, None, None];
        Hart { checker, tlb }
    }

    /// Returns an answer of the registers that its checker knows.
    fn told(&self, access: &Access, allowed: bool, events: u64, by_tlb: bool) -> Answer
        requires decided { allowed ≡ allows_at self.now access.now }
        requires counted { events ≡ event_count self.now.list }
        ensures { (result.access ≡ access.now) × (result.allowed ≡ allowed) × (result.events ≡ events) }
    {
        Answer {
            access: *access,
            allowed,
            events,
            by_tlb,
            seen: Snapshot::of(&self.checker),
        }
    }

    /// Takes in a notice of its unit, at a remote fence.
    pub fn learn(&mut self, notice: Notice) -> Learnt
        requires { notice.unit ≡ self.old.unit }
        ensures unit { self.new.unit ≡ self.old.unit }
        ensures begins { StartsWith self.new.list self.old.list × StartsWith self.new.list notice.list }
        ensures learnt { result.events ≡ event_count notice.list }
    {
        let events = notice.len();
        self.checker.learn(notice);
        Learnt { events }
    }

    /// Answers an access as the checker would now, from the TLB if that holds the access's page as of exactly the
    /// events that are published.
    pub fn answer(&mut self, access: &Access) -> Answer
        ensures unit { self.new.unit ≡ self.old.unit }
        ensures begins { StartsWith self.new.list self.old.list }
        ensures same { result.access ≡ access.now }
        ensures decided { result.allowed ≡ allows_at self.new access.now }
        ensures fresh { result.events ≡ event_count self.new.list }
    {
        law_same_events();
        let (events, start) = (self.checker.count(), access.start - access.start % PAGE);
        let place = (start / PAGE % 4) as usize;
        if access.start + access.length <= start + PAGE {
            if let Some(page) = &self.tlb[place]
                && (page.mode, page.start, page.events) == (access.mode, start, events)
            {
                let allowed = page.allows(access);
                return self.told(access, allowed, events, true);
            }
            if let (Some(rights), events) = self.checker.rights(access.mode, start, PAGE) {
                let page = Page {
                    mode: access.mode,
                    start,
                    rights,
                    events,
                    seen: Snapshot::of(&self.checker),
                };
                let allowed = page.allows(access);
                self.tlb[place] = Some(page);
                return self.told(access, allowed, events, false);
            }
        }
        let (decision, events) = self.checker.decide(access);
        self.told(access, decision.allowed, events, false)
    }
}

//! An example to copy: an emulator of two harts that share one PMP unit, each with a TLB.
//!
//! Firmware on hart 0 switches a domain while hart 1 runs on a thread of its own.
#![tactic(auto)]

ghost use Rattle.std.specs.Prelude.{◌≡◌, ◌≤◌, IfOk};
ghost use Rattle.pmp_share.specs.Batches.{event_count};

mod fence;
mod hart;

use fence::{Fence, Fenced};
use hart::{Answer, Hart};
use pmp_core::{Access, Csr, Event, Kind, Mode, RegFile};
use pmp_share::{Batch, Checker, NoticeReceiver, NoticeSender, Publisher, ShareFault, start};
use std::alloc::Global;
use std::process::ExitCode;
use std::sync::{Arc, Wait};
use std::thread::{JoinHandle, Threads};
use std::{io, thread};

/// Gives entries 0 and 1 two pages each, and lets the first domain use those of entry 0.
const SET_UP: [Event; 3] = [
    Event::Write(Csr::Addr(0), 0x200003ff),
    Event::Write(Csr::Addr(1), 0x20000bff),
    Event::Write(Csr::Cfg(0), 0x181b),
];

/// Lets nobody use any of them, and then the second domain those of entry 1.
const SWITCH: [Event; 2] = [
    Event::Write(Csr::Cfg(0), 0x1818),
    Event::Write(Csr::Cfg(0), 0x1b18),
];

/// Where hart 1 loads before each notice: a page of entry 0 that no walk puts into the TLB.
const BEFORE: u64 = 0x80001000;

type Answers = Vec<Answer>;

/// How hart 0 reaches hart 1: it sends notices, and waits at the fence.
#[derive(Drop)]
struct Link<'a> {
    notices: NoticeSender,
    fence: &'a Fence,
}

/// Starts a unit, and ends it in every case.
fn main(rt: HostRuntime) -> ExitCode {
    let Ok((mut publisher, mut checkers)) = start(&rt, rt.alloc(), 2) else {
        return ExitCode::FAILURE;
    };
    let answers = match (checkers.pop(), checkers.pop()) {
        (Some(one), Some(zero)) => run_harts(&rt, &mut publisher, zero, one),
        _ => Err(ShareFault::NoPlace),
    };
    let journal = publisher.into_journal(&rt);
    let Ok(answers) = answers else {
        return ExitCode::FAILURE;
    };
    ExitCode::from(u8::from(show(&rt, journal.events(), &answers).is_err()))
}

/// Shows the answers of the walks of hart 0 and of hart 1, and of hart 1 before each notice, and how many of them agree
/// with a replay of what was published.
fn show(rt: &impl Print, events: &[Event], all: &(Answers, Answers, Answers)) -> io::Result<()> {
    let (mut same, mut count) = (0u64, 0u64);
    for (hart, answers) in [("0", &all.0), ("1", &all.1), ("1 before a notice", &all.2)] {
        for answer in answers.as_slice() {
            let mut file = RegFile::reset();
            file.run_events(events.get(..answer.events as usize).unwrap_or(&[]));
            let is_same = file.decide(&answer.access).allowed == answer.allowed;
            same = same.wrapping_add(u64::from(is_same));
            count = count.wrapping_add(1);
            let (start, events) = (answer.access.start, answer.events);
            let allowed = if answer.allowed { "allowed" } else { "refused" };
            let by = if answer.by_tlb { "TLB" } else { "unit" };
            println!(rt; "hart {hart}, {events} events: load {start:#x} {allowed} by the {by}")?;
        }
    }
    println!(rt; "a replay answers {same} of {count} loads the same")
}

/// Runs hart 1 on a thread of its own and hart 0 meanwhile. Returns what `show` shows.
fn run_harts<R: AllocGlobal + Threads + Wait + Copy + Send + 'static>(
    rt: &R,
    publisher: &mut Publisher,
    zero: Checker,
    one: Checker,
) -> Result<(Answers, Answers, Answers), ShareFault>
    requires { (zero.unit ≡ publisher.old.unit) × (one.unit ≡ publisher.old.unit) }
{
    let (notices, receiver) = publisher.notice_ring(rt.alloc(), 1)?;
    let fence = Arc::new(rt.alloc(), Fence::new())?;
    let thread = start_one(rt, one, receiver, &fence)?;
    let link = Link {
        notices,
        fence: &fence,
    };
    let zero = run_zero(rt, zero, publisher, link);
    let one = thread.join(rt);
    let (zero, (one, before)) = (zero?, one?);
    Ok((zero, one, before))
}

/// Starts hart 1 on a thread.
fn start_one<R: AllocGlobal + Threads + Wait + Copy + Send + 'static>(
    rt: &R,
    checker: Checker,
    notices: NoticeReceiver,
    fence: &Arc<Fence, Global>,
) -> Result<JoinHandle<Result<(Answers, Answers), ShareFault>>, ShareFault>
    requires { notices.unit ≡ checker.unit }
{
    let (runtime, fence) = (*rt, Arc::try_clone(fence)?);
    let hart = move || -> Result<(Answers, Answers), ShareFault>
        requires { notices.unit ≡ checker.unit }
    { run_one(&runtime, checker, notices, &fence) };
    thread::spawn(rt, hart).map_err(|_| ShareFault::NoPlace)
}

/// Publishes these writes in one step and shows it, sends hart 1 a notice, and waits at a remote fence: it can't return
/// earlier, because its result comes from that wait.
fn program<R: Wait>(
    rt: &R,
    publisher: &mut Publisher,
    link: &mut Link<'_>,
    writes: &[Event],
) -> Result<Fenced, ShareFault>
    requires { link.old.notices.unit ≡ publisher.old.unit }
    ensures publisher { publisher.new.unit ≡ publisher.old.unit }
    ensures notices { link.new.notices.unit ≡ link.old.notices.unit }
    ensures fenced { IfOk result (λ fenced. event_count publisher.new.published ≤ fenced.events) }
{
    publisher.submit(&Batch::of(writes).map_err(|_| ShareFault::Full)?)?;
    let events = publisher.publish(rt)?;
    link.fence.show(rt, events, &mut link.notices)?;
    let sent = link.notices.send(publisher.tell()?);
    sent.map_err(|_| ShareFault::NoPlace)?;
    link.fence.wait(rt, events, &mut link.notices)
}

/// Sets the first domain up on hart 0 and walks in it, then switches to the second and walks again.
fn run_zero<R: AllocGlobal + Wait>(
    rt: &R,
    checker: Checker,
    publisher: &mut Publisher,
    mut link: Link<'_>,
) -> Result<Answers, ShareFault>
    requires { (link.notices.unit ≡ publisher.old.unit) × (checker.unit ≡ publisher.old.unit) }
{
    let (mut hart, mut answers) = (Hart::new(checker), Vec::new(rt.alloc()));
    for writes in [SET_UP.as_slice(), SWITCH.as_slice()] {
        program(rt, publisher, &mut link, writes)?;
        hart.learn(publisher.tell()?);
        walk(&mut hart, &mut answers)?;
    }
    Ok(answers)
}

/// Has hart 1 load when it sees that something was published, before a notice of it comes. Hart 1 learns each notice
/// and then walks, until nobody sends any more. Returns the results of the walks, and the other loads.
fn run_one<R: AllocGlobal + Wait>(
    rt: &R,
    checker: Checker,
    mut notices: NoticeReceiver,
    fence: &Fence,
) -> Result<(Answers, Answers), ShareFault>
    requires { notices.unit ≡ checker.unit }
{
    let (mut hart, mut looked) = (Hart::new(checker), 0);
    let (mut walked, mut before) = (Vec::new(rt.alloc()), Vec::new(rt.alloc()));
    for _ in rt.forever() {
        let is_last = notices.is_abandoned();
        let shown = fence.shown();
        if shown > looked {
            before.push(load(&mut hart, BEFORE)?)?;
            before.push(load(&mut hart, BEFORE)?)?;
            looked = shown;
            fence.look(shown);
        }
        if let Some(notice) = notices.receive() {
            let learnt = hart.learn(notice);
            walk(&mut hart, &mut walked)?;
            fence.acknowledge(learnt);
        } else if is_last {
            break;
        }
        thread::yield_now();
    }
    Ok((walked, before))
}

/// Loads eight bytes in U-mode.
fn load(hart: &mut Hart, start: u64) -> Result<Answer, ShareFault>
    ensures { hart.new.unit ≡ hart.old.unit }
{
    let load = Access::new(Mode::U, Kind::Load, start, 8).map_err(|_| ShareFault::NoPlace)?;
    Ok(hart.answer(&load))
}

/// Loads twice in the first page of entry 0, then across into entry 1, and twice in its first page.
fn walk(hart: &mut Hart, answers: &mut Answers) -> Result<(), ShareFault>
    ensures { hart.new.unit ≡ hart.old.unit }
{
    for start in [0x80000000, 0x80000800, 0x80001ffc, 0x80002000, 0x80002800] {
        answers.push(load(hart, start)?)?;
    }
    Ok(())
}

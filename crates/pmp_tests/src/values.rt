//! Values that neither a text nor a number at the C boundary produces.

ghost use Rattle.std.specs.Prelude.{◌≡◌, ◌↔◌, IsTrue};

use pmp_core::*;
use pmp_map::Run;

/// `==` distinguishes values of these types, and says that equal ones are equal.
fn are_same_decisions(one: &Decision, other: &Decision) -> bool
    ensures { IsTrue result ↔ one.now ≡ other.now }
{
    one == other
}

fn are_same_events(one: &Event, other: &Event) -> bool
    ensures { IsTrue result ↔ one.now ≡ other.now }
{
    one == other
}

fn are_same_runs(one: &Run, other: &Run) -> bool
    ensures { IsTrue result ↔ one.now ≡ other.now }
{
    one == other
}

/// The defaults with which vectors of fixed capacity are filled.
#[test]
fn defaults_refuse(rt: HostRuntime) {
    let refused = Decision {
        allowed: false,
        cause: Cause::NoMatch,
    };
    let none = Run {
        first: 0,
        last: 0,
        owner: None,
    };
    assert!(rt; are_same_events(&Event::default(), &Event::Reset));
    assert!(rt; are_same_decisions(&Decision::default(), &refused));
    assert!(rt; are_same_runs(&Run::default(), &none));
}

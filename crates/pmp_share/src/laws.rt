//! The laws of batches and looks, each the contract of a function that does nothing.

ghost use Rattle.pmp_share.specs.Laws.{SameEventsLaw, CutLaw, FurtherEventsLaw, LaterLookLaw, PlacesLaw};

use pmp_core::laws::law_frozen;

/// If batches begin with others, and hold as many events, they hold the same events: only empty batches were added.
#[tactic(auto, using(crate::proofs::LookFacts::same_events_law))]
pub fn law_same_events()
    ensures { SameEventsLaw }
{}

/// A journal loses nothing: its events, cut at its ends, are the batches again.
pub fn law_journal_cut()
    ensures { CutLaw }
{}

/// If batches begin with others, their register file is that of the others after the further events.
#[tactic(auto, using(crate::proofs::LaterLooks::further_events_law))]
pub fn law_further_events()
    ensures { FurtherEventsLaw }
{}

/// An entry frozen in the file of one look keeps its configuration and its bytes in each later look of the same
/// checker, if the further events hold no reset. Each look begins with the one before: see `look` of its calls.
pub fn law_later_look()
    ensures { LaterLookLaw }
{
    law_frozen();
}

/// A unit has a place for each of its checkers and one more for a notice to each, as many as an audit by all of them
/// takes.
pub fn law_places()
    ensures { PlacesLaw }
{}

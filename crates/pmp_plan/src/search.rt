//! The search for a small number of entries for a plan.

use crate::level::Levels;
use crate::moves::expand;
use crate::parts::Parts;
use crate::state::{FOUND, State};

/// Returns the state with this number of entries that give all that is asked for, if one is kept.
fn finished(levels: &Levels<'_>, entries: usize) -> Option<State> {
    for index in 0..levels.count(entries) {
        match levels.state(entries, index) {
            Some(state) if state.cost == 0 => return Some(*state),
            _ => {}
        }
    }
    None
}

/// Offers the states that those with this number of entries lead to.
fn expand_all(parts: &Parts, levels: &mut Levels<'_>, entries: usize) {
    for index in 0..levels.count(entries) {
        if let Some(state) = levels.state(entries, index).copied() {
            expand(parts, &state, levels);
        }
    }
    levels.clear(entries);
}

/// Returns as few entries as are found for the parts, behind those of a state, or none if the greatest number was not
/// enough, or the room was too small.
///
/// This is a beam search. A state is what the first entries leave of each part, and where a TOR entry after them could
/// begin; a move is the largest naturally aligned block or the longest range around the rest of a part, across what
/// earlier entries own. `Levels` keeps the best states of each number of entries.
pub fn search(room: &mut [State], parts: &Parts, from: State) -> Option<State> {
    let mut levels = Levels::new(room);
    levels.offer(from);
    for entries in from.count..FOUND {
        if let Some(state) = finished(&levels, entries) {
            return Some(state);
        }
        expand_all(parts, &mut levels, entries);
    }
    None
}

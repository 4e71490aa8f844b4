//! The best states with a given number of entries.

use crate::state::State;
use std::alloc::{AllocError, Global};

/// The number of states kept: with this many, a search was as good as an exhaustive one wherever that could be tried.
const WIDTH: usize = 64;

/// The numbers of entries whose states are kept at once: an entry, or two, come after those that are there.
const LEVELS: usize = 3;

/// The number of states that a search has room for.
pub const SEARCH_ROOM: usize = WIDTH * LEVELS;

/// Returns the room of a search on the heap.
pub fn search_room(alloc: Global) -> Result<Vec<State>, AllocError> {
    let mut room = Vec::new(alloc);
    for _ in 0..SEARCH_ROOM {
        room.push(State::new())?;
    }
    Ok(room)
}

/// The best of the states that were offered, by their numbers of entries.
#[derive(Drop)]
pub struct Levels<'a> {
    room: &'a mut [State],
    /// How many states there are of each level.
    counts: [usize; LEVELS],
}

/// Returns where the state with this index is kept.
fn place(level: usize, index: usize) -> usize {
    level.saturating_mul(WIDTH).saturating_add(index)
}

impl<'a> Levels<'a> {
    pub fn new(room: &'a mut [State]) -> Levels<'a> {
        Levels {
            room,
            counts: [0; LEVELS],
        }
    }

    /// Returns how many states have this number of entries.
    pub fn count(&self, entries: usize) -> usize {
        self.counts[entries % LEVELS]
    }

    /// Returns one of the states with this number of entries.
    pub fn state(&self, entries: usize, index: usize) -> Option<&State> {
        self.room.get(place(entries % LEVELS, index))
    }

    /// Forgets the states with this number of entries.
    pub fn clear(&mut self, entries: usize) {
        self.counts[entries % LEVELS] = 0;
    }

    fn has_same(&self, state: &State) -> bool {
        for index in 0..self.count(state.count) {
            match self.state(state.count, index) {
                Some(kept) if kept.is_same(state) => return true,
                _ => {}
            }
        }
        false
    }

    /// Returns the index of the state of the highest cost.
    fn worst(&self, entries: usize) -> usize {
        let mut worst = 0;
        let mut cost = 0;
        for index in 0..self.count(entries) {
            match self.state(entries, index) {
                Some(kept) if kept.cost > cost => (worst, cost) = (index, kept.cost),
                _ => {}
            }
        }
        worst
    }

    /// Keeps the state, if it differs from those kept, and is better than one of them if there is no room.
    pub fn offer(&mut self, state: State) {
        if self.has_same(&state) {
            return;
        }
        let count = self.count(state.count);
        let is_full = count >= WIDTH;
        let index = if is_full {
            self.worst(state.count)
        } else {
            count
        };
        if let Some(place) = self.room.get_mut(place(state.count % LEVELS, index)) {
            if !is_full || state.cost < place.cost {
                *place = state;
            }
        }
        if !is_full {
            self.counts[state.count % LEVELS] = count + 1;
        }
    }
}

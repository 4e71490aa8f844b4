//! Stores for the values of one type.

ghost use Rattle.std.specs.Prelude.{◌≡◌, ◌++◌, ◌∷◌, [], List, OnErr, OnOk, take};

use arrayvec::ArrayVec;
use std::alloc::AllocError;

/// A vector that grows, or an array that may become full.
pub trait Store<T> {
    ghost items: { Self → List T };

    /// Appends a value, or nothing.
    fn push(&mut self, item: T) -> Result<(), AllocError>
        ensures ok { OnOk result (items self.new ≡ items self.old ++ item ∷ []) }
        ensures err { OnErr result (items self.new ≡ items self.old) };

    /// Keeps the given number of values, and forgets those after them.
    fn keep(&mut self, count: usize)
        ensures { items self.new ≡ take count (items self.old) };

    /// Returns all values.
    fn as_slice(&self) -> &[T]
        ensures { result.now ≡ items self.now };
}

impl<T: Drop> Store<T> for Vec<T> {
    ghost items = { λ vector. vector.items };

    fn push(&mut self, item: T) -> Result<(), AllocError> {
        self.push(item).map_err(|_| AllocError)
    }

    fn keep(&mut self, count: usize) {
        self.truncate(count);
    }

    fn as_slice(&self) -> &[T] {
        self.as_slice()
    }
}

impl<T: Default + Drop, const CAP: usize> Store<T> for ArrayVec<T, CAP> {
    ghost items = { λ array. array.items };

    fn push(&mut self, item: T) -> Result<(), AllocError> {
        self.try_push(item).map_err(|_| AllocError)
    }

    fn keep(&mut self, count: usize) {
        self.truncate(count);
    }

    fn as_slice(&self) -> &[T] {
        self.as_slice()
    }
}

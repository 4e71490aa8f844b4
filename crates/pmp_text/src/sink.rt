//! The destinations of texts: a vector that grows, or a room that may become full.

ghost use Rattle.std.specs.Prelude.{◌≡◌, ◌++◌, List, ℕ, OnErr, OnOk, length, take};

use arrayvec::ArrayVec;
use std::alloc::AllocError;

/// A destination of texts: a vector that grows, or a room that may become full.
pub trait Sink {
    ghost text: { Self → List ℕ };

    /// Appends the bytes, or nothing.
    fn append(&mut self, bytes: &[u8]) -> Result<(), AllocError>
        ensures ok { OnOk result (text self.new ≡ text self.old ++ bytes.now) }
        ensures err { OnErr result (text self.new ≡ text self.old) };

    /// Returns how many bytes the text has.
    fn position(&self) -> usize
        ensures { result ≡ length (text self.now) };

    /// Removes everything after the first `position` bytes.
    fn go_back(&mut self, position: usize)
        ensures { text self.new ≡ take position (text self.old) };
}

impl Sink for Vec<u8> {
    ghost text = { λ bytes. bytes.items };

    fn append(&mut self, bytes: &[u8]) -> Result<(), AllocError> {
        Ok(self.extend_from_slice(bytes)?)
    }

    fn position(&self) -> usize {
        self.len()
    }

    fn go_back(&mut self, position: usize) {
        self.truncate(position);
    }
}

impl<const N: usize> Sink for ArrayVec<u8, N> {
    ghost text = { λ bytes. bytes.items };

    fn append(&mut self, bytes: &[u8]) -> Result<(), AllocError> {
        self.try_extend_from_slice(bytes).map_err(|_| AllocError)
    }

    fn position(&self) -> usize {
        self.len()
    }

    fn go_back(&mut self, position: usize) {
        self.truncate(position);
    }
}

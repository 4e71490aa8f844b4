//! Gates: callbacks that a worker of a shared audit passes between two rows.

/// A callback that the workers of a shared audit share. It may wait, and then the audit waits too.
pub trait Gate {
    /// Worker `worker`, numbered from 0, has decided the report row `row`, numbered from 1. It continues once the call
    /// returns. Each row has at most one call, and exactly one if the audit succeeds.
    fn pass(&self, worker: u8, row: u64);

    /// Whether a worker may wait in `pass` for another worker's row. If none does, workers that have few rows take
    /// turns on one thread.
    fn may_wait(&self) -> bool {
        true
    }
}

/// A gate that lets everyone pass at once.
#[derive(Clone, Copy, Debug, Default)]
pub struct OpenGate;

impl Gate for OpenGate {
    fn pass(&self, _worker: u8, _row: u64) {}

    fn may_wait(&self) -> bool {
        false
    }
}

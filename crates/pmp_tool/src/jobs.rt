//! The number of jobs that a long audit runs at a time.

use std::thread;
use std::thread::Threads;

/// The greatest number of jobs that a long audit runs at a time.
pub const JOBS: u8 = 64;

/// Returns one job for each processor that the system reports, up to `JOBS`, or else one.
pub fn processors<T: Threads>(rt: &T) -> u64 {
    let processors = thread::available_parallelism(rt).map_or(1, |count| count.get());
    processors.clamp(1, usize::from(JOBS)) as u64
}

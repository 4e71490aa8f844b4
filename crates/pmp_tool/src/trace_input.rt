//! A trace that is read little by little.

use std::io::Read;
use std::rt::Files;
use std::{fs, io};

/// The file at a path, or standard input.
#[derive(Drop)]
pub enum TraceInput<R: Files + Input> {
    File(R::File),
    Standard(R::Reader),
}

impl<R: Files + Input> TraceInput<R> {
    /// Opens the file at the path; `stdin` means standard input.
    pub fn open(runtime: &R, path: &str) -> io::Result<Self> {
        match path {
            "stdin" => Ok(TraceInput::Standard(runtime.reader())),
            _ => Ok(TraceInput::File(fs::open(runtime, path)?)),
        }
    }
}

impl<R: Files + Input> Read for TraceInput<R> {
    fn read(&mut self, buffer: &mut [u8]) -> io::Result<usize> {
        match self {
            TraceInput::File(file) => file.read(buffer),
            TraceInput::Standard(reader) => reader.read(buffer),
        }
    }
}

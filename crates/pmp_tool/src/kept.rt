//! Inputs that are kept for an explanation.

use std::alloc::{AllocError, Global};

/// An input of a command.
#[derive(Drop)]
pub struct KeptInput {
    pub path: String,
    /// Its bytes, or none if it can't be read, isn't kept, or is a long trace.
    pub bytes: Vec<u8>,
}

/// The inputs of a command in the order in which it takes them, if they are kept.
#[derive(Drop)]
pub struct Kept {
    pub alloc: Global,
    keeps: bool,
    inputs: Vec<KeptInput>,
    /// The index of the last input that is a script, of two that of the second.
    script: usize,
}

impl Kept {
    /// Returns an empty list, which will keep inputs only if `keeps` is set.
    pub fn new(alloc: Global, keeps: bool) -> Kept {
        Kept {
            alloc,
            keeps,
            inputs: Vec::new(alloc),
            script: 0,
        }
    }

    /// Notes an input. If there is no memory for that, nothing is kept from here on.
    pub fn begin(&mut self, path: &str) {
        if self.keeps && self.add(path).is_err() {
            self.keeps = false;
        }
    }

    /// Notes a script.
    pub fn begin_script(&mut self, path: &str) {
        self.script = self.inputs.len();
        self.begin(path);
    }

    fn add(&mut self, path: &str) -> Result<(), AllocError> {
        let path = String::from_str(self.alloc, path)?;
        let bytes = Vec::new(self.alloc);
        Ok(self.inputs.push(KeptInput { path, bytes })?)
    }

    /// Keeps the bytes of the last input, if there is memory for them.
    pub fn fill(&mut self, bytes: &[u8]) {
        if !self.keeps {
            return;
        }
        if let Some(input) = self.inputs.last_mut() {
            let _ = input.bytes.extend_from_slice(bytes);
        }
    }

    /// Forgets them, and keeps later ones as before.
    pub fn forget(&mut self) {
        self.inputs.clear();
    }

    /// Returns the last script.
    pub fn script(&self) -> Option<&KeptInput> {
        self.inputs.get(self.script)
    }

    pub fn inputs(&self) -> &[KeptInput] {
        &self.inputs
    }
}

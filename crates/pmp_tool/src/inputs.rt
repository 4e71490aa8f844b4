//! The sources of the program's inputs.

ghost use Rattle.std.specs.Prelude.{◌≡◌, ℕ, ◌≤◌, List, length, map, string_bytes, option_map, Option, None, IfOk, IfErr, OnErr, OnOk};
ghost use Rattle.pmp_text.specs.Inputs.{refusal_of_input};
ghost use Rattle.pmp_text.specs.declared.input.TheConstants.{MAX_LIMIT};
ghost use Rattle.pmp_text.specs.declared.script.reader.TheConstants.{MAX_HEADED_SCRIPT};
ghost use Rattle.pmp_text.specs.declared.trace.reader.TheConstants.{MAX_TRACE};
ghost use Rattle.pmp_tool.specs.HartScripts.{AreMade, CantBeMade};
ghost use Rattle.pmp_tool.specs.Inputs.{AreBytesOf, CantBeOpened, CantBeRead, GivesBytesOf, IsFolder, Paths, unknown};

use crate::folder::fill_folder;
use crate::hart_script::HartScript;
use crate::kept::Kept;
use crate::progress::Watched;
use crate::trace_input::TraceInput;
use pmp_text::{InputFault, MAX_HEADED_SCRIPT, MAX_LIMIT, MAX_TRACE, Refusal, read_bytes};
use std::alloc::{AllocError, Global};
use std::io::{ErrorKind, Read, Write};
use std::rt::Files;
use std::time::Clock;
use std::{fs, io};

/// The inputs that the program's words name.
pub trait Inputs {
    /// The reader of the bytes of a trace, little by little.
    type Trace: Read + Drop;

    /// What stands at each path, as far as that is known.
    ghost paths: { Self → Paths } = { λ _. unknown };

    /// Returns the bytes of the script at this path.
    fn script(&mut self, path: &str) -> Result<Vec<u8>, InputFault>
        ensures read { IfOk result (λ bytes. AreBytesOf ((paths self.old).scripts path.now) bytes.items) }
        ensures unread { IfErr result (λ fault. CantBeRead MAX_HEADED_SCRIPT ((paths self.old).scripts path.now)
            (refusal_of_input fault)) }
        ensures paths { paths self.new ≡ paths self.old };

    /// Returns the bytes of the trace or the policy at this path.
    fn trace(&mut self, path: &str) -> Result<Vec<u8>, InputFault>
        ensures read { IfOk result (λ bytes. AreBytesOf ((paths self.old).traces path.now) bytes.items) }
        ensures unread { IfErr result (λ fault. CantBeRead MAX_TRACE ((paths self.old).traces path.now)
            (refusal_of_input fault)) }
        ensures paths { paths self.new ≡ paths self.old };

    /// Returns a reader of the trace or the log at this path, of which no byte is read yet.
    fn open_trace(&mut self, path: &str) -> Result<Self::Trace, InputFault>
        ensures opened { IfOk result (λ reader. GivesBytesOf ((paths self.old).traces path.now)
            (Self.Trace.remaining reader)) }
        ensures unopened { IfErr result (λ fault. CantBeOpened (refusal_of_input fault)) }
        ensures paths { paths self.new ≡ paths self.old };

    /// Returns the names of the files of the folder at this path, or none if there is no folder.
    fn folder(&mut self, path: &str) -> Result<Option<Vec<String>>, InputFault>
        ensures listed { IfOk result (λ found. IsFolder ((paths self.old).folders path.now) (option_map
            (λ files. map string_bytes files.items) found)) }
        ensures unlisted { IfErr result (λ fault. CantBeOpened (refusal_of_input fault)) }
        ensures paths { paths self.new ≡ paths self.old };

    /// Creates a folder at this path, with these scripts. If that can't be done completely there is no folder.
    fn make_folder(&mut self, path: &str, files: &[HartScript]) -> Result<(), Refusal>
        ensures made { OnOk result (AreMade path.now files.now (paths self.old) (paths self.new)) }
        ensures unmade { IfErr result CantBeMade }
        ensures unchanged { OnErr result (paths self.new ≡ paths self.old) };

    /// Forgets the inputs that are kept.
    fn forget(&mut self)
        ensures paths { paths self.new ≡ paths self.old };

    /// Returns what is kept of the inputs so far.
    fn kept(&self) -> &Kept;
}

/// The files of the system. The path `stdin` means standard input.
#[derive(Drop)]
pub struct SystemInputs<'a, R, E> {
    runtime: &'a R,
    /// Where progress in reading a long trace is shown.
    terminal: Option<E>,
    kept: Kept,
}

impl<'a, R: AllocGlobal, E> SystemInputs<'a, R, E> {
    /// Creates the inputs, which also keep what is read if `keeps` is set.
    pub fn new(runtime: &'a R, terminal: Option<E>, keeps: bool) -> Self {
        let kept = Kept::new(runtime.alloc(), keeps);
        SystemInputs {
            runtime,
            terminal,
            kept,
        }
    }
}

impl<'a, R: Files + Input + AllocGlobal + Clock + Clone + Drop, E: Write + Drop> Inputs
    for SystemInputs<'a, R, E> {
    type Trace = Watched<'a, TraceInput<R>, R, E>;

    fn script(&mut self, path: &str) -> Result<Vec<u8>, InputFault> {
        self.kept.begin_script(path);
        let script = read_at(self.runtime, path, MAX_HEADED_SCRIPT as u64)?;
        self.kept.fill(&script);
        Ok(script)
    }

    fn trace(&mut self, path: &str) -> Result<Vec<u8>, InputFault> {
        self.kept.begin(path);
        let trace = read_at(self.runtime, path, MAX_TRACE as u64)?;
        self.kept.fill(&trace);
        Ok(trace)
    }

    fn open_trace(&mut self, path: &str) -> Result<Self::Trace, InputFault> {
        self.kept.begin(path);
        let input = TraceInput::open(self.runtime, path)?;
        Ok(Watched::new(input, self.runtime, self.terminal.take()))
    }

    fn folder(&mut self, path: &str) -> Result<Option<Vec<String>>, InputFault> {
        if !is_folder(self.runtime, path)? {
            return Ok(None);
        }
        self.kept.begin(path);
        Ok(Some(files_of(self.runtime, path)?))
    }

    fn make_folder(&mut self, path: &str, files: &[HartScript]) -> Result<(), Refusal> {
        fill_folder(self.runtime, path, files)
    }

    fn forget(&mut self) {
        self.kept.forget();
    }

    fn kept(&self) -> &Kept {
        &self.kept
    }
}

/// Returns why a folder can't be read.
fn folder_fault(error: io::Error) -> InputFault
    ensures { CantBeOpened (refusal_of_input result) }
{
    match error.kind() {
        ErrorKind::OutOfMemory => InputFault::Memory,
        _ => InputFault::Input,
    }
}

fn is_folder<R: Files>(runtime: &R, path: &str) -> Result<bool, InputFault>
    ensures { IfErr result (λ fault. CantBeOpened (refusal_of_input fault)) }
{
    if path == "stdin" {
        return Ok(false);
    }
    match fs::metadata(runtime, path) {
        Ok(found) => Ok(found.is_dir()),
        Err(error) if error.kind() == ErrorKind::OutOfMemory => Err(InputFault::Memory),
        Err(_) => Ok(false),
    }
}

/// Returns the names of the files in a folder.
fn files_of<R: Files + AllocGlobal + Clone + Drop>(
    runtime: &R,
    path: &str,
) -> Result<Vec<String>, InputFault>
    ensures { IfErr result (λ fault. CantBeOpened (refusal_of_input fault)) }
{
    let mut files = Vec::new(runtime.alloc());
    let listing = match fs::read_dir(runtime, path) {
        Ok(listing) => listing,
        Err(error) => return Err(folder_fault(error)),
    };
    for entry in listing {
        match entry {
            Ok(entry) => add_file(runtime.alloc(), &mut files, entry.file_name())?,
            Err(error) => return Err(folder_fault(error)),
        }
    }
    Ok(files)
}

fn add_file(alloc: Global, files: &mut Vec<String>, name: &str) -> Result<(), AllocError> {
    Ok(files.push(String::from_str(alloc, name)?)?)
}

/// Returns all bytes of the file at the path, or of standard input, which are at most `limit`.
fn read_at<R: Files + Input + AllocGlobal>(
    runtime: &R,
    path: &str,
    limit: u64,
) -> Result<Vec<u8>, InputFault>
    requires { limit ≤ MAX_LIMIT }
    ensures read { IfOk result (λ bytes. length bytes.items ≤ limit) }
    ensures unread { IfErr result (λ fault. CantBeRead limit None (refusal_of_input fault)) }
{
    match path {
        "stdin" => read_bytes(runtime.alloc(), &mut runtime.reader(), limit),
        _ => read_bytes(runtime.alloc(), &mut fs::open(runtime, path)?, limit),
    }
}

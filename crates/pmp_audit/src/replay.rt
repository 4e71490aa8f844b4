//! The register file as a script's publications are executed.

ghost use Rattle.std.specs.Prelude.{◌≡◌, ◌≤◌, IfErr, IfOk, length};
ghost use Rattle.pmp_core.specs.Decision.{IsDecision};
ghost use Rattle.pmp_text.specs.Reports.{file_of_script};
ghost use Rattle.pmp_audit.specs.Replay.{file_at};
ghost use Rattle.pmp_audit.specs.ScriptDiff.{GivesFile};
ghost use Rattle.pmp_audit.specs.Answers.{Declines};
ghost use Rattle.pmp_audit.specs.AskedFile.{FileRefuses};

use crate::asked_count::asked_count;
use pmp_core::{Access, Decision, RegFile};
use pmp_map::RunMap;
use pmp_text::{EventLog, Fault, ReadScript, When, read_script_in};
use std::marker::Model;

/// A script whose first publications are executed. A contract sees the script, and the number of these publications.
#[derive(Drop)]
pub struct Replay<'a> {
    script: &'a ReadScript<'a>,
    done: u64,
    /// The register file that these give.
    file: RegFile,
    /// Its map, once a decision needed it.
    map: Option<RunMap>,
}

impl<'a> Model for Replay<'a> {
    ghost use Rattle.pmp_audit.specs.Replay.{Position};

    ghost Value = { Position };

    ghost use Rattle.std.specs.Prelude.{◌≡◌, ◌≤◌, IfSome, length};
    ghost use Rattle.pmp_audit.specs.Replay.{file_at};

    ghost view = { λ r. record { script = r.script.now; done = r.done } };

    ghost invariant = { λ r. (r.done ≤ length r.script.now.batches)
        × (r.file ≡ file_at (record { script = r.script.now; done = r.done }))
        × IfSome r.map (λ map. map ≡ r.file) };
}

impl<'a> Replay<'a> {
    /// Returns the state before the first publication.
    pub fn new(script: &'a ReadScript<'a>) -> Replay<'a>
        ensures { result ≡ record { script = script.now; done = 0 } }
    {
        Replay {
            script,
            done: 0,
            file: script.start(),
            map: None,
        }
    }

    /// Executes publications until the first `count` are done.
    pub fn advance(&mut self, count: u64)
        requires forward { self.old.done ≤ count }
        requires within { count ≤ length self.old.script.batches }
        ensures { self.new ≡ record self.old { done = count } }
    {
        if self.done < count {
            for index in self.done..count {
                self.file.run_events(self.script.batch(index));
            }
            self.done = count;
            self.map = None;
        }
    }

    /// Returns the register file after the publications that are done.
    pub fn file(&self) -> &RegFile
        ensures { result.now ≡ file_at self.now }
    {
        &self.file
    }

    /// Decides an access in that file. Its map is built for the first.
    pub fn decide(&mut self, access: &Access) -> Decision
        ensures by_bytes { IsDecision (file_at self.old) access.now result }
        ensures position { self.new ≡ self.old }
    {
        match &self.map {
            Some(map) => map.decide(&self.file, access),
            None => self.decide_anew(access),
        }
    }

    /// Decides an access in that file, and builds its map. It is out of line because otherwise each decision would
    /// clear the room of a map.
    #[cold]
    #[inline(never)]
    fn decide_anew(&mut self, access: &Access) -> Decision
        ensures by_bytes { IsDecision (file_at self.old) access.now result }
        ensures position { self.new ≡ self.old }
    {
        let map = RunMap::build(&self.file);
        let decision = map.decide(&self.file, access);
        self.map = Some(map);
        decision
    }
}

/// The register file after the first `count` publications.
pub fn file_of(script: &ReadScript, count: u64) -> RegFile
    requires { count ≤ length script.now.batches }
    ensures { result ≡ file_of_script script.now count }
{
    let mut replay = Replay::new(script);
    replay.advance(count);
    *replay.file()
}

/// The register file after the publications of the script that are done then, or after all of them where that is none.
pub fn file_after<L: EventLog>(
    log: &mut L,
    script: &[u8],
    after: Option<When>,
) -> Result<RegFile, Fault>
    ensures ok { IfOk result (λ file. GivesFile script.now after file) }
    ensures err { IfErr result (Declines (FileRefuses script.now after)) }
{
    let script = read_script_in(log, script)?;
    let count = asked_count(&script, after)?;
    Ok(file_of(&script, count))
}

//! The script of a log, line by line.

ghost use Rattle.std.specs.Prelude.{◌≡◌, ◌⊎◌, ◌++◌, ◌∷◌, [], Err, List, ℕ, IfErr, IfOk, OnErr, OnOk, Ok};
ghost use Rattle.pmp_text.specs.declared.refusal.Refusal.TheVariants.{Memory};
ghost use Rattle.pmp_text.specs.Lines.{lines};
ghost use Rattle.pmp_import.specs.Imported.{at, beginning, foreign, head_text, line_fault, line_of};
ghost use Rattle.pmp_import.specs.Steps.{EndsWith, GoesOn, HasGrown, StopsAt, StopsAtEnd};

use crate::fault::at;
use crate::given::{Given, Walk};
use crate::lines::{Head, SaidLines, publish_if};
use crate::said::{Said, Told};
use pmp_text::{Fault, Refusal, Sink, append_line, split_first_line};
use std::alloc::AllocError;

/// The script of a log, made line by line, and appended to a text.
#[derive(Drop)]
pub struct Importer {
    pub given: Given,
    pub walk: Walk,
}

impl Importer {
    /// Returns the state before the first line.
    pub fn new(given: Given) -> Importer
        ensures given { result.given ≡ given }
        ensures walk { result.walk ≡ beginning }
    {
        Importer {
            given,
            walk: Walk::BEGINNING,
        }
    }

    /// Appends the head, or nothing.
    pub fn begin<S: Sink>(&self, out: &mut S) -> Result<(), AllocError>
        ensures ok { OnOk result (S.text out.new ≡ S.text out.old ++ head_text self.now.given) }
        ensures err { OnErr result (S.text out.new ≡ S.text out.old) }
    {
        append_line(out, Head(self.given))
    }

    /// Appends the result of a line, or nothing.
    #[tactic(auto, using(crate::proofs::Readings::goes_line))]
    pub fn take_line<S: Sink>(&mut self, out: &mut S, line: &[u8]) -> Result<(), Fault>
        ensures given { self.new.given ≡ self.old.given }
        ensures ok { OnOk result (GoesOn self.old.given self.old.walk self.new.walk (line.now ∷ [])
            (S.text out.old) (S.text out.new)) }
        ensures err { IfErr result (StopsAt self.old.given self.old.walk (line.now ∷ [])) }
        ensures kept { OnErr result (S.text out.new ≡ S.text out.old) }
    {
        let said = self.read_line(line)?;
        let Importer { given, walk } = *self;
        append_line(out, SaidLines { given, walk, said })?;
        self.walk = walk.behind(given, said);
        Ok(())
    }

    /// Returns what a line says.
    fn read_line(&self, line: &[u8]) -> Result<Said, Fault>
        ensures ok { IfOk result (λ said. line_of self.now.given self.now.walk line.now ≡ Ok said) }
        ensures err { IfErr result (λ fault. (refusal : Refusal) × (fault ≡ at self.now.walk.line refusal)
            × (line_of self.now.given self.now.walk line.now ≡ Err refusal)) }
    {
        let number = self.walk.line;
        let said = match self.given.format.read(line) {
            Ok(said) => said,
            Err(kind) => return Err(at(number, kind)),
        };
        match self.line_fault(said) {
            Some(kind) => Err(at(number, kind)),
            None => Ok(said),
        }
    }

    /// Returns why the hart can't have what a line reports about it.
    fn line_fault(&self, said: Said) -> Option<Refusal>
        ensures { result ≡ line_fault self.now.given self.now.walk said }
    {
        match said {
            Said::Register(told) if self.given.is_of_hart(self.walk, told) => {
                foreign(self.given.is_rv32, &told)
            }
            _ => None,
        }
    }

    /// Appends the results of the lines of a text, up to the first fault.
    pub fn take_lines<S: Sink>(&mut self, out: &mut S, text: &[u8]) -> Result<(), Fault>
        ensures given { self.new.given ≡ self.old.given }
        ensures ok { OnOk result (GoesOn self.old.given self.old.walk self.new.walk (lines text.now)
            (S.text out.old) (S.text out.new)) }
        ensures err { IfErr result (StopsAt self.old.given self.old.walk (lines text.now)) }
        ensures grown { OnErr result (HasGrown (S.text out.old) (S.text out.new)) }
    {
        let mut rest = text;
        while let Some((line, behind)) = split_first_line(rest) {
            self.take_line(out, line)?;
            rest = behind;
        }
        Ok(())
    }

    /// Appends the result of the end of the log, or nothing.
    pub fn end<S: Sink>(&self, out: &mut S) -> Result<(), Fault>
        ensures ok { OnOk result (EndsWith self.now.given self.now.walk (S.text out.old) (S.text out.new)) }
        ensures err { IfErr result (StopsAtEnd self.now.given self.now.walk) }
        ensures kept { OnErr result (S.text out.new ≡ S.text out.old) }
    {
        if !self.walk.is_found {
            return Err(at(0, Refusal::NoHart));
        }
        Ok(append_line(out, publish_if(self.walk.is_open()))?)
    }
}

/// Returns why a hart of this XLEN can't have what a line reports.
fn foreign(is_rv32: bool, told: &Told) -> Option<Refusal>
    ensures { result ≡ foreign is_rv32 told.now }
{
    if is_rv32 && told.value >= 1 << 32 {
        Some(Refusal::BadNumber)
    } else if !is_rv32 && told.is_rv32 {
        Some(Refusal::OddCfg)
    } else {
        None
    }
}

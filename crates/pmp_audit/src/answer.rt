//! Answers that are returned together with a text.

ghost use Rattle.std.specs.Prelude.{◌≡◌, ◌⊎◌, IfOk, IfErr, OnErr, OnOk, Ok, Err};
ghost use Rattle.std.specs.Io.KnownBytes.{Appends, Keeps};
ghost use Rattle.pmp_text.specs.Bytes.{AppendsBeginning};
ghost use Rattle.pmp_audit.specs.LongParts.{items_of};
ghost use Rattle.pmp_text.specs.Outcomes.{no_output};

use pmp_text::{Fault, OutputFault, write_out};
use std::io::Write;

/// Writes the whole text of an answer, and returns the answer. A refusal is returned with nothing written.
pub fn write_answer<W: Write, A: Copy>(
    writer: &mut W,
    text: &[u8],
    made: Result<A, Fault>,
) -> Result<A, Fault>
    ensures ok { IfOk result
        (λ given. (made ≡ Ok given) × Appends (W.contents writer.old) (W.contents writer.new) text.now) }
    ensures err { IfErr result
        (λ fault. ((made ≡ Err fault) × Keeps (W.contents writer.old) (W.contents writer.new))
        ⊎ ((given : A) × (made ≡ Ok given) × (fault ≡ no_output)
        × AppendsBeginning (W.contents writer.old) (W.contents writer.new) text.now)) }
{
    let answer = made?;
    write_out(writer, text)?;
    Ok(answer)
}

/// Writes texts, one after another.
pub fn write_texts<W: Write>(writer: &mut W, texts: &[Vec<u8>]) -> Result<(), OutputFault>
    ensures ok { OnOk result (Appends (W.contents writer.old) (W.contents writer.new) (items_of texts.now)) }
    ensures err { OnErr result
        (AppendsBeginning (W.contents writer.old) (W.contents writer.new) (items_of texts.now)) }
{
    for part in texts {
        write_out(writer, part)?;
    }
    Ok(())
}

//! The records of a trace or a policy, one after another.

ghost use Rattle.std.specs.Prelude.{◌≡◌, ◌∷◌, [], true, false, Ok};
ghost use Rattle.csv.specs.Records.{fields_of};
ghost use Rattle.pmp_text.specs.Steps.Records.{IsReading, records_left};
ghost use Rattle.pmp_text.specs.Tables.{records_of};

use csv::{ByteRecord, Reader, ReaderBuilder};
use std::alloc::{AllocError, Global};
use std::marker::Model;

/// The records of a text. A contract sees the remaining ones, and the fields of the one read last.
#[derive(Drop)]
pub struct Records<'a> {
    reader: Reader<&'a [u8]>,
    fields: ByteRecord,
    /// Whether the last record was read, or a read failed.
    has_ended: bool,
}

impl<'a> Model for Records<'a> {
    ghost use Rattle.std.specs.Prelude.{◌≡◌, [], false, if◌then◌else◌};
    ghost use Rattle.csv.specs.Records.{fields_of};
    ghost use Rattle.pmp_text.specs.Steps.Records.{IsReading, RecordsLeft, records_left};

    ghost Value = { RecordsLeft };

    ghost view = { λ r. record {
      left = if r.has_ended then [] else records_left r.reader;
      fields = fields_of r.fields;
    } };

    ghost invariant = { λ r. r.has_ended ≡ false → IsReading r.reader };
}

impl<'a> Records<'a> {
    /// Returns the records of a whole text. They may differ in length, and none is removed as a header.
    pub fn open(alloc: Global, text: &'a [u8]) -> Records<'a>
        ensures { result.left ≡ records_of text.now }
    {
        let reader = ReaderBuilder::new()
            .has_headers(false)
            .flexible(true)
            .from_reader(alloc, text);
        Records {
            reader,
            fields: ByteRecord::new(alloc),
            has_ended: false,
        }
    }

    /// Begins another text. It is out of line so that rows of a trace needn't clear the room of a reader.
    #[cold]
    #[inline(never)]
    pub(crate) fn reopen(&mut self, alloc: Global, text: &'a [u8])
        ensures { self.new.left ≡ records_of text.now }
    {
        *self = Records::open(alloc, text);
    }

    /// Reads the next record, if there is one, and returns whether there was one. After an error none is left.
    ///
    /// Of the reader's errors only the one of memory can occur, since it reads a slice and takes records of any length.
    pub fn read(&mut self) -> Result<bool, AllocError>
        ensures next { result ≡ Ok true → self.old.left ≡ self.new.fields ∷ self.new.left }
        ensures end { result ≡ Ok false → (self.old.left ≡ []) × (self.new.left ≡ []) }
    {
        if self.has_ended {
            return Ok(false);
        }
        self.has_ended = true;
        let Ok(found) = self.reader.read_byte_record(&mut self.fields) else {
            return Err(AllocError);
        };
        self.has_ended = !found;
        Ok(found)
    }

    /// Returns the fields of the record that was read last.
    pub fn fields(&self) -> &ByteRecord
        ensures { fields_of result.now ≡ self.now.fields }
    {
        &self.fields
    }
}

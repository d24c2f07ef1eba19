// The reader: a cursor over the caller's bytes, which it never copies.
ghost use Rattle.std.specs.Prelude.{◌≡◌};
ghost use Rattle.records.specs.Reading.{Next};

use crate::fault::RecordFault;
use crate::format::{RECORD_BYTES, record_at};
use crate::record::Record;

/// A cursor over the caller's bytes. It may stand anywhere, also within a record or past the end.
#[derive(Clone, Copy)]
pub struct Reader<'a> {
    pub bytes: &'a [u8],
    pub cursor: usize,
}

impl<'a> Reader<'a> {
    pub fn new(bytes: &'a [u8]) -> Reader<'a>
        ensures input { result.bytes ≡ bytes.entry }
        ensures start { result.cursor ≡ 0 }
    {
        Reader { bytes, cursor: 0 }
    }

    /// The record at the cursor, or `None` at the end. Only past a record does the cursor move.
    pub fn next(&mut self) -> Result<Option<Record<'a>>, RecordFault>
        ensures { Next self.old self.new result }
    {
        let found = record_at(self.bytes, self.cursor)?;
        if found.is_some() {
            self.cursor += RECORD_BYTES;
        }
        Ok(found)
    }
}

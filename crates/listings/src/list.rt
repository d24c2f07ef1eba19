// The listing of a whole record file.
ghost use Rattle.std.specs.Prelude.{◌+◌, ◌≤◌, length};
ghost use Rattle.listings.specs.Listing.{lines_of, Listed};
ghost use Rattle.records.specs.Contents.{Holds, contents};
ghost use Rattle.text.specs.Pages.{HasRoom, PutOn};

use crate::lines::{put_counts, put_record};
use records::counts::Counts;
pub use records::limits::{BUFFER_BYTES, INPUT_BYTES};
use records::reader::Reader;
use refusals::Refusal;
use text::page::Page;
use text::refused::put_refused;
use text::room::{TooShort, check_room};

/// Room for the listing of every input.
pub const TEXT_BYTES: usize = 180_000;

/// Writes a line for each record and a closing line, and answers how long the text is.
pub fn list(records: &[u8], text: &mut [u8]) -> Result<usize, Refusal>
    ensures { Listed records.now text.old text.new result }
{
    check_room(text, TEXT_BYTES)?;
    let mut page = Page::new(text);
    if records.len() > INPUT_BYTES {
        put_refused(&mut page, Refusal::LongInput, 0)?;
    } else {
        put_records(&mut page, records)?;
    }
    Ok(page.at)
}

fn put_records(page: &mut Page<'_>, records: &[u8]) -> Result<(), TooShort>
    requires room { HasRoom page.old 180000 }
    requires few { length records.now ≤ 61440 }
    ensures writes { PutOn page.old (lines_of (contents records.now)) page.new result }
    ensures short { length (lines_of (contents records.now)) ≤ 180000 }
    ensures holds { Holds records.now (contents records.now) }
{
    let mut reader = Reader::new(records);
    let mut counts = Counts::none();
    'records: loop {
        match reader.next() {
            Ok(Some(entry)) => {
                put_record(page, &entry)?;
                counts = counts.with(&entry);
            }
            Ok(None) => return put_counts(page, counts),
            Err(fault) => return put_refused(page, fault.into(), counts.bands + counts.names),
        }
    }
}

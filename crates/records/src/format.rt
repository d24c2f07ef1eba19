// One record's twelve bytes, by the format.
ghost use Rattle.std.specs.Prelude.{◌≡◌, ◌+◌, ◌^◌, ◌<◌, ◌≤◌, length, Ok};
ghost use Rattle.records.specs.Format.{byte, number, name_length, wrong_position, band_in, name_in, unless_wrong, record_of};
ghost use Rattle.records.specs.OneRecord.{FirstNonzero, InRecord, ReadAs};
ghost use Rattle.records.specs.Reading.{said, StandsAt};

use crate::fault::RecordFault;
use crate::record::Record;

pub(crate) const RECORD_BYTES: usize = 12;

const BAND: u8 = 0x42;

const NAME: u8 = 0x4E;

/// What stands at `at`: a record, the end, or a fault.
pub(crate) fn record_at(bytes: &[u8], at: usize) -> Result<Option<Record<'_>>, RecordFault>
    ensures { StandsAt bytes.entry at result }
{
    if at >= bytes.len() {
        return Ok(None);
    }
    let left = bytes.len() - at;
    if left < RECORD_BYTES {
        return Err(RecordFault::Partial { bytes: left });
    }
    let found = whole_record(&bytes[at..at + RECORD_BYTES], at)?;
    Ok(Some(found))
}

/// The record in twelve bytes that begin at `at` in the input.
// A slice, here and below: `first_chunk` does not say where its array lies, and a name must be a part of the input.
fn whole_record(bytes: &[u8], at: usize) -> Result<Record<'_>, RecordFault>
    requires whole { length bytes.now ≡ 12 }
    requires within { at + 12 < 2 ^ 64 }
    ensures { ReadAs bytes.entry (record_of bytes.now at) result }
{
    match bytes[0] {
        BAND => band_record(bytes),
        NAME => name_record(bytes, at),
        byte => Err(RecordFault::UnknownKind { byte }),
    }
}

fn band_record(bytes: &[u8]) -> Result<Record<'_>, RecordFault>
    requires whole { length bytes.now ≡ 12 }
    requires band { byte bytes.now 0 ≡ 0x42 }
    ensures { ReadAs bytes.entry (unless_wrong (wrong_position bytes.now) (band_in bytes.now)) result }
{
    if bytes[3] != 0 {
        return Err(RecordFault::WrongByte { position: 3 });
    }
    Ok(band_in(bytes))
}

fn band_in(bytes: &[u8]) -> Record<'_>
    requires { length bytes.now ≡ 12 }
    ensures says { said result ≡ band_in bytes.now }
    ensures in_record { InRecord bytes.entry (Ok result) }
{
    Record::Band {
        source: bytes[1],
        target: bytes[2],
        low: number_at(bytes, 4),
        high: number_at(bytes, 8),
    }
}

fn number_at(bytes: &[u8], p: usize) -> u32
    requires { p + 4 ≤ length bytes.now }
    ensures { result ≡ number bytes.now p }
{
    u32::from_le_bytes(*bytes[p..].first_chunk().unwrap())
}

fn name_record(bytes: &[u8], at: usize) -> Result<Record<'_>, RecordFault>
    requires whole { length bytes.now ≡ 12 }
    requires name { byte bytes.now 0 ≡ 0x4E }
    requires within { at + 12 < 2 ^ 64 }
    ensures { ReadAs bytes.entry (unless_wrong (wrong_position bytes.now) (name_in bytes.now at)) result }
{
    let length = bytes[2];
    if !is_name_length(length) {
        return Err(RecordFault::WrongByte { position: 2 });
    }
    if bytes[3] != 0 {
        return Err(RecordFault::WrongByte { position: 3 });
    }
    let end = 4 + usize::from(length);
    if let Some(position) = first_nonzero(bytes, end) {
        return Err(RecordFault::WrongByte { position });
    }
    Ok(Record::Name {
        state: bytes[1],
        place: at + 4,
        name: &bytes[4..end],
    })
}

fn is_name_length(length: u8) -> bool
    ensures { result ≡ name_length length }
{
    (1..=8).contains(&length)
}

/// The lowest position from `from` on whose byte is not 00.
fn first_nonzero(bytes: &[u8], from: usize) -> Option<usize>
    ensures { FirstNonzero bytes.now from result }
{
    (from..bytes.len()).find(|p| bytes[*p] != 0)
}

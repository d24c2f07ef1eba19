// The reader on whole records, on each fault with its place, and at every kind of cursor.
use crate::counts::Counts;
use crate::fault::RecordFault;
use crate::reader::Reader;
use crate::record::Record;
use refusals::Refusal;
use std::process::Abort;
use std::test::Fail;

const BAND: [u8; 12] = [
    0x42, 1, 2, 0, 0x78, 0x56, 0x34, 0x12, 0xff, 0xff, 0xff, 0xff,
];

const NAME: [u8; 12] = [0x4E, 9, 3, 0, 0x61, 0, 0xff, 0, 0, 0, 0, 0];

fn fault_in(bytes: &[u8]) -> Option<RecordFault> {
    Reader::new(bytes).next().err()
}

#[test]
fn an_empty_input_has_no_record(rt: HostRuntime) -> Result<(), Fail> {
    let mut reader = Reader::new(&[]);
    assert!(rt; reader.next()?.is_none());
    assert_eq!(rt; reader.cursor, 0);
    Ok(())
}

#[test]
fn a_band_has_its_least_significant_byte_first(rt: HostRuntime) -> Result<(), Fail> {
    let mut reader = Reader::new(&BAND);
    let Some(
        Record::Band {
            source,
            target,
            low,
            high,
        },
    ) = reader.next()?
    else {
        return Err(Fail::new("no band"));
    };
    assert_eq!(rt; source, 1);
    assert_eq!(rt; target, 2);
    assert_eq!(rt; low, 0x1234_5678);
    assert_eq!(rt; high, 0xffff_ffff);
    assert_eq!(rt; reader.cursor, 12);
    assert!(rt; reader.next()?.is_none());
    assert_eq!(rt; reader.cursor, 12);
    Ok(())
}

#[test]
fn a_name_is_a_part_of_the_input(rt: HostRuntime) -> Result<(), Fail> {
    let mut bytes = [0u8; 24];
    bytes[0..12].copy_from_slice(&BAND);
    bytes[12..24].copy_from_slice(&NAME);
    let mut reader = Reader::new(&bytes);
    assert!(rt; reader.next()?.is_some());
    let Some(Record::Name { state, place, name }) = reader.next()? else {
        return Err(Fail::new("no name"));
    };
    assert_eq!(rt; state, 9);
    assert_eq!(rt; place, 16);
    assert!(rt; name == &bytes[16..19]);
    assert_eq!(rt; reader.cursor, 24);
    Ok(())
}

#[test]
fn a_name_has_one_to_eight_bytes(rt: HostRuntime) -> Result<(), Fail> {
    for length in 1..9 {
        let mut bytes = [0u8; 12];
        bytes[0] = 0x4E;
        bytes[2] = length;
        let mut reader = Reader::new(&bytes);
        let Some(Record::Name { name, .. }) = reader.next()? else {
            return Err(Fail::new("no name"));
        };
        assert_eq!(rt; name.len(), usize::from(length));
    }
    Ok(())
}

#[test]
fn bytes_after_the_last_record_are_counted(rt: HostRuntime) {
    for count in 1..12 {
        // The first of them would be no record's: the count comes first.
        let bytes = [0u8; 11];
        let fault = RecordFault::Partial { bytes: count };
        assert_eq!(rt; fault_in(&bytes[0..count]), Some(fault));
    }
}

#[test]
fn every_other_first_byte_is_no_kind(rt: HostRuntime) {
    for byte in 0..=255u8 {
        // Byte 3 is wrong too: the kind comes first.
        let bytes = [byte, 0, 0, 7, 0, 0, 0, 0, 0, 0, 0, 0];
        let fault = match byte {
            0x42 => RecordFault::WrongByte { position: 3 },
            0x4E => RecordFault::WrongByte { position: 2 },
            _ => RecordFault::UnknownKind { byte },
        };
        assert_eq!(rt; fault_in(&bytes), Some(fault));
    }
}

#[test]
fn a_band_is_wrong_only_at_byte_3(rt: HostRuntime) {
    for position in 1..12 {
        let mut bytes = BAND;
        bytes[position] = 0x80;
        let fault = (position == 3).then_some(RecordFault::WrongByte { position });
        assert_eq!(rt; fault_in(&bytes), fault);
    }
}

#[test]
fn a_wrong_name_length_is_below_every_filler(rt: HostRuntime) {
    for length in [0u8, 9, 10, 255] {
        let bytes = [0x4E, 0, length, 1, 1, 1, 1, 1, 1, 1, 1, 1];
        let fault = RecordFault::WrongByte { position: 2 };
        assert_eq!(rt; fault_in(&bytes), Some(fault));
    }
}

/// Sees the fault in names of this length with bytes of 01 at a position and at 11.
fn lowest_counts(rt: &impl Abort, length: u8) {
    for wrong in 1..12 {
        let mut bytes = [0u8; 12];
        bytes[0] = 0x4E;
        bytes[wrong] = 1;
        bytes[11] = 1;
        bytes[2] = length;
        let filler = wrong == 3 || wrong >= 4 + usize::from(length);
        let lowest = if filler {
            Some(wrong)
        } else {
            (length < 8).then_some(11)
        };
        let fault = lowest.map(|position| RecordFault::WrongByte { position });
        assert_eq!(rt; fault_in(&bytes), fault);
    }
}

#[test]
fn the_lowest_wrong_filler_counts(rt: HostRuntime) {
    for length in 1..9 {
        lowest_counts(&rt, length);
    }
}

#[test]
fn a_fault_leaves_the_cursor_and_comes_again(rt: HostRuntime) -> Result<(), Fail> {
    let mut bytes = [0u8; 24];
    bytes[0..12].copy_from_slice(&BAND);
    let mut reader = Reader::new(&bytes);
    assert!(rt; reader.next()?.is_some());
    for _ in 0..2 {
        assert!(rt; reader.next().is_err());
        assert_eq!(rt; reader.cursor, 12);
    }
    Ok(())
}

#[test]
fn a_cursor_may_stand_anywhere(rt: HostRuntime) -> Result<(), Fail> {
    let mut bytes = [0u8; 14];
    bytes[1..13].copy_from_slice(&BAND);
    let mut inside = Reader {
        bytes: &bytes,
        cursor: 1,
    };
    assert!(rt; inside.next()?.is_some());
    assert_eq!(rt; inside.cursor, 13);
    assert!(rt; inside.next().is_err());
    for cursor in [14usize, 15, 18_446_744_073_709_551_615] {
        let mut past = Reader {
            bytes: &bytes,
            cursor,
        };
        assert!(rt; past.next()?.is_none());
        assert_eq!(rt; past.cursor, cursor);
    }
    Ok(())
}

#[test]
fn counts_go_by_kind(rt: HostRuntime) -> Result<(), Fail> {
    let mut bytes = [0u8; 36];
    bytes[0..12].copy_from_slice(&BAND);
    bytes[12..24].copy_from_slice(&NAME);
    bytes[24..36].copy_from_slice(&BAND);
    let mut reader = Reader::new(&bytes);
    let mut counts = Counts::none();
    for _ in 0..3 {
        let Some(entry) = reader.next()? else {
            return Err(Fail::new("no record"));
        };
        counts = counts.with(&entry);
    }
    assert_eq!(rt; counts, Counts { bands: 2, names: 1 });
    Ok(())
}

#[test]
fn a_count_stops_at_the_largest_number(rt: HostRuntime) -> Result<(), Fail> {
    let full = Counts {
        bands: usize::MAX,
        names: 0,
    };
    let mut reader = Reader::new(&BAND);
    let Some(entry) = reader.next()? else {
        return Err(Fail::new("no record"));
    };
    assert_eq!(rt; full.with(&entry), full);
    Ok(())
}

#[test]
fn a_fault_is_its_refusal(rt: HostRuntime) {
    let partial: Refusal = RecordFault::Partial { bytes: 11 }.into();
    assert_eq!(rt; partial, Refusal::PartialRecord { bytes: 11 });
    let unknown: Refusal = RecordFault::UnknownKind { byte: 255 }.into();
    assert_eq!(rt; unknown, Refusal::UnknownRecord { byte: 255 });
    let wrong: Refusal = RecordFault::WrongByte { position: 2 }.into();
    assert_eq!(rt; wrong, Refusal::WrongByte { position: 2 });
}

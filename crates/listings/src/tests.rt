// The listing of whole inputs: each closing line, the longest input, and a text that is too short.
use crate::list::{INPUT_BYTES, TEXT_BYTES, list};
use refusals::Refusal;
use std::process::Abort;
use std::test::Fail;

const BAND: [u8; 12] = [0x42, 1, 255, 0, 0, 0, 0, 0, 0xff, 0xff, 0xff, 0xff];

const NAME: [u8; 12] = [0x4E, 9, 3, 0, 0x61, 0, 0xff, 0, 0, 0, 0, 0];

/// Lists `records` over a text of `#`, and sees that `lines` come out and that what follows stays.
fn lists(rt: &impl Abort, records: &[u8], lines: &[u8]) -> Result<(), Fail> {
    let mut text = [b'#'; TEXT_BYTES];
    let end = list(records, &mut text)?;
    assert!(rt; end < text.len());
    assert!(rt; &text[0..end] == lines);
    assert!(rt; untouched(&text[end..]));
    Ok(())
}

#[test]
fn an_empty_input_has_a_closing_line(rt: HostRuntime) -> Result<(), Fail> {
    lists(&rt, &[], b"0 bands, 0 names\n")
}

#[test]
fn records_are_listed_in_order(rt: HostRuntime) -> Result<(), Fail> {
    let mut records = [0u8; 36];
    records[0..12].copy_from_slice(&BAND);
    records[12..24].copy_from_slice(&NAME);
    records[24..36].copy_from_slice(&BAND);
    lists(
        &rt,
        &records,
        b"band 1 255 0 4294967295\nname 9 6100FF\nband 1 255 0 4294967295\n2 bands, 1 names\n",
    )
}

#[test]
fn a_fault_comes_after_the_records_before_it(rt: HostRuntime) -> Result<(), Fail> {
    let mut records = [0u8; 24];
    records[0..12].copy_from_slice(&BAND);
    lists(
        &rt,
        &records[0..19],
        b"band 1 255 0 4294967295\nrefused 4 record 1 place 7\n",
    )?;
    lists(
        &rt,
        &records,
        b"band 1 255 0 4294967295\nrefused 5 record 1 place 0\n",
    )?;
    records[12..24].copy_from_slice(&NAME);
    records[23] = 1;
    lists(
        &rt,
        &records,
        b"band 1 255 0 4294967295\nrefused 6 record 1 place 11\n",
    )
}

#[test]
fn a_fault_comes_after_a_band_and_a_name(rt: HostRuntime) -> Result<(), Fail> {
    let mut records = [0u8; 36];
    records[0..12].copy_from_slice(&BAND);
    records[12..24].copy_from_slice(&NAME);
    lists(
        &rt,
        &records[0..31],
        b"band 1 255 0 4294967295\nname 9 6100FF\nrefused 4 record 2 place 7\n",
    )?;
    lists(
        &rt,
        &records,
        b"band 1 255 0 4294967295\nname 9 6100FF\nrefused 5 record 2 place 0\n",
    )?;
    records[24..36].copy_from_slice(&NAME);
    records[35] = 1;
    lists(
        &rt,
        &records,
        b"band 1 255 0 4294967295\nname 9 6100FF\nrefused 6 record 2 place 11\n",
    )
}

/// Makes of every twelve bytes the band with the longest line.
fn fill_bands(records: &mut [u8]) {
    for record in records.chunks_exact_mut(12) {
        record[0] = 0x42;
        record[3] = 0;
    }
}

#[test]
fn the_longest_listing_fits(rt: HostRuntime) -> Result<(), Fail> {
    let mut records = [0xffu8; INPUT_BYTES];
    fill_bands(&mut records);
    let mut text = [b'#'; TEXT_BYTES];
    let end = list(&records, &mut text)?;
    assert_eq!(rt; end, 5_120 * 35 + 20);
    assert!(rt; end > 55 && end < text.len());
    let lines = b"band 255 255 4294967295 4294967295\n5120 bands, 0 names\n";
    assert!(rt; &text[end - 55..end] == lines.as_slice());
    Ok(())
}

#[test]
fn one_byte_more_is_refused(rt: HostRuntime) -> Result<(), Fail> {
    let mut records = [0xffu8; INPUT_BYTES + 1];
    fill_bands(&mut records);
    lists(&rt, &records, b"refused 8 record 0 place 0\n")
}

/// Whether every byte is still `#`.
fn untouched(bytes: &[u8]) -> bool {
    bytes.iter().all(|byte| *byte == b'#')
}

#[test]
fn a_short_text_is_refused_and_left(rt: HostRuntime) {
    let mut text = [b'#'; TEXT_BYTES - 1];
    let need = Refusal::ShortList { need: 180_000 };
    assert_eq!(rt; list(&[], &mut text), Err(need));
    assert!(rt; untouched(&text));
    assert_eq!(rt; list(&[], &mut []), Err(need));
}

#[test]
fn a_longer_text_is_left_past_the_listing(rt: HostRuntime) {
    let mut text = [b'#'; TEXT_BYTES + 1];
    assert_eq!(rt; list(&[], &mut text), Ok(17));
    assert!(rt; &text[0..17] == b"0 bands, 0 names\n".as_slice());
    assert!(rt; untouched(&text[17..]));
}

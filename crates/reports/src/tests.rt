// The report on whole inputs: a line for each state, the line of each refusal, and what the places and a short text then hold.
use crate::report::{INPUT_BYTES, TEXT_BYTES, report};
use amounts::shares::Share;
use refusals::Refusal;
use std::process::Abort;
use std::test::Fail;
use tables::band::Band;

/// A place before it is used.
const UNUSED: Band<Share> = Band {
    source: 9,
    target: 9,
    low: Share { number: 9 },
    high: Share { number: 9 },
};

/// State 0 passes all to state 1.
const ALL_TO_1: [u8; 12] = [0x42, 0, 1, 0, 0, 0, 0x10, 0, 0, 0, 0x10, 0];

/// State 1 keeps all to itself.
const KEPT_BY_1: [u8; 12] = [0x42, 1, 1, 0, 0, 0, 0x10, 0, 0, 0, 0x10, 0];

/// State 2 has a name of one byte.
const NAME_OF_2: [u8; 12] = [0x4E, 2, 1, 0, 0x61, 0, 0, 0, 0, 0, 0, 0];

/// Reports over two band places and three rank places, and sees that `lines` come out and that the text after them stays.
fn reports(rt: &impl Abort, records: &[u8], lines: &[u8]) -> Result<(), Fail> {
    let mut bands = [UNUSED; 2];
    let mut ranks = [9u16; 3];
    let mut text = [b'#'; TEXT_BYTES];
    let end = report(records, &mut bands, &mut ranks, &mut text)?;
    assert!(rt; end < text.len());
    assert!(rt; &text[0..end] == lines);
    assert!(rt; untouched(&text[end..]));
    Ok(())
}

/// Whether every byte is still `#`.
fn untouched(bytes: &[u8]) -> bool {
    bytes.iter().all(|byte| *byte == b'#')
}

/// A record with one byte changed.
fn changed(record: [u8; 12], at: usize, byte: u8) -> [u8; 12] {
    let mut changed = record;
    if at < changed.len() {
        changed[at] = byte;
    }
    changed
}

#[test]
fn without_records_there_is_one_state(rt: HostRuntime) -> Result<(), Fail> {
    reports(&rt, &[], b"0 1\nremoved 1 of 1 in 1 rounds\n")
}

#[test]
fn a_state_falls_after_the_one_that_it_leans_on(rt: HostRuntime) -> Result<(), Fail> {
    reports(&rt, &ALL_TO_1, b"0 2\n1 1\nremoved 2 of 2 in 2 rounds\n")
}

#[test]
fn states_that_can_be_used_stand(rt: HostRuntime) -> Result<(), Fail> {
    reports(
        &rt,
        [ALL_TO_1, KEPT_BY_1].as_flattened(),
        b"0 stands\n1 stands\nremoved 0 of 2 in 0 rounds\n",
    )
}

#[test]
fn a_named_state_is_a_state(rt: HostRuntime) -> Result<(), Fail> {
    reports(
        &rt,
        [KEPT_BY_1, NAME_OF_2].as_flattened(),
        b"0 1\n1 stands\n2 1\nremoved 2 of 3 in 1 rounds\n",
    )
}

#[test]
fn a_fault_of_the_reader_is_the_only_line(rt: HostRuntime) -> Result<(), Fail> {
    let records = [ALL_TO_1, KEPT_BY_1];
    reports(
        &rt,
        &records.as_flattened()[..19],
        b"refused 4 record 1 place 7\n",
    )?;
    let unknown = [ALL_TO_1, changed(KEPT_BY_1, 0, 0)];
    reports(&rt, unknown.as_flattened(), b"refused 5 record 1 place 0\n")?;
    let wrong = [ALL_TO_1, changed(NAME_OF_2, 11, 1)];
    reports(&rt, wrong.as_flattened(), b"refused 6 record 1 place 11\n")
}

#[test]
fn a_bound_past_full_is_the_only_line(rt: HostRuntime) -> Result<(), Fail> {
    let low = [KEPT_BY_1, changed(ALL_TO_1, 4, 1)];
    reports(&rt, low.as_flattened(), b"refused 3 record 1 place 0\n")?;
    let high = [KEPT_BY_1, changed(ALL_TO_1, 8, 1)];
    reports(&rt, high.as_flattened(), b"refused 3 record 1 place 1\n")
}

#[test]
fn a_state_after_a_fault_of_the_reader_is_not_counted(rt: HostRuntime) -> Result<(), Fail> {
    // With state 4 there would be too many states for the rank places, and that would come first.
    let records = [changed(ALL_TO_1, 0, 0), changed(ALL_TO_1, 2, 4)];
    reports(&rt, records.as_flattened(), b"refused 5 record 0 place 0\n")
}

#[test]
fn places_that_do_not_suffice_are_told(rt: HostRuntime) -> Result<(), Fail> {
    let states = [ALL_TO_1, changed(NAME_OF_2, 1, 3)];
    reports(&rt, states.as_flattened(), b"refused 1 record 0 place 4\n")?;
    let bands = [ALL_TO_1, KEPT_BY_1, changed(KEPT_BY_1, 2, 0)];
    reports(&rt, bands.as_flattened(), b"refused 13 record 2 place 0\n")
}

#[test]
fn one_byte_more_is_refused(rt: HostRuntime) -> Result<(), Fail> {
    let records = [0u8; INPUT_BYTES + 1];
    reports(&rt, &records, b"refused 8 record 0 place 0\n")
}

#[test]
fn the_places_hold_the_bands_and_the_ranks(rt: HostRuntime) -> Result<(), Fail> {
    let mut bands = [UNUSED; 2];
    let mut ranks = [9u16; 3];
    let mut text = [b'#'; TEXT_BYTES];
    report(&ALL_TO_1, &mut bands, &mut ranks, &mut text)?;
    assert_eq!(rt; (bands[0].source, bands[0].target), (0, 1));
    assert_eq!(rt;
        (bands[0].low.number, bands[0].high.number),
        (1_048_576, 1_048_576)
    );
    assert_eq!(rt; (ranks[0], ranks[1]), (2, 1));
    Ok(())
}

#[test]
fn a_short_text_is_refused_and_all_is_left(rt: HostRuntime) {
    let mut bands = [UNUSED; 2];
    let mut ranks = [9u16; 3];
    let mut text = [b'#'; TEXT_BYTES - 1];
    let need = Refusal::ShortList { need: 4_096 };
    assert_eq!(rt;
        report(&ALL_TO_1, &mut bands, &mut ranks, &mut text),
        Err(need)
    );
    assert!(rt; untouched(&text));
    assert!(rt; ranks.iter().all(|rank| *rank == 9));
    assert_eq!(rt; (bands[0].source, bands[1].source), (9, 9));
}

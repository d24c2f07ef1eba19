// Tables loaded from record bytes: as by sets, each fault with its index and layer, and when a load makes a verdict lapse.
use crate::helpers::*;
use records::counts::Counts;
use records::fault::RecordFault;
use refusals::{Bound, Refusal};
use std::process::Abort;
use std::test::Fail;
use tables::load::LoadFault;
use tables::table::Table;
use theory::reason::Reason;

const SHORT: Fate = Some((1, Reason::ShortOfFull));

/// The record of a name of three bytes, of state 1.
const NAME: [u8; 12] = [0x4E, 1, 3, 0, 0x61, 0x62, 0x63, 0, 0, 0, 0, 0];

/// Loads three records into a table of three states.
fn load_three(
    rt: &impl Abort,
    records: [[u8; 12]; 3],
    answer: Result<Counts, LoadFault>,
    fates: &[Fate; 3],
) -> Result<(), Fail> {
    let mut band_places = [UNUSED; 2];
    let mut rank_places = [9u16; 3];
    let mut table = Table::open(&mut band_places, &mut rank_places);
    table.size(3, 0)?;
    assert_eq!(rt; table.load(records.as_flattened()), answer);
    table.check()?;
    fates_are(rt, &table, fates)
}

fn at_table(index: usize, refusal: Refusal) -> Result<Counts, LoadFault> {
    Err(LoadFault::Table { index, refusal })
}

fn at_records(index: usize, fault: RecordFault) -> Result<Counts, LoadFault> {
    Err(LoadFault::Records { index, fault })
}

#[test]
fn records_are_set_in_order(rt: HostRuntime) -> Result<(), Fail> {
    // The second band of a pair takes the place of the first.
    let records = [
        record((0, 0, 0, 1)),
        record((0, 0, FULL, FULL)),
        record((1, 1, 0, FULL)),
    ];
    let counts = Counts { bands: 3, names: 0 };
    load_three(&rt, records, Ok(counts), &[None, None, SHORT])
}

#[test]
fn a_name_is_counted_and_not_kept(rt: HostRuntime) -> Result<(), Fail> {
    let records = [record((0, 0, FULL, FULL)), NAME, record((1, 1, FULL, FULL))];
    let counts = Counts { bands: 2, names: 1 };
    load_three(&rt, records, Ok(counts), &[None, None, SHORT])
}

#[test]
fn a_state_past_the_table_stops_a_load(rt: HostRuntime) -> Result<(), Fail> {
    let first = record((0, 0, FULL, FULL));
    let no_source = Refusal::NoSuchState { position: 0 };
    let no_target = Refusal::NoSuchState { position: 1 };
    let mut name = NAME;
    name[1] = 3;
    // The record before the fault stays accepted.
    let fates = [None, SHORT, SHORT];
    load_three(
        &rt,
        [first, record((3, 3, 0, 1)), first],
        at_table(1, no_source),
        &fates,
    )?;
    load_three(
        &rt,
        [first, first, record((2, 3, 0, 1))],
        at_table(2, no_target),
        &fates,
    )?;
    load_three(&rt, [first, name, first], at_table(1, no_source), &fates)
}

#[test]
fn a_number_past_full_stops_a_load(rt: HostRuntime) -> Result<(), Fail> {
    let first = record((0, 0, FULL, FULL));
    let over = FULL + 1;
    let no_low = Refusal::NoAmount { bound: Bound::Low };
    let no_high = Refusal::NoAmount { bound: Bound::High };
    let no_source = Refusal::NoSuchState { position: 0 };
    let fates = [None, SHORT, SHORT];
    load_three(
        &rt,
        [first, record((1, 1, over, over)), first],
        at_table(1, no_low),
        &fates,
    )?;
    load_three(
        &rt,
        [first, record((1, 1, 0, over)), first],
        at_table(1, no_high),
        &fates,
    )?;
    // The state is looked at first.
    load_three(
        &rt,
        [first, record((3, 1, over, over)), first],
        at_table(1, no_source),
        &fates,
    )
}

#[test]
fn a_full_table_stops_a_load(rt: HostRuntime) -> Result<(), Fail> {
    let records = [
        record((0, 0, FULL, FULL)),
        record((1, 1, FULL, FULL)),
        record((2, 2, FULL, FULL)),
    ];
    load_three(
        &rt,
        records,
        at_table(2, Refusal::NoFreePlace),
        &[None, None, SHORT],
    )
}

#[test]
fn a_fault_of_the_reader_stops_a_load(rt: HostRuntime) -> Result<(), Fail> {
    let first = record((0, 0, FULL, FULL));
    let fates = [None, SHORT, SHORT];
    // The table would refuse this record too: the reader comes first.
    let mut unknown = record((3, 3, 0, 1));
    unknown[0] = 0x43;
    let kind = RecordFault::UnknownKind { byte: 0x43 };
    load_three(&rt, [first, unknown, first], at_records(1, kind), &fates)?;
    let mut wrong = record((3, 3, 0, 1));
    wrong[3] = 1;
    let position = RecordFault::WrongByte { position: 3 };
    load_three(&rt, [first, wrong, first], at_records(1, position), &fates)
}

#[test]
fn bytes_after_the_last_record_stop_a_load(rt: HostRuntime) -> Result<(), Fail> {
    let mut band_places = [UNUSED; 1];
    let mut rank_places = [9u16; 1];
    let mut table = Table::open(&mut band_places, &mut rank_places);
    table.size(1, 0)?;
    let partial = RecordFault::Partial { bytes: 11 };
    assert_eq!(rt;
        table.load(&record((0, 0, 1, 1))[0..11]),
        at_records(0, partial)
    );
    assert_eq!(rt; table.load(&[]), Ok(Counts { bands: 0, names: 0 }));
    Ok(())
}

#[test]
fn without_states_nothing_is_read(rt: HostRuntime) {
    let mut band_places = [UNUSED; 1];
    let mut rank_places = [9u16; 1];
    let mut table = Table::open(&mut band_places, &mut rank_places);
    // The bytes are no record.
    assert_eq!(rt; table.load(&[0; 5]), at_table(0, Refusal::NoStates));
}

/// Makes the falling table and loads into it. Whether its verdict is still in force is seen.
fn keeps_verdict(rt: &impl Abort, bytes: &[u8], kept: bool) -> Result<(), Fail> {
    let mut band_places = [UNUSED; 4];
    let mut rank_places = [9u16; 3];
    let mut table = Table::open(&mut band_places, &mut rank_places);
    make_falling(rt, &mut table)?;
    let _ = table.load(bytes);
    if kept {
        return fates_are(rt, &table, &FALLING_FATES);
    }
    has_no_verdict(rt, &table);
    Ok(())
}

#[test]
fn a_verdict_lapses_at_a_loaded_band(rt: HostRuntime) -> Result<(), Fail> {
    keeps_verdict(&rt, &record((0, 1, 262_144, 524_288)), false)?;
    keeps_verdict(&rt, &[], true)?;
    keeps_verdict(&rt, &NAME, true)?;
    keeps_verdict(&rt, &record((3, 0, 0, 1)), true)?;
    keeps_verdict(&rt, &record((0, 1, 262_144, 524_288))[0..11], true)
}

// Tables of a few states, each with its verdict, and the rank and reason of every state, worked out by hand.
use crate::helpers::*;
use amounts::bounds::Bounds;
use amounts::grades::Grade;
use amounts::record_number::RecordNumber;
use refusals::{Bound, Refusal};
use std::process::Abort;
use std::test::Fail;
use tables::band::Band;
use tables::table::Table;
use theory::reason::Reason;

const SHORT: Fate = Some((1, Reason::ShortOfFull));

const OVER: Fate = Some((1, Reason::OverFull));

/// Sees what a check finds in a table with start 0 and these bands, set and loaded, and the fate of every state.
fn judged(
    rt: &impl Abort,
    bands: &[Given],
    found: (usize, usize),
    fates: &[Fate],
) -> Result<(), Fail> {
    let mut band_places = [UNUSED; 8];
    let mut rank_places = [9u16; 4];
    let mut table = Table::open(&mut band_places, &mut rank_places);
    table.size(fates.len(), 0)?;
    set_all(&mut table, bands)?;
    let start = fates.first().and_then(|fate| fate.map(|(rank, _)| rank));
    check_finds(rt, &mut table, (fates.len(), found.0, found.1, start))?;
    fates_are(rt, &table, fates)?;
    table.size(fates.len(), 0)?;
    load_all(&mut table, bands)?;
    check_finds(rt, &mut table, (fates.len(), found.0, found.1, start))?;
    fates_are(rt, &table, fates)
}

/// A low and a high of some kind of amount, from their numbers.
fn bounds<K: RecordNumber>((low, high): (u32, u32)) -> Result<Bounds<K>, Refusal> {
    let low = K::from_number(low).ok_or(Refusal::NoAmount { bound: Bound::Low })?;
    let high = K::from_number(high).ok_or(Refusal::NoAmount { bound: Bound::High })?;
    Ok(Bounds { low, high })
}

/// Sees that state 0 has this fate with these two bands, to states 1 and 2, which pass all to themselves and so stand.
// The table is lent from outside: the check cannot tell that an array of bands of an unknown kind fits in memory.
fn on_two<K: RecordNumber>(
    rt: &impl Abort,
    table: &mut Table<'_, K>,
    full: u32,
    to_1: (u32, u32),
    to_2: (u32, u32),
    fate: Fate,
) -> Result<(), Fail> {
    let to_1 = bounds::<K>(to_1)?;
    let to_2 = bounds::<K>(to_2)?;
    let all = bounds::<K>((full, full))?;
    table.size(3, 0)?;
    table.set(0, 1, to_1.low, to_1.high)?;
    table.set(0, 2, to_2.low, to_2.high)?;
    table.set(1, 1, all.low, all.high)?;
    table.set(2, 2, all.low, all.high)?;
    let fell = usize::from(fate.is_some());
    let start = fate.map(|(rank, _)| rank);
    check_finds(rt, table, (3, fell, fell, start))?;
    fates_are(rt, table, &[fate, None, None])
}

/// The same with shares, which add up, set and loaded.
fn judged_on_two(
    rt: &impl Abort,
    to_1: (u32, u32),
    to_2: (u32, u32),
    fate: Fate,
) -> Result<(), Fail> {
    let mut band_places = [UNUSED; 8];
    let mut rank_places = [9u16; 4];
    let mut table = Table::open(&mut band_places, &mut rank_places);
    on_two(rt, &mut table, FULL, to_1, to_2, fate)?;
    let bands = [
        (0, 1, to_1.0, to_1.1),
        (0, 2, to_2.0, to_2.1),
        (1, 1, FULL, FULL),
        (2, 2, FULL, FULL),
    ];
    let found = if fate.is_some() { (1, 1) } else { (0, 0) };
    judged(rt, &bands, found, &[fate, None, None])
}

#[test]
fn a_state_falls_after_the_one_it_leans_on(rt: HostRuntime) -> Result<(), Fail> {
    judged(&rt, &FALLING, (2, 2), &FALLING_FATES)
}

#[test]
fn a_higher_high_keeps_a_state(rt: HostRuntime) -> Result<(), Fail> {
    let mut bands = FALLING;
    bands[0] = (0, 1, 262_144, FULL);
    judged(&rt, &bands, (1, 1), &[None, None, SHORT])
}

#[test]
fn any_state_may_be_the_start(rt: HostRuntime) -> Result<(), Fail> {
    let mut band_places = [UNUSED; 4];
    let mut rank_places = [9u16; 3];
    let mut table = Table::open(&mut band_places, &mut rank_places);
    for (start, rank) in [(0, Some(2)), (1, None), (2, Some(1))] {
        table.size(3, start)?;
        set_all(&mut table, &FALLING)?;
        check_finds(&rt, &mut table, (3, 2, 2, rank))?;
        fates_are(&rt, &table, &FALLING_FATES)?;
    }
    Ok(())
}

#[test]
fn a_state_without_bands_falls(rt: HostRuntime) -> Result<(), Fail> {
    judged(&rt, &[], (1, 1), &[SHORT])
}

#[test]
fn states_without_bands_fall_together(rt: HostRuntime) -> Result<(), Fail> {
    judged(&rt, &[], (4, 1), &[SHORT, SHORT, SHORT, SHORT])
}

#[test]
fn a_state_that_keeps_all_to_itself_stands(rt: HostRuntime) -> Result<(), Fail> {
    judged(&rt, &[(0, 0, FULL, FULL)], (0, 0), &[None])
}

#[test]
fn a_line_falls_from_its_end(rt: HostRuntime) -> Result<(), Fail> {
    judged(
        &rt,
        &[(0, 1, FULL, FULL), (1, 2, FULL, FULL)],
        (3, 3),
        &[
            Some((3, Reason::Lost { target: 1 })),
            Some((2, Reason::Lost { target: 2 })),
            SHORT,
        ],
    )
}

#[test]
fn a_ring_stands(rt: HostRuntime) -> Result<(), Fail> {
    judged(
        &rt,
        &[(0, 1, FULL, FULL), (1, 2, FULL, FULL), (2, 0, FULL, FULL)],
        (0, 0),
        &[None, None, None],
    )
}

#[test]
fn a_band_down_to_nothing_need_not_be_used(rt: HostRuntime) -> Result<(), Fail> {
    judged_on_two(&rt, (FULL, FULL), (0, FULL), None)
}

#[test]
fn highs_must_come_to_full(rt: HostRuntime) -> Result<(), Fail> {
    judged_on_two(&rt, (0, 600_000), (0, 600_000), None)?;
    judged_on_two(&rt, (0, 524_288), (0, 524_288), None)?;
    judged_on_two(&rt, (0, 524_287), (0, 524_288), SHORT)?;
    judged_on_two(&rt, (0, 524_288), (0, 524_287), SHORT)?;
    judged_on_two(&rt, (0, FULL), (0, FULL), None)
}

#[test]
fn lows_must_come_to_full_at_most(rt: HostRuntime) -> Result<(), Fail> {
    judged_on_two(&rt, (524_288, FULL), (524_288, FULL), None)?;
    judged_on_two(&rt, (524_288, FULL), (524_289, FULL), OVER)?;
    judged_on_two(&rt, (FULL, FULL), (1, 1), OVER)?;
    judged_on_two(&rt, (1, 1), (FULL, FULL), OVER)
}

#[test]
fn a_low_above_its_high_is_crossed(rt: HostRuntime) -> Result<(), Fail> {
    let at_1 = Some((1, Reason::Crossed { target: 1 }));
    let at_2 = Some((1, Reason::Crossed { target: 2 }));
    judged(
        &rt,
        &[(0, 1, 5, 3), (1, 1, FULL, FULL)],
        (1, 1),
        &[at_1, None],
    )?;
    judged_on_two(&rt, (5, 3), (0, FULL), at_1)?;
    judged_on_two(&rt, (0, FULL), (5, 3), at_2)?;
    // The lowest target counts.
    judged_on_two(&rt, (1, 0), (5, 3), at_1)?;
    // Over full is looked for after it, and so is short of full, as in the first table.
    judged_on_two(&rt, (FULL, FULL), (FULL, 1), at_2)
}

#[test]
fn a_low_to_a_fallen_state_is_lost(rt: HostRuntime) -> Result<(), Fail> {
    let mut bands = FALLING;
    bands[1] = (0, 2, 1, FULL);
    let lost = Some((2, Reason::Lost { target: 2 }));
    judged(&rt, &bands, (2, 2), &[lost, None, SHORT])
}

#[test]
fn the_lowest_lost_target_counts(rt: HostRuntime) -> Result<(), Fail> {
    let mut bands = [
        (0, 1, 1, FULL),
        (0, 2, 1, FULL),
        (0, 3, 0, FULL),
        (3, 3, FULL, FULL),
    ];
    let lost = Some((2, Reason::Lost { target: 1 }));
    judged(&rt, &bands, (3, 2), &[lost, SHORT, SHORT, None])?;
    // A fallen target whose low is nothing is not lost.
    bands[0] = (0, 1, 0, FULL);
    let lost = Some((2, Reason::Lost { target: 2 }));
    judged(&rt, &bands, (3, 2), &[lost, SHORT, SHORT, None])?;
    bands[1] = (0, 2, 0, FULL);
    judged(&rt, &bands, (2, 1), &[None, SHORT, SHORT, None])
}

#[test]
fn a_state_may_lose_itself_to_no_one(rt: HostRuntime) -> Result<(), Fail> {
    // State 0 is among the states that it leans on, up to the round in which it falls.
    judged(
        &rt,
        &[(0, 0, 1, 524_288), (0, 1, 0, 524_288)],
        (2, 2),
        &[Some((2, Reason::ShortOfFull)), SHORT],
    )
}

#[test]
fn all_to_two_states_is_over_full_in_shares(rt: HostRuntime) -> Result<(), Fail> {
    judged_on_two(&rt, (FULL, FULL), (FULL, FULL), OVER)
}

/// The same with grades, where the larger counts.
fn graded_on_two(
    rt: &impl Abort,
    to_1: (u32, u32),
    to_2: (u32, u32),
    fate: Fate,
) -> Result<(), Fail> {
    let unused = Grade { number: 7 };
    let mut band_places = [Band {
        source: 0,
        target: 0,
        low: unused,
        high: unused,
    }; 4];
    let mut rank_places = [9u16; 3];
    let mut table = Table::open(&mut band_places, &mut rank_places);
    on_two(rt, &mut table, 1_000, to_1, to_2, fate)
}

#[test]
fn all_to_two_states_stands_in_grades(rt: HostRuntime) -> Result<(), Fail> {
    graded_on_two(&rt, (1_000, 1_000), (1_000, 1_000), None)
}

#[test]
fn the_larger_grade_must_come_to_full(rt: HostRuntime) -> Result<(), Fail> {
    graded_on_two(&rt, (0, 1_000), (0, 1), None)?;
    graded_on_two(&rt, (0, 1), (1, 1_000), None)?;
    graded_on_two(&rt, (0, 999), (0, 999), SHORT)?;
    graded_on_two(
        &rt,
        (5, 3),
        (0, 1_000),
        Some((1, Reason::Crossed { target: 1 })),
    )
}

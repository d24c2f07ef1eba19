// Every refusal of every call with its place, the order of causes, and that a refused call leaves the table.
use crate::helpers::*;
use amounts::grades::Grade;
use amounts::shares::Share;
use refusals::{Bound, Refusal};
use std::test::Fail;
use tables::band::Band;
use tables::table::Table;

const LARGEST: usize = usize::MAX;

const OVER: u32 = FULL + 1;

const NO_SOURCE: Refusal = Refusal::NoSuchState { position: 0 };

const NO_TARGET: Refusal = Refusal::NoSuchState { position: 1 };

const NO_LOW: Refusal = Refusal::NoAmount { bound: Bound::Low };

const NO_HIGH: Refusal = Refusal::NoAmount { bound: Bound::High };

#[test]
fn a_table_without_states_refuses_all_but_size(rt: HostRuntime) -> Result<(), Fail> {
    let mut band_places = [UNUSED; 4];
    let mut rank_places = [9u16; 3];
    let mut table = Table::open(&mut band_places, &mut rank_places);
    let none = Refusal::NoStates;
    for state in [0, 1, 3, LARGEST] {
        // Neither the state nor the amount nor the verdict is looked for.
        assert_eq!(rt; set(&mut table, (state, state, 0, FULL)), Err(none));
        assert_eq!(rt; set(&mut table, (state, state, OVER, OVER)), Err(none));
        assert_eq!(rt; table.check().err(), Some(none));
        assert_eq!(rt; table.rank(state), Err(none));
        assert_eq!(rt; table.reason(state), Err(none));
    }
    assert_eq!(rt; table.size(0, 0), Err(Refusal::StateCount { states: 0 }));
    assert_eq!(rt; table.size(3, 3), Err(NO_SOURCE));
    assert_eq!(rt; table.check().err(), Some(none));
    make_falling(&rt, &mut table)
}

#[test]
fn without_places_a_table_still_refuses_in_order(rt: HostRuntime) {
    let mut table: Table<'_, Share> = Table::open(&mut [], &mut []);
    assert_eq!(rt; table.size(1, 0), Err(Refusal::StateCount { states: 1 }));
    assert_eq!(rt; table.size(0, 0), Err(Refusal::StateCount { states: 0 }));
    assert_eq!(rt; set(&mut table, (0, 0, 0, 0)), Err(Refusal::NoStates));
    assert_eq!(rt; table.check().err(), Some(Refusal::NoStates));
    assert_eq!(rt; table.rank(0), Err(Refusal::NoStates));
    assert_eq!(rt; table.reason(0), Err(Refusal::NoStates));
}

const REFUSED_SIZES: [(usize, usize, Refusal); 12] = [
    (0, 0, Refusal::StateCount { states: 0 }),
    (0, 1, Refusal::StateCount { states: 0 }),
    (0, LARGEST, Refusal::StateCount { states: 0 }),
    // above the rank places, which are 3
    (4, 0, Refusal::StateCount { states: 4 }),
    (4, 4, Refusal::StateCount { states: 4 }),
    (256, 0, Refusal::StateCount { states: 256 }),
    (257, 300, Refusal::StateCount { states: 257 }),
    (LARGEST, 0, Refusal::StateCount { states: LARGEST }),
    (LARGEST, LARGEST, Refusal::StateCount { states: LARGEST }),
    (3, 3, NO_SOURCE),
    (1, 1, NO_SOURCE),
    (2, LARGEST, NO_SOURCE),
];

#[test]
fn a_refused_size_leaves_the_table(rt: HostRuntime) -> Result<(), Fail> {
    let mut band_places = [UNUSED; 4];
    let mut rank_places = [9u16; 3];
    let mut table = Table::open(&mut band_places, &mut rank_places);
    make_falling(&rt, &mut table)?;
    for (states, start, refusal) in REFUSED_SIZES {
        assert_eq!(rt; table.size(states, start), Err(refusal));
        fates_are(&rt, &table, &FALLING_FATES)?;
    }
    check_finds(&rt, &mut table, (3, 2, 2, Some(2)))?;
    fates_are(&rt, &table, &FALLING_FATES)
}

#[test]
fn a_table_has_at_most_256_states(rt: HostRuntime) -> Result<(), Fail> {
    let mut rank_places = [9u16; 300];
    let mut table: Table<'_, Share> = Table::open(&mut [], &mut rank_places);
    assert_eq!(rt;
        table.size(257, 0),
        Err(Refusal::StateCount { states: 257 })
    );
    assert_eq!(rt;
        table.size(300, 300),
        Err(Refusal::StateCount { states: 300 })
    );
    assert_eq!(rt; table.size(256, 256), Err(NO_SOURCE));
    assert_eq!(rt; table.check().err(), Some(Refusal::NoStates));
    assert_eq!(rt; table.size(256, 255), Ok(()));
    check_finds(&rt, &mut table, (256, 256, 1, Some(1)))?;
    assert_eq!(rt; table.rank(256), Err(NO_SOURCE));
    Ok(())
}

#[test]
fn a_table_has_at_most_its_rank_places(rt: HostRuntime) {
    let mut rank_places = [9u16; 255];
    let mut table: Table<'_, Share> = Table::open(&mut [], &mut rank_places);
    assert_eq!(rt;
        table.size(256, 0),
        Err(Refusal::StateCount { states: 256 })
    );
    assert_eq!(rt; table.size(255, 255), Err(NO_SOURCE));
    assert_eq!(rt; table.size(255, 254), Ok(()));
    assert_eq!(rt; table.rank(254), Err(Refusal::NoVerdict));
    assert_eq!(rt; table.rank(255), Err(NO_SOURCE));
}

const REFUSED_SETS: [(Given, Refusal); 22] = [
    ((3, 0, 0, 1), NO_SOURCE),
    ((256, 0, 0, 1), NO_SOURCE),
    ((65_536, 0, 0, 1), NO_SOURCE),
    ((LARGEST, 0, 0, 1), NO_SOURCE),
    ((3, 3, 0, 1), NO_SOURCE),
    ((LARGEST, LARGEST, OVER, OVER), NO_SOURCE),
    ((3, 0, OVER, 0), NO_SOURCE),
    ((3, 0, 0, 0), NO_SOURCE),
    ((0, 3, 0, 1), NO_TARGET),
    ((0, 65_537, 0, 1), NO_TARGET),
    ((2, LARGEST, 0, 1), NO_TARGET),
    ((2, 3, OVER, OVER), NO_TARGET),
    ((2, 3, 0, 0), NO_TARGET),
    // of pairs that are held
    ((0, 1, OVER, FULL), NO_LOW),
    ((0, 1, u32::MAX, 0), NO_LOW),
    ((0, 2, OVER, OVER), NO_LOW),
    ((1, 1, 0, OVER), NO_HIGH),
    ((1, 1, FULL, u32::MAX), NO_HIGH),
    // of a new pair, for which there is no place either
    ((1, 2, OVER, 0), NO_LOW),
    ((1, 2, 0, OVER), NO_HIGH),
    ((1, 2, 0, 1), Refusal::NoFreePlace),
    ((1, 2, 1, 0), Refusal::NoFreePlace),
];

#[test]
fn a_refused_set_leaves_the_table(rt: HostRuntime) -> Result<(), Fail> {
    let mut band_places = [UNUSED; 4];
    let mut rank_places = [9u16; 3];
    let mut table = Table::open(&mut band_places, &mut rank_places);
    make_falling(&rt, &mut table)?;
    for (given, refusal) in REFUSED_SETS {
        assert_eq!(rt; set(&mut table, given), Err(refusal));
        fates_are(&rt, &table, &FALLING_FATES)?;
    }
    check_finds(&rt, &mut table, (3, 2, 2, Some(2)))?;
    fates_are(&rt, &table, &FALLING_FATES)
}

#[test]
fn a_refused_set_changes_no_band(rt: HostRuntime) -> Result<(), Fail> {
    let mut band_places = [UNUSED; 4];
    let mut rank_places = [9u16; 3];
    let mut table = Table::open(&mut band_places, &mut rank_places);
    make_falling(&rt, &mut table)?;
    for (given, refusal) in REFUSED_SETS {
        assert_eq!(rt; set(&mut table, given), Err(refusal));
        check_finds(&rt, &mut table, (3, 2, 2, Some(2)))?;
        fates_are(&rt, &table, &FALLING_FATES)?;
    }
    Ok(())
}

#[test]
fn the_largest_grade_is_full(rt: HostRuntime) -> Result<(), Fail> {
    let zero = Grade { number: 0 };
    let full = Grade { number: 1_000 };
    let over = Grade { number: 1_001 };
    let mut band_places = [Band {
        source: 0,
        target: 0,
        low: zero,
        high: zero,
    }];
    let mut rank_places = [9u16; 1];
    let mut table = Table::open(&mut band_places, &mut rank_places);
    table.size(1, 0)?;
    assert_eq!(rt; table.set(0, 0, over, full), Err(NO_LOW));
    assert_eq!(rt; table.set(0, 0, over, over), Err(NO_LOW));
    assert_eq!(rt; table.set(0, 0, full, over), Err(NO_HIGH));
    check_finds(&rt, &mut table, (1, 1, 1, Some(1)))?;
    assert_eq!(rt; table.set(0, 0, full, full), Ok(()));
    check_finds(&rt, &mut table, (1, 0, 0, None))
}

#[test]
fn a_question_without_a_verdict_is_refused(rt: HostRuntime) -> Result<(), Fail> {
    let mut band_places = [UNUSED; 4];
    let mut rank_places = [9u16; 3];
    let mut table = Table::open(&mut band_places, &mut rank_places);
    table.size(3, 0)?;
    set_all(&mut table, &FALLING)?;
    has_no_verdict(&rt, &table);
    for state in [3, 4, 256, 65_536, LARGEST] {
        // There is no such state: that comes first.
        assert_eq!(rt; table.rank(state), Err(NO_SOURCE));
        assert_eq!(rt; table.reason(state), Err(NO_SOURCE));
    }
    has_no_verdict(&rt, &table);
    Ok(())
}

#[test]
fn a_question_of_no_state_is_refused(rt: HostRuntime) -> Result<(), Fail> {
    let mut band_places = [UNUSED; 4];
    let mut rank_places = [9u16; 8];
    let mut table = Table::open(&mut band_places, &mut rank_places);
    make_falling(&rt, &mut table)?;
    // There are rank places for some of these, and no states.
    for state in [3, 4, 7, 8, 256, 65_536, LARGEST] {
        assert_eq!(rt; table.rank(state), Err(NO_SOURCE));
        assert_eq!(rt; table.reason(state), Err(NO_SOURCE));
        fates_are(&rt, &table, &FALLING_FATES)?;
    }
    Ok(())
}

#[test]
fn a_standing_state_has_no_reason(rt: HostRuntime) -> Result<(), Fail> {
    let mut band_places = [UNUSED; 4];
    let mut rank_places = [9u16; 3];
    let mut table = Table::open(&mut band_places, &mut rank_places);
    make_falling(&rt, &mut table)?;
    assert_eq!(rt; table.reason(1), Err(Refusal::Standing));
    assert_eq!(rt; table.reason(1), Err(Refusal::Standing));
    fates_are(&rt, &table, &FALLING_FATES)?;
    // It stands still, but no verdict says so.
    set(&mut table, (2, 2, 0, 0))?;
    assert_eq!(rt; table.reason(1), Err(Refusal::NoVerdict));
    Ok(())
}

// When a verdict lapses: at each accepted size and set, and at nothing else.
use crate::helpers::*;
use amounts::shares::Share;
use refusals::Refusal;
use std::process::Abort;
use std::test::Fail;
use tables::band::Band;
use tables::table::Table;
use theory::reason::Reason;

/// Makes the falling table, sets a band, and sees that the verdict lapses. A check then gives these fates.
fn lapses_at(rt: &impl Abort, given: Given, found: Found, fates: &[Fate; 3]) -> Result<(), Fail> {
    let mut band_places = [UNUSED; 5];
    let mut rank_places = [9u16; 3];
    let mut table = Table::open(&mut band_places, &mut rank_places);
    make_falling(rt, &mut table)?;
    set(&mut table, given)?;
    has_no_verdict(rt, &table);
    check_finds(rt, &mut table, found)?;
    fates_are(rt, &table, fates)
}

#[test]
fn it_lapses_at_a_band_in_place_of_another(rt: HostRuntime) -> Result<(), Fail> {
    let fates = [None, None, Some((1, Reason::ShortOfFull))];
    lapses_at(&rt, (0, 1, 0, FULL), (3, 1, 1, None), &fates)
}

#[test]
fn it_lapses_at_the_same_band_again(rt: HostRuntime) -> Result<(), Fail> {
    lapses_at(
        &rt,
        (0, 1, 262_144, 524_288),
        (3, 2, 2, Some(2)),
        &FALLING_FATES,
    )
}

#[test]
fn it_lapses_at_a_new_pair(rt: HostRuntime) -> Result<(), Fail> {
    lapses_at(&rt, (2, 2, 0, FULL), (3, 0, 0, None), &[None, None, None])
}

#[test]
fn it_lapses_at_a_cleared_pair(rt: HostRuntime) -> Result<(), Fail> {
    let short = Some((1, Reason::ShortOfFull));
    lapses_at(&rt, (0, 2, 0, 0), (3, 2, 1, Some(1)), &[short, None, short])
}

#[test]
fn it_lapses_at_nothing_for_a_pair_that_is_not_held(rt: HostRuntime) -> Result<(), Fail> {
    lapses_at(&rt, (1, 0, 0, 0), (3, 2, 2, Some(2)), &FALLING_FATES)
}

#[test]
fn it_lapses_at_nothing_when_no_place_is_free(rt: HostRuntime) -> Result<(), Fail> {
    let mut band_places = [UNUSED; 4];
    let mut rank_places = [9u16; 3];
    let mut table = Table::open(&mut band_places, &mut rank_places);
    make_falling(&rt, &mut table)?;
    set(&mut table, (1, 0, 0, 0))?;
    has_no_verdict(&rt, &table);
    check_finds(&rt, &mut table, (3, 2, 2, Some(2)))?;
    fates_are(&rt, &table, &FALLING_FATES)
}

#[test]
fn it_lapses_at_a_size(rt: HostRuntime) -> Result<(), Fail> {
    let mut band_places = [UNUSED; 4];
    let mut rank_places = [9u16; 5];
    let mut table = Table::open(&mut band_places, &mut rank_places);
    for states in 3..6 {
        make_falling(&rt, &mut table)?;
        table.size(states, 1)?;
        has_no_verdict(&rt, &table);
        // Every band is cleared.
        check_finds(&rt, &mut table, (states, states, 1, Some(1)))?;
        fates_are(&rt, &table, &[Some((1, Reason::ShortOfFull)); 3])?;
    }
    Ok(())
}

#[test]
fn a_new_table_has_none(rt: HostRuntime) -> Result<(), Fail> {
    let mut band_places = [UNUSED; 4];
    let mut rank_places = [1u16; 3];
    let mut table = Table::open(&mut band_places, &mut rank_places);
    table.size(3, 0)?;
    has_no_verdict(&rt, &table);
    set_all(&mut table, &FALLING)?;
    has_no_verdict(&rt, &table);
    check_finds(&rt, &mut table, (3, 2, 2, Some(2)))?;
    fates_are(&rt, &table, &FALLING_FATES)
}

/// Opens a table over places as they are, and leaves in them what a verdict needs.
fn opens_without(
    rt: &impl Abort,
    band_places: &mut [Band<Share>],
    rank_places: &mut [u16],
) -> Result<(), Fail> {
    let mut table = Table::open(band_places, rank_places);
    assert_eq!(rt; table.rank(0), Err(Refusal::NoStates));
    table.size(3, 0)?;
    has_no_verdict(rt, &table);
    make_falling(rt, &mut table)
}

#[test]
fn places_lent_again_bring_none(rt: HostRuntime) -> Result<(), Fail> {
    let mut band_places = [UNUSED; 4];
    let mut rank_places = [9u16; 3];
    opens_without(&rt, &mut band_places, &mut rank_places)?;
    opens_without(&rt, &mut band_places, &mut rank_places)
}

#[test]
fn refused_calls_leave_it(rt: HostRuntime) -> Result<(), Fail> {
    let mut band_places = [UNUSED; 4];
    let mut rank_places = [9u16; 3];
    let mut table = Table::open(&mut band_places, &mut rank_places);
    make_falling(&rt, &mut table)?;
    assert!(rt; table.size(0, 0).is_err());
    assert!(rt; table.size(4, 0).is_err());
    assert!(rt; table.size(3, 3).is_err());
    assert!(rt; set(&mut table, (3, 0, 0, 1)).is_err());
    assert!(rt; set(&mut table, (0, 3, 0, 1)).is_err());
    assert!(rt; set(&mut table, (0, 1, FULL + 1, FULL)).is_err());
    assert!(rt; set(&mut table, (0, 1, 0, FULL + 1)).is_err());
    assert!(rt; set(&mut table, (1, 0, 0, 1)).is_err());
    assert!(rt; table.rank(3).is_err());
    assert!(rt; table.reason(3).is_err());
    assert!(rt; table.reason(1).is_err());
    fates_are(&rt, &table, &FALLING_FATES)
}

#[test]
fn refused_calls_bring_none(rt: HostRuntime) -> Result<(), Fail> {
    let mut band_places = [UNUSED; 4];
    let mut rank_places = [9u16; 3];
    let mut table = Table::open(&mut band_places, &mut rank_places);
    table.size(3, 0)?;
    set_all(&mut table, &FALLING)?;
    assert!(rt; table.size(4, 0).is_err());
    assert!(rt; set(&mut table, (1, 0, 0, 1)).is_err());
    assert!(rt; table.rank(3).is_err());
    has_no_verdict(&rt, &table);
    Ok(())
}

#[test]
fn questions_and_checks_leave_it(rt: HostRuntime) -> Result<(), Fail> {
    let mut band_places = [UNUSED; 4];
    let mut rank_places = [9u16; 3];
    let mut table = Table::open(&mut band_places, &mut rank_places);
    make_falling(&rt, &mut table)?;
    for _ in 0..3 {
        fates_are(&rt, &table, &FALLING_FATES)?;
        fates_are(&rt, &table, &FALLING_FATES)?;
        check_finds(&rt, &mut table, (3, 2, 2, Some(2)))?;
    }
    fates_are(&rt, &table, &FALLING_FATES)
}

// Bands that are replaced, removed and set in any order, and how many places they take.
use crate::helpers::*;
use amounts::shares::Share;
use refusals::Refusal;
use std::process::Abort;
use std::test::Fail;
use tables::band::Band;
use tables::table::Table;
use theory::reason::Reason;

const SHORT: Fate = Some((1, Reason::ShortOfFull));

#[test]
fn a_band_takes_the_place_of_that_of_its_pair(rt: HostRuntime) -> Result<(), Fail> {
    let mut band_places = [UNUSED; 4];
    let mut rank_places = [9u16; 3];
    let mut table = Table::open(&mut band_places, &mut rank_places);
    make_falling(&rt, &mut table)?;
    set(&mut table, (0, 1, 262_144, FULL))?;
    check_finds(&rt, &mut table, (3, 1, 1, None))?;
    fates_are(&rt, &table, &[None, None, SHORT])?;
    set(&mut table, (0, 1, 262_144, 524_288))?;
    check_finds(&rt, &mut table, (3, 2, 2, Some(2)))?;
    fates_are(&rt, &table, &FALLING_FATES)
}

#[test]
fn each_band_can_be_removed_and_set_again(rt: HostRuntime) -> Result<(), Fail> {
    let mut band_places = [UNUSED; 4];
    let mut rank_places = [9u16; 3];
    let mut table = Table::open(&mut band_places, &mut rank_places);
    make_falling(&rt, &mut table)?;
    for given in FALLING {
        set(&mut table, (given.0, given.1, 0, 0))?;
        // Its place is free for another pair.
        set(&mut table, (2, 0, 0, 1))?;
        set(&mut table, (2, 0, 0, 0))?;
        set(&mut table, given)?;
        check_finds(&rt, &mut table, (3, 2, 2, Some(2)))?;
        fates_are(&rt, &table, &FALLING_FATES)?;
    }
    Ok(())
}

/// Makes the falling table without one of its bands, and sees what a check finds.
fn without(rt: &impl Abort, given: Given, found: Found, fates: &[Fate; 3]) -> Result<(), Fail> {
    let mut band_places = [UNUSED; 4];
    let mut rank_places = [9u16; 3];
    let mut table = Table::open(&mut band_places, &mut rank_places);
    make_falling(rt, &mut table)?;
    set(&mut table, (given.0, given.1, 0, 0))?;
    check_finds(rt, &mut table, found)?;
    fates_are(rt, &table, fates)
}

#[test]
fn a_removed_band_is_nothing_to_nothing(rt: HostRuntime) -> Result<(), Fail> {
    without(&rt, FALLING[0], (3, 2, 2, Some(2)), &FALLING_FATES)?;
    without(&rt, FALLING[1], (3, 2, 1, Some(1)), &[SHORT, None, SHORT])?;
    let lost = Some((2, Reason::Lost { target: 1 }));
    without(&rt, FALLING[2], (3, 3, 2, Some(2)), &[lost, SHORT, SHORT])?;
    without(&rt, FALLING[3], (3, 2, 2, Some(2)), &FALLING_FATES)
}

const ORDERS: [[usize; 4]; 24] = [
    [0, 1, 2, 3],
    [0, 1, 3, 2],
    [0, 2, 1, 3],
    [0, 2, 3, 1],
    [0, 3, 1, 2],
    [0, 3, 2, 1],
    [1, 0, 2, 3],
    [1, 0, 3, 2],
    [1, 2, 0, 3],
    [1, 2, 3, 0],
    [1, 3, 0, 2],
    [1, 3, 2, 0],
    [2, 0, 1, 3],
    [2, 0, 3, 1],
    [2, 1, 0, 3],
    [2, 1, 3, 0],
    [2, 3, 0, 1],
    [2, 3, 1, 0],
    [3, 0, 1, 2],
    [3, 0, 2, 1],
    [3, 1, 0, 2],
    [3, 1, 2, 0],
    [3, 2, 0, 1],
    [3, 2, 1, 0],
];

fn set_in_order(table: &mut Table<'_, Share>, order: &[usize; 4]) -> Result<(), Fail> {
    for i in order {
        let given = FALLING[*i % 4];
        // First another band, which the next one replaces.
        set(table, (given.0, given.1, FULL, 1))?;
        set(table, given)?;
    }
    Ok(())
}

#[test]
fn bands_may_come_in_any_order(rt: HostRuntime) -> Result<(), Fail> {
    let mut band_places = [UNUSED; 4];
    let mut rank_places = [9u16; 3];
    let mut table = Table::open(&mut band_places, &mut rank_places);
    for order in ORDERS {
        table.size(3, 0)?;
        set_in_order(&mut table, &order)?;
        check_finds(&rt, &mut table, (3, 2, 2, Some(2)))?;
        fates_are(&rt, &table, &FALLING_FATES)?;
    }
    Ok(())
}

fn remove_in_order(table: &mut Table<'_, Share>, order: &[usize; 4]) -> Result<(), Fail> {
    for i in order {
        let given = FALLING[*i % 4];
        set(table, (given.0, given.1, 0, 0))?;
    }
    Ok(())
}

#[test]
fn bands_may_go_in_any_order(rt: HostRuntime) -> Result<(), Fail> {
    let mut band_places = [UNUSED; 4];
    let mut rank_places = [9u16; 3];
    let mut table = Table::open(&mut band_places, &mut rank_places);
    table.size(3, 0)?;
    for order in ORDERS {
        set_all(&mut table, &FALLING)?;
        remove_in_order(&mut table, &order)?;
        check_finds(&rt, &mut table, (3, 3, 1, Some(1)))?;
        fates_are(&rt, &table, &[SHORT, SHORT, SHORT])?;
    }
    Ok(())
}

#[test]
fn at_full_only_a_held_pair_is_set(rt: HostRuntime) -> Result<(), Fail> {
    let mut band_places = [UNUSED; 2];
    let mut rank_places = [9u16; 3];
    let mut table = Table::open(&mut band_places, &mut rank_places);
    table.size(3, 0)?;
    set(&mut table, (0, 0, FULL, FULL))?;
    set(&mut table, (2, 2, 0, 1))?;
    let full = Err(Refusal::NoFreePlace);
    assert_eq!(rt; set(&mut table, (1, 1, FULL, FULL)), full);
    assert_eq!(rt; set(&mut table, (0, 1, 0, 1)), full);
    assert_eq!(rt; set(&mut table, (2, 1, 1, 0)), full);
    // Nothing for a new pair takes no place.
    assert_eq!(rt; set(&mut table, (1, 1, 0, 0)), Ok(()));
    assert_eq!(rt; set(&mut table, (2, 2, FULL, FULL)), Ok(()));
    check_finds(&rt, &mut table, (3, 1, 1, None))?;
    fates_are(&rt, &table, &[None, SHORT, None])?;
    assert_eq!(rt; set(&mut table, (0, 0, 0, 0)), Ok(()));
    assert_eq!(rt; set(&mut table, (1, 1, FULL, FULL)), Ok(()));
    assert_eq!(rt; set(&mut table, (0, 0, FULL, FULL)), full);
    check_finds(&rt, &mut table, (3, 1, 1, Some(1)))?;
    fates_are(&rt, &table, &[SHORT, None, None])
}

#[test]
fn one_bound_other_than_nothing_holds_a_pair(rt: HostRuntime) -> Result<(), Fail> {
    let mut band_places = [UNUSED; 1];
    let mut rank_places = [9u16; 2];
    let mut table = Table::open(&mut band_places, &mut rank_places);
    table.size(2, 0)?;
    for (low, high) in [(0, 1), (1, 0), (1, 1)] {
        assert_eq!(rt; set(&mut table, (0, 1, low, high)), Ok(()));
        assert_eq!(rt; set(&mut table, (0, 0, 0, FULL)), Err(Refusal::NoFreePlace));
        assert_eq!(rt; set(&mut table, (0, 1, 0, 0)), Ok(()));
        assert_eq!(rt; set(&mut table, (0, 0, 0, FULL)), Ok(()));
        assert_eq!(rt; set(&mut table, (0, 0, 0, 0)), Ok(()));
    }
    Ok(())
}

#[test]
fn without_band_places_only_nothing_is_set(rt: HostRuntime) -> Result<(), Fail> {
    let mut rank_places = [9u16; 1];
    let mut table: Table<'_, Share> = Table::open(&mut [], &mut rank_places);
    table.size(1, 0)?;
    assert_eq!(rt; set(&mut table, (0, 0, 0, 1)), Err(Refusal::NoFreePlace));
    assert_eq!(rt; set(&mut table, (0, 0, 0, 0)), Ok(()));
    check_finds(&rt, &mut table, (1, 1, 1, Some(1)))
}

#[test]
fn a_size_frees_every_place(rt: HostRuntime) -> Result<(), Fail> {
    let mut band_places = [UNUSED; 4];
    let mut rank_places = [9u16; 4];
    let mut table = Table::open(&mut band_places, &mut rank_places);
    for start in 0..4 {
        make_falling(&rt, &mut table)?;
        table.size(4, start)?;
        check_finds(&rt, &mut table, (4, 4, 1, Some(1)))?;
        fates_are(&rt, &table, &[SHORT; 4])?;
        set_all(
            &mut table,
            &[
                (3, 3, FULL, FULL),
                (2, 3, FULL, FULL),
                (1, 2, FULL, FULL),
                (0, 1, FULL, FULL),
            ],
        )?;
        check_finds(&rt, &mut table, (4, 0, 0, None))?;
    }
    Ok(())
}

/// Sets the bands of the first states, as many as `sources`, to one target.
fn set_column(table: &mut Table<'_, Share>, target: usize, sources: usize) -> Result<(), Refusal> {
    for source in 0..sources {
        set(table, (source, target, 0, 16_384))?;
    }
    Ok(())
}

/// Sets the bands of 64 states to as many targets. With 64 of these, 4,096 in all, their highs just come to full.
fn set_columns(table: &mut Table<'_, Share>, targets: usize) -> Result<(), Refusal> {
    for target in 0..targets {
        set_column(table, target, 64)?;
    }
    Ok(())
}

fn untouched(bands: &[Band<Share>]) -> bool {
    bands.iter().all(|band| {
        band.source == 7 && band.target == 7 && band.low.number == 7 && band.high.number == 7
    })
}

#[test]
fn a_table_uses_4096_band_places(rt: HostRuntime) -> Result<(), Fail> {
    let mut band_places = [UNUSED; 5_000];
    let mut rank_places = [9u16; 65];
    let mut table = Table::open(&mut band_places, &mut rank_places);
    table.size(65, 64)?;
    set_columns(&mut table, 64)?;
    let full = Err(Refusal::NoFreePlace);
    assert_eq!(rt; set(&mut table, (64, 64, FULL, FULL)), full);
    assert_eq!(rt; set(&mut table, (0, 64, 0, 1)), full);
    assert_eq!(rt; set(&mut table, (64, 64, 0, 0)), Ok(()));
    check_finds(&rt, &mut table, (65, 1, 1, Some(1)))?;
    // One high is less, so that state 5 falls, and all that lean on it.
    assert_eq!(rt; set(&mut table, (5, 63, 0, 16_383)), Ok(()));
    check_finds(&rt, &mut table, (65, 65, 2, Some(1)))?;
    fate_is(&rt, &table, 5, SHORT)?;
    fate_is(&rt, &table, 63, Some((2, Reason::ShortOfFull)))?;
    // The place of a removed pair is for another one.
    assert_eq!(rt; set(&mut table, (5, 63, 0, 0)), Ok(()));
    assert_eq!(rt; set(&mut table, (64, 64, FULL, FULL)), Ok(()));
    assert_eq!(rt; set(&mut table, (5, 63, 0, 16_384)), full);
    check_finds(&rt, &mut table, (65, 64, 2, None))?;
    assert!(rt; untouched(&band_places[4_096..]));
    Ok(())
}

#[test]
fn one_place_fewer_is_one_band_fewer(rt: HostRuntime) -> Result<(), Fail> {
    let mut band_places = [UNUSED; 4_095];
    let mut rank_places = [9u16; 64];
    let mut table = Table::open(&mut band_places, &mut rank_places);
    table.size(64, 0)?;
    set_columns(&mut table, 63)?;
    set_column(&mut table, 63, 63)?;
    assert_eq!(rt;
        set(&mut table, (63, 63, 0, 16_384)),
        Err(Refusal::NoFreePlace)
    );
    // The last pair is not held, so state 63 falls, and then all others.
    check_finds(&rt, &mut table, (64, 64, 2, Some(2)))?;
    fate_is(&rt, &table, 62, Some((2, Reason::ShortOfFull)))?;
    fate_is(&rt, &table, 63, SHORT)
}

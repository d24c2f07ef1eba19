// Lines of 256 states, in which one state falls in each round, and rank places past the states.
use crate::helpers::*;
use amounts::shares::Share;
use std::process::Abort;
use std::test::Fail;
use tables::table::Table;
use theory::reason::Reason;

/// Makes a line of 256 states, each of which passes all to the next. The last has no bands.
fn make_line(table: &mut Table<'_, Share>, start: usize) -> Result<(), Fail> {
    table.size(256, start)?;
    for state in 0..255usize {
        set(table, (state, state + 1, FULL, FULL))?;
    }
    Ok(())
}

/// Sees that the line falls from its last state on.
fn line_fell(rt: &impl Abort, table: &Table<'_, Share>) -> Result<(), Fail> {
    for state in 0..255usize {
        let lost = Reason::Lost { target: state + 1 };
        fate_is(rt, table, state, Some(((256 - state) as u16, lost)))?;
    }
    fate_is(rt, table, 255, Some((1, Reason::ShortOfFull)))
}

#[test]
fn a_line_falls_one_state_a_round(rt: HostRuntime) -> Result<(), Fail> {
    let mut band_places = [UNUSED; 255];
    let mut rank_places = [9u16; 256];
    let mut table = Table::open(&mut band_places, &mut rank_places);
    make_line(&mut table, 0)?;
    check_finds(&rt, &mut table, (256, 256, 256, Some(256)))?;
    line_fell(&rt, &table)
}

#[test]
fn each_start_has_its_rank_in_the_line(rt: HostRuntime) -> Result<(), Fail> {
    let mut band_places = [UNUSED; 255];
    let mut rank_places = [9u16; 256];
    let mut table = Table::open(&mut band_places, &mut rank_places);
    for (start, rank) in [(0, 256), (1, 255), (100, 156), (254, 2), (255, 1)] {
        make_line(&mut table, start)?;
        check_finds(&rt, &mut table, (256, 256, 256, Some(rank)))?;
    }
    Ok(())
}

/// The same line in the other order: each state passes all to the one before, and state 0 has no bands.
fn make_line_back(table: &mut Table<'_, Share>) -> Result<(), Fail> {
    table.size(256, 255)?;
    for state in 1..256usize {
        set(table, (state, state - 1, FULL, FULL))?;
    }
    Ok(())
}

fn line_back_fell(rt: &impl Abort, table: &Table<'_, Share>) -> Result<(), Fail> {
    fate_is(rt, table, 0, Some((1, Reason::ShortOfFull)))?;
    for state in 1..256usize {
        let lost = Reason::Lost { target: state - 1 };
        fate_is(rt, table, state, Some(((state + 1) as u16, lost)))?;
    }
    Ok(())
}

#[test]
fn a_line_back_takes_as_many_rounds(rt: HostRuntime) -> Result<(), Fail> {
    // A state that falls still counts in the same round for the states after it.
    let mut band_places = [UNUSED; 255];
    let mut rank_places = [9u16; 256];
    let mut table = Table::open(&mut band_places, &mut rank_places);
    make_line_back(&mut table)?;
    check_finds(&rt, &mut table, (256, 256, 256, Some(256)))?;
    line_back_fell(&rt, &table)
}

fn all_stand(rt: &impl Abort, table: &Table<'_, Share>) -> Result<(), Fail> {
    for state in 0..256 {
        fate_is(rt, table, state, None)?;
    }
    Ok(())
}

#[test]
fn a_line_whose_end_stands_stands(rt: HostRuntime) -> Result<(), Fail> {
    let mut band_places = [UNUSED; 256];
    let mut rank_places = [9u16; 256];
    let mut table = Table::open(&mut band_places, &mut rank_places);
    make_line(&mut table, 0)?;
    check_finds(&rt, &mut table, (256, 256, 256, Some(256)))?;
    set(&mut table, (255, 255, FULL, FULL))?;
    check_finds(&rt, &mut table, (256, 0, 0, None))?;
    all_stand(&rt, &table)
}

#[test]
fn rank_places_past_256_are_left(rt: HostRuntime) -> Result<(), Fail> {
    let mut band_places = [UNUSED; 255];
    let mut rank_places = [9u16; 300];
    let mut table = Table::open(&mut band_places, &mut rank_places);
    make_line(&mut table, 0)?;
    check_finds(&rt, &mut table, (256, 256, 256, Some(256)))?;
    line_fell(&rt, &table)?;
    assert!(rt; rank_places[256..].iter().all(|rank| *rank == 9));
    Ok(())
}

#[test]
fn rank_places_past_the_states_are_left(rt: HostRuntime) -> Result<(), Fail> {
    let mut band_places = [UNUSED; 4];
    let mut rank_places = [9u16; 8];
    let mut table = Table::open(&mut band_places, &mut rank_places);
    make_falling(&rt, &mut table)?;
    fates_are(&rt, &table, &FALLING_FATES)?;
    assert!(rt; rank_places[3..].iter().all(|rank| *rank == 9));
    Ok(())
}

// What the tests share: places to lend, a table that many of them use, and words to set bands and to see answers.
use amounts::amount::Amount;
use amounts::shares::Share;
use refusals::Refusal;
use std::process::Abort;
use std::test::Fail;
use tables::band::Band;
use tables::load::LoadFault;
use tables::table::Table;
use theory::reason::Reason;

pub(crate) const FULL: u32 = 1_048_576;

/// What the caller's band places hold before a table uses them.
pub(crate) const UNUSED: Band<Share> = Band {
    source: 7,
    target: 7,
    low: Share { number: 7 },
    high: Share { number: 7 },
};

/// A band as the tests write it: source, target, low and high.
pub(crate) type Given = (usize, usize, u32, u32);

/// The rank and the reason of a state, or none if it stands.
pub(crate) type Fate = Option<(u16, Reason)>;

/// What a check finds, as the tests write it: the states, how many of them fell, in how many rounds, and the rank of the start.
pub(crate) type Found = (usize, usize, usize, Option<u16>);

/// Three states: 2 cannot come to full and falls, and then 0 cannot, which leant on it. State 1 stands.
pub(crate) const FALLING: [Given; 4] = [
    (0, 1, 262_144, 524_288),
    (0, 2, 0, FULL),
    (1, 1, FULL, FULL),
    (2, 1, 0, 524_288),
];

pub(crate) const FALLING_FATES: [Fate; 3] = [
    Some((2, Reason::ShortOfFull)),
    None,
    Some((1, Reason::ShortOfFull)),
];

pub(crate) fn set(table: &mut Table<'_, Share>, given: Given) -> Result<(), Refusal> {
    let (source, target, low, high) = given;
    table.set(
        source,
        target,
        Share { number: low },
        Share { number: high },
    )
}

/// Sets bands in this order.
pub(crate) fn set_all(table: &mut Table<'_, Share>, bands: &[Given]) -> Result<(), Fail> {
    for given in bands {
        set(table, *given)?;
    }
    Ok(())
}

/// The record of a band. A state past 255 has no record, and is cut.
pub(crate) fn record(given: Given) -> [u8; 12] {
    let (source, target, low, high) = given;
    let l = low.to_le_bytes();
    let h = high.to_le_bytes();
    let (from, to) = (source.to_le_bytes()[0], target.to_le_bytes()[0]);
    [
        0x42, from, to, 0, l[0], l[1], l[2], l[3], h[0], h[1], h[2], h[3],
    ]
}

/// Loads the records of at most eight bands, in this order.
pub(crate) fn load_all(table: &mut Table<'_, Share>, bands: &[Given]) -> Result<(), LoadFault> {
    let mut records = [[0u8; 12]; 8];
    for (place, given) in records.iter_mut().zip(bands) {
        *place = record(*given);
    }
    table.load(records[..bands.len().min(8)].as_flattened())?;
    Ok(())
}

/// Makes the table the falling one, with a verdict in force.
pub(crate) fn make_falling(rt: &impl Abort, table: &mut Table<'_, Share>) -> Result<(), Fail> {
    table.size(3, 0)?;
    set_all(table, &FALLING)?;
    check_finds(rt, table, (3, 2, 2, Some(2)))
}

/// Checks the table, and sees what that finds.
pub(crate) fn check_finds<K: Amount>(
    rt: &impl Abort,
    table: &mut Table<'_, K>,
    found: Found,
) -> Result<(), Fail> {
    let verdict = table.check()?;
    let finds = (
        verdict.states,
        verdict.removed,
        verdict.rounds,
        verdict.start,
    );
    assert_eq!(rt; finds, found);
    Ok(())
}

/// Sees the rank and the reason of the first states.
pub(crate) fn fates_are<K: Amount>(
    rt: &impl Abort,
    table: &Table<'_, K>,
    fates: &[Fate],
) -> Result<(), Fail> {
    for (state, fate) in fates.iter().enumerate() {
        fate_is(rt, table, state, *fate)?;
    }
    Ok(())
}

pub(crate) fn fate_is<K: Amount>(
    rt: &impl Abort,
    table: &Table<'_, K>,
    state: usize,
    fate: Fate,
) -> Result<(), Fail> {
    let rank = fate.map(|(rank, _)| rank);
    let reason = fate.map(|(_, reason)| reason);
    assert_eq!(rt; table.rank(state), Ok(rank));
    assert_eq!(rt; table.reason(state), reason.ok_or(Refusal::Standing));
    Ok(())
}

/// Sees that a table of three states has no verdict in force.
pub(crate) fn has_no_verdict(rt: &impl Abort, table: &Table<'_, Share>) {
    for state in 0..3 {
        assert_eq!(rt; table.rank(state), Err(Refusal::NoVerdict));
        assert_eq!(rt; table.reason(state), Err(Refusal::NoVerdict));
    }
}

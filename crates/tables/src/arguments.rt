// What is asked of the arguments of a call before anything is done.
ghost use Rattle.std.specs.Prelude.{◌≡◌, ◌≤◌};
ghost use Rattle.tables.specs.Left.{answered, band_asked, no_states, no_such_state, no_amount, no_band};

use crate::band::Band;
use amounts::amount::Amount;
use refusals::{Bound, Refusal};

/// What a set asks for: its arguments, not yet looked at. They are no `Band`, whose states have 16 bits.
#[derive(Clone, Copy)]
pub(crate) struct Asked<K> {
    pub source: usize,
    pub target: usize,
    pub low: K,
    pub high: K,
}

/// The band that is asked for, if a table with so many states can have it.
pub(crate) fn checked_band<K: Amount>(states: usize, asked: Asked<K>) -> Result<Band<K>, Refusal>
    requires { states ≤ 256 }
    ensures { result ≡ answered (no_band K.Amount.kind states (band_asked asked)) (band_asked asked) }
{
    check_sized(states)?;
    check_state(states, asked.source, 0)?;
    check_state(states, asked.target, 1)?;
    check_bound(asked.low, Bound::Low)?;
    check_bound(asked.high, Bound::High)?;
    Ok(Band {
        source: asked.source as u16,
        target: asked.target as u16,
        low: asked.low,
        high: asked.high,
    })
}

pub(crate) fn check_sized(states: usize) -> Result<(), Refusal>
    ensures { result ≡ answered (no_states states) tt }
{
    if states == 0 {
        Err(Refusal::NoStates)
    } else {
        Ok(())
    }
}

pub(crate) fn check_state(states: usize, state: usize, position: usize) -> Result<(), Refusal>
    ensures { result ≡ answered (no_such_state states position state) tt }
{
    if state < states {
        Ok(())
    } else {
        Err(Refusal::NoSuchState { position })
    }
}

fn check_bound<K: Amount>(amount: K, bound: Bound) -> Result<(), Refusal>
    ensures { result ≡ answered (no_amount K.Amount.kind bound amount) tt }
{
    if amount.at_most(K::full()) {
        Ok(())
    } else {
        Err(Refusal::NoAmount { bound })
    }
}

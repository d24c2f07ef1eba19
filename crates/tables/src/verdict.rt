// The verdict of a check.
ghost use Rattle.std.specs.Prelude.{◌≡◌, ◌≤◌};
ghost use Rattle.tables.specs.Left.{as_rank};

use crate::tally::Tally;

/// What a check found. No verdict exists with more rounds than removed states, or more of these than states.
#[derive(Clone, Copy, PartialEq, Eq, Debug)]
pub struct Verdict {
    pub states: usize,
    /// How many states fell.
    pub removed: usize,
    /// The highest rank, or 0.
    pub rounds: usize,
    /// The rank of the start, if it fell.
    pub start: Option<u16>,
    ghost rounded: { rounds ≤ removed },
    ghost bounded: { removed ≤ states },
}

/// The verdict that all rounds give.
pub(crate) fn verdict_of(states: usize, tally: Tally, start: Option<u16>) -> Verdict
    requires { tally.removed ≤ states }
    ensures states { result.states ≡ states }
    ensures removed { result.removed ≡ tally.removed }
    ensures rounds { result.rounds ≡ tally.rounds }
    ensures start { result.start ≡ start }
{
    Verdict {
        states,
        removed: tally.removed,
        rounds: tally.rounds,
        start,
    }
}

/// A rank as users see it: 0 is none.
pub(crate) fn as_rank(rank: u16) -> Option<u16>
    ensures { result ≡ as_rank rank }
{
    (rank != 0).then_some(rank)
}

// The rounds in which states fall.
ghost use Rattle.std.specs.Prelude.{◌≡◌, ℕ, suc, ◌+◌, ◌<◌, ◌≤◌, ◌&&◌, length, IsTrue, is_some, ◌==◌};
ghost use Rattle.tables.specs.Held.{model_of};
ghost use Rattle.tables.specs.Judging.{Orderly, RanksAfter, Round, Ranked};
ghost use Rattle.tables.specs.Passes.{rank_in, remaining, standing_count};
ghost use Rattle.theory.specs.Consistency.{reason_of};

use crate::band::Band;
use crate::reasons::{Remaining, rank_at, reason_of};
use crate::tally::Tally;
use amounts::amount::Amount;

/// Runs rounds until no state falls, and writes the rank of each state, which has one place.
// The order of the bands is a premise, here and below: a check answers for any table, and promises only of a sound one.
pub(crate) fn run_rounds<K: Amount>(held: &[Band<K>], ranks: &mut [u16]) -> Tally
    requires few { length ranks.old ≤ 256 }
    ensures bounded { result.removed ≤ length ranks.old }
    ensures ranked { Orderly (length ranks.old) held.now → Ranked K.Amount.kind (model_of K.Amount.kind (length ranks.old) held.now) ranks.new result }
{
    ranks.fill(0);
    let states = ranks.len();
    let mut removed = 0;
    // In each round but the last a state falls: there are no more rounds than states.
    for rounds in 0..states {
        let fallen = run_round(held, ranks, (rounds + 1) as u16);
        if fallen == 0 {
            return Tally { removed, rounds };
        }
        removed += fallen;
    }
    Tally {
        removed,
        rounds: states,
    }
}

/// Runs one round and answers how many states fell in it. A rank that it writes still counts as not fallen before it.
fn run_round<K: Amount>(held: &[Band<K>], ranks: &mut [u16], round: u16) -> usize
    requires few { length ranks.old ≤ 256 }
    requires some { 0 < round }
    ensures fell { result + standing_count ranks.new ≡ standing_count ranks.old }
    ensures round { Orderly (length ranks.old) held.now → (r' : ℕ) → round ≡ suc r' → RanksAfter K.Amount.kind (model_of K.Amount.kind (length ranks.old) held.now) r' ranks.old → Round K.Amount.kind (model_of K.Amount.kind (length ranks.old) held.now) r' ranks.new result }
{
    let mut fallen = 0;
    // The whole of `ranks` is read at each state, so no iterator may hold it.
    for t in 0..ranks.len() {
        if falls(held, t, &Remaining { ranks, round }) {
            ranks[t] = round;
            fallen += 1;
        }
    }
    fallen
}

/// Whether a state falls in a round: it has no rank yet, and has a reason to fall.
fn falls<K: Amount>(held: &[Band<K>], state: usize, set: &Remaining<'_>) -> bool
    requires few { state < 65536 }
    ensures unranked { IsTrue result → rank_in set.now.ranks.now state ≡ 0 }
    ensures falls { (states : ℕ) → Orderly states held.now → result ≡ (rank_in set.now.ranks.now state == 0 && is_some (reason_of K.Amount.kind (model_of K.Amount.kind states held.now) (remaining set.now) state)) }
{
    rank_at(set.ranks, state) == 0 && reason_of(held, state as u16, set).is_some()
}

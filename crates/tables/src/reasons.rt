// Why a state is not locally consistent, found in one pass over its bands.
ghost use Rattle.std.specs.Prelude.{◌≡◌, ℕ, None};
ghost use Rattle.tables.specs.Held.{model_of};
ghost use Rattle.tables.specs.Judging.{Orderly};
ghost use Rattle.tables.specs.Passes.{rank_in, remaining, crossing, ended, passed};
ghost use Rattle.theory.specs.Consistency.{reason_of};

use crate::band::Band;
use amounts::amount::Amount;
use theory::reason::Reason;

/// The states that had not fallen before a round, by their ranks.
#[derive(Clone, Copy)]
pub(crate) struct Remaining<'a> {
    pub ranks: &'a [u16],
    pub round: u16,
}

impl Remaining<'_> {
    fn contains(&self, state: u16) -> bool
        ensures { result ≡ remaining self.now state }
    {
        let rank = rank_at(self.ranks, usize::from(state));
        rank == 0 || self.round <= rank
    }
}

/// Why `source` is not locally consistent with these states.
pub(crate) fn reason_of<K: Amount>(
    held: &[Band<K>],
    source: u16,
    set: &Remaining<'_>,
) -> Option<Reason>
    ensures { (states : ℕ) → Orderly states held.now → result ≡ reason_of K.Amount.kind (model_of K.Amount.kind states held.now) (remaining set.now) source }
{
    let first = held.partition_point(|band| band.source < source);
    reason_in(&held[first..], source, set)
}

/// The same in one pass over `part`, in which the bands of `source` come first.
fn reason_in<K: Amount>(part: &[Band<K>], source: u16, set: &Remaining<'_>) -> Option<Reason>
    ensures { result ≡ passed K.Amount.kind (remaining set.now) source None K.Amount.kind.nothing K.Amount.kind.nothing part.now }
{
    let mut crossed = None;
    let mut low = K::nothing();
    let mut high = K::nothing();
    for band in part {
        if band.source != source {
            break;
        }
        if set.contains(band.target) {
            crossed = crossed.or(crossing(band));
            low = low.total(band.low);
            high = high.total(band.high);
        } else if !band.low.at_most(K::nothing()) {
            return Some(Reason::Lost {
                target: usize::from(band.target),
            });
        }
    }
    ended(crossed, low, high)
}

/// The target of a band whose low is not at most its high.
fn crossing<K: Amount>(band: &Band<K>) -> Option<usize>
    ensures { result ≡ crossing K.Amount.kind band.now }
{
    (!band.low.at_most(band.high)).then_some(usize::from(band.target))
}

fn ended<K: Amount>(crossed: Option<usize>, low: K, high: K) -> Option<Reason>
    ensures { result ≡ ended K.Amount.kind crossed low high }
{
    if let Some(target) = crossed {
        return Some(Reason::Crossed { target });
    }
    if !low.at_most(K::full()) {
        return Some(Reason::OverFull);
    }
    if !K::full().at_most(high) {
        return Some(Reason::ShortOfFull);
    }
    None
}

/// The rank of a state, 0 if it stands.
pub(crate) fn rank_at(ranks: &[u16], state: usize) -> u16
    ensures { result ≡ rank_in ranks.now state }
{
    ranks.get(state).copied().unwrap_or(0)
}

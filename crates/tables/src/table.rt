// The table: bands between states, over memory that the caller lends.
ghost use Rattle.std.specs.Prelude.{IsTrue, ◌≡◌, ◌<◌, ◌≤◌, ◌||◌, length, Ok, ◌==◌, nat_lt};

use crate::arguments::{Asked, check_sized, check_state, checked_band};
use crate::band::Band;
use crate::reasons::{Remaining, rank_at, reason_of};
use crate::rounds::run_rounds;
use crate::tally::Tally;
use crate::verdict::{Verdict, as_rank, verdict_of};
use amounts::amount::Amount;
use refusals::Refusal;
use theory::reason::Reason;

/// A table has at most so many states.
pub const STATES: usize = 256;

/// A table over the caller's band places and rank places.
/// That its bands are in order and its ranks right is no ghost field: they are not while they are written.
#[derive(Drop)]
pub struct Table<'a, K> {
    pub(crate) bands: &'a mut [Band<K>],
    /// Plain numbers, as the caller lends them: 0 is no rank.
    pub(crate) ranks: &'a mut [u16],
    /// How many of the band places are held, from the first on: the caller lends more.
    pub(crate) held: usize,
    /// 0 before the first size. An `Option` would be asked for at each test of a state, which 0 fails by itself.
    pub(crate) states: usize,
    pub(crate) start: usize,
    /// Whether a verdict is in force. Its ranks lie in the caller's memory, so no value goes with it.
    pub(crate) checked: bool,
    ghost within: { held ≤ length bands.now },
    ghost few: { states ≤ 256 },
    ghost room: { states ≤ length ranks.now },
}

impl<'a, K: Amount> Table<'a, K> {
    ghost use Rattle.tables.specs.Calls.{left_of, Sound, Lent, Sized, BandSet, Checked, RoundsRun, RankAnswer, ReasonAnswer};
    ghost use Rattle.tables.specs.Passes.{rank_in};
    ghost use Rattle.tables.specs.Left.{answered, as_rank, opened, band_asked, question_refusal, reason_left};

    /// A table without states, bands or verdict. It uses at most 4,096 band places.
    pub fn open(bands: &'a mut [Band<K>], ranks: &'a mut [u16]) -> Table<'a, K>
        ensures left { left_of result ≡ opened (length bands.old) (length ranks.old) }
        ensures bands { result.bands ≡ bands.entry }
        ensures ranks { result.ranks ≡ ranks.entry }
        ensures sound { Sound K.Amount.kind result }
    {
        Table {
            bands,
            ranks,
            held: 0,
            states: 0,
            start: 0,
            checked: false,
        }
    }

    /// Gives the table its number of states and its start, and clears all bands.
    pub fn size(&mut self, states: usize, start: usize) -> Result<(), Refusal>
        ensures sized { Sound K.Amount.kind self.old → Sized K.Amount.kind self.old self.new states start result }
        ensures lent { Lent self.old self.new }
    {
        if is_no_count(states, self.ranks.len()) {
            return Err(Refusal::StateCount { states });
        }
        if states <= start {
            return Err(Refusal::NoSuchState { position: 0 });
        }
        self.states = states;
        self.start = start;
        self.held = 0;
        self.checked = false;
        Ok(())
    }

    /// Sets the band from `source` to `target`. With both bounds nothing, the pair is held no longer.
    pub fn set(&mut self, source: usize, target: usize, low: K, high: K) -> Result<(), Refusal>
        ensures set { Sound K.Amount.kind self.old → BandSet K.Amount.kind self.old self.new (record { source = source; target = target; low = low; high = high }) result }
        ensures lent { Lent self.old self.new }
    {
        self.put(Asked {
            source,
            target,
            low,
            high,
        })
    }

    fn put(&mut self, asked: Asked<K>) -> Result<(), Refusal>
        ensures put { Sound K.Amount.kind self.old → BandSet K.Amount.kind self.old self.new (band_asked asked) result }
        ensures lent { Lent self.old self.new }
    {
        let band = checked_band(self.states, asked)?;
        self.place(band)?;
        self.checked = false;
        Ok(())
    }

    /// Ranks the states that no chain keeping the bands can use, and puts this verdict in force.
    pub fn check(&mut self) -> Result<Verdict, Refusal>
        ensures checked { Sound K.Amount.kind self.old → Checked K.Amount.kind self.old self.new result }
        ensures lent { Lent self.old self.new }
    {
        check_sized(self.states)?;
        Ok(self.judge())
    }

    fn judge(&mut self) -> Verdict
        ensures judged { Sound K.Amount.kind self.old → 0 < self.old.states → Checked K.Amount.kind self.old self.new (Ok result) }
        ensures lent { Lent self.old self.new }
    {
        let start = self.start;
        let tally = self.rank_states();
        self.checked = true;
        verdict_of(self.states, tally, self.rank_of(start))
    }

    /// Runs the rounds over a copy of the ranks, since no call can take one lent slice for reading and the other for writing.
    fn rank_states(&mut self) -> Tally
        ensures bounded { result.removed ≤ self.old.states }
        ensures ran { RoundsRun K.Amount.kind self.old self.new result }
    {
        let mut copy = [0u16; STATES];
        let ranks = &mut copy[..self.states];
        let tally = run_rounds(self.held_bands(), ranks);
        self.ranks[..self.states].copy_from_slice(ranks);
        tally
    }

    /// The rank of a state, or none if it stands.
    pub fn rank(&self, state: usize) -> Result<Option<u16>, Refusal>
        ensures { Sound K.Amount.kind self.now → RankAnswer K.Amount.kind (left_of self.now) state result }
    {
        self.question(state)?;
        Ok(self.rank_of(state))
    }

    /// Why a ranked state fell.
    pub fn reason(&self, state: usize) -> Result<Reason, Refusal>
        ensures { Sound K.Amount.kind self.now → ReasonAnswer K.Amount.kind (left_of self.now) state result }
    {
        self.question(state)?;
        self.why(state).ok_or(Refusal::Standing)
    }

    /// What is asked of a question about a state.
    fn question(&self, state: usize) -> Result<(), Refusal>
        ensures { result ≡ answered (question_refusal (left_of self.now) state) tt }
    {
        check_sized(self.states)?;
        check_state(self.states, state, 0)?;
        if !self.checked {
            return Err(Refusal::NoVerdict);
        }
        Ok(())
    }

    fn rank_of(&self, state: usize) -> Option<u16>
        ensures { result ≡ as_rank (rank_in self.now.ranks.now state) }
    {
        as_rank(rank_at(self.ranks, state))
    }

    /// Judges a ranked state once more.
    fn why(&self, state: usize) -> Option<Reason>
        requires inside { state < self.now.states }
        ensures { Sound K.Amount.kind self.now → IsTrue self.now.checked → result ≡ reason_left K.Amount.kind (left_of self.now) state }
    {
        let round = self.rank_of(state)?;
        let set = Remaining {
            ranks: self.ranks,
            round,
        };
        reason_of(self.held_bands(), state as u16, &set)
    }
}

/// Whether a table with so many rank places cannot have so many states.
fn is_no_count(states: usize, rank_places: usize) -> bool
    ensures { result ≡ (states == 0 || (nat_lt 256 states || nat_lt rank_places states)) }
{
    states == 0 || STATES < states || rank_places < states
}

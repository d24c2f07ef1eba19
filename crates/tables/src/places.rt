// The caller's band places: held bands are searched, put in and taken out in place.
ghost use Rattle.std.specs.Prelude.{◌≡◌, ◌+◌, ◌<◌, ◌≤◌, min, length, nat_le};
ghost use Rattle.std.specs.List.{insert, remove};
ghost use Rattle.std.specs.List.Sorted.{IsSearchInRange};
ghost use Rattle.tables.specs.Held.{Ascending, Found, bounds_of, both_nothing, key_of};

use crate::band::Band;
use crate::table::Table;
use amounts::amount::Amount;
use refusals::Refusal;

/// At most so many band places are used.
pub const BAND_PLACES: usize = 4_096;

impl<'a, K: Amount> Table<'a, K> {
    ghost use Rattle.tables.specs.Places.{KeepsRest, Placed, bands_of};

    pub(crate) fn held_bands(&self) -> &[Band<K>]
        ensures { result.now ≡ bands_of self.now }
    {
        &self.bands[..self.held]
    }

    fn is_full(&self) -> bool
        ensures { result ≡ nat_le (min (length self.now.bands.now) 4096) self.now.held }
    {
        self.bands.len().min(BAND_PLACES) <= self.held
    }

    /// Puts a band among the held ones in place of that of its pair.
    pub(crate) fn place(&mut self, band: Band<K>) -> Result<(), Refusal>
        ensures placed { Ascending (bands_of self.old) → Placed K.Amount.kind band self.old self.new result }
        ensures rest { KeepsRest self.old self.new }
    {
        match (self.find(&band), is_nothing(&band)) {
            (Ok(at), true) => self.take_out(at),
            (Ok(at), false) => self.bands[at] = band,
            (Err(_), true) => {}
            (Err(at), false) => {
                if self.is_full() {
                    return Err(Refusal::NoFreePlace);
                }
                self.put_in(at, band);
            }
        }
        Ok(())
    }

    /// Where the pair of a band stands among the held bands, or else would stand.
    fn find(&self, band: &Band<K>) -> Result<usize, usize>
        ensures within { IsSearchInRange result self.now.held }
        ensures found { Ascending (bands_of self.now) → Found (key_of band.now) (bands_of self.now) result }
    {
        self.held_bands()
            .binary_search_by_key(&band.pair(), |there| there.pair())
    }

    /// Puts a band in at `at`, and moves those after it one place up.
    fn put_in(&mut self, at: usize, band: Band<K>)
        requires room { self.old.held < length self.old.bands.now }
        requires within { at ≤ self.old.held }
        ensures put { bands_of self.new ≡ insert (bands_of self.old) at band }
        ensures rest { KeepsRest self.old self.new }
    {
        self.bands.copy_within(at..self.held, at + 1);
        self.bands[at] = band;
        self.held += 1;
    }

    /// Takes out the band at `at`, and moves those after it one place down.
    fn take_out(&mut self, at: usize)
        requires there { at < self.old.held }
        ensures taken { bands_of self.new ≡ remove (bands_of self.old) at }
        ensures rest { KeepsRest self.old self.new }
    {
        self.bands.copy_within(at + 1..self.held, at);
        self.held -= 1;
    }
}

fn is_nothing<K: Amount>(band: &Band<K>) -> bool
    ensures { result ≡ both_nothing K.Amount.kind (bounds_of band.now) }
{
    band.low.at_most(K::nothing()) && band.high.at_most(K::nothing())
}

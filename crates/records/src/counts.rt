// How many records of each kind were read.
ghost use Rattle.std.specs.Prelude.{◌≡◌};
ghost use Rattle.records.specs.Counts.{with_one, none_yet};
ghost use Rattle.records.specs.Reading.{said};

use crate::record::Record;

#[derive(Clone, Copy, PartialEq, Eq, Debug)]
pub struct Counts {
    pub bands: usize,
    pub names: usize,
}

impl Counts {
    pub fn none() -> Counts
        ensures { result ≡ none_yet }
    {
        Counts { bands: 0, names: 0 }
    }

    /// These and one record more. A count stops at the largest `usize`, which no input in memory reaches.
    pub fn with(self, entry: &Record<'_>) -> Counts
        ensures { result ≡ with_one self (said entry.now) }
    {
        match entry {
            Record::Band { .. } => Counts {
                bands: self.bands.saturating_add(1),
                ..self
            },
            Record::Name { .. } => Counts {
                names: self.names.saturating_add(1),
                ..self
            },
        }
    }
}

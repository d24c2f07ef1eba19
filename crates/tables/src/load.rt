// Load: one set for each band record of a record file.
ghost use Rattle.std.specs.Prelude.{◌≡◌, ◌<◌};
ghost use Rattle.records.specs.Format.{band};
ghost use Rattle.records.specs.Reading.{said};
ghost use Rattle.refusals.specs.declared.Refusal.TheVariants.{NoAmount};
ghost use Rattle.std.specs.Option.{ok_or};
ghost use Rattle.tables.specs.Calls.{Lent, Sound};
ghost use Rattle.tables.specs.Loading.{Accepts, Loads};
ghost use Rattle.tables.specs.declared.load.LoadFault.TheVariants.{Records, Table as OfTable};

use crate::arguments::{Asked, check_sized, check_state};
use crate::table::Table;
use amounts::record_number::RecordNumber;
use records::counts::Counts;
use records::fault::RecordFault;
use records::reader::Reader;
use records::record::Record;
use refusals::{Bound, Refusal};

/// Why a load stopped, and at the record with which index.
#[derive(Clone, Copy, PartialEq, Eq, Debug)]
pub enum LoadFault {
    /// The reader found a fault.
    Records { index: usize, fault: RecordFault },
    /// The table refused the record.
    Table { index: usize, refusal: Refusal },
}

/// A fault with the index of its record, which `?` turns into a `LoadFault`.
#[derive(Clone, Copy)]
struct Numbered<F> {
    index: usize,
    fault: F,
}

// Each layer's fault has a variant and a field of its own, so each has its own `From`.
impl From<Numbered<RecordFault>> for LoadFault {
    ghost from_gives = { λ numbered r. r ≡ Records numbered.index numbered.fault };

    fn from(numbered: Numbered<RecordFault>) -> LoadFault {
        LoadFault::Records {
            index: numbered.index,
            fault: numbered.fault,
        }
    }
}

impl From<Numbered<Refusal>> for LoadFault {
    ghost from_gives = { λ numbered r. r ≡ OfTable numbered.index numbered.fault };

    fn from(numbered: Numbered<Refusal>) -> LoadFault {
        LoadFault::Table {
            index: numbered.index,
            refusal: numbered.fault,
        }
    }
}

impl<'a, K: RecordNumber> Table<'a, K> {
    /// Sets the bands of the records in order. The records before a fault stay accepted.
    pub fn load(&mut self, records: &[u8]) -> Result<Counts, LoadFault>
        ensures loads { Sound K.Amount.kind self.old → Loads K.Amount.kind K.RecordNumber.amount_of self.old self.new records.now result }
        ensures lent { Lent self.old self.new }
    {
        check_sized(self.states).map_err(|fault| Numbered { index: 0, fault })?;
        self.load_records(records)
    }

    fn load_records(&mut self, records: &[u8]) -> Result<Counts, LoadFault>
        ensures loads { Sound K.Amount.kind self.old → 0 < self.old.states → Loads K.Amount.kind K.RecordNumber.amount_of self.old self.new records.now result }
        ensures lent { Lent self.old self.new }
    {
        let mut reader = Reader::new(records);
        let mut counts = Counts::none();
        'records: loop {
            // Here and in a listing: a sum of two fields is no plainer under a name.
            let index = counts.bands + counts.names;
            let Some(entry) = reader.next().map_err(|fault| Numbered { index, fault })? else {
                return Ok(counts);
            };
            self.accept(&entry)
                .map_err(|fault| Numbered { index, fault })?;
            counts = counts.with(&entry);
        }
    }

    fn accept(&mut self, entry: &Record<'_>) -> Result<(), Refusal>
        ensures accepts { Sound K.Amount.kind self.old → Accepts K.Amount.kind K.RecordNumber.amount_of self.old self.new (said entry.now) result }
        ensures lent { Lent self.old self.new }
    {
        match *entry {
            Record::Band {
                source,
                target,
                low,
                high,
            } => self.set_numbers(Asked {
                source: usize::from(source),
                target: usize::from(target),
                low,
                high,
            }),
            Record::Name { state, .. } => check_state(self.states, usize::from(state), 0),
        }
    }

    fn set_numbers(&mut self, asked: Asked<u32>) -> Result<(), Refusal>
        ensures accepts { Sound K.Amount.kind self.old → Accepts K.Amount.kind K.RecordNumber.amount_of self.old self.new (band asked.source asked.target asked.low asked.high) result }
        ensures lent { Lent self.old self.new }
    {
        check_state(self.states, asked.source, 0)?;
        check_state(self.states, asked.target, 1)?;
        let low: K = amount(asked.low, Bound::Low)?;
        let high: K = amount(asked.high, Bound::High)?;
        self.set(asked.source, asked.target, low, high)
    }
}

/// The amount that a record number stands for.
fn amount<K: RecordNumber>(number: u32, bound: Bound) -> Result<K, Refusal>
    ensures { result ≡ ok_or (K.RecordNumber.amount_of number) (NoAmount bound) }
{
    K::from_number(number).ok_or(Refusal::NoAmount { bound })
}

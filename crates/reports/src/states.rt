// How many states a record file speaks of.
ghost use Rattle.std.specs.Prelude.{◌≡◌};
ghost use Rattle.records.specs.Reading.{said};
ghost use Rattle.reports.specs.Reporting.{larger_state, state_count};

use records::reader::Reader;
use records::record::Record;

/// One more than the largest state number in the records before the end or a fault, and 1 without records.
pub(crate) fn state_count(records: &[u8]) -> usize
    ensures { result ≡ state_count records.now }
{
    let mut reader = Reader::new(records);
    let mut largest = 0;
    'records: while let Ok(Some(entry)) = reader.next() {
        largest = larger_state(largest, &entry);
    }
    usize::from(largest) + 1
}

fn larger_state(largest: u8, entry: &Record<'_>) -> u8
    ensures { result ≡ larger_state largest (said entry.now) }
{
    match entry {
        Record::Band { source, target, .. } => largest.max((*source).max(*target)),
        Record::Name { state, .. } => largest.max(*state),
    }
}

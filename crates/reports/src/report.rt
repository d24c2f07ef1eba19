// The report on a record file.
ghost use Rattle.std.specs.Prelude.{◌≡◌, ◌+◌, ◌≤◌, length, IsTrue};
ghost use Rattle.amounts.specs.Shares.{shares};
ghost use Rattle.reports.specs.Reporting.{Ran, Reported, report_left, report_lines, table_text};
ghost use Rattle.tables.specs.Calls.{left_of, Lent, Sound, VerdictOn};
ghost use Rattle.tables.specs.Left.{opened};
ghost use Rattle.text.specs.Pages.{HasRoom, PutOn};

use crate::lines::{put_removed, put_state};
use crate::states::state_count;
use crate::stop::Stop;
use amounts::shares::Share;
pub use records::limits::{BUFFER_BYTES, INPUT_BYTES};
use refusals::Refusal;
use tables::band::Band;
use tables::table::Table;
use tables::verdict::Verdict;
use text::page::Page;
use text::refused::put_refused;
use text::room::{TooShort, check_room};

/// Room for every report.
pub const TEXT_BYTES: usize = 4_096;

/// Writes a line for each state of the record file and a closing line, or the line of a refusal, and answers how long the text is.
pub fn report(
    records: &[u8],
    bands: &mut [Band<Share>],
    ranks: &mut [u16],
    text: &mut [u8],
) -> Result<usize, Refusal>
    ensures { Reported records.now text.old text.new (record { bands = bands.entry.now; ranks = ranks.old }) (record { bands = bands.exit.now; ranks = ranks.new }) result }
{
    check_room(text, TEXT_BYTES)?;
    let mut page = Page::new(text);
    if records.len() > INPUT_BYTES {
        put_refused(&mut page, Refusal::LongInput, 0)?;
    } else {
        let mut table = Table::open(bands, ranks);
        put_report(&mut page, &mut table, records)?;
    }
    Ok(page.at)
}

fn put_report(
    page: &mut Page<'_>,
    table: &mut Table<'_, Share>,
    records: &[u8],
) -> Result<(), TooShort>
    requires room { HasRoom page.old 4096 }
    requires sound { Sound shares table.old }
    requires opened { left_of table.old ≡ opened (length table.old.bands.now) (length table.old.ranks.now) }
    ensures writes { PutOn page.old (table_text table.old records.now) page.new result }
    ensures short { length (table_text table.old records.now) ≤ 4096 }
    ensures left { left_of table.new ≡ report_left (length table.old.bands.now) (length table.old.ranks.now) records.now }
    ensures sound { Sound shares table.new }
    ensures lent { Lent table.old table.new }
{
    match ranked(table, records) {
        Ok(verdict) => put_lines(page, table, &verdict),
        Err(stop) => put_refused(page, stop.refusal, stop.index),
    }
}

/// Sizes, loads and checks a table that was just opened.
fn ranked(table: &mut Table<'_, Share>, records: &[u8]) -> Result<Verdict, Stop>
    requires sound { Sound shares table.old }
    requires opened { left_of table.old ≡ opened (length table.old.bands.now) (length table.old.ranks.now) }
    ensures ran { Ran (length table.old.bands.now) (length table.old.ranks.now) records.now table.new result }
    ensures lent { Lent table.old table.new }
{
    table.size(state_count(records), 0)?;
    table.load(records)?;
    Ok(table.check()?)
}

/// Writes the lines of a table whose verdict is in force.
fn put_lines(
    page: &mut Page<'_>,
    table: &Table<'_, Share>,
    verdict: &Verdict,
) -> Result<(), TooShort>
    requires room { HasRoom page.old 4096 }
    requires sound { Sound shares table.now }
    requires checked { IsTrue table.now.checked }
    requires verdict { VerdictOn shares (left_of table.now) verdict.now }
    ensures writes { PutOn page.old (report_lines (left_of table.now)) page.new result }
    ensures short { length (report_lines (left_of table.now)) ≤ 4096 }
{
    for state in 0..verdict.states {
        // A verdict is in force, and the state is one of the table.
        let rank = table.rank(state).unwrap();
        put_state(page, state, rank)?;
    }
    put_removed(page, verdict)
}

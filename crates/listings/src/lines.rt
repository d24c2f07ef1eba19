// The lines of a listing.
ghost use Rattle.listings.specs.Listing.{line, counts_line};
ghost use Rattle.records.specs.Reading.{said};
ghost use Rattle.text.specs.Pages.{PutOn};

use records::counts::Counts;
use records::record::Record;
use text::page::Page;
use text::piece::Piece;
use text::room::TooShort;

pub(crate) fn put_record(page: &mut Page<'_>, entry: &Record<'_>) -> Result<(), TooShort>
    ensures { PutOn page.old (line (said entry.now)) page.new result }
{
    match entry {
        Record::Band {
            source,
            target,
            low,
            high,
        } => page.put_all(&[
            Piece::Word(b"band "),
            Piece::from(*source),
            Piece::Word(b" "),
            Piece::from(*target),
            Piece::Word(b" "),
            Piece::from(*low),
            Piece::Word(b" "),
            Piece::from(*high),
            Piece::Word(b"\n"),
        ]),
        Record::Name { state, name, .. } => page.put_all(&[
            Piece::Word(b"name "),
            Piece::from(*state),
            Piece::Word(b" "),
            Piece::Hex(name),
            Piece::Word(b"\n"),
        ]),
    }
}

pub(crate) fn put_counts(page: &mut Page<'_>, counts: Counts) -> Result<(), TooShort>
    ensures { PutOn page.old (counts_line counts) page.new result }
{
    page.put_all(&[
        Piece::from(counts.bands),
        Piece::Word(b" bands, "),
        Piece::from(counts.names),
        Piece::Word(b" names\n"),
    ])
}

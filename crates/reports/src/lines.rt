// The lines of a report.
ghost use Rattle.reports.specs.Reporting.{state_line, removed_line};
ghost use Rattle.text.specs.Pages.{PutOn};

use tables::verdict::Verdict;
use text::page::Page;
use text::piece::Piece;
use text::room::TooShort;

pub(crate) fn put_state(
    page: &mut Page<'_>,
    state: usize,
    rank: Option<u16>,
) -> Result<(), TooShort>
    ensures { PutOn page.old (state_line state rank) page.new result }
{
    match rank {
        Some(rank) => page.put_all(&[
            Piece::from(state),
            Piece::Word(b" "),
            Piece::from(rank),
            Piece::Word(b"\n"),
        ]),
        None => page.put_all(&[Piece::from(state), Piece::Word(b" stands\n")]),
    }
}

pub(crate) fn put_removed(page: &mut Page<'_>, verdict: &Verdict) -> Result<(), TooShort>
    ensures { PutOn page.old (removed_line verdict.now.removed verdict.now.states verdict.now.rounds) page.new result }
{
    page.put_all(&[
        Piece::Word(b"removed "),
        Piece::from(verdict.removed),
        Piece::Word(b" of "),
        Piece::from(verdict.states),
        Piece::Word(b" in "),
        Piece::from(verdict.rounds),
        Piece::Word(b" rounds\n"),
    ])
}

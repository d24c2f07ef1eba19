// The line that tells of a refusal.
ghost use Rattle.std.specs.Prelude.{◌≤◌, length};
ghost use Rattle.text.specs.Pages.{PutOn};
ghost use Rattle.text.specs.Refused.{refused_line};

use crate::page::Page;
use crate::piece::Piece;
use crate::room::TooShort;
use refusals::Refusal;

/// Writes the line of `refusal` at the record with this index.
pub fn put_refused(page: &mut Page<'_>, refusal: Refusal, index: usize) -> Result<(), TooShort>
    ensures writes { PutOn page.old (refused_line refusal index) page.new result }
    ensures short { length (refused_line refusal index) ≤ 67 }
{
    page.put_all(&[
        Piece::Word(b"refused "),
        Piece::from(refusal.number()),
        Piece::Word(b" record "),
        Piece::from(index),
        Piece::Word(b" place "),
        Piece::from(refusal.place()),
        Piece::Word(b"\n"),
    ])
}

// Pieces of text, of which lines are made.
ghost use Rattle.std.specs.Prelude.{◌≡◌, ◌-◌, ◌^◌, min, length};
ghost use Rattle.text.specs.Pieces.{bytes_of, printed};
ghost use Rattle.text.specs.declared.piece.Piece.TheVariants.{Decimal};

use crate::hex::hex_len;
use itoa::Buffer;

/// A piece of text: bytes as they stand, a number in decimal, or bytes in hexadecimal.
/// It has no `Display`: no clause of `write!` says that it succeeds where there is room, as a put does.
#[derive(Clone, Copy)]
pub enum Piece<'a> {
    Word(&'a [u8]),
    Decimal(u64),
    Hex(&'a [u8]),
}

impl Piece<'_> {
    pub(crate) fn len(&self) -> usize
        ensures { result ≡ length (bytes_of self.now) }
    {
        match self {
            Piece::Word(word) => word.len(),
            Piece::Decimal(number) => Buffer::new().format(*number).len(),
            Piece::Hex(bytes) => hex_len(bytes),
        }
    }
}

/// How many bytes the pieces have together, or the largest `usize` where that is more.
pub(crate) fn pieces_len(pieces: &[Piece<'_>]) -> usize
    ensures { result ≡ min (length (printed pieces.now)) (2 ^ 64 - 1) }
{
    pieces.iter().map(Piece::len).fold(0, usize::saturating_add)
}

// One impl for each width: `Into<u64>` leaves out `usize`, and a macro may write no ghost member.
impl From<u8> for Piece<'_> {
    ghost from_gives = { λ number r. r ≡ Decimal number };

    fn from(number: u8) -> Self {
        Piece::Decimal(u64::from(number))
    }
}

impl From<u16> for Piece<'_> {
    ghost from_gives = { λ number r. r ≡ Decimal number };

    fn from(number: u16) -> Self {
        Piece::Decimal(u64::from(number))
    }
}

impl From<u32> for Piece<'_> {
    ghost from_gives = { λ number r. r ≡ Decimal number };

    fn from(number: u32) -> Self {
        Piece::Decimal(u64::from(number))
    }
}

impl From<usize> for Piece<'_> {
    ghost from_gives = { λ number r. r ≡ Decimal number };

    fn from(number: usize) -> Self {
        Piece::Decimal(number as u64)
    }
}

// Pages: bytes that the caller lends, and where the next text in them begins.
ghost use Rattle.std.specs.Prelude.{◌≡◌, ◌+◌, ◌≤◌, length, decimal};
ghost use Rattle.text.specs.Pages.{HasRoom, PutOn};
ghost use Rattle.text.specs.Pieces.{bytes_of, printed};
ghost use Rattle.text.specs.Puts.{end_of, hexadecimal};

use crate::hex::{hex_len, spell};
use crate::piece::{Piece, pieces_len};
use crate::room::TooShort;
use itoa::Buffer;

/// Bytes that the caller lends, and where the next text in them begins. That may be past their end: no text fits there.
#[derive(Drop)]
pub struct Page<'a> {
    pub bytes: &'a mut [u8],
    pub at: usize,
}

impl<'a> Page<'a> {
    /// A page whose first text begins at its first byte.
    pub fn new(bytes: &'a mut [u8]) -> Page<'a>
        ensures start { result.at ≡ 0 }
        ensures bytes { result.bytes ≡ bytes.entry }
    {
        Page { bytes, at: 0 }
    }

    /// Writes the bytes as they stand.
    pub fn put_word(&mut self, word: &[u8]) -> Result<(), TooShort>
        ensures { PutOn self.old word.now self.new result }
    {
        let end = self.end_of(word.len())?;
        self.bytes[self.at..end].copy_from_slice(word);
        self.at = end;
        Ok(())
    }

    /// Writes the number as `{}` prints it.
    pub fn put_decimal(&mut self, number: u64) -> Result<(), TooShort>
        ensures { PutOn self.old (decimal number) self.new result }
    {
        self.put_word(Buffer::new().format(number).as_bytes())
    }

    /// Writes each byte as two hexadecimal digits, in upper case.
    pub fn put_hex(&mut self, bytes: &[u8]) -> Result<(), TooShort>
        ensures { PutOn self.old (hexadecimal bytes.now) self.new result }
    {
        let after = self.end_of(hex_len(bytes))?;
        spell(bytes, &mut self.bytes[self.at..after]);
        self.at = after;
        Ok(())
    }

    /// Writes the pieces one after another: all of them or none.
    pub fn put_all(&mut self, pieces: &[Piece<'_>]) -> Result<(), TooShort>
        ensures { PutOn self.old (printed pieces.now) self.new result }
    {
        // All the room is looked for first, so that a refusal leaves the page as it was.
        self.end_of(pieces_len(pieces))?;
        self.put_each(pieces)
    }

    fn put_each(&mut self, pieces: &[Piece<'_>]) -> Result<(), TooShort>
        requires { HasRoom self.old (length (printed pieces.now)) }
        ensures { PutOn self.old (printed pieces.now) self.new result }
    {
        for piece in pieces {
            self.put_piece(piece)?;
        }
        Ok(())
    }

    fn put_piece(&mut self, piece: &Piece<'_>) -> Result<(), TooShort>
        ensures { PutOn self.old (bytes_of piece.now) self.new result }
    {
        match piece {
            Piece::Word(word) => self.put_word(word),
            Piece::Decimal(number) => self.put_decimal(*number),
            Piece::Hex(bytes) => self.put_hex(bytes),
        }
    }

    /// Where the next text ends if it has `count` bytes.
    fn end_of(&self, count: usize) -> Result<usize, TooShort>
        ensures { result ≡ end_of (length self.now.bytes.now) self.now.at count }
    {
        let end = self.at.saturating_add(count);
        if end <= self.bytes.len() {
            Ok(end)
        } else {
            Err(TooShort { need: end })
        }
    }
}

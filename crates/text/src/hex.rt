// Hexadecimal digits, in upper case.
ghost use Rattle.std.specs.Prelude.{◌≡◌, ◌<◌, true, [], ◌∷◌, length};
ghost use Rattle.std.specs.Fmt.{digit_glyph};
ghost use Rattle.text.specs.Puts.{hexadecimal};

/// Spells the bytes over a text that has as many digits.
// By an index: of parts that an iterator lends for writing no proof knows what they hold once it is done.
pub(crate) fn spell(bytes: &[u8], text: &mut [u8])
    requires { length text.old ≡ length (hexadecimal bytes.now) }
    ensures { text.new ≡ hexadecimal bytes.now }
{
    for (i, byte) in bytes.iter().enumerate() {
        text[2 * i..2 * i + 2].copy_from_slice(&digits(*byte));
    }
}

/// The two digits of a byte.
fn digits(byte: u8) -> [u8; 2]
    ensures { result ≡ hexadecimal (byte ∷ []) }
{
    [digit(byte / 16), digit(byte % 16)]
}

/// How many digits the bytes have.
pub(crate) fn hex_len(bytes: &[u8]) -> usize
    ensures { result ≡ length (hexadecimal bytes.now) }
{
    2 * bytes.len()
}

// No table of digits: with one, long texts took three times as long.
fn digit(value: u8) -> u8
    requires { value < 16 }
    ensures { result ≡ digit_glyph true value }
{
    if value < 10 {
        b'0' + value
    } else {
        b'A' + (value - 10)
    }
}

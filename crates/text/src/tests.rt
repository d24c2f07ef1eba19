// Each kind of text where it fits, where it fits just so, and where it is a byte too long.
use crate::page::Page;
use crate::piece::Piece;
use crate::refused::put_refused;
use crate::room::TooShort;
use refusals::Refusal;

/// Puts a text at `at`, and answers where it ends.
fn put_at<F: FnOnce(&mut Page<'_>) -> Result<(), TooShort>>(
    bytes: &mut [u8],
    at: usize,
    put: F,
) -> Result<usize, TooShort>
    requires { F.IsAlwaysCallable put }
{
    let mut page = Page { bytes, at };
    put(&mut page)?;
    Ok(page.at)
}

#[test]
fn a_word_lies_between_untouched_bytes(rt: HostRuntime) {
    let mut text = *b"........";
    assert_eq!(rt; put_at(&mut text, 2, |page| page.put_word(b"word")), Ok(6));
    assert!(rt; &text == b"..word..");
    assert_eq!(rt; put_at(&mut text, 8, |page| page.put_word(b"")), Ok(8));
    assert!(rt; &text == b"..word..");
}

#[test]
fn every_kind_fits_just_so(rt: HostRuntime) {
    let mut text = *b"........";
    assert_eq!(rt; put_at(&mut text, 4, |page| page.put_word(b"word")), Ok(8));
    assert!(rt; &text == b"....word");
    assert_eq!(rt; put_at(&mut text, 5, |page| page.put_decimal(100)), Ok(8));
    assert!(rt; &text == b"....w100");
    assert_eq!(rt; put_at(&mut text, 6, |page| page.put_hex(&[0xab])), Ok(8));
    assert!(rt; &text == b"....w1AB");
    assert_eq!(rt;
        put_at(&mut text, 7, |page| page.put_all(&[Piece::Decimal(7)])),
        Ok(8)
    );
    assert!(rt; &text == b"....w1A7");
}

#[test]
fn a_byte_too_long_is_not_written(rt: HostRuntime) {
    let mut text = *b"........";
    assert_eq!(rt;
        put_at(&mut text, 5, |page| page.put_word(b"word")),
        Err(TooShort { need: 9 })
    );
    assert_eq!(rt;
        put_at(&mut text, 9, |page| page.put_word(b"")),
        Err(TooShort { need: 9 })
    );
    assert_eq!(rt;
        put_at(&mut text, 6, |page| page.put_decimal(100)),
        Err(TooShort { need: 9 })
    );
    assert_eq!(rt;
        put_at(&mut text, 7, |page| page.put_hex(&[0])),
        Err(TooShort { need: 9 })
    );
    assert!(rt; &text == b"........");
}

#[test]
fn a_need_stops_at_the_largest_number(rt: HostRuntime) {
    let mut text = *b"........";
    let largest = TooShort { need: usize::MAX };
    assert_eq!(rt;
        put_at(&mut text, usize::MAX, |page| page.put_word(b"word")),
        Err(largest)
    );
    assert_eq!(rt;
        put_at(
            &mut text,
            usize::MAX,
            |page| page.put_all(&[Piece::Word(b"word")])
        ),
        Err(largest)
    );
    assert!(rt; &text == b"........");
}

fn put_spaced(page: &mut Page<'_>, numbers: &[u64]) -> Result<(), TooShort> {
    for number in numbers {
        page.put_decimal(*number)?;
        page.put_word(b" ")?;
    }
    Ok(())
}

#[test]
fn decimals_have_no_leading_zero(rt: HostRuntime) {
    let mut text = [b'.'; 46];
    let numbers = [0, 9, 10, 99, 100, 1_048_576, 18_446_744_073_709_551_615];
    assert_eq!(rt;
        put_at(&mut text, 0, |page| put_spaced(page, &numbers)),
        Ok(43)
    );
    assert!(rt; &text == b"0 9 10 99 100 1048576 18446744073709551615 ...");
}

#[test]
fn bytes_have_two_hexadecimal_digits(rt: HostRuntime) {
    let mut text = [b'.'; 12];
    assert_eq!(rt;
        put_at(&mut text, 1, |page| page.put_hex(&[0x00, 0x0f, 0x9a, 0xff])),
        Ok(9)
    );
    assert!(rt; &text == b".000F9AFF...");
}

#[test]
fn pieces_are_put_together_or_not_at_all(rt: HostRuntime) {
    let mut text = [b'.'; 8];
    let pieces = [
        Piece::Word(b"n "),
        Piece::Decimal(42),
        Piece::Word(b" "),
        Piece::Hex(&[0xab]),
    ];
    assert_eq!(rt;
        put_at(&mut text, 2, |page| page.put_all(&pieces)),
        Err(TooShort { need: 9 })
    );
    assert!(rt; &text == b"........");
    assert_eq!(rt; put_at(&mut text, 1, |page| page.put_all(&pieces)), Ok(8));
    assert!(rt; &text == b".n 42 AB");
}

#[test]
fn a_refusal_has_its_line(rt: HostRuntime) {
    let mut text = [b'.'; 32];
    let refusal = Refusal::UnknownRecord { byte: 65 };
    assert_eq!(rt;
        put_at(&mut text[0..28], 0, |page| put_refused(page, refusal, 12)),
        Err(TooShort { need: 29 })
    );
    assert_eq!(rt;
        put_at(&mut text, 0, |page| put_refused(page, refusal, 12)),
        Ok(29)
    );
    assert!(rt; &text == b"refused 5 record 12 place 65\n...");
}

#[test]
fn too_short_is_refusal_7(rt: HostRuntime) {
    let refusal: Refusal = TooShort { need: 9 }.into();
    assert_eq!(rt; refusal, Refusal::ShortList { need: 9 });
}

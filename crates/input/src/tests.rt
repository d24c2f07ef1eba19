// Reading from bytes: fewer than there is room for, just as many, and more.
use crate::read_all;

#[test]
fn a_short_input_is_read_to_its_end(rt: HostRuntime) {
    let mut bytes = *b"........";
    let mut input = &b"input"[..];
    assert_eq!(rt; read_all(&mut input, &mut bytes).ok(), Some(5));
    assert!(rt; &bytes == b"input...");
    assert!(rt; input.is_empty());
}

#[test]
fn an_input_may_fit_just_so(rt: HostRuntime) {
    let mut bytes = *b".....";
    assert_eq!(rt; read_all(&mut &b"input"[..], &mut bytes).ok(), Some(5));
    assert!(rt; &bytes == b"input");
    assert_eq!(rt; read_all(&mut &b"input"[..], &mut []).ok(), Some(0));
}

#[test]
fn a_long_input_is_read_until_the_bytes_are_full(rt: HostRuntime) {
    let mut bytes = *b"...";
    let mut input = &b"input"[..];
    assert_eq!(rt; read_all(&mut input, &mut bytes).ok(), Some(3));
    assert!(rt; &bytes == b"inp");
    assert!(rt; input == b"ut".as_slice());
}

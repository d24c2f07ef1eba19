// inspect: lists the record file on standard input.
#![tactic(auto)]

use input::read_all;
use listings::list::{BUFFER_BYTES, TEXT_BYTES, list};
use std::io;
use std::io::Write;

fn main(rt: HostRuntime) -> io::Result<()> {
    // With no heap, a count says how much of the bytes was read.
    let mut records = [0u8; BUFFER_BYTES];
    let mut text = [0u8; TEXT_BYTES];
    let count = read_all(&mut rt.stdin(), &mut records)?;
    // The text has room for every listing.
    let end = list(&records[0..count], &mut text).unwrap();
    rt.stdout().write_all(&text[0..end])
}

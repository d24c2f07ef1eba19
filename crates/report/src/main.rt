// report: tells which states of the record file on standard input fall, and in which round.
#![tactic(auto)]

use amounts::shares::Share;
use input::read_all;
use reports::report::{BUFFER_BYTES, TEXT_BYTES, report};
use std::io;
use std::io::Write;
use tables::band::Band;
use tables::places::BAND_PLACES;
use tables::table::STATES;

const NO_BAND: Band<Share> = Band {
    source: 0,
    target: 0,
    low: Share { number: 0 },
    high: Share { number: 0 },
};

fn main(rt: HostRuntime) -> io::Result<()> {
    // With no heap, a count says how much of the bytes was read.
    let mut records = [0u8; BUFFER_BYTES];
    let mut bands = [NO_BAND; BAND_PLACES];
    let mut ranks = [0u16; STATES];
    let mut text = [0u8; TEXT_BYTES];
    let count = read_all(&mut rt.stdin(), &mut records)?;
    // The text has room for every report.
    let end = report(&records[0..count], &mut bands, &mut ranks, &mut text).unwrap();
    rt.stdout().write_all(&text[0..end])
}

// The batch beside a plain loop: after each call every place of the output and every number of the result are compared.
#![tactic(auto)]

use std::{array, io};

mod cases;
mod plain;

use cases::Case;

fn main(rt: HostRuntime) -> io::Result<()> {
    let input = array::from_fn(pattern);
    let mut calls: u64 = 0;
    let mut differ: u64 = 0;
    for case in (0..cases::COUNT).filter_map(cases::numbered) {
        calls = calls.wrapping_add(1);
        differ = differ.wrapping_add(u64::from(!agrees(case, &input)));
    }
    println!(rt; "{calls} calls, {differ} differ")
}

// Patterns of all kinds: every fifth is NaR, every fifth is zero, and the others are spread over the rest.
fn pattern(i: usize) -> u16 {
    match i % 5 {
        1 => 0x8000,
        3 => 0,
        _ => ((i % 65536 * 40503 + 12345) % 65536) as u16,
    }
}

// Makes the call over a poisoned output. A case that is too long for the arrays agrees with nothing.
fn agrees(c: Case, input: &[u16; 4096]) -> bool {
    let Some(input) = input.get(..c.length) else {
        return false;
    };
    let mut output = plain::POISONED;
    let Some(room) = output.get_mut(..c.room) else {
        return false;
    };
    let got = batch::batch(c.function, input, room, c.start, c.limit);
    let mut want = plain::POISONED;
    got.map_err(u16::from) == plain::called(c, input, &mut want) && output == want
}

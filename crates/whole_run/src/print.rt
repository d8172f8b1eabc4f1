// What the whole run prints.
use super::Tally;
use p16e1::Function;
use std::fmt::Display;
use std::io;

// What was compared of the function `name`.
pub fn line(
    rt: &impl Print,
    name: impl Display + Drop,
    what: &str,
    tally: Tally,
) -> io::Result<()> {
    let Tally { compared, differ } = tally;
    println!(rt; "{name}: {compared} {what} compared, {differ} differ")
}

// One pattern with both answers, after `what` it is.
pub fn both(
    rt: &impl Print,
    what: &str,
    function: Function,
    p: u16,
    rust: u16,
    here: u16,
) -> io::Result<()> {
    println!(rt; "{what}: {function}: {p}: the Rust 0x{rust:04x}, here 0x{here:04x}")
}

// One square root with both answers.
pub fn root(rt: &impl Print, j: u64, rust: u64, here: u64) -> io::Result<()> {
    println!(rt; "differs: square root of 2^42 times {j}: the Rust {rust}, here {here}")
}

// The whole run: all 65,536 patterns of each function, and the 4,097 square roots, beside the Rust's answers.
//
// Standard input is what oracle/record writes: ten tables of 65,536 16-bit answers in the order of the function numbers,
// then 4,097 32-bit roots, all little-endian. One line is printed for each function, after a line for each of its first
// answers that differ and for each of the points that document 01 names.
#![tactic(auto)]

use p16e1::Function;
use std::io;
use std::io::Input;
use std::ops::RangeInclusive;

mod points;
mod print;

// What has been compared so far.
#[derive(Clone, Copy, Default)]
struct Tally {
    compared: u64,
    differ: u64,
}

impl Tally {
    // Counts two answers, and says whether they are among the first that differ.
    fn counts(&mut self, differ: bool) -> bool {
        let first = differ && self.differ < 5;
        self.compared = self.compared.wrapping_add(1);
        self.differ = self.differ.wrapping_add(u64::from(differ));
        first
    }
}

fn main(rt: HostRuntime) -> io::Result<()> {
    for function in (1..=10).filter_map(|number: u16| Function::try_from(number).ok()) {
        table(&rt, function)?;
    }
    roots(&rt)
}

// Compares one function's table and prints its line. An input that ends early leaves patterns out of the count.
fn table(rt: &(impl Input + Print + Eprint), function: Function) -> io::Result<()> {
    let mut tally = Tally::default();
    half(rt, function, 0..=0x7FFF, &mut tally)?;
    half(rt, function, 0x8000..=0xFFFF, &mut tally)?;
    print::line(rt, function, "patterns", tally)
}

// Reads the answers to the patterns and compares them.
fn half(
    rt: &(impl Input + Print + Eprint),
    function: Function,
    patterns: RangeInclusive<u16>,
    tally: &mut Tally,
) -> io::Result<()> {
    let mut buffer = [0u8; 65536];
    let (answers, _) = blocks::read_block(rt, &mut buffer).bytes.as_chunks::<2>();
    for (p, bytes) in patterns.zip(answers) {
        let rust = u16::from_le_bytes(*bytes);
        let here = function.answer(p);
        if tally.counts(here != rust) {
            print::both(rt, "differs", function, p, rust, here)?;
        }
        if points::named(function, p) {
            print::both(rt, "point", function, p, rust, here)?;
        }
    }
    Ok(())
}

// Compares the square roots of j * 2^42, for j from 0 to 4,096.
fn roots(rt: &(impl Input + Print + Eprint)) -> io::Result<()> {
    let mut buffer = [0u8; 16388];
    let (roots, _) = blocks::read_block(rt, &mut buffer).bytes.as_chunks::<4>();
    let mut tally = Tally::default();
    for (j, bytes) in (0..=4096).zip(roots) {
        let rust = u64::from(u32::from_le_bytes(*bytes));
        let here = arc::square_root(j << 42);
        if tally.counts(here != rust) {
            print::root(rt, j, rust, here)?;
        }
    }
    print::line(rt, "square root", "roots", tally)
}

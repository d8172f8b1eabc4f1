// The calls on two answered listings, on pairs of every kind, refused ones among them, in both modes. Standard input holds cases, one
// after the other: a byte that is 1 for the short mode, the place to look from, how long each listing is, as 16-bit numbers, low byte
// first, and the two listings. For each case it prints the refusal's number and the place found in a line, and after it what is said
// of the pair. `tools/compare-check --write` made stdin, and from it stdout, by a model that shares nothing with the program.
#![tactic(auto)]

use std::io;

fn main(rt: HostRuntime) -> io::Result<()> {
    let mut input = blocks::input_block();
    try_all(&rt, blocks::read_block(&rt, &mut input).bytes)
}

fn try_all(rt: &(impl Print + Eprint), cases: &[u8]) -> io::Result<()> {
    let mut rest = cases;
    while let Some((head, after)) = rest.split_first_chunk::<7>() {
        let short = head[0] == 1;
        let from = words::number_at(head, 1);
        let first = usize::from(words::number_at(head, 3));
        let second = usize::from(words::number_at(head, 5));
        if after.len() < first + second {
            return Ok(());
        }
        let (pair, left) = after.split_at(first + second);
        let (first, second) = pair.split_at(first);
        if !try_one(rt, first, second, usize::from(from), short)? {
            return Ok(());
        }
        rest = left;
    }
    Ok(())
}

// Tries one pair, and answers whether what was found could be written.
fn try_one(
    rt: &(impl Print + Eprint),
    first: &[u8],
    second: &[u8],
    from: usize,
    short: bool,
) -> io::Result<bool> {
    let found = comparison::difference(first, second, from);
    let number = refusals::number(found.err());
    let place = found.unwrap_or(0);
    println!(rt; "{number} {place}")?;
    let mut output = [0u8; 65536];
    let n = comparison::compare(first, second, short, &mut output);
    Ok(blocks::write_block(rt, &output[..n]))
}

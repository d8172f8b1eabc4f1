// The calls on listings in pieces, refused ones and states that no calls produce among them. Standard input holds steps, one after the
// other: a byte that says which, how many bytes of it follow, as a 16-bit number, low byte first, and those. 0: a fresh state. 1: these
// bytes are the next piece. 2: the end, with an output as long as the number says. 3: four numbers put into the state, a place and
// the byte there, how many bytes have come, and the refusal. For each call it prints its refusal's number and, in a line with it, how
// many bytes the state keeps or how many the end wrote; after an end the whole output. `tools/pieces-check --write` made stdin, and
// from it stdout, by a model that shares nothing with the program.
#![tactic(auto)]

use piece_state::Pieces;
use refusals::Refusal;
use std::io;

fn main(rt: HostRuntime) -> io::Result<()> {
    let mut input = blocks::input_block();
    let block = blocks::read_block(&rt, &mut input);
    try_all(&rt, block.bytes)
}

fn try_all(rt: &(impl Print + Eprint), steps: &[u8]) -> io::Result<()> {
    let mut state = pieces::fresh();
    let mut left = steps;
    while let [kind, low, high, rest @ ..] = left {
        let length = usize::from(u16::from_le_bytes([*low, *high]));
        let Some((bytes, next)) = rest.split_at_checked(length) else {
            return Ok(());
        };
        state = step(rt, state, *kind, bytes)?;
        left = next;
    }
    Ok(())
}

fn step(rt: &(impl Print + Eprint), state: Pieces, kind: u8, bytes: &[u8]) -> io::Result<Pieces> {
    match kind {
        0 => Ok(pieces::fresh()),
        1 => take_piece(rt, state, bytes),
        2 => end_with(rt, state, words::number_at(bytes, 0)),
        _ => Ok(changed(state, bytes)),
    }
}

fn take_piece(rt: &impl Print, state: Pieces, bytes: &[u8]) -> io::Result<Pieces> {
    let done = pieces::piece(state, bytes);
    print_two(rt, done.refusal, usize::from(done.state.count))?;
    Ok(done.state)
}

fn end_with(rt: &(impl Print + Eprint), state: Pieces, room: u16) -> io::Result<Pieces> {
    let mut output = [0u8; 65536];
    end_into(rt, state, &mut output[..usize::from(room)])
}

fn end_into(rt: &(impl Print + Eprint), state: Pieces, output: &mut [u8]) -> io::Result<Pieces> {
    let done = pieces::end(state, output);
    print_two(rt, done.written.err(), done.written.unwrap_or(0))?;
    blocks::write_block(rt, output);
    Ok(done.state)
}

fn changed(state: Pieces, numbers: &[u8]) -> Pieces {
    let mut bytes = state.bytes;
    if let Some(byte) = bytes.get_mut(usize::from(words::number_at(numbers, 0))) {
        *byte = (words::number_at(numbers, 2) % 256) as u8;
    }
    Pieces {
        bytes,
        count: words::number_at(numbers, 4),
        refusal: refusals::numbered(words::number_at(numbers, 6)),
    }
}

fn print_two(rt: &impl Print, refusal: Option<Refusal>, bytes: usize) -> io::Result<()> {
    println!(rt; "{} {bytes}", refusals::number(refusal))
}

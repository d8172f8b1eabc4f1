// Reads a listing from standard input and writes the answered listing to standard output, or FF FF and the refusal's number as two
// bytes. No listing is longer than 2,072 bytes, and of longer input the first 2,073 bytes decide how it is refused, so no more are
// read. A read or a write that fails is told on standard error; after a read that failed nothing is written, for nobody knows what
// the listing was.
#![tactic(auto)]

use std::process::ExitCode;

fn main(rt: HostRuntime) -> ExitCode {
    if !blocks::without_words(&rt) {
        return ExitCode::FAILURE;
    }
    let mut input = [0u8; 2073];
    let block = blocks::read_block(&rt, &mut input);
    if block.then == blocks::Then::Failed {
        return ExitCode::FAILURE;
    }
    let mut output = [0u8; 22554];
    let written = reply::reply_to(block.bytes, &mut output);
    if blocks::write_block(&rt, &output[..written]) {
        ExitCode::SUCCESS
    } else {
        ExitCode::FAILURE
    }
}

// compare FIRST SECOND [short]: reads two answered listings from two files and prints a line for each place that differs: function,
// pattern, both answers, and the second less the first with both read as signed numbers. With the word short it prints the first
// such line and no more. Where a listing is refused, or the two ask different things, the refusal's number is the only line. No
// answered listing is longer than 22,554 bytes, and of a longer file the first 22,555 bytes decide how it is refused, so no more are
// read. A file that cannot be opened or read is told on standard error, and then nothing is printed. `tools/compare-check --write`
// made the files in data/ and, by a model that shares nothing with the program, stdout.
#![tactic(auto)]

use blocks::Then;
use std::env::{Env, FillError};
use std::fs::Files;
use std::process::ExitCode;

fn main(rt: HostRuntime) -> ExitCode {
    if has_word(&rt, 2) && !has_word(&rt, 3) {
        return compare_files(&rt, false);
    }
    if has_word(&rt, 3) && !has_word(&rt, 4) && is_short(&rt) {
        return compare_files(&rt, true);
    }
    let _ = eprintln!(rt;
        "failed: usage: compare FIRST SECOND [short], the names of two files with answered listings"
    );
    ExitCode::FAILURE
}

// Whether the program was started with a word of that number.
fn has_word(rt: &impl Env, word: usize) -> bool {
    let mut first = [0u8; 1];
    !matches!(rt.arg(word, &mut first), Err(FillError::NotPresent))
}

// Whether the third word is the one that the program takes.
fn is_short(rt: &impl Env) -> bool {
    let mut word = [0u8; 5];
    if rt.arg(3, &mut word).is_err() {
        return false;
    }
    word == *b"short"
}

fn compare_files(rt: &(impl Env + Files + Print + Eprint), short: bool) -> ExitCode {
    let mut first = [0u8; 22555];
    let one = blocks::read_file(rt, 1, &mut first);
    if one.then == Then::Failed {
        return ExitCode::FAILURE;
    }
    let mut second = [0u8; 22555];
    let two = blocks::read_file(rt, 2, &mut second);
    if two.then == Then::Failed {
        return ExitCode::FAILURE;
    }
    // 31 bytes for each line of as many as two listings can have, 10,240
    let mut output = blocks::room::<317440>();
    let written = comparison::compare(one.bytes, two.bytes, short, &mut output);
    if blocks::write_block(rt, &output[..written]) {
        ExitCode::SUCCESS
    } else {
        ExitCode::FAILURE
    }
}

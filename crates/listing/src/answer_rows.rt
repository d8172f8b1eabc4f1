// The answers, all of the first function's, then the next's. The numbers that are read are pairs of bytes, low byte first.
ghost use Rattle.std.specs.Prelude.{◌≡◌, true, ◌++◌, map, ◌+◌, ◌*◌, ◌≤◌, ◌<◌, length};
ghost use Rattle.std.proofs.lemmas.List.Edits.{sets};
ghost use Rattle.p16e1.specs.Functions.{function_number, answer_of};
ghost use Rattle.words.specs.Numbers.{bytes_of_all, numbers_at};
ghost use Rattle.sections.specs.Sections.{section};
ghost use Rattle.sections.specs.Order.{all_known_of};
ghost use Rattle.listing.specs.Answered.{answers, answers_at, numbers_in};

use p16e1::Function;
use words::{copy, put_number};

// Writes the answered form of the listing in `input`, which has so many functions and patterns and nothing after them.
pub fn write_answered(input: &[u8], functions: usize, patterns: usize, output: &mut [u8])
    requires whole { length input.now ≡ 4 + 2 * functions + 2 * patterns }
    requires all_known { all_known_of (numbers_at input.now 2 functions) ≡ true }
    requires few_answers { functions * patterns < 65536 }
    requires room { length input.now + 2 + 2 * (functions * patterns) ≤ length output.old }
    ensures { output.new ≡ sets output.old 0 (input.now ++ section (answers_at input.now functions patterns)) }
{
    copy(input, output);
    let end = input.len();
    put_number(output, end, (functions * patterns) as u16);
    let (numbers, _) = input.as_chunks::<2>();
    write_answers(
        &numbers[1..1 + functions],
        &numbers[2 + functions..],
        &mut output[end + 2..],
    );
}

// Writes the answers of the functions to the patterns into the first bytes of `output`.
fn write_answers(functions: &[[u8; 2]], patterns: &[[u8; 2]], output: &mut [u8])
    requires all_known { all_known_of (numbers_in functions.now) ≡ true }
    requires room { 2 * (length functions.now * length patterns.now) ≤ length output.old }
    ensures { output.new ≡ sets output.old 0 (bytes_of_all (answers (numbers_in functions.now) (numbers_in patterns.now))) }
{
    let mut at = 0;
    for number in functions {
        let function = Function::try_from(u16::from_le_bytes(*number)).unwrap();
        let end = at + 2 * patterns.len();
        write_row(function, patterns, &mut output[at..end]);
        at = end;
    }
}

// Writes one function's answers to the patterns. The function is chosen here, once for all of them: each arm hands on one that
// the compiler knows, so that it makes a loop with that one function in it.
fn write_row(function: Function, patterns: &[[u8; 2]], row: &mut [u8])
    requires room { 2 * length patterns.now ≤ length row.old }
    ensures { row.new ≡ sets row.old 0 (bytes_of_all (map (answer_of (function_number function)) (numbers_in patterns.now))) }
{
    match function {
        Function::Exp => write_row_by(Function::Exp, patterns, row),
        Function::Exp2 => write_row_by(Function::Exp2, patterns, row),
        Function::Ln => write_row_by(Function::Ln, patterns, row),
        Function::Log2 => write_row_by(Function::Log2, patterns, row),
        Function::SinPi => write_row_by(Function::SinPi, patterns, row),
        Function::CosPi => write_row_by(Function::CosPi, patterns, row),
        Function::TanPi => write_row_by(Function::TanPi, patterns, row),
        Function::AtanPi => write_row_by(Function::AtanPi, patterns, row),
        Function::AsinPi => write_row_by(Function::AsinPi, patterns, row),
        Function::AcosPi => write_row_by(Function::AcosPi, patterns, row),
    }
}

// The same, with the function chosen anew for each pattern. It writes bytes itself: whether there is room for them, which
// `put_number` asks each time, is known of all of them.
fn write_row_by(function: Function, patterns: &[[u8; 2]], row: &mut [u8])
    requires room { 2 * length patterns.now ≤ length row.old }
    ensures { row.new ≡ sets row.old 0 (bytes_of_all (map (answer_of (function_number function)) (numbers_in patterns.now))) }
{
    for (i, pattern) in patterns.iter().enumerate() {
        let [low, high] = function.answer(u16::from_le_bytes(*pattern)).to_le_bytes();
        row[2 * i] = low;
        row[2 * i + 1] = high;
    }
}

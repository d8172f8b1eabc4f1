// Two answered listings compared.
#![tactic(auto)]

mod walk;

ghost use Rattle.std.specs.Prelude.{◌≡◌, length};
ghost use Rattle.io.specs.Counts.{IsPrefixLen};
ghost use Rattle.comparison.specs.Comparison.{difference_of, most_lines_of, said_of, output_of};

use refusals::Refusal;
use walk::Pair;

// The least place at or after `from` at which two answered listings differ, or the number of their answers where there is none.
#[tactic(auto, using(crate::proofs::Pairs::differences))]
pub fn difference(first: &[u8], second: &[u8], from: usize) -> Result<usize, Refusal>
    ensures { result ≡ difference_of first.now second.now from }
{
    let pair = Pair::read(first, second)?;
    Ok(pair.next_difference(from))
}

// Puts what is to be said of two answered listings into the first bytes of `output`, and answers how many there are: a line for
// each place that differs, or for the first alone, or the refusal's number in a line. 31 bytes are enough for a line; where there
// is no room for as many lines as there may be, it writes nothing.
pub fn compare(first: &[u8], second: &[u8], short: bool, output: &mut [u8]) -> usize
    ensures value { result ≡ length (said_of first.now second.now short (length output.old)) }
    ensures output_after { output.new ≡ output_of first.now second.now short output.old }
    ensures prefix_len { IsPrefixLen result output.new }
{
    match Pair::read(first, second) {
        Ok(pair) => {
            if output.len() < 31 * most_lines(short, pair.count()) {
                return 0;
            }
            pair.write_lines(short, output)
        }
        Err(refusal) => line::put_number_line(output, u16::from(refusal)),
    }
}

fn most_lines(short: bool, count: usize) -> usize
    ensures { result ≡ most_lines_of short count }
{
    if short { 1 } else { count }
}

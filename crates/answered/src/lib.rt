// Answered listings: one, and two that ask the same.
#![tactic(auto)]

ghost use Rattle.std.specs.Prelude.{◌≡◌, ◌+◌, ◌*◌, ◌^◌, ◌<◌};
ghost use Rattle.words.specs.Numbers.{numbers_at};
ghost use Rattle.answered.specs.Answered.{answered_of, pair_of, same};

use refusals::Refusal;
use sections::{Sections, read_sections};
use words::number_at;

// How many functions and patterns an answered listing has, or the first refusal of its three sections.
#[tactic(auto, using(crate::proofs::Reading::reads))]
pub fn read_answered(bytes: &[u8]) -> Result<Sections, Refusal>
    ensures { result ≡ answered_of bytes.now }
{
    let Sections {
        functions,
        patterns,
    } = read_sections(bytes)?;
    let end = 4 + 2 * functions + 2 * patterns;
    if bytes.len() - end < 2 {
        return Err(Refusal::Cut);
    }
    let count = functions * patterns;
    if usize::from(number_at(bytes, end)) != count {
        return Err(Refusal::Count);
    }
    let whole = end + 2 + 2 * count;
    if bytes.len() < whole {
        return Err(Refusal::Cut);
    }
    if whole < bytes.len() {
        return Err(Refusal::After);
    }
    Ok(Sections {
        functions,
        patterns,
    })
}

// How many functions and patterns two answered listings have that ask the same, or the first refusal of the two.
#[tactic(auto, using(crate::proofs::Reading::pairs))]
pub fn read_pair(first: &[u8], second: &[u8]) -> Result<Sections, Refusal>
    ensures { result ≡ pair_of first.now second.now }
{
    let one = read_answered(first)?;
    let other = read_answered(second)?;
    let Sections {
        functions,
        patterns,
    } = one;
    if one != other
        || !same_numbers(first, second, 2, functions)
        || !same_numbers(first, second, 4 + 2 * functions, patterns)
    {
        return Err(Refusal::Different);
    }
    Ok(one)
}

// Whether the `count` numbers from the place `at` on are the same.
fn same_numbers(first: &[u8], second: &[u8], at: usize, count: usize) -> bool
    requires { at + 2 * count < 2 ^ 32 }
    ensures { result ≡ same (numbers_at first.now at count) (numbers_at second.now at count) }
{
    (0..count).all(|i| number_at(first, at + 2 * i) == number_at(second, at + 2 * i))
}

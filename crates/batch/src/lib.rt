// Many patterns at once, a part at a time: the batch call.
#![tactic(auto)]

mod fill;

ghost use Rattle.std.specs.Prelude.{◌≡◌, length};
ghost use Rattle.batch.specs.Batch.{batched_of, output_of};

use p16e1::Function;
use refusals::Refusal;

// What a call did: the place to go on from, and how many NaR it wrote.
#[derive(Clone, Copy, Debug, PartialEq, Eq)]
pub struct Batched {
    pub next: usize,
    pub nars: usize,
}

// Writes the function's answers to the patterns of `input` from the place `start` on, at most `limit` of them, each at its
// own place in `output`. A refused call writes nothing.
#[tactic(auto, using(p16e1::proofs::ByNumber::numbered_is, p16e1::proofs::ByNumber::numbered_not), unfolding(crate::specs::Batch::refusal_of))]
pub fn batch(
    function: u16,
    input: &[u16],
    output: &mut [u16],
    start: usize,
    limit: usize,
) -> Result<Batched, Refusal>
    ensures value { result ≡ batched_of function input.now (length output.old) start limit }
    ensures output_after { output.new ≡ output_of function input.now output.old start limit }
{
    let function = Function::try_from(function)?;
    if output.len() < input.len() {
        return Err(Refusal::Output);
    }
    if input.len() < start {
        return Err(Refusal::Start);
    }
    let n = limit.min(input.len() - start);
    let end = start + n;
    let nars = fill::fill(function, &input[start..end], &mut output[start..end]);
    Ok(Batched { next: end, nars })
}

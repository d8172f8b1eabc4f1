// The calls by number, whose results are a refusal's number and what is written through the places lent.
ghost use Rattle.std.specs.Prelude.{◌≡◌, cond, length};
ghost use Rattle.std.specs.Result.{result_err, result_unwrap_or};
ghost use Rattle.p16e1.specs.Functions.{known, answer_of};
ghost use Rattle.batch.specs.Batch.{batched_of, output_of, next_after, nars_of};
ghost use Rattle.listing.specs.Outcome.{listed_of};
ghost use Rattle.listing.specs.Outcome as Listing;
ghost use Rattle.comparison.specs.Comparison.{difference_of};
ghost use Rattle.refusals.specs.Refusals.{number_or_zero};

use batch::Batched;

// 0 and the function's answer, or 1, the refusal of an unknown function, with the place as it was.
#[unsafe(no_mangle)]
#[tactic(auto, using(p16e1::proofs::ByNumber::answer_is))]
pub extern "C" fn balehasp_answer(function: u16, p: u16, answer: &mut u16) -> u16
    ensures value { result ≡ cond (known function) 0 1 }
    ensures answer_after { answer.new ≡ cond (known function) (answer_of function p) answer.old }
{
    let answered = p16e1::answer(function, p);
    if let Ok(a) = answered {
        *answer = a;
    }
    refusals::number(answered.err())
}

// The batch's refusal. The next place and the number of NaR are written in any case.
#[unsafe(no_mangle)]
pub extern "C" fn balehasp_batch(
    function: u16,
    input: &[u16],
    output: &mut [u16],
    start: usize,
    limit: usize,
    next: &mut usize,
    nars: &mut usize,
) -> u16
    ensures value { result ≡ number_or_zero (result_err (batched_of function input.now (length output.old) start limit)) }
    ensures next_after { next.new ≡ next_after start (batched_of function input.now (length output.old) start limit) }
    ensures nars_after { nars.new ≡ nars_of (batched_of function input.now (length output.old) start limit) }
    ensures output_after { output.new ≡ output_of function input.now output.old start limit }
{
    let batched = batch::batch(function, input, output, start, limit);
    let b = batched.unwrap_or(Batched {
        next: start,
        nars: 0,
    });
    *next = b.next;
    *nars = b.nars;
    refusals::number(batched.err())
}

// The listing's refusal. How many bytes were written is told in any case.
#[unsafe(no_mangle)]
pub extern "C" fn balehasp_listing(input: &[u8], output: &mut [u8], written: &mut usize) -> u16
    ensures value { result ≡ number_or_zero (result_err (listed_of input.now (length output.old))) }
    ensures written_after { written.new ≡ result_unwrap_or (listed_of input.now (length output.old)) 0 }
    ensures output_after { output.new ≡ Listing.output_of input.now output.old }
{
    let listed = listing::answer_listing(input, output);
    *written = listed.unwrap_or(0);
    refusals::number(listed.err())
}

// The refusal of two answered listings. The next place that differs is told where there is none, and the place is as it was where
// there is one.
#[unsafe(no_mangle)]
pub extern "C" fn balehasp_difference(
    first: &[u8],
    second: &[u8],
    from: usize,
    place: &mut usize,
) -> u16
    ensures value { result ≡ number_or_zero (result_err (difference_of first.now second.now from)) }
    ensures place_after { place.new ≡ result_unwrap_or (difference_of first.now second.now from) place.old }
{
    let found = comparison::difference(first, second, from);
    if let Ok(at) = found {
        *place = at;
    }
    refusals::number(found.err())
}

// A listing of functions and patterns, and its answered form.
#![tactic(auto)]

mod answer_rows;

ghost use Rattle.std.specs.Prelude.{◌≡◌, length};
ghost use Rattle.sections.specs.Order.{counted};
ghost use Rattle.listing.specs.Outcome.{refusal_of, listed_of, output_of, reply_length, with_reply};

use refusals::Refusal;
use sections::{Sections, read_sections};

// The sections of a listing, or the refusal that the listing call gives these bytes with an output of so many places.
#[tactic(auto, using(crate::proofs::Reading::reads))]
pub fn read_listing(bytes: &[u8], outputs: usize) -> Result<Sections, Refusal>
    ensures { result ≡ counted bytes.now (refusal_of bytes.now outputs) }
{
    let found = read_sections(bytes)?;
    let Sections {
        functions,
        patterns,
    } = found;
    let end = 4 + 2 * functions + 2 * patterns;
    let written = end + 2 + 2 * (functions * patterns);
    if end < bytes.len() {
        return Err(Refusal::After);
    }
    if outputs < written {
        return Err(Refusal::Output);
    }
    Ok(found)
}

// Reads the listing in `input`, writes the answered listing into the first bytes of `output` and answers how many bytes that is.
// A refused call writes nothing.
#[tactic(auto, using(crate::proofs::Reading::calls))]
pub fn answer_listing(input: &[u8], output: &mut [u8]) -> Result<usize, Refusal>
    ensures value { result ≡ listed_of input.now (length output.old) }
    ensures output_after { output.new ≡ output_of input.now output.old }
{
    let Sections {
        functions,
        patterns,
    } = read_listing(input, output.len())?;
    let written = 6 + 2 * functions + 2 * patterns + 2 * (functions * patterns);
    answer_rows::write_answered(input, functions, patterns, output);
    Ok(written)
}

// The reply to a refused listing: FF FF and the refusal's number, 0 for none, in the first four bytes of `output`, and how many
// bytes that is. Where there is no room for them it writes nothing.
pub fn put_refusal(output: &mut [u8], refusal: Option<Refusal>) -> usize
    ensures value { result ≡ reply_length (length output.old) }
    ensures output_after { output.new ≡ with_reply output.old refusal }
{
    if output.len() < 4 {
        return 0;
    }
    output[0] = 0xFF;
    output[1] = 0xFF;
    words::put_number(output, 2, refusals::number(refusal));
    4
}

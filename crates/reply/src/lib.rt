// The reply to a listing.
#![tactic(auto)]

ghost use Rattle.std.specs.Prelude.{◌≡◌, length};
ghost use Rattle.io.specs.Counts.{IsPrefixLen};
ghost use Rattle.reply.specs.Reply.{reply_of, output_of};

use listing::{answer_listing, put_refusal};

// Puts the reply to the listing in `input` into the first bytes of `output`, and answers how many there are: the answered
// listing, or FF FF and the refusal's number as two bytes. Where there is no room for those four, it writes nothing.
#[tactic(auto, using(crate::proofs::Replies::replies))]
pub fn reply_to(input: &[u8], output: &mut [u8]) -> usize
    ensures value { result ≡ length (reply_of input.now (length output.old)) }
    ensures output_after { output.new ≡ output_of input.now output.old }
    ensures prefix_len { IsPrefixLen result output.new }
{
    match answer_listing(input, output) {
        Ok(written) => written,
        Err(refusal) => put_refusal(output, Some(refusal)),
    }
}

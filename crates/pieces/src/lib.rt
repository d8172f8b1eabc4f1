// A listing that comes in pieces: a state is handed in and back, and the end call answers.
#![tactic(auto)]

ghost use Rattle.std.specs.Prelude.{◌≡◌, [], length};
ghost use Rattle.piece_state.specs.State.{keeping};
ghost use Rattle.pieces.specs.Calls.{met_with, piece_of, end_of, end_output_of};

use piece_state::{LONGEST, Pieces, empty, handed_in, so_far, too_long};
use refusals::Refusal;

// What a piece call hands back, and why it was refused, if it was.
#[derive(Clone, Copy)]
pub struct Pieced {
    pub state: Pieces,
    pub refusal: Option<Refusal>,
}

// What an end call hands back, and how many bytes it wrote or why it was refused.
#[derive(Clone, Copy)]
pub struct Ended {
    pub state: Pieces,
    pub written: Result<usize, Refusal>,
}

// The state before any bytes have come.
pub fn fresh() -> Pieces
    ensures { result ≡ keeping [] None }
{
    empty(None)
}

// Takes the next bytes. Those so far and these may be refused already.
#[tactic(auto, using(crate::proofs::Joined::outcomes), unfolding(crate::specs::Calls::piece_of))]
pub fn piece(state: Pieces, bytes: &[u8]) -> Pieced
    ensures { result ≡ piece_of state bytes.now }
{
    let handed = handed_in(state);
    if handed.is_some() {
        return Pieced {
            state,
            refusal: handed,
        };
    }
    let count = usize::from(state.count);
    let mut next = state.bytes;
    words::copy(bytes, &mut next[count..]);
    if LONGEST - count < bytes.len() {
        return met(too_long(&next));
    }
    let total = count + bytes.len();
    let refusal = so_far(&next[..total]);
    if refusal.is_some() {
        return met(refusal);
    }
    let state = Pieces {
        bytes: next,
        count: total as u16,
        refusal,
    };
    Pieced { state, refusal }
}

// What a piece call gives whose bytes meet a refusal.
fn met(refusal: Option<Refusal>) -> Pieced
    ensures { result ≡ met_with refusal }
{
    Pieced {
        state: empty(refusal),
        refusal,
    }
}

// Answers the listing that has come, as the listing call does. The state that it hands back keeps nothing but a refusal.
#[tactic(auto, using(crate::proofs::Calls::among), unfolding(crate::specs::Calls::end_of, crate::specs::Calls::end_output_of))]
pub fn end(state: Pieces, output: &mut [u8]) -> Ended
    ensures value { result ≡ end_of state (length output.old) }
    ensures output_after { output.new ≡ end_output_of state output.old }
{
    if let Some(refusal) = handed_in(state) {
        return Ended {
            state,
            written: Err(refusal),
        };
    }
    let count = usize::from(state.count);
    let written = listing::answer_listing(&state.bytes[..count], output);
    Ended {
        state: empty(written.err()),
        written,
    }
}

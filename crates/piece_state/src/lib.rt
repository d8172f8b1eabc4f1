// The state of a listing that comes in pieces: what it keeps, which refusal has come, and whether calls produce it.
#![tactic(auto)]

ghost use Rattle.std.specs.Prelude.{◌≡◌, []};
ghost use Rattle.piece_state.specs.State.{keeping, so_far_of, after_more, all_zero, from_listing, may_keep_of, produced, handed_in_of};

use refusals::Refusal;

// As many bytes as the longest listing has.
pub const LONGEST: usize = 2072;

const LONGEST_ANSWERED: usize = 22554;

// What is kept between two calls: the bytes so far, zeros after them, how many they are, and the refusal, if one has come.
#[derive(Clone, Copy)]
pub struct Pieces {
    pub bytes: [u8; LONGEST],
    pub count: u16,
    pub refusal: Option<Refusal>,
}

// The state that keeps no bytes.
#[tactic(auto, unfolding(crate::specs::State::keeping))]
pub fn empty(refusal: Option<Refusal>) -> Pieces
    ensures { result ≡ keeping [] refusal }
{
    Pieces {
        bytes: [0; LONGEST],
        count: 0,
        refusal,
    }
}

// The refusal that a state brings: State where no calls produce it, or the one that it keeps. Compiled into its callers, it needs no
// copy of the state on their stack.
#[inline(always)]
#[tactic(auto, unfolding(crate::specs::State::handed_in_of))]
pub fn handed_in(state: Pieces) -> Option<Refusal>
    ensures { result ≡ handed_in_of state }
{
    if !is_produced(&state) {
        return Some(Refusal::State);
    }
    state.refusal
}

// Whether calls produce the state.
#[tactic(auto, unfolding(crate::specs::State::produced))]
fn is_produced(state: &Pieces) -> bool
    ensures { result ≡ produced state.now }
{
    let Some((kept, rest)) = state.bytes.split_at_checked(usize::from(state.count)) else {
        return false;
    };
    blank(rest) && may_keep(state.refusal, kept)
}

// Whether the bytes are all zero.
fn blank(bytes: &[u8]) -> bool
    ensures { result ≡ all_zero bytes.now }
{
    bytes.iter().all(|b| *b == 0)
}

// Whether a state with this refusal may keep these bytes.
fn may_keep(refusal: Option<Refusal>, bytes: &[u8]) -> bool
    ensures { result ≡ may_keep_of refusal bytes.now }
{
    match refusal {
        None => so_far(bytes).is_none(),
        Some(refusal) => of_listing(refusal) && bytes.is_empty(),
    }
}

// Whether the listing call gives this refusal.
fn of_listing(refusal: Refusal) -> bool
    ensures { result ≡ from_listing refusal }
{
    matches!(
        refusal,
        Refusal::Function | Refusal::Output | Refusal::Cut | Refusal::Limits | Refusal::After
    )
}

// The refusal that has come once these bytes have. That they are cut short is for the end call to say.
#[tactic(auto, unfolding(crate::specs::State::so_far_of))]
pub fn so_far(bytes: &[u8]) -> Option<Refusal>
    ensures { result ≡ so_far_of bytes.now }
{
    match listing::read_listing(bytes, LONGEST_ANSWERED) {
        Ok(_) | Err(Refusal::Cut) => None,
        Err(refusal) => Some(refusal),
    }
}

// The refusal of bytes that are more than any listing has, by the first of them, as many as the longest listing has. There is
// always one.
pub fn too_long(first: &[u8]) -> Option<Refusal>
    ensures { result ≡ after_more (so_far_of first.now) }
{
    so_far(first).or(Some(Refusal::After))
}

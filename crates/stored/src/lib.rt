// A listing's state between two pieces in 2,076 bytes, as the entries for C and Rust take it: the bytes so far and zeros after them,
// 2,072 in all, how many they are, and the refusal's number.
#![tactic(auto)]

ghost use Rattle.std.specs.Prelude.{◌≡◌};
ghost use Rattle.stored.specs.Stored.{state_in_of, handed_back};

use piece_state::{LONGEST, Pieces};
use refusals::Refusal;
use words::{number_at, put_number};

// The state that lies in these bytes.
#[tactic(auto, unfolding(crate::specs::Stored::state_in_of))]
pub fn state_in(stored: &[u8; 2076]) -> Pieces
    ensures { result ≡ state_in_of stored.now }
{
    let mut bytes = [0u8; LONGEST];
    bytes.copy_from_slice(&stored[..LONGEST]);
    Pieces {
        bytes,
        count: number_at(stored, 2072),
        refusal: refusals::numbered(number_at(stored, 2074)),
    }
}

// Puts the state that a call hands back where the one that it took was, which stays where the call was refused for it.
pub fn hand_back(state: Pieces, refusal: Option<Refusal>, stored: &mut [u8; 2076])
    ensures { stored.new ≡ handed_back state refusal stored.old }
{
    if refusal == Some(Refusal::State) {
        return;
    }
    stored[..LONGEST].copy_from_slice(&state.bytes);
    put_number(stored, 2072, state.count);
    put_number(stored, 2074, refusals::number(state.refusal));
}

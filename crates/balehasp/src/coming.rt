// The listing in pieces. The state lies with the caller, in the bytes of the crate stored.
ghost use Rattle.std.specs.Prelude.{◌≡◌, length};
ghost use Rattle.std.specs.Result.{result_err, result_unwrap_or};
ghost use Rattle.refusals.specs.Refusals.{number_or_zero};
ghost use Rattle.pieces.specs.Calls.{piece_of, end_of, end_output_of};
ghost use Rattle.stored.specs.Stored.{state_in_of, piece_leaves, end_leaves};

// The piece's refusal. A state that no calls produce stays as it was.
#[unsafe(no_mangle)]
pub extern "C" fn balehasp_piece(state: &mut [u8; 2076], piece: &[u8]) -> u16
    ensures value { result ≡ number_or_zero (piece_of (state_in_of state.old) piece.now).refusal }
    ensures state_after { state.new ≡ piece_leaves state.old piece.now }
{
    let taken = pieces::piece(stored::state_in(state), piece);
    stored::hand_back(taken.state, taken.refusal, state);
    refusals::number(taken.refusal)
}

// The end's refusal. How many bytes were written is told in any case.
#[unsafe(no_mangle)]
pub extern "C" fn balehasp_end(
    state: &mut [u8; 2076],
    output: &mut [u8],
    written: &mut usize,
) -> u16
    ensures value { result ≡ number_or_zero (result_err (end_of (state_in_of state.old) (length output.old)).written) }
    ensures written_after { written.new ≡ result_unwrap_or (end_of (state_in_of state.old) (length output.old)).written 0 }
    ensures output_after { output.new ≡ end_output_of (state_in_of state.old) output.old }
    ensures state_after { state.new ≡ end_leaves state.old (length output.old) }
{
    let done = pieces::end(stored::state_in(state), output);
    let refusal = done.written.err();
    *written = done.written.unwrap_or(0);
    stored::hand_back(done.state, refusal, state);
    refusals::number(refusal)
}

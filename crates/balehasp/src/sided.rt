// The function by number with the side on which its answer lies of the number that was rounded: -1 below it, 0 on it, 1 above it.
ghost use Rattle.std.specs.Prelude.{◌≡◌, cond};
ghost use Rattle.posit.specs.Sides.{side_number_of};
ghost use Rattle.p16e1.specs.Functions.{known, answer_of, sided_answer_of};

// 0, the function's answer and its side's number, or 1, the refusal of an unknown function, with both places as they were.
#[unsafe(no_mangle)]
#[tactic(auto, using(p16e1::proofs::ByNumber::sided_is, p16e1::proofs::ByNumber::sided_answer))]
pub extern "C" fn balehasp_sided(function: u16, p: u16, answer: &mut u16, side: &mut i8) -> u16
    ensures value { result ≡ cond (known function) 0 1 }
    ensures answer_after { answer.new ≡ cond (known function) (answer_of function p) answer.old }
    ensures side_after { side.new ≡ cond (known function) (side_number_of (sided_answer_of function p).side) side.old }
{
    let answered = p16e1::answer_sided(function, p);
    if let Ok(a) = answered {
        *answer = a.pattern;
        *side = i8::from(a.side);
    }
    refusals::number(answered.err())
}

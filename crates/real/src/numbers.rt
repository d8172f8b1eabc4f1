// The number in a pattern as an f64, exactly.
ghost use Rattle.std.specs.Prelude.{pos};
ghost use Rattle.posit.specs.Number.{magnitude};
ghost use Rattle.real.specs.Reals.{Exactly, ToF64};

// A real with its f64, or NaR.
#[derive(Clone, Copy)]
pub enum RealAnswer {
    Real(f64),
    NaR,
}

// The magnitude in u, whose sign is not looked at. It is a whole number of units of 2^-28 with few enough binary digits for
// an f64, so the cast loses nothing, nor does the product with 2^-28.
fn magnitude_of(u: u16) -> f64
    ensures { Exactly (pos (magnitude 1 16 u)) 28 result }
{
    std::num::nearest_u64_to_f64(posit::units(u)) * 3.7252902984619140625e-9
}

// p's number, +0.0 for zero.
pub fn to_f64(p: u16) -> RealAnswer
    ensures { ToF64 p result }
{
    if p == 0 {
        return RealAnswer::Real(0.0);
    }
    if p == 0x8000 {
        return RealAnswer::NaR;
    }
    if p < 0x8000 {
        return RealAnswer::Real(magnitude_of(p));
    }
    RealAnswer::Real(-magnitude_of(posit::opposite(p)))
}

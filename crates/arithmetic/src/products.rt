// Products. NaR with anything is NaR; of two reals the exact product is that of their significands, times a power of two, and
// rounded once, by the one rounding rule. Zero goes the same way as the others, with the significand 0.
ghost use Rattle.rows.specs.Rows.{Meets};
ghost use Rattle.arithmetic.specs.Operations.{product};
ghost use Rattle.arithmetic.specs.Sizes.{Scaled};

// The magnitude of a number: significand * 2^(power - 40), with no significand for zero.
#[derive(Clone, Copy)]
struct Parts {
    significand: u32,
    power: u32,
}

impl Parts {
    fn of(p: u16) -> Parts
        ensures { Scaled p result.significand result.power }
    {
        let d = posit::decode(posit::signed(0x8000 < p, p));
        Parts {
            significand: if p == 0 { 0 } else { 4096 + d.fraction },
            power: d.power,
        }
    }
}

#[tactic(auto, using(crate::proofs::Exact::nar_times, crate::proofs::Exact::times_nar))]
pub fn multiply(a: u16, b: u16) -> u16
    ensures { Meets (product a b) result }
{
    if a == 0x8000 {
        return a;
    }
    if b == 0x8000 {
        return b;
    }
    let s = Parts::of(a);
    let t = Parts::of(b);
    let m = (s.significand as u64) * (t.significand as u64);
    let e = ((s.power + t.power) % 128) as i32 - 80; // the remainder tells the compiler: it is small
    posit::signed((0x8000 < a) != (0x8000 < b), posit::round(m, e))
}

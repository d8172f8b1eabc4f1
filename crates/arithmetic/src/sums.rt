// Negation, sums and differences. NaR with anything is NaR; of two reals the exact result is worked out in units of 2^-28 and
// rounded once, by the one rounding rule. Zero goes the same way as the others.
ghost use Rattle.std.specs.Prelude.{◌≡◌, ◌≢◌, ◌^◌, ◌≤◌};
ghost use Rattle.std.specs.Int.Signed.{mag};
ghost use Rattle.posit.specs.Number.{opposite};
ghost use Rattle.posit.specs.Rounding.{over, Rounds};
ghost use Rattle.rows.specs.Rows.{Meets};
ghost use Rattle.arithmetic.specs.Operations.{negation, sum, difference};
ghost use Rattle.arithmetic.specs.Sizes.{signed_units};

// p's number in units of 2^-28.
fn units_of(p: u16) -> i64
    requires { p ≢ 0x8000 }
    ensures value { result ≡ signed_units p }
    ensures at_most { mag result ≤ 2 ^ 56 }
{
    if p == 0 {
        return 0;
    }
    let negative = 0x8000 < p;
    let m = posit::units(posit::signed(negative, p)) as i64;
    if negative { -m } else { m }
}

// The pattern of v units of 2^-28.
fn round_units(v: i64) -> u16
    ensures { Rounds 1 16 (over v 28) result }
{
    posit::signed(v < 0, posit::round(v.unsigned_abs(), -28))
}

// Minus p's number, which is always a posit's.
#[tactic(auto, using(crate::proofs::Opposites::negated))]
pub fn negate(p: u16) -> u16
    ensures value { result ≡ opposite 16 p }
    ensures meets { Meets (negation p) result }
{
    posit::opposite(p)
}

#[tactic(auto, using(crate::proofs::Exact::nar_plus, crate::proofs::Exact::plus_nar))]
pub fn add(a: u16, b: u16) -> u16
    ensures { Meets (sum a b) result }
{
    if a == 0x8000 {
        return a;
    }
    if b == 0x8000 {
        return b;
    }
    round_units(units_of(a) + units_of(b))
}

// The sum of a and the opposite of b.
pub fn subtract(a: u16, b: u16) -> u16
    ensures { Meets (difference a b) result }
{
    add(a, negate(b))
}

// e^x, row 1 of document 01.
ghost use Rattle.std.specs.Prelude.{◌≡◌, ◌^◌, ◌≤◌, ◌<◌};
ghost use Rattle.rows.specs.Rows.{Meets, MeetsSided};
ghost use Rattle.exponential.specs.Exp.{poly, row};

use posit::Sided;

pub fn exp_sided(p: u16) -> Sided
    ensures { MeetsSided (row p) result }
{
    match crate::ends::named::<192, 65407, 28846>(p) {
        Some(answer) => posit::outright(answer),
        None => kernel(p),
    }
}

// The pattern alone.
pub fn exp(p: u16) -> u16
    ensures { Meets (row p) result }
{
    exp_sided(p).pattern
}

// t is x / ln 2 + 32 with 25 bits of fraction, after 28 bits that are dropped.
fn kernel(p: u16) -> Sided
    requires { (192 ≤ p) × (p ≤ 65407) × (28846 ≤ p → 36690 < p) }
    ensures { MeetsSided (row p) result }
{
    let negative = 0x7fff < p;
    let x = posit::units(posit::signed(negative, p));
    let t = crate::fixed::moved(0x0400_0000_0000_0000, negative, x * 48_408_813) >> 28;
    let f = exp_poly(t % 0x0200_0000);
    posit::round_sided(
        0x20_0000_0000 + f,
        crate::fixed::less((t >> 25) % 64, 32 + 37),
    )
}

#[tactic(auto, unfolding(crate::specs::Exp::poly), using(crate::proofs::Products::exp_products))]
fn exp_poly(f: u64) -> u64
    requires { f < 2 ^ 25 }
    ensures value { result ≡ poly f }
    ensures upper_bound { result ≤ 2 ^ 38 }
{
    let a = (f * 7_529) >> 26;
    let b = (f * (20_487 + a)) >> 20;
    let c = (f * (0x004F_8300 + b)) >> 24;
    let d = (f * (0x038C_C980 + c)) >> 20;
    let e = (f * (0x0001_EBFF_C800 + d)) >> 26;
    ((f * (0x0002_C5C8_3600 + e)) >> 22) + 2048
}

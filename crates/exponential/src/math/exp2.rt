// 2^x, row 2 of document 01.
ghost use Rattle.std.specs.Prelude.{◌≡◌, ◌^◌, ◌≤◌, ◌<◌};
ghost use Rattle.rows.specs.Rows.{Meets, MeetsSided};
ghost use Rattle.exponential.specs.Exp2.{poly, row};

use posit::Sided;

pub fn exp2_sided(p: u16) -> Sided
    ensures { MeetsSided (row p) result }
{
    match crate::ends::named::<221, 65379, 29377>(p) {
        Some(answer) => posit::outright(answer),
        None => kernel(p),
    }
}

// The pattern alone.
pub fn exp2(p: u16) -> u16
    ensures { Meets (row p) result }
{
    exp2_sided(p).pattern
}

// t is x + 32 in units of 2^-28: floor(x) stands above bit 28, and 20 bits of what is left above bit 8.
fn kernel(p: u16) -> Sided
    requires { (221 ≤ p) × (p ≤ 65379) × (29377 ≤ p → 36159 < p) }
    ensures { MeetsSided (row p) result }
{
    let negative = 0x7fff < p;
    let x = posit::units(posit::signed(negative, p));
    let t = crate::fixed::moved(0x2_0000_0000, negative, x);
    let f = exp2_poly((t >> 8) % 0x10_0000);
    posit::round_sided(0x400_0000 + f, crate::fixed::less((t >> 28) % 64, 32 + 26))
}

#[tactic(auto, unfolding(crate::specs::Exp2::poly))]
fn exp2_poly(f: u64) -> u64
    requires { f < 2 ^ 20 }
    ensures value { result ≡ poly f }
    ensures upper_bound { result ≤ 2 ^ 27 }
{
    let a = (f * (0x9BA0_0000 + f * 491)) >> 34;
    let b = (f * (0x0013_F840 + a)) >> 20;
    let c = (f * (0x0071_8A80 + b)) >> 16;
    let d = (f * (0x1EC0_4000 + c)) >> 21;
    (f * (0x2C5C_8000 + d)) >> 24
}

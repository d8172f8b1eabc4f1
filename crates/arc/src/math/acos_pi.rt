// The angle, in half-turns, whose cosine is x: row 10 of document 01.
ghost use Rattle.std.specs.Prelude.{◌≡◌, ◌-◌, ◌*◌, ◌^◌, ◌≤◌, ◌<◌, nat_lt, if◌then◌else◌};
ghost use Rattle.posit.specs.Number.{magnitude, size};
ghost use Rattle.rows.specs.Rows.{Meets, MeetsSided};
ghost use Rattle.arc.specs.AcosPi.{poly, arc, row};
ghost use Rattle.arc.specs.Root.{root};

use crate::kernel::{Angle, isqrt};
use posit::Sided;

pub fn acos_pi_sided(p: u16) -> Sided
    ensures { MeetsSided (row p) result }
{
    if 0x4000 < p && p < 0xC000 {
        return posit::outright(0x8000); // x is past 1 or -1, or NaR
    }
    if p < 165 || 65307 < p {
        return posit::outright(0x3000); // so near to zero that the answer is a quarter turn
    }
    posit::round_sided(angle(p), -30)
}

// The pattern alone.
pub fn acos_pi(p: u16) -> u16
    ensures { Meets (row p) result }
{
    acos_pi_sided(p).pattern
}

// The angle in units of 2^-30; from 1/2 on, and from -1/2 down, by way of the square root of 1 - |x|. What the polynomial gives
// is the angle itself where x is below zero and a root was taken, or neither; otherwise it is what is left of a half-turn.
fn angle(p: u16) -> u64
    requires { (165 ≤ p) × (p ≤ 65307) × (0x4000 < p → 0xC000 ≤ p) }
    ensures { result ≡ arc p (magnitude 1 16 (size 16 p)) }
{
    let negative = 0x8000 < p;
    let size = posit::signed(negative, p);
    let by_root = 0x2fff < size;
    let k = acos_poly(argument(size)).units;
    let turned = if by_root { 2 * k } else { k };
    if by_root == negative {
        turned
    } else {
        0x4000_0000 - turned
    }
}

// What the polynomial takes: within 1/2 the magnitude itself, from there on a root that is as small.
fn argument(size: u16) -> u64
    requires { (0 < size) × (size ≤ 0x4000) }
    ensures value { let m = magnitude 1 16 size in result ≡ (if nat_lt 0x2fff size then root ((2 ^ 28 - m) * 2 ^ 27) else m) }
    ensures upper_bound { result ≤ 2 ^ 27 }
{
    let x = posit::units(size);
    if size < 0x3000 {
        return x;
    }
    isqrt((0x1000_0000 - x) << 27)
}

#[tactic(auto, unfolding(crate::specs::AcosPi::poly))]
fn acos_poly(f: u64) -> Angle
    requires { f ≤ 2 ^ 27 }
    ensures { result.units ≡ poly f }
{
    let fsq = (f * f) >> 28;
    let a = 13_696 + ((fsq * 7_955) >> 27);
    let b = 100_510 + ((fsq * a) >> 26);
    let c = 1_780_047 + ((fsq * b) >> 25);
    let d = 42_722_829 + ((fsq * c) >> 26);
    Angle {
        units: 0x2000_0000 - ((f * d) >> 25),
    }
}

// The angle, in half-turns, whose sine is x: row 9 of document 01.
ghost use Rattle.std.specs.Prelude.{◌≡◌, ◌*◌, ◌^◌, ◌≤◌, ◌<◌};
ghost use Rattle.posit.specs.Number.{magnitude};
ghost use Rattle.rows.specs.Rows.{Meets, MeetsSided};
ghost use Rattle.arc.specs.AsinPi.{poly, arc, row};

use crate::kernel::{Angle, isqrt};
use posit::Sided;

pub fn asin_pi_sided(p: u16) -> Sided
    ensures { MeetsSided (row p) result }
{
    if p == 0 {
        return posit::outright(0);
    }
    let negative = 0x7fff < p;
    let size = posit::signed(negative, p);
    if 0x4000 < size {
        return posit::outright(0x8000); // x is past 1 or -1, or NaR
    }
    let k = angle(size).units % 0x4000_0000; // the remainder tells the compiler: below 1
    posit::signed_sided(negative, posit::round_sided(k, -30))
}

// The pattern alone.
pub fn asin_pi(p: u16) -> u16
    ensures { Meets (row p) result }
{
    asin_pi_sided(p).pattern
}

// The angle in units of 2^-30; from 1/2 on by way of the square root of 1 - x.
fn angle(size: u16) -> Angle
    requires { (0 < size) × (size ≤ 0x4000) }
    ensures { result.units ≡ arc size (magnitude 1 16 size) }
{
    let x = posit::units(size);
    if size < 0x3000 {
        return Angle {
            units: asin_poly(x),
        };
    }
    Angle {
        units: 0x2000_0000 - 2 * asin_poly(isqrt((0x1000_0000 - x) << 27)),
    }
}

#[tactic(auto, unfolding(crate::specs::AsinPi::poly))]
fn asin_poly(f: u64) -> u64
    requires { f ≤ 2 ^ 27 }
    ensures value { result ≡ poly f }
    ensures upper_bound { result ≤ 2 ^ 28 }
{
    let fsq = (f * f) >> 28;
    let a = 13_944 + ((fsq * 3_855) >> 26);
    let b = 100_344 + ((fsq * a) >> 26);
    let c = 1_780_112 + ((fsq * b) >> 25);
    let d = 42_722_832 + ((fsq * c) >> 26);
    (f * d) >> 25
}

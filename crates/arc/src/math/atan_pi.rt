// The angle, in half-turns, whose tangent is x: row 8 of document 01.
ghost use Rattle.std.specs.Prelude.{◌≡◌, ◌*◌, ◌^◌, ◌≤◌, ◌<◌};
ghost use Rattle.posit.specs.Number.{magnitude};
ghost use Rattle.rows.specs.Rows.{Meets, MeetsSided};
ghost use Rattle.arc.specs.AtanPi.{poly, small, large, quotient, row};

use crate::kernel::Angle;
use posit::Sided;

pub fn atan_pi_sided(p: u16) -> Sided
    ensures { MeetsSided (row p) result }
{
    let negative = 0x7fff < p;
    let size = posit::signed(negative, p);
    if size % 0x8000 == 0 {
        return posit::outright(p); // x is zero, or NaR
    }
    let k = angle(size).units % 0x4000_0000; // the remainder tells the compiler: below 1
    posit::signed_sided(negative, posit::round_sided(k, -30))
}

// The pattern alone.
pub fn atan_pi(p: u16) -> u16
    ensures { Meets (row p) result }
{
    atan_pi_sided(p).pattern
}

// The angle by the range of the magnitude's pattern.
fn angle(size: u16) -> Angle
    requires { (0 < size) × (size < 2 ^ 15) }
    ensures { result.units ≡ quotient size (magnitude 1 16 size) }
{
    let x = posit::units(size);
    if size <= 4925 {
        return small_angle(x);
    }
    if size <= 0x3fff {
        return atan_poly(x);
    }
    if size <= 27108 {
        return Angle {
            units: 0x2000_0000 - atan_poly(0x0100_0000_0000 / (x >> 16)).units,
        };
    }
    large_angle(x >> 20)
}

#[tactic(auto, unfolding(crate::specs::AtanPi::small))]
fn small_angle(x: u64) -> Angle
    requires { x < 2 ^ 28 }
    ensures { result.units ≡ small x }
{
    Angle {
        units: (x << 30) / (((x * x) >> 34) * 67 + 843_314_118),
    }
}

#[tactic(auto, unfolding(crate::specs::AtanPi::large))]
fn large_angle(f: u64) -> Angle
    requires { (2 ^ 11 ≤ f) × (f ≤ 2 ^ 36) }
    ensures { result.units ≡ large f }
{
    Angle {
        units: 0x2000_0000 - 0x0002_8BE5_FF80_0000 / ((f << 13) + 0x0AA5_5000 / f),
    }
}

#[tactic(auto, unfolding(crate::specs::AtanPi::poly))]
fn atan_poly(f: u64) -> Angle
    requires { f ≤ 2 ^ 28 }
    ensures { result.units ≡ poly f }
{
    let fsq = (f * f) >> 28;
    let a = (fsq * 6_969) >> 24;
    let b = (fsq * (530_432 - a)) >> 28;
    let c = (fsq * (1_273_944 - b)) >> 28;
    let d = (fsq * (2_358_656 - c)) >> 27;
    let e = (fsq * (9_340_208 - d)) >> 29;
    let g = (fsq * (17_568_064 - e)) >> 24;
    Angle {
        units: ((f + 1) << 30) / (843_315_168 + g),
    }
}

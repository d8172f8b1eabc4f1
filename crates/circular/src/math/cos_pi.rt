// The cosine of x half-turns, row 6 of document 01.
ghost use Rattle.std.specs.Prelude.{◌≡◌, ◌*◌, ◌^◌, ◌<◌};
ghost use Rattle.rows.specs.Rows.{Meets, MeetsSided};
ghost use Rattle.circular.specs.CosPi.{poly, series, unsigned, cosine, row};

use crate::quadrant::{Argument, Reduced};
use posit::Sided;

pub fn cos_pi_sided(p: u16) -> Sided
    ensures { MeetsSided (row p) result }
{
    let size = posit::signed(0x8000 < p, p);
    if size % 0x8000 == 0 {
        return posit::outright(if p == 0 { 0x4000 } else { 0x8000 });
    }
    cosine_of(posit::units(size))
}

// The pattern alone.
pub fn cos_pi(p: u16) -> u16
    ensures { Meets (row p) result }
{
    cos_pi_sided(p).pattern
}

// The cosine of x / 2^28 half-turns.
fn cosine_of(x: u64) -> Sided
    ensures { MeetsSided (cosine x) result }
{
    let angle = Reduced::of(x);
    posit::signed_sided(2 <= (angle.quadrant + 1) % 4, unsigned_cosine(angle))
}

// The magnitude of the cosine of the angle.
#[tactic(auto, unfolding(crate::specs::CosPi::unsigned))]
fn unsigned_cosine(angle: Reduced) -> Sided
    ensures { MeetsSided (unsigned angle.quadrant angle.rest) result }
{
    if angle.rest == 0 {
        return posit::outright(if angle.quadrant % 2 == 1 { 0 } else { 0x4000 });
    }
    let k = cos_poly(angle.reflected());
    posit::round_sided(k % 0x0200_0000, -25) // the remainder tells the compiler: below 1
}

#[tactic(auto, unfolding(crate::specs::CosPi::poly))]
fn cos_poly(f: Argument) -> u64
    ensures value { result ≡ poly f.units }
    ensures upper_bound { result < 2 ^ 25 }
{
    if f.units < 0x000E_6001 {
        0x01FF_FFFF
    } else {
        cos_series(f.units >> 11)
    }
}

#[tactic(auto, unfolding(crate::specs::CosPi::series))]
fn cos_series(fs: u64) -> u64
    requires { fs < 2 ^ 16 }
    ensures value { result ≡ series fs }
    ensures upper_bound { result < 2 ^ 25 }
{
    let fsq = (fs * fs) >> 8;
    let a = 349_194 - ((fsq * 28_875) >> 25);
    let b = 4_255_560 - ((fsq * a) >> 24);
    let c = 20_698_014 - ((fsq * b) >> 24);
    33_554_428 - ((fsq * c) >> 23)
}

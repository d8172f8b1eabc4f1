// The sine of x half-turns, row 5 of document 01.
ghost use Rattle.std.specs.Prelude.{◌≡◌, ◌*◌, ◌^◌, ◌<◌};
ghost use Rattle.rows.specs.Rows.{Meets, MeetsSided};
ghost use Rattle.circular.specs.SinPi.{poly, series, unsigned, sine, row};

use crate::quadrant::{Argument, Reduced};
use posit::Sided;

pub fn sin_pi_sided(p: u16) -> Sided
    ensures { MeetsSided (row p) result }
{
    let negative = 0x7fff < p;
    let size = posit::signed(negative, p);
    if 31742 < size.wrapping_sub(1) {
        return posit::outright(if p == 0x8000 { 0x8000 } else { 0 }); // x is a whole number, zero among them, or NaR
    }
    posit::signed_sided(negative, sine_of(posit::units(size)))
}

// The pattern alone.
pub fn sin_pi(p: u16) -> u16
    ensures { Meets (row p) result }
{
    sin_pi_sided(p).pattern
}

// The sine of x / 2^28 half-turns.
fn sine_of(x: u64) -> Sided
    ensures { MeetsSided (sine x) result }
{
    let angle = Reduced::of(x);
    posit::signed_sided(2 <= angle.quadrant, unsigned_sine(angle))
}

// The magnitude of the sine of the angle.
#[tactic(auto, unfolding(crate::specs::SinPi::unsigned))]
fn unsigned_sine(angle: Reduced) -> Sided
    ensures { MeetsSided (unsigned angle.quadrant angle.rest) result }
{
    if angle.rest == 0 {
        return posit::outright(if angle.quadrant % 2 == 1 { 0x4000 } else { 0 });
    }
    posit::round_sided(sin_poly(angle.reflected()), -28)
}

#[tactic(auto, unfolding(crate::specs::SinPi::poly))]
fn sin_poly(f: Argument) -> u64
    ensures { result ≡ poly f.units }
{
    if f.units < 0x000A_5801 {
        (f.units * 102_943) >> 15
    } else {
        sin_series(f.units >> 11)
    }
}

#[tactic(auto, unfolding(crate::specs::SinPi::series))]
fn sin_series(fs: u64) -> u64
    requires { fs < 2 ^ 16 }
    ensures { result ≡ series fs }
{
    let fsq = (fs * fs) >> 8;
    let a = (fsq * 650) >> 25;
    let b = (fsq * (9_813 - a)) >> 23;
    let c = (fsq * (334_253 - b)) >> 23;
    let d = (fsq * (5_418_741 - c)) >> 22;
    (fs * (52_707_180 - d)) >> 13
}

// The tangent of x half-turns, row 7 of document 01.
ghost use Rattle.std.specs.Prelude.{◌≡◌, ◌*◌, ◌^◌, ◌<◌, ◌≤◌};
ghost use Rattle.rows.specs.Rows.{Meets, MeetsSided};
ghost use Rattle.circular.specs.TanPi.{poly, denominator, numerator, remainder, row};

use crate::quadrant::{Argument, Reduced};
use posit::Sided;

pub fn tan_pi_sided(p: u16) -> Sided
    ensures { MeetsSided (row p) result }
{
    if p == 0x8000 {
        return posit::outright(0x8000);
    }
    let negative = 0x7fff < p;
    let size = posit::signed(negative, p);
    if 31743 < size || size == 0 {
        return posit::outright(0); // x is a whole number, zero among them
    }
    posit::signed_sided(negative, tangent(posit::units(size) % 0x1000_0000))
}

// The pattern alone.
pub fn tan_pi(p: u16) -> u16
    ensures { Meets (row p) result }
{
    tan_pi_sided(p).pattern
}

// The tangent of r / 2^28 half-turns. At a half there is none; past it the argument is reflected, and the sign changes.
#[tactic(auto, unfolding(crate::specs::TanPi::remainder))]
fn tangent(r: u64) -> Sided
    requires { r < 2 ^ 28 }
    ensures { MeetsSided (remainder r) result }
{
    match r {
        0 => posit::outright(0),
        0x0400_0000 => posit::outright(0x4000),
        0x0800_0000 => posit::outright(0x8000),
        0x0C00_0000 => posit::outright(0xC000),
        _ => {
            let angle = Reduced::of(r);
            let k = tan_poly(angle.reflected());
            let size = posit::round_sided(k % 0x2_0000_0000_0000, -28); // the remainder tells the compiler: below 2^49
            posit::signed_sided(angle.quadrant == 1, size)
        }
    }
}

// Safe within a quarter turn, where the denominator stays above zero.
#[tactic(auto, unfolding(crate::specs::TanPi::poly))]
fn tan_poly(f: Argument) -> u64
    ensures value { result ≡ poly f.units }
    ensures upper_bound { result < 2 ^ 49 }
{
    if f.units < 0xE001 {
        return (f.units * 102_943) >> 15;
    }
    let fs = (f.units >> 9) % 0x4_0000; // the remainder tells the compiler: of 18 bits
    tan_numerator(fs) / tan_denominator(fs)
}

#[tactic(auto, unfolding(crate::specs::TanPi::denominator))]
fn tan_denominator(fs: u64) -> u64
    requires { fs < 2 ^ 18 }
    ensures value { result ≡ denominator fs }
    ensures lower_bound { 2 ^ 7 ≤ result }
{
    let fsq = (fs * fs) >> 10;
    let a = (fsq * 13_335_493) >> 25;
    0x0800_0000 - ((fsq * (295_106_440 - a)) >> 27)
}

#[tactic(auto, unfolding(crate::specs::TanPi::numerator))]
fn tan_numerator(fs: u64) -> u64
    requires { fs < 2 ^ 18 }
    ensures value { result ≡ numerator fs }
    ensures upper_bound { result < 2 ^ 56 }
{
    let fsq = (fs * fs) >> 10;
    let a = (fsq * 182_527) >> 27;
    let b = (fsq * (3_648_552 - a)) >> 23;
    (fs * (105_414_368 - b)) << 11
}

// The angles that the kernels give, and the square root that asin_pi and acos_pi take.
ghost use Rattle.std.specs.Prelude.{◌-◌, ◌^◌, ◌<◌, ◌≤◌, min};
ghost use Rattle.arc.specs.Root.{Root};

// An angle of at most a quarter turn, in units of 2^-30 half-turns.
#[derive(Clone, Copy)]
pub struct Angle {
    pub units: u64,
    ghost in_quarter: { units ≤ 2 ^ 29 },
}

// The floor of the square root of f, by Newton's steps from above: a mean of x and f / x is not below the root of f, so no
// step goes below its floor, nor does the start, which is the step from 2^27. From 0 none is taken, so none divides by 0.
// src/p16e1/math.rs finds it bit by bit, in 27 steps; here it takes some three.
pub fn isqrt(f: u64) -> u64
    requires { f < 2 ^ 56 }
    ensures { Root f result }
{
    let mut x: u64 = 0x0400_0000 + (f >> 28);
    while f < x * x {
        x = (x + f / x) / 2;
    }
    x
}

// The same for every f, which is held below 2^56: asin_pi and acos_pi take roots of at most 2^54.
pub fn square_root(f: u64) -> u64
    ensures { Root (min f (2 ^ 56 - 1)) result }
{
    if f < 0x0100_0000_0000_0000 {
        isqrt(f)
    } else {
        0x0FFF_FFFF
    }
}

// The rounding rule. Every answer that is no plain pattern is rounded here.
ghost use Rattle.std.specs.Prelude.{◌≡◌, ◌+◌, ◌-◌, ◌*◌, ◌/◌, ◌%◌, ◌^◌, ◌<◌, ◌≤◌, ◌||◌, ltb, pos, ◌+ℤ◌, if◌then◌else◌, int_lt, nat_lt, unsigned_abs};
ghost use Rattle.std.specs.Int.Signed.{mag};
ghost use Rattle.std.specs.Float.Ieee.{up, down};
ghost use Rattle.posit.specs.Rounding.{ratio, dyadic, plus, Rounds};
ghost use Rattle.posit.specs.Sides.{RoundsSided};
ghost use Rattle.posit.specs.declared.side.Side.TheVariants.{Below, On, Above};

use crate::side::{Side, Sided};

// How many bits of the regime's run follow its first, for a number whose power of two is p.
fn run_after(p: i32) -> u32
    ensures { result ≡ mag p / 2 }
{
    let half = p >> 1;
    if half < 0 { !half as u32 } else { half as u32 }
}

// The pattern of 17 bits with the regime of p and x after it, 48 places up. Before x stand 01, or 10 where p is not below zero:
// the last bit of the run and the one that ends it. One signed shift by k, which are the bits of the run that follow its first,
// puts these before them: it fills up with copies of the top bit.
fn laid_out(p: i32, k: u32, x: u64) -> u64
    requires { (k ≤ 13) × (x < 2 ^ 62) }
    ensures { result ≡ (if int_lt p (pos 0) then 2 ^ (14 - k) else 2 ^ 16 - 2 ^ (15 - k)) * 2 ^ 48 + x / 2 ^ k }
{
    let start = if p < 0 {
        0x4000_0000_0000_0000
    } else {
        i64::MIN
    };
    ((start + x as i64) >> k).cast_unsigned()
}

// f / 2^63 * 2^p, for f with its top bit set and p from -28 to 27; rest tells whether anything stands in f's lowest 15 bits,
// of which some are dropped here. x is the exponent bit and then the fraction; v is the number as a pattern whose last 49
// bits the answer has not. What is added to v carries into the answer above the dividing number, and on it where the answer
// would be odd.
fn place(f: u64, p: i32, rest: bool) -> Sided
    requires { (2 ^ 63 ≤ f) × (mag p ≤ 27) × (rest ≡ nat_lt 0 (f % 2 ^ 15)) }
    ensures { RoundsSided 1 16 (plus (ratio (f * 2 ^ unsigned_abs (p +ℤ pos 30)) (2 ^ 93))) result }
{
    let k = run_after(p);
    let x = (f - 0x8000_0000_0000_0000) / 4
        + (((p + 30) as u32 % 2) as u64) * 0x2000_0000_0000_0000;
    let v = laid_out(p, k, x);
    let more = if rest { 1 } else { (v >> 49) % 2 };
    let u = (v + 0xFFFF_FFFF_FFFF + more) >> 49;
    Sided {
        pattern: u as u16,
        side: side_of(u << 49, v, rest),
    }
}

// Where an answer lies, by its pattern and the number's, both of 64 bits; rest tells whether the number is more than its pattern.
fn side_of(answer: u64, v: u64, rest: bool) -> Side
    ensures { result ≡ (if ltb v answer then Above else (if ltb answer v || rest then Below else On)) }
{
    if v < answer {
        Side::Above
    } else if answer < v || rest {
        Side::Below
    } else {
        Side::On
    }
}

// Whether anything stands in the lowest 15 bits of f, which is m shifted up: not where m has at most 49 bits, as the compiler
// often knows.
fn below(m: u64, f: u64) -> bool
    requires { m < 2 ^ 49 → f % 2 ^ 15 ≡ 0 }
    ensures { result ≡ nat_lt 0 (f % 2 ^ 15) }
{
    0x2_0000_0000_0000 <= m && 0 < f % 0x8000
}

// e counted from -200, and held between 0 and 400: beyond these the answers are the smallest and the largest posit.
fn offset(e: i32) -> u32
    ensures at_most { result < 400 → up e * 2 ^ 200 ≤ 2 ^ result * down e }
    ensures at_least { 0 < result → 2 ^ result * down e ≤ up e * 2 ^ 200 }
    ensures held { result ≤ 400 }
{
    (e.clamp(-200, 200) + 200) as u32
}

// The posit that the rounding rule gives for m * 2^e, and where it lies. p is the number's power of two, or past -29 and 28 on
// the same side. A number below the smallest posit is answered by it, and one from the largest up by that, which 2^28 alone lies
// on.
pub fn round_sided(m: u64, e: i32) -> Sided
    ensures { RoundsSided 1 16 (dyadic (pos m) e) result }
{
    if m == 0 {
        return crate::side::outright(0);
    }
    let z = m.leading_zeros();
    let p = offset(e) as i32 - 137 - z as i32;
    let f = m << z;
    if -29 < p && p < 28 {
        return place(f, p, below(m, f));
    }
    if p < 0 {
        return Sided {
            pattern: 1,
            side: Side::Above,
        };
    }
    if p < 29 && f == 0x8000_0000_0000_0000 {
        return crate::side::outright(0x7fff);
    }
    Sided {
        pattern: 0x7fff,
        side: Side::Below,
    }
}

// The posit alone.
pub fn round(m: u64, e: i32) -> u16
    ensures { Rounds 1 16 (dyadic (pos m) e) result }
{
    round_sided(m, e).pattern
}

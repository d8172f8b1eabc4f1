// The logarithm of x to the base 2, row 4 of document 01.
ghost use Rattle.std.specs.Prelude.{◌≡◌, ◌^◌, ◌<◌};
ghost use Rattle.rows.specs.Rows.{Meets, MeetsSided};
ghost use Rattle.logarithm.specs.Log2.{poly, row};

use posit::Sided;

// l is the logarithm plus 28 in units of 2^-28, which is above zero for every x.
pub fn log2_sided(p: u16) -> Sided
    ensures { MeetsSided (row p) result }
{
    if p == 0 || 0x7fff < p {
        return posit::outright(0x8000);
    }
    let d = posit::decode(p);
    let l = (d.power as u64 % 64) * 0x1000_0000 + log2_poly(d.fraction as u64); // the remainder tells the compiler: it is small
    let negative = l < 28 * 0x1000_0000;
    let size = l.abs_diff(28 * 0x1000_0000);
    posit::signed_sided(negative, posit::round_sided(size, -28))
}

// The pattern alone.
pub fn log2(p: u16) -> u16
    ensures { Meets (row p) result }
{
    log2_sided(p).pattern
}

fn log2_poly(f: u64) -> u64
    requires { f < 2 ^ 12 }
    ensures value { result ≡ poly f }
    ensures upper_bound { result < 2 ^ 28 }
{
    let z = (f << 29) / (f + 8_192);
    let zsq = (z * z) >> 30;
    let a = (zsq * 1_661) >> 25;
    let b = (zsq * (13_209 + a)) >> 26;
    let c = (zsq * (75_694 + b)) >> 24;
    let d = (zsq * (2_017_019 + c)) >> 24;
    (z * (96_817_627 + d)) >> 26
}

// The natural logarithm of x, row 3 of document 01.
ghost use Rattle.std.specs.Prelude.{◌≡◌, ◌^◌, ◌<◌};
ghost use Rattle.rows.specs.Rows.{Meets, MeetsSided};
ghost use Rattle.logarithm.specs.Ln.{poly, row};

use posit::Sided;

// l is the logarithm to the base 2 plus 28, in units of 2^-30. What the two signs are multiplied by differs by 1.
pub fn ln_sided(p: u16) -> Sided
    ensures { MeetsSided (row p) result }
{
    if p == 0 || 0x7fff < p {
        return posit::outright(0x8000);
    }
    let d = posit::decode(p);
    let l = (d.power as u64) * 0x4000_0000 + ln_poly(d.fraction as u64);
    let negative = l < 28 * 0x4000_0000;
    let size = l.abs_diff(28 * 0x4000_0000);
    let scale: u64 = if negative { 186_065_280 } else { 186_065_279 };
    posit::signed_sided(negative, posit::round_sided((size * scale) >> 28, -30))
}

// The pattern alone.
pub fn ln(p: u16) -> u16
    ensures { Meets (row p) result }
{
    ln_sided(p).pattern
}

fn ln_poly(f: u64) -> u64
    requires { f < 2 ^ 12 }
    ensures value { result ≡ poly f }
    ensures upper_bound { result < 2 ^ 30 }
{
    let z = ((f << 31) + 2) / (f + 8_192);
    let zsq = (z * z) >> 30;
    let a = (zsq * 1_584) >> 28;
    let b = (zsq * (26_661 + a)) >> 29;
    let c = (zsq * (302_676 + b)) >> 27;
    let d = (zsq * (16_136_153 + c)) >> 30;
    (z * (193_635_259 + d)) >> 27
}

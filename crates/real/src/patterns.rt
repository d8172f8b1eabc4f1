// The pattern that an f64 rounds to.
ghost use Rattle.std.specs.Prelude.{from_bits};
ghost use Rattle.std.specs.Float.{binary64};
ghost use Rattle.real.specs.Reals.{FromF64};

// The pattern for the f64 with these bits, which may be those of any NaN: the language has no f64 with a NaN's bits.
pub fn from_bits(bits: u64) -> u16
    ensures { FromF64 (from_bits binary64 bits) result }
{
    let field = bits % 0x8000_0000_0000_0000 / 0x10_0000_0000_0000;
    let digits = bits % 0x10_0000_0000_0000;
    if field == 2047 {
        return 0x8000;
    }
    let negative = bits >= 0x8000_0000_0000_0000;
    if field == 0 {
        return posit::signed(negative, posit::round(digits, -1074));
    }
    posit::signed(
        negative,
        posit::round(0x10_0000_0000_0000 + digits, (field as i32) - 1075),
    )
}

// The pattern that the rounding rule gives for x's exact number: 0 for both zeros, and NaR for a NaN and both infinities.
pub fn from_f64(x: f64) -> u16
    ensures { FromF64 x result }
{
    if x.is_nan() {
        0x8000
    } else {
        from_bits(x.to_bits())
    }
}

// A pattern's number, taken apart: the power of two and the fraction, or the whole of it in units of 2^-28.
//
// The sign bit is not looked at. Callers decode the magnitude of a number; zero and NaR, which have none, decode as the
// smallest posit does.
ghost use Rattle.std.specs.Prelude.{◌≡◌, ◌+◌, ◌/◌, ◌%◌, ◌^◌, ◌<◌, ◌≤◌, if◌then◌else◌, nat_le};
ghost use Rattle.posit.specs.Number.{bit, run, regime, magnitude};
ghost use Rattle.posit.specs.Decoding.{Decodes};

// (1 + fraction / 4096) * 2^power, in units of 2^-28.
#[derive(Clone, Copy)]
pub struct Decoded {
    pub power: u32,
    pub fraction: u32,
}

// A pattern's regime, counted from the smallest, and its bits with the run and the bit that ends it shifted out: the exponent
// stands at bit 63 and the fraction below it.
#[derive(Clone, Copy)]
struct Fields {
    regime: u32,
    bits: u64,
}

// How long a pattern's run is: how many of its bits after the sign, from the first of them on, equal that one. It ends because
// there is no loop: the processor counts leading zeros in one step. w has those bits at its top and only zeros below. Where it
// starts with a 1 every bit is turned over, so that the run is one of zeros in either case. The first bit of the run is counted
// by itself, the 1 in front; twice the word has lost it, and has a 1 at its end, where the count stops at the latest.
fn run_length(w: u64) -> u32
    requires { (2 ^ 49 ≤ w) × (w % 2 ^ 49 ≡ 0) }
    ensures counted { result ≡ run (bit 63 w) 15 (w / 2 ^ 49) }
    ensures bounds { (1 ≤ result) × (result ≤ (if nat_le (2 ^ 63) w then 15 else 14)) }
{
    let zeros = if w < 0x8000_0000_0000_0000 { w } else { !w };
    1 + (2 * zeros + 1).leading_zeros()
}

// The regime of a run of m bits, counted from the smallest: r is m - 1 for ones and -m for zeros, and each step of r is two.
fn regime_of(ones: bool, m: u32) -> u32
    requires { (1 ≤ m) × (m ≤ (if ones then 15 else 14)) }
    ensures { result ≡ regime 1 16 (if ones then 1 else 0) m }
{
    let r = if ones { m as i32 - 1 } else { -(m as i32) };
    (28 + 2 * r) as u32
}

// The fields of a pattern. The sign bit is left out, and zero is taken for 1.
fn fields_of(p: u16) -> Fields
    ensures decodes { Decodes p (result.regime + result.bits / 2 ^ 63) (result.bits / 2 ^ 51 % 4096) }
    ensures below_clear { result.bits % 2 ^ 51 ≡ 0 }
{
    let q = (p % 0x8000) as u64;
    let w = (if q == 0 { 1 } else { q }) << 49; // q.max(1) costs an instruction more
    let m = run_length(w);
    Fields {
        regime: regime_of(0x8000_0000_0000_0000 <= w, m),
        bits: w << (m - 1) << 2,
    }
}

pub fn decode(p: u16) -> Decoded
    ensures { Decodes p result.power result.fraction }
{
    let f = fields_of(p);
    Decoded {
        power: f.regime + (f.bits / 0x8000_0000_0000_0000) as u32,
        fraction: ((f.bits >> 51) % 4096) as u32,
    }
}

// The magnitude of p's number, in units of 2^-28.
pub fn units(p: u16) -> u64
    ensures { result ≡ magnitude 1 16 p }
{
    let f = fields_of(p);
    let lead = 0x8000_0000_0000_0000 + f.bits % 0x8000_0000_0000_0000;
    lead >> (63 - f.regime - (f.bits / 0x8000_0000_0000_0000) as u32)
}

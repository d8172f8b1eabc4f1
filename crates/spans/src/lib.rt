// The span of a pattern: the f64s that convert to it (crates/span_laws).
#![tactic(auto)]

mod edges;

ghost use Rattle.std.specs.Prelude.{◌≡◌, ◌^◌, ◌<◌, pos, ◌≢◌};
ghost use Rattle.posit.specs.Number.{magnitude, number};
ghost use Rattle.real.specs.Reals.{Exactly, Holds};
ghost use Rattle.spans.specs.Spans.{SpanOf};

use edges::place_of;
pub use edges::{Edge, edge_bits};

// The edges' numbers, lower and upper, +0.0 for one that is missing, and how the span stands at each.
#[derive(Clone, Copy)]
pub struct Span {
    pub lower: f64,
    pub upper: f64,
    pub start: Edge,
    pub end: Edge,
}

// The magnitude in the 17-bit pattern v, in units of 2^-30. With a run of two zeros or more it is that in the same bits read
// as a 16-bit pattern, in units of that, and with a run of two ones or more 16 times that in the pattern with a 1 less.
// After a run of one bit the exponent is bit 13, and the fraction stands below it.
fn units_17(v: u16) -> u64
    ensures { result ≡ magnitude 1 17 v }
{
    if v < 0x4000 {
        return posit::units(v);
    }
    if v >= 0xc000 {
        return 16 * posit::units(v - 0x8000);
    }
    let lead = (0x2000 + v % 0x2000) as u64;
    lead << (13 + v / 0x2000)
}

// The same as an f64: the cast and the product lose nothing.
fn magnitude_of(v: u16) -> f64
    ensures { Exactly (pos (magnitude 1 17 v)) 30 result }
{
    std::num::nearest_u64_to_f64(units_17(v)) * 9.31322574615478515625e-10
}

// The number of the 17-bit posit v, which is not NaR.
fn number_17(v: u32) -> f64
    requires { (v < 2 ^ 17) × (v ≢ 2 ^ 16) }
    ensures { Holds 30 (number 1 17 v) result }
{
    if v == 0 {
        return 0.0;
    }
    if v < 0x10000 {
        return magnitude_of(v as u16);
    }
    -magnitude_of((0x20000 - v) as u16)
}

// None for NaR, which has no span.
pub fn span_of(p: u16) -> Option<Span>
    ensures { SpanOf p result }
{
    if p == 0x8000 {
        return None;
    }
    let v = 2 * (p as u32);
    let low = place_of(p, 0x0001, 0x8001, (v + 0x1ffff) % 0x20000);
    let high = place_of(p, 0xffff, 0x7fff, v + 1);
    Some(Span {
        lower: number_17(low.posit),
        upper: number_17(high.posit),
        start: low.edge,
        end: high.edge,
    })
}

// Posits and f64. NaR is no real number and has no span, which the result says; then nothing is written.
ghost use Rattle.std.specs.Prelude.{◌≡◌, Float};
ghost use Rattle.real.specs.Reals.{FromF64};
ghost use Rattle.balehasp.specs.Reals.{RealOut, SpanOut};

#[unsafe(no_mangle)]
pub extern "C" fn balehasp_to_f64(p: u16, real: &mut f64) -> bool
    ensures { RealOut p real.old result real.new }
{
    let real::RealAnswer::Real(x) = real::to_f64(p) else {
        return false;
    };
    *real = x;
    true
}

#[unsafe(no_mangle)]
pub extern "C" fn balehasp_from_f64(x: f64) -> u16
    ensures { FromF64 x result }
{
    real::from_f64(x)
}

#[unsafe(no_mangle)]
pub extern "C" fn balehasp_span(p: u16, lower: &mut f64, upper: &mut f64, edges: &mut u8) -> bool
    ensures { SpanOut p lower.old upper.old edges.old result lower.new upper.new edges.new }
{
    let Some(s) = spans::span_of(p) else {
        return false;
    };
    *lower = s.lower;
    *upper = s.upper;
    *edges = spans::edge_bits(s.start, s.end);
    true
}

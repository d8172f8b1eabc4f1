// What exp and exp2 answer without their kernels.
ghost use Rattle.std.specs.Prelude.{◌≡◌};
ghost use Rattle.exponential.specs.Ends.{beyond, named};

// The answer that a row names outright, if it names one: 1 below LOW and above HIGH, so near to zero is the number, and what
// `saturated` has where the magnitude's pattern is FAR or more.
pub fn named<const LOW: u16, const HIGH: u16, const FAR: u16>(p: u16) -> Option<u16>
    ensures { result ≡ named LOW HIGH FAR p }
{
    if p < LOW || HIGH < p {
        return Some(0x4000);
    }
    if FAR <= posit::signed(0x7fff < p, p) {
        return Some(saturated(p));
    }
    None
}

// The answer where an exponential is past the ends of the posits, and the one to NaR between them.
fn saturated(p: u16) -> u16
    ensures { result ≡ beyond p }
{
    match p {
        0..=0x7fff => 0x7fff,
        0x8000 => 0x8000,
        _ => 0x0001,
    }
}

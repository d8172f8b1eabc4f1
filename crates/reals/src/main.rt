// Reads patterns from standard input, two bytes each, the low byte first, and writes the f64 of each as eight bytes, the low
// byte first: eight FF bytes for NaR. A last odd byte is ignored. It ends at the first read or write that fails, and says so.
// `tools/reals-check --write` made stdin, which is every pattern in order and an odd byte, and from it stdout, with exact fractions.
#![tactic(auto)]

ghost use Rattle.std.specs.Prelude.{◌≡◌, ◌*◌, ◌≤◌, length, take};
ghost use Rattle.io.specs.Counts.{IsPrefixLen};
ghost use Rattle.reals.specs.Reals.{reals_of};

use blocks::{Conversion, Whole};
use real::RealAnswer;
use std::process::ExitCode;

// Writes the f64 of each pattern in `bytes` into the first bytes of `output`, and answers how many bytes that is.
fn convert(bytes: &[u8], output: &mut [u8]) -> usize
    requires { 4 * length bytes.now ≤ length output.old }
    ensures prefix_len { IsPrefixLen result output.new }
    ensures output_after { take result output.new ≡ reals_of bytes.now }
{
    let (patterns, _) = bytes.as_chunks::<2>();
    for (i, pattern) in patterns.iter().enumerate() {
        let at = 8 * i;
        let RealAnswer::Real(x) = real::to_f64(u16::from_le_bytes(*pattern)) else {
            output[at..at + 8].copy_from_slice(&[0xFF; 8]);
            continue;
        };
        output[at..at + 8].copy_from_slice(&x.to_le_bytes());
    }
    8 * patterns.len()
}

// The conversion of patterns: eight bytes for each two of a block.
struct ToReals;

impl Conversion<524288> for ToReals {
    ghost gives = { reals_of };

    fn convert(&self, block: Whole, output: &mut [u8; 524288]) -> usize {
        convert(block.bytes, output)
    }
}

fn main(rt: HostRuntime) -> ExitCode {
    blocks::convert_input(&rt, &mut blocks::room(), &ToReals)
}

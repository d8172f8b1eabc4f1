// Reads f64s from standard input, eight bytes each, the low byte first, and writes the pattern of each as two bytes, the low
// byte first. Up to seven last bytes, which make no f64, are ignored. It ends at the first read or write that fails, and says so.
// The f64s go by their bits, for a NaN's bits are no f64 to the language. `tools/reals-check --write` made stdin, and from it
// stdout, with exact fractions.
#![tactic(auto)]

ghost use Rattle.std.specs.Prelude.{◌≡◌, ◌≤◌, length, take};
ghost use Rattle.io.specs.Counts.{IsPrefixLen};
ghost use Rattle.patterns.specs.Patterns.{patterns_of};

use blocks::{Conversion, Whole};
use std::process::ExitCode;

// Writes the pattern of each f64 in `bytes` into the first bytes of `output`, and answers how many bytes that is.
fn convert(bytes: &[u8], output: &mut [u8]) -> usize
    requires { length bytes.now ≤ length output.old }
    ensures prefix_len { IsPrefixLen result output.new }
    ensures output_after { take result output.new ≡ patterns_of bytes.now }
{
    let (reals, _) = bytes.as_chunks::<8>();
    for (i, bits) in reals.iter().enumerate() {
        let p = real::from_bits(u64::from_le_bytes(*bits));
        output[2 * i..2 * i + 2].copy_from_slice(&p.to_le_bytes());
    }
    2 * reals.len()
}

// The conversion of f64s, whose patterns are fewer bytes than they.
struct ToPatterns;

impl Conversion<131072> for ToPatterns {
    ghost gives = { patterns_of };

    fn convert(&self, block: Whole, output: &mut [u8; 131072]) -> usize {
        convert(block.bytes, output)
    }
}

fn main(rt: HostRuntime) -> ExitCode {
    blocks::convert_input(&rt, &mut blocks::input_block(), &ToPatterns)
}

// Writes each byte of standard input twice: a run of `blocks::convert_input_by` over more than one block. stdin is that of reals.
#![tactic(auto)]

ghost use Rattle.std.specs.Prelude.{◌*◌, ◌≤◌, length};
ghost use Rattle.io.specs.Counts.{IsPrefixLen};

use blocks::ByFunction;
use std::process::ExitCode;

// Writes each byte of `bytes` twice into the first bytes of `output`, and answers how many bytes that is.
fn twice(bytes: &[u8], output: &mut [u8]) -> usize
    requires { 2 * length bytes.now ≤ length output.old }
    ensures { IsPrefixLen result output.new }
{
    for (i, byte) in bytes.iter().enumerate() {
        output[2 * i] = *byte;
        output[2 * i + 1] = *byte;
    }
    2 * bytes.len()
}

fn main(rt: HostRuntime) -> ExitCode {
    let mut room = blocks::room::<262144>();
    let mut converter = ByFunction {
        output: &mut room,
        convert: twice,
    };
    blocks::convert_input_by(&rt, &mut converter)
}

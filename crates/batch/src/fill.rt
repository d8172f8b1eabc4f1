// The places that a batch evaluates.
ghost use Rattle.std.specs.Prelude.{◌≡◌, length, map};
ghost use Rattle.p16e1.specs.Functions.{answer_of, function_number};
ghost use Rattle.batch.specs.Batch.{nars_in};

use p16e1::Function;

// Writes the function's answers to the patterns, and counts the NaR among them. The function is chosen here, once for all of
// them: each arm hands on one that the compiler knows, so that it makes a loop with that one function in it.
pub fn fill(function: Function, input: &[u16], output: &mut [u16]) -> usize
    requires { length input.now ≡ length output.old }
    ensures value { result ≡ nars_in (map (answer_of (function_number function)) input.now) }
    ensures output_after { output.new ≡ map (answer_of (function_number function)) input.now }
{
    match function {
        Function::Exp => fill_by(Function::Exp, input, output),
        Function::Exp2 => fill_by(Function::Exp2, input, output),
        Function::Ln => fill_by(Function::Ln, input, output),
        Function::Log2 => fill_by(Function::Log2, input, output),
        Function::SinPi => fill_by(Function::SinPi, input, output),
        Function::CosPi => fill_by(Function::CosPi, input, output),
        Function::TanPi => fill_by(Function::TanPi, input, output),
        Function::AtanPi => fill_by(Function::AtanPi, input, output),
        Function::AsinPi => fill_by(Function::AsinPi, input, output),
        Function::AcosPi => fill_by(Function::AcosPi, input, output),
    }
}

// The same, with the function chosen anew for each pattern.
fn fill_by(function: Function, input: &[u16], output: &mut [u16]) -> usize
    requires { length input.now ≡ length output.old }
    ensures value { result ≡ nars_in (map (answer_of (function_number function)) input.now) }
    ensures output_after { output.new ≡ map (answer_of (function_number function)) input.now }
{
    let mut nars = 0;
    for (i, &p) in input.iter().enumerate() {
        let a = function.answer(p);
        output[i] = a;
        nars += usize::from(a == 0x8000);
    }
    nars
}

// The points of document 01, "Run and compared".
use p16e1::Function;

// Whether the function's answer to p is printed by name.
pub fn named(function: Function, p: u16) -> bool {
    match function {
        Function::Exp => matches!(p, 191 | 28846 | 36690 | 65408),
        Function::Exp2 => matches!(p, 220 | 29376 | 29377 | 36159 | 36160 | 65380),
        Function::SinPi => matches!(p, 31743 | 31744),
        Function::AcosPi => matches!(p, 164 | 165 | 65307 | 65308 | 0x4001 | 0xBFFF),
        _ => false,
    }
}

// Posits of sixteen bits with one exponent bit: decoding, rounding and the sign. Each exists once, here.
#![tactic(auto)]

mod decoding;
mod rounding;
mod side;
mod sign;

pub use decoding::{Decoded, decode, units};
pub use rounding::{round, round_sided};
pub use side::{Side, Sided, outright, signed_sided};
pub use sign::{opposite, signed};

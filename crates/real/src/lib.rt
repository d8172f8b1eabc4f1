// Posits and f64: a pattern's number as an f64, and the pattern that an f64 rounds to.
#![tactic(auto)]

mod numbers;
mod patterns;

pub use numbers::{RealAnswer, to_f64};
pub use patterns::{from_bits, from_f64};

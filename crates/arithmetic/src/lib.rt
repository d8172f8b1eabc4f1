// Negation, sums, differences and products of patterns, each rounded once.
#![tactic(auto)]

mod products;
mod sums;

pub use products::multiply;
pub use sums::{add, negate, subtract};

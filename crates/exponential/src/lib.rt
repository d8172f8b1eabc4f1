// exp and exp2, rows 1 and 2 of document 01. Each has a file of its own under math/, named as in the crate softposit 0.4.0.
#![tactic(auto)]

mod ends;
mod fixed;
mod math;

pub use math::exp::{exp, exp_sided};
pub use math::exp2::{exp2, exp2_sided};

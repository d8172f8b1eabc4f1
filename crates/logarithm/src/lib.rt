// ln and log2, rows 3 and 4 of document 01. Each has a file of its own under math/, named as in the crate softposit 0.4.0.
#![tactic(auto)]

mod math;

pub use math::ln::{ln, ln_sided};
pub use math::log2::{log2, log2_sided};

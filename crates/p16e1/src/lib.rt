// The ten functions of the posit of sixteen bits with one exponent bit, and their numbers.
#![tactic(auto)]

mod functions;

pub use functions::{Function, answer, answer_or_nar, answer_sided, is_known};

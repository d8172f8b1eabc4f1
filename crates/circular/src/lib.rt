// sin_pi, cos_pi and tan_pi, rows 5 to 7 of document 01. Each has a file of its own under math/, named as in the crate
// softposit 0.4.0.
#![tactic(auto)]

mod math;
mod quadrant;

pub use math::cos_pi::{cos_pi, cos_pi_sided};
pub use math::sin_pi::{sin_pi, sin_pi_sided};
pub use math::tan_pi::{tan_pi, tan_pi_sided};

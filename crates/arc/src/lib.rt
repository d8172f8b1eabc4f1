// atan_pi, asin_pi and acos_pi, rows 8 to 10 of document 01, and the square root that the last two take. Each function has a
// file of its own under math/, named as in the crate softposit 0.4.0.
#![tactic(auto)]

mod kernel;
mod math;

pub use kernel::square_root;
pub use math::acos_pi::{acos_pi, acos_pi_sided};
pub use math::asin_pi::{asin_pi, asin_pi_sided};
pub use math::atan_pi::{atan_pi, atan_pi_sided};

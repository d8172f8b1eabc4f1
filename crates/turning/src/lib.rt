// The turn of a lever arm by heading, pitch and roll.
#![tactic(auto)]

mod arm;
mod matrix;

pub use arm::turn;

pub mod exp;
pub mod exp2;

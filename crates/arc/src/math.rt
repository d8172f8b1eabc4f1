pub mod acos_pi;
pub mod asin_pi;
pub mod atan_pi;

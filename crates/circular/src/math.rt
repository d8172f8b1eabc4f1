pub mod cos_pi;
pub mod sin_pi;
pub mod tan_pi;

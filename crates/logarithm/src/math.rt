pub mod ln;
pub mod log2;

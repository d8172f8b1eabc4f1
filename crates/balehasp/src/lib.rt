// The library's face for C and for Rust: each entry calls a proved function and turns what the C calling convention cannot
// carry into numbers and lent places. bindings/c/balehasp.h declares the entries.
#![tactic(auto)]

mod calls;
mod coming;
mod functions;
mod operations;
mod reals;
mod sided;

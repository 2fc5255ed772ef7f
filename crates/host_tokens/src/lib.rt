//! What a program in C or Rust calls of token.rs: tokens, rights and flags, which need no world, by plain names, numbers in, numbers out.
//! The contract of each cites the same definition as the function's own.
#![tactic(auto)]

mod flags;
mod rights;
mod tokens;

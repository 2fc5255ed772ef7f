//! Arithmetic on words, words that differ and where one stands, words moved by a place: for `table`, `registry`, `registry_look` and
//! `revocation`. The definitions in specs/ are shared by all crates.
#![tactic(auto)]

pub mod arith;
pub mod distinct;
pub mod shift;

//! Member and call expressions, and the literals that they begin with, over what reads the expressions within them.
#![tactic(auto)]

mod access;
mod chains;
mod grammar;
mod literals;
mod quoted;

pub use grammar::Brackets;

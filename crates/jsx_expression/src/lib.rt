//! The expressions of the grammar, with what every production has in common.
#![tactic(auto)]

mod arrow;
pub mod expression;
pub mod function;
mod grammar;
mod operations;

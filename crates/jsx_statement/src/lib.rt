//! The statements of the grammar.
#![tactic(auto)]

pub mod body;
mod catching;
pub mod function;
mod grammar;
mod iteration;
pub mod statement;
mod switch;

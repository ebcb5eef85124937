//! Passes over names and parentheses of a program's tree.
#![tactic(auto)]

mod control;
mod directives;
mod early_errors;
mod objects;
mod opening;
mod operators;
mod pair;
mod parentheses;
mod patterns;
mod place;
mod program;
mod rank;
mod statements;
mod text;
mod walk;

pub use early_errors::{ScopeError, early};
pub use parentheses::parenthesise;

#[cfg(test)]
mod tests;

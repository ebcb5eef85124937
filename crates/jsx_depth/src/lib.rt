//! How deep a tree is: whether it nests within so many levels.
//!
//! A node is looked at in two steps: whether it counts, and whether its parts are within what it leaves them.
#![tactic(auto)]

mod control;
mod elements;
mod expressions;
mod level;
mod objects;
mod operators;
mod patterns;
mod program;
mod statements;

pub use expressions::fits_expr;
pub use patterns::fits_pattern;
pub use program::fits_program;

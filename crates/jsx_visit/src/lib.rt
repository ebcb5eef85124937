//! One walk over a program's tree for all passes that make expressions anew.
#![tactic(auto)]

mod control;
mod expressions;
mod objects;
mod operators;
mod patterns;
mod program;
mod statements;
mod visitor;
mod walk;

pub use program::visit;
pub use visitor::Visitor;

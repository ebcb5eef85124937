//! Reads a text as the one tree that the grammar gives it.
#![tactic(auto)]

mod bare;
mod export;
mod import;
mod item;
mod module;
mod specifier;

pub use jsx_operand::ParseError;
pub use module::parse;

//! What is left to print: the list of it, the trees of one place, and patterns.
#![tactic(auto)]

mod holes;
mod lists;
mod node;
mod patterns;
mod printer;
mod templates;

pub use holes::array_end;
pub use lists::is_empty_stmt;
pub use node::{Node, Owner, Role, Side};
pub use printer::Printer;

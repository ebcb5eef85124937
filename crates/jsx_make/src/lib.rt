//! The makers of nodes of the tree, each with what the node is, tells and spans.
#![tactic(auto)]

mod arrows;
mod classes;
mod functions;
pub mod make;
mod statements;

//! Declarations, the heads of loops, jumps and the other statements that hold no statement.
#![tactic(auto)]

pub mod for_head;
pub mod function;
pub mod label;
mod open_in;
pub mod statement;

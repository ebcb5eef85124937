//! Functions, classes and the patterns that bind names, over what reads the expressions and the bodies within them.
#![tactic(auto)]

pub mod class;
pub mod function;
mod grammar;
pub mod method;
pub mod pattern;

pub use grammar::{MEMBER, Within};

//! From a program to the text of its code.
#![tactic(auto)]

mod access;
mod control;
mod expressions;
mod functions;
mod members;
mod module;
mod printed;
mod run;
mod statements;

pub use printed::{Printed, print};

#[cfg(test)]
mod tests;

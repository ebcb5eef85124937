//! What a program's text says of names, read off its tree in the order of the text.
#![tactic(auto)]

mod classes;
mod control;
mod expressions;
mod functions;
mod imports;
mod jsx;
mod laws;
mod members;
mod mode;
mod names;
mod operations;
mod patterns;
mod program;
mod statements;
mod walk;

pub use laws::{early_in_place, said_is_heard};
pub use mode::{Mode, Way};
pub use program::heard;

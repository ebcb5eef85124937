//! From the bytes of a source to the bytes of its code.
#![tactic(auto)]

mod calls;
mod compiler;
mod error_line;
mod input;
mod literal;
mod lower;
mod program;
mod spot;
mod tag;

pub use compiler::{CompileError, Output, compile};
pub use program::{Status, run};

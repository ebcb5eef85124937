//! What a printer writes with: a text under construction, and the words that are always spelled alike.
#![tactic(auto)]

mod pen;
mod step;
mod words;

pub use pen::{Draft, Pen, Stretch};
pub use step::Step;
pub use words::{assign_text, before_call, before_index, dot, infix, step_text};

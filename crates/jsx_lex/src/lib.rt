//! The tokens of a text, one at a time, in the mode that the reader asks for.
#![tactic(auto)]

mod automaton;
mod characters;
mod comment;
mod escapes;
mod front;
mod gap;
mod lexer;
mod machine;
mod marks;
mod number;
mod plain;
mod quoted;
mod regexp;
mod template;
#[cfg(test)]
mod tests;
mod token;

pub use comment::comments;
pub use escapes::Escapes;
pub use lexer::Lexer;
pub use token::{Mode, Token, TokenKind};

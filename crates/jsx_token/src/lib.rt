//! The tokens of a text, one at a time, with what the grammar asks of each.
#![tactic(auto)]

mod characters;
mod cooked;
mod gap;
pub mod growth;
mod heading;
mod identifiers;
mod lexer;
mod opening;
mod seen;
mod semicolon;
mod word;

pub use cooked::is_cooked;
pub use heading::Heading;
pub use identifiers::{
    is_bound, is_constructor, is_constructor_string, is_plain_tag, is_proto, is_proto_string,
    is_prototype, is_prototype_string, is_reserved, value_word,
};
pub use lexer::{Ending, Fixed, Leaf, Lexer, Piece};
pub use opening::Opening;
pub use word::Word;

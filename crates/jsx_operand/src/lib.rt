//! What every production of the parser has in common, questions about expressions, and those that have none within.
#![tactic(auto)]

pub mod argument;
mod around;
mod body;
pub mod cover;
pub mod depth;
mod error;
pub mod link;
pub mod member;
pub mod operand;
pub mod parser;
pub mod pattern;
pub mod proto;
pub mod template;
pub mod turn;

pub use around::{Around, Context, Labels};
pub use body::Body;
pub use cover::Cover;
pub use error::ParseError;
pub use parser::{binding_identifier, expect, give_up, semicolon, span_to};

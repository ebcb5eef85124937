//! Why a text wasn't read.

use jsx_base::BytePos;
use std::alloc::{AllocError, AllocFailed};

/// Why no program was read.
#[derive(Clone, Copy, Debug, PartialEq, Eq)]
pub enum ParseError {
    /// No tree reads the text; the place, in bytes, at which the parser gave up.
    Syntax(BytePos),
    /// A front of the text is deeper than it may be; the place, in bytes, of its last token.
    TooDeep(BytePos),
    Memory,
}

impl From<AllocError> for ParseError {
    ghost use Rattle.std.specs.Prelude.{◌≡◌};
    ghost use Rattle.jsx_operand.specs.declared.error.ParseError.TheVariants.{Memory};

    ghost from_gives = { λ _ e. e ≡ Memory };

    fn from(_: AllocError) -> ParseError {
        ParseError::Memory
    }
}

impl<T: Drop> From<AllocFailed<T>> for ParseError {
    ghost use Rattle.std.specs.Prelude.{◌≡◌};
    ghost use Rattle.jsx_operand.specs.declared.error.ParseError.TheVariants.{Memory};

    ghost from_gives = { λ _ e. e ≡ Memory };

    fn from(_: AllocFailed<T>) -> ParseError {
        ParseError::Memory
    }
}

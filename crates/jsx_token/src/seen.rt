//! A token that was looked at.

ghost use Rattle.std.specs.Prelude.{◌≡◌, IsTrue};
ghost use Rattle.jsx_base.specs.Token.{skips};
ghost use Rattle.jsx_lex.specs.Kinds.{mode_of as mode_read};
ghost use Rattle.jsx_token.specs.Seen.{Serves};

use crate::characters::first;
use jsx_lex::{Lexer, Mode, Token, TokenKind};

/// A token in its mode, and the lexer behind it.
#[derive(Clone, Copy)]
pub struct Seen<'s> {
    pub mode: Mode,
    pub token: Token<'s>,
    pub behind: Lexer<'s>,
}

impl Seen<'_> {
    /// Whether its mode skips the gap before it.
    pub fn is_behind_gap(&self) -> bool
        ensures { result ≡ skips (mode_read self.now.mode) }
    {
        !matches!(self.mode, Mode::Piece | Mode::Children)
    }
}

/// Whether the token is also the one that comes next in this mode. Where an expression may begin, a token that begins
/// with neither `/` nor `<` is the same as elsewhere, and so is `<` alone.
#[inline(always)]
pub fn serves(seen: &Seen, mode: Mode) -> bool
    ensures { IsTrue result → Serves seen.now (mode_read mode) }
{
    if seen.mode == mode {
        return true;
    }
    if seen.mode != Mode::Operator {
        return false;
    }
    if mode != Mode::Operand {
        return false;
    }
    match first(seen.token.raw) {
        Some('/') => false,
        Some('<') => seen.token.kind == TokenKind::Less,
        Some(_) => true,
        None => false,
    }
}

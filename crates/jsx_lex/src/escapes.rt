//! The escapes of a string, character by character: those of a template are the same (ECMA-262 sections 12.9.4 and 12.9.6).

ghost use Rattle.std.specs.Prelude.{◌≡◌};
ghost use Rattle.jsx_base.specs.Token.{InString, is_dead, step};
ghost use Rattle.jsx_lex.specs.Automaton.{is_done, state_of};

use crate::automaton::{Quoted, State, Template};
use crate::machine::step;

/// What was taken of a string.
#[derive(Clone, Copy)]
pub struct Escapes {
    state: State,
}

impl Escapes {
    /// Nothing, behind the quote that closes it too.
    pub fn within(quote: char) -> Escapes
        ensures { state_of result.state ≡ InString quote }
    {
        let state = State::Quoted(quote, Quoted::InBody);
        Escapes { state }
    }

    /// One more character.
    pub fn next(self, c: char) -> Escapes
        ensures { state_of result.state ≡ step (state_of self.state) c }
    {
        let state = step(self.state, c);
        Escapes { state }
    }

    /// Whether it can't be a string.
    pub fn is_dead(self) -> bool
        ensures { result ≡ is_dead (state_of self.state) }
    {
        matches!(self.state, State::Dead)
    }

    /// Whether it is whole, and takes nothing more.
    pub fn is_done(self) -> bool
        ensures { result ≡ is_done (state_of self.state) }
    {
        match self.state {
            State::Quoted(_, Quoted::Closed) => true,
            State::Template(_, Template::Closed) => true,
            State::Template(_, Template::Substituted) => true,
            _ => false,
        }
    }
}

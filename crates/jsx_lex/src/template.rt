//! The automaton of a template's pieces.

ghost use Rattle.std.specs.Prelude.{◌≡◌};
ghost use Rattle.jsx_base.specs.Token.{step, in_piece};
ghost use Rattle.jsx_lex.specs.Automaton.{state_of, template_state, closed_kind, open_kind};

use crate::automaton::{State, Template};

/// A character of the body.
fn in_body(is_first: bool, c: char) -> State
    ensures { state_of result ≡ in_piece (closed_kind is_first) (open_kind is_first) c }
{
    if c == '`' {
        State::Template(is_first, Template::Closed)
    } else if c == '\\' {
        State::Template(is_first, Template::InEscape)
    } else if c == '$' {
        State::Template(is_first, Template::BehindDollar)
    } else {
        State::Template(is_first, Template::InBody)
    }
}

/// The state a character further.
pub fn template_step(is_first: bool, template: Template, c: char) -> State
    ensures { state_of result ≡ step (template_state is_first template) c }
{
    match template {
        Template::InBody => in_body(is_first, c),
        Template::InEscape => State::Template(is_first, Template::InBody),
        Template::BehindDollar => {
            if c == '{' {
                State::Template(is_first, Template::Substituted)
            } else {
                in_body(is_first, c)
            }
        }
        Template::Closed | Template::Substituted => State::Dead,
    }
}

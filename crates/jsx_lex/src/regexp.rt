//! The automaton of regular expressions.

ghost use Rattle.std.specs.Prelude.{◌≡◌};
ghost use Rattle.jsx_base.specs.Token.{step, regex_step};
ghost use Rattle.jsx_lex.specs.Automaton.{state_of, regexp_state};

use crate::automaton::{RegExp, State};
use crate::characters::{is_line_end, is_part};

/// A character of the body, in a class or not.
fn in_body(in_class: bool, c: char) -> State
    ensures { state_of result ≡ regex_step in_class c }
{
    if is_line_end(c) {
        State::Dead
    } else if c == '\\' {
        State::RegExp(RegExp::InEscape(in_class))
    } else if c == '[' {
        State::RegExp(RegExp::InBody(true))
    } else if c == ']' {
        State::RegExp(RegExp::InBody(false))
    } else if c == '/' && !in_class {
        State::RegExp(RegExp::InFlags)
    } else {
        State::RegExp(RegExp::InBody(in_class))
    }
}

/// The state a character further.
pub fn regexp_step(regexp: RegExp, c: char) -> State
    ensures { state_of result ≡ step (regexp_state regexp) c }
{
    match regexp {
        RegExp::AtStart => {
            if c == '/' || c == '*' {
                State::Dead
            } else {
                in_body(false, c)
            }
        }
        RegExp::InBody(in_class) => in_body(in_class, c),
        RegExp::InEscape(in_class) => {
            if is_line_end(c) {
                State::Dead
            } else {
                State::RegExp(RegExp::InBody(in_class))
            }
        }
        RegExp::InFlags => {
            if is_part(c) {
                State::RegExp(RegExp::InFlags)
            } else {
                State::Dead
            }
        }
    }
}

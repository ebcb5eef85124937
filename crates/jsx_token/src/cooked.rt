//! Which escapes a template may have that isn't tagged (ECMA-262 section 12.9.6).

ghost use Rattle.std.specs.Prelude.{◌≡◌};
ghost use Rattle.std.specs.Str.{chars};
ghost use Rattle.jsx_base.specs.Token.{InString};
ghost use Rattle.jsx_tree.specs.StaticRules.{escapes};
ghost use Rattle.jsx_lex.specs.Automaton.{state_of};
ghost use Rattle.jsx_token.specs.Cooked.{further, in_line};

use crate::characters::{is_line_end, split_first};
use jsx_lex::Escapes;

/// A character as a string may have it: a line may end in a template.
fn in_line(c: char) -> char
    ensures { result ≡ in_line c }
{
    if is_line_end(c) { ' ' } else { c }
}

/// What was taken, a character further. Behind a backquote all begins anew.
fn further(escapes: Escapes, c: char) -> Escapes
    ensures { state_of result.state ≡ further (state_of escapes.state) c }
{
    if escapes.is_done() {
        return Escapes::within('`').next(in_line(c));
    }
    escapes.next(in_line(c))
}

/// Whether all escapes of a template's piece are those of strings, also one that the piece's end cuts off: `\x4`.
pub fn is_cooked(raw: &str) -> bool
    ensures { result ≡ escapes (InString 96) (chars raw.now) }
{
    let mut escapes = Escapes::within('`');
    let mut rest = raw;
    while let Some((c, behind)) = split_first(rest) {
        escapes = further(escapes, c);
        if escapes.is_dead() {
            return false;
        }
        rest = behind;
    }
    true
}

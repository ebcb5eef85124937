//! Goes fast over what most of a token is made of: the characters that don't change its state.

ghost use Rattle.std.specs.Prelude.{◌≡◌, MatchOption, IfSome, IsTrue, false};
ghost use Rattle.std.specs.Str.{chars};
ghost use Rattle.jsx_base.specs.Token.{first_is, InName, InJsxName, InJsxString, InJsxText, InString, InPiece};
ghost use Rattle.jsx_lex.specs.Automaton.{closed_kind, open_kind};
ghost use Rattle.jsx_lex.specs.Plain.{plain_state, stays};
ghost use Rattle.jsx_lex.specs.Places.{EndsWith};
ghost use Rattle.jsx_lex.specs.Taken.{Keeps, IsTaken, NoneTaken};

use crate::automaton::{Quoted, State, Template};
use crate::characters::{after, first, is_part};
use crate::machine::{Found, literal};
use crate::token::TokenKind;

/// A state in which a token stays over most characters.
#[derive(Clone, Copy)]
pub enum Plain {
    Name,
    JsxName,
    /// With its quote.
    String(char),
    /// Whether it is the template's first piece.
    Template(bool),
    /// With its quote.
    JsxString(char),
    JsxText,
}

/// Whether the state stays over the character.
#[inline(always)]
fn stays(plain: Plain, c: char) -> bool
    ensures { result ≡ stays plain c }
{
    match plain {
        Plain::Name => is_part(c),
        Plain::JsxName => is_part(c) || c == '-',
        Plain::String(quote) => c != quote && c != '\\' && c != '\n' && c != '\r',
        Plain::Template(_) => c != '`' && c != '\\' && c != '$',
        Plain::JsxString(quote) => c != quote,
        Plain::JsxText => c != '{' && c != '}' && c != '<' && c != '>',
    }
}

/// The text from the first character on over which the state doesn't stay.
#[inline(always)]
fn past(plain: Plain, text: &str) -> &str
    ensures keeps { Keeps (plain_state plain) (chars text.now) (chars result.now) }
    ensures stops { first_is (stays plain) (chars result.now) ≡ false }
    ensures ends { EndsWith text.now result.now }
{
    let mut rest = text;
    while let Some((c, behind)) = first(rest) {
        if !stays(plain, c) {
            return rest;
        }
        rest = behind;
    }
    rest
}

/// A name whose first character stands before the text.
#[inline(always)]
pub fn name(text: &str) -> Found
    ensures token { IsTaken InName (chars text.now) result.kind (chars result.rest.now) }
    ensures ends { EndsWith text.now result.rest.now }
{
    Found {
        kind: TokenKind::IdentifierName,
        rest: past(Plain::Name, text),
    }
}

/// A name in a tag, whose first character stands before the text.
#[inline(always)]
pub fn jsx_name(text: &str) -> Found
    ensures token { IsTaken InJsxName (chars text.now) result.kind (chars result.rest.now) }
    ensures ends { EndsWith text.now result.rest.now }
{
    Found {
        kind: TokenKind::JsxName,
        rest: past(Plain::JsxName, text),
    }
}

/// A text between tags, whose first character stands before the text.
#[inline(always)]
pub fn jsx_text(text: &str) -> Found
    ensures token { IsTaken InJsxText (chars text.now) result.kind (chars result.rest.now) }
    ensures ends { EndsWith text.now result.rest.now }
{
    Found {
        kind: TokenKind::JsxText,
        rest: past(Plain::JsxText, text),
    }
}

/// A string in a tag, whose quote stands before the text.
pub fn jsx_string(quote: char, text: &str) -> Option<Found>
    ensures token { MatchOption result (NoneTaken (InJsxString quote) (chars text.now)) (λ x. IsTaken (InJsxString quote) (chars text.now) x.kind (chars x.rest.now)) }
    ensures ends { IfSome result (λ x. EndsWith text.now x.rest.now) }
{
    let body = past(Plain::JsxString(quote), text);
    let Some(rest) = after(body, quote) else {
        return None;
    };
    Some(Found {
        kind: TokenKind::JsxString,
        rest,
    })
}

/// A string whose quote stands before the text.
pub fn string(quote: char, text: &str) -> Option<Found>
    ensures token { MatchOption result (NoneTaken (InString quote) (chars text.now)) (λ x. IsTaken (InString quote) (chars text.now) x.kind (chars x.rest.now)) }
    ensures ends { IfSome result (λ x. EndsWith text.now x.rest.now) }
{
    let rest = past(Plain::String(quote), text);
    let Some(found) = literal(State::Quoted(quote, Quoted::InBody), rest) else {
        return None;
    };
    Some(found)
}

/// A piece of a template, from its begin on: behind the backquote, or behind the `}` of a substitution.
pub fn template(is_first: bool, text: &str) -> Option<Found>
    ensures token { MatchOption result (NoneTaken (InPiece (closed_kind is_first) (open_kind is_first)) (chars text.now)) (λ x. IsTaken (InPiece (closed_kind is_first) (open_kind is_first)) (chars text.now) x.kind (chars x.rest.now)) }
    ensures ends { IfSome result (λ x. EndsWith text.now x.rest.now) }
{
    let rest = past(Plain::Template(is_first), text);
    let Some(found) = literal(State::Template(is_first, Template::InBody), rest) else {
        return None;
    };
    Some(found)
}

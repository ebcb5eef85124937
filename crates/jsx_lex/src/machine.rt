//! Runs the automata: numbers, strings, regular expressions and templates.

ghost use Rattle.std.specs.Prelude.{◌≡◌, ◌||◌, nat_eq, MatchOption, IfSome, IsTrue, true, false};
ghost use Rattle.std.specs.Str.{chars};
ghost use Rattle.jsx_base.specs.Token.{NoToken, NumericLiteral, BigIntLiteral, step, left, last_state, accepts, is_kind, first_is, is_start, is_digit, ended, no_token};
ghost use Rattle.jsx_lex.specs.Automaton.{state_of, number_state, template_state};
ghost use Rattle.jsx_lex.specs.Kinds.{kind_of};
ghost use Rattle.jsx_lex.specs.Places.{EndsWith};
ghost use Rattle.jsx_lex.specs.Taken.{IsLiteral, IsTaken, NoneTaken};

use crate::automaton::{Number, Quoted, RegExp, State, Template};
use crate::characters::{first, is_start};
use crate::number::number_step;
use crate::quoted::quoted_step;
use crate::regexp::regexp_step;
use crate::template::template_step;
use crate::token::TokenKind;

/// A token's kind, and the text behind it.
#[derive(Clone, Copy)]
pub struct Found<'s> {
    pub kind: TokenKind,
    pub rest: &'s str,
}

/// What an automaton left, and its last state.
#[derive(Clone, Copy)]
struct Stopped<'s> {
    rest: &'s str,
    last: State,
}

#[inline(always)]
pub fn step(state: State, c: char) -> State
    ensures { state_of result ≡ step (state_of state) c }
{
    match state {
        State::Dead => State::Dead,
        State::Number(number) => number_step(number, c),
        State::Quoted(quote, quoted) => quoted_step(quote, quoted, c),
        State::RegExp(regexp) => regexp_step(regexp, c),
        State::Template(is_first, template) => template_step(is_first, template, c),
    }
}

/// Runs an automaton as far as it goes.
fn run(start: State, text: &str) -> Stopped
    ensures rest { chars result.rest.now ≡ left (state_of start) (chars text.now) }
    ensures last { state_of result.last ≡ last_state (state_of start) (chars text.now) }
    ensures ends { EndsWith text.now result.rest.now }
{
    let mut rest = text;
    let mut state = start;
    while let Some((c, behind)) = first(rest) {
        let after = step(state, c);
        if let State::Dead = after {
            return Stopped { rest, last: state };
        }
        state = after;
        rest = behind;
    }
    Stopped { rest, last: state }
}

/// The kind of a number that ends so.
#[inline]
fn number_kind(number: Number) -> Option<TokenKind>
    ensures { MatchOption result (accepts (number_state number) ≡ NoToken) (λ k. IsLiteral (accepts (number_state number)) k) }
{
    match number {
        Number::BehindZero
        | Number::BehindPoint
        | Number::InDigits(true)
        | Number::InFraction(true)
        | Number::InExponent(true)
        | Number::InBase(_, true) => Some(TokenKind::NumericLiteral),
        Number::BehindN => Some(TokenKind::BigIntLiteral),
        Number::BehindE
        | Number::BehindSign
        | Number::InDigits(false)
        | Number::InFraction(false)
        | Number::InExponent(false)
        | Number::InBase(_, false) => None,
    }
}

/// The kind of a template's piece that ends so.
#[inline]
fn template_kind(is_first: bool, template: Template) -> Option<TokenKind>
    ensures { MatchOption result (accepts (template_state is_first template) ≡ NoToken) (λ k. IsLiteral (accepts (template_state is_first template)) k) }
{
    match template {
        Template::Closed => {
            if is_first {
                Some(TokenKind::NoSubstitution)
            } else {
                Some(TokenKind::TemplateTail)
            }
        }
        Template::Substituted => {
            if is_first {
                Some(TokenKind::TemplateHead)
            } else {
                Some(TokenKind::TemplateMiddle)
            }
        }
        Template::InBody | Template::InEscape | Template::BehindDollar => None,
    }
}

/// The kind of the token that is complete in a state.
#[inline]
fn kind(state: State) -> Option<TokenKind>
    ensures { MatchOption result (accepts (state_of state) ≡ NoToken) (λ k. IsLiteral (accepts (state_of state)) k) }
{
    match state {
        State::Number(number) => number_kind(number),
        State::Quoted(_, Quoted::Closed) => Some(TokenKind::StringLiteral),
        State::RegExp(RegExp::InFlags) => Some(TokenKind::RegExpLiteral),
        State::Template(is_first, template) => template_kind(is_first, template),
        State::Dead | State::Quoted(_, _) | State::RegExp(_) => None,
    }
}

/// Whether the text begins with what may not follow a number.
#[inline]
fn is_joined(text: &str) -> bool
    ensures { result ≡ (first_is is_start (chars text.now) || first_is is_digit (chars text.now)) }
{
    match first(text) {
        Some((c, _)) => is_start(c) || c.is_ascii_digit(),
        None => false,
    }
}

/// Whether the kind is a number's.
#[inline]
fn is_numeric(kind: TokenKind) -> bool
    ensures { result ≡ (is_kind (kind_of kind) NumericLiteral || is_kind (kind_of kind) BigIntLiteral) }
{
    kind == TokenKind::NumericLiteral || kind == TokenKind::BigIntLiteral
}

/// The token of an automaton in this state, which goes on with the text.
pub fn literal(start: State, text: &str) -> Option<Found>
    ensures token { MatchOption result (NoneTaken (state_of start) (chars text.now)) (λ x. IsTaken (state_of start) (chars text.now) x.kind (chars x.rest.now)) }
    ensures ends { IfSome result (λ x. EndsWith text.now x.rest.now) }
{
    let stopped = run(start, text);
    let Some(kind) = kind(stopped.last) else {
        return None;
    };
    if is_numeric(kind) && is_joined(stopped.rest) {
        return None;
    }
    Some(Found {
        kind,
        rest: stopped.rest,
    })
}

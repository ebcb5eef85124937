//! The token at the front of a text, in each mode.

ghost use Rattle.std.specs.Prelude.{◌≡◌, ◌∷◌, [], ◌&&◌, ◌||◌, MatchOption, IfSome, IsTrue, true, false, codes};
ghost use Rattle.std.specs.Str.{chars};
ghost use Rattle.jsx_base.specs.Token.{NoToken, Tag, Children, Piece, begins, is_one_of, code_state, at_front};
ghost use Rattle.jsx_lex.specs.Front.{code_mode, start_state, is_html, IsFound, IsNext, IsNotNext, IsTagMark};
ghost use Rattle.jsx_lex.specs.Kinds.{mode_of};
ghost use Rattle.jsx_lex.specs.Places.{EndsWith};

use crate::automaton::{Number, RegExp, State};
use crate::characters::{after, begins_with, begins_with_digit, first, is_empty, is_start};
use crate::machine::{Found, literal};
use crate::marks::mark;
use crate::plain::{jsx_name, jsx_string, jsx_text, name, string, template};
use crate::token::{Mode, TokenKind};

/// What a character of code begins.
#[derive(Clone, Copy)]
enum Start {
    Name,
    Number(Number),
    String,
    Template,
    RegExp,
    /// `<` where an expression may begin, which is a token of its own.
    Less,
    /// A punctuator, or no token.
    Mark,
}

/// What the character of code begins, before the text behind it.
#[inline(always)]
fn start_of(is_operand: bool, c: char, text: &str) -> Start
    ensures { start_state c result ≡ code_state is_operand c (chars text.now) }
{
    if is_start(c) {
        Start::Name
    } else if c == '0' {
        Start::Number(Number::BehindZero)
    } else if c.is_ascii_digit() {
        Start::Number(Number::InDigits(true))
    } else if c == '.' && begins_with_digit(text) {
        Start::Number(Number::InFraction(false))
    } else if c == '"' || c == '\'' {
        Start::String
    } else if c == '`' {
        Start::Template
    } else if is_operand && c == '/' {
        Start::RegExp
    } else if is_operand && c == '<' {
        Start::Less
    } else {
        Start::Mark
    }
}

/// Whether `<` before the text begins a comment of HTML.
#[inline]
fn opens_html(text: &str) -> bool
    ensures { result ≡ begins (codes "!--") (chars text.now) }
{
    let Some(text) = after(text, '!') else {
        return false;
    };
    let Some(text) = after(text, '-') else {
        return false;
    };
    begins_with(text, '-')
}

/// Whether `-` before the text begins `-->`.
#[inline]
fn closes_html(text: &str) -> bool
    ensures { result ≡ begins (codes "->") (chars text.now) }
{
    let Some(text) = after(text, '-') else {
        return false;
    };
    begins_with(text, '>')
}

/// Whether the character begins a comment of HTML: `<!--`, or `-->` at the begin of a line.
#[inline(always)]
fn is_html(is_fresh: bool, c: char, text: &str) -> bool
    ensures { result ≡ is_html is_fresh c (chars text.now) }
{
    match c {
        '<' => opens_html(text),
        '-' => is_fresh && closes_html(text),
        _ => false,
    }
}

/// The token of code that begins with the character, before the text behind it.
#[inline(always)]
fn code(is_operand: bool, is_fresh: bool, c: char, text: &str) -> Option<Found>
    ensures token { MatchOption result ((at_front (code_mode is_operand) is_fresh (c ∷ chars text.now)).kind ≡ NoToken) (λ x. IsFound (at_front (code_mode is_operand) is_fresh (c ∷ chars text.now)) x.kind (chars x.rest.now)) }
    ensures ends { IfSome result (λ x. EndsWith text.now x.rest.now) }
{
    if is_html(is_fresh, c, text) {
        return None;
    }
    match start_of(is_operand, c, text) {
        Start::Name => Some(name(text)),
        Start::Number(number) => literal(State::Number(number), text),
        Start::String => string(c, text),
        Start::Template => template(true, text),
        Start::RegExp => literal(State::RegExp(RegExp::AtStart), text),
        Start::Less => Some(Found {
            kind: TokenKind::Less,
            rest: text,
        }),
        Start::Mark => mark(c, text),
    }
}

/// The punctuator of one character in a tag.
#[inline]
fn tag_mark(c: char) -> Option<TokenKind>
    ensures { MatchOption result (is_one_of c (codes "<>/=:.{") ≡ false) (λ k. IsTagMark c k) }
{
    match c {
        '<' => Some(TokenKind::Less),
        '>' => Some(TokenKind::Greater),
        '/' => Some(TokenKind::Slash),
        '=' => Some(TokenKind::Equal),
        ':' => Some(TokenKind::Colon),
        '.' => Some(TokenKind::Dot),
        '{' => Some(TokenKind::LeftBrace),
        _ => None,
    }
}

/// The token of a tag that begins with the character, before the text behind it.
#[inline]
fn tag(is_fresh: bool, c: char, text: &str) -> Option<Found>
    ensures token { MatchOption result ((at_front Tag is_fresh (c ∷ chars text.now)).kind ≡ NoToken) (λ x. IsFound (at_front Tag is_fresh (c ∷ chars text.now)) x.kind (chars x.rest.now)) }
    ensures ends { IfSome result (λ x. EndsWith text.now x.rest.now) }
{
    if is_start(c) {
        return Some(jsx_name(text));
    }
    if c == '"' || c == '\'' {
        return jsx_string(c, text);
    }
    let Some(kind) = tag_mark(c) else {
        return None;
    };
    Some(Found { kind, rest: text })
}

/// The token between tags that begins with the character, before the text behind it.
#[inline]
fn children(is_fresh: bool, c: char, text: &str) -> Option<Found>
    ensures token { MatchOption result ((at_front Children is_fresh (c ∷ chars text.now)).kind ≡ NoToken) (λ x. IsFound (at_front Children is_fresh (c ∷ chars text.now)) x.kind (chars x.rest.now)) }
    ensures ends { IfSome result (λ x. EndsWith text.now x.rest.now) }
{
    match c {
        '{' => Some(Found {
            kind: TokenKind::LeftBrace,
            rest: text,
        }),
        '<' => Some(Found {
            kind: TokenKind::Less,
            rest: text,
        }),
        '}' | '>' => None,
        _ => Some(jsx_text(text)),
    }
}

/// The token at the front of the text, before which nothing is skipped.
#[inline(always)]
fn front(mode: Mode, is_fresh: bool, text: &str) -> Option<Found>
    ensures token { MatchOption result ((at_front (mode_of mode) is_fresh (chars text.now)).kind ≡ NoToken) (λ x. IsFound (at_front (mode_of mode) is_fresh (chars text.now)) x.kind (chars x.rest.now)) }
    ensures ends { IfSome result (λ x. EndsWith text.now x.rest.now) }
{
    let Some((c, behind)) = first(text) else {
        return None;
    };
    match mode {
        Mode::Operand => code(true, is_fresh, c, behind),
        Mode::Operator => code(false, is_fresh, c, behind),
        Mode::Piece => template(false, text),
        Mode::Tag => tag(is_fresh, c, behind),
        Mode::Children => children(is_fresh, c, behind),
    }
}

/// The token or the end at the front of the text, before which nothing is skipped.
#[inline(always)]
pub fn token(mode: Mode, is_fresh: bool, text: &str) -> Option<Found>
    ensures token { MatchOption result (IsNotNext (mode_of mode) is_fresh (chars text.now)) (λ x. IsNext (mode_of mode) is_fresh (chars text.now) x.kind (chars x.rest.now)) }
    ensures ends { IfSome result (λ x. EndsWith text.now x.rest.now) }
{
    if is_empty(text) {
        return Some(Found {
            kind: TokenKind::End,
            rest: text,
        });
    }
    let Some(found) = front(mode, is_fresh, text) else {
        return None;
    };
    Some(found)
}

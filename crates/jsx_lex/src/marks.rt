//! Punctuators: the longest one that a text begins with.

ghost use Rattle.std.specs.Prelude.{◌≡◌, ◌++◌, ◌∷◌, [], MatchOption, IfSome, IsTrue, true, false, codes};
ghost use Rattle.std.specs.Str.{chars};
ghost use Rattle.jsx_base.specs.Token.{begins, first_is, is_digit, is_one_of, punctuator};
ghost use Rattle.jsx_lex.specs.Kinds.{spelling};
ghost use Rattle.jsx_lex.specs.Marks.{IsMark, IsSingle, is_chain, is_pair};
ghost use Rattle.jsx_lex.specs.Places.{EndsWith};

use crate::characters::{after, begins_with_digit};
use crate::machine::Found;
use crate::token::TokenKind;

/// Behind a punctuator that may have one `=` more and no other character.
#[inline(always)]
fn with_equal(plain: TokenKind, longer: TokenKind, text: &str) -> Found
    requires { IsTrue (is_pair plain longer) }
    ensures mark { IsMark (spelling plain ++ chars text.now) result.kind (chars result.rest.now) }
    ensures ends { EndsWith text.now result.rest.now }
{
    match after(text, '=') {
        Some(rest) => Found { kind: longer, rest },
        None => Found {
            kind: plain,
            rest: text,
        },
    }
}

/// `=`, `==`, `===` and `=>`.
#[inline(always)]
fn equal(text: &str) -> Found
    ensures mark { IsMark (61 ∷ chars text.now) result.kind (chars result.rest.now) }
    ensures ends { EndsWith text.now result.rest.now }
{
    if let Some(rest) = after(text, '=') {
        return with_equal(TokenKind::EqualEqual, TokenKind::EqualEqualEqual, rest);
    }
    if let Some(rest) = after(text, '>') {
        return Found {
            kind: TokenKind::Arrow,
            rest,
        };
    }
    Found {
        kind: TokenKind::Equal,
        rest: text,
    }
}

/// `!`, `!=` and `!==`.
#[inline]
fn not(text: &str) -> Found
    ensures mark { IsMark (33 ∷ chars text.now) result.kind (chars result.rest.now) }
    ensures ends { EndsWith text.now result.rest.now }
{
    if let Some(rest) = after(text, '=') {
        return with_equal(TokenKind::NotEqual, TokenKind::NotEqualEqual, rest);
    }
    Found {
        kind: TokenKind::Not,
        rest: text,
    }
}

/// `<`, `<=`, `<<` and `<<=`.
#[inline]
fn less(text: &str) -> Found
    ensures mark { IsMark (60 ∷ chars text.now) result.kind (chars result.rest.now) }
    ensures ends { EndsWith text.now result.rest.now }
{
    if let Some(rest) = after(text, '<') {
        return with_equal(TokenKind::LessLess, TokenKind::LessLessEqual, rest);
    }
    if let Some(rest) = after(text, '=') {
        return Found {
            kind: TokenKind::LessEqual,
            rest,
        };
    }
    Found {
        kind: TokenKind::Less,
        rest: text,
    }
}

/// `>>`, `>>=`, `>>>` and `>>>=`.
#[inline]
fn greater_greater(text: &str) -> Found
    ensures mark { IsMark (62 ∷ 62 ∷ chars text.now) result.kind (chars result.rest.now) }
    ensures ends { EndsWith text.now result.rest.now }
{
    if let Some(rest) = after(text, '>') {
        return with_equal(
            TokenKind::GreaterGreaterGreater,
            TokenKind::GreaterGreaterGreaterEqual,
            rest,
        );
    }
    if let Some(rest) = after(text, '=') {
        return Found {
            kind: TokenKind::GreaterGreaterEqual,
            rest,
        };
    }
    Found {
        kind: TokenKind::GreaterGreater,
        rest: text,
    }
}

/// `>`, `>=` and what begins with `>>`.
#[inline]
fn greater(text: &str) -> Found
    ensures mark { IsMark (62 ∷ chars text.now) result.kind (chars result.rest.now) }
    ensures ends { EndsWith text.now result.rest.now }
{
    if let Some(rest) = after(text, '>') {
        return greater_greater(rest);
    }
    if let Some(rest) = after(text, '=') {
        return Found {
            kind: TokenKind::GreaterEqual,
            rest,
        };
    }
    Found {
        kind: TokenKind::Greater,
        rest: text,
    }
}

/// `+`, `++` and `+=`.
#[inline]
fn plus(text: &str) -> Found
    ensures mark { IsMark (43 ∷ chars text.now) result.kind (chars result.rest.now) }
    ensures ends { EndsWith text.now result.rest.now }
{
    if let Some(rest) = after(text, '+') {
        return Found {
            kind: TokenKind::PlusPlus,
            rest,
        };
    }
    if let Some(rest) = after(text, '=') {
        return Found {
            kind: TokenKind::PlusEqual,
            rest,
        };
    }
    Found {
        kind: TokenKind::Plus,
        rest: text,
    }
}

/// `-`, `--` and `-=`.
#[inline]
fn minus(text: &str) -> Found
    ensures mark { IsMark (45 ∷ chars text.now) result.kind (chars result.rest.now) }
    ensures ends { EndsWith text.now result.rest.now }
{
    if let Some(rest) = after(text, '-') {
        return Found {
            kind: TokenKind::MinusMinus,
            rest,
        };
    }
    if let Some(rest) = after(text, '=') {
        return Found {
            kind: TokenKind::MinusEqual,
            rest,
        };
    }
    Found {
        kind: TokenKind::Minus,
        rest: text,
    }
}

/// `*`, `*=`, `**` and `**=`.
#[inline]
fn star(text: &str) -> Found
    ensures mark { IsMark (42 ∷ chars text.now) result.kind (chars result.rest.now) }
    ensures ends { EndsWith text.now result.rest.now }
{
    if let Some(rest) = after(text, '*') {
        return with_equal(TokenKind::StarStar, TokenKind::StarStarEqual, rest);
    }
    if let Some(rest) = after(text, '=') {
        return Found {
            kind: TokenKind::StarEqual,
            rest,
        };
    }
    Found {
        kind: TokenKind::Star,
        rest: text,
    }
}

/// `&`, `&=`, `&&` and `&&=`.
#[inline]
fn and(text: &str) -> Found
    ensures mark { IsMark (38 ∷ chars text.now) result.kind (chars result.rest.now) }
    ensures ends { EndsWith text.now result.rest.now }
{
    if let Some(rest) = after(text, '&') {
        return with_equal(TokenKind::AndAnd, TokenKind::AndAndEqual, rest);
    }
    if let Some(rest) = after(text, '=') {
        return Found {
            kind: TokenKind::AndEqual,
            rest,
        };
    }
    Found {
        kind: TokenKind::And,
        rest: text,
    }
}

/// `|`, `|=`, `||` and `||=`.
#[inline]
fn or(text: &str) -> Found
    ensures mark { IsMark (124 ∷ chars text.now) result.kind (chars result.rest.now) }
    ensures ends { EndsWith text.now result.rest.now }
{
    if let Some(rest) = after(text, '|') {
        return with_equal(TokenKind::OrOr, TokenKind::OrOrEqual, rest);
    }
    if let Some(rest) = after(text, '=') {
        return Found {
            kind: TokenKind::OrEqual,
            rest,
        };
    }
    Found {
        kind: TokenKind::Or,
        rest: text,
    }
}

/// The text behind a `.` that makes `?.` of a `?` before it, which no digit follows: `a?.5:b` has a `?` and a `.5`.
#[inline]
fn after_chain(text: &str) -> Option<&str>
    ensures chain { MatchOption result (is_chain (chars text.now) ≡ false) (λ rest. first_is is_digit (chars rest.now) ≡ false) }
    ensures behind { IfSome result (λ rest. chars text.now ≡ 46 ∷ chars rest.now) }
    ensures ends { IfSome result (λ rest. EndsWith text.now rest.now) }
{
    let Some(rest) = after(text, '.') else {
        return None;
    };
    if begins_with_digit(rest) {
        return None;
    }
    Some(rest)
}

/// `?`, `?.`, `??` and `??=`.
#[inline]
fn question(text: &str) -> Found
    ensures mark { IsMark (63 ∷ chars text.now) result.kind (chars result.rest.now) }
    ensures ends { EndsWith text.now result.rest.now }
{
    if let Some(rest) = after(text, '?') {
        return with_equal(
            TokenKind::QuestionQuestion,
            TokenKind::QuestionQuestionEqual,
            rest,
        );
    }
    if let Some(rest) = after_chain(text) {
        return Found {
            kind: TokenKind::QuestionDot,
            rest,
        };
    }
    Found {
        kind: TokenKind::Question,
        rest: text,
    }
}

/// The text behind two dots.
#[inline]
fn after_dots(text: &str) -> Option<&str>
    ensures dots { MatchOption result (begins (codes "..") (chars text.now) ≡ false) (λ rest. chars text.now ≡ 46 ∷ 46 ∷ chars rest.now) }
    ensures ends { IfSome result (λ rest. EndsWith text.now rest.now) }
{
    let Some(second) = after(text, '.') else {
        return None;
    };
    let Some(rest) = after(second, '.') else {
        return None;
    };
    Some(rest)
}

/// `.` and `...`.
#[inline(always)]
fn dot(text: &str) -> Found
    ensures mark { IsMark (46 ∷ chars text.now) result.kind (chars result.rest.now) }
    ensures ends { EndsWith text.now result.rest.now }
{
    match after_dots(text) {
        Some(rest) => Found {
            kind: TokenKind::Ellipsis,
            rest,
        },
        None => Found {
            kind: TokenKind::Dot,
            rest: text,
        },
    }
}

/// The punctuator of one character that none goes on with.
#[inline(always)]
fn single(c: char) -> Option<TokenKind>
    ensures { MatchOption result (is_one_of c (codes "{}()[];,~:") ≡ false) (λ k. IsSingle c k) }
{
    match c {
        '{' => Some(TokenKind::LeftBrace),
        '}' => Some(TokenKind::RightBrace),
        '(' => Some(TokenKind::LeftParen),
        ')' => Some(TokenKind::RightParen),
        '[' => Some(TokenKind::LeftBracket),
        ']' => Some(TokenKind::RightBracket),
        ';' => Some(TokenKind::Semicolon),
        ',' => Some(TokenKind::Comma),
        '~' => Some(TokenKind::Tilde),
        ':' => Some(TokenKind::Colon),
        _ => None,
    }
}

/// The punctuator that begins with the character, before the text behind that: one that compares or assigns.
#[inline(always)]
fn comparison(c: char, text: &str) -> Option<Found>
    ensures mark { MatchOption result (is_one_of c (codes "=!<>") ≡ false) (λ x. IsMark (c ∷ chars text.now) x.kind (chars x.rest.now)) }
    ensures ends { IfSome result (λ x. EndsWith text.now x.rest.now) }
{
    match c {
        '=' => Some(equal(text)),
        '!' => Some(not(text)),
        '<' => Some(less(text)),
        '>' => Some(greater(text)),
        _ => None,
    }
}

/// The punctuator that begins with the character: one of arithmetic.
#[inline(always)]
fn arithmetic(c: char, text: &str) -> Option<Found>
    ensures mark { MatchOption result (is_one_of c (codes "+-*/%^") ≡ false) (λ x. IsMark (c ∷ chars text.now) x.kind (chars x.rest.now)) }
    ensures ends { IfSome result (λ x. EndsWith text.now x.rest.now) }
{
    match c {
        '+' => Some(plus(text)),
        '-' => Some(minus(text)),
        '*' => Some(star(text)),
        '/' => Some(with_equal(TokenKind::Slash, TokenKind::SlashEqual, text)),
        '%' => Some(with_equal(TokenKind::Percent, TokenKind::PercentEqual, text)),
        '^' => Some(with_equal(TokenKind::Caret, TokenKind::CaretEqual, text)),
        _ => None,
    }
}

/// The punctuator that begins with the character: one that chooses or goes to a member.
#[inline(always)]
fn choice(c: char, text: &str) -> Option<Found>
    ensures mark { MatchOption result (is_one_of c (codes "&|?.") ≡ false) (λ x. IsMark (c ∷ chars text.now) x.kind (chars x.rest.now)) }
    ensures ends { IfSome result (λ x. EndsWith text.now x.rest.now) }
{
    match c {
        '&' => Some(and(text)),
        '|' => Some(or(text)),
        '?' => Some(question(text)),
        '.' => Some(dot(text)),
        _ => None,
    }
}

/// The punctuator that begins with the character, before the text behind that.
#[inline(always)]
pub fn mark(c: char, text: &str) -> Option<Found>
    ensures mark { MatchOption result (punctuator (c ∷ chars text.now) ≡ []) (λ x. IsMark (c ∷ chars text.now) x.kind (chars x.rest.now)) }
    ensures ends { IfSome result (λ x. EndsWith text.now x.rest.now) }
{
    if let Some(kind) = single(c) {
        return Some(Found { kind, rest: text });
    }
    if let Some(found) = choice(c, text) {
        return Some(found);
    }
    if let Some(found) = comparison(c, text) {
        return Some(found);
    }
    if let Some(found) = arithmetic(c, text) {
        return Some(found);
    }
    None
}

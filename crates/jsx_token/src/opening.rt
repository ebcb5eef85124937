//! What an expression begins with that is neither a name, a literal nor an element (ECMA-262 sections 13.2.4, 13.2.5,
//! 13.2.9, 13.3.5, 13.3.7, 13.3.10, 13.3.12, 13.4, 13.5, 15.2 and 15.7).

ghost use Rattle.std.specs.Prelude.{◌≡◌};
ghost use Rattle.std.specs.Str.{chars};
ghost use Rattle.jsx_token.specs.GrowthTokens.{opening_word, opening_by};

use crate::characters::{is_delete, is_new, is_typeof, is_void};
use crate::word::Word;
use jsx_lex::{Token, TokenKind};
use jsx_tree::{UnaryOp, UpdateOp};

/// What an expression begins with that is neither a name, a literal nor an element.
#[derive(Clone, Copy)]
pub enum Opening {
    /// `import(a)` or `import.meta`
    Import,
    /// `new a(b)`, `new a` or `new.target`
    New,
    /// `(a)`
    Paren,
    /// `[a, b]`
    Array,
    /// `{a: b, c}`
    Object,
    /// `function f(a) { b; }`
    Function,
    /// `class A extends B { c() {} }`
    Class,
    /// `super(a)`, `super.a` or `super[a]`
    Super,
    /// `-a`
    Unary(UnaryOp),
    /// `++a`
    Update(UpdateOp),
}

/// What a word begins.
#[inline(always)]
fn begun_by(raw: &str) -> Option<Opening>
    ensures { result ≡ opening_word (chars raw.now) }
{
    if is_void(raw) {
        return Some(Opening::Unary(UnaryOp::Void));
    }
    if is_typeof(raw) {
        return Some(Opening::Unary(UnaryOp::TypeOf));
    }
    if Word::Import.is(raw) {
        return Some(Opening::Import);
    }
    if is_delete(raw) {
        return Some(Opening::Unary(UnaryOp::Delete));
    }
    if is_new(raw) {
        return Some(Opening::New);
    }
    if Word::Function.is(raw) {
        return Some(Opening::Function);
    }
    if Word::Class.is(raw) {
        return Some(Opening::Class);
    }
    if Word::Super.is(raw) {
        return Some(Opening::Super);
    }
    None
}

/// What a token, where it comes next, begins.
#[inline(always)]
pub fn opening_of(token: &Token) -> Option<Opening>
    ensures { result ≡ opening_by token.now.kind (chars token.now.raw.now) }
{
    match token.kind {
        TokenKind::Plus => Some(Opening::Unary(UnaryOp::Positive)),
        TokenKind::Minus => Some(Opening::Unary(UnaryOp::Negative)),
        TokenKind::Tilde => Some(Opening::Unary(UnaryOp::Complement)),
        TokenKind::Not => Some(Opening::Unary(UnaryOp::Not)),
        TokenKind::PlusPlus => Some(Opening::Update(UpdateOp::Increment)),
        TokenKind::MinusMinus => Some(Opening::Update(UpdateOp::Decrement)),
        TokenKind::LeftParen => Some(Opening::Paren),
        TokenKind::LeftBracket => Some(Opening::Array),
        TokenKind::LeftBrace => Some(Opening::Object),
        TokenKind::IdentifierName => begun_by(token.raw),
        _ => None,
    }
}

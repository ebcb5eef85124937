//! What goes on with an expression to the right, and how tightly it binds (ECMA-262 sections 13.3 and 13.6 to 13.15).

ghost use Rattle.std.specs.Prelude.{◌≡◌, ◌&&◌};
ghost use Rattle.std.specs.Str.{chars};
ghost use Rattle.jsx_tree.specs.Nonterminals as grammar;
ghost use Rattle.jsx_tree.specs.Grammar.{right_of};
ghost use Rattle.jsx_tree.specs.View.{view_expr};
ghost use Rattle.jsx_tree.specs.ViewOperators.{binary_of};
ghost use Rattle.jsx_token.specs.Growths as growths;
ghost use Rattle.jsx_token.specs.GrowthTokens.{binary_by, assign_by, with_operator, word_by, growth_by};

use crate::characters::{is_in, is_instanceof};
use jsx_lex::{Token, TokenKind};
use jsx_tree::{
    AssignOp, BinaryOp, BitOp, EqualityOp, ProductOp, RelationOp, ShiftOp, SumOp, UpdateOp,
};

/// What goes on with an expression to the right.
#[derive(Clone, Copy)]
pub enum Growth {
    /// `a + b`
    Binary(BinaryOp),
    /// `a = b`
    Assign,
    /// `a += b`
    OpAssign(AssignOp),
    /// `a ? b : c`
    Cond,
    /// `a(b)`
    Call,
    /// `a.b`
    Member,
    /// `a[b]`
    Index,
    /// `a?.b`
    Chain,
    /// `a++`
    Update(UpdateOp),
}

impl Growth {
    /// The level of the expression that comes of it.
    pub fn level(self) -> u8
        ensures { result ≡ growths.level_of_kind (growths.growth_kind self) }
    {
        match self {
            Growth::Binary(operator) => level(operator),
            Growth::Assign => 1,
            Growth::OpAssign(_) => 1,
            Growth::Cond => 2,
            Growth::Call => 18,
            Growth::Member => 18,
            Growth::Index => 18,
            Growth::Chain => 17,
            Growth::Update(_) => 16,
        }
    }

    /// Whether it goes on with what `new` stands before: all that binds as tightly as a member does, but a call
    /// (ECMA-262 section 13.3).
    pub fn is_member(self) -> bool
        ensures { result ≡ growths.reaches growths.callee (growths.growth_kind self) }
    {
        match self {
            Growth::Member => true,
            Growth::Index => true,
            _ => false,
        }
    }

    /// Whether a line ends before it, where none may.
    pub fn is_late(self, new_line: bool) -> bool
        ensures { result ≡ (growths.on_line (growths.growth_kind self) && new_line) }
    {
        match self {
            Growth::Update(_) => new_line,
            _ => false,
        }
    }
}

/// The level of an operator.
pub fn level(operator: BinaryOp) -> u8
    ensures { result ≡ grammar.level_of (binary_of operator) }
{
    match operator {
        BinaryOp::Nullish => 3,
        BinaryOp::Or => 4,
        BinaryOp::And => 5,
        BinaryOp::Bit(BitOp::Or) => 6,
        BinaryOp::Bit(BitOp::Xor) => 7,
        BinaryOp::Bit(BitOp::And) => 8,
        BinaryOp::Equality(_) => 9,
        BinaryOp::Relation(_) => 10,
        BinaryOp::Shift(_) => 11,
        BinaryOp::Sum(_) => 12,
        BinaryOp::Product(_) => 13,
        BinaryOp::Exponentiate => 14,
    }
}

/// The level that its left side has at least.
pub fn left_level(operator: BinaryOp) -> u8
    ensures { result ≡ growths.left_level (binary_of operator) }
{
    match operator {
        BinaryOp::Nullish => 6,
        BinaryOp::Or => 4,
        BinaryOp::And => 5,
        BinaryOp::Bit(BitOp::Or) => 6,
        BinaryOp::Bit(BitOp::Xor) => 7,
        BinaryOp::Bit(BitOp::And) => 8,
        BinaryOp::Equality(_) => 9,
        BinaryOp::Relation(_) => 10,
        BinaryOp::Shift(_) => 11,
        BinaryOp::Sum(_) => 12,
        BinaryOp::Product(_) => 13,
        BinaryOp::Exponentiate => 16,
    }
}

/// The level that its right side has at least.
pub fn right_level(operator: BinaryOp) -> u8
    ensures { result ≡ right_of (binary_of operator) }
{
    match operator {
        BinaryOp::Nullish => 6,
        BinaryOp::Or => 5,
        BinaryOp::And => 6,
        BinaryOp::Bit(BitOp::Or) => 7,
        BinaryOp::Bit(BitOp::Xor) => 8,
        BinaryOp::Bit(BitOp::And) => 9,
        BinaryOp::Equality(_) => 10,
        BinaryOp::Relation(_) => 11,
        BinaryOp::Shift(_) => 12,
        BinaryOp::Sum(_) => 13,
        BinaryOp::Product(_) => 14,
        BinaryOp::Exponentiate => 14,
    }
}

/// The operator that a punctuator is.
#[inline(always)]
fn mark(kind: TokenKind) -> Option<BinaryOp>
    ensures { result ≡ binary_by kind }
{
    match kind {
        TokenKind::QuestionQuestion => Some(BinaryOp::Nullish),
        TokenKind::OrOr => Some(BinaryOp::Or),
        TokenKind::AndAnd => Some(BinaryOp::And),
        TokenKind::Or => Some(BinaryOp::Bit(BitOp::Or)),
        TokenKind::Caret => Some(BinaryOp::Bit(BitOp::Xor)),
        TokenKind::And => Some(BinaryOp::Bit(BitOp::And)),
        TokenKind::EqualEqual => Some(BinaryOp::Equality(EqualityOp::Equal)),
        TokenKind::NotEqual => Some(BinaryOp::Equality(EqualityOp::Unequal)),
        TokenKind::EqualEqualEqual => Some(BinaryOp::Equality(EqualityOp::StrictEqual)),
        TokenKind::NotEqualEqual => Some(BinaryOp::Equality(EqualityOp::StrictUnequal)),
        TokenKind::Less => Some(BinaryOp::Relation(RelationOp::Less)),
        TokenKind::Greater => Some(BinaryOp::Relation(RelationOp::Greater)),
        TokenKind::LessEqual => Some(BinaryOp::Relation(RelationOp::AtMost)),
        TokenKind::GreaterEqual => Some(BinaryOp::Relation(RelationOp::AtLeast)),
        TokenKind::LessLess => Some(BinaryOp::Shift(ShiftOp::Left)),
        TokenKind::GreaterGreater => Some(BinaryOp::Shift(ShiftOp::Right)),
        TokenKind::GreaterGreaterGreater => Some(BinaryOp::Shift(ShiftOp::Out)),
        TokenKind::Plus => Some(BinaryOp::Sum(SumOp::Add)),
        TokenKind::Minus => Some(BinaryOp::Sum(SumOp::Subtract)),
        TokenKind::Star => Some(BinaryOp::Product(ProductOp::Multiply)),
        TokenKind::Slash => Some(BinaryOp::Product(ProductOp::Divide)),
        TokenKind::Percent => Some(BinaryOp::Product(ProductOp::Remainder)),
        TokenKind::StarStar => Some(BinaryOp::Exponentiate),
        _ => None,
    }
}

/// The operator of an assignment that a punctuator is.
#[inline(always)]
fn assignment(kind: TokenKind) -> Option<AssignOp>
    ensures { result ≡ assign_by kind }
{
    match kind {
        TokenKind::QuestionQuestionEqual => Some(AssignOp::Nullish),
        TokenKind::OrOrEqual => Some(AssignOp::Or),
        TokenKind::AndAndEqual => Some(AssignOp::And),
        TokenKind::OrEqual => Some(AssignOp::Bit(BitOp::Or)),
        TokenKind::CaretEqual => Some(AssignOp::Bit(BitOp::Xor)),
        TokenKind::AndEqual => Some(AssignOp::Bit(BitOp::And)),
        TokenKind::LessLessEqual => Some(AssignOp::Shift(ShiftOp::Left)),
        TokenKind::GreaterGreaterEqual => Some(AssignOp::Shift(ShiftOp::Right)),
        TokenKind::GreaterGreaterGreaterEqual => Some(AssignOp::Shift(ShiftOp::Out)),
        TokenKind::PlusEqual => Some(AssignOp::Sum(SumOp::Add)),
        TokenKind::MinusEqual => Some(AssignOp::Sum(SumOp::Subtract)),
        TokenKind::StarEqual => Some(AssignOp::Product(ProductOp::Multiply)),
        TokenKind::SlashEqual => Some(AssignOp::Product(ProductOp::Divide)),
        TokenKind::PercentEqual => Some(AssignOp::Product(ProductOp::Remainder)),
        TokenKind::StarStarEqual => Some(AssignOp::Exponentiate),
        _ => None,
    }
}

#[inline(always)]
fn operator(kind: TokenKind) -> Option<Growth>
    ensures { result ≡ with_operator (binary_by kind) (assign_by kind) }
{
    match mark(kind) {
        Some(operator) => Some(Growth::Binary(operator)),
        None => match assignment(kind) {
            Some(operator) => Some(Growth::OpAssign(operator)),
            None => None,
        },
    }
}

/// The operator that a word is.
#[inline(always)]
fn word(raw: &str) -> Option<Growth>
    ensures { result ≡ word_by (chars raw.now) }
{
    if is_in(raw) {
        return Some(Growth::Binary(BinaryOp::Relation(RelationOp::In)));
    }
    if is_instanceof(raw) {
        return Some(Growth::Binary(BinaryOp::Relation(RelationOp::InstanceOf)));
    }
    None
}

/// What a token, where it comes next, goes on with an expression by.
#[inline(always)]
pub fn growth_of(token: &Token) -> Option<Growth>
    ensures { result ≡ growth_by token.now.kind (chars token.now.raw.now) }
{
    match token.kind {
        TokenKind::Dot => Some(Growth::Member),
        TokenKind::LeftParen => Some(Growth::Call),
        TokenKind::LeftBracket => Some(Growth::Index),
        TokenKind::QuestionDot => Some(Growth::Chain),
        TokenKind::Question => Some(Growth::Cond),
        TokenKind::Equal => Some(Growth::Assign),
        TokenKind::PlusPlus => Some(Growth::Update(UpdateOp::Increment)),
        TokenKind::MinusMinus => Some(Growth::Update(UpdateOp::Decrement)),
        TokenKind::IdentifierName => word(token.raw),
        _ => operator(token.kind),
    }
}

//! Ranks: how tightly an expression binds (ECMA-262 section 13).

ghost use Rattle.std.specs.Prelude.{◌≡◌};
ghost use Rattle.jsx_tree.specs.Nonterminals.{level_of};
ghost use Rattle.jsx_tree.specs.View.{view_expr, view_operation, view_access, view_jsx, view_word};
ghost use Rattle.jsx_tree.specs.ViewOperators.{binary_of};
ghost use Rattle.jsx_scope.specs.Walk.{rank, low};

use crate::place::Place;
use jsx_tree::{Access, BinaryOp, BitOp, Expr, Operation, Word};

/// An optional chain: it isn't what a further member is of.
const CHAIN: u8 = 17;
/// What may be called or have members.
const OBJECT: u8 = 18;

const PRIMARY: u8 = 19;

fn level(operator: BinaryOp) -> u8
    ensures { result ≡ level_of (binary_of operator) }
{
    match operator {
        BinaryOp::Nullish => 3,
        BinaryOp::Or => 4,
        BinaryOp::And => 5,
        BinaryOp::Bit(BitOp::Or) => 6,
        BinaryOp::Bit(BitOp::Xor) => 7,
        BinaryOp::Bit(BitOp::And) => 8,
        BinaryOp::Equality(_) => 9,
        BinaryOp::Relation(_) => 10,
        BinaryOp::Shift(_) => 11,
        BinaryOp::Sum(_) => 12,
        BinaryOp::Product(_) => 13,
        BinaryOp::Exponentiate => 14,
    }
}

/// `a, b` binds least, and an expression in parentheses most.
#[tactic(auto, using(crate::proofs::Ranks::ranks))]
fn of_operation(operation: &Operation<'_>) -> u8
    ensures { result ≡ rank (view_operation operation.now) }
{
    match operation {
        Operation::Seq(..) => 0,
        Operation::Cond(..) => 2,
        Operation::Binary(_, operator, _, _) => level(*operator),
        Operation::Unary(..) => 15,
        Operation::Update(..) => 16,
        Operation::Spread(..) | Operation::Hole => PRIMARY,
        Operation::Assign(..)
        | Operation::OpAssign(..)
        | Operation::Arrow(..)
        | Operation::ArrowBlock(..)
        | Operation::BareArrow(..)
        | Operation::BareArrowBlock(..) => 1,
    }
}

#[tactic(auto, using(crate::proofs::Ranks::ranks))]
fn of_access(access: &Access<'_>) -> u8
    ensures { result ≡ rank (view_access access.now) }
{
    match access {
        Access::Chain(..) => CHAIN,
        _ => OBJECT,
    }
}

fn of_word(word: Word) -> u8
    ensures { result ≡ rank (view_word word) }
{
    match word {
        Word::This | Word::Null | Word::True | Word::False => PRIMARY,
        Word::ImportMeta | Word::NewTarget => OBJECT,
    }
}

#[tactic(auto, using(crate::proofs::Ranks::ranks))]
fn of_expr(expr: &Expr<'_>) -> u8
    ensures { result ≡ rank (view_expr expr.now) }
{
    match expr {
        Expr::Operation(operation) => of_operation(operation),
        Expr::Access(access) => of_access(access),
        Expr::Word(_, word) => of_word(*word),
        Expr::Jsx(..)
        | Expr::Ident(..)
        | Expr::Literal(..)
        | Expr::Array(..)
        | Expr::Object(..)
        | Expr::Template(..)
        | Expr::Function(..)
        | Expr::Class(..)
        | Expr::Paren(..) => PRIMARY,
    }
}

/// Whether an expression binds less than its place asks.
pub(crate) fn is_low(expr: &Expr<'_>, place: Place) -> bool
    ensures { result ≡ low place (rank (view_expr expr.now)) }
{
    let rank = of_expr(expr);
    match place {
        Place::Level(level) => rank < level,
        Place::NullishLeft => rank < 6 && rank != 3,
        Place::NewCallee | Place::DotObject => rank < OBJECT,
        Place::Statement => false,
        Place::Default | Place::ArrowBody => rank < 1,
    }
}

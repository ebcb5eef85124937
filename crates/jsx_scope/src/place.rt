//! The places of expressions.

ghost use Rattle.std.specs.Prelude.{◌≡◌};
ghost use Rattle.jsx_tree.specs.Grammar.{right_of};
ghost use Rattle.jsx_tree.specs.ViewOperators.{binary_of};
ghost use Rattle.jsx_scope.specs.Walk.{left_place};

use jsx_tree::{BinaryOp, BitOp};

/// Where an expression stands: what its production asks there (ECMA-262 section 13).
#[derive(Clone, Copy)]
pub enum Place {
    /// An expression of this level or more. Level 0 is any expression, and any place that no pair may stand at.
    Level(u8),
    /// Before `??`.
    NullishLeft,
    /// Behind `new`.
    NewCallee,
    /// Before a dot.
    DotObject,
    /// At the begin of a statement.
    Statement,
    /// Behind `export default`.
    Default,
    /// Behind the `=>` of an arrow.
    ArrowBody,
}

/// The place before an operator: `(a || b) ?? c`.
pub(crate) fn left(operator: BinaryOp) -> Place
    ensures { result ≡ left_place (binary_of operator) }
{
    match operator {
        BinaryOp::Nullish => Place::NullishLeft,
        BinaryOp::Or => Place::Level(4),
        BinaryOp::And => Place::Level(5),
        BinaryOp::Bit(BitOp::Or) => Place::Level(6),
        BinaryOp::Bit(BitOp::Xor) => Place::Level(7),
        BinaryOp::Bit(BitOp::And) => Place::Level(8),
        BinaryOp::Equality(_) => Place::Level(9),
        BinaryOp::Relation(_) => Place::Level(10),
        BinaryOp::Shift(_) => Place::Level(11),
        BinaryOp::Sum(_) => Place::Level(12),
        BinaryOp::Product(_) => Place::Level(13),
        BinaryOp::Exponentiate => Place::Level(16),
    }
}

/// The level behind an operator: `a - (b - c)`.
pub(crate) fn right(operator: BinaryOp) -> u8
    ensures { result ≡ right_of (binary_of operator) }
{
    match operator {
        BinaryOp::Nullish | BinaryOp::And => 6,
        BinaryOp::Or => 5,
        BinaryOp::Bit(BitOp::Or) => 7,
        BinaryOp::Bit(BitOp::Xor) => 8,
        BinaryOp::Bit(BitOp::And) => 9,
        BinaryOp::Equality(_) => 10,
        BinaryOp::Relation(_) => 11,
        BinaryOp::Shift(_) => 12,
        BinaryOp::Sum(_) => 13,
        BinaryOp::Product(_) | BinaryOp::Exponentiate => 14,
    }
}

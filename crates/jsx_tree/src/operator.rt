//! Operators, in groups by precedence (ECMA-262 section 13).

/// An operator between two operands.
#[derive(Clone, Copy)]
pub enum BinaryOp {
    /// `??`
    Nullish,
    /// `||`
    Or,
    /// `&&`
    And,
    Bit(BitOp),
    Equality(EqualityOp),
    Relation(RelationOp),
    Shift(ShiftOp),
    Sum(SumOp),
    Product(ProductOp),
    /// `**`
    Exponentiate,
}

#[derive(Clone, Copy)]
pub enum BitOp {
    Or,
    Xor,
    And,
}

#[derive(Clone, Copy)]
pub enum EqualityOp {
    Equal,
    Unequal,
    StrictEqual,
    StrictUnequal,
}

#[derive(Clone, Copy)]
pub enum RelationOp {
    Less,
    Greater,
    AtMost,
    AtLeast,
    In,
    InstanceOf,
}

#[derive(Clone, Copy)]
pub enum ShiftOp {
    /// `<<`
    Left,
    /// `>>`
    Right,
    /// `>>>`
    Out,
}

#[derive(Clone, Copy)]
pub enum SumOp {
    Add,
    Subtract,
}

#[derive(Clone, Copy)]
pub enum ProductOp {
    Multiply,
    Divide,
    Remainder,
}

/// The operator before the `=` of an assignment.
#[derive(Clone, Copy)]
pub enum AssignOp {
    Nullish,
    Or,
    And,
    Bit(BitOp),
    Shift(ShiftOp),
    Sum(SumOp),
    Product(ProductOp),
    Exponentiate,
}

/// An operator before its operand.
#[derive(Clone, Copy)]
pub enum UnaryOp {
    Delete,
    Void,
    TypeOf,
    /// `+a`
    Positive,
    /// `-a`
    Negative,
    /// `~a`
    Complement,
    /// `!a`
    Not,
}

#[derive(Clone, Copy)]
pub enum UpdateOp {
    Increment,
    Decrement,
}

/// On which side of its operand the operator of an update stands.
#[derive(Clone, Copy)]
pub enum UpdateSide {
    Before,
    After,
}

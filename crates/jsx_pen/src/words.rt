//! Words and operators that are always spelled alike.

ghost use Rattle.std.specs.Prelude.{◌≡◌, ◌++◌, IsTrue, codes};
ghost use Rattle.jsx_pen.specs.Ascii.{is_ascii};
ghost use Rattle.jsx_pen.specs.Pen.{call_text, dot_text, index_text, spaced};
ghost use Rattle.jsx_tree.specs.Nonterminals.{binary, update};
ghost use Rattle.jsx_tree.specs.ViewOperators.{assign_of, binary_of, bit_of, equality_of, product_of, relation_of, shift_of, step_of, sum_of};

use jsx_tree::{
    AssignOp, BinaryOp, BitOp, EqualityOp, LinkForm, ProductOp, RelationOp, ShiftOp, SumOp,
    UpdateOp,
};

/// What a link of a chain begins with before a name.
pub fn dot(form: LinkForm) -> &'static str
    ensures spelled { result.now ≡ dot_text form }
    ensures ascii { IsTrue (is_ascii result.now) }
{
    match form {
        LinkForm::Optional => "?.",
        LinkForm::Plain => ".",
    }
}

/// The same before an index.
pub fn before_index(form: LinkForm) -> &'static str
    ensures spelled { result.now ≡ index_text form }
    ensures ascii { IsTrue (is_ascii result.now) }
{
    match form {
        LinkForm::Optional => "?.[",
        LinkForm::Plain => "[",
    }
}

/// The same before arguments.
pub fn before_call(form: LinkForm) -> &'static str
    ensures spelled { result.now ≡ call_text form }
    ensures ascii { IsTrue (is_ascii result.now) }
{
    match form {
        LinkForm::Optional => "?.(",
        LinkForm::Plain => "(",
    }
}

/// The operator that counts up or down.
pub fn step_text(op: UpdateOp) -> &'static str
    ensures spelled { result.now ≡ update (step_of op) }
    ensures ascii { IsTrue (is_ascii result.now) }
{
    match op {
        UpdateOp::Increment => "++",
        UpdateOp::Decrement => "--",
    }
}

/// An operator between its operands, with a blank on either side.
pub fn infix(op: BinaryOp) -> &'static str
    ensures spelled { result.now ≡ spaced (binary (binary_of op)) }
    ensures ascii { IsTrue (is_ascii result.now) }
{
    match op {
        BinaryOp::Nullish => " ?? ",
        BinaryOp::Or => " || ",
        BinaryOp::And => " && ",
        BinaryOp::Bit(op) => bit(op),
        BinaryOp::Equality(op) => equality(op),
        BinaryOp::Relation(op) => relation(op),
        BinaryOp::Shift(op) => shift(op),
        BinaryOp::Sum(op) => sum(op),
        BinaryOp::Product(op) => product(op),
        BinaryOp::Exponentiate => " ** ",
    }
}

fn bit(op: BitOp) -> &'static str
    ensures spelled { result.now ≡ spaced (binary (bit_of op)) }
    ensures ascii { IsTrue (is_ascii result.now) }
{
    match op {
        BitOp::Or => " | ",
        BitOp::Xor => " ^ ",
        BitOp::And => " & ",
    }
}

fn equality(op: EqualityOp) -> &'static str
    ensures spelled { result.now ≡ spaced (binary (equality_of op)) }
    ensures ascii { IsTrue (is_ascii result.now) }
{
    match op {
        EqualityOp::Equal => " == ",
        EqualityOp::Unequal => " != ",
        EqualityOp::StrictEqual => " === ",
        EqualityOp::StrictUnequal => " !== ",
    }
}

fn relation(op: RelationOp) -> &'static str
    ensures spelled { result.now ≡ spaced (binary (relation_of op)) }
    ensures ascii { IsTrue (is_ascii result.now) }
{
    match op {
        RelationOp::Less => " < ",
        RelationOp::Greater => " > ",
        RelationOp::AtMost => " <= ",
        RelationOp::AtLeast => " >= ",
        RelationOp::In => " in ",
        RelationOp::InstanceOf => " instanceof ",
    }
}

fn shift(op: ShiftOp) -> &'static str
    ensures spelled { result.now ≡ spaced (binary (shift_of op)) }
    ensures ascii { IsTrue (is_ascii result.now) }
{
    match op {
        ShiftOp::Left => " << ",
        ShiftOp::Right => " >> ",
        ShiftOp::Out => " >>> ",
    }
}

fn sum(op: SumOp) -> &'static str
    ensures spelled { result.now ≡ spaced (binary (sum_of op)) }
    ensures ascii { IsTrue (is_ascii result.now) }
{
    match op {
        SumOp::Add => " + ",
        SumOp::Subtract => " - ",
    }
}

fn product(op: ProductOp) -> &'static str
    ensures spelled { result.now ≡ spaced (binary (product_of op)) }
    ensures ascii { IsTrue (is_ascii result.now) }
{
    match op {
        ProductOp::Multiply => " * ",
        ProductOp::Divide => " / ",
        ProductOp::Remainder => " % ",
    }
}

/// The operator of an assignment, with a blank on either side.
pub fn assign_text(op: AssignOp) -> &'static str
    ensures spelled { result.now ≡ spaced (binary (assign_of op) ++ codes "=") }
    ensures ascii { IsTrue (is_ascii result.now) }
{
    match op {
        AssignOp::Nullish => " ??= ",
        AssignOp::Or => " ||= ",
        AssignOp::And => " &&= ",
        AssignOp::Bit(op) => bit_assign(op),
        AssignOp::Shift(op) => shift_assign(op),
        AssignOp::Sum(op) => sum_assign(op),
        AssignOp::Product(op) => product_assign(op),
        AssignOp::Exponentiate => " **= ",
    }
}

fn bit_assign(op: BitOp) -> &'static str
    ensures spelled { result.now ≡ spaced (binary (bit_of op) ++ codes "=") }
    ensures ascii { IsTrue (is_ascii result.now) }
{
    match op {
        BitOp::Or => " |= ",
        BitOp::Xor => " ^= ",
        BitOp::And => " &= ",
    }
}

fn shift_assign(op: ShiftOp) -> &'static str
    ensures spelled { result.now ≡ spaced (binary (shift_of op) ++ codes "=") }
    ensures ascii { IsTrue (is_ascii result.now) }
{
    match op {
        ShiftOp::Left => " <<= ",
        ShiftOp::Right => " >>= ",
        ShiftOp::Out => " >>>= ",
    }
}

fn sum_assign(op: SumOp) -> &'static str
    ensures spelled { result.now ≡ spaced (binary (sum_of op) ++ codes "=") }
    ensures ascii { IsTrue (is_ascii result.now) }
{
    match op {
        SumOp::Add => " += ",
        SumOp::Subtract => " -= ",
    }
}

fn product_assign(op: ProductOp) -> &'static str
    ensures spelled { result.now ≡ spaced (binary (product_of op) ++ codes "=") }
    ensures ascii { IsTrue (is_ascii result.now) }
{
    match op {
        ProductOp::Multiply => " *= ",
        ProductOp::Divide => " /= ",
        ProductOp::Remainder => " %= ",
    }
}

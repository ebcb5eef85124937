//! The end of an array: with a comma behind a last hole (ECMA-262 section 13.2.4).

ghost use Rattle.std.specs.Prelude.{◌≡◌, IsTrue, map};
ghost use Rattle.jsx_pen.specs.Pen.{end_text, ends_void, is_void, rows, signs};
ghost use Rattle.jsx_plan.specs.Plan.{behind};
ghost use Rattle.jsx_pen.specs.Ascii.{is_ascii};
ghost use Rattle.jsx_tree.specs.Kinds.{Array, Arrow, ArrowBlock, Assign, BareArrow, BareArrowBlock, Binary, Cond, Object, OpAssign, Spread, Unary};
ghost use Rattle.jsx_tree.specs.View.{forest, inside};
ghost use Rattle.jsx_plan.specs.Noted.{noted_expr, noted_operation};

use jsx_tree::{Expr, Operation};

/// The end of an array: with a comma behind a last hole.
#[tactic(auto, using(crate::proofs::Planning::ending))]
pub fn array_end(items: &[Box<Expr<'_>>]) -> &'static str
    ensures spelled { result.now ≡ end_text (rows (forest (map (inside noted_expr) items.now))) }
    ensures ascii { IsTrue (is_ascii result.now) }
{
    if ends_in_hole(items) { ",]" } else { "]" }
}

/// Whether the last of these is a hole.
fn ends_in_hole(items: &[Box<Expr<'_>>]) -> bool
    ensures { result ≡ ends_void (rows (forest (map (inside noted_expr) items.now))) }
{
    match items.last() {
        Some(item) => is_hole(item),
        None => false,
    }
}

#[tactic(auto, using(crate::proofs::Noted::voids))]
pub(crate) fn is_hole(expr: &Box<Expr<'_>>) -> bool
    ensures { result ≡ is_void (signs (noted_expr expr.now.value)) }
{
    match &**expr {
        Expr::Operation(operation) => is_hole_operation(operation),
        Expr::Ident(_, _) | Expr::Literal(_, _, _) | Expr::Word(_, _) | Expr::Access(_) => false,
        Expr::Array(_, _) | Expr::Object(_, _) | Expr::Template(_, _, _) | Expr::Paren(_, _) =>
            false,
        Expr::Function(_, _, _, _, _) | Expr::Class(_, _, _, _) | Expr::Jsx(_) => false,
    }
}

#[tactic(auto, using(crate::proofs::Noted::voids))]
fn is_hole_operation(operation: &Operation<'_>) -> bool
    ensures { result ≡ is_void (signs (noted_operation operation.now)) }
{
    match operation {
        Operation::Hole => true,
        Operation::Seq(_, _) | Operation::Assign(_, _, _) | Operation::OpAssign(_, _, _, _) =>
            false,
        Operation::Arrow(_, _, _) | Operation::ArrowBlock(_, _, _, _) => false,
        Operation::BareArrow(_, _, _) | Operation::BareArrowBlock(_, _, _, _) => false,
        Operation::Cond(_, _, _, _) | Operation::Binary(_, _, _, _) | Operation::Unary(_, _, _) =>
            false,
        Operation::Update(_, _, _, _) | Operation::Spread(_, _) => false,
    }
}

//! The place of an argument, which is that of its parentheses where it has some.

ghost use Rattle.std.specs.Prelude.{◌≡◌};
ghost use Rattle.jsx_tree.specs.View.{view_access, view_expr, view_jsx, view_operation};
ghost use Rattle.jsx_tree.specs.Told.{told_access, told_expr, told_jsx, told_operation};
ghost use Rattle.jsx_make.specs.NodeSpans.{expr_at};
ghost use Rattle.jsx_operand.specs.Spans.{as_argument, spanned};

use crate::operand::span_of;
use jsx_base::Span;
use jsx_tree::{Access, Expr, Jsx, Operation};

/// Gives an argument in parentheses the place of these.
#[tactic(auto, using(crate::proofs::Spanning::spanning))]
pub fn place_argument(expr: &mut Box<Expr<'_>>)
    ensures view { view_expr expr.new.value ≡ view_expr expr.old.value }
    ensures told { told_expr expr.new.value ≡ as_argument (view_expr expr.old.value) (expr_at expr.old.value) (told_expr expr.old.value) }
{
    place_inner(expr)
}

#[tactic(auto, using(crate::proofs::Spanning::spanning))]
fn place_inner(expr: &mut Expr<'_>)
    ensures view { view_expr expr.new ≡ view_expr expr.old }
    ensures told { told_expr expr.new ≡ as_argument (view_expr expr.old) (expr_at expr.old) (told_expr expr.old) }
{
    let at = span_of(expr);
    if let Expr::Paren(_, inner) = expr {
        place(inner, at);
    }
}

/// Places an expression, with the parentheses round it left as they are.
#[cycle(place)]
#[tactic(auto, using(crate::proofs::Spanning::spanning))]
fn place(expr: &mut Box<Expr<'_>>, at: Option<Span>)
    ensures view { view_expr expr.new.value ≡ view_expr expr.old.value }
    ensures told { told_expr expr.new.value ≡ spanned at (told_expr expr.old.value) }
{
    place_node(expr, at)
}

#[cycle(place)]
#[tactic(auto, using(crate::proofs::Spanning::spanning))]
fn place_node(expr: &mut Expr<'_>, at: Option<Span>)
    ensures view { view_expr expr.new ≡ view_expr expr.old }
    ensures told { told_expr expr.new ≡ spanned at (told_expr expr.old) }
{
    match expr {
        Expr::Ident(place, _) => *place = at,
        Expr::Literal(place, _, _) => *place = at,
        Expr::Word(place, _) => *place = at,
        Expr::Operation(operation) => place_operation(operation, at),
        Expr::Access(access) => place_access(access, at),
        Expr::Array(place, _) => *place = at,
        Expr::Object(place, _) => *place = at,
        Expr::Template(place, _, _) => *place = at,
        Expr::Function(place, _, _, _, _) => *place = at,
        Expr::Class(place, _, _, _) => *place = at,
        Expr::Jsx(jsx) => place_jsx(jsx, at),
        Expr::Paren(_, inner) => place(inner, at),
    }
}

#[tactic(auto, using(crate::proofs::Spanning::spanning))]
fn place_operation(operation: &mut Operation<'_>, at: Option<Span>)
    ensures view { view_operation operation.new ≡ view_operation operation.old }
    ensures told { told_operation operation.new ≡ spanned at (told_operation operation.old) }
{
    match operation {
        Operation::Seq(place, _) => *place = at,
        Operation::Assign(place, _, _) => *place = at,
        Operation::OpAssign(place, _, _, _) => *place = at,
        Operation::Arrow(place, _, _) => *place = at,
        Operation::ArrowBlock(place, _, _, _) => *place = at,
        Operation::BareArrow(place, _, _) => *place = at,
        Operation::BareArrowBlock(place, _, _, _) => *place = at,
        Operation::Cond(place, _, _, _) => *place = at,
        Operation::Binary(place, _, _, _) => *place = at,
        Operation::Unary(place, _, _) => *place = at,
        Operation::Update(place, _, _, _) => *place = at,
        Operation::Spread(place, _) => *place = at,
        Operation::Hole => (),
    }
}

#[tactic(auto, using(crate::proofs::Spanning::spanning))]
fn place_access(access: &mut Access<'_>, at: Option<Span>)
    ensures view { view_access access.new ≡ view_access access.old }
    ensures told { told_access access.new ≡ spanned at (told_access access.old) }
{
    match access {
        Access::Call(place, _, _) => *place = at,
        Access::Member(place, _, _) => *place = at,
        Access::Index(place, _, _) => *place = at,
        Access::Tagged(place, _, _, _, _) => *place = at,
        Access::New(place, _, _) => *place = at,
        Access::NewWithoutArguments(place, _) => *place = at,
        Access::SuperCall(place, _) => *place = at,
        Access::SuperMember(place, _) => *place = at,
        Access::SuperIndex(place, _) => *place = at,
        Access::ImportCall(place, _) => *place = at,
        Access::Chain(place, _, _) => *place = at,
    }
}

#[tactic(auto, using(crate::proofs::Spanning::spanning))]
fn place_jsx(jsx: &mut Box<Jsx<'_>>, at: Option<Span>)
    ensures view { view_jsx jsx.new.value ≡ view_jsx jsx.old.value }
    ensures told { told_jsx jsx.new.value ≡ spanned at (told_jsx jsx.old.value) }
{
    place_jsx_node(jsx, at)
}

#[tactic(auto, using(crate::proofs::Spanning::spanning))]
fn place_jsx_node(jsx: &mut Jsx<'_>, at: Option<Span>)
    ensures view { view_jsx jsx.new ≡ view_jsx jsx.old }
    ensures told { told_jsx jsx.new ≡ spanned at (told_jsx jsx.old) }
{
    match jsx {
        Jsx::Element(place, _, _) => *place = at,
        Jsx::ElementWithChildren(place, _, _, _, _) => *place = at,
        Jsx::Fragment(place, _) => *place = at,
        Jsx::Text(place, _) => *place = at,
        Jsx::Str(place, _) => *place = at,
        Jsx::Container(place, _) => *place = at,
        Jsx::Spread(place, _) => *place = at,
        Jsx::Attribute(place, _, _) => *place = at,
    }
}

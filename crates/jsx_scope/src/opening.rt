//! What an expression begins with, and whether its place takes it.

ghost use Rattle.std.specs.Prelude.{◌≡◌, map};
ghost use Rattle.jsx_tree.specs.Kinds.{Assigns, expression, node, part, none};
ghost use Rattle.jsx_tree.specs.ViewOperators.{update_of};
ghost use Rattle.jsx_tree.specs.declared.operator.UpdateOp as code_update;
ghost use Rattle.jsx_tree.specs.Parentheses.{is_in};
ghost use Rattle.jsx_tree.specs.View.{inside, forest, view_expr, view_operation, view_access, view_pattern};
ghost use Rattle.jsx_scope.specs.Walk.{opening, opening_at, opening_in, calls, is_number, lacks, due};
ghost use Rattle.jsx_scope.specs.declared.place.Place.TheVariants as place;

use crate::place::{Place, left};
use crate::rank::is_low;
use jsx_tree::{Access, BinaryOp, Expr, LiteralKind, Operation, Pat, RelationOp, UpdateSide};

/// The first token, of those that may not come first somewhere.
#[derive(Clone, Copy)]
pub enum Opening {
    /// `{`
    Brace,
    /// `function` or `class`
    Keyword,
    Other,
}

#[cycle(opening)]
#[tactic(auto, using(crate::proofs::Begins::begins))]
fn of_expr(expr: &Expr<'_>) -> Opening
    ensures { result ≡ opening (view_expr expr.now) }
{
    match expr {
        Expr::Operation(operation) => of_operation(operation),
        Expr::Access(access) => of_access(access),
        Expr::Object(..) => Opening::Brace,
        Expr::Function(..) | Expr::Class(..) => Opening::Keyword,
        Expr::Ident(..)
        | Expr::Literal(..)
        | Expr::Word(..)
        | Expr::Array(..)
        | Expr::Template(..)
        | Expr::Jsx(..)
        | Expr::Paren(..) => Opening::Other,
    }
}

/// Of an expression at its place, where it may get a pair.
#[cycle(opening)]
#[tactic(auto, using(crate::proofs::Begins::begins))]
fn at(place: Place, expr: &Expr<'_>) -> Opening
    ensures { result ≡ opening_at place (view_expr expr.now) }
{
    if is_low(expr, place) {
        return Opening::Other;
    }
    of_expr(expr)
}

#[cycle(opening)]
#[tactic(auto, using(crate::proofs::Begins::begins))]
fn of_operation(operation: &Operation<'_>) -> Opening
    ensures { result ≡ opening (view_operation operation.now) }
{
    match operation {
        Operation::Seq(_, items) => of_first(items),
        Operation::Assign(_, target, _) => of_pattern(target),
        Operation::OpAssign(_, _, target, _) => of_pattern(target),
        Operation::Cond(_, test, _, _) => at(Place::Level(3), test),
        Operation::Binary(_, operator, first, _) => at(left(*operator), first),
        Operation::Update(_, _, side, target) => of_update(*side, target),
        Operation::Arrow(..)
        | Operation::ArrowBlock(..)
        | Operation::BareArrow(..)
        | Operation::BareArrowBlock(..)
        | Operation::Unary(..)
        | Operation::Spread(..)
        | Operation::Hole => Opening::Other,
    }
}

/// `++a` begins with its operator, `a++` with its target.
#[cycle(opening)]
#[tactic(auto, using(crate::proofs::Begins::begins))]
fn of_update(side: UpdateSide, target: &Pat<'_>) -> Opening
    ensures { (o : code_update.UpdateOp) → result ≡ opening (node (expression (update_of o side)) (part (view_pattern target.now Assigns) none)) }
{
    match side {
        UpdateSide::Before => Opening::Other,
        UpdateSide::After => of_pattern(target),
    }
}

#[cycle(opening)]
#[tactic(auto, using(crate::proofs::Begins::begins))]
fn of_first(exprs: &[Box<Expr<'_>>]) -> Opening
    ensures { result ≡ opening_in (place.Level 1) (forest (map (inside view_expr) exprs.now)) }
{
    match exprs.first() {
        Some(expr) => at(Place::Level(1), expr),
        None => Opening::Other,
    }
}

#[cycle(opening)]
#[tactic(auto, using(crate::proofs::Begins::begins))]
fn of_pattern(pattern: &Pat<'_>) -> Opening
    ensures { result ≡ opening_at (place.Level 0) (view_pattern pattern.now Assigns) }
{
    match pattern {
        Pat::Target(expr) => at(Place::Level(0), expr),
        Pat::Object(..) => Opening::Brace,
        Pat::Ident(..)
        | Pat::Array(..)
        | Pat::Paren(..)
        | Pat::Binding(..)
        | Pat::WithInit(..)
        | Pat::Rest(..)
        | Pat::Hole
        | Pat::Pair(..)
        | Pat::Shorthand(..)
        | Pat::RestProperty(..)
        | Pat::Declaration(..)
        | Pat::Head(..) => Opening::Other,
    }
}

#[cycle(opening)]
#[tactic(auto, using(crate::proofs::Begins::begins))]
fn of_access(access: &Access<'_>) -> Opening
    ensures { result ≡ opening (view_access access.now) }
{
    match access {
        Access::Member(_, object, _) => at(Place::DotObject, object),
        Access::Call(_, object, _) => at(Place::Level(18), object),
        Access::Index(_, object, _) => at(Place::Level(18), object),
        Access::Tagged(_, object, _, _, _) => at(Place::Level(18), object),
        Access::Chain(_, object, _) => at(Place::Level(18), object),
        Access::New(..)
        | Access::NewWithoutArguments(..)
        | Access::SuperCall(..)
        | Access::SuperMember(..)
        | Access::SuperIndex(..)
        | Access::ImportCall(..) => Opening::Other,
    }
}

/// Whether a call stands before members, with no pair between: `a().b`.
#[cycle(calls)]
#[tactic(auto, using(crate::proofs::Begins::begins))]
fn has_call(expr: &Expr<'_>) -> bool
    ensures { result ≡ calls (view_expr expr.now) }
{
    match expr {
        Expr::Access(access) => calls_first(access),
        _ => false,
    }
}

#[cycle(calls)]
#[tactic(auto, using(crate::proofs::Begins::begins))]
fn calls_first(access: &Access<'_>) -> bool
    ensures { result ≡ calls (view_access access.now) }
{
    match access {
        Access::Call(..) | Access::SuperCall(..) | Access::ImportCall(..) => true,
        Access::Member(_, object, _) => has_call(object),
        Access::Index(_, object, _) => has_call(object),
        Access::Tagged(_, object, _, _, _) => has_call(object),
        _ => false,
    }
}

#[tactic(auto, using(crate::proofs::Begins::begins))]
fn is_number(expr: &Expr<'_>) -> bool
    ensures { result ≡ is_number (view_expr expr.now) }
{
    matches!(expr, Expr::Literal(_, LiteralKind::Num, _))
}

#[tactic(auto, using(crate::proofs::Begins::begins))]
fn is_in_operation(operation: &Operation<'_>) -> bool
    ensures { result ≡ is_in (view_operation operation.now) }
{
    matches!(
        operation,
        Operation::Binary(_, BinaryOp::Relation(RelationOp::In), _, _)
    )
}

#[tactic(auto, using(crate::proofs::Begins::begins))]
fn is_in_expr(expr: &Expr<'_>) -> bool
    ensures { result ≡ is_in (view_expr expr.now) }
{
    match expr {
        Expr::Operation(operation) => is_in_operation(operation),
        _ => false,
    }
}

/// What a place asks beside how tightly an expression binds.
fn is_lacking(place: Place, expr: &Expr<'_>) -> bool
    ensures { result ≡ lacks place (view_expr expr.now) }
{
    match place {
        Place::Level(_) | Place::NullishLeft => false,
        Place::NewCallee => has_call(expr),
        Place::DotObject => is_number(expr),
        Place::Statement => !matches!(of_expr(expr), Opening::Other),
        Place::Default => matches!(of_expr(expr), Opening::Keyword),
        Place::ArrowBody => matches!(of_expr(expr), Opening::Brace),
    }
}

/// Whether an expression gets a pair at its place.
pub(crate) fn is_due(place: Place, bare: bool, expr: &Expr<'_>) -> bool
    ensures { result ≡ due place bare (view_expr expr.now) }
{
    is_low(expr, place) || is_lacking(place, expr) || (is_in_expr(expr) && bare)
}

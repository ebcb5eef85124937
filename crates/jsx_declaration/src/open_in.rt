//! An `in` that no bracket encloses, which the head of a `for` has none of: not `for (a in b;;);` (ECMA-262 section 14.7.4).

ghost use Rattle.std.specs.Prelude.{◌≡◌, map};
ghost use Rattle.jsx_tree.specs.Kinds.{Assigns, Binary, expression};
ghost use Rattle.jsx_tree.specs.StaticRules.{is_in_op};
ghost use Rattle.jsx_tree.specs.View.{forest, inside, view_access, view_expr, view_operation, view_pat, view_pattern};
ghost use Rattle.jsx_tree.specs.ViewOperators.{binary_of};
ghost use Rattle.jsx_declaration.specs.OpenIn.{any_opens, opens, opens_declared, opens_whole, some_of};

use jsx_tree::{Access, BinaryOp, Expr, Operation, Pat, RelationOp};

fn is_in(operator: BinaryOp) -> bool
    ensures { result ≡ is_in_op (expression (Binary (binary_of operator))) }
{
    matches!(operator, BinaryOp::Relation(RelationOp::In))
}

/// Whether an expression that is no sequence has one.
#[cycle(open_in)]
#[tactic(auto, using(crate::proofs::OpenIn::opening))]
fn has_open_in(expr: &Expr) -> bool
    ensures { result ≡ opens (view_expr expr.now) }
{
    match expr {
        Expr::Operation(operation) => of_operation(operation),
        Expr::Access(access) => of_access(access),
        Expr::Ident(..)
        | Expr::Literal(..)
        | Expr::Word(..)
        | Expr::Array(..)
        | Expr::Object(..)
        | Expr::Template(..)
        | Expr::Function(..)
        | Expr::Class(..)
        | Expr::Jsx(..)
        | Expr::Paren(..) => false,
    }
}

#[cycle(open_in)]
#[tactic(auto, using(crate::proofs::OpenIn::opening))]
fn of_operation(operation: &Operation) -> bool
    ensures { result ≡ opens (view_operation operation.now) }
{
    match operation {
        Operation::Assign(_, target, value) => of_pattern(target) || has_open_in(value),
        Operation::OpAssign(_, _, target, value) => of_pattern(target) || has_open_in(value),
        Operation::Cond(_, test, then, other) => {
            has_open_in(test) || has_open_in(then) || has_open_in(other)
        }
        Operation::Binary(_, operator, left, right) => {
            is_in(*operator) || has_open_in(left) || has_open_in(right)
        }
        Operation::Unary(_, _, operand) => has_open_in(operand),
        Operation::Update(_, _, _, target) => of_pattern(target),
        Operation::Arrow(_, _, value) => has_open_in(value),
        Operation::BareArrow(_, _, value) => has_open_in(value),
        Operation::Seq(..)
        | Operation::ArrowBlock(..)
        | Operation::BareArrowBlock(..)
        | Operation::Spread(..)
        | Operation::Hole => false,
    }
}

#[cycle(open_in)]
#[tactic(auto, using(crate::proofs::OpenIn::opening))]
fn of_access(access: &Access) -> bool
    ensures { result ≡ opens (view_access access.now) }
{
    match access {
        Access::Call(_, callee, _) => has_open_in(callee),
        Access::Member(_, object, _) => has_open_in(object),
        Access::Index(_, object, _) => has_open_in(object),
        Access::New(_, callee, _) => has_open_in(callee),
        Access::NewWithoutArguments(_, callee) => has_open_in(callee),
        Access::Tagged(_, tag, _, _, _) => has_open_in(tag),
        Access::Chain(_, base, _) => has_open_in(base),
        Access::SuperCall(..)
        | Access::SuperMember(..)
        | Access::SuperIndex(..)
        | Access::ImportCall(..) => false,
    }
}

/// A target of an assignment.
#[cycle(open_in)]
#[tactic(auto, using(crate::proofs::OpenIn::opening))]
fn of_pattern(pattern: &Pat) -> bool
    ensures { result ≡ opens (view_pattern pattern.now Assigns) }
{
    match pattern {
        Pat::Target(expr) => has_open_in(expr),
        Pat::Ident(..)
        | Pat::Array(..)
        | Pat::Object(..)
        | Pat::Paren(..)
        | Pat::Binding(..)
        | Pat::WithInit(..)
        | Pat::Rest(..)
        | Pat::Hole
        | Pat::Pair(..)
        | Pat::Shorthand(..)
        | Pat::RestProperty(..)
        | Pat::Declaration(..)
        | Pat::Head(..) => false,
    }
}

/// Of some expressions one after the other.
fn of_items(items: &[Box<Expr<'_>>]) -> bool
    ensures { result ≡ some_of opens (forest (map (inside view_expr) items.now)) }
{
    for (i, item) in items.iter().enumerate() {
        if has_open_in(item) {
            return true;
        }
    }
    false
}

#[tactic(auto, using(crate::proofs::OpenIn::opening))]
fn of_sequence(operation: &Operation) -> bool
    ensures { result ≡ opens_whole (view_operation operation.now) }
{
    match operation {
        Operation::Seq(_, items) => of_items(items),
        _ => of_operation(operation),
    }
}

/// Whether what a `for` begins with has one: an expression, or a sequence, which nothing but brackets would hold elsewhere.
#[tactic(auto, using(crate::proofs::OpenIn::opening))]
pub fn head_has_open_in(expr: &Expr) -> bool
    ensures { result ≡ opens_whole (view_expr expr.now) }
{
    match expr {
        Expr::Operation(operation) => of_sequence(operation),
        _ => has_open_in(expr),
    }
}

/// A declarator, in its initializer: what is bound has none.
#[tactic(auto, using(crate::proofs::OpenIn::opening))]
fn of_declarator(declarator: &Pat) -> bool
    ensures { result ≡ opens_declared (view_pat declarator.now) }
{
    match declarator {
        Pat::Binding(_, _, Some(value)) => has_open_in(value),
        Pat::Target(expr) => has_open_in(expr),
        Pat::Binding(_, _, None)
        | Pat::Ident(..)
        | Pat::Array(..)
        | Pat::Object(..)
        | Pat::Paren(..)
        | Pat::WithInit(..)
        | Pat::Rest(..)
        | Pat::Hole
        | Pat::Pair(..)
        | Pat::Shorthand(..)
        | Pat::RestProperty(..)
        | Pat::Declaration(..)
        | Pat::Head(..) => false,
    }
}

/// Whether one of some declarators has one.
pub fn any_has_open_in(declarators: &[Box<Pat<'_>>]) -> bool
    ensures { result ≡ any_opens (forest (map (inside view_pat) declarators.now)) }
{
    for (i, declarator) in declarators.iter().enumerate() {
        if of_declarator(declarator) {
            return true;
        }
    }
    false
}

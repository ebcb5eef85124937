//! What the code asks of a single node.

ghost use Rattle.std.specs.Prelude.{◌≡◌, codes};
ghost use Rattle.std.specs.Str.{chars};
ghost use Rattle.jsx_base.specs.Token.{same};
ghost use Rattle.jsx_tree.specs.Kinds.{Assigns};
ghost use Rattle.jsx_tree.specs.Normal.{is_empty};
ghost use Rattle.jsx_tree.specs.View.{name_of, view_expr, view_pattern, view_stmt};
ghost use Rattle.jsx_scope.specs.Walk.{is_string, is_async};

use jsx_tree::{Expr, Ident, LiteralKind, Pat, Stmt, Text};

fn is_async_word(text: &str) -> bool
    ensures { result ≡ same (chars text.now) (codes "async") }
{
    text == "async"
}

fn is_async_name(name: &Ident<'_>) -> bool
    ensures { result ≡ is_async (name_of name.now) }
{
    match &name.text {
        Text::Read(text, _) => is_async_word(text),
        Text::Made(text, _) => is_async_word(text),
    }
}

#[tactic(auto, using(crate::proofs::Nodes::nodes))]
fn is_async_expr(expr: &Expr<'_>) -> bool
    ensures { result ≡ is_async (view_expr expr.now) }
{
    match expr {
        Expr::Ident(_, name) => is_async_name(name),
        Expr::Literal(..)
        | Expr::Word(..)
        | Expr::Operation(..)
        | Expr::Access(..)
        | Expr::Array(..)
        | Expr::Object(..)
        | Expr::Template(..)
        | Expr::Function(..)
        | Expr::Class(..)
        | Expr::Jsx(..)
        | Expr::Paren(..) => false,
    }
}

/// Whether a target is the name `async`.
#[tactic(auto, using(crate::proofs::Nodes::nodes))]
pub(crate) fn is_async_target(target: &Pat<'_>) -> bool
    ensures { result ≡ is_async (view_pattern target.now Assigns) }
{
    match target {
        Pat::Ident(_, name) => is_async_name(name),
        Pat::Target(expr) => is_async_expr(expr),
        Pat::Array(..)
        | Pat::Object(..)
        | Pat::Paren(..)
        | Pat::Binding(..)
        | Pat::WithInit(..)
        | Pat::Rest(..)
        | Pat::Hole
        | Pat::Pair(..)
        | Pat::Shorthand(..)
        | Pat::RestProperty(..)
        | Pat::Declaration(..)
        | Pat::Head(..) => false,
    }
}

#[tactic(auto, using(crate::proofs::Nodes::nodes))]
pub(crate) fn is_string(expr: &Expr<'_>) -> bool
    ensures { result ≡ is_string (view_expr expr.now) }
{
    match expr {
        Expr::Literal(_, kind, _) => matches!(kind, LiteralKind::Str),
        Expr::Ident(..)
        | Expr::Word(..)
        | Expr::Operation(..)
        | Expr::Access(..)
        | Expr::Array(..)
        | Expr::Object(..)
        | Expr::Template(..)
        | Expr::Function(..)
        | Expr::Class(..)
        | Expr::Jsx(..)
        | Expr::Paren(..) => false,
    }
}

#[tactic(auto, using(crate::proofs::Nodes::nodes))]
pub(crate) fn is_empty(stmt: &Stmt<'_>) -> bool
    ensures { result ≡ is_empty (view_stmt stmt.now) }
{
    match stmt {
        Stmt::Empty(..) => true,
        Stmt::Block(..)
        | Stmt::Var(..)
        | Stmt::Expr(..)
        | Stmt::Control(..)
        | Stmt::Continue(..)
        | Stmt::Break(..)
        | Stmt::Return(..)
        | Stmt::Throw(..)
        | Stmt::Debugger(..)
        | Stmt::Function(..)
        | Stmt::Class(..) => false,
    }
}

//! What is read where an expression may stand, before it is known whether one stands there or a pattern of the same tokens
//! (ECMA-262 sections 13.2.5, 13.15.5 and 15.3).

ghost use Rattle.std.specs.Prelude.{◌≡◌, ◌≤◌, ◌&&◌, IfNone, IfOk, IfSome, IsTrue, OnOk, false, not, true};
ghost use Rattle.jsx_base.specs.Token.{breaks};
ghost use Rattle.jsx_tree.specs.Grammar.{pun};
ghost use Rattle.jsx_tree.specs.Reading.{Lost, forth};
ghost use Rattle.jsx_tree.specs.Walk.{is_found};
ghost use Rattle.jsx_tree.specs.Nonterminals as grammar;
ghost use Rattle.jsx_tree.specs.Told.{told_expr, told_leaf};
ghost use Rattle.jsx_tree.specs.View.{name_of, text_of, view_expr};
ghost use Rattle.jsx_make.specs.NodeSpans.{expr_at};
ghost use Rattle.jsx_operand.specs.Answers.{PlainRefused};
ghost use Rattle.jsx_operand.specs.Turning as turning;
ghost use Rattle.jsx_token.specs.Here.{place_of};

use crate::error::ParseError;
use crate::operand::{ASSIGNMENT, is_bound_text};
use crate::parser::give_up;
use jsx_base::BytePos;
use jsx_token::{Fixed, Lexer};
use jsx_tree::{Expr, Ident, Text};
use std::mem;

/// An expression of the level of assignments, or an array or an object that `=` has to turn into a pattern.
#[derive(Drop)]
pub struct Cover<'s> {
    pub expr: Box<Expr<'s>>,
    /// Whether it is an expression: `{a = 1}` is none, and neither is `{__proto__: a, __proto__: b}`.
    pub is_expr: bool,
    /// Whether it may turn: no comma stands behind a rest of it, as in `[...a,]`, which the tree doesn't keep.
    pub may_turn: bool,
}

impl<'s> Cover<'s> {
    /// An expression that holds no rest with a comma behind it.
    #[inline]
    pub fn settled(expr: Box<Expr<'s>>) -> Cover<'s>
        ensures expr { result.expr ≡ expr.entry }
        ensures is_expr { result.is_expr ≡ true }
        ensures may_turn { result.may_turn ≡ true }
    {
        Cover::of(expr, true)
    }

    /// An expression.
    #[inline]
    pub fn of(expr: Box<Expr<'s>>, may_turn: bool) -> Cover<'s>
        ensures { result ≡ record { expr = expr.entry; is_expr = true; may_turn = may_turn } }
    {
        Cover {
            expr,
            is_expr: true,
            may_turn,
        }
    }
}

/// The expression, where the cover is one.
#[inline]
pub fn settle<'s>(cover: Cover<'s>, lexer: &Lexer<'s>) -> Result<Box<Expr<'s>>, ParseError>
    ensures expr { IfOk result (λ e. e ≡ cover.entry.expr) }
    ensures is { IfOk result (λ _. cover.entry.is_expr ≡ true) }
    ensures refused { PlainRefused result (cover.entry.is_expr ≡ false) }
{
    if cover.is_expr {
        return Ok(cover.expr);
    }
    Err(give_up(lexer))
}

/// Whether an expression is an array or an object, which `=` may turn into a pattern. In parentheses it is none.
#[inline]
#[tactic(auto, using(crate::proofs::Variants::unliteral))]
pub fn is_literal(expr: &Expr) -> bool
    ensures { result ≡ turning.is_literal (view_expr expr.now) }
{
    matches!(expr, Expr::Array(_, _) | Expr::Object(_, _))
}

/// The name of the one parameter that an arrow function without parentheses has, where an expression may be one, taken out of it.
#[inline]
#[tactic(auto, using(crate::proofs::Variants::unnamed))]
pub fn parameter_name<'s>(expr: &mut Expr<'s>) -> Option<Ident<'s>>
    ensures named { IfSome result (λ n. view_expr expr.old ≡ name_of n) }
    ensures told { IfSome result (λ n. told_expr expr.old ≡ told_leaf (expr_at expr.old) n.text) }
    ensures bound { IfSome result (λ n. turning.is_bound_name (view_expr expr.old) ≡ true) }
    ensures unbound { IfNone result (turning.is_bound_name (view_expr expr.old) ≡ false) }
    ensures stays { IfNone result (expr.new ≡ expr.old) }
{
    match expr {
        Expr::Ident(_, name) => taken_bound(name),
        Expr::Literal(_, _, _) => None,
        Expr::Word(_, _) => None,
        Expr::Operation(_) => None,
        Expr::Access(_) => None,
        Expr::Array(_, _) => None,
        Expr::Object(_, _) => None,
        Expr::Template(_, _, _) => None,
        Expr::Function(_, _, _, _, _) => None,
        Expr::Class(_, _, _, _) => None,
        Expr::Jsx(_) => None,
        Expr::Paren(_, _) => None,
    }
}

/// A name that may be bound, taken out of its place.
pub(crate) fn taken_bound<'s>(name: &mut Ident<'s>) -> Option<Ident<'s>>
    ensures taken { IfSome result (λ n. n ≡ name.old) }
    ensures bound { IfSome result (λ n. grammar.is_bound (text_of n.text) ≡ true) }
    ensures unbound { IfNone result (grammar.is_bound (text_of name.old.text) ≡ false) }
    ensures stays { IfNone result (name.new ≡ name.old) }
{
    if !is_bound_text(&name.text) {
        return None;
    }
    let text = Text::Read("", BytePos(0));
    Some(mem::replace(name, Ident { text }))
}

/// Refuses `=>` behind an expression, at the level of assignments: it goes on with a name alone, or with what is in parentheses.
pub fn refuse_arrow(lexer: &mut Lexer, level: u8) -> Result<(), ParseError>
    ensures no_arrow { OnOk result (level ≤ 1 → forth (pun "=>") (place_of lexer.old) ≡ Lost) }
    ensures stays { lexer.new ≡ lexer.old }
    ensures refused { PlainRefused result ((level ≤ 1) × IsTrue (is_found (forth (pun "=>") (place_of lexer.old)))) }
{
    if level > ASSIGNMENT {
        return Ok(());
    }
    if lexer.is_before(Fixed::Arrow) {
        return Err(give_up(lexer));
    }
    Ok(())
}

/// Whether `=>` comes next, on the line of what was taken last.
pub fn is_before_arrow(lexer: &mut Lexer) -> bool
    ensures ahead { result ≡ (is_found (forth (pun "=>") (place_of lexer.old)) && not (breaks lexer.old.rest)) }
    ensures stays { lexer.new ≡ lexer.old }
{
    lexer.is_before(Fixed::Arrow) && lexer.is_on_line()
}

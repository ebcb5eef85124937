//! Expressions.

ghost use Rattle.std.specs.Prelude.{◌<◌, ◌≤◌, IfOk, OnOk, IsTrue};
ghost use Rattle.jsx_tree.specs.Kinds.{expression, part, Tagged};
ghost use Rattle.jsx_tree.specs.Nonterminals as grammar;
ghost use Rattle.jsx_tree.specs.Grammar.{Part};
ghost use Rattle.jsx_tree.specs.View.{view_expr};
ghost use Rattle.jsx_tree.specs.Told.{told_expr};
ghost use Rattle.jsx_tree.specs.Walk.{one, tail};
ghost use Rattle.jsx_tree.specs.Answers.{Only, Barred, Built};
ghost use Rattle.jsx_operand.specs.Around.{around_of};
ghost use Rattle.jsx_operand.specs.SoFar.{so_far};
ghost use Rattle.jsx_token.specs.Marks.{row_so_far};
ghost use Rattle.jsx_token.specs.Here.{place_of, left};
ghost use Rattle.jsx_operand.specs.Answers.{Refused};
ghost use Rattle.jsx_operand.specs.Templates.{IsPlacedTag, NotTagged};
ghost use Rattle.jsx_operand.specs.Climbing as climbing;
ghost use Rattle.jsx_operand.specs.Climbing.{Grown, NotGrown};
ghost use Rattle.jsx_operand.specs.Covers.{view_cover};
ghost use Rattle.jsx_function.specs.Covers.{IsCover, IsPlacedCover, NoCover, Settles};
ghost use Rattle.jsx_expression.specs.Covers.{IsOperand, NoOperand};
ghost use Rattle.jsx_token.specs.Growths.{closed, growth_kind, is_level, level_of_kind, mark, settled};
ghost use Rattle.jsx_member.specs.Gathering.{IsGathered, NotGathered};
ghost use Rattle.jsx_make.specs.NodeSpans.{expr_at};
ghost use Rattle.jsx_operand.specs.Spans.{Extends, IsPlaced, IsPlacedOn, Spans};
ghost use Rattle.jsx_token.specs.Places.{end_of, next_of};
ghost use Rattle.jsx_operand.specs.Bodies.{ReadsBodies};

use crate::grammar::Expressions;
use jsx_function::Within;
use jsx_member::Brackets;
use jsx_operand::cover::settle;
use jsx_operand::{Body, Context, Cover, ParseError};
use jsx_token::Lexer;
use jsx_token::growth::Growth;
use jsx_tree::Expr;

/// What an expression of a level begins with: one that begins with no other, and at the level of assignments also an assignment to
/// a pattern, or an arrow function without parentheses: `[a] = b`, `a => b`.
pub fn operand<'s, B>(
    context: Context,
    lexer: &mut Lexer<'s>,
    level: u8,
    body: B,
) -> Result<Cover<'s>, ParseError>
where
    B: Copy + for<'c, 't> Fn(Context<'c>, &mut Lexer<'t>) -> Result<Body<'t>, ParseError>,
    requires bodies { ReadsBodies (left lexer.old) (B.pre body) (B.post body) }
    requires ranked { IsTrue (is_level level) }
    ensures read { IfOk result (λ c. IsOperand (around_of context.entry.around) level (place_of lexer.old) c (place_of lexer.new)) }
    ensures span { IfOk result (λ c. Spans (expr_at c.expr.value) (next_of lexer.old) (end_of lexer.new)) }
    ensures placed { IfOk result (λ c. IsPlacedCover c lexer.old lexer.new) }
    ensures shorter { OnOk result (left lexer.new < left lexer.old) }
    ensures ended { OnOk result (IsTrue (closed (place_of lexer.new))) }
    ensures settles { IfOk result (λ c. Settles (climbing.level (view_cover c)) (place_of lexer.new)) }
    ensures refused { Refused context.entry.levels result (NoOperand (around_of context.entry.around) level (place_of lexer.old)) }
{
    Expressions {
        brackets: Brackets {
            within: Within {
                inner: cover::<B>,
                body,
            },
        },
    }
    .operand(context, lexer, level)
}

/// What goes on with an expression, behind its first token, from which on it counts: its levels are those within it.
pub fn grow<'s, B>(
    context: Context,
    lexer: &mut Lexer<'s>,
    growth: Growth,
    first: Box<Expr<'s>>,
    body: B,
) -> Result<Box<Expr<'s>>, ParseError>
where
    B: Copy + for<'c, 't> Fn(Context<'c>, &mut Lexer<'t>) -> Result<Body<'t>, ParseError>,
    requires bodies { ReadsBodies (left lexer.old) (B.pre body) (B.post body) }
    requires settled { IsTrue (settled (place_of lexer.old)) }
    ensures read { IfOk result (λ e. Grown (around_of context.entry.around) (growth_kind growth) (view_expr first.entry.value) (place_of lexer.old) (view_expr e.value) (place_of lexer.new)) }
    ensures span { IfOk result (λ e. Extends (expr_at first.entry.value) (expr_at e.value) (end_of lexer.new)) }
    ensures placed { IfOk result (λ e. IsPlacedOn (mark (growth_kind growth)) first.entry.value lexer.old e.value lexer.new) }
    ensures within { OnOk result (left lexer.new ≤ left lexer.old) }
    ensures ended { OnOk result (IsTrue (closed (place_of lexer.new))) }
    ensures settles { OnOk result (Settles (level_of_kind (growth_kind growth)) (place_of lexer.new)) }
    ensures refused { Refused context.entry.levels result (NotGrown (around_of context.entry.around) (growth_kind growth) (place_of lexer.old)) }
{
    Expressions {
        brackets: Brackets {
            within: Within {
                inner: cover::<B>,
                body,
            },
        },
    }
    .grow(context, lexer, growth, first)
}

/// A template behind its tag (ECMA-262 section 13.3.11), which may have any escapes.
pub fn tagged<'s, B>(
    context: Context,
    lexer: &mut Lexer<'s>,
    tag: Box<Expr<'s>>,
    body: B,
) -> Result<Box<Expr<'s>>, ParseError>
where
    B: Copy + for<'c, 't> Fn(Context<'c>, &mut Lexer<'t>) -> Result<Body<'t>, ParseError>,
    requires bodies { ReadsBodies (left lexer.old) (B.pre body) (B.post body) }
    ensures read { IfOk result (λ e. Built so_far (around_of context.entry.around) (tail (row_so_far (expression Tagged))) (expression Tagged) (part (view_expr tag.entry.value)) (view_expr e.value) (place_of lexer.old) (place_of lexer.new)) }
    ensures fits { OnOk result (IsTrue (climbing.fits (expression Tagged) (view_expr tag.entry.value))) }
    ensures span { IfOk result (λ e. Extends (expr_at tag.entry.value) (expr_at e.value) (end_of lexer.new)) }
    ensures placed { IfOk result (λ e. IsPlacedTag tag.entry.value lexer.old e.value lexer.new) }
    ensures shorter { OnOk result (left lexer.new < left lexer.old) }
    ensures ended { OnOk result (IsTrue (settled (place_of lexer.new))) }
    ensures refused { Refused context.entry.levels result (NotTagged (around_of context.entry.around) (view_expr tag.entry.value) (place_of lexer.old)) }
{
    Brackets {
        within: Within {
            inner: cover::<B>,
            body,
        },
    }
    .tagged(context, lexer, tag)
}

/// What stands at a level or more, up to where it doesn't go on: `a.b(c) + d`, `{a = 1}`. A template goes on with it at every level.
pub fn cover<'s, B>(
    context: Context,
    lexer: &mut Lexer<'s>,
    level: u8,
    body: B,
) -> Result<Cover<'s>, ParseError>
where
    B: Copy + for<'c, 't> Fn(Context<'c>, &mut Lexer<'t>) -> Result<Body<'t>, ParseError>,
    requires bodies { ReadsBodies (left lexer.old) (B.pre body) (B.post body) }
    requires ranked { IsTrue (is_level level) }
    ensures read { IfOk result (λ c. IsCover (around_of context.entry.around) level (place_of lexer.old) c (place_of lexer.new)) }
    ensures span { IfOk result (λ c. Spans (expr_at c.expr.value) (next_of lexer.old) (end_of lexer.new)) }
    ensures placed { IfOk result (λ c. IsPlacedCover c lexer.old lexer.new) }
    ensures shorter { OnOk result (left lexer.new < left lexer.old) }
    ensures ended { OnOk result (IsTrue (closed (place_of lexer.new))) }
    ensures settles { OnOk result (Settles level (place_of lexer.new)) }
    ensures refused { Refused context.entry.levels result (NoCover (around_of context.entry.around) level (place_of lexer.old)) }
{
    Expressions {
        brackets: Brackets {
            within: Within {
                inner: cover::<B>,
                body,
            },
        },
    }
    .expression(context, lexer, level)
}

/// An expression of a level or more, up to where it doesn't go on: `a.b(c) + d`. A template goes on with it at every level.
pub fn expression<'s, B>(
    context: Context,
    lexer: &mut Lexer<'s>,
    level: u8,
    body: B,
) -> Result<Box<Expr<'s>>, ParseError>
where
    B: Copy + for<'c, 't> Fn(Context<'c>, &mut Lexer<'t>) -> Result<Body<'t>, ParseError>,
    requires bodies { ReadsBodies (left lexer.old) (B.pre body) (B.post body) }
    requires ranked { IsTrue (is_level level) }
    ensures read { IfOk result (λ e. Only so_far (around_of context.entry.around) (Part (grammar.Expr level)) (place_of lexer.old) (one (view_expr e.value)) (place_of lexer.new)) }
    ensures span { IfOk result (λ e. Spans (expr_at e.value) (next_of lexer.old) (end_of lexer.new)) }
    ensures placed { IfOk result (λ e. IsPlaced (told_expr e.value) (view_expr e.value) lexer.old lexer.new) }
    ensures shorter { OnOk result (left lexer.new < left lexer.old) }
    ensures ended { OnOk result (IsTrue (closed (place_of lexer.new))) }
    ensures settles { OnOk result (Settles level (place_of lexer.new)) }
    ensures refused { Refused context.entry.levels result (Barred so_far (around_of context.entry.around) (Part (grammar.Expr level)) (place_of lexer.old)) }
{
    let read = cover(context, lexer, level, body)?;
    Ok(settle(read, lexer)?)
}

/// An expression, or several with commas between: `a, b` (ECMA-262 section 13.16).
pub fn sequence<'s, B>(
    context: Context,
    lexer: &mut Lexer<'s>,
    body: B,
) -> Result<Box<Expr<'s>>, ParseError>
where
    B: Copy + for<'c, 't> Fn(Context<'c>, &mut Lexer<'t>) -> Result<Body<'t>, ParseError>,
    requires bodies { ReadsBodies (left lexer.old) (B.pre body) (B.post body) }
    ensures read { IfOk result (λ e. Only so_far (around_of context.entry.around) (Part (grammar.Expr 0)) (place_of lexer.old) (one (view_expr e.value)) (place_of lexer.new)) }
    ensures span { IfOk result (λ e. Spans (expr_at e.value) (next_of lexer.old) (end_of lexer.new)) }
    ensures placed { IfOk result (λ e. IsPlaced (told_expr e.value) (view_expr e.value) lexer.old lexer.new) }
    ensures shorter { OnOk result (left lexer.new < left lexer.old) }
    ensures ended { OnOk result (IsTrue (closed (place_of lexer.new))) }
    ensures refused { Refused context.entry.levels result (Barred so_far (around_of context.entry.around) (Part (grammar.Expr 0)) (place_of lexer.old)) }
{
    Brackets {
        within: Within {
            inner: cover::<B>,
            body,
        },
    }
    .sequence(context, lexer)
}

/// What is read with an expression that stands before it, with commas between: `a` and `, b`.
pub fn more_items<'s, B>(
    context: Context,
    lexer: &mut Lexer<'s>,
    first: Box<Expr<'s>>,
    body: B,
) -> Result<Box<Expr<'s>>, ParseError>
where
    B: Copy + for<'c, 't> Fn(Context<'c>, &mut Lexer<'t>) -> Result<Body<'t>, ParseError>,
    requires bodies { ReadsBodies (left lexer.old) (B.pre body) (B.post body) }
    requires settled { IsTrue (closed (place_of lexer.old)) }
    ensures read { IfOk result (λ e. IsGathered (around_of context.entry.around) first.entry.value lexer.old e.value lexer.new) }
    ensures within { OnOk result (left lexer.new ≤ left lexer.old) }
    ensures ended { OnOk result (IsTrue (closed (place_of lexer.new))) }
    ensures refused { Refused context.entry.levels result (NotGathered (around_of context.entry.around) (view_expr first.entry.value) (place_of lexer.old)) }
{
    Brackets {
        within: Within {
            inner: cover::<B>,
            body,
        },
    }
    .more_items(context, lexer, first)
}

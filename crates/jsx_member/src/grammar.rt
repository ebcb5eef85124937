//! Sequences, and what all that stands within brackets is written over.

ghost use Rattle.std.specs.Prelude.{◌<◌, ◌≤◌, IfOk, OnOk, IsTrue, suc};
ghost use Rattle.jsx_tree.specs.Nonterminals as grammar;
ghost use Rattle.jsx_tree.specs.Grammar.{Part};
ghost use Rattle.jsx_tree.specs.View.{view_expr};
ghost use Rattle.jsx_tree.specs.Told.{told_expr};
ghost use Rattle.jsx_tree.specs.Walk.{one};
ghost use Rattle.jsx_tree.specs.Answers.{Only, Barred};
ghost use Rattle.jsx_function.specs.Covers.{IsCover, IsPlacedCover, NoCover};
ghost use Rattle.jsx_operand.specs.Around.{around_of};
ghost use Rattle.jsx_operand.specs.SoFar.{so_far};
ghost use Rattle.jsx_token.specs.Here.{place_of, left};
ghost use Rattle.jsx_operand.specs.Answers.{Refused};
ghost use Rattle.jsx_token.specs.Growths.{closed, settled};
ghost use Rattle.jsx_member.specs.Gathering.{IsGathered, NotGathered};
ghost use Rattle.jsx_make.specs.NodeSpans.{expr_at};
ghost use Rattle.jsx_operand.specs.Spans.{IsPlaced, Spans};
ghost use Rattle.jsx_token.specs.Places.{end_of, next_of};
ghost use Rattle.jsx_function.specs.Within.{ReadsWithin};
ghost use Rattle.jsx_operand.specs.Bodies.{ReadsBodies};

use jsx_function::Within;
use jsx_make::make;
use jsx_operand::operand::{ASSIGNMENT, start_of};
use jsx_operand::parser::span_to;
use jsx_operand::{Body, Context, Cover, ParseError};
use jsx_token::{Fixed, Lexer};
use jsx_tree::Expr;

/// What stands within brackets and quotes, over the functions that read the expressions and the bodies there: each production is
/// proved alone.
#[derive(Clone, Copy)]
pub struct Brackets<F, B> {
    /// What reads these, and the functions, classes and patterns over them.
    pub within: Within<F, B>,
}

impl<
    F: for<'c, 's> Fn(Context<'c>, &mut Lexer<'s>, u8, B) -> Result<Cover<'s>, ParseError>,
    B: Copy + for<'c, 's> Fn(Context<'c>, &mut Lexer<'s>) -> Result<Body<'s>, ParseError>,
> Brackets<F, B> {
    /// What may stand within another expression at the level of assignments, before it is known whether it is an expression: `a = b`,
    /// or `{a = 1}`, which `=` may still turn into a pattern.
    pub fn cover<'s>(
        &self,
        context: Context,
        lexer: &mut Lexer<'s>,
    ) -> Result<Cover<'s>, ParseError>
        requires nests { ReadsWithin (suc (left lexer.old)) (F.pre self.now.within.inner) (F.post self.now.within.inner) self.now.within.body }
        requires bodies { ReadsBodies (left lexer.old) (B.pre self.now.within.body) (B.post self.now.within.body) }
        ensures read { IfOk result (λ c. IsCover (around_of context.entry.around) 1 (place_of lexer.old) c (place_of lexer.new)) }
        ensures span { IfOk result (λ c. Spans (expr_at c.expr.value) (next_of lexer.old) (end_of lexer.new)) }
        ensures placed { IfOk result (λ c. IsPlacedCover c lexer.old lexer.new) }
        ensures shorter { OnOk result (left lexer.new < left lexer.old) }
        ensures ended { OnOk result (IsTrue (closed (place_of lexer.new))) }
        ensures refused { Refused context.entry.levels result (NoCover (around_of context.entry.around) 1 (place_of lexer.old)) }
    {
        self.within.covered(context, lexer, ASSIGNMENT)
    }

    /// An expression, or several with commas between: `a, b` (ECMA-262 section 13.16).
    pub fn sequence<'s>(
        &self,
        context: Context,
        lexer: &mut Lexer<'s>,
    ) -> Result<Box<Expr<'s>>, ParseError>
        requires nests { ReadsWithin (suc (left lexer.old)) (F.pre self.now.within.inner) (F.post self.now.within.inner) self.now.within.body }
        requires bodies { ReadsBodies (left lexer.old) (B.pre self.now.within.body) (B.post self.now.within.body) }
        ensures read { IfOk result (λ e. Only so_far (around_of context.entry.around) (Part (grammar.Expr 0)) (place_of lexer.old) (one (view_expr e.value)) (place_of lexer.new)) }
        ensures span { IfOk result (λ e. Spans (expr_at e.value) (next_of lexer.old) (end_of lexer.new)) }
        ensures placed { IfOk result (λ e. IsPlaced (told_expr e.value) (view_expr e.value) lexer.old lexer.new) }
        ensures shorter { OnOk result (left lexer.new < left lexer.old) }
        ensures ended { OnOk result (IsTrue (closed (place_of lexer.new))) }
        ensures refused { Refused context.entry.levels result (Barred so_far (around_of context.entry.around) (Part (grammar.Expr 0)) (place_of lexer.old)) }
    {
        let first = self.within.inner(context, lexer, ASSIGNMENT)?;
        Ok(self.more_items(context, lexer, first)?)
    }

    /// What is read with an expression that stands before it, with commas between: `a` and `, b`.
    pub fn more_items<'s>(
        &self,
        context: Context,
        lexer: &mut Lexer<'s>,
        first: Box<Expr<'s>>,
    ) -> Result<Box<Expr<'s>>, ParseError>
        requires nests { ReadsWithin (suc (left lexer.old)) (F.pre self.now.within.inner) (F.post self.now.within.inner) self.now.within.body }
        requires bodies { ReadsBodies (left lexer.old) (B.pre self.now.within.body) (B.post self.now.within.body) }
        requires settled { IsTrue (closed (place_of lexer.old)) }
        ensures read { IfOk result (λ e. IsGathered (around_of context.entry.around) first.entry.value lexer.old e.value lexer.new) }
        ensures within { OnOk result (left lexer.new ≤ left lexer.old) }
        ensures ended { OnOk result (IsTrue (closed (place_of lexer.new))) }
        ensures refused { Refused context.entry.levels result (NotGathered (around_of context.entry.around) (view_expr first.entry.value) (place_of lexer.old)) }
    {
        if !lexer.take(Fixed::Comma) {
            return Ok(first);
        }
        let lo = start_of(&first);
        let mut all = Vec::with_capacity(context.alloc, 2)?;
        all.push(first)?;
        'items: loop {
            let next = self.within.inner(context, lexer, ASSIGNMENT)?;
            all.push(next)?;
            if !lexer.take(Fixed::Comma) {
                return Ok(make::sequence(context.alloc, span_to(lo, lexer), all)?);
            }
        }
    }
}

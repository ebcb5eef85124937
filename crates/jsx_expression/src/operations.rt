//! Operators and assignments (ECMA-262 sections 13.4 to 13.15).

ghost use Rattle.std.specs.Prelude.{◌<◌, IfOk, OnOk, IsTrue, suc};
ghost use Rattle.jsx_tree.specs.Kinds.{Assign, OpAssign, Unary, Binary, Cond, expression, part, PrefixUpdate};
ghost use Rattle.jsx_tree.specs.View.{view_expr};
ghost use Rattle.jsx_tree.specs.ViewOperators.{assign_of, binary_of, unary_of, step_of};
ghost use Rattle.jsx_tree.specs.Told.{told_expr};
ghost use Rattle.jsx_tree.specs.Walk.{tail};
ghost use Rattle.jsx_tree.specs.Answers.{NoRow, Built, NoNode, BuiltNode};
ghost use Rattle.jsx_tree.specs.Grows.{as_target};
ghost use Rattle.jsx_operand.specs.Around.{around_of};
ghost use Rattle.jsx_operand.specs.SoFar.{so_far};
ghost use Rattle.jsx_token.specs.Marks.{row_so_far};
ghost use Rattle.jsx_token.specs.Here.{place_of, left};
ghost use Rattle.jsx_operand.specs.Answers.{Refused};
ghost use Rattle.jsx_token.specs.Growths.{closed, mark, opening_sign, settled};
ghost use Rattle.jsx_expression.specs.Covers.{IsAssigned, IsPlacedAssigned, NotAssigned};
ghost use Rattle.jsx_make.specs.NodeSpans.{expr_at};
ghost use Rattle.jsx_operand.specs.Spans.{Extends, IsPlacedBehind, IsPlacedOn, Spans};
ghost use Rattle.jsx_token.specs.Places.{begin_of, end_of};
ghost use Rattle.jsx_function.specs.Within.{ReadsWithin};
ghost use Rattle.jsx_operand.specs.Bodies.{ReadsBodies};

use crate::grammar::Expressions;
use jsx_function::MEMBER;
use jsx_make::make;
use jsx_operand::depth::behind_pattern;
use jsx_operand::operand::{ASSIGNMENT, deletes_name, is_target, start_of, target_of};
use jsx_operand::parser::{expect, give_up, span_to};
use jsx_operand::turn::turn;
use jsx_operand::{Body, Context, Cover, ParseError};
use jsx_token::{Fixed, Lexer, growth};
use jsx_tree::{AssignOp, BinaryOp, Expr, UnaryOp, UpdateOp};

/// The level of a unary expression.
const UNARY: u8 = 15;

impl<
    F: for<'c, 's> Fn(Context<'c>, &mut Lexer<'s>, u8, B) -> Result<Cover<'s>, ParseError>,
    B: Copy + for<'c, 's> Fn(Context<'c>, &mut Lexer<'s>) -> Result<Body<'s>, ParseError>,
> Expressions<F, B> {
    /// A conditional expression behind its `?`: `a ? b : c` (ECMA-262 section 13.14).
    pub(crate) fn conditional<'s>(
        &self,
        context: Context,
        lexer: &mut Lexer<'s>,
        test: Box<Expr<'s>>,
    ) -> Result<Box<Expr<'s>>, ParseError>
        requires nests { ReadsWithin (suc (left lexer.old)) (F.pre self.now.brackets.within.inner) (F.post self.now.brackets.within.inner) self.now.brackets.within.body }
        requires bodies { ReadsBodies (left lexer.old) (B.pre self.now.brackets.within.body) (B.post self.now.brackets.within.body) }
        ensures read { IfOk result (λ e. Built so_far (around_of context.entry.around) (tail (tail (row_so_far (expression Cond)))) (expression Cond) (part (view_expr test.entry.value)) (view_expr e.value) (place_of lexer.old) (place_of lexer.new)) }
        ensures span { IfOk result (λ e. Extends (expr_at test.entry.value) (expr_at e.value) (end_of lexer.new)) }
        ensures placed { IfOk result (λ e. IsPlacedOn (mark (expression Cond)) test.entry.value lexer.old e.value lexer.new) }
        ensures shorter { OnOk result (left lexer.new < left lexer.old) }
        ensures ended { OnOk result (IsTrue (closed (place_of lexer.new))) }
        ensures refused { Refused context.entry.levels result (NoRow so_far (around_of context.entry.around) (tail (tail (row_so_far (expression Cond)))) (place_of lexer.old)) }
    {
        let then = self.brackets.within.inner(context, lexer, ASSIGNMENT)?;
        expect(context, lexer, Fixed::Colon)?;
        let other = self.brackets.within.inner(context, lexer, ASSIGNMENT)?;
        let span = span_to(start_of(&test), lexer);
        Ok(make::conditional(context.alloc, span, test, then, other)?)
    }

    /// A binary expression behind its operator: `a + b` (ECMA-262 sections 13.6 to 13.13).
    pub(crate) fn binary<'s>(
        &self,
        context: Context,
        lexer: &mut Lexer<'s>,
        operator: BinaryOp,
        first: Box<Expr<'s>>,
    ) -> Result<Box<Expr<'s>>, ParseError>
        requires nests { ReadsWithin (suc (left lexer.old)) (F.pre self.now.brackets.within.inner) (F.post self.now.brackets.within.inner) self.now.brackets.within.body }
        requires bodies { ReadsBodies (left lexer.old) (B.pre self.now.brackets.within.body) (B.post self.now.brackets.within.body) }
        ensures read { IfOk result (λ e. Built so_far (around_of context.entry.around) (tail (tail (row_so_far (expression (Binary (binary_of operator)))))) (expression (Binary (binary_of operator))) (part (view_expr first.entry.value)) (view_expr e.value) (place_of lexer.old) (place_of lexer.new)) }
        ensures span { IfOk result (λ e. Extends (expr_at first.entry.value) (expr_at e.value) (end_of lexer.new)) }
        ensures placed { IfOk result (λ e. IsPlacedOn (mark (expression (Binary (binary_of operator)))) first.entry.value lexer.old e.value lexer.new) }
        ensures shorter { OnOk result (left lexer.new < left lexer.old) }
        ensures ended { OnOk result (IsTrue (settled (place_of lexer.new))) }
        ensures refused { Refused context.entry.levels result (NoRow so_far (around_of context.entry.around) (tail (tail (row_so_far (expression (Binary (binary_of operator)))))) (place_of lexer.old)) }
    {
        let right = self
            .brackets
            .within
            .inner(context, lexer, growth::right_level(operator))?;
        let span = span_to(start_of(&first), lexer);
        Ok(make::binary(context.alloc, span, operator, first, right)?)
    }

    /// An assignment behind its `=`: `a = b` (ECMA-262 section 13.15).
    pub(crate) fn assignment<'s>(
        &self,
        context: Context,
        lexer: &mut Lexer<'s>,
        first: Box<Expr<'s>>,
    ) -> Result<Box<Expr<'s>>, ParseError>
        requires nests { ReadsWithin (suc (left lexer.old)) (F.pre self.now.brackets.within.inner) (F.post self.now.brackets.within.inner) self.now.brackets.within.body }
        requires bodies { ReadsBodies (left lexer.old) (B.pre self.now.brackets.within.body) (B.post self.now.brackets.within.body) }
        ensures read { IfOk result (λ e. Built so_far (around_of context.entry.around) (tail (tail (row_so_far (expression Assign)))) (expression Assign) (part (as_target (view_expr first.entry.value))) (view_expr e.value) (place_of lexer.old) (place_of lexer.new)) }
        ensures span { IfOk result (λ e. Extends (expr_at first.entry.value) (expr_at e.value) (end_of lexer.new)) }
        ensures placed { IfOk result (λ e. IsPlacedOn (mark (expression Assign)) first.entry.value lexer.old e.value lexer.new) }
        ensures shorter { OnOk result (left lexer.new < left lexer.old) }
        ensures ended { OnOk result (IsTrue (closed (place_of lexer.new))) }
        ensures refused { Refused context.entry.levels result (NoRow so_far (around_of context.entry.around) (tail (tail (row_so_far (expression Assign)))) (place_of lexer.old)) }
    {
        let value = self.brackets.within.inner(context, lexer, ASSIGNMENT)?;
        let span = span_to(start_of(&first), lexer);
        let target = target_of(context.alloc, first)?;
        Ok(make::assign(context.alloc, span, target, value)?)
    }

    /// An assignment to a pattern behind its `=`: `[a] = b`, of the array or the object that was read before it (ECMA-262 section
    /// 13.15.5). It counts from the `=` on. It is kept out of the frame that each level of nesting takes.
    #[inline(never)]
    pub(crate) fn pattern_assignment<'s>(
        &self,
        context: Context,
        lexer: &mut Lexer<'s>,
        first: Cover<'s>,
    ) -> Result<Box<Expr<'s>>, ParseError>
        requires nests { ReadsWithin (suc (left lexer.old)) (F.pre self.now.brackets.within.inner) (F.post self.now.brackets.within.inner) self.now.brackets.within.body }
        requires bodies { ReadsBodies (left lexer.old) (B.pre self.now.brackets.within.body) (B.post self.now.brackets.within.body) }
        ensures read { IfOk result (λ e. IsAssigned (around_of context.entry.around) first.entry (view_expr e.value) (place_of lexer.old) (place_of lexer.new)) }
        ensures span { IfOk result (λ e. Extends (expr_at first.entry.expr.value) (expr_at e.value) (end_of lexer.new)) }
        ensures placed { IfOk result (λ e. IsPlacedAssigned first.entry lexer.old e.value lexer.new) }
        ensures shorter { OnOk result (left lexer.new < left lexer.old) }
        ensures ended { OnOk result (IsTrue (closed (place_of lexer.new))) }
        ensures refused { Refused context.entry.levels result (NotAssigned (around_of context.entry.around) first.entry (place_of lexer.old)) }
    {
        let lo = start_of(&first.expr);
        let target = turn(context.alloc, lexer.last_place(), first)?;
        let levels = behind_pattern(context, lexer, &target)?;
        let inside = Context { levels, ..context };
        let value = self.brackets.within.inner(inside, lexer, ASSIGNMENT)?;
        Ok(make::assign(context.alloc, span_to(lo, lexer), target, value)?)
    }

    /// An assignment with an operator, behind that: `a += b` (ECMA-262 section 13.15).
    pub(crate) fn operator_assignment<'s>(
        &self,
        context: Context,
        lexer: &mut Lexer<'s>,
        operator: AssignOp,
        first: Box<Expr<'s>>,
    ) -> Result<Box<Expr<'s>>, ParseError>
        requires nests { ReadsWithin (suc (left lexer.old)) (F.pre self.now.brackets.within.inner) (F.post self.now.brackets.within.inner) self.now.brackets.within.body }
        requires bodies { ReadsBodies (left lexer.old) (B.pre self.now.brackets.within.body) (B.post self.now.brackets.within.body) }
        ensures read { IfOk result (λ e. Built so_far (around_of context.entry.around) (tail (tail (row_so_far (expression (OpAssign (assign_of operator)))))) (expression (OpAssign (assign_of operator))) (part (as_target (view_expr first.entry.value))) (view_expr e.value) (place_of lexer.old) (place_of lexer.new)) }
        ensures span { IfOk result (λ e. Extends (expr_at first.entry.value) (expr_at e.value) (end_of lexer.new)) }
        ensures placed { IfOk result (λ e. IsPlacedOn (mark (expression (OpAssign (assign_of operator)))) first.entry.value lexer.old e.value lexer.new) }
        ensures shorter { OnOk result (left lexer.new < left lexer.old) }
        ensures ended { OnOk result (IsTrue (closed (place_of lexer.new))) }
        ensures refused { Refused context.entry.levels result (NoRow so_far (around_of context.entry.around) (tail (tail (row_so_far (expression (OpAssign (assign_of operator)))))) (place_of lexer.old)) }
    {
        let value = self.brackets.within.inner(context, lexer, ASSIGNMENT)?;
        let span = span_to(start_of(&first), lexer);
        let target = target_of(context.alloc, first)?;
        Ok(make::op_assign(context.alloc, span, operator, target, value)?)
    }

    /// A unary expression behind its operator: `-a` (ECMA-262 section 13.5). A name alone isn't deleted.
    pub(crate) fn unary<'s>(
        &self,
        context: Context,
        lexer: &mut Lexer<'s>,
        operator: UnaryOp,
    ) -> Result<Box<Expr<'s>>, ParseError>
        requires nests { ReadsWithin (suc (left lexer.old)) (F.pre self.now.brackets.within.inner) (F.post self.now.brackets.within.inner) self.now.brackets.within.body }
        requires bodies { ReadsBodies (left lexer.old) (B.pre self.now.brackets.within.body) (B.post self.now.brackets.within.body) }
        ensures read { IfOk result (λ e. BuiltNode so_far (around_of context.entry.around) (tail (row_so_far (expression (Unary (unary_of operator))))) (expression (Unary (unary_of operator))) (view_expr e.value) (place_of lexer.old) (place_of lexer.new)) }
        ensures span { IfOk result (λ e. Spans (expr_at e.value) (begin_of lexer.old) (end_of lexer.new)) }
        ensures placed { IfOk result (λ e. IsPlacedBehind (opening_sign (expression (Unary (unary_of operator)))) lexer.old (told_expr e.value) (view_expr e.value) lexer.new) }
        ensures shorter { OnOk result (left lexer.new < left lexer.old) }
        ensures ended { OnOk result (IsTrue (settled (place_of lexer.new))) }
        ensures refused { Refused context.entry.levels result (NoNode so_far (around_of context.entry.around) (tail (row_so_far (expression (Unary (unary_of operator))))) (expression (Unary (unary_of operator))) (place_of lexer.old)) }
    {
        let lo = lexer.last_place();
        let operand = self.brackets.within.inner(context, lexer, UNARY)?;
        if deletes_name(operator, &operand) {
            return Err(give_up(lexer));
        }
        Ok(make::unary(context.alloc, span_to(lo, lexer), operator, operand)?)
    }

    /// An update expression behind its operator: `++a` (ECMA-262 section 13.4).
    pub(crate) fn prefix_update<'s>(
        &self,
        context: Context,
        lexer: &mut Lexer<'s>,
        operator: UpdateOp,
    ) -> Result<Box<Expr<'s>>, ParseError>
        requires nests { ReadsWithin (suc (left lexer.old)) (F.pre self.now.brackets.within.inner) (F.post self.now.brackets.within.inner) self.now.brackets.within.body }
        requires bodies { ReadsBodies (left lexer.old) (B.pre self.now.brackets.within.body) (B.post self.now.brackets.within.body) }
        ensures read { IfOk result (λ e. Built so_far (around_of context.entry.around) (tail (row_so_far (expression (PrefixUpdate (step_of operator))))) (expression (PrefixUpdate (step_of operator))) (λ ts. ts) (view_expr e.value) (place_of lexer.old) (place_of lexer.new)) }
        ensures span { IfOk result (λ e. Spans (expr_at e.value) (begin_of lexer.old) (end_of lexer.new)) }
        ensures placed { IfOk result (λ e. IsPlacedBehind (opening_sign (expression (PrefixUpdate (step_of operator)))) lexer.old (told_expr e.value) (view_expr e.value) lexer.new) }
        ensures shorter { OnOk result (left lexer.new < left lexer.old) }
        ensures ended { OnOk result (IsTrue (settled (place_of lexer.new))) }
        ensures refused { Refused context.entry.levels result (NoRow so_far (around_of context.entry.around) (tail (row_so_far (expression (PrefixUpdate (step_of operator))))) (place_of lexer.old)) }
    {
        let lo = lexer.last_place();
        let operand = self.brackets.within.inner(context, lexer, MEMBER)?;
        if !is_target(&operand) {
            return Err(give_up(lexer));
        }
        let span = span_to(lo, lexer);
        let target = target_of(context.alloc, operand)?;
        Ok(make::prefix_update(context.alloc, span, operator, target)?)
    }
}

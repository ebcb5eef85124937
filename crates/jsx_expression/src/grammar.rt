//! Expressions, over the function that reads those within.

ghost use Rattle.std.specs.Prelude.{◌<◌, ◌≤◌, IfOk, OnOk, IsTrue, suc};
ghost use Rattle.jsx_tree.specs.Kinds.{New, expression};
ghost use Rattle.jsx_tree.specs.Nonterminals as grammar;
ghost use Rattle.jsx_tree.specs.Grammar.{Part};
ghost use Rattle.jsx_tree.specs.View.{view_expr};
ghost use Rattle.jsx_tree.specs.Told.{told_expr};
ghost use Rattle.jsx_tree.specs.Walk.{one};
ghost use Rattle.jsx_tree.specs.Answers.{Only, Barred};
ghost use Rattle.jsx_operand.specs.Openings.{OnlyOpened, NoneOpened};
ghost use Rattle.jsx_function.specs.Covers.{IsCover, IsPlacedCover, NoCover, Settles};
ghost use Rattle.jsx_member.specs.Covers.{IsPlacedCoverBehind, NoCoverOpened, OpensCover};
ghost use Rattle.jsx_expression.specs.Covers.{BeginsCover, IsOperand, NoCoverBegins, NoOperand};
ghost use Rattle.jsx_operand.specs.Around.{around_of};
ghost use Rattle.jsx_operand.specs.SoFar.{so_far};
ghost use Rattle.jsx_token.specs.Here.{place_of, left};
ghost use Rattle.jsx_operand.specs.Answers.{Refused};
ghost use Rattle.jsx_operand.specs.Climbing as climbing;
ghost use Rattle.jsx_operand.specs.Climbing.{Grown, NotGrown};
ghost use Rattle.jsx_operand.specs.Covers.{view_cover};
ghost use Rattle.jsx_token.specs.Growths.{growth_kind, is_level, level_of_kind, mark, opening_kind, opening_sign, closed, settled};
ghost use Rattle.jsx_make.specs.NodeSpans.{expr_at};
ghost use Rattle.jsx_operand.specs.Spans.{Extends, IsPlaced, IsPlacedBehind, IsPlacedOn, Spans};
ghost use Rattle.jsx_token.specs.Places.{begin_of, end_of, next_of};
ghost use Rattle.jsx_function.specs.Within.{ReadsWithin};
ghost use Rattle.jsx_operand.specs.Bodies.{ReadsBodies};

use jsx_make::make;
use jsx_member::Brackets;
use jsx_operand::cover::{is_before_arrow, is_literal, parameter_name, refuse_arrow, settle};
use jsx_operand::depth::{behind_expr, leave, measure, within};
use jsx_operand::operand::{
    ASSIGNMENT, fits, is_callee, member, postfix_update, primary, start_of,
};
use jsx_operand::parser::{expect, give_up, span_to};
use jsx_operand::{Body, Context, Cover, ParseError, operand};
use jsx_token::growth::Growth;
use jsx_token::{Fixed, Lexer, Opening, Word};
use jsx_tree::{Expr, Word as Constant};

/// The grammar of expressions, over the functions that read the expressions and the bodies within: each production is proved
/// alone.
#[derive(Clone, Copy)]
pub(crate) struct Expressions<F, B> {
    /// What stands within brackets and quotes, with what reads the expressions and the bodies there.
    pub(crate) brackets: Brackets<F, B>,
}

impl<
    F: for<'c, 's> Fn(Context<'c>, &mut Lexer<'s>, u8, B) -> Result<Cover<'s>, ParseError>,
    B: Copy + for<'c, 's> Fn(Context<'c>, &mut Lexer<'s>) -> Result<Body<'s>, ParseError>,
> Expressions<F, B> {
    /// What stands at a level or more, up to where it doesn't go on: `a.b(c) + d`. A template goes on with it at every level, and
    /// with the block of an arrow function nothing does.
    pub(crate) fn expression<'s>(
        &self,
        context: Context,
        lexer: &mut Lexer<'s>,
        level: u8,
    ) -> Result<Cover<'s>, ParseError>
        requires nests { ReadsWithin (left lexer.old) (F.pre self.now.brackets.within.inner) (F.post self.now.brackets.within.inner) self.now.brackets.within.body }
        requires bodies { ReadsBodies (left lexer.old) (B.pre self.now.brackets.within.body) (B.post self.now.brackets.within.body) }
        requires ranked { IsTrue (is_level level) }
        ensures read { IfOk result (λ c. IsCover (around_of context.entry.around) level (place_of lexer.old) c (place_of lexer.new)) }
        ensures span { IfOk result (λ c. Spans (expr_at c.expr.value) (next_of lexer.old) (end_of lexer.new)) }
        ensures placed { IfOk result (λ c. IsPlacedCover c lexer.old lexer.new) }
        ensures shorter { OnOk result (left lexer.new < left lexer.old) }
        ensures ended { OnOk result (IsTrue (closed (place_of lexer.new))) }
        ensures settles { OnOk result (Settles level (place_of lexer.new)) }
        ensures refused { Refused context.entry.levels result (NoCover (around_of context.entry.around) level (place_of lexer.old)) }
    {
        let outer = measure(context);
        let first = self.operand(context, lexer, level)?;
        if operand::level(&first.expr) < level {
            return Err(give_up(lexer));
        }
        if !first.is_expr {
            leave(context, outer);
            return Ok(first);
        }
        let mut may_turn = first.may_turn;
        let mut expr = first.expr;
        'steps: while !lexer.is_behind_block() {
            if lexer.is_before_template() {
                expr = self.brackets.tagged(context, lexer, expr)?;
            } else {
                let Some(growth) = lexer.growth(level) else {
                    refuse_arrow(lexer, level)?;
                    leave(context, outer);
                    return Ok(Cover::of(expr, may_turn));
                };
                if !fits(growth, &expr) {
                    return Err(give_up(lexer));
                }
                let levels = behind_expr(context, lexer, &expr)?;
                expr = self.grow(Context { levels, ..context }, lexer, growth, expr)?;
            }
            may_turn = true;
        }
        leave(context, outer);
        Ok(Cover::of(expr, may_turn))
    }

    /// What an expression of a level begins with: one that begins with no other, and at the level of assignments also an assignment
    /// to a pattern, or an arrow function without parentheses: `[a] = b`, `a => b` (ECMA-262 sections 13.15 and 15.3).
    pub(crate) fn operand<'s>(
        &self,
        context: Context,
        lexer: &mut Lexer<'s>,
        level: u8,
    ) -> Result<Cover<'s>, ParseError>
        requires nests { ReadsWithin (left lexer.old) (F.pre self.now.brackets.within.inner) (F.post self.now.brackets.within.inner) self.now.brackets.within.body }
        requires bodies { ReadsBodies (left lexer.old) (B.pre self.now.brackets.within.body) (B.post self.now.brackets.within.body) }
        requires ranked { IsTrue (is_level level) }
        ensures read { IfOk result (λ c. IsOperand (around_of context.entry.around) level (place_of lexer.old) c (place_of lexer.new)) }
        ensures span { IfOk result (λ c. Spans (expr_at c.expr.value) (next_of lexer.old) (end_of lexer.new)) }
        ensures placed { IfOk result (λ c. IsPlacedCover c lexer.old lexer.new) }
        ensures shorter { OnOk result (left lexer.new < left lexer.old) }
        ensures ended { OnOk result (IsTrue (closed (place_of lexer.new))) }
        ensures settles { IfOk result (λ c. Settles (climbing.level (view_cover c)) (place_of lexer.new)) }
        ensures refused { Refused context.entry.levels result (NoOperand (around_of context.entry.around) level (place_of lexer.old)) }
    {
        let mut first = self.beginning(context, lexer)?;
        if level > ASSIGNMENT {
            if !first.is_expr {
                return Err(give_up(lexer));
            }
            return Ok(first);
        }
        if is_literal(&first.expr) {
            if !lexer.take(Fixed::Equals) {
                return Ok(first);
            }
            let expr = self.pattern_assignment(context, lexer, first)?;
            return Ok(Cover::settled(expr));
        }
        if !is_before_arrow(lexer) {
            return Ok(first);
        }
        let lo = start_of(&first.expr);
        let Some(parameter) = parameter_name(&mut first.expr) else {
            return Ok(first);
        };
        let expr = self.bare_arrow(context, lexer, lo, parameter)?;
        Ok(Cover::settled(expr))
    }

    /// An expression that begins with no other. One that begins with a sign counts from that on.
    #[cycle(beginning)]
    pub(crate) fn beginning<'s>(
        &self,
        context: Context,
        lexer: &mut Lexer<'s>,
    ) -> Result<Cover<'s>, ParseError>
        requires nests { ReadsWithin (left lexer.old) (F.pre self.now.brackets.within.inner) (F.post self.now.brackets.within.inner) self.now.brackets.within.body }
        requires bodies { ReadsBodies (left lexer.old) (B.pre self.now.brackets.within.body) (B.post self.now.brackets.within.body) }
        ensures read { IfOk result (λ c. BeginsCover (around_of context.entry.around) (place_of lexer.old) c (place_of lexer.new)) }
        ensures span { IfOk result (λ c. Spans (expr_at c.expr.value) (next_of lexer.old) (end_of lexer.new)) }
        ensures placed { IfOk result (λ c. IsPlacedCover c lexer.old lexer.new) }
        ensures shorter { OnOk result (left lexer.new < left lexer.old) }
        ensures ended { OnOk result (IsTrue (closed (place_of lexer.new))) }
        ensures settles { IfOk result (λ c. Settles (climbing.level (view_cover c)) (place_of lexer.new)) }
        ensures refused { Refused context.entry.levels result (NoCoverBegins (around_of context.entry.around) (place_of lexer.old)) }
    {
        if let Some(opening) = lexer.opening() {
            let levels = within(context, lexer)?;
            return Ok(self.open(Context { levels, ..context }, lexer, opening)?);
        }
        if lexer.is_before_template() {
            return Ok(Cover::settled(self.brackets.untagged(context, lexer)?));
        }
        Ok(Cover::settled(primary(context, lexer)?))
    }

    /// What an expression is, behind its first token, with the levels within it. It is kept out of the frame that each level of calls takes.
    #[cycle(beginning)]
    #[inline(never)]
    pub(crate) fn open<'s>(
        &self,
        context: Context,
        lexer: &mut Lexer<'s>,
        opening: Opening,
    ) -> Result<Cover<'s>, ParseError>
        requires nests { ReadsWithin (suc (left lexer.old)) (F.pre self.now.brackets.within.inner) (F.post self.now.brackets.within.inner) self.now.brackets.within.body }
        requires bodies { ReadsBodies (left lexer.old) (B.pre self.now.brackets.within.body) (B.post self.now.brackets.within.body) }
        ensures read { IfOk result (λ c. OpensCover (around_of context.entry.around) (opening_sign (opening_kind opening)) c (place_of lexer.old) (place_of lexer.new)) }
        ensures span { IfOk result (λ c. Spans (expr_at c.expr.value) (begin_of lexer.old) (end_of lexer.new)) }
        ensures placed { IfOk result (λ c. IsPlacedCoverBehind (opening_sign (opening_kind opening)) lexer.old c lexer.new) }
        ensures shorter { OnOk result (left lexer.new < left lexer.old) }
        ensures ended { OnOk result (IsTrue (closed (place_of lexer.new))) }
        ensures settles { IfOk result (λ c. Settles (climbing.level (view_cover c)) (place_of lexer.new)) }
        ensures refused { Refused context.entry.levels result (NoCoverOpened (around_of context.entry.around) (opening_sign (opening_kind opening)) (place_of lexer.old)) }
    {
        match opening {
            Opening::Import => Ok(Cover::settled(self.brackets.import(context, lexer)?)),
            Opening::New => Ok(Cover::settled(self.new_expression(context, lexer)?)),
            Opening::Paren => Ok(Cover::settled(self.parenthesized(context, lexer)?)),
            Opening::Array => Ok(self.brackets.array(context, lexer)?),
            Opening::Object => Ok(self.brackets.object(context, lexer)?),
            Opening::Function => Ok(Cover::settled(
                self.brackets.within.function_expression(context, lexer)?,
            )),
            Opening::Class => Ok(Cover::settled(
                self.brackets.within.class_expression(context, lexer)?,
            )),
            Opening::Super => Ok(Cover::settled(self.brackets.super_expression(context, lexer)?)),
            Opening::Unary(operator) => {
                Ok(Cover::settled(self.unary(context, lexer, operator)?))
            }
            Opening::Update(operator) => {
                Ok(Cover::settled(self.prefix_update(context, lexer, operator)?))
            }
        }
    }

    /// What begins with `new`, behind that: what is made, with its arguments or without, or `new.target`, which stands in
    /// functions alone (ECMA-262 sections 13.3.5 and 13.3.12). It is kept out of the frame of what opens an expression.
    #[cycle(beginning)]
    #[inline(never)]
    pub(crate) fn new_expression<'s>(
        &self,
        context: Context,
        lexer: &mut Lexer<'s>,
    ) -> Result<Box<Expr<'s>>, ParseError>
        requires nests { ReadsWithin (suc (left lexer.old)) (F.pre self.now.brackets.within.inner) (F.post self.now.brackets.within.inner) self.now.brackets.within.body }
        requires bodies { ReadsBodies (left lexer.old) (B.pre self.now.brackets.within.body) (B.post self.now.brackets.within.body) }
        ensures read { IfOk result (λ e. OnlyOpened (around_of context.entry.around) (opening_sign (expression New)) (view_expr e.value) (place_of lexer.old) (place_of lexer.new)) }
        ensures span { IfOk result (λ e. Spans (expr_at e.value) (begin_of lexer.old) (end_of lexer.new)) }
        ensures placed { IfOk result (λ e. IsPlacedBehind (opening_sign (expression New)) lexer.old (told_expr e.value) (view_expr e.value) lexer.new) }
        ensures shorter { OnOk result (left lexer.new < left lexer.old) }
        ensures ended { OnOk result (IsTrue (settled (place_of lexer.new))) }
        ensures refused { Refused context.entry.levels result (NoneOpened (around_of context.entry.around) (opening_sign (expression New)) (place_of lexer.old)) }
    {
        let lo = lexer.last_place();
        if lexer.take(Fixed::Dot) {
            expect(context, lexer, Fixed::Word(Word::Target))?;
            if !context.around.has_target {
                return Err(give_up(lexer));
            }
            return Ok(make::constant(context.alloc, span_to(lo, lexer), Constant::NewTarget)?);
        }
        let callee = self.callee(context, lexer)?;
        if !lexer.take(Fixed::Open) {
            return Ok(make::new_without_arguments(context.alloc, span_to(lo, lexer), callee)?);
        }
        let all = self.brackets.arguments(context, lexer)?;
        Ok(make::new_with_arguments(context.alloc, span_to(lo, lexer), callee, all)?)
    }

    /// What `new` stands before: an expression with members, but no call outside of parentheses (ECMA-262 section 13.3.5).
    #[cycle(beginning)]
    pub(crate) fn callee<'s>(
        &self,
        context: Context,
        lexer: &mut Lexer<'s>,
    ) -> Result<Box<Expr<'s>>, ParseError>
        requires nests { ReadsWithin (suc (left lexer.old)) (F.pre self.now.brackets.within.inner) (F.post self.now.brackets.within.inner) self.now.brackets.within.body }
        requires bodies { ReadsBodies (left lexer.old) (B.pre self.now.brackets.within.body) (B.post self.now.brackets.within.body) }
        ensures read { IfOk result (λ e. Only so_far (around_of context.entry.around) (Part grammar.NewCallee) (place_of lexer.old) (one (view_expr e.value)) (place_of lexer.new)) }
        ensures placed { IfOk result (λ e. IsPlaced (told_expr e.value) (view_expr e.value) lexer.old lexer.new) }
        ensures shorter { OnOk result (left lexer.new < left lexer.old) }
        ensures ended { OnOk result (IsTrue (settled (place_of lexer.new))) }
        ensures refused { Refused context.entry.levels result (Barred so_far (around_of context.entry.around) (Part grammar.NewCallee) (place_of lexer.old)) }
    {
        let outer = measure(context);
        let first = self.beginning(context, lexer)?;
        let mut expr = settle(first, lexer)?;
        if !is_callee(&expr) {
            return Err(give_up(lexer));
        }
        'members: loop {
            if lexer.is_before_template() {
                expr = self.brackets.tagged(context, lexer, expr)?;
            } else {
                let Some(growth) = lexer.member_growth() else {
                    leave(context, outer);
                    return Ok(expr);
                };
                if !fits(growth, &expr) {
                    return Err(give_up(lexer));
                }
                let levels = behind_expr(context, lexer, &expr)?;
                expr = self.grow(Context { levels, ..context }, lexer, growth, expr)?;
            }
        }
    }

    /// What goes on with an expression, behind its first token, from which on it counts: its levels are those within it. It has no frame of its
    /// own.
    #[inline(always)]
    pub(crate) fn grow<'s>(
        &self,
        context: Context,
        lexer: &mut Lexer<'s>,
        growth: Growth,
        first: Box<Expr<'s>>,
    ) -> Result<Box<Expr<'s>>, ParseError>
        requires nests { ReadsWithin (suc (left lexer.old)) (F.pre self.now.brackets.within.inner) (F.post self.now.brackets.within.inner) self.now.brackets.within.body }
        requires bodies { ReadsBodies (left lexer.old) (B.pre self.now.brackets.within.body) (B.post self.now.brackets.within.body) }
        requires settled { IsTrue (settled (place_of lexer.old)) }
        ensures read { IfOk result (λ e. Grown (around_of context.entry.around) (growth_kind growth) (view_expr first.entry.value) (place_of lexer.old) (view_expr e.value) (place_of lexer.new)) }
        ensures span { IfOk result (λ e. Extends (expr_at first.entry.value) (expr_at e.value) (end_of lexer.new)) }
        ensures placed { IfOk result (λ e. IsPlacedOn (mark (growth_kind growth)) first.entry.value lexer.old e.value lexer.new) }
        ensures within { OnOk result (left lexer.new ≤ left lexer.old) }
        ensures ended { OnOk result (IsTrue (closed (place_of lexer.new))) }
        ensures settles { OnOk result (Settles (level_of_kind (growth_kind growth)) (place_of lexer.new)) }
        ensures refused { Refused context.entry.levels result (NotGrown (around_of context.entry.around) (growth_kind growth) (place_of lexer.old)) }
    {
        match growth {
            Growth::Binary(operator) => Ok(self.binary(context, lexer, operator, first)?),
            Growth::Assign => Ok(self.assignment(context, lexer, first)?),
            Growth::OpAssign(operator) => Ok(self.operator_assignment(
                context, lexer, operator, first,
            )?),
            Growth::Cond => Ok(self.conditional(context, lexer, first)?),
            Growth::Call => Ok(self.brackets.call(context, lexer, first)?),
            Growth::Member => Ok(member(context, lexer, first)?),
            Growth::Index => Ok(self.brackets.index(context, lexer, first)?),
            Growth::Chain => Ok(self.brackets.chain(context, lexer, first)?),
            Growth::Update(operator) => Ok(postfix_update(context, lexer, operator, first)?),
        }
    }
}

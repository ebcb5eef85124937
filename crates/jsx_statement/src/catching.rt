//! `try` (ECMA-262 section 14.15).

ghost use Rattle.std.specs.Prelude.{◌<◌, ◌≤◌, IfOk, OnOk};
ghost use Rattle.jsx_tree.specs.Kinds.{statement, Try};
ghost use Rattle.jsx_tree.specs.Nonterminals as grammar;
ghost use Rattle.jsx_tree.specs.Grammar.{Part, pun};
ghost use Rattle.jsx_tree.specs.View.{optional_of, view_control, view_stmt};
ghost use Rattle.jsx_tree.specs.Told.{told_control, told_optional, told_stmt};
ghost use Rattle.jsx_tree.specs.Walk.{one, tail};
ghost use Rattle.jsx_tree.specs.Answers.{Only, Barred, NoRow, NoNode, BuiltNode};
ghost use Rattle.jsx_operand.specs.Around.{around_of};
ghost use Rattle.jsx_token.specs.Marks.{row_so_far};
ghost use Rattle.jsx_operand.specs.SoFar.{so_far};
ghost use Rattle.jsx_token.specs.Here.{place_of, left};
ghost use Rattle.jsx_token.specs.Growths.{opening_sign};
ghost use Rattle.jsx_statement.specs.Tries.{IsCatch, catch_row, catch_symbol, catch_symbols, finally_symbol, finally_symbols};
ghost use Rattle.jsx_operand.specs.Answers.{Refused};
ghost use Rattle.jsx_make.specs.NodeSpans.{stmt_at};
ghost use Rattle.jsx_operand.specs.Spans.{IsPlaced, IsPlacedBehind, IsPlacedFront, Spans};
ghost use Rattle.jsx_token.specs.Places.{begin_of, end_of};
ghost use Rattle.std.specs.Prelude.{suc};
ghost use Rattle.jsx_statement.specs.Within.{ReadsStatements};
ghost use Rattle.jsx_operand.specs.Bodies.{ReadsBodies};

use crate::grammar::Statements;
use crate::statement::Seat;
use jsx_declaration::statement::has_part;
use jsx_expression::function::binding;
use jsx_make::make;
use jsx_operand::depth::within;
use jsx_operand::{Body, Context, ParseError, expect, give_up, span_to};
use jsx_token::{Fixed, Lexer, Word};
use jsx_tree::{Control, Stmt};

impl<
    F: for<'c, 's> Fn(Context<'c>, &mut Lexer<'s>, Seat) -> Result<Box<Stmt<'s>>, ParseError>,
    B: Copy + for<'c, 's> Fn(Context<'c>, &mut Lexer<'s>) -> Result<Body<'s>, ParseError>,
> Statements<F, B> {
    /// A block where nothing else may stand: `{ a; }`.
    pub(crate) fn block_only<'s>(
        &self,
        context: Context,
        lexer: &mut Lexer<'s>,
    ) -> Result<Box<Stmt<'s>>, ParseError>
        requires nests { ReadsStatements (suc (left lexer.old)) (F.pre self.now.inner) (F.post self.now.inner) }
        requires bodies { ReadsBodies (left lexer.old) (B.pre self.now.body) (B.post self.now.body) }
        ensures read { IfOk result (λ s. Only so_far (around_of context.entry.around) (Part grammar.BlockOnly) (place_of lexer.old) (one (view_stmt s.value)) (place_of lexer.new)) }
        ensures placed { IfOk result (λ s. IsPlaced (told_stmt s.value) (view_stmt s.value) lexer.old lexer.new) }
        ensures shorter { OnOk result (left lexer.new < left lexer.old) }
        ensures refused { Refused context.entry.levels result (Barred so_far (around_of context.entry.around) (Part grammar.BlockOnly) (place_of lexer.old)) }
    {
        expect(context, lexer, Fixed::OpenBrace)?;
        let levels = within(context, lexer)?;
        Ok(self.block(Context { levels, ..context }, lexer)?)
    }

    /// What is caught, behind the `(` of its name or its pattern: `(a) { b; }`.
    pub(crate) fn catch_name<'s>(
        &self,
        context: Context,
        lexer: &mut Lexer<'s>,
    ) -> Result<Box<Control<'s>>, ParseError>
        requires nests { ReadsStatements (suc (left lexer.old)) (F.pre self.now.inner) (F.post self.now.inner) }
        requires bodies { ReadsBodies (left lexer.old) (B.pre self.now.body) (B.post self.now.body) }
        ensures read { IfOk result (λ s. IsCatch (around_of context.entry.around) (place_of lexer.old) (view_control s.value) (place_of lexer.new)) }
        ensures placed { IfOk result (λ s. IsPlacedBehind (pun "(") lexer.old (told_control s.value) (view_control s.value) lexer.new) }
        ensures shorter { OnOk result (left lexer.new < left lexer.old) }
        ensures refused { Refused context.entry.levels result (NoRow so_far (around_of context.entry.around) catch_row (place_of lexer.old)) }
    {
        let lo = lexer.last_place();
        let name = binding(context, lexer, self.body)?;
        expect(context, lexer, Fixed::Close)?;
        let body = self.block_only(context, lexer)?;
        let span = span_to(lo, lexer);
        Ok(make::catch_clause(context.alloc, span, Some(name), body)?)
    }

    /// What is caught, behind `catch`: `(a) { b; }`, or `{ b; }`.
    pub(crate) fn catch_clause<'s>(
        &self,
        context: Context,
        lexer: &mut Lexer<'s>,
    ) -> Result<Box<Control<'s>>, ParseError>
        requires nests { ReadsStatements (suc (left lexer.old)) (F.pre self.now.inner) (F.post self.now.inner) }
        requires bodies { ReadsBodies (left lexer.old) (B.pre self.now.body) (B.post self.now.body) }
        ensures read { IfOk result (λ s. Only so_far (around_of context.entry.around) (Part grammar.CatchClause) (place_of lexer.old) (one (view_control s.value)) (place_of lexer.new)) }
        ensures placed { IfOk result (λ s. IsPlaced (told_control s.value) (view_control s.value) lexer.old lexer.new) }
        ensures shorter { OnOk result (left lexer.new < left lexer.old) }
        ensures refused { Refused context.entry.levels result (Barred so_far (around_of context.entry.around) (Part grammar.CatchClause) (place_of lexer.old)) }
    {
        if lexer.take(Fixed::Open) {
            return Ok(self.catch_name(context, lexer)?);
        }
        expect(context, lexer, Fixed::OpenBrace)?;
        let lo = lexer.last_place();
        let levels = within(context, lexer)?;
        let body = self.block(Context { levels, ..context }, lexer)?;
        let span = span_to(lo, lexer);
        Ok(make::catch_clause(context.alloc, span, None, body)?)
    }

    /// What a `try` catches: `catch (a) { b; }`, or nothing.
    pub(crate) fn catch_part<'s>(
        &self,
        context: Context,
        lexer: &mut Lexer<'s>,
    ) -> Result<Option<Box<Control<'s>>>, ParseError>
        requires nests { ReadsStatements (suc (left lexer.old)) (F.pre self.now.inner) (F.post self.now.inner) }
        requires bodies { ReadsBodies (left lexer.old) (B.pre self.now.body) (B.post self.now.body) }
        ensures read { IfOk result (λ o. Only so_far (around_of context.entry.around) catch_symbol (place_of lexer.old) (one (optional_of view_control o)) (place_of lexer.new)) }
        ensures placed { IfOk result (λ o. IsPlacedFront catch_symbols (told_optional told_control o) (optional_of view_control o) lexer.old lexer.new) }
        ensures within { OnOk result (left lexer.new ≤ left lexer.old) }
        ensures refused { Refused context.entry.levels result (Barred so_far (around_of context.entry.around) catch_symbol (place_of lexer.old)) }
    {
        if !lexer.take(Fixed::Word(Word::Catch)) {
            return Ok(None);
        }
        let handler = self.catch_clause(context, lexer)?;
        Ok(Some(handler))
    }

    /// What a `try` does last: `finally { a; }`, or nothing.
    pub(crate) fn finally_part<'s>(
        &self,
        context: Context,
        lexer: &mut Lexer<'s>,
    ) -> Result<Option<Box<Stmt<'s>>>, ParseError>
        requires nests { ReadsStatements (suc (left lexer.old)) (F.pre self.now.inner) (F.post self.now.inner) }
        requires bodies { ReadsBodies (left lexer.old) (B.pre self.now.body) (B.post self.now.body) }
        ensures read { IfOk result (λ o. Only so_far (around_of context.entry.around) finally_symbol (place_of lexer.old) (one (optional_of view_stmt o)) (place_of lexer.new)) }
        ensures placed { IfOk result (λ o. IsPlacedFront finally_symbols (told_optional told_stmt o) (optional_of view_stmt o) lexer.old lexer.new) }
        ensures within { OnOk result (left lexer.new ≤ left lexer.old) }
        ensures refused { Refused context.entry.levels result (Barred so_far (around_of context.entry.around) finally_symbol (place_of lexer.old)) }
    {
        if !lexer.take(Fixed::Word(Word::Finally)) {
            return Ok(None);
        }
        let block = self.block_only(context, lexer)?;
        Ok(Some(block))
    }

    /// A `try` statement behind its word: `try { a; } catch (b) { c; } finally { d; }`, with one of the two parts or both (ECMA-262
    /// section 14.15).
    pub(crate) fn try_statement<'s>(
        &self,
        context: Context,
        lexer: &mut Lexer<'s>,
    ) -> Result<Box<Stmt<'s>>, ParseError>
        requires nests { ReadsStatements (suc (left lexer.old)) (F.pre self.now.inner) (F.post self.now.inner) }
        requires bodies { ReadsBodies (left lexer.old) (B.pre self.now.body) (B.post self.now.body) }
        ensures read { IfOk result (λ s. BuiltNode so_far (around_of context.entry.around) (tail (row_so_far (statement Try))) (statement Try) (view_stmt s.value) (place_of lexer.old) (place_of lexer.new)) }
        ensures span { IfOk result (λ s. Spans (stmt_at s.value) (begin_of lexer.old) (end_of lexer.new)) }
        ensures placed { IfOk result (λ s. IsPlacedBehind (opening_sign (statement Try)) lexer.old (told_stmt s.value) (view_stmt s.value) lexer.new) }
        ensures within { OnOk result (left lexer.new ≤ left lexer.old) }
        ensures refused { Refused context.entry.levels result (NoNode so_far (around_of context.entry.around) (tail (row_so_far (statement Try))) (statement Try) (place_of lexer.old)) }
    {
        let lo = lexer.last_place();
        let body = self.block_only(context, lexer)?;
        let handler = self.catch_part(context, lexer)?;
        let finalizer = self.finally_part(context, lexer)?;
        if !has_part(&handler, &finalizer) {
            return Err(give_up(lexer));
        }
        let span = span_to(lo, lexer);
        Ok(make::try_statement(context.alloc, span, body, handler, finalizer)?)
    }
}

//! `if` and loops (ECMA-262 sections 14.6 and 14.7).

ghost use Rattle.std.specs.Prelude.{◌≤◌, IfOk, OnOk};
ghost use Rattle.jsx_tree.specs.Kinds.{If, Do, While, For, statement, none, part};
ghost use Rattle.jsx_tree.specs.View.{optional_of, view_stmt};
ghost use Rattle.jsx_tree.specs.Spans.{no_tales, tale};
ghost use Rattle.jsx_tree.specs.Told.{told_optional, told_stmt};
ghost use Rattle.jsx_tree.specs.Walk.{tail};
ghost use Rattle.jsx_tree.specs.Answers.{OnlyRow, NoRow, NoNode, BuiltNode};
ghost use Rattle.jsx_operand.specs.Around.{around_of};
ghost use Rattle.jsx_token.specs.Marks.{row_so_far};
ghost use Rattle.jsx_operand.specs.SoFar.{so_far};
ghost use Rattle.jsx_token.specs.Here.{place_of, left};
ghost use Rattle.jsx_token.specs.Growths.{opening_sign};
ghost use Rattle.jsx_statement.specs.Statements.{Closes, alternative_row, alternative_symbols, loop_row, loop_symbols, NoneHeaded, OnlyHeaded};
ghost use Rattle.jsx_token.specs.declared.heading.Heading.TheVariants as headings;
ghost use Rattle.jsx_operand.specs.Answers.{Refused};
ghost use Rattle.jsx_make.specs.NodeSpans.{stmt_at};
ghost use Rattle.jsx_operand.specs.Spans.{IsPlacedBehind, IsPlacedRow, Spans};
ghost use Rattle.jsx_token.specs.Places.{begin_of, end_of};
ghost use Rattle.std.specs.Prelude.{suc};
ghost use Rattle.jsx_statement.specs.Within.{ReadsStatements};
ghost use Rattle.jsx_operand.specs.Bodies.{ReadsBodies};

use crate::grammar::Statements;
use crate::statement::Seat;
use jsx_declaration::for_head::{ForHead, clause, head};
use jsx_expression::expression::{expression, sequence};
use jsx_make::make;
use jsx_operand::operand::ASSIGNMENT;
use jsx_operand::{Body, Context, ParseError, expect, semicolon, span_to};
use jsx_token::{Ending, Fixed, Lexer, Word};
use jsx_tree::Stmt;

impl<
    F: for<'c, 's> Fn(Context<'c>, &mut Lexer<'s>, Seat) -> Result<Box<Stmt<'s>>, ParseError>,
    B: Copy + for<'c, 's> Fn(Context<'c>, &mut Lexer<'s>) -> Result<Body<'s>, ParseError>,
> Statements<F, B> {
    /// What an `if` has behind its first statement: `else a`, or nothing.
    pub(crate) fn alternative<'s>(
        &self,
        context: Context,
        lexer: &mut Lexer<'s>,
    ) -> Result<Option<Box<Stmt<'s>>>, ParseError>
        requires nests { ReadsStatements (suc (left lexer.old)) (F.pre self.now.inner) (F.post self.now.inner) }
        requires bodies { ReadsBodies (left lexer.old) (B.pre self.now.body) (B.post self.now.body) }
        ensures read { IfOk result (λ o. OnlyRow so_far (around_of context.entry.around) alternative_row (place_of lexer.old) (part (optional_of view_stmt o) none) (place_of lexer.new)) }
        ensures closed { IfOk result (λ o. Closes o (place_of lexer.old)) }
        ensures placed { IfOk result (λ o. IsPlacedRow alternative_symbols (tale (told_optional told_stmt o) no_tales) (part (optional_of view_stmt o) none) lexer.old lexer.new) }
        ensures within { OnOk result (left lexer.new ≤ left lexer.old) }
        ensures refused { Refused context.entry.levels result (NoRow so_far (around_of context.entry.around) alternative_row (place_of lexer.old)) }
    {
        if !lexer.take(Fixed::Word(Word::Else)) {
            return Ok(None);
        }
        let other = self.nested(context, lexer)?;
        Ok(Some(other))
    }

    /// An `if` statement behind its word: `if (a) b; else c;` (ECMA-262 section 14.6).
    pub(crate) fn if_statement<'s>(
        &self,
        context: Context,
        lexer: &mut Lexer<'s>,
    ) -> Result<Box<Stmt<'s>>, ParseError>
        requires nests { ReadsStatements (suc (left lexer.old)) (F.pre self.now.inner) (F.post self.now.inner) }
        requires bodies { ReadsBodies (left lexer.old) (B.pre self.now.body) (B.post self.now.body) }
        ensures read { IfOk result (λ s. BuiltNode so_far (around_of context.entry.around) (tail (row_so_far (statement If))) (statement If) (view_stmt s.value) (place_of lexer.old) (place_of lexer.new)) }
        ensures span { IfOk result (λ s. Spans (stmt_at s.value) (begin_of lexer.old) (end_of lexer.new)) }
        ensures placed { IfOk result (λ s. IsPlacedBehind (opening_sign (statement If)) lexer.old (told_stmt s.value) (view_stmt s.value) lexer.new) }
        ensures within { OnOk result (left lexer.new ≤ left lexer.old) }
        ensures refused { Refused context.entry.levels result (NoNode so_far (around_of context.entry.around) (tail (row_so_far (statement If))) (statement If) (place_of lexer.old)) }
    {
        let lo = lexer.last_place();
        expect(context, lexer, Fixed::Open)?;
        let test = sequence(context, lexer, self.body)?;
        expect(context, lexer, Fixed::Close)?;
        let then = self.nested(context, lexer)?;
        let other = self.alternative(context, lexer)?;
        let span = span_to(lo, lexer);
        Ok(make::if_statement(context.alloc, span, test, then, other)?)
    }

    /// A loop behind its word: `do a; while (b);` (ECMA-262 section 14.7.2).
    pub(crate) fn do_statement<'s>(
        &self,
        context: Context,
        lexer: &mut Lexer<'s>,
    ) -> Result<Box<Stmt<'s>>, ParseError>
        requires nests { ReadsStatements (suc (left lexer.old)) (F.pre self.now.inner) (F.post self.now.inner) }
        requires bodies { ReadsBodies (left lexer.old) (B.pre self.now.body) (B.post self.now.body) }
        ensures read { IfOk result (λ s. BuiltNode so_far (around_of context.entry.around) (tail (row_so_far (statement Do))) (statement Do) (view_stmt s.value) (place_of lexer.old) (place_of lexer.new)) }
        ensures span { IfOk result (λ s. Spans (stmt_at s.value) (begin_of lexer.old) (end_of lexer.new)) }
        ensures placed { IfOk result (λ s. IsPlacedBehind (opening_sign (statement Do)) lexer.old (told_stmt s.value) (view_stmt s.value) lexer.new) }
        ensures within { OnOk result (left lexer.new ≤ left lexer.old) }
        ensures refused { Refused context.entry.levels result (NoNode so_far (around_of context.entry.around) (tail (row_so_far (statement Do))) (statement Do) (place_of lexer.old)) }
    {
        let lo = lexer.last_place();
        let context = context.of_loop();
        let body = self.nested(context, lexer)?;
        expect(context, lexer, Fixed::Word(Word::While))?;
        expect(context, lexer, Fixed::Open)?;
        let test = sequence(context, lexer, self.body)?;
        expect(context, lexer, Fixed::Close)?;
        lexer.ends(Ending::Do);
        semicolon(context, lexer)?;
        let span = span_to(lo, lexer);
        Ok(make::do_statement(context.alloc, span, body, test)?)
    }

    /// A loop behind its word: `while (a) b;` (ECMA-262 section 14.7.3).
    pub(crate) fn while_statement<'s>(
        &self,
        context: Context,
        lexer: &mut Lexer<'s>,
    ) -> Result<Box<Stmt<'s>>, ParseError>
        requires nests { ReadsStatements (suc (left lexer.old)) (F.pre self.now.inner) (F.post self.now.inner) }
        requires bodies { ReadsBodies (left lexer.old) (B.pre self.now.body) (B.post self.now.body) }
        ensures read { IfOk result (λ s. BuiltNode so_far (around_of context.entry.around) (tail (row_so_far (statement While))) (statement While) (view_stmt s.value) (place_of lexer.old) (place_of lexer.new)) }
        ensures span { IfOk result (λ s. Spans (stmt_at s.value) (begin_of lexer.old) (end_of lexer.new)) }
        ensures placed { IfOk result (λ s. IsPlacedBehind (opening_sign (statement While)) lexer.old (told_stmt s.value) (view_stmt s.value) lexer.new) }
        ensures within { OnOk result (left lexer.new ≤ left lexer.old) }
        ensures refused { Refused context.entry.levels result (NoNode so_far (around_of context.entry.around) (tail (row_so_far (statement While))) (statement While) (place_of lexer.old)) }
    {
        let lo = lexer.last_place();
        expect(context, lexer, Fixed::Open)?;
        let test = sequence(context, lexer, self.body)?;
        expect(context, lexer, Fixed::Close)?;
        let body = self.nested(context.of_loop(), lexer)?;
        let span = span_to(lo, lexer);
        Ok(make::while_statement(context.alloc, span, test, body)?)
    }

    /// The body of a `for`-`in` or `for`-`of`, with the `)` before it.
    pub(crate) fn for_body<'s>(
        &self,
        context: Context,
        lexer: &mut Lexer<'s>,
    ) -> Result<Box<Stmt<'s>>, ParseError>
        requires nests { ReadsStatements (suc (left lexer.old)) (F.pre self.now.inner) (F.post self.now.inner) }
        requires bodies { ReadsBodies (left lexer.old) (B.pre self.now.body) (B.post self.now.body) }
        ensures read { IfOk result (λ s. OnlyRow so_far (around_of context.entry.around) loop_row (place_of lexer.old) (part (view_stmt s.value) none) (place_of lexer.new)) }
        ensures placed { IfOk result (λ s. IsPlacedRow loop_symbols (tale (told_stmt s.value) no_tales) (part (view_stmt s.value) none) lexer.old lexer.new) }
        ensures within { OnOk result (left lexer.new ≤ left lexer.old) }
        ensures refused { Refused context.entry.levels result (NoRow so_far (around_of context.entry.around) loop_row (place_of lexer.old)) }
    {
        expect(context, lexer, Fixed::Close)?;
        Ok(self.nested(context.of_loop(), lexer)?)
    }

    /// A loop behind its word: `for (let a = 1; a < b; a += 1) c;` (ECMA-262 section 14.7.4), `for (a in b) c;`, or `for (a of b) c;`
    /// (section 14.7.5).
    pub(crate) fn for_statement<'s>(
        &self,
        context: Context,
        lexer: &mut Lexer<'s>,
    ) -> Result<Box<Stmt<'s>>, ParseError>
        requires nests { ReadsStatements (suc (left lexer.old)) (F.pre self.now.inner) (F.post self.now.inner) }
        requires bodies { ReadsBodies (left lexer.old) (B.pre self.now.body) (B.post self.now.body) }
        ensures read { IfOk result (λ s. OnlyHeaded (around_of context.entry.around) headings.For (view_stmt s.value) (place_of lexer.old) (place_of lexer.new)) }
        ensures span { IfOk result (λ s. Spans (stmt_at s.value) (begin_of lexer.old) (end_of lexer.new)) }
        ensures placed { IfOk result (λ s. IsPlacedBehind (opening_sign (statement For)) lexer.old (told_stmt s.value) (view_stmt s.value) lexer.new) }
        ensures within { OnOk result (left lexer.new ≤ left lexer.old) }
        ensures refused { Refused context.entry.levels result (NoneHeaded (around_of context.entry.around) headings.For (place_of lexer.old)) }
    {
        let lo = lexer.last_place();
        expect(context, lexer, Fixed::Open)?;
        let begun = head(context, lexer, self.body)?;
        match begun {
            ForHead::Initial(init) => {
                let test = clause(context, lexer, Fixed::Semicolon, self.body)?;
                let update = clause(context, lexer, Fixed::Close, self.body)?;
                let body = self.nested(context.of_loop(), lexer)?;
                let span = span_to(lo, lexer);
                Ok(make::for_statement(context.alloc, span, init, test, update, body)?)
            }
            ForHead::Keys(target) => {
                let object = sequence(context, lexer, self.body)?;
                let body = self.for_body(context, lexer)?;
                Ok(make::for_in(context.alloc, span_to(lo, lexer), target, object, body)?)
            }
            ForHead::Items(target) => {
                let items = expression(context, lexer, ASSIGNMENT, self.body)?;
                let body = self.for_body(context, lexer)?;
                Ok(make::for_of(context.alloc, span_to(lo, lexer), target, items, body)?)
            }
        }
    }
}

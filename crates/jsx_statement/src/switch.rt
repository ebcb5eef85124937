//! `switch` (ECMA-262 section 14.12).

ghost use Rattle.std.specs.Prelude.{◌<◌, ◌≤◌, IfOk, OnOk, IsTrue, map};
ghost use Rattle.jsx_tree.specs.Kinds.{Switch, statement, list, none, part};
ghost use Rattle.jsx_tree.specs.Grammar.{Lines, key};
ghost use Rattle.jsx_tree.specs.StaticRules.{at_most, is_default};
ghost use Rattle.jsx_tree.specs.View.{forest, inside, view_control, view_stmt};
ghost use Rattle.jsx_tree.specs.Spans.{no_tales, tale};
ghost use Rattle.jsx_tree.specs.Told.{tales, told_control, told_list, told_stmt};
ghost use Rattle.jsx_tree.specs.Walk.{tail};
ghost use Rattle.jsx_tree.specs.Answers.{OnlyRow, NoNode, BuiltNode};
ghost use Rattle.jsx_operand.specs.Around.{around_of};
ghost use Rattle.jsx_token.specs.Marks.{row_so_far};
ghost use Rattle.jsx_operand.specs.SoFar.{so_far};
ghost use Rattle.jsx_token.specs.Here.{place_of, left};
ghost use Rattle.jsx_token.specs.Growths.{opening_sign};
ghost use Rattle.jsx_statement.specs.Inners.{NoInners};
ghost use Rattle.jsx_statement.specs.Cases.{IsBody, IsCase, IsDefault, NoCase, NoCases, body_row, cases_row, cases_symbols, default_row};
ghost use Rattle.jsx_operand.specs.Answers.{Refused};
ghost use Rattle.jsx_make.specs.NodeSpans.{stmt_at};
ghost use Rattle.jsx_operand.specs.Spans.{IsPlaced, IsPlacedBehind, IsPlacedList, IsPlacedRow, Spans};
ghost use Rattle.jsx_token.specs.Places.{begin_of, end_of};
ghost use Rattle.std.specs.Prelude.{suc};
ghost use Rattle.jsx_statement.specs.Within.{ReadsStatements};
ghost use Rattle.jsx_operand.specs.Bodies.{ReadsBodies};

use crate::grammar::Statements;
use crate::statement::Seat;
use jsx_declaration::statement::one_default;
use jsx_expression::expression::sequence;
use jsx_make::make;
use jsx_operand::depth::within;
use jsx_operand::{Body, Context, ParseError, expect, span_to};
use jsx_token::{Fixed, Lexer, Word};
use jsx_tree::{Control, Stmt};

impl<
    F: for<'c, 's> Fn(Context<'c>, &mut Lexer<'s>, Seat) -> Result<Box<Stmt<'s>>, ParseError>,
    B: Copy + for<'c, 's> Fn(Context<'c>, &mut Lexer<'s>) -> Result<Body<'s>, ParseError>,
> Statements<F, B> {
    /// The statements of a case, as far as the next case or the `}`: `a; b;`.
    pub(crate) fn case_body<'s>(
        &self,
        context: Context,
        lexer: &mut Lexer<'s>,
    ) -> Result<Vec<Box<Stmt<'s>>>, ParseError>
        requires nests { ReadsStatements (suc (left lexer.old)) (F.pre self.now.inner) (F.post self.now.inner) }
        requires bodies { ReadsBodies (left lexer.old) (B.pre self.now.body) (B.post self.now.body) }
        ensures read { IfOk result (λ v. IsBody (around_of context.entry.around) (place_of lexer.old) (list (forest (map (inside view_stmt) v.items))) (place_of lexer.new)) }
        ensures placed { IfOk result (λ v. IsPlacedList Lines (tales (map (inside told_stmt) v.items)) (forest (map (inside view_stmt) v.items)) lexer.old lexer.new) }
        ensures within { OnOk result (left lexer.new ≤ left lexer.old) }
        ensures refused { Refused context.entry.levels result (NoInners (around_of context.entry.around) body_row (place_of lexer.old)) }
    {
        let mut all = Vec::new(context.alloc);
        'statements: while !lexer.ends_case() {
            let next = self.inner_statement(context, lexer)?;
            all.push(next)?;
        }
        Ok(all)
    }

    /// A case behind its `default`: `default: a;`.
    pub(crate) fn default_clause<'s>(
        &self,
        context: Context,
        lexer: &mut Lexer<'s>,
    ) -> Result<Box<Control<'s>>, ParseError>
        requires nests { ReadsStatements (suc (left lexer.old)) (F.pre self.now.inner) (F.post self.now.inner) }
        requires bodies { ReadsBodies (left lexer.old) (B.pre self.now.body) (B.post self.now.body) }
        ensures read { IfOk result (λ s. IsDefault (around_of context.entry.around) (place_of lexer.old) (view_control s.value) (place_of lexer.new)) }
        ensures placed { IfOk result (λ s. IsPlacedBehind (key "default") lexer.old (told_control s.value) (view_control s.value) lexer.new) }
        ensures shorter { OnOk result (left lexer.new < left lexer.old) }
        ensures refused { Refused context.entry.levels result (NoInners (around_of context.entry.around) default_row (place_of lexer.old)) }
    {
        let lo = lexer.last_place();
        expect(context, lexer, Fixed::Colon)?;
        let body = self.case_body(context, lexer)?;
        let span = span_to(lo, lexer);
        Ok(make::case_clause(context.alloc, span, None, body)?)
    }

    /// A case of a `switch`: `case a: b;`, or `default: b;`.
    pub(crate) fn case_clause<'s>(
        &self,
        context: Context,
        lexer: &mut Lexer<'s>,
    ) -> Result<Box<Control<'s>>, ParseError>
        requires nests { ReadsStatements (suc (left lexer.old)) (F.pre self.now.inner) (F.post self.now.inner) }
        requires bodies { ReadsBodies (left lexer.old) (B.pre self.now.body) (B.post self.now.body) }
        ensures read { IfOk result (λ s. IsCase (around_of context.entry.around) (place_of lexer.old) (view_control s.value) (place_of lexer.new)) }
        ensures placed { IfOk result (λ s. IsPlaced (told_control s.value) (view_control s.value) lexer.old lexer.new) }
        ensures shorter { OnOk result (left lexer.new < left lexer.old) }
        ensures refused { Refused context.entry.levels result (NoCase (around_of context.entry.around) (place_of lexer.old)) }
    {
        if lexer.take(Fixed::Word(Word::Default)) {
            let levels = within(context, lexer)?;
            return Ok(self.default_clause(Context { levels, ..context }, lexer)?);
        }
        expect(context, lexer, Fixed::Word(Word::Case))?;
        let lo = lexer.last_place();
        let levels = within(context, lexer)?;
        let context = Context { levels, ..context };
        let test = sequence(context, lexer, self.body)?;
        expect(context, lexer, Fixed::Colon)?;
        let body = self.case_body(context, lexer)?;
        let span = span_to(lo, lexer);
        Ok(make::case_clause(context.alloc, span, Some(test), body)?)
    }

    /// The cases of a `switch`, behind its `{` and with its `}`, of which one at most is `default`: `case a: b; default: c; }`.
    pub(crate) fn cases<'s>(
        &self,
        context: Context,
        lexer: &mut Lexer<'s>,
    ) -> Result<Vec<Box<Control<'s>>>, ParseError>
        requires nests { ReadsStatements (suc (left lexer.old)) (F.pre self.now.inner) (F.post self.now.inner) }
        requires bodies { ReadsBodies (left lexer.old) (B.pre self.now.body) (B.post self.now.body) }
        ensures read { IfOk result (λ v. OnlyRow so_far (around_of context.entry.around) cases_row (place_of lexer.old) (part (list (forest (map (inside view_control) v.items))) none) (place_of lexer.new)) }
        ensures one_default { IfOk result (λ v. IsTrue (at_most 1 is_default (forest (map (inside view_control) v.items)))) }
        ensures placed { IfOk result (λ v. IsPlacedRow cases_symbols (tale (told_list (map (inside told_control) v.items)) no_tales) (part (list (forest (map (inside view_control) v.items))) none) lexer.old lexer.new) }
        ensures within { OnOk result (left lexer.new ≤ left lexer.old) }
        ensures refused { Refused context.entry.levels result (NoCases (around_of context.entry.around) (place_of lexer.old)) }
    {
        let mut all = Vec::new(context.alloc);
        let mut has_default = false;
        'cases: while !lexer.take(Fixed::CloseBrace) {
            let next = self.case_clause(context, lexer)?;
            has_default = one_default(has_default, &next, lexer)?;
            all.push(next)?;
        }
        Ok(all)
    }

    /// A `switch` statement behind its word: `switch (a) { case b: c; default: d; }` (ECMA-262 section 14.12).
    pub(crate) fn switch_statement<'s>(
        &self,
        context: Context,
        lexer: &mut Lexer<'s>,
    ) -> Result<Box<Stmt<'s>>, ParseError>
        requires nests { ReadsStatements (suc (left lexer.old)) (F.pre self.now.inner) (F.post self.now.inner) }
        requires bodies { ReadsBodies (left lexer.old) (B.pre self.now.body) (B.post self.now.body) }
        ensures read { IfOk result (λ s. BuiltNode so_far (around_of context.entry.around) (tail (row_so_far (statement Switch))) (statement Switch) (view_stmt s.value) (place_of lexer.old) (place_of lexer.new)) }
        ensures span { IfOk result (λ s. Spans (stmt_at s.value) (begin_of lexer.old) (end_of lexer.new)) }
        ensures placed { IfOk result (λ s. IsPlacedBehind (opening_sign (statement Switch)) lexer.old (told_stmt s.value) (view_stmt s.value) lexer.new) }
        ensures within { OnOk result (left lexer.new ≤ left lexer.old) }
        ensures refused { Refused context.entry.levels result (NoNode so_far (around_of context.entry.around) (tail (row_so_far (statement Switch))) (statement Switch) (place_of lexer.old)) }
    {
        let lo = lexer.last_place();
        expect(context, lexer, Fixed::Open)?;
        let value = sequence(context, lexer, self.body)?;
        expect(context, lexer, Fixed::Close)?;
        let context = context.of_switch();
        expect(context, lexer, Fixed::OpenBrace)?;
        let all = self.cases(context, lexer)?;
        let span = span_to(lo, lexer);
        Ok(make::switch_statement(context.alloc, span, value, all)?)
    }
}

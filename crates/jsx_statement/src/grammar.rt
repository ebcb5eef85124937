//! Statements, over the function that reads those within (ECMA-262 section 14).

ghost use Rattle.std.specs.Prelude.{◌≡◌, ◌<◌, ◌≤◌, IfOk, OnOk, map, true};
ghost use Rattle.jsx_tree.specs.Kinds.{Block, statement, list, none, part};
ghost use Rattle.jsx_tree.specs.Nonterminals as grammar;
ghost use Rattle.jsx_tree.specs.Grammar.{Part};
ghost use Rattle.jsx_tree.specs.View.{forest, inside, view_stmt};
ghost use Rattle.jsx_tree.specs.Spans.{no_tales, tale};
ghost use Rattle.jsx_tree.specs.Told.{tales, told_list, told_stmt};
ghost use Rattle.jsx_tree.specs.Walk.{one, tail};
ghost use Rattle.jsx_tree.specs.Answers.{Only, Barred, OnlyRow, NoRow, NoNode, BuiltNode};
ghost use Rattle.jsx_operand.specs.Around.{around_of};
ghost use Rattle.jsx_token.specs.Marks.{row_so_far};
ghost use Rattle.jsx_operand.specs.SoFar.{so_far};
ghost use Rattle.std.specs.Str.{chars};
ghost use Rattle.jsx_statement.specs.Labels.{BuiltLabel, IsPlacedLabelled, NoBody};
ghost use Rattle.jsx_token.specs.Here.{place_of, left};
ghost use Rattle.jsx_token.specs.Growths.{opening_sign};
ghost use Rattle.jsx_statement.specs.Inners.{NoInner, are_inner, is_inner};
ghost use Rattle.jsx_statement.specs.Statements.{IsPlacedLines, block_symbols, NoStatement, OnlyStatement, NoneHeaded, OnlyHeaded};
ghost use Rattle.jsx_token.specs.Headings.{heading_sign, NoHeading};
ghost use Rattle.jsx_operand.specs.Answers.{Refused};
ghost use Rattle.jsx_make.specs.NodeSpans.{stmt_at};
ghost use Rattle.jsx_operand.specs.Spans.{IsPlaced, IsPlacedBehind, IsPlacedRow, Spans};
ghost use Rattle.jsx_token.specs.Places.{begin_of, end_of, next_of};
ghost use Rattle.std.specs.Prelude.{suc};
ghost use Rattle.jsx_statement.specs.Within.{ReadsStatements};
ghost use Rattle.jsx_operand.specs.Bodies.{ReadsBodies};

use crate::statement::Seat;
use jsx_declaration::function::{class_declaration, function_declaration, return_statement};
use jsx_declaration::label::{Label, has_label, is_before_loop, take_label};
use jsx_declaration::statement::{
    break_statement, continue_statement, debugger_statement, declaration, empty_statement,
    expression_statement, throw_statement,
};
use jsx_make::make;
use jsx_operand::depth::{within, within_at, within_leaf};
use jsx_operand::{Body, Context, Labels, ParseError, give_up, span_to};
use jsx_token::{Fixed, Heading, Lexer, Word};
use jsx_tree::Stmt;

/// The grammar of statements, over the functions that read the statements and the bodies within: each production is proved alone.
#[derive(Clone, Copy)]
pub(crate) struct Statements<F, B> {
    /// Reads a statement at a seat.
    pub(crate) inner: F,
    /// Reads the body of a function behind its `{`, with its `}`.
    pub(crate) body: B,
}

impl<
    F: for<'c, 's> Fn(Context<'c>, &mut Lexer<'s>, Seat) -> Result<Box<Stmt<'s>>, ParseError>,
    B: Copy + for<'c, 's> Fn(Context<'c>, &mut Lexer<'s>) -> Result<Body<'s>, ParseError>,
> Statements<F, B> {
    /// A statement of a list within another, also a declaration.
    pub(crate) fn statement<'s>(
        &self,
        context: Context,
        lexer: &mut Lexer<'s>,
    ) -> Result<Box<Stmt<'s>>, ParseError>
        requires nests { ReadsStatements (suc (left lexer.old)) (F.pre self.now.inner) (F.post self.now.inner) }
        requires bodies { ReadsBodies (left lexer.old) (B.pre self.now.body) (B.post self.now.body) }
        ensures read { IfOk result (λ s. Only so_far (around_of context.entry.around) (Part grammar.Stmt) (place_of lexer.old) (one (view_stmt s.value)) (place_of lexer.new)) }
        ensures span { IfOk result (λ s. Spans (stmt_at s.value) (next_of lexer.old) (end_of lexer.new)) }
        ensures placed { IfOk result (λ s. IsPlaced (told_stmt s.value) (view_stmt s.value) lexer.old lexer.new) }
        ensures shorter { OnOk result (left lexer.new < left lexer.old) }
        ensures refused { Refused context.entry.levels result (Barred so_far (around_of context.entry.around) (Part grammar.Stmt) (place_of lexer.old)) }
    {
        (self.inner)(context, lexer, Seat::Listed)
    }

    /// A statement that is a part of another, as the body of a loop: neither a lexical declaration nor a function.
    pub(crate) fn nested<'s>(
        &self,
        context: Context,
        lexer: &mut Lexer<'s>,
    ) -> Result<Box<Stmt<'s>>, ParseError>
        requires nests { ReadsStatements (suc (left lexer.old)) (F.pre self.now.inner) (F.post self.now.inner) }
        requires bodies { ReadsBodies (left lexer.old) (B.pre self.now.body) (B.post self.now.body) }
        ensures read { IfOk result (λ s. Only so_far (around_of context.entry.around) (Part grammar.SubStmt) (place_of lexer.old) (one (view_stmt s.value)) (place_of lexer.new)) }
        ensures span { IfOk result (λ s. Spans (stmt_at s.value) (next_of lexer.old) (end_of lexer.new)) }
        ensures placed { IfOk result (λ s. IsPlaced (told_stmt s.value) (view_stmt s.value) lexer.old lexer.new) }
        ensures shorter { OnOk result (left lexer.new < left lexer.old) }
        ensures refused { Refused context.entry.levels result (Barred so_far (around_of context.entry.around) (Part grammar.SubStmt) (place_of lexer.old)) }
    {
        (self.inner)(context, lexer, Seat::Part)
    }

    /// A statement, also a declaration.
    pub(crate) fn listed_statement<'s>(
        &self,
        context: Context,
        lexer: &mut Lexer<'s>,
    ) -> Result<Box<Stmt<'s>>, ParseError>
        requires nests { ReadsStatements (left lexer.old) (F.pre self.now.inner) (F.post self.now.inner) }
        requires bodies { ReadsBodies (left lexer.old) (B.pre self.now.body) (B.post self.now.body) }
        ensures read { IfOk result (λ s. Only so_far (around_of context.entry.around) (Part grammar.Stmt) (place_of lexer.old) (one (view_stmt s.value)) (place_of lexer.new)) }
        ensures span { IfOk result (λ s. Spans (stmt_at s.value) (next_of lexer.old) (end_of lexer.new)) }
        ensures placed { IfOk result (λ s. IsPlaced (told_stmt s.value) (view_stmt s.value) lexer.old lexer.new) }
        ensures shorter { OnOk result (left lexer.new < left lexer.old) }
        ensures refused { Refused context.entry.levels result (Barred so_far (around_of context.entry.around) (Part grammar.Stmt) (place_of lexer.old)) }
    {
        let Some(heading) = lexer.heading() else {
            return Ok(self.unheaded(context, lexer)?);
        };
        let levels = within(context, lexer)?;
        Ok(self.headed(Context { levels, ..context }, lexer, heading)?)
    }

    /// A statement that is a part of another, as the body of a loop: neither a lexical declaration nor a function.
    pub(crate) fn nested_statement<'s>(
        &self,
        context: Context,
        lexer: &mut Lexer<'s>,
    ) -> Result<Box<Stmt<'s>>, ParseError>
        requires nests { ReadsStatements (left lexer.old) (F.pre self.now.inner) (F.post self.now.inner) }
        requires bodies { ReadsBodies (left lexer.old) (B.pre self.now.body) (B.post self.now.body) }
        ensures read { IfOk result (λ s. Only so_far (around_of context.entry.around) (Part grammar.SubStmt) (place_of lexer.old) (one (view_stmt s.value)) (place_of lexer.new)) }
        ensures span { IfOk result (λ s. Spans (stmt_at s.value) (next_of lexer.old) (end_of lexer.new)) }
        ensures placed { IfOk result (λ s. IsPlaced (told_stmt s.value) (view_stmt s.value) lexer.old lexer.new) }
        ensures shorter { OnOk result (left lexer.new < left lexer.old) }
        ensures refused { Refused context.entry.levels result (Barred so_far (around_of context.entry.around) (Part grammar.SubStmt) (place_of lexer.old)) }
    {
        let Some(heading) = lexer.heading() else {
            return Ok(self.unheaded(context, lexer)?);
        };
        if heading.is_lexical() {
            return Err(give_up(lexer));
        }
        let levels = within(context, lexer)?;
        Ok(self.headed(Context { levels, ..context }, lexer, heading)?)
    }

    /// A statement that begins with no token of its own: a labelled one, or an expression.
    pub(crate) fn unheaded<'s>(
        &self,
        context: Context,
        lexer: &mut Lexer<'s>,
    ) -> Result<Box<Stmt<'s>>, ParseError>
        requires nests { ReadsStatements (left lexer.old) (F.pre self.now.inner) (F.post self.now.inner) }
        requires bodies { ReadsBodies (left lexer.old) (B.pre self.now.body) (B.post self.now.body) }
        requires plain { NoHeading (place_of lexer.old) }
        ensures read { IfOk result (λ s. OnlyStatement (around_of context.entry.around) (place_of lexer.old) (view_stmt s.value) (place_of lexer.new)) }
        ensures span { IfOk result (λ s. Spans (stmt_at s.value) (next_of lexer.old) (end_of lexer.new)) }
        ensures placed { IfOk result (λ s. IsPlaced (told_stmt s.value) (view_stmt s.value) lexer.old lexer.new) }
        ensures shorter { OnOk result (left lexer.new < left lexer.old) }
        ensures refused { Refused context.entry.levels result (NoStatement (around_of context.entry.around) (place_of lexer.old)) }
    {
        let Some(label) = take_label(lexer) else {
            return Ok(expression_statement(context, lexer, self.body)?);
        };
        within_at(context, label.place)?;
        let levels = within_leaf(context, lexer)?;
        Ok(self.labelled(Context { levels, ..context }, lexer, label)?)
    }

    /// A statement behind its label, which encloses it then: `a: b;` (ECMA-262 section 14.13).
    pub(crate) fn labelled<'s>(
        &self,
        context: Context,
        lexer: &mut Lexer<'s>,
        label: Label<'s>,
    ) -> Result<Box<Stmt<'s>>, ParseError>
        requires nests { ReadsStatements (suc (left lexer.old)) (F.pre self.now.inner) (F.post self.now.inner) }
        requires bodies { ReadsBodies (left lexer.old) (B.pre self.now.body) (B.post self.now.body) }
        ensures read { IfOk result (λ s. BuiltLabel (around_of context.entry.around) (chars label.entry.name.now) (view_stmt s.value) (place_of lexer.old) (place_of lexer.new)) }
        ensures span { IfOk result (λ s. Spans (stmt_at s.value) label.entry.place.0 (end_of lexer.new)) }
        ensures placed { IfOk result (λ s. IsPlacedLabelled (chars label.entry.name.now) label.entry.place.0 lexer.old (told_stmt s.value) (view_stmt s.value) lexer.new) }
        ensures within { OnOk result (left lexer.new ≤ left lexer.old) }
        ensures refused { Refused context.entry.levels result (NoBody (around_of context.entry.around) (chars label.entry.name.now) (place_of lexer.old)) }
    {
        if has_label(context.around.labels, label.name, false) {
            return Err(give_up(lexer));
        }
        let on_loop = is_before_loop(lexer);
        let labels = Labels::Inside(label.name, on_loop, context.around.labels);
        let body = self.nested(context.of_label(&labels), lexer)?;
        let span = span_to(label.place, lexer);
        Ok(make::label_statement(context.alloc, span, label.ident(), body)?)
    }

    /// A statement behind its first token.
    pub(crate) fn headed<'s>(
        &self,
        context: Context,
        lexer: &mut Lexer<'s>,
        heading: Heading,
    ) -> Result<Box<Stmt<'s>>, ParseError>
        requires nests { ReadsStatements (suc (left lexer.old)) (F.pre self.now.inner) (F.post self.now.inner) }
        requires bodies { ReadsBodies (left lexer.old) (B.pre self.now.body) (B.post self.now.body) }
        ensures read { IfOk result (λ s. OnlyHeaded (around_of context.entry.around) heading (view_stmt s.value) (place_of lexer.old) (place_of lexer.new)) }
        ensures span { IfOk result (λ s. Spans (stmt_at s.value) (begin_of lexer.old) (end_of lexer.new)) }
        ensures placed { IfOk result (λ s. IsPlacedBehind (heading_sign heading) lexer.old (told_stmt s.value) (view_stmt s.value) lexer.new) }
        ensures within { OnOk result (left lexer.new ≤ left lexer.old) }
        ensures refused { Refused context.entry.levels result (NoneHeaded (around_of context.entry.around) heading (place_of lexer.old)) }
    {
        match heading {
            Heading::Empty => Ok(empty_statement(context, lexer)?),
            Heading::Block => Ok(self.block(context, lexer)?),
            Heading::Var(word) => Ok(declaration(context, lexer, word, self.body)?),
            Heading::If => Ok(self.if_statement(context, lexer)?),
            Heading::Do => Ok(self.do_statement(context, lexer)?),
            Heading::While => Ok(self.while_statement(context, lexer)?),
            Heading::For => Ok(self.for_statement(context, lexer)?),
            Heading::Switch => Ok(self.switch_statement(context, lexer)?),
            Heading::Continue => Ok(continue_statement(context, lexer)?),
            Heading::Break => Ok(break_statement(context, lexer)?),
            Heading::Return => Ok(return_statement(context, lexer, self.body)?),
            Heading::Throw => Ok(throw_statement(context, lexer, self.body)?),
            Heading::Try => Ok(self.try_statement(context, lexer)?),
            Heading::Debugger => Ok(debugger_statement(context, lexer)?),
            Heading::Function => Ok(function_declaration(context, lexer, self.body)?),
            Heading::Class => Ok(class_declaration(context, lexer, self.body)?),
        }
    }

    /// Statements up to the `}`, with it: `a; b; }`.
    pub(crate) fn lines<'s>(
        &self,
        context: Context,
        lexer: &mut Lexer<'s>,
    ) -> Result<Vec<Box<Stmt<'s>>>, ParseError>
        requires nests { ReadsStatements (suc (left lexer.old)) (F.pre self.now.inner) (F.post self.now.inner) }
        requires bodies { ReadsBodies (left lexer.old) (B.pre self.now.body) (B.post self.now.body) }
        ensures read { IfOk result (λ v. OnlyRow so_far (around_of context.entry.around) (tail (row_so_far (statement Block))) (place_of lexer.old) (part (list (forest (map (inside view_stmt) v.items))) none) (place_of lexer.new)) }
        ensures placed { IfOk result (λ v. IsPlacedLines (tales (map (inside told_stmt) v.items)) (forest (map (inside view_stmt) v.items)) lexer.old lexer.new) }
        ensures within { OnOk result (left lexer.new ≤ left lexer.old) }
        ensures refused { Refused context.entry.levels result (NoRow so_far (around_of context.entry.around) (tail (row_so_far (statement Block))) (place_of lexer.old)) }
    {
        let mut all = Vec::new(context.alloc);
        'statements: while !lexer.take(Fixed::CloseBrace) {
            let next = self.statement(context, lexer)?;
            all.push(next)?;
        }
        Ok(all)
    }

    /// A statement of a block or of a case, where a function stands in strict code alone (ECMA-262 sections 14.2 and 14.12; what
    /// annex B.3.2 says of others is left out).
    pub(crate) fn inner_statement<'s>(
        &self,
        context: Context,
        lexer: &mut Lexer<'s>,
    ) -> Result<Box<Stmt<'s>>, ParseError>
        requires nests { ReadsStatements (suc (left lexer.old)) (F.pre self.now.inner) (F.post self.now.inner) }
        requires bodies { ReadsBodies (left lexer.old) (B.pre self.now.body) (B.post self.now.body) }
        ensures read { IfOk result (λ s. Only so_far (around_of context.entry.around) (Part grammar.Stmt) (place_of lexer.old) (one (view_stmt s.value)) (place_of lexer.new)) }
        ensures inner { IfOk result (λ s. is_inner (around_of context.entry.around) (view_stmt s.value) ≡ true) }
        ensures placed { IfOk result (λ s. IsPlaced (told_stmt s.value) (view_stmt s.value) lexer.old lexer.new) }
        ensures shorter { OnOk result (left lexer.new < left lexer.old) }
        ensures refused { Refused context.entry.levels result (NoInner (around_of context.entry.around) (place_of lexer.old)) }
    {
        if context.around.is_strict {
            return Ok(self.statement(context, lexer)?);
        }
        if lexer.take(Fixed::Word(Word::Function)) {
            return Err(give_up(lexer));
        }
        Ok(self.statement(context, lexer)?)
    }

    /// The statements of a block, behind its `{` and with its `}`: `a; b; }`.
    pub(crate) fn statements<'s>(
        &self,
        context: Context,
        lexer: &mut Lexer<'s>,
    ) -> Result<Vec<Box<Stmt<'s>>>, ParseError>
        requires nests { ReadsStatements (suc (left lexer.old)) (F.pre self.now.inner) (F.post self.now.inner) }
        requires bodies { ReadsBodies (left lexer.old) (B.pre self.now.body) (B.post self.now.body) }
        ensures read { IfOk result (λ v. OnlyRow so_far (around_of context.entry.around) (tail (row_so_far (statement Block))) (place_of lexer.old) (part (list (forest (map (inside view_stmt) v.items))) none) (place_of lexer.new)) }
        ensures inner { IfOk result (λ v. are_inner (around_of context.entry.around) (forest (map (inside view_stmt) v.items)) ≡ true) }
        ensures placed { IfOk result (λ v. IsPlacedRow block_symbols (tale (told_list (map (inside told_stmt) v.items)) no_tales) (part (list (forest (map (inside view_stmt) v.items))) none) lexer.old lexer.new) }
        ensures within { OnOk result (left lexer.new ≤ left lexer.old) }
        ensures refused { Refused context.entry.levels result (NoNode so_far (around_of context.entry.around) (tail (row_so_far (statement Block))) (statement Block) (place_of lexer.old)) }
    {
        let mut all = Vec::new(context.alloc);
        'statements: while !lexer.take(Fixed::CloseBrace) {
            let next = self.inner_statement(context, lexer)?;
            all.push(next)?;
        }
        Ok(all)
    }

    /// A block behind its `{`: `{ a; }` (ECMA-262 section 14.2).
    pub(crate) fn block<'s>(
        &self,
        context: Context,
        lexer: &mut Lexer<'s>,
    ) -> Result<Box<Stmt<'s>>, ParseError>
        requires nests { ReadsStatements (suc (left lexer.old)) (F.pre self.now.inner) (F.post self.now.inner) }
        requires bodies { ReadsBodies (left lexer.old) (B.pre self.now.body) (B.post self.now.body) }
        ensures read { IfOk result (λ s. BuiltNode so_far (around_of context.entry.around) (tail (row_so_far (statement Block))) (statement Block) (view_stmt s.value) (place_of lexer.old) (place_of lexer.new)) }
        ensures span { IfOk result (λ s. Spans (stmt_at s.value) (begin_of lexer.old) (end_of lexer.new)) }
        ensures placed { IfOk result (λ s. IsPlacedBehind (opening_sign (statement Block)) lexer.old (told_stmt s.value) (view_stmt s.value) lexer.new) }
        ensures within { OnOk result (left lexer.new ≤ left lexer.old) }
        ensures refused { Refused context.entry.levels result (NoNode so_far (around_of context.entry.around) (tail (row_so_far (statement Block))) (statement Block) (place_of lexer.old)) }
    {
        let lo = lexer.last_place();
        let body = self.statements(context, lexer)?;
        Ok(make::block(context.alloc, span_to(lo, lexer), body)?)
    }
}

//! Calls, members, `super` and `import` (ECMA-262 sections 13.3.5 to 13.3.12).

ghost use Rattle.std.specs.Prelude.{◌<◌, [], ◌∷◌, IfOk, OnOk, IsTrue, map, true, suc};
ghost use Rattle.jsx_tree.specs.Kinds.{Call, Index, ImportCall, SuperCall, SuperIndex, expression, list, none, part};
ghost use Rattle.jsx_tree.specs.Nonterminals as grammar;
ghost use Rattle.jsx_tree.specs.Grammar.{Commas, Many, Part, p};
ghost use Rattle.jsx_tree.specs.View.{forest, inside, view_expr};
ghost use Rattle.jsx_tree.specs.Spans.{no_tales, tale};
ghost use Rattle.jsx_tree.specs.Told.{told_expr, told_list};
ghost use Rattle.jsx_tree.specs.Walk.{one, tail};
ghost use Rattle.jsx_tree.specs.Answers.{Only, Barred, OnlyRow, NoRow, Built, BuiltNode, NoNode};
ghost use Rattle.jsx_operand.specs.Openings.{OnlyOpened, NoneOpened};
ghost use Rattle.jsx_operand.specs.Around.{around_of};
ghost use Rattle.jsx_operand.specs.SoFar.{so_far};
ghost use Rattle.jsx_token.specs.Marks.{row_so_far};
ghost use Rattle.jsx_token.specs.Here.{place_of, left, sign_of};
ghost use Rattle.jsx_token.specs.declared.lexer.Fixed.TheVariants as fixed;
ghost use Rattle.jsx_operand.specs.Answers.{Refused};
ghost use Rattle.jsx_token.specs.Growths.{callee, mark, opening_sign, settled};
ghost use Rattle.jsx_make.specs.NodeSpans.{expr_at};
ghost use Rattle.jsx_operand.specs.Spans.{Extends, IsPlacedAs, IsPlacedBehind, IsPlacedOn, IsPlacedRow, Spans};
ghost use Rattle.jsx_token.specs.Places.{begin_of, end_of};
ghost use Rattle.jsx_member.specs.Supers.{IsPlacedSuper};
ghost use Rattle.jsx_function.specs.Within.{ReadsWithin};
ghost use Rattle.jsx_operand.specs.Bodies.{ReadsBodies};

use crate::grammar::Brackets;
use jsx_base::BytePos;
use jsx_make::make;
use jsx_operand::argument::place_argument;
use jsx_operand::operand::{ASSIGNMENT, start_of};
use jsx_operand::parser::{expect, give_up, identifier_name, span_to};
use jsx_operand::{Body, Context, Cover, ParseError};
use jsx_token::{Fixed, Lexer, Word};
use jsx_tree::{Expr, Text, Word as Constant};

impl<
    F: for<'c, 's> Fn(Context<'c>, &mut Lexer<'s>, u8, B) -> Result<Cover<'s>, ParseError>,
    B: Copy + for<'c, 's> Fn(Context<'c>, &mut Lexer<'s>) -> Result<Body<'s>, ParseError>,
> Brackets<F, B> {
    /// An argument: a spread, or an expression, which stands where its parentheses do, where it has some. It has no frame of its
    /// own, like all that a level of calls goes through.
    #[inline(always)]
    pub(crate) fn argument<'s>(
        &self,
        context: Context,
        lexer: &mut Lexer<'s>,
    ) -> Result<Box<Expr<'s>>, ParseError>
        requires nests { ReadsWithin (suc (left lexer.old)) (F.pre self.now.within.inner) (F.post self.now.within.inner) self.now.within.body }
        requires bodies { ReadsBodies (left lexer.old) (B.pre self.now.within.body) (B.post self.now.within.body) }
        ensures read { IfOk result (λ e. Only so_far (around_of context.entry.around) (Part grammar.Argument) (place_of lexer.old) (one (view_expr e.value)) (place_of lexer.new)) }
        ensures placed { IfOk result (λ e. IsPlacedAs true (told_expr e.value) (view_expr e.value) lexer.old lexer.new) }
        ensures shorter { OnOk result (left lexer.new < left lexer.old) }
        ensures refused { Refused context.entry.levels result (Barred so_far (around_of context.entry.around) (Part grammar.Argument) (place_of lexer.old)) }
    {
        if lexer.take(Fixed::Dots) {
            return Ok(self.spread(context, lexer)?);
        }
        let mut argument = self.within.inner(context, lexer, ASSIGNMENT)?;
        place_argument(&mut argument);
        Ok(argument)
    }

    /// Arguments behind their `(`, with the `)`: `a, b)`. They have no frame of their own.
    #[inline(always)]
    pub fn arguments<'s>(
        &self,
        context: Context,
        lexer: &mut Lexer<'s>,
    ) -> Result<Vec<Box<Expr<'s>>>, ParseError>
        requires nests { ReadsWithin (suc (left lexer.old)) (F.pre self.now.within.inner) (F.post self.now.within.inner) self.now.within.body }
        requires bodies { ReadsBodies (left lexer.old) (B.pre self.now.within.body) (B.post self.now.within.body) }
        ensures read { IfOk result (λ v. OnlyRow so_far (around_of context.entry.around) (tail (tail (row_so_far (expression Call)))) (place_of lexer.old) (part (list (forest (map (inside view_expr) v.items))) none) (place_of lexer.new)) }
        ensures placed { IfOk result (λ v. IsPlacedRow (Many Commas grammar.Argument ∷ p ")" ∷ []) (tale (told_list (map (inside told_expr) v.items)) no_tales) (part (list (forest (map (inside view_expr) v.items))) none) lexer.old lexer.new) }
        ensures shorter { OnOk result (left lexer.new < left lexer.old) }
        ensures ended { OnOk result (IsTrue (settled (place_of lexer.new))) }
        ensures refused { Refused context.entry.levels result (NoRow so_far (around_of context.entry.around) (tail (tail (row_so_far (expression Call)))) (place_of lexer.old)) }
    {
        let mut all = Vec::new(context.alloc);
        'arguments: while !lexer.take(Fixed::Close) {
            let argument = self.argument(context, lexer)?;
            all.push(argument)?;
            if !lexer.take(Fixed::Comma) {
                expect(context, lexer, Fixed::Close)?;
                return Ok(all);
            }
        }
        Ok(all)
    }

    /// A call behind its `(`: `a(b, c)`. It has no frame of its own.
    #[inline(always)]
    pub fn call<'s>(
        &self,
        context: Context,
        lexer: &mut Lexer<'s>,
        callee: Box<Expr<'s>>,
    ) -> Result<Box<Expr<'s>>, ParseError>
        requires nests { ReadsWithin (suc (left lexer.old)) (F.pre self.now.within.inner) (F.post self.now.within.inner) self.now.within.body }
        requires bodies { ReadsBodies (left lexer.old) (B.pre self.now.within.body) (B.post self.now.within.body) }
        ensures read { IfOk result (λ e. Built so_far (around_of context.entry.around) (tail (tail (row_so_far (expression Call)))) (expression Call) (part (view_expr callee.entry.value)) (view_expr e.value) (place_of lexer.old) (place_of lexer.new)) }
        ensures span { IfOk result (λ e. Extends (expr_at callee.entry.value) (expr_at e.value) (end_of lexer.new)) }
        ensures placed { IfOk result (λ e. IsPlacedOn (sign_of fixed.Open) callee.entry.value lexer.old e.value lexer.new) }
        ensures shorter { OnOk result (left lexer.new < left lexer.old) }
        ensures ended { OnOk result (IsTrue (settled (place_of lexer.new))) }
        ensures refused { Refused context.entry.levels result (NoRow so_far (around_of context.entry.around) (tail (tail (row_so_far (expression Call)))) (place_of lexer.old)) }
    {
        let all = self.arguments(context, lexer)?;
        let span = span_to(start_of(&callee), lexer);
        Ok(make::call(context.alloc, span, callee, all)?)
    }

    /// A member behind its `[`: `a[b]`.
    pub fn index<'s>(
        &self,
        context: Context,
        lexer: &mut Lexer<'s>,
        object: Box<Expr<'s>>,
    ) -> Result<Box<Expr<'s>>, ParseError>
        requires nests { ReadsWithin (suc (left lexer.old)) (F.pre self.now.within.inner) (F.post self.now.within.inner) self.now.within.body }
        requires bodies { ReadsBodies (left lexer.old) (B.pre self.now.within.body) (B.post self.now.within.body) }
        ensures read { IfOk result (λ e. Built so_far (around_of context.entry.around) (tail (tail (row_so_far (expression Index)))) (expression Index) (part (view_expr object.entry.value)) (view_expr e.value) (place_of lexer.old) (place_of lexer.new)) }
        ensures span { IfOk result (λ e. Extends (expr_at object.entry.value) (expr_at e.value) (end_of lexer.new)) }
        ensures placed { IfOk result (λ e. IsPlacedOn (mark (expression Index)) object.entry.value lexer.old e.value lexer.new) }
        ensures shorter { OnOk result (left lexer.new < left lexer.old) }
        ensures ended { OnOk result (IsTrue (settled (place_of lexer.new))) }
        ensures refused { Refused context.entry.levels result (NoRow so_far (around_of context.entry.around) (tail (tail (row_so_far (expression Index)))) (place_of lexer.old)) }
    {
        let inner = self.sequence(context, lexer)?;
        expect(context, lexer, Fixed::CloseBracket)?;
        let span = span_to(start_of(&object), lexer);
        Ok(make::index(context.alloc, span, object, inner)?)
    }

    /// An import call behind its word: `import(a)` (ECMA-262 section 13.3.10).
    pub(crate) fn import_call<'s>(
        &self,
        context: Context,
        lexer: &mut Lexer<'s>,
    ) -> Result<Box<Expr<'s>>, ParseError>
        requires nests { ReadsWithin (suc (left lexer.old)) (F.pre self.now.within.inner) (F.post self.now.within.inner) self.now.within.body }
        requires bodies { ReadsBodies (left lexer.old) (B.pre self.now.within.body) (B.post self.now.within.body) }
        ensures read { IfOk result (λ e. Built so_far (around_of context.entry.around) (tail (row_so_far (expression ImportCall))) (expression ImportCall) (λ ts. ts) (view_expr e.value) (place_of lexer.old) (place_of lexer.new)) }
        ensures span { IfOk result (λ e. Spans (expr_at e.value) (begin_of lexer.old) (end_of lexer.new)) }
        ensures placed { IfOk result (λ e. IsPlacedBehind (opening_sign (expression ImportCall)) lexer.old (told_expr e.value) (view_expr e.value) lexer.new) }
        ensures shorter { OnOk result (left lexer.new < left lexer.old) }
        ensures ended { OnOk result (IsTrue (settled (place_of lexer.new))) }
        ensures refused { Refused context.entry.levels result (NoRow so_far (around_of context.entry.around) (tail (row_so_far (expression ImportCall))) (place_of lexer.old)) }
    {
        let lo = lexer.last_place();
        expect(context, lexer, Fixed::Open)?;
        let source = self.within.inner(context, lexer, ASSIGNMENT)?;
        expect(context, lexer, Fixed::Close)?;
        Ok(make::import_call(context.alloc, span_to(lo, lexer), source)?)
    }

    /// What begins with `import`, behind that: an import call, or `import.meta`, which stands in modules alone (ECMA-262
    /// sections 13.3.10 and 13.3.12).
    pub fn import<'s>(
        &self,
        context: Context,
        lexer: &mut Lexer<'s>,
    ) -> Result<Box<Expr<'s>>, ParseError>
        requires nests { ReadsWithin (suc (left lexer.old)) (F.pre self.now.within.inner) (F.post self.now.within.inner) self.now.within.body }
        requires bodies { ReadsBodies (left lexer.old) (B.pre self.now.within.body) (B.post self.now.within.body) }
        ensures read { IfOk result (λ e. OnlyOpened (around_of context.entry.around) (opening_sign (expression ImportCall)) (view_expr e.value) (place_of lexer.old) (place_of lexer.new)) }
        ensures span { IfOk result (λ e. Spans (expr_at e.value) (begin_of lexer.old) (end_of lexer.new)) }
        ensures placed { IfOk result (λ e. IsPlacedBehind (opening_sign (expression ImportCall)) lexer.old (told_expr e.value) (view_expr e.value) lexer.new) }
        ensures shorter { OnOk result (left lexer.new < left lexer.old) }
        ensures ended { OnOk result (IsTrue (settled (place_of lexer.new))) }
        ensures refused { Refused context.entry.levels result (NoneOpened (around_of context.entry.around) (opening_sign (expression ImportCall)) (place_of lexer.old)) }
    {
        let lo = lexer.last_place();
        if !lexer.take(Fixed::Dot) {
            return Ok(self.import_call(context, lexer)?);
        }
        if !context.around.is_module {
            return Err(give_up(lexer));
        }
        expect(context, lexer, Fixed::Word(Word::Meta))?;
        Ok(make::constant(context.alloc, span_to(lo, lexer), Constant::ImportMeta)?)
    }

    /// A call of `super` behind its `(`, in the constructor of a class with `extends`: `super(a)`.
    fn super_call<'s>(
        &self,
        context: Context,
        lexer: &mut Lexer<'s>,
        lo: BytePos,
    ) -> Result<Box<Expr<'s>>, ParseError>
        requires nests { ReadsWithin (suc (left lexer.old)) (F.pre self.now.within.inner) (F.post self.now.within.inner) self.now.within.body }
        requires bodies { ReadsBodies (left lexer.old) (B.pre self.now.within.body) (B.post self.now.within.body) }
        ensures read { IfOk result (λ e. BuiltNode so_far (around_of context.entry.around) (tail (tail (row_so_far (expression SuperCall)))) (expression SuperCall) (view_expr e.value) (place_of lexer.old) (place_of lexer.new)) }
        ensures span { IfOk result (λ e. Spans (expr_at e.value) lo.0 (end_of lexer.new)) }
        ensures told { IfOk result (λ e. IsPlacedSuper (sign_of fixed.Open) lo.0 lexer.old (told_expr e.value) (view_expr e.value) lexer.new) }
        ensures shorter { OnOk result (left lexer.new < left lexer.old) }
        ensures ended { OnOk result (IsTrue (settled (place_of lexer.new))) }
        ensures refused { Refused context.entry.levels result (NoNode so_far (around_of context.entry.around) (tail (tail (row_so_far (expression SuperCall)))) (expression SuperCall) (place_of lexer.old)) }
    {
        if !context.around.calls_super {
            return Err(give_up(lexer));
        }
        let all = self.arguments(context, lexer)?;
        Ok(make::super_call(context.alloc, span_to(lo, lexer), all)?)
    }

    /// A member of `super` behind its `[`, in a method: `super[a]`.
    fn super_index<'s>(
        &self,
        context: Context,
        lexer: &mut Lexer<'s>,
        lo: BytePos,
    ) -> Result<Box<Expr<'s>>, ParseError>
        requires nests { ReadsWithin (suc (left lexer.old)) (F.pre self.now.within.inner) (F.post self.now.within.inner) self.now.within.body }
        requires bodies { ReadsBodies (left lexer.old) (B.pre self.now.within.body) (B.post self.now.within.body) }
        ensures read { IfOk result (λ e. BuiltNode so_far (around_of context.entry.around) (tail (tail (row_so_far (expression SuperIndex)))) (expression SuperIndex) (view_expr e.value) (place_of lexer.old) (place_of lexer.new)) }
        ensures span { IfOk result (λ e. Spans (expr_at e.value) lo.0 (end_of lexer.new)) }
        ensures told { IfOk result (λ e. IsPlacedSuper (sign_of fixed.OpenBracket) lo.0 lexer.old (told_expr e.value) (view_expr e.value) lexer.new) }
        ensures shorter { OnOk result (left lexer.new < left lexer.old) }
        ensures ended { OnOk result (IsTrue (settled (place_of lexer.new))) }
        ensures refused { Refused context.entry.levels result (NoNode so_far (around_of context.entry.around) (tail (tail (row_so_far (expression SuperIndex)))) (expression SuperIndex) (place_of lexer.old)) }
    {
        if !context.around.has_super {
            return Err(give_up(lexer));
        }
        let index = self.sequence(context, lexer)?;
        expect(context, lexer, Fixed::CloseBracket)?;
        Ok(make::super_index(context.alloc, span_to(lo, lexer), index)?)
    }

    /// What begins with `super`, behind that: a call in the constructor of a class with `extends`, or a member in a method (ECMA-262
    /// section 13.3.7). It is kept out of the frame of what opens an expression.
    #[inline(never)]
    pub fn super_expression<'s>(
        &self,
        context: Context,
        lexer: &mut Lexer<'s>,
    ) -> Result<Box<Expr<'s>>, ParseError>
        requires nests { ReadsWithin (suc (left lexer.old)) (F.pre self.now.within.inner) (F.post self.now.within.inner) self.now.within.body }
        requires bodies { ReadsBodies (left lexer.old) (B.pre self.now.within.body) (B.post self.now.within.body) }
        ensures read { IfOk result (λ e. OnlyOpened (around_of context.entry.around) (opening_sign (expression SuperCall)) (view_expr e.value) (place_of lexer.old) (place_of lexer.new)) }
        ensures span { IfOk result (λ e. Spans (expr_at e.value) (begin_of lexer.old) (end_of lexer.new)) }
        ensures placed { IfOk result (λ e. IsPlacedBehind (opening_sign (expression SuperCall)) lexer.old (told_expr e.value) (view_expr e.value) lexer.new) }
        ensures shorter { OnOk result (left lexer.new < left lexer.old) }
        ensures ended { OnOk result (IsTrue (settled (place_of lexer.new))) }
        ensures refused { Refused context.entry.levels result (NoneOpened (around_of context.entry.around) (opening_sign (expression SuperCall)) (place_of lexer.old)) }
    {
        let lo = lexer.last_place();
        if lexer.take(Fixed::Open) {
            return Ok(self.super_call(context, lexer, lo)?);
        }
        if lexer.take(Fixed::OpenBracket) {
            return Ok(self.super_index(context, lexer, lo)?);
        }
        expect(context, lexer, Fixed::Dot)?;
        if !context.around.has_super {
            return Err(give_up(lexer));
        }
        let raw = identifier_name(context, lexer)?;
        let name = Text::Read(raw, lexer.last_place());
        Ok(make::super_member(context.alloc, span_to(lo, lexer), name)?)
    }
}

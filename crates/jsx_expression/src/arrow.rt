//! What stands in parentheses, and arrow functions (ECMA-262 sections 13.2.9 and 15.3).
//!
//! What stands in parentheses is read once: where `=>` comes behind them it turns into parameters.

ghost use Rattle.std.specs.Prelude.{◌≡◌, ◌<◌, ◌≤◌, ◌||◌, [], ◌∷◌, IfOk, IfSome, OnOk, IsTrue, false, map, not, suc};
ghost use Rattle.jsx_tree.specs.Kinds.{Forest, Parenthesized, expression, list, node, none, part};
ghost use Rattle.jsx_tree.specs.Grammar.{pun};
ghost use Rattle.jsx_tree.specs.Reading.{forth};
ghost use Rattle.jsx_tree.specs.StaticRules.{all_of, is_strict_body, is_word};
ghost use Rattle.jsx_tree.specs.Walk.{is_found};
ghost use Rattle.jsx_tree.specs.View.{forest, inside, name_of, view_expr, view_pat};
ghost use Rattle.jsx_tree.specs.Told.{told_expr, told_list, told_node, told_pat, told_text};
ghost use Rattle.jsx_make.specs.NodeSpans.{expr_at};
ghost use Rattle.jsx_operand.specs.Around.{around_of};
ghost use Rattle.jsx_operand.specs.Answers.{PlainRefused, Refused};
ghost use Rattle.jsx_operand.specs.Bodies.{ReadsBodies};
ghost use Rattle.jsx_operand.specs.Climbing as climbing;
ghost use Rattle.jsx_operand.specs.Openings.{NoneOpened, OnlyOpened};
ghost use Rattle.jsx_operand.specs.Spans.{IsPlacedBehind, IsPlacedPast, Spans};
ghost use Rattle.jsx_token.specs.Growths.{closed, opening_sign};
ghost use Rattle.jsx_token.specs.Here.{left, place_of};
ghost use Rattle.jsx_token.specs.Places.{begin_of, end_of};
ghost use Rattle.jsx_expression.specs.Arrows.{AreExprs, ArrowEnds, BareEnds, IsPlacedArrow, IsPlacedArrowBody, IsPlacedArrowEnd, IsPlacedGroup, IsPlacedOne, IsPlacedSeveral, NoArrowBody, NoArrowEnd, NoBareEnd, NoEnd, NoGroup, NoOneEnd, NoSeveralEnd, OneEnds, OnlyArrowBody, OnlyArrowEnd, OnlyGroup, SeveralEnd, TurnsGroup, are_exprs, told_covers, told_group, arrow_kind, bare_kind, is_block, told_end, view_end, view_params};
ghost use Rattle.jsx_function.specs.Covers.{Settles};
ghost use Rattle.jsx_function.specs.Within.{ReadsWithin};

use crate::grammar::Expressions;
use jsx_base::{BytePos, Span};
use jsx_function::function::{Parameters, suits};
use jsx_make::make;
use jsx_operand::cover::settle;
use jsx_operand::depth::within_at;
use jsx_operand::operand::{ASSIGNMENT, start_of};
use jsx_operand::parser::{expect, give_up, span_to};
use jsx_operand::pattern::is_compound;
use jsx_operand::turn::parameter_of;
use jsx_operand::{Body, Context, Cover, Labels, ParseError};
use jsx_token::{Ending, Fixed, Lexer};
use jsx_tree::{Expr, Ident, Pat};
use std::alloc::{AllocError, Global};

/// What an arrow function does: the value that it gives, or its block.
#[derive(Drop)]
pub(crate) enum ArrowBody<'s> {
    Value(Box<Expr<'s>>),
    Block(Body<'s>),
}

/// What stands in parentheses with commas between, as far as it is read: a comma stands behind each but the last.
#[derive(Drop)]
pub(crate) struct Group<'s> {
    pub(crate) all: Vec<Cover<'s>>,
    /// The rest behind these, where one stands there.
    pub(crate) rest: Option<Box<Pat<'s>>>,
    /// Whether a comma stands behind all of them, and nothing more.
    pub(crate) trails: bool,
}

/// The parameters that covers turn into, with a rest behind them.
fn parameters_of<'s>(
    alloc: Global,
    at: BytePos,
    group: Group<'s>,
) -> Result<Parameters<'s>, ParseError>
    requires rest { IfSome group.rest (λ p. is_word (view_pat p.value) ≡ false) }
    ensures read { IfOk result (λ q. TurnsGroup group.entry (view_params q)) }
    ensures told { IfOk result (λ q. map (inside told_pat) q.all.items ≡ told_group group.entry) }
    ensures simple { IfOk result (λ q. q.are_simple ≡ all_of is_word (view_params q)) }
    ensures refused { PlainRefused result ((ps : Forest) → TurnsGroup group.entry ps → Prim.⊥) }
{
    let Group {
        all: covers,
        rest,
        ..
    } = group;
    let mut all = Vec::with_capacity(alloc, covers.len())?;
    let mut are_simple = true;
    'parameters: for cover in covers {
        let parameter = parameter_of(alloc, at, cover)?;
        are_simple = are_simple & !is_compound(&parameter);
        all.push(parameter)?;
    }
    if let Some(rest) = rest {
        all.push(rest)?;
        return Ok(Parameters {
            all,
            are_simple: false,
        });
    }
    Ok(Parameters { all, are_simple })
}

/// The expressions that covers are.
fn exprs_of<'s>(
    alloc: Global,
    lexer: &Lexer<'s>,
    covers: Vec<Cover<'s>>,
) -> Result<Vec<Box<Expr<'s>>>, ParseError>
    ensures read { IfOk result (λ v. AreExprs covers.entry.items v.items) }
    ensures told { IfOk result (λ v. map (inside told_expr) v.items ≡ told_covers covers.entry.items) }
    ensures refused { PlainRefused result (are_exprs covers.entry.items ≡ false) }
{
    let mut all = Vec::with_capacity(alloc, covers.len())?;
    'exprs: for cover in covers {
        let expr = settle(cover, lexer)?;
        all.push(expr)?;
    }
    Ok(all)
}

/// Whether parameters may stand before what an arrow function does: those before a block that a directive of its own makes strict are
/// names alone.
fn agrees(are_simple: bool, body: &ArrowBody) -> bool
    ensures { result ≡ (not (is_block body.now) || (are_simple || not (is_strict_body (view_end body.now)))) }
{
    match body {
        ArrowBody::Value(_) => true,
        ArrowBody::Block(body) => suits(are_simple, body),
    }
}

/// The node of an arrow function.
fn arrow_of<'s>(
    alloc: Global,
    at: Option<Span>,
    params: Vec<Box<Pat<'s>>>,
    body: ArrowBody<'s>,
) -> Result<Box<Expr<'s>>, AllocError>
    ensures view { IfOk result (λ e. view_expr e.value ≡ node (arrow_kind (is_block body.entry)) (part (list (forest (map (inside view_pat) params.entry.items))) (part (view_end body.entry) none))) }
    ensures told { IfOk result (λ e. told_expr e.value ≡ told_node at (told_list (map (inside told_pat) params.entry.items) ∷ told_end body.entry ∷ [])) }
    ensures span { IfOk result (λ e. expr_at e.value ≡ at) }
{
    match body {
        ArrowBody::Value(value) => make::arrow(alloc, at, params, value),
        ArrowBody::Block(body) => {
            let Body {
                directives,
                statements,
            } = body;
            make::arrow_block(alloc, at, params, directives, statements)
        }
    }
}

/// The same without parentheses.
fn bare_arrow_of<'s>(
    alloc: Global,
    at: Option<Span>,
    parameter: Ident<'s>,
    body: ArrowBody<'s>,
) -> Result<Box<Expr<'s>>, AllocError>
    ensures view { IfOk result (λ e. view_expr e.value ≡ node (bare_kind (is_block body.entry)) (part (name_of parameter.entry) (part (view_end body.entry) none))) }
    ensures told { IfOk result (λ e. told_expr e.value ≡ told_node at (told_text parameter.entry.text ∷ told_end body.entry ∷ [])) }
    ensures span { IfOk result (λ e. expr_at e.value ≡ at) }
{
    match body {
        ArrowBody::Value(value) => make::bare_arrow(alloc, at, parameter, value),
        ArrowBody::Block(body) => {
            let Body {
                directives,
                statements,
            } = body;
            make::bare_arrow_block(alloc, at, parameter, directives, statements)
        }
    }
}

/// Whether `)` or `...` comes next: behind a `(` nothing but parameters begins so.
fn is_before_parameters(lexer: &mut Lexer) -> bool
    ensures ahead { result ≡ (is_found (forth (pun ")") (place_of lexer.old)) || is_found (forth (pun "...") (place_of lexer.old))) }
    ensures stays { lexer.new ≡ lexer.old }
{
    lexer.is_before(Fixed::Close) || lexer.is_before(Fixed::Dots)
}

impl<
    F: for<'c, 's> Fn(Context<'c>, &mut Lexer<'s>, u8, B) -> Result<Cover<'s>, ParseError>,
    B: Copy + for<'c, 's> Fn(Context<'c>, &mut Lexer<'s>) -> Result<Body<'s>, ParseError>,
> Expressions<F, B> {
    /// What begins with a `(`, behind that: an expression in parentheses, or an arrow function (ECMA-262 sections 13.2.9 and 15.3). No
    /// `=>` comes behind the former. It is kept out of the frame of what opens an expression.
    #[inline(never)]
    pub(crate) fn parenthesized<'s>(
        &self,
        context: Context,
        lexer: &mut Lexer<'s>,
    ) -> Result<Box<Expr<'s>>, ParseError>
        requires nests { ReadsWithin (suc (left lexer.old)) (F.pre self.now.brackets.within.inner) (F.post self.now.brackets.within.inner) self.now.brackets.within.body }
        requires bodies { ReadsBodies (left lexer.old) (B.pre self.now.brackets.within.body) (B.post self.now.brackets.within.body) }
        ensures read { IfOk result (λ e. OnlyOpened (around_of context.entry.around) (opening_sign (expression Parenthesized)) (view_expr e.value) (place_of lexer.old) (place_of lexer.new)) }
        ensures span { IfOk result (λ e. Spans (expr_at e.value) (begin_of lexer.old) (end_of lexer.new)) }
        ensures placed { IfOk result (λ e. IsPlacedBehind (opening_sign (expression Parenthesized)) lexer.old (told_expr e.value) (view_expr e.value) lexer.new) }
        ensures shorter { OnOk result (left lexer.new < left lexer.old) }
        ensures ended { OnOk result (IsTrue (closed (place_of lexer.new))) }
        ensures settles { IfOk result (λ e. Settles (climbing.level (view_expr e.value)) (place_of lexer.new)) }
        ensures refused { Refused context.entry.levels result (NoneOpened (around_of context.entry.around) (opening_sign (expression Parenthesized)) (place_of lexer.old)) }
    {
        let lo = lexer.last_place();
        if is_before_parameters(lexer) {
            let params = self.brackets.within.parameters(context, lexer)?;
            return Ok(self.arrow(context, lexer, lo, params)?);
        }
        let first = self.brackets.cover(context, lexer)?;
        if lexer.take(Fixed::Comma) {
            return Ok(self.several(context, lexer, lo, first)?);
        }
        expect(context, lexer, Fixed::Close)?;
        if lexer.is_before_arrow() {
            return Ok(self.arrow_of_one(context, lexer, lo, first)?);
        }
        let inner = settle(first, lexer)?;
        Ok(make::paren(context.alloc, span_to(lo, lexer), inner)?)
    }

    /// An arrow function with one parameter behind its parentheses: `(a) => b`.
    fn arrow_of_one<'s>(
        &self,
        context: Context,
        lexer: &mut Lexer<'s>,
        lo: BytePos,
        first: Cover<'s>,
    ) -> Result<Box<Expr<'s>>, ParseError>
        requires nests { ReadsWithin (suc (left lexer.old)) (F.pre self.now.brackets.within.inner) (F.post self.now.brackets.within.inner) self.now.brackets.within.body }
        requires bodies { ReadsBodies (left lexer.old) (B.pre self.now.brackets.within.body) (B.post self.now.brackets.within.body) }
        ensures read { IfOk result (λ e. OneEnds (around_of context.entry.around) first.entry (view_expr e.value) (place_of lexer.old) (place_of lexer.new)) }
        ensures span { IfOk result (λ e. Spans (expr_at e.value) lo.0 (end_of lexer.new)) }
        ensures placed { IfOk result (λ e. IsPlacedOne lo.0 first.entry lexer.old (told_expr e.value) (view_expr e.value) lexer.new) }
        ensures shorter { OnOk result (left lexer.new < left lexer.old) }
        ensures ended { OnOk result (IsTrue (closed (place_of lexer.new))) }
        ensures settles { IfOk result (λ e. Settles (climbing.level (view_expr e.value)) (place_of lexer.new)) }
        ensures refused { Refused context.entry.levels result (NoOneEnd (around_of context.entry.around) first.entry (place_of lexer.old)) }
    {
        let parameter = parameter_of(context.alloc, lexer.failing_place(), first)?;
        let are_simple = !is_compound(&parameter);
        let mut all = Vec::with_capacity(context.alloc, 1)?;
        all.push(parameter)?;
        let params = Parameters { all, are_simple };
        Ok(self.arrow(context, lexer, lo, params)?)
    }

    /// What stands in parentheses behind the first of several and its comma, up to the `)`, which isn't taken: `b, c`, `...d`, or
    /// nothing.
    fn group<'s>(
        &self,
        context: Context,
        lexer: &mut Lexer<'s>,
        first: Cover<'s>,
    ) -> Result<Group<'s>, ParseError>
        requires nests { ReadsWithin (suc (left lexer.old)) (F.pre self.now.brackets.within.inner) (F.post self.now.brackets.within.inner) self.now.brackets.within.body }
        requires bodies { ReadsBodies (left lexer.old) (B.pre self.now.brackets.within.body) (B.post self.now.brackets.within.body) }
        ensures read { IfOk result (λ q. OnlyGroup (around_of context.entry.around) first.entry q (place_of lexer.old) (place_of lexer.new)) }
        ensures placed { IfOk result (λ q. IsPlacedGroup first.entry q lexer.old lexer.new) }
        ensures rest { IfOk result (λ q. IfSome q.rest (λ p. is_word (view_pat p.value) ≡ false)) }
        ensures within { OnOk result (left lexer.new ≤ left lexer.old) }
        ensures refused { Refused context.entry.levels result (NoGroup (around_of context.entry.around) first.entry (place_of lexer.old)) }
    {
        let mut all = Vec::with_capacity(context.alloc, 2)?;
        all.push(first)?;
        'items: loop {
            if lexer.is_before(Fixed::Close) {
                return Ok(Group {
                    all,
                    rest: None,
                    trails: true,
                });
            }
            if lexer.take(Fixed::Dots) {
                let rest = self.brackets.within.rest_pattern(context, lexer)?;
                return Ok(Group {
                    all,
                    rest: Some(rest),
                    trails: false,
                });
            }
            let next = self.brackets.cover(context, lexer)?;
            all.push(next)?;
            if !lexer.take(Fixed::Comma) {
                return Ok(Group {
                    all,
                    rest: None,
                    trails: false,
                });
            }
        }
    }

    /// What begins with a `(`, behind the first of several that stand in the parentheses, and its comma.
    #[inline(never)]
    fn several<'s>(
        &self,
        context: Context,
        lexer: &mut Lexer<'s>,
        lo: BytePos,
        first: Cover<'s>,
    ) -> Result<Box<Expr<'s>>, ParseError>
        requires nests { ReadsWithin (suc (left lexer.old)) (F.pre self.now.brackets.within.inner) (F.post self.now.brackets.within.inner) self.now.brackets.within.body }
        requires bodies { ReadsBodies (left lexer.old) (B.pre self.now.brackets.within.body) (B.post self.now.brackets.within.body) }
        ensures read { IfOk result (λ e. SeveralEnd (around_of context.entry.around) first.entry (view_expr e.value) (place_of lexer.old) (place_of lexer.new)) }
        ensures span { IfOk result (λ e. Spans (expr_at e.value) lo.0 (end_of lexer.new)) }
        ensures placed { IfOk result (λ e. IsPlacedSeveral lo.0 first.entry lexer.old (told_expr e.value) (view_expr e.value) lexer.new) }
        ensures shorter { OnOk result (left lexer.new < left lexer.old) }
        ensures ended { OnOk result (IsTrue (closed (place_of lexer.new))) }
        ensures settles { IfOk result (λ e. Settles (climbing.level (view_expr e.value)) (place_of lexer.new)) }
        ensures refused { Refused context.entry.levels result (NoSeveralEnd (around_of context.entry.around) first.entry (place_of lexer.old)) }
    {
        let begin = start_of(&first.expr);
        let group = self.group(context, lexer, first)?;
        let span = span_to(begin, lexer);
        expect(context, lexer, Fixed::Close)?;
        if lexer.is_before_arrow() {
            let params = parameters_of(context.alloc, lexer.failing_place(), group)?;
            return Ok(self.arrow(context, lexer, lo, params)?);
        }
        let Group { all, rest, trails } = group;
        if trails {
            return Err(give_up(lexer));
        }
        if rest.is_some() {
            return Err(give_up(lexer));
        }
        let all = exprs_of(context.alloc, lexer, all)?;
        let inner = make::sequence(context.alloc, span, all)?;
        Ok(make::paren(context.alloc, span_to(lo, lexer), inner)?)
    }

    /// An arrow function behind its parentheses, which begin at a place: `=> b`, `=> { b; }`. The `=>` stands on the line of the `)`.
    pub(crate) fn arrow<'s>(
        &self,
        context: Context,
        lexer: &mut Lexer<'s>,
        lo: BytePos,
        params: Parameters<'s>,
    ) -> Result<Box<Expr<'s>>, ParseError>
        requires nests { ReadsWithin (suc (left lexer.old)) (F.pre self.now.brackets.within.inner) (F.post self.now.brackets.within.inner) self.now.brackets.within.body }
        requires bodies { ReadsBodies (left lexer.old) (B.pre self.now.brackets.within.body) (B.post self.now.brackets.within.body) }
        requires simple { params.are_simple ≡ all_of is_word (view_params params) }
        ensures read { IfOk result (λ e. ArrowEnds (around_of context.entry.around) (view_params params.entry) (view_expr e.value) (place_of lexer.old) (place_of lexer.new)) }
        ensures span { IfOk result (λ e. Spans (expr_at e.value) lo.0 (end_of lexer.new)) }
        ensures placed { IfOk result (λ e. IsPlacedArrow lo.0 params.entry lexer.old (told_expr e.value) (view_expr e.value) lexer.new) }
        ensures shorter { OnOk result (left lexer.new < left lexer.old) }
        ensures ended { OnOk result (IsTrue (closed (place_of lexer.new))) }
        ensures refused { Refused context.entry.levels result (NoArrowEnd (around_of context.entry.around) (view_params params.entry) (place_of lexer.old)) }
    {
        let Parameters { all, are_simple } = params;
        let body = self.arrow_end(context, lexer)?;
        if !agrees(are_simple, &body) {
            return Err(give_up(lexer));
        }
        let span = span_to(lo, lexer);
        Ok(arrow_of(context.alloc, span, all, body)?)
    }

    /// An arrow function without parentheses behind its parameter, which begins at a place: `=> b`, `=> { b; }` (ECMA-262 section 15.3). It
    /// counts from the `=>` on, which comes next, and its parameter stands within it.
    #[inline(never)]
    pub(crate) fn bare_arrow<'s>(
        &self,
        context: Context,
        lexer: &mut Lexer<'s>,
        lo: BytePos,
        parameter: Ident<'s>,
    ) -> Result<Box<Expr<'s>>, ParseError>
        requires nests { ReadsWithin (suc (left lexer.old)) (F.pre self.now.brackets.within.inner) (F.post self.now.brackets.within.inner) self.now.brackets.within.body }
        requires bodies { ReadsBodies (left lexer.old) (B.pre self.now.brackets.within.body) (B.post self.now.brackets.within.body) }
        ensures read { IfOk result (λ e. BareEnds (around_of context.entry.around) (name_of parameter.entry) (view_expr e.value) (place_of lexer.old) (place_of lexer.new)) }
        ensures span { IfOk result (λ e. Spans (expr_at e.value) lo.0 (end_of lexer.new)) }
        ensures placed { IfOk result (λ e. IsPlacedPast lo.0 (told_text parameter.entry.text) (name_of parameter.entry) lexer.old (told_expr e.value) (view_expr e.value) lexer.new) }
        ensures shorter { OnOk result (left lexer.new < left lexer.old) }
        ensures ended { OnOk result (IsTrue (closed (place_of lexer.new))) }
        ensures refused { Refused context.entry.levels result (NoBareEnd (around_of context.entry.around) (name_of parameter.entry) (place_of lexer.old)) }
    {
        let at = lexer.failing_place();
        let levels = within_at(context, at)?;
        let inside = Context { levels, ..context };
        within_at(inside, at)?;
        let body = self.arrow_end(inside, lexer)?;
        let span = span_to(lo, lexer);
        Ok(bare_arrow_of(context.alloc, span, parameter, body)?)
    }

    /// What stands behind the parameters of an arrow function, with its `=>`, whatever the function stands in.
    fn arrow_end<'s>(
        &self,
        context: Context,
        lexer: &mut Lexer<'s>,
    ) -> Result<ArrowBody<'s>, ParseError>
        requires nests { ReadsWithin (suc (left lexer.old)) (F.pre self.now.brackets.within.inner) (F.post self.now.brackets.within.inner) self.now.brackets.within.body }
        requires bodies { ReadsBodies (left lexer.old) (B.pre self.now.brackets.within.body) (B.post self.now.brackets.within.body) }
        ensures read { IfOk result (λ b. OnlyArrowEnd (around_of context.entry.around) b (place_of lexer.old) (place_of lexer.new)) }
        ensures placed { IfOk result (λ b. IsPlacedArrowEnd b lexer.old lexer.new) }
        ensures shorter { OnOk result (left lexer.new < left lexer.old) }
        ensures ended { OnOk result (IsTrue (closed (place_of lexer.new))) }
        ensures refused { Refused context.entry.levels result (NoEnd (around_of context.entry.around) (place_of lexer.old)) }
    {
        if !lexer.is_on_line() {
            return Err(give_up(lexer));
        }
        expect(context, lexer, Fixed::Arrow)?;
        let labels = Labels::None;
        let body = self.arrow_body(context.of_arrow(&labels), lexer)?;
        Ok(body)
    }

    /// What an arrow function does, behind its `=>`, in what it does: `a`, `{ a; }`.
    fn arrow_body<'s>(
        &self,
        context: Context,
        lexer: &mut Lexer<'s>,
    ) -> Result<ArrowBody<'s>, ParseError>
        requires nests { ReadsWithin (suc (left lexer.old)) (F.pre self.now.brackets.within.inner) (F.post self.now.brackets.within.inner) self.now.brackets.within.body }
        requires bodies { ReadsBodies (left lexer.old) (B.pre self.now.brackets.within.body) (B.post self.now.brackets.within.body) }
        ensures read { IfOk result (λ b. OnlyArrowBody (around_of context.entry.around) b (place_of lexer.old) (place_of lexer.new)) }
        ensures placed { IfOk result (λ b. IsPlacedArrowBody b lexer.old lexer.new) }
        ensures shorter { OnOk result (left lexer.new < left lexer.old) }
        ensures ended { OnOk result (IsTrue (closed (place_of lexer.new))) }
        ensures refused { Refused context.entry.levels result (NoArrowBody (around_of context.entry.around) (place_of lexer.old)) }
    {
        if !lexer.take(Fixed::OpenBrace) {
            let value = self.brackets.within.inner(context, lexer, ASSIGNMENT)?;
            return Ok(ArrowBody::Value(value));
        }
        let body = self.brackets.within.body(context, lexer)?;
        lexer.ends(Ending::Block);
        Ok(ArrowBody::Block(body))
    }
}

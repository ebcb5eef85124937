//! Functions, with their parameters and their bodies (ECMA-262 sections 15.1 and 15.2).

ghost use Rattle.std.specs.Prelude.{◌≡◌, ◌<◌, ◌≤◌, ◌||◌, IfOk, OnOk, IsTrue, map, not, suc, true};
ghost use Rattle.jsx_tree.specs.Kinds.{FunctionExpr, function, list, none, part};
ghost use Rattle.jsx_tree.specs.Nonterminals as grammar;
ghost use Rattle.jsx_tree.specs.Grammar.{Part};
ghost use Rattle.jsx_tree.specs.StaticRules.{all_of, has_plain_params, is_strict_body, is_word};
ghost use Rattle.jsx_tree.specs.Told.{told_expr, told_ident, told_list, told_name, told_optional, told_pat};
ghost use Rattle.jsx_tree.specs.View.{forest, inside, name_of, optional_name, optional_of, view_expr, view_pat};
ghost use Rattle.jsx_tree.specs.Walk.{tail};
ghost use Rattle.jsx_tree.specs.Answers.{Barred, BuiltNode, NoNode, NoRow, OnlyRow};
ghost use Rattle.jsx_make.specs.NodeSpans.{expr_at};
ghost use Rattle.jsx_operand.specs.Around.{around_of};
ghost use Rattle.jsx_operand.specs.Answers.{Refused};
ghost use Rattle.jsx_operand.specs.Bodies.{ReadsBodies, view_body};
ghost use Rattle.jsx_operand.specs.SoFar.{so_far};
ghost use Rattle.jsx_operand.specs.Spans.{IsPlaced, IsPlacedBehind, IsPlacedFront, IsPlacedRow, Spans};
ghost use Rattle.jsx_token.specs.Growths.{opening_sign, settled};
ghost use Rattle.jsx_token.specs.Here.{left, place_of};
ghost use Rattle.jsx_token.specs.Marks.{row_so_far};
ghost use Rattle.jsx_token.specs.Places.{begin_of, end_of};
ghost use Rattle.jsx_function.specs.Functions.{IsNamed, NoCode, NoNamed, NoOwnCode, OnlyParam, code_row, code_symbols, name_symbols, named_parts, named_row, named_symbols, own_row, params_row, params_symbols, parts_of, told_named, told_parts};
ghost use Rattle.jsx_function.specs.Within.{ReadsWithin};

use crate::grammar::Within;
use jsx_make::make;
use jsx_operand::parser::{bound_name, expect, give_up, span_to};
use jsx_operand::pattern::is_compound;
use jsx_operand::{Body, Context, Cover, Labels, ParseError};
use jsx_token::{Fixed, Lexer};
use jsx_tree::{Expr, Ident, Pat};
use std::alloc::{AllocError, Global};

/// What stands behind the name of a function: its parameters, and its body.
#[derive(Drop)]
pub struct FunctionCode<'s> {
    pub params: Vec<Box<Pat<'s>>>,
    pub body: Body<'s>,
}

/// The same with a name before it, or none.
#[derive(Drop)]
pub struct NamedFunction<'s> {
    pub name: Option<Ident<'s>>,
    pub code: FunctionCode<'s>,
}

/// A parameter, and whether it is a name alone.
#[derive(Drop)]
pub(crate) struct Parameter<'s> {
    pub(crate) pattern: Box<Pat<'s>>,
    pub(crate) is_simple: bool,
}

/// Parameters, and whether all of them are names alone (ECMA-262 section 15.1.3).
#[derive(Drop)]
pub struct Parameters<'s> {
    pub all: Vec<Box<Pat<'s>>>,
    pub are_simple: bool,
}

/// Whether parameters may stand before a body: those before one that a directive of its own makes strict are names alone.
pub fn suits(are_simple: bool, body: &Body) -> bool
    ensures { result ≡ (are_simple || not (is_strict_body (view_body body.now))) }
{
    are_simple || !body.is_strict()
}

/// The name of a function that may have none.
pub(crate) fn function_name<'s>(
    context: Context,
    lexer: &mut Lexer<'s>,
) -> Result<Option<Ident<'s>>, ParseError>
    ensures read { IfOk result (λ n. IsNamed (around_of context.entry.around) (place_of lexer.old) (optional_name n) (place_of lexer.new)) }
    ensures placed { IfOk result (λ n. IsPlacedFront name_symbols (told_name n) (optional_name n) lexer.old lexer.new) }
    ensures within { OnOk result (left lexer.new ≤ left lexer.old) }
    ensures refused { Refused context.entry.levels result (NoRow so_far (around_of context.entry.around) named_row (place_of lexer.old)) }
{
    if lexer.is_before(Fixed::Open) {
        return Ok(None);
    }
    let name = bound_name(context, lexer)?;
    Ok(Some(name))
}

/// A name in a box, where there is one.
pub(crate) fn boxed_name<'s>(
    alloc: Global,
    name: Option<Ident<'s>>,
) -> Result<Option<Box<Ident<'s>>>, AllocError>
    ensures view { IfOk result (λ n. optional_of name_of n ≡ optional_name name.entry) }
    ensures told { IfOk result (λ n. told_optional told_ident n ≡ told_name name.entry) }
{
    let Some(name) = name else {
        return Ok(None);
    };
    match Box::new(alloc, name) {
        Ok(made) => Ok(Some(made)),
        Err(_) => Err(AllocError),
    }
}

impl<
    F: for<'c, 's> Fn(Context<'c>, &mut Lexer<'s>, u8, B) -> Result<Cover<'s>, ParseError>,
    B: Copy + for<'c, 's> Fn(Context<'c>, &mut Lexer<'s>) -> Result<Body<'s>, ParseError>,
> Within<F, B> {
    /// A parameter: a pattern, one with a default, or a rest, behind which no comma stands: `a`, `[a] = b`, `...a` (ECMA-262
    /// section 15.1).
    pub(crate) fn parameter<'s>(
        &self,
        context: Context,
        lexer: &mut Lexer<'s>,
    ) -> Result<Parameter<'s>, ParseError>
        requires nests { ReadsWithin (suc (left lexer.old)) (F.pre self.now.inner) (F.post self.now.inner) self.now.body }
        requires bodies { ReadsBodies (left lexer.old) (B.pre self.now.body) (B.post self.now.body) }
        ensures read { IfOk result (λ p. OnlyParam (around_of context.entry.around) (place_of lexer.old) (view_pat p.pattern.value) (place_of lexer.new)) }
        ensures simple { IfOk result (λ p. p.is_simple ≡ is_word (view_pat p.pattern.value)) }
        ensures placed { IfOk result (λ p. IsPlaced (told_pat p.pattern.value) (view_pat p.pattern.value) lexer.old lexer.new) }
        ensures shorter { OnOk result (left lexer.new < left lexer.old) }
        ensures refused { Refused context.entry.levels result (Barred so_far (around_of context.entry.around) (Part grammar.Param) (place_of lexer.old)) }
    {
        if lexer.take(Fixed::Dots) {
            let pattern = self.rest_pattern(context, lexer)?;
            return Ok(Parameter {
                pattern,
                is_simple: false,
            });
        }
        let pattern = self.element(context, lexer)?;
        let is_simple = !is_compound(&pattern);
        Ok(Parameter { pattern, is_simple })
    }

    /// Parameters behind their `(`, with the `)`: `a, b = c, ...d)`.
    pub fn parameters<'s>(
        &self,
        context: Context,
        lexer: &mut Lexer<'s>,
    ) -> Result<Parameters<'s>, ParseError>
        requires nests { ReadsWithin (suc (left lexer.old)) (F.pre self.now.inner) (F.post self.now.inner) self.now.body }
        requires bodies { ReadsBodies (left lexer.old) (B.pre self.now.body) (B.post self.now.body) }
        ensures read { IfOk result (λ q. OnlyRow so_far (around_of context.entry.around) params_row (place_of lexer.old) (part (list (forest (map (inside view_pat) q.all.items))) none) (place_of lexer.new)) }
        ensures simple { IfOk result (λ q. q.are_simple ≡ all_of is_word (forest (map (inside view_pat) q.all.items))) }
        ensures placed { IfOk result (λ q. IsPlacedFront params_symbols (told_list (map (inside told_pat) q.all.items)) (list (forest (map (inside view_pat) q.all.items))) lexer.old lexer.new) }
        ensures shorter { OnOk result (left lexer.new < left lexer.old) }
        ensures refused { Refused context.entry.levels result (NoRow so_far (around_of context.entry.around) params_row (place_of lexer.old)) }
    {
        let mut all = Vec::new(context.alloc);
        let mut are_simple = true;
        'parameters: while !lexer.take(Fixed::Close) {
            let parameter = self.parameter(context, lexer)?;
            are_simple = are_simple & parameter.is_simple;
            all.push(parameter.pattern)?;
            if !lexer.take(Fixed::Comma) {
                expect(context, lexer, Fixed::Close)?;
                return Ok(Parameters { all, are_simple });
            }
        }
        Ok(Parameters { all, are_simple })
    }

    /// What stands behind the name of a function, in what that does: `(a, b = c, ...d) { e }` (ECMA-262 section 15.2).
    pub(crate) fn own_code<'s>(
        &self,
        context: Context,
        lexer: &mut Lexer<'s>,
    ) -> Result<FunctionCode<'s>, ParseError>
        requires nests { ReadsWithin (suc (left lexer.old)) (F.pre self.now.inner) (F.post self.now.inner) self.now.body }
        requires bodies { ReadsBodies (left lexer.old) (B.pre self.now.body) (B.post self.now.body) }
        ensures read { IfOk result (λ f. OnlyRow so_far (around_of context.entry.around) own_row (place_of lexer.old) (parts_of f) (place_of lexer.new)) }
        ensures plain { IfOk result (λ f. has_plain_params (parts_of f) ≡ true) }
        ensures placed { IfOk result (λ f. IsPlacedRow code_symbols (told_parts f) (parts_of f) lexer.old lexer.new) }
        ensures shorter { OnOk result (left lexer.new < left lexer.old) }
        ensures ended { OnOk result (IsTrue (settled (place_of lexer.new))) }
        ensures refused { Refused context.entry.levels result (NoOwnCode (around_of context.entry.around) (place_of lexer.old)) }
    {
        expect(context, lexer, Fixed::Open)?;
        let Parameters {
            all: params,
            are_simple,
        } = self.parameters(context, lexer)?;
        expect(context, lexer, Fixed::OpenBrace)?;
        let body = self.body(context, lexer)?;
        if !suits(are_simple, &body) {
            return Err(give_up(lexer));
        }
        Ok(FunctionCode { params, body })
    }

    /// The same, whatever the function stands in.
    pub fn function_code<'s>(
        &self,
        context: Context,
        lexer: &mut Lexer<'s>,
    ) -> Result<FunctionCode<'s>, ParseError>
        requires nests { ReadsWithin (suc (left lexer.old)) (F.pre self.now.inner) (F.post self.now.inner) self.now.body }
        requires bodies { ReadsBodies (left lexer.old) (B.pre self.now.body) (B.post self.now.body) }
        ensures read { IfOk result (λ f. OnlyRow so_far (around_of context.entry.around) code_row (place_of lexer.old) (parts_of f) (place_of lexer.new)) }
        ensures plain { IfOk result (λ f. has_plain_params (parts_of f) ≡ true) }
        ensures placed { IfOk result (λ f. IsPlacedRow code_symbols (told_parts f) (parts_of f) lexer.old lexer.new) }
        ensures shorter { OnOk result (left lexer.new < left lexer.old) }
        ensures ended { OnOk result (IsTrue (settled (place_of lexer.new))) }
        ensures refused { Refused context.entry.levels result (NoCode (around_of context.entry.around) (place_of lexer.old)) }
    {
        let labels = Labels::None;
        let code = self.own_code(context.of_function(&labels), lexer)?;
        Ok(code)
    }

    /// The same with a name before it, or none.
    pub fn named_function<'s>(
        &self,
        context: Context,
        lexer: &mut Lexer<'s>,
    ) -> Result<NamedFunction<'s>, ParseError>
        requires nests { ReadsWithin (suc (left lexer.old)) (F.pre self.now.inner) (F.post self.now.inner) self.now.body }
        requires bodies { ReadsBodies (left lexer.old) (B.pre self.now.body) (B.post self.now.body) }
        ensures read { IfOk result (λ f. OnlyRow so_far (around_of context.entry.around) named_row (place_of lexer.old) (named_parts f) (place_of lexer.new)) }
        ensures plain { IfOk result (λ f. has_plain_params (named_parts f) ≡ true) }
        ensures placed { IfOk result (λ f. IsPlacedRow named_symbols (told_named f) (named_parts f) lexer.old lexer.new) }
        ensures shorter { OnOk result (left lexer.new < left lexer.old) }
        ensures ended { OnOk result (IsTrue (settled (place_of lexer.new))) }
        ensures refused { Refused context.entry.levels result (NoNamed (around_of context.entry.around) (place_of lexer.old)) }
    {
        let name = function_name(context, lexer)?;
        let code = self.function_code(context, lexer)?;
        Ok(NamedFunction { name, code })
    }

    /// A function behind its word: `function a(b) { c }` (ECMA-262 section 15.2). It is kept out of the frame of what opens an
    /// expression.
    #[inline(never)]
    pub fn function_expression<'s>(
        &self,
        context: Context,
        lexer: &mut Lexer<'s>,
    ) -> Result<Box<Expr<'s>>, ParseError>
        requires nests { ReadsWithin (suc (left lexer.old)) (F.pre self.now.inner) (F.post self.now.inner) self.now.body }
        requires bodies { ReadsBodies (left lexer.old) (B.pre self.now.body) (B.post self.now.body) }
        ensures read { IfOk result (λ e. BuiltNode so_far (around_of context.entry.around) (tail (row_so_far (function FunctionExpr))) (function FunctionExpr) (view_expr e.value) (place_of lexer.old) (place_of lexer.new)) }
        ensures span { IfOk result (λ e. Spans (expr_at e.value) (begin_of lexer.old) (end_of lexer.new)) }
        ensures placed { IfOk result (λ e. IsPlacedBehind (opening_sign (function FunctionExpr)) lexer.old (told_expr e.value) (view_expr e.value) lexer.new) }
        ensures shorter { OnOk result (left lexer.new < left lexer.old) }
        ensures ended { OnOk result (IsTrue (settled (place_of lexer.new))) }
        ensures refused { Refused context.entry.levels result (NoNode so_far (around_of context.entry.around) (tail (row_so_far (function FunctionExpr))) (function FunctionExpr) (place_of lexer.old)) }
    {
        let lo = lexer.last_place();
        let read = self.named_function(context, lexer)?;
        let span = span_to(lo, lexer);
        let name = boxed_name(context.alloc, read.name)?;
        let FunctionCode { params, body } = read.code;
        let Body {
            directives,
            statements,
        } = body;
        Ok(make::function_expression(context.alloc, span, name, params, directives, statements)?)
    }
}

//! Functions, classes and the patterns that bind names, with the expressions within them.

ghost use Rattle.std.specs.Prelude.{◌≡◌, ◌<◌, IfOk, OnOk, IsTrue, true};
ghost use Rattle.jsx_tree.specs.Kinds.{Binds, ClassExpr, function};
ghost use Rattle.jsx_tree.specs.Nonterminals as grammar;
ghost use Rattle.jsx_tree.specs.Grammar.{Part};
ghost use Rattle.jsx_tree.specs.StaticRules.{has_plain_params};
ghost use Rattle.jsx_tree.specs.Told.{told_expr, told_pat};
ghost use Rattle.jsx_tree.specs.View.{view_expr, view_pat};
ghost use Rattle.jsx_tree.specs.Walk.{one};
ghost use Rattle.jsx_tree.specs.Answers.{Barred, Only, OnlyRow};
ghost use Rattle.jsx_make.specs.NodeSpans.{expr_at, pat_at};
ghost use Rattle.jsx_operand.specs.Around.{around_of};
ghost use Rattle.jsx_operand.specs.Answers.{Refused};
ghost use Rattle.jsx_operand.specs.Bodies.{ReadsBodies};
ghost use Rattle.jsx_operand.specs.Openings.{NoParts, OnlyParts};
ghost use Rattle.jsx_operand.specs.SoFar.{so_far};
ghost use Rattle.jsx_operand.specs.Spans.{IsPlaced, IsPlacedBehind, IsPlacedRow, Spans};
ghost use Rattle.jsx_token.specs.Growths.{opening_sign, settled};
ghost use Rattle.jsx_token.specs.Here.{left, place_of};
ghost use Rattle.jsx_token.specs.Places.{begin_of, end_of, next_of};
ghost use Rattle.jsx_function.specs.Classes.{NoClass, OnlyClass, class_parts, class_symbols, keep_members, told_class};
ghost use Rattle.jsx_function.specs.Functions.{NoCode, NoNamed, code_row, code_symbols, named_parts, named_row, named_symbols, parts_of, told_named, told_parts};

use crate::expression::cover;
use jsx_function::Within;
use jsx_function::class::ClassCode;
use jsx_function::function::{FunctionCode, NamedFunction};
use jsx_operand::{Body, Context, ParseError};
use jsx_token::Lexer;
use jsx_tree::{Expr, Pat};

/// What binds names: a name, or a pattern in brackets (ECMA-262 section 14.3.3).
pub fn binding<'s, B>(
    context: Context,
    lexer: &mut Lexer<'s>,
    body: B,
) -> Result<Box<Pat<'s>>, ParseError>
where
    B: Copy + for<'c, 't> Fn(Context<'c>, &mut Lexer<'t>) -> Result<Body<'t>, ParseError>,
    requires bodies { ReadsBodies (left lexer.old) (B.pre body) (B.post body) }
    ensures read { IfOk result (λ p. Only so_far (around_of context.entry.around) (Part (grammar.Pat Binds)) (place_of lexer.old) (one (view_pat p.value)) (place_of lexer.new)) }
    ensures span { IfOk result (λ p. Spans (pat_at p.value) (next_of lexer.old) (end_of lexer.new)) }
    ensures placed { IfOk result (λ p. IsPlaced (told_pat p.value) (view_pat p.value) lexer.old lexer.new) }
    ensures shorter { OnOk result (left lexer.new < left lexer.old) }
    ensures refused { Refused context.entry.levels result (Barred so_far (around_of context.entry.around) (Part (grammar.Pat Binds)) (place_of lexer.old)) }
{
    Within {
        inner: cover::<B>,
        body,
    }
    .binding(context, lexer)
}

/// What stands behind the name of a function: `(a, b = c, ...d) { e }` (ECMA-262 section 15.2). It stands in what a function
/// does, whatever stands outside.
pub fn function_code<'s, B>(
    context: Context,
    lexer: &mut Lexer<'s>,
    body: B,
) -> Result<FunctionCode<'s>, ParseError>
where
    B: Copy + for<'c, 't> Fn(Context<'c>, &mut Lexer<'t>) -> Result<Body<'t>, ParseError>,
    requires bodies { ReadsBodies (left lexer.old) (B.pre body) (B.post body) }
    ensures read { IfOk result (λ f. OnlyRow so_far (around_of context.entry.around) code_row (place_of lexer.old) (parts_of f) (place_of lexer.new)) }
    ensures plain { IfOk result (λ f. has_plain_params (parts_of f) ≡ true) }
    ensures placed { IfOk result (λ f. IsPlacedRow code_symbols (told_parts f) (parts_of f) lexer.old lexer.new) }
    ensures shorter { OnOk result (left lexer.new < left lexer.old) }
    ensures ended { OnOk result (IsTrue (settled (place_of lexer.new))) }
    ensures refused { Refused context.entry.levels result (NoCode (around_of context.entry.around) (place_of lexer.old)) }
{
    Within {
        inner: cover::<B>,
        body,
    }
    .function_code(context, lexer)
}

/// The same with a name before it, or none.
pub fn named_function<'s, B>(
    context: Context,
    lexer: &mut Lexer<'s>,
    body: B,
) -> Result<NamedFunction<'s>, ParseError>
where
    B: Copy + for<'c, 't> Fn(Context<'c>, &mut Lexer<'t>) -> Result<Body<'t>, ParseError>,
    requires bodies { ReadsBodies (left lexer.old) (B.pre body) (B.post body) }
    ensures read { IfOk result (λ f. OnlyRow so_far (around_of context.entry.around) named_row (place_of lexer.old) (named_parts f) (place_of lexer.new)) }
    ensures plain { IfOk result (λ f. has_plain_params (named_parts f) ≡ true) }
    ensures placed { IfOk result (λ f. IsPlacedRow named_symbols (told_named f) (named_parts f) lexer.old lexer.new) }
    ensures shorter { OnOk result (left lexer.new < left lexer.old) }
    ensures ended { OnOk result (IsTrue (settled (place_of lexer.new))) }
    ensures refused { Refused context.entry.levels result (NoNamed (around_of context.entry.around) (place_of lexer.old)) }
{
    Within {
        inner: cover::<B>,
        body,
    }
    .named_function(context, lexer)
}

/// What stands behind the name of a class: ` extends A { b() {} }` (ECMA-262 section 15.7).
pub fn class_code<'s, B>(
    context: Context,
    lexer: &mut Lexer<'s>,
    body: B,
) -> Result<ClassCode<'s>, ParseError>
where
    B: Copy + for<'c, 't> Fn(Context<'c>, &mut Lexer<'t>) -> Result<Body<'t>, ParseError>,
    requires bodies { ReadsBodies (left lexer.old) (B.pre body) (B.post body) }
    ensures read { IfOk result (λ c. OnlyClass (around_of context.entry.around) (place_of lexer.old) (class_parts c) (place_of lexer.new)) }
    ensures kept { IfOk result (λ c. keep_members (class_parts c)) }
    ensures placed { IfOk result (λ c. IsPlacedRow class_symbols (told_class c) (class_parts c) lexer.old lexer.new) }
    ensures shorter { OnOk result (left lexer.new < left lexer.old) }
    ensures ended { OnOk result (IsTrue (settled (place_of lexer.new))) }
    ensures refused { Refused context.entry.levels result (NoClass (around_of context.entry.around) (place_of lexer.old)) }
{
    Within {
        inner: cover::<B>,
        body,
    }
    .class_code(context, lexer)
}

/// A class behind its word, as an expression and as what a module exports as its default.
pub fn class_expression<'s, B>(
    context: Context,
    lexer: &mut Lexer<'s>,
    body: B,
) -> Result<Box<Expr<'s>>, ParseError>
where
    B: Copy + for<'c, 't> Fn(Context<'c>, &mut Lexer<'t>) -> Result<Body<'t>, ParseError>,
    requires bodies { ReadsBodies (left lexer.old) (B.pre body) (B.post body) }
    ensures read { IfOk result (λ e. OnlyParts (around_of context.entry.around) (function ClassExpr) (view_expr e.value) (place_of lexer.old) (place_of lexer.new)) }
    ensures span { IfOk result (λ e. Spans (expr_at e.value) (begin_of lexer.old) (end_of lexer.new)) }
    ensures placed { IfOk result (λ e. IsPlacedBehind (opening_sign (function ClassExpr)) lexer.old (told_expr e.value) (view_expr e.value) lexer.new) }
    ensures shorter { OnOk result (left lexer.new < left lexer.old) }
    ensures ended { OnOk result (IsTrue (settled (place_of lexer.new))) }
    ensures refused { Refused context.entry.levels result (NoParts (around_of context.entry.around) (function ClassExpr) (place_of lexer.old)) }
{
    Within {
        inner: cover::<B>,
        body,
    }
    .class_expression(context, lexer)
}

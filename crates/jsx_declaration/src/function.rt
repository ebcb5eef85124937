//! Declarations of functions and of classes, and what a function returns (ECMA-262 sections 14.10, 15.2 and 15.7).

ghost use Rattle.std.specs.Prelude.{◌≤◌, IfOk, OnOk};
ghost use Rattle.jsx_tree.specs.Kinds.{ClassDecl, FunctionDecl, Return, statement, none, part};
ghost use Rattle.jsx_tree.specs.View.{optional_of, view_expr, view_stmt};
ghost use Rattle.jsx_tree.specs.Spans.{no_tales, tale};
ghost use Rattle.jsx_tree.specs.Told.{told_expr, told_optional, told_stmt};
ghost use Rattle.jsx_tree.specs.Walk.{tail};
ghost use Rattle.jsx_tree.specs.Answers.{OnlyRow, NoRow, NoNode, BuiltNode};
ghost use Rattle.jsx_make.specs.NodeSpans.{stmt_at};
ghost use Rattle.jsx_token.specs.Growths.{opening_sign};
ghost use Rattle.jsx_token.specs.Here.{place_of, left};
ghost use Rattle.jsx_token.specs.Marks.{row_so_far};
ghost use Rattle.jsx_token.specs.Places.{begin_of, end_of};
ghost use Rattle.jsx_operand.specs.Answers.{Refused};
ghost use Rattle.jsx_operand.specs.Around.{around_of};
ghost use Rattle.jsx_operand.specs.Bodies.{ReadsBodies};
ghost use Rattle.jsx_operand.specs.Openings.{NoParts, OnlyParts};
ghost use Rattle.jsx_operand.specs.SoFar.{so_far};
ghost use Rattle.jsx_operand.specs.Spans.{IsPlacedBehind, IsPlacedRow, Spans};
ghost use Rattle.jsx_declaration.specs.Functions.{returned_symbols};

use jsx_expression::expression::sequence;
use jsx_expression::function::{class_code, function_code};
use jsx_function::class::ClassCode;
use jsx_function::function::FunctionCode;
use jsx_make::make;
use jsx_operand::parser::bound_name;
use jsx_operand::{Body, Context, ParseError, give_up, semicolon, span_to};
use jsx_token::{Ending, Lexer};
use jsx_tree::{Expr, Stmt};

/// A declaration of a function behind its word: `function a(b) { c; }` (ECMA-262 section 15.2).
pub fn function_declaration<'s, B>(
    context: Context,
    lexer: &mut Lexer<'s>,
    body: B,
) -> Result<Box<Stmt<'s>>, ParseError>
where
    B: Copy + for<'c, 't> Fn(Context<'c>, &mut Lexer<'t>) -> Result<Body<'t>, ParseError>,
    requires bodies { ReadsBodies (left lexer.old) (B.pre body) (B.post body) }
    ensures read { IfOk result (λ s. BuiltNode so_far (around_of context.entry.around) (tail (row_so_far (statement FunctionDecl))) (statement FunctionDecl) (view_stmt s.value) (place_of lexer.old) (place_of lexer.new)) }
    ensures span { IfOk result (λ s. Spans (stmt_at s.value) (begin_of lexer.old) (end_of lexer.new)) }
    ensures placed { IfOk result (λ s. IsPlacedBehind (opening_sign (statement FunctionDecl)) lexer.old (told_stmt s.value) (view_stmt s.value) lexer.new) }
    ensures within { OnOk result (left lexer.new ≤ left lexer.old) }
    ensures refused { Refused context.entry.levels result (NoNode so_far (around_of context.entry.around) (tail (row_so_far (statement FunctionDecl))) (statement FunctionDecl) (place_of lexer.old)) }
{
    let lo = lexer.last_place();
    let name = bound_name(context, lexer)?;
    let FunctionCode { params, body } = function_code(context, lexer, body)?;
    let Body {
        directives,
        statements,
    } = body;
    let span = span_to(lo, lexer);
    Ok(make::function_declaration(context.alloc, span, name, params, directives, statements)?)
}

/// A declaration of a class behind its word: `class A extends B { c() {} }` (ECMA-262 section 15.7).
pub fn class_declaration<'s, B>(
    context: Context,
    lexer: &mut Lexer<'s>,
    body: B,
) -> Result<Box<Stmt<'s>>, ParseError>
where
    B: Copy + for<'c, 't> Fn(Context<'c>, &mut Lexer<'t>) -> Result<Body<'t>, ParseError>,
    requires bodies { ReadsBodies (left lexer.old) (B.pre body) (B.post body) }
    ensures read { IfOk result (λ s. OnlyParts (around_of context.entry.around) (statement ClassDecl) (view_stmt s.value) (place_of lexer.old) (place_of lexer.new)) }
    ensures span { IfOk result (λ s. Spans (stmt_at s.value) (begin_of lexer.old) (end_of lexer.new)) }
    ensures placed { IfOk result (λ s. IsPlacedBehind (opening_sign (statement ClassDecl)) lexer.old (told_stmt s.value) (view_stmt s.value) lexer.new) }
    ensures within { OnOk result (left lexer.new ≤ left lexer.old) }
    ensures refused { Refused context.entry.levels result (NoParts (around_of context.entry.around) (statement ClassDecl) (place_of lexer.old)) }
{
    let lo = lexer.last_place();
    let name = bound_name(context.of_class(), lexer)?;
    let ClassCode { heritage, members } = class_code(context, lexer, body)?;
    let span = span_to(lo, lexer);
    Ok(make::class_declaration(context.alloc, span, name, heritage, members)?)
}

/// What stands behind `return`, with its semicolon: ` a;`, or `;`. What begins on a new line is no value.
fn returned<'s, B>(
    context: Context,
    lexer: &mut Lexer<'s>,
    body: B,
) -> Result<Option<Box<Expr<'s>>>, ParseError>
where
    B: Copy + for<'c, 't> Fn(Context<'c>, &mut Lexer<'t>) -> Result<Body<'t>, ParseError>,
    requires bodies { ReadsBodies (left lexer.old) (B.pre body) (B.post body) }
    ensures read { IfOk result (λ o. OnlyRow so_far (around_of context.entry.around) (tail (row_so_far (statement Return))) (place_of lexer.old) (part (optional_of view_expr o) none) (place_of lexer.new)) }
    ensures placed { IfOk result (λ o. IsPlacedRow returned_symbols (tale (told_optional told_expr o) no_tales) (part (optional_of view_expr o) none) lexer.old lexer.new) }
    ensures within { OnOk result (left lexer.new ≤ left lexer.old) }
    ensures refused { Refused context.entry.levels result (NoRow so_far (around_of context.entry.around) (tail (row_so_far (statement Return))) (place_of lexer.old)) }
{
    lexer.ends(Ending::Word);
    if lexer.semicolon() {
        return Ok(None);
    }
    let value = sequence(context, lexer, body)?;
    semicolon(context, lexer)?;
    Ok(Some(value))
}

/// A `return` statement behind its word, in a function (ECMA-262 section 14.10).
pub fn return_statement<'s, B>(
    context: Context,
    lexer: &mut Lexer<'s>,
    body: B,
) -> Result<Box<Stmt<'s>>, ParseError>
where
    B: Copy + for<'c, 't> Fn(Context<'c>, &mut Lexer<'t>) -> Result<Body<'t>, ParseError>,
    requires bodies { ReadsBodies (left lexer.old) (B.pre body) (B.post body) }
    ensures read { IfOk result (λ s. BuiltNode so_far (around_of context.entry.around) (tail (row_so_far (statement Return))) (statement Return) (view_stmt s.value) (place_of lexer.old) (place_of lexer.new)) }
    ensures span { IfOk result (λ s. Spans (stmt_at s.value) (begin_of lexer.old) (end_of lexer.new)) }
    ensures placed { IfOk result (λ s. IsPlacedBehind (opening_sign (statement Return)) lexer.old (told_stmt s.value) (view_stmt s.value) lexer.new) }
    ensures within { OnOk result (left lexer.new ≤ left lexer.old) }
    ensures refused { Refused context.entry.levels result (NoNode so_far (around_of context.entry.around) (tail (row_so_far (statement Return))) (statement Return) (place_of lexer.old)) }
{
    if !context.around.returns {
        return Err(give_up(lexer));
    }
    let lo = lexer.last_place();
    let value = returned(context, lexer, body)?;
    Ok(make::return_statement(context.alloc, span_to(lo, lexer), value)?)
}

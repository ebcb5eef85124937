//! Exports (ECMA-262 section 16.2.3).

ghost use Rattle.std.specs.Prelude.{◌≤◌, IfOk, OnOk};
ghost use Rattle.jsx_tree.specs.Grammar.{key, pun};
ghost use Rattle.jsx_tree.specs.Told.{told_item};
ghost use Rattle.jsx_tree.specs.ViewProgram.{view_item};
ghost use Rattle.jsx_token.specs.Here.{place_of, left};
ghost use Rattle.jsx_operand.specs.Around.{around_of};
ghost use Rattle.jsx_operand.specs.Answers.{Refused};
ghost use Rattle.jsx_operand.specs.Spans.{IsPlacedBehind};
ghost use Rattle.jsx_syntax.specs.Items.{IsPlacedExport, NoneBehind, NoneExport, OnlyBehind, OnlyExport};

use crate::import::{from_source, source};
use crate::specifier::{Side, misfit, specifiers};
use jsx_base::BytePos;
use jsx_expression::expression::expression;
use jsx_expression::function::{class_expression, named_function};
use jsx_function::function::{FunctionCode, NamedFunction};
use jsx_operand::depth::within;
use jsx_operand::operand::ASSIGNMENT;
use jsx_operand::parser::identifier_name;
use jsx_operand::{Body, Context, ParseError, semicolon, span_to};
use jsx_statement::function::declared;
use jsx_statement::statement::body;
use jsx_token::{Ending, Fixed, Lexer, Word};
use jsx_tree::{Item, Text};

/// An export of names, behind its `{`: `export { a, b as c };`, or `export { a } from "m";`. Its word begins at a place.
fn export_list<'s>(
    context: Context,
    lexer: &mut Lexer<'s>,
    lo: BytePos,
) -> Result<Item<'s>, ParseError>
    ensures read { IfOk result (λ i. OnlyExport (pun "{") (around_of context.entry.around) (view_item i) (place_of lexer.old) (place_of lexer.new)) }
    ensures placed { IfOk result (λ i. IsPlacedExport (pun "{") lo.0 lexer.old (told_item i) (view_item i) lexer.new) }
    ensures within { OnOk result (left lexer.new ≤ left lexer.old) }
    ensures refused { Refused context.entry.levels result (NoneExport (pun "{") (around_of context.entry.around) (place_of lexer.old)) }
{
    let all = specifiers(context, lexer)?;
    if lexer.take(Fixed::Word(Word::From)) {
        let text = source(context, lexer)?;
        return Ok(Item::ExportFrom(span_to(lo, lexer), all, text));
    }
    if let Some(place) = misfit(Side::Exported, &all) {
        return Err(ParseError::Syntax(place));
    }
    lexer.ends(Ending::List);
    semicolon(context, lexer)?;
    Ok(Item::ExportNames(span_to(lo, lexer), all))
}

/// An export of all that another module exports, behind its `*`: `export * from "m";`, or `export * as a from "m";`.
fn export_all<'s>(
    context: Context,
    lexer: &mut Lexer<'s>,
    lo: BytePos,
) -> Result<Item<'s>, ParseError>
    ensures read { IfOk result (λ i. OnlyExport (pun "*") (around_of context.entry.around) (view_item i) (place_of lexer.old) (place_of lexer.new)) }
    ensures placed { IfOk result (λ i. IsPlacedExport (pun "*") lo.0 lexer.old (told_item i) (view_item i) lexer.new) }
    ensures within { OnOk result (left lexer.new ≤ left lexer.old) }
    ensures refused { Refused context.entry.levels result (NoneExport (pun "*") (around_of context.entry.around) (place_of lexer.old)) }
{
    if lexer.take(Fixed::Word(Word::As)) {
        let raw = identifier_name(context, lexer)?;
        let name = Text::Read(raw, lexer.last_place());
        let text = from_source(context, lexer)?;
        return Ok(Item::ExportAllAs(span_to(lo, lexer), name, text));
    }
    let text = from_source(context, lexer)?;
    Ok(Item::ExportAll(span_to(lo, lexer), text))
}

/// An export of a value as the default, behind that word: a function or a class that may have no name, or an
/// expression.
fn export_default<'s>(
    context: Context,
    lexer: &mut Lexer<'s>,
    lo: BytePos,
) -> Result<Item<'s>, ParseError>
    ensures read { IfOk result (λ i. OnlyExport (key "default") (around_of context.entry.around) (view_item i) (place_of lexer.old) (place_of lexer.new)) }
    ensures placed { IfOk result (λ i. IsPlacedExport (key "default") lo.0 lexer.old (told_item i) (view_item i) lexer.new) }
    ensures within { OnOk result (left lexer.new ≤ left lexer.old) }
    ensures refused { Refused context.entry.levels result (NoneExport (key "default") (around_of context.entry.around) (place_of lexer.old)) }
{
    let word = lexer.last_place();
    if lexer.take(Fixed::Word(Word::Function)) {
        let function = named_function(context, lexer, body)?;
        let NamedFunction { name, code } = function;
        let FunctionCode { params, body } = code;
        let Body {
            directives,
            statements,
        } = body;
        let span = span_to(lo, lexer);
        return Ok(Item::ExportDefaultFn(span, word, name, params, directives, statements));
    }
    if lexer.take(Fixed::Word(Word::Class)) {
        let levels = within(context, lexer)?;
        let class = class_expression(Context { levels, ..context }, lexer, body)?;
        return Ok(Item::ExportDefaultClass(span_to(lo, lexer), word, class));
    }
    let value = expression(context, lexer, ASSIGNMENT, body)?;
    semicolon(context, lexer)?;
    Ok(Item::ExportDefaultExpr(span_to(lo, lexer), word, value))
}

/// An export behind its word.
pub(crate) fn export<'s>(context: Context, lexer: &mut Lexer<'s>) -> Result<Item<'s>, ParseError>
    ensures read { IfOk result (λ i. OnlyBehind (key "export") (around_of context.entry.around) (view_item i) (place_of lexer.old) (place_of lexer.new)) }
    ensures placed { IfOk result (λ i. IsPlacedBehind (key "export") lexer.old (told_item i) (view_item i) lexer.new) }
    ensures within { OnOk result (left lexer.new ≤ left lexer.old) }
    ensures refused { Refused context.entry.levels result (NoneBehind (key "export") (around_of context.entry.around) (place_of lexer.old)) }
{
    let lo = lexer.last_place();
    if lexer.take(Fixed::OpenBrace) {
        return Ok(export_list(context, lexer, lo)?);
    }
    if lexer.take(Fixed::Star) {
        return Ok(export_all(context, lexer, lo)?);
    }
    if lexer.take(Fixed::Word(Word::Default)) {
        return Ok(export_default(context, lexer, lo)?);
    }
    let declaration = declared(context, lexer)?;
    Ok(Item::ExportDecl(span_to(lo, lexer), declaration))
}

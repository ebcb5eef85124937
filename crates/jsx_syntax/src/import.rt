//! Imports (ECMA-262 section 16.2.2).

ghost use Rattle.std.specs.Prelude.{◌≡◌, ◌<◌, ◌≤◌, IfOk, OnOk, IsTrue, IsFalse};
ghost use Rattle.jsx_tree.specs.Kinds as kinds;
ghost use Rattle.jsx_tree.specs.Kinds.{none, part, program};
ghost use Rattle.jsx_tree.specs.Nonterminals as grammar;
ghost use Rattle.jsx_tree.specs.Grammar.{Part, key, pun};
ghost use Rattle.jsx_tree.specs.Spans.{no_tales, tale};
ghost use Rattle.jsx_tree.specs.Told.{told_import_clause, told_import_names, told_item, told_text};
ghost use Rattle.jsx_tree.specs.ViewProgram.{source_of, view_import_clause, view_import_names, view_item};
ghost use Rattle.jsx_tree.specs.Walk.{one, tail};
ghost use Rattle.jsx_tree.specs.Answers.{Only, Barred, OnlyRow, NoRow, Built};
ghost use Rattle.jsx_token.specs.Here.{place_of, left};
ghost use Rattle.jsx_token.specs.Marks.{row_so_far};
ghost use Rattle.jsx_token.specs.Places.{Takes, begin_of, next_of};
ghost use Rattle.jsx_operand.specs.Around.{around_of};
ghost use Rattle.jsx_operand.specs.SoFar.{so_far};
ghost use Rattle.jsx_operand.specs.Answers.{Refused};
ghost use Rattle.jsx_operand.specs.Spans.{IsPlaced, IsPlacedBehind, IsPlacedRow};
ghost use Rattle.jsx_declaration.specs.Heads.{Front};
ghost use Rattle.jsx_syntax.specs.Items.{IsImport, NoImport, NoneBehind, OnlyBehind, from_row, from_symbols, source_row, source_symbols};

use crate::specifier::{Side, misfit, specifiers};
use jsx_operand::depth::counted;
use jsx_operand::parser::{bound_name, string};
use jsx_operand::{Context, ParseError, expect, give_up, semicolon, span_to};
use jsx_token::{Ending, Fixed, Leaf, Lexer, Word, is_bound};
use jsx_tree::{Ident, ImportClause, ImportNames, Item, Text};

/// The module that is named at the end of an item: `"m";`.
pub(crate) fn source<'s>(context: Context, lexer: &mut Lexer<'s>) -> Result<Text<'s>, ParseError>
    ensures read { IfOk result (λ t. OnlyRow so_far (around_of context.entry.around) source_row (place_of lexer.old) (part (source_of t) none) (place_of lexer.new)) }
    ensures placed { IfOk result (λ t. IsPlacedRow source_symbols (tale (told_text t) no_tales) (part (source_of t) none) lexer.old lexer.new) }
    ensures shorter { OnOk result (left lexer.new < left lexer.old) }
    ensures refused { Refused context.entry.levels result (NoRow so_far (around_of context.entry.around) source_row (place_of lexer.old)) }
{
    let text = string(context, lexer)?;
    lexer.ends(Ending::Word);
    semicolon(context, lexer)?;
    Ok(text)
}

/// The same behind `from`: `from "m";`.
pub(crate) fn from_source<'s>(
    context: Context,
    lexer: &mut Lexer<'s>,
) -> Result<Text<'s>, ParseError>
    ensures read { IfOk result (λ t. OnlyRow so_far (around_of context.entry.around) from_row (place_of lexer.old) (part (source_of t) none) (place_of lexer.new)) }
    ensures placed { IfOk result (λ t. IsPlacedRow from_symbols (tale (told_text t) no_tales) (part (source_of t) none) lexer.old lexer.new) }
    ensures shorter { OnOk result (left lexer.new < left lexer.old) }
    ensures refused { Refused context.entry.levels result (NoRow so_far (around_of context.entry.around) from_row (place_of lexer.old)) }
{
    expect(context, lexer, Fixed::Word(Word::From))?;
    Ok(source(context, lexer)?)
}

/// All of a module under one name, behind the `*`: `* as a`.
fn import_all<'s>(context: Context, lexer: &mut Lexer<'s>) -> Result<ImportNames<'s>, ParseError>
    ensures read { IfOk result (λ n. Built so_far (around_of context.entry.around) (tail (row_so_far (program kinds.ImportAll))) (program kinds.ImportAll) (λ ts. ts) (view_import_names n) (place_of lexer.old) (place_of lexer.new)) }
    ensures placed { IfOk result (λ n. IsPlacedBehind (pun "*") lexer.old (told_import_names n) (view_import_names n) lexer.new) }
    ensures shorter { OnOk result (left lexer.new < left lexer.old) }
    ensures refused { Refused context.entry.levels result (NoRow so_far (around_of context.entry.around) (tail (row_so_far (program kinds.ImportAll))) (place_of lexer.old)) }
{
    let lo = lexer.last_place();
    expect(context, lexer, Fixed::Word(Word::As))?;
    let name = bound_name(context, lexer)?;
    Ok(ImportNames::All(span_to(lo, lexer), name))
}

/// Some names of a module, behind the `{`: `{ a, b as c }`.
fn import_list<'s>(context: Context, lexer: &mut Lexer<'s>) -> Result<ImportNames<'s>, ParseError>
    ensures read { IfOk result (λ n. Built so_far (around_of context.entry.around) (tail (row_so_far (program kinds.ImportList))) (program kinds.ImportList) (λ ts. ts) (view_import_names n) (place_of lexer.old) (place_of lexer.new)) }
    ensures placed { IfOk result (λ n. IsPlacedBehind (pun "{") lexer.old (told_import_names n) (view_import_names n) lexer.new) }
    ensures shorter { OnOk result (left lexer.new < left lexer.old) }
    ensures refused { Refused context.entry.levels result (NoRow so_far (around_of context.entry.around) (tail (row_so_far (program kinds.ImportList))) (place_of lexer.old)) }
{
    let lo = lexer.last_place();
    let all = specifiers(context, lexer)?;
    if let Some(place) = misfit(Side::Imported, &all) {
        return Err(ParseError::Syntax(place));
    }
    Ok(ImportNames::List(span_to(lo, lexer), all))
}

/// Names of a module: `* as a`, or `{ a, b as c }`.
fn import_names<'s>(context: Context, lexer: &mut Lexer<'s>) -> Result<ImportNames<'s>, ParseError>
    ensures read { IfOk result (λ n. Only so_far (around_of context.entry.around) (Part grammar.ImportBindings) (place_of lexer.old) (one (view_import_names n)) (place_of lexer.new)) }
    ensures placed { IfOk result (λ n. IsPlaced (told_import_names n) (view_import_names n) lexer.old lexer.new) }
    ensures shorter { OnOk result (left lexer.new < left lexer.old) }
    ensures refused { Refused context.entry.levels result (Barred so_far (around_of context.entry.around) (Part grammar.ImportBindings) (place_of lexer.old)) }
{
    if lexer.take(Fixed::Star) {
        return Ok(import_all(context, lexer)?);
    }
    if !lexer.take(Fixed::OpenBrace) {
        return Err(give_up(lexer));
    }
    Ok(import_list(context, lexer)?)
}

/// What an import binds: `a`, `* as a`, `{ a, b as c }`, or the first and one of the others, `a, { b }`.
fn import_clause<'s>(
    context: Context,
    lexer: &mut Lexer<'s>,
) -> Result<ImportClause<'s>, ParseError>
    ensures read { IfOk result (λ c. Front (around_of context.entry.around) (tail (row_so_far (program kinds.Import))) from_row (place_of lexer.old) (view_import_clause c) (place_of lexer.new)) }
    ensures placed { IfOk result (λ c. IsPlaced (told_import_clause c) (view_import_clause c) lexer.old lexer.new) }
    ensures shorter { OnOk result (left lexer.new < left lexer.old) }
    ensures refused { Refused context.entry.levels result (NoRow so_far (around_of context.entry.around) (tail (row_so_far (program kinds.Import))) (place_of lexer.old)) }
{
    let Some(raw) = lexer.leaf(Leaf::Name) else {
        return Ok(ImportClause::Names(import_names(context, lexer)?));
    };
    if !is_bound(raw) {
        return Err(give_up(lexer));
    }
    counted(context, lexer)?;
    let lo = lexer.last_place();
    let text = Text::Read(raw, lo);
    if !lexer.take(Fixed::Comma) {
        return Ok(ImportClause::Default(Ident { text }));
    }
    let names = import_names(context, lexer)?;
    Ok(ImportClause::Both(span_to(lo, lexer), Ident { text }, names))
}

/// Takes the word of an import if one comes next. `import(a)` and `import.meta` are expressions.
pub(crate) fn take_import(lexer: &mut Lexer) -> bool
    ensures taken { IsTrue result → IsImport (place_of lexer.old) (place_of lexer.new) }
    ensures takes { IsTrue result → Takes (key "import") lexer.old lexer.new }
    ensures begins { IsTrue result → begin_of lexer.new ≡ next_of lexer.old }
    ensures shorter { IsTrue result → left lexer.new < left lexer.old }
    ensures missing { IsFalse result → NoImport (place_of lexer.old) }
    ensures stays { IsFalse result → lexer.new ≡ lexer.old }
{
    let mut ahead = lexer.fork();
    if !ahead.take(Fixed::Word(Word::Import)) {
        return false;
    }
    if ahead.is_before(Fixed::Open) {
        return false;
    }
    if ahead.is_before(Fixed::Dot) {
        return false;
    }
    *lexer = ahead;
    true
}

/// An import behind its word: `import "m";`, or `import a, { b } from "m";`.
pub(crate) fn import<'s>(context: Context, lexer: &mut Lexer<'s>) -> Result<Item<'s>, ParseError>
    ensures read { IfOk result (λ i. OnlyBehind (key "import") (around_of context.entry.around) (view_item i) (place_of lexer.old) (place_of lexer.new)) }
    ensures placed { IfOk result (λ i. IsPlacedBehind (key "import") lexer.old (told_item i) (view_item i) lexer.new) }
    ensures within { OnOk result (left lexer.new ≤ left lexer.old) }
    ensures refused { Refused context.entry.levels result (NoneBehind (key "import") (around_of context.entry.around) (place_of lexer.old)) }
{
    let lo = lexer.last_place();
    if let Some(raw) = lexer.leaf(Leaf::Str) {
        counted(context, lexer)?;
        let text = Text::Read(raw, lexer.last_place());
        lexer.ends(Ending::Word);
        semicolon(context, lexer)?;
        return Ok(Item::ImportBare(span_to(lo, lexer), text));
    }
    let clause = import_clause(context, lexer)?;
    let text = from_source(context, lexer)?;
    Ok(Item::Import(span_to(lo, lexer), clause, text))
}

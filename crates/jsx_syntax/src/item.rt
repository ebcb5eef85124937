//! The items of a module: statements, imports and exports (ECMA-262 section 16.2).

ghost use Rattle.std.specs.Prelude.{◌<◌, IfOk, OnOk};
ghost use Rattle.jsx_tree.specs.Nonterminals as grammar;
ghost use Rattle.jsx_tree.specs.Grammar.{Part};
ghost use Rattle.jsx_tree.specs.Told.{told_item};
ghost use Rattle.jsx_tree.specs.ViewProgram.{view_item};
ghost use Rattle.jsx_tree.specs.Walk.{one};
ghost use Rattle.jsx_tree.specs.Answers.{Only, Barred};
ghost use Rattle.jsx_token.specs.Here.{place_of, left};
ghost use Rattle.jsx_operand.specs.Around.{around_of};
ghost use Rattle.jsx_operand.specs.SoFar.{so_far};
ghost use Rattle.jsx_operand.specs.Answers.{Refused};
ghost use Rattle.jsx_operand.specs.Spans.{IsPlaced};

use crate::export::export;
use crate::import::{import, take_import};
use jsx_operand::depth::within;
use jsx_operand::{Context, ParseError};
use jsx_statement::statement::{Seat, statement};
use jsx_token::{Fixed, Lexer, Word};
use jsx_tree::Item;

/// An item of a module.
pub(crate) fn item<'s>(context: Context, lexer: &mut Lexer<'s>) -> Result<Item<'s>, ParseError>
    ensures read { IfOk result (λ i. Only so_far (around_of context.entry.around) (Part grammar.Item) (place_of lexer.old) (one (view_item i)) (place_of lexer.new)) }
    ensures placed { IfOk result (λ i. IsPlaced (told_item i) (view_item i) lexer.old lexer.new) }
    ensures shorter { OnOk result (left lexer.new < left lexer.old) }
    ensures refused { Refused context.entry.levels result (Barred so_far (around_of context.entry.around) (Part grammar.Item) (place_of lexer.old)) }
{
    if lexer.take(Fixed::Word(Word::Export)) {
        let levels = within(context, lexer)?;
        return Ok(export(Context { levels, ..context }, lexer)?);
    }
    if take_import(lexer) {
        let levels = within(context, lexer)?;
        return Ok(import(Context { levels, ..context }, lexer)?);
    }
    Ok(Item::Stmt(statement(context, lexer, Seat::Listed)?))
}

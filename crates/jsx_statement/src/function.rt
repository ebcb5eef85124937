//! What is declared behind `export` (ECMA-262 section 16.2.3).

ghost use Rattle.std.specs.Prelude.{◌<◌, IfOk, OnOk};
ghost use Rattle.jsx_tree.specs.Nonterminals as grammar;
ghost use Rattle.jsx_tree.specs.Grammar.{Part};
ghost use Rattle.jsx_tree.specs.View.{view_stmt};
ghost use Rattle.jsx_tree.specs.Told.{told_stmt};
ghost use Rattle.jsx_tree.specs.Walk.{one};
ghost use Rattle.jsx_tree.specs.Answers.{Only, Barred};
ghost use Rattle.jsx_make.specs.NodeSpans.{stmt_at};
ghost use Rattle.jsx_token.specs.Here.{place_of, left};
ghost use Rattle.jsx_token.specs.Places.{end_of, next_of};
ghost use Rattle.jsx_operand.specs.Answers.{Refused};
ghost use Rattle.jsx_operand.specs.Around.{around_of};
ghost use Rattle.jsx_operand.specs.SoFar.{so_far};
ghost use Rattle.jsx_operand.specs.Spans.{IsPlaced, Spans};

use crate::statement::body;
use jsx_declaration::for_head::declare_word;
use jsx_declaration::function::{class_declaration, function_declaration};
use jsx_declaration::statement::declaration;
use jsx_operand::depth::within;
use jsx_operand::{Context, ParseError, give_up};
use jsx_token::{Fixed, Lexer, Word};
use jsx_tree::Stmt;

/// What may be declared behind `export`: variables, a function, or a class (ECMA-262 section 16.2.3).
pub fn declared<'s>(context: Context, lexer: &mut Lexer<'s>) -> Result<Box<Stmt<'s>>, ParseError>
    ensures read { IfOk result (λ s. Only so_far (around_of context.entry.around) (Part grammar.Declaration) (place_of lexer.old) (one (view_stmt s.value)) (place_of lexer.new)) }
    ensures span { IfOk result (λ s. Spans (stmt_at s.value) (next_of lexer.old) (end_of lexer.new)) }
    ensures placed { IfOk result (λ s. IsPlaced (told_stmt s.value) (view_stmt s.value) lexer.old lexer.new) }
    ensures shorter { OnOk result (left lexer.new < left lexer.old) }
    ensures refused { Refused context.entry.levels result (Barred so_far (around_of context.entry.around) (Part grammar.Declaration) (place_of lexer.old)) }
{
    if lexer.take(Fixed::Word(Word::Function)) {
        let levels = within(context, lexer)?;
        return Ok(function_declaration(Context { levels, ..context }, lexer, body)?);
    }
    if lexer.take(Fixed::Word(Word::Class)) {
        let levels = within(context, lexer)?;
        return Ok(class_declaration(Context { levels, ..context }, lexer, body)?);
    }
    let Some(word) = declare_word(lexer) else {
        return Err(give_up(lexer));
    };
    let levels = within(context, lexer)?;
    Ok(declaration(Context { levels, ..context }, lexer, word, body)?)
}

//! Statements.

ghost use Rattle.std.specs.Prelude.{◌<◌, ◌≤◌, IfOk, OnOk};
ghost use Rattle.jsx_tree.specs.Kinds.{none, part};
ghost use Rattle.jsx_tree.specs.Grammar.{Part};
ghost use Rattle.jsx_tree.specs.View.{view_stmt};
ghost use Rattle.jsx_tree.specs.Spans.{no_tales, tale};
ghost use Rattle.jsx_tree.specs.Told.{told_stmt};
ghost use Rattle.jsx_tree.specs.Walk.{one};
ghost use Rattle.jsx_tree.specs.Answers.{Only, Barred, OnlyRow, NoRow};
ghost use Rattle.jsx_operand.specs.Around.{around_of};
ghost use Rattle.jsx_operand.specs.SoFar.{so_far};
ghost use Rattle.jsx_token.specs.Here.{place_of, left};
ghost use Rattle.jsx_operand.specs.Answers.{Refused};
ghost use Rattle.jsx_make.specs.NodeSpans.{stmt_at};
ghost use Rattle.jsx_operand.specs.Spans.{IsPlaced, IsPlacedRow, Spans};
ghost use Rattle.jsx_statement.specs.Seats.{symbol_of};
ghost use Rattle.jsx_token.specs.Places.{end_of, next_of};
ghost use Rattle.jsx_operand.specs.Bodies.{body_row, body_symbols, told_of, view_body};

use crate::grammar::Statements;
use jsx_operand::{Body, Context, ParseError};
use jsx_token::Lexer;
use jsx_tree::Stmt;

/// Where a statement stands.
#[derive(Clone, Copy)]
pub enum Seat {
    /// In a list, where declarations stand too.
    Listed,
    /// As a part of another, as the body of a loop: neither a lexical declaration nor a function.
    Part,
}

/// A statement at a seat.
#[cycle(statement)]
pub fn statement<'s>(
    context: Context,
    lexer: &mut Lexer<'s>,
    seat: Seat,
) -> Result<Box<Stmt<'s>>, ParseError>
    ensures read { IfOk result (λ s. Only so_far (around_of context.entry.around) (Part (symbol_of seat)) (place_of lexer.old) (one (view_stmt s.value)) (place_of lexer.new)) }
    ensures span { IfOk result (λ s. Spans (stmt_at s.value) (next_of lexer.old) (end_of lexer.new)) }
    ensures placed { IfOk result (λ s. IsPlaced (told_stmt s.value) (view_stmt s.value) lexer.old lexer.new) }
    ensures shorter { OnOk result (left lexer.new < left lexer.old) }
    ensures refused { Refused context.entry.levels result (Barred so_far (around_of context.entry.around) (Part (symbol_of seat)) (place_of lexer.old)) }
{
    let within = Statements {
        inner: statement,
        body,
    };
    match seat {
        Seat::Listed => within.listed_statement(context, lexer),
        Seat::Part => within.nested_statement(context, lexer),
    }
}

/// The body of a function behind its `{`, with its `}`: directives, and then statements (ECMA-262 section 15.2).
#[cycle(statement)]
pub fn body<'s>(context: Context, lexer: &mut Lexer<'s>) -> Result<Body<'s>, ParseError>
    ensures read { IfOk result (λ b. OnlyRow so_far (around_of context.entry.around) body_row (place_of lexer.old) (part (view_body b) none) (place_of lexer.new)) }
    ensures placed { IfOk result (λ b. IsPlacedRow body_symbols (tale (told_of b) no_tales) (part (view_body b) none) lexer.old lexer.new) }
    ensures within { OnOk result (left lexer.new ≤ left lexer.old) }
    ensures refused { Refused context.entry.levels result (NoRow so_far (around_of context.entry.around) body_row (place_of lexer.old)) }
{
    let within = Statements {
        inner: statement,
        body,
    };
    within.function_body(context, lexer)
}

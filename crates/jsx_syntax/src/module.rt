//! A whole text: a module or a script.

ghost use Rattle.std.specs.Prelude.{◌≡◌, ◌+◌, ◌<◌, ◌≤◌, ◌^◌, IfOk, IfErr, Some, length, map};
ghost use Rattle.std.specs.Str.{chars};
ghost use Rattle.jsx_token.specs.Stage.{ReadsSoFar};
ghost use Rattle.jsx_tree.specs.declared.text.Goal.TheVariants as goals;
ghost use Rattle.jsx_tree.specs.Nonterminals as grammar;
ghost use Rattle.jsx_tree.specs.Depth.{depth as tree_depth};
ghost use Rattle.jsx_tree.specs.View.{directive, forest, inside, view_stmt};
ghost use Rattle.jsx_tree.specs.ViewProgram.{view, view_item};
ghost use Rattle.jsx_tree.specs.Spans.{IsTold, placed_in};
ghost use Rattle.jsx_tree.specs.Grammar.{TopLines};
ghost use Rattle.jsx_tree.specs.Told.{tales, told, told_item, told_stmt};
ghost use Rattle.jsx_tree.specs.Answers.{NoneToEnd, OnlyToEnd};
ghost use Rattle.jsx_token.specs.Here.{place_of};
ghost use Rattle.jsx_operand.specs.Around.{around_of, in_code};
ghost use Rattle.jsx_operand.specs.Answers.{NoTree, IsWithin, Refused};
ghost use Rattle.jsx_operand.specs.SoFar.{so_far};
ghost use Rattle.jsx_operand.specs.Spans.{IsPlacedList, IsPlacedRow, Spans, program_at};
ghost use Rattle.jsx_syntax.specs.Programs.{NoProgram, OnlyProgram, program_parts, program_symbols, program_tales};
ghost use Rattle.jsx_syntax.specs.Parsed.{IsFrom, IsParsed};

use crate::bare::bare;
use crate::item::item;
use jsx_base::{BytePos, Span};
use jsx_depth::fits_program;
use jsx_operand::{Around, Context, Labels, ParseError};
use jsx_statement::body::directives;
use jsx_statement::statement::{Seat, statement};
use jsx_token::Lexer;
use jsx_tree::{Goal, Item, Module, Program, Script, Stmt};
use std::alloc::Global;
use std::cell::Cell;

/// The items of a module, up to the end of the text: `import a from "b"; c` (ECMA-262 section 16.2).
fn items<'s>(context: Context, lexer: &mut Lexer<'s>) -> Result<Vec<Item<'s>>, ParseError>
    ensures read { IfOk result (λ v. OnlyToEnd so_far (around_of context.entry.around) grammar.Item (place_of lexer.old) (forest (map view_item v.items))) }
    ensures placed { IfOk result (λ v. IsPlacedList TopLines (tales (map told_item v.items)) (forest (map view_item v.items)) lexer.old lexer.new) }
    ensures refused { Refused context.entry.levels result (NoneToEnd so_far (around_of context.entry.around) grammar.Item (place_of lexer.old)) }
{
    let mut all = Vec::new(context.alloc);
    'items: while !lexer.is_at_end() {
        let next = item(context, lexer)?;
        all.push(next)?;
    }
    Ok(all)
}

/// The statements of a script, up to the end of the text: `a; b` (ECMA-262 section 16.1).
fn statements<'s>(context: Context, lexer: &mut Lexer<'s>) -> Result<Vec<Box<Stmt<'s>>>, ParseError>
    ensures read { IfOk result (λ v. OnlyToEnd so_far (around_of context.entry.around) grammar.Stmt (place_of lexer.old) (forest (map (inside view_stmt) v.items))) }
    ensures placed { IfOk result (λ v. IsPlacedList TopLines (tales (map (inside told_stmt) v.items)) (forest (map (inside view_stmt) v.items)) lexer.old lexer.new) }
    ensures refused { Refused context.entry.levels result (NoneToEnd so_far (around_of context.entry.around) grammar.Stmt (place_of lexer.old)) }
{
    let mut all = Vec::new(context.alloc);
    'statements: while !lexer.is_at_end() {
        let next = statement(context, lexer, Seat::Listed)?;
        all.push(next)?;
    }
    Ok(all)
}

/// The directives and the items of a module, up to the end of the text: `"use client"; import a from "b";`.
fn module<'s>(context: Context, lexer: &mut Lexer<'s>, span: Span) -> Result<Module<'s>, ParseError>
    ensures read { IfOk result (λ m. OnlyProgram grammar.Item (λ ds. around_of context.entry.around) (place_of lexer.old) (forest (map directive m.directives.items)) (forest (map view_item m.body.items))) }
    ensures span { IfOk result (λ m. m.span ≡ span) }
    ensures placed { IfOk result (λ m. IsPlacedRow (program_symbols grammar.Item) (program_tales m.directives.items (map told_item m.body.items)) (program_parts (forest (map directive m.directives.items)) (forest (map view_item m.body.items))) lexer.old lexer.new) }
    ensures refused { Refused context.entry.levels result (NoProgram grammar.Item (λ ds. around_of context.entry.around) (place_of lexer.old)) }
{
    let directives = directives(context, lexer)?;
    let body = items(context, lexer)?;
    Ok(Module {
        span,
        directives,
        body,
    })
}

/// The directives and the statements of a script, up to the end of the text: `"use strict"; a`. The statements are strict code if a
/// directive says so (ECMA-262 section 11.2.2).
fn script<'s>(context: Context, lexer: &mut Lexer<'s>, span: Span) -> Result<Script<'s>, ParseError>
    ensures read { IfOk result (λ s. OnlyProgram grammar.Stmt (λ ds. in_code ds (around_of context.entry.around)) (place_of lexer.old) (forest (map directive s.directives.items)) (forest (map (inside view_stmt) s.body.items))) }
    ensures span { IfOk result (λ s. s.span ≡ span) }
    ensures placed { IfOk result (λ s. IsPlacedRow (program_symbols grammar.Stmt) (program_tales s.directives.items (map (inside told_stmt) s.body.items)) (program_parts (forest (map directive s.directives.items)) (forest (map (inside view_stmt) s.body.items))) lexer.old lexer.new) }
    ensures refused { Refused context.entry.levels result (NoProgram grammar.Stmt (λ ds. in_code ds (around_of context.entry.around)) (place_of lexer.old)) }
{
    let directives = directives(context, lexer)?;
    let body = statements(context.of_code(&directives), lexer)?;
    Ok(Script {
        span,
        directives,
        body,
    })
}

/// The module that a text is, with the parentheses that are written in it.
fn written_module<'s>(
    alloc: Global,
    text: &'s str,
    start: BytePos,
    span: Span,
    depth: u32,
) -> Result<Program<'s>, ParseError>
    requires { start.0 + length text.now < 2 ^ 32 }
    ensures read { IfOk result (λ program. ReadsSoFar goals.Module (chars text.now) (view program)) }
    ensures refused { Refused depth result (NoTree goals.Module (chars text.now)) }
    ensures span { IfOk result (λ program. program_at program ≡ span) }
    ensures placed { IfOk result (λ program. IsTold (told program) (placed_in start.0 (chars text.now) (view program))) }
{
    let labels = Labels::None;
    let around = Around::of_module(&labels);
    let spare = Cell::new(u32::MAX);
    let context = Context {
        alloc,
        around,
        levels: depth,
        spare: &spare,
    };
    let mut lexer = Lexer::new(text, start);
    let read = module(context, &mut lexer, span)?;
    Ok(Program::Module(read))
}

/// The script that a text is, with the parentheses that are written in it.
fn written_script<'s>(
    alloc: Global,
    text: &'s str,
    start: BytePos,
    span: Span,
    depth: u32,
) -> Result<Program<'s>, ParseError>
    requires { start.0 + length text.now < 2 ^ 32 }
    ensures read { IfOk result (λ program. ReadsSoFar goals.Script (chars text.now) (view program)) }
    ensures refused { Refused depth result (NoTree goals.Script (chars text.now)) }
    ensures span { IfOk result (λ program. program_at program ≡ span) }
    ensures placed { IfOk result (λ program. IsTold (told program) (placed_in start.0 (chars text.now) (view program))) }
{
    let labels = Labels::None;
    let around = Around::of_script(&labels);
    let spare = Cell::new(u32::MAX);
    let context = Context {
        alloc,
        around,
        levels: depth,
        spare: &spare,
    };
    let mut lexer = Lexer::new(text, start);
    let read = script(context, &mut lexer, span)?;
    Ok(Program::Script(read))
}

/// The program that a text is under the goal, with the parentheses that are written in it.
fn written_program<'s>(
    alloc: Global,
    text: &'s str,
    start: BytePos,
    goal: Goal,
    span: Span,
    depth: u32,
) -> Result<Program<'s>, ParseError>
    requires { start.0 + length text.now < 2 ^ 32 }
    ensures read { IfOk result (λ program. ReadsSoFar goal (chars text.now) (view program)) }
    ensures refused { Refused depth result (NoTree goal (chars text.now)) }
    ensures span { IfOk result (λ program. program_at program ≡ span) }
    ensures placed { IfOk result (λ program. IsTold (told program) (placed_in start.0 (chars text.now) (view program))) }
{
    match goal {
        Goal::Module => written_module(alloc, text, start, span, depth),
        Goal::Script => written_script(alloc, text, start, span, depth),
    }
}

/// The same, where an error stands in the text, and the program is no deeper than it may be.
fn written<'s>(
    alloc: Global,
    text: &'s str,
    start: BytePos,
    goal: Goal,
    depth: u32,
) -> Result<Program<'s>, ParseError>
    requires { start.0 + length text.now < 2 ^ 32 }
    ensures read { IfOk result (λ program. ReadsSoFar goal (chars text.now) (view program)) }
    ensures shallow { IfOk result (λ program. tree_depth (view program) ≤ depth) }
    ensures refused { Refused depth result (NoTree goal (chars text.now)) }
    ensures place { IfErr result (IsWithin (start.0 + length text.now)) }
    ensures inside { IfErr result (IsFrom start.0) }
    ensures span { IfOk result (λ program. Spans (Some (program_at program)) start.0 (start.0 + length text.now)) }
    ensures placed { IfOk result (λ program. IsTold (told program) (placed_in start.0 (chars text.now) (view program))) }
{
    let end = BytePos(start.0 + text.len() as u32);
    let span = Span { lo: start, hi: end };
    let program = match written_program(alloc, text, start, goal, span, depth) {
        Ok(program) => program,
        Err(ParseError::Syntax(at)) => return Err(ParseError::Syntax(at.max(start).min(end))),
        Err(ParseError::TooDeep(at)) => return Err(ParseError::TooDeep(at.max(start).min(end))),
        Err(ParseError::Memory) => return Err(ParseError::Memory),
    };
    if !fits_program(&program, depth) {
        return Err(ParseError::TooDeep(end));
    }
    Ok(program)
}

/// The module or the script that a text is, whose first byte has the place `start`: the tree that is written, without its parentheses. What
/// stands in one another nests no deeper than is said; where it does, the text is refused at the token with which it comes to that, and no
/// more of it is read.
pub fn parse<'s>(
    alloc: Global,
    text: &'s str,
    start: BytePos,
    goal: Goal,
    depth: u32,
) -> Result<Program<'s>, ParseError>
    requires { start.0 + length text.now < 2 ^ 32 }
    // What was read is the one tree that the text says under the goal, with its parentheses off, and it is within the depth. Each text is the
    // piece of the source at its place, and each node below the program runs from its first token to its last.
    ensures read { IfOk result (λ program. IsParsed goal start.0 (chars text.now) depth program) }
    // A syntax error comes only where no tree reads the text, and `TooDeep` only where none does that is within the depth.
    ensures refused { Refused depth result (NoTree goal (chars text.now)) }
    ensures place { IfErr result (IsWithin (start.0 + length text.now)) }
    ensures inside { IfErr result (IsFrom start.0) }
    ensures span { IfOk result (λ program. Spans (Some (program_at program)) start.0 (start.0 + length text.now)) }
{
    let mut program = written(alloc, text, start, goal, depth)?;
    bare(alloc, &mut program)?;
    Ok(program)
}

#[cfg(test)]
mod tests;

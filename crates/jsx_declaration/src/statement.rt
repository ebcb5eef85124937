//! Statements that hold no statement: declarations of variables, expressions, and those of a word or a mark.

ghost use Rattle.std.specs.Prelude.{◌≡◌, ◌<◌, ◌≤◌, ◌&&◌, ◌||◌, IfOk, OnOk, IsTrue, IsFalse, map};
ghost use Rattle.jsx_tree.specs.Kinds.{Var, Empty, ExprStmt, Continue, Break, Throw, Debugger, statement, list};
ghost use Rattle.jsx_tree.specs.Nonterminals as grammar;
ghost use Rattle.jsx_tree.specs.Grammar.{NoTrailing, Part};
ghost use Rattle.jsx_tree.specs.StaticRules.{all_of, has_init, is_default, is_here};
ghost use Rattle.jsx_tree.specs.View.{forest, inside, optional_of, view_control, view_pat, view_stmt, word_of};
ghost use Rattle.jsx_tree.specs.Told.{tales, told_pat, told_stmt};
ghost use Rattle.jsx_tree.specs.Walk.{one, tail};
ghost use Rattle.jsx_tree.specs.Answers.{Only, Barred, NoNode, BuiltNode};
ghost use Rattle.jsx_operand.specs.Around.{around_of};
ghost use Rattle.jsx_token.specs.Marks.{row_so_far};
ghost use Rattle.jsx_operand.specs.SoFar.{so_far};
ghost use Rattle.jsx_token.specs.Here.{place_of, left};
ghost use Rattle.jsx_token.specs.Growths.{opening_sign};
ghost use Rattle.jsx_declaration.specs.Initials.{has_value, wants_value};
ghost use Rattle.jsx_token.specs.Headings.{NoHeading};
ghost use Rattle.jsx_declaration.specs.Heads.{Declares, NotDeclared, AllDeclare, Initializes, NoneDeclare, NotInitialized};
ghost use Rattle.jsx_operand.specs.Answers.{PlainRefused, Refused};
ghost use Rattle.jsx_token.specs.Semicolons.{in_list};
ghost use Rattle.jsx_make.specs.NodeSpans.{pat_at, stmt_at};
ghost use Rattle.jsx_operand.specs.Spans.{IsPlaced, IsPlacedBehind, IsPlacedList, IsPlacedPast, Spans};
ghost use Rattle.jsx_token.specs.Places.{begin_of, end_of, next_of};
ghost use Rattle.jsx_operand.specs.Bodies.{ReadsBodies};

use crate::label::{jump_label, may_break, may_continue, target};
use jsx_base::BytePos;
use jsx_expression::expression::{expression, sequence};
use jsx_expression::function::binding;
use jsx_make::make;
use jsx_operand::depth::{behind_pattern, leave, measure};
use jsx_operand::operand::{ASSIGNMENT, start_of};
use jsx_operand::pattern::{is_compound, start_of_pattern};
use jsx_operand::{Body, Context, Labels, ParseError, give_up, semicolon, span_to};
use jsx_token::{Ending, Fixed, Lexer};
use jsx_tree::{Control, DeclareWord, Pat, Stmt};

/// A variable behind its name or its pattern, which begins at a place: with an initializer, or without one.
pub(crate) fn initialized<'s, B>(
    context: Context,
    lexer: &mut Lexer<'s>,
    lo: BytePos,
    name: Box<Pat<'s>>,
    body: B,
) -> Result<Box<Pat<'s>>, ParseError>
where
    B: Copy + for<'c, 't> Fn(Context<'c>, &mut Lexer<'t>) -> Result<Body<'t>, ParseError>,
    requires bodies { ReadsBodies (left lexer.old) (B.pre body) (B.post body) }
    ensures read { IfOk result (λ p. Initializes (around_of context.entry.around) (view_pat name.entry.value) (place_of lexer.old) (view_pat p.value) (place_of lexer.new)) }
    ensures span { IfOk result (λ p. Spans (pat_at p.value) lo.0 (end_of lexer.new)) }
    ensures placed { IfOk result (λ p. IsPlacedPast lo.0 (told_pat name.entry.value) (view_pat name.entry.value) lexer.old (told_pat p.value) (view_pat p.value) lexer.new) }
    ensures within { OnOk result (left lexer.new ≤ left lexer.old) }
    ensures behind { OnOk result (IsTrue (in_list (place_of lexer.new))) }
    ensures refused { Refused context.entry.levels result (NotInitialized (around_of context.entry.around) (view_pat name.entry.value) (place_of lexer.old)) }
{
    lexer.ends(Ending::Binding);
    if !lexer.take(Fixed::Equals) {
        return Ok(make::declarator(context.alloc, span_to(lo, lexer), name, None)?);
    }
    let levels = behind_pattern(context, lexer, &name)?;
    let inside = Context { levels, ..context };
    let value = expression(inside, lexer, ASSIGNMENT, body)?;
    Ok(make::declarator(context.alloc, span_to(lo, lexer), name, Some(value))?)
}

/// A variable, with an initializer or without: `a = b`.
fn declarator<'s, B>(
    context: Context,
    lexer: &mut Lexer<'s>,
    body: B,
) -> Result<Box<Pat<'s>>, ParseError>
where
    B: Copy + for<'c, 't> Fn(Context<'c>, &mut Lexer<'t>) -> Result<Body<'t>, ParseError>,
    requires bodies { ReadsBodies (left lexer.old) (B.pre body) (B.post body) }
    ensures read { IfOk result (λ p. Only so_far (around_of context.entry.around) (Part grammar.Declarators) (place_of lexer.old) (one (view_pat p.value)) (place_of lexer.new)) }
    ensures span { IfOk result (λ p. Spans (pat_at p.value) (next_of lexer.old) (end_of lexer.new)) }
    ensures placed { IfOk result (λ p. IsPlaced (told_pat p.value) (view_pat p.value) lexer.old lexer.new) }
    ensures shorter { OnOk result (left lexer.new < left lexer.old) }
    ensures behind { OnOk result (IsTrue (in_list (place_of lexer.new))) }
    ensures refused { Refused context.entry.levels result (Barred so_far (around_of context.entry.around) (Part grammar.Declarators) (place_of lexer.old)) }
{
    let outer = measure(context);
    let target = binding(context, lexer, body)?;
    let lo = start_of_pattern(&target);
    let whole = initialized(context, lexer, lo, target, body)?;
    leave(context, outer);
    Ok(whole)
}

/// Whether what a variable binds wants an initializer: a pattern in brackets does, and all that `const` binds.
fn wants_value(word: DeclareWord, target: &Pat) -> bool
    ensures { result ≡ wants_value (word_of word) (view_pat target.now) }
{
    match word {
        DeclareWord::Const => true,
        DeclareWord::Var => is_compound(target),
        DeclareWord::Let => is_compound(target),
    }
}

/// Whether a variable has an initializer where it wants one.
#[tactic(auto, using(crate::proofs::Initials::initializing))]
fn is_initialized(word: DeclareWord, declarator: &Pat) -> bool
    ensures { result ≡ has_value (word_of word) (view_pat declarator.now) }
{
    match declarator {
        Pat::Binding(_, target, None) => !wants_value(word, target),
        Pat::Binding(_, _, Some(_))
        | Pat::Ident(..)
        | Pat::Array(..)
        | Pat::Object(..)
        | Pat::Target(..)
        | Pat::Paren(..)
        | Pat::WithInit(..)
        | Pat::Rest(..)
        | Pat::Hole
        | Pat::Pair(..)
        | Pat::Shorthand(..)
        | Pat::RestProperty(..)
        | Pat::Declaration(..)
        | Pat::Head(..) => true,
    }
}

/// What is declared with a variable that stands before it, with commas between: `a = b` and `, c = d`.
pub(crate) fn more_declarators<'s, B>(
    context: Context,
    lexer: &mut Lexer<'s>,
    word: DeclareWord,
    first: Box<Pat<'s>>,
    body: B,
) -> Result<Vec<Box<Pat<'s>>>, ParseError>
where
    B: Copy + for<'c, 't> Fn(Context<'c>, &mut Lexer<'t>) -> Result<Body<'t>, ParseError>,
    requires bodies { ReadsBodies (left lexer.old) (B.pre body) (B.post body) }
    requires listed { IsTrue (in_list (place_of lexer.old)) }
    ensures read { IfOk result (λ v. AllDeclare (around_of context.entry.around) (word_of word) first.entry.value lexer.old v.items lexer.new) }
    ensures within { OnOk result (left lexer.new ≤ left lexer.old) }
    ensures refused { Refused context.entry.levels result (NoneDeclare (around_of context.entry.around) (word_of word) first.entry.value lexer.old) }
{
    let mut all = Vec::with_capacity(context.alloc, 1)?;
    let mut next = first;
    'declarators: loop {
        if !is_initialized(word, &next) {
            return Err(give_up(lexer));
        }
        all.push(next)?;
        if !lexer.take(Fixed::Comma) {
            return Ok(all);
        }
        next = declarator(context, lexer, body)?;
    }
}

/// One declarator or more behind the word, with commas between: `a = b, c = d`.
fn declarators<'s, B>(
    context: Context,
    lexer: &mut Lexer<'s>,
    word: DeclareWord,
    body: B,
) -> Result<Vec<Box<Pat<'s>>>, ParseError>
where
    B: Copy + for<'c, 't> Fn(Context<'c>, &mut Lexer<'t>) -> Result<Body<'t>, ParseError>,
    requires bodies { ReadsBodies (left lexer.old) (B.pre body) (B.post body) }
    ensures read { IfOk result (λ v. Declares (around_of context.entry.around) (place_of lexer.old) (list (forest (map (inside view_pat) v.items))) (place_of lexer.new)) }
    ensures initialized { IfOk result (λ v. IsTrue (all_of (has_init (word_of word)) (forest (map (inside view_pat) v.items)))) }
    ensures placed { IfOk result (λ v. IsPlacedList NoTrailing (tales (map (inside told_pat) v.items)) (forest (map (inside view_pat) v.items)) lexer.old lexer.new) }
    ensures shorter { OnOk result (left lexer.new < left lexer.old) }
    ensures refused { Refused context.entry.levels result (NotDeclared (around_of context.entry.around) (word_of word) (place_of lexer.old)) }
{
    let first = declarator(context, lexer, body)?;
    Ok(more_declarators(context, lexer, word, first, body)?)
}

/// A declaration of variables behind its word: `const a = b, c = d;` (ECMA-262 sections 14.3.1 and 14.3.2).
pub fn declaration<'s, B>(
    context: Context,
    lexer: &mut Lexer<'s>,
    word: DeclareWord,
    body: B,
) -> Result<Box<Stmt<'s>>, ParseError>
where
    B: Copy + for<'c, 't> Fn(Context<'c>, &mut Lexer<'t>) -> Result<Body<'t>, ParseError>,
    requires bodies { ReadsBodies (left lexer.old) (B.pre body) (B.post body) }
    ensures read { IfOk result (λ s. BuiltNode so_far (around_of context.entry.around) (tail (row_so_far (statement (Var (word_of word))))) (statement (Var (word_of word))) (view_stmt s.value) (place_of lexer.old) (place_of lexer.new)) }
    ensures span { IfOk result (λ s. Spans (stmt_at s.value) (begin_of lexer.old) (end_of lexer.new)) }
    ensures placed { IfOk result (λ s. IsPlacedBehind (opening_sign (statement (Var (word_of word)))) lexer.old (told_stmt s.value) (view_stmt s.value) lexer.new) }
    ensures within { OnOk result (left lexer.new ≤ left lexer.old) }
    ensures refused { Refused context.entry.levels result (NoNode so_far (around_of context.entry.around) (tail (row_so_far (statement (Var (word_of word))))) (statement (Var (word_of word))) (place_of lexer.old)) }
{
    let lo = lexer.last_place();
    let all = declarators(context, lexer, word, body)?;
    semicolon(context, lexer)?;
    Ok(make::variables(context.alloc, span_to(lo, lexer), word, all)?)
}

/// An expression statement: `a(b);` (ECMA-262 section 14.5).
pub fn expression_statement<'s, B>(
    context: Context,
    lexer: &mut Lexer<'s>,
    body: B,
) -> Result<Box<Stmt<'s>>, ParseError>
where
    B: Copy + for<'c, 't> Fn(Context<'c>, &mut Lexer<'t>) -> Result<Body<'t>, ParseError>,
    requires bodies { ReadsBodies (left lexer.old) (B.pre body) (B.post body) }
    requires plain { NoHeading (place_of lexer.old) }
    ensures read { IfOk result (λ s. BuiltNode so_far (around_of context.entry.around) (row_so_far (statement ExprStmt)) (statement ExprStmt) (view_stmt s.value) (place_of lexer.old) (place_of lexer.new)) }
    ensures span { IfOk result (λ s. Spans (stmt_at s.value) (next_of lexer.old) (end_of lexer.new)) }
    ensures placed { IfOk result (λ s. IsPlaced (told_stmt s.value) (view_stmt s.value) lexer.old lexer.new) }
    ensures shorter { OnOk result (left lexer.new < left lexer.old) }
    ensures refused { Refused context.entry.levels result (NoNode so_far (around_of context.entry.around) (row_so_far (statement ExprStmt)) (statement ExprStmt) (place_of lexer.old)) }
{
    let expr = sequence(context, lexer, body)?;
    semicolon(context, lexer)?;
    let span = span_to(start_of(&expr), lexer);
    Ok(make::expression_statement(context.alloc, span, expr)?)
}

/// An empty statement, behind its `;` (ECMA-262 section 14.4).
pub fn empty_statement<'s>(context: Context, lexer: &Lexer<'s>) -> Result<Box<Stmt<'s>>, ParseError>
    ensures read { IfOk result (λ s. BuiltNode so_far (around_of context.entry.around) (tail (row_so_far (statement Empty))) (statement Empty) (view_stmt s.value) (place_of lexer.now) (place_of lexer.now)) }
    ensures span { IfOk result (λ s. Spans (stmt_at s.value) (begin_of lexer.now) (end_of lexer.now)) }
    ensures placed { IfOk result (λ s. IsPlacedBehind (opening_sign (statement Empty)) lexer.now (told_stmt s.value) (view_stmt s.value) lexer.now) }
    ensures refused { Refused context.entry.levels result (NoNode so_far (around_of context.entry.around) (tail (row_so_far (statement Empty))) (statement Empty) (place_of lexer.now)) }
{
    let lo = lexer.last_place();
    Ok(make::empty_statement(context.alloc, span_to(lo, lexer))?)
}

/// A `throw` statement behind its word, with its expression on the same line (ECMA-262 section 14.14).
pub fn throw_statement<'s, B>(
    context: Context,
    lexer: &mut Lexer<'s>,
    body: B,
) -> Result<Box<Stmt<'s>>, ParseError>
where
    B: Copy + for<'c, 't> Fn(Context<'c>, &mut Lexer<'t>) -> Result<Body<'t>, ParseError>,
    requires bodies { ReadsBodies (left lexer.old) (B.pre body) (B.post body) }
    ensures read { IfOk result (λ s. BuiltNode so_far (around_of context.entry.around) (tail (row_so_far (statement Throw))) (statement Throw) (view_stmt s.value) (place_of lexer.old) (place_of lexer.new)) }
    ensures span { IfOk result (λ s. Spans (stmt_at s.value) (begin_of lexer.old) (end_of lexer.new)) }
    ensures placed { IfOk result (λ s. IsPlacedBehind (opening_sign (statement Throw)) lexer.old (told_stmt s.value) (view_stmt s.value) lexer.new) }
    ensures within { OnOk result (left lexer.new ≤ left lexer.old) }
    ensures refused { Refused context.entry.levels result (NoNode so_far (around_of context.entry.around) (tail (row_so_far (statement Throw))) (statement Throw) (place_of lexer.old)) }
{
    if !lexer.is_on_line() {
        return Err(give_up(lexer));
    }
    let lo = lexer.last_place();
    let value = sequence(context, lexer, body)?;
    semicolon(context, lexer)?;
    let span = span_to(lo, lexer);
    Ok(make::throw_statement(context.alloc, span, value)?)
}

/// A `debugger` statement behind its word (ECMA-262 section 14.16).
pub fn debugger_statement<'s>(
    context: Context,
    lexer: &mut Lexer<'s>,
) -> Result<Box<Stmt<'s>>, ParseError>
    ensures read { IfOk result (λ s. BuiltNode so_far (around_of context.entry.around) (tail (row_so_far (statement Debugger))) (statement Debugger) (view_stmt s.value) (place_of lexer.old) (place_of lexer.new)) }
    ensures span { IfOk result (λ s. Spans (stmt_at s.value) (begin_of lexer.old) (end_of lexer.new)) }
    ensures placed { IfOk result (λ s. IsPlacedBehind (opening_sign (statement Debugger)) lexer.old (told_stmt s.value) (view_stmt s.value) lexer.new) }
    ensures within { OnOk result (left lexer.new ≤ left lexer.old) }
    ensures refused { Refused context.entry.levels result (NoNode so_far (around_of context.entry.around) (tail (row_so_far (statement Debugger))) (statement Debugger) (place_of lexer.old)) }
{
    let lo = lexer.last_place();
    lexer.ends(Ending::Word);
    semicolon(context, lexer)?;
    Ok(make::debugger_statement(context.alloc, span_to(lo, lexer))?)
}

/// The error at a jump to nowhere: at its word, where none may stand there, and else behind it.
fn stray_jump(lexer: &Lexer, word: BytePos, may_stand: bool) -> ParseError {
    if may_stand {
        return give_up(lexer);
    }
    ParseError::Syntax(word)
}

/// A `break` statement behind its word (ECMA-262 section 14.9).
pub fn break_statement<'s>(
    context: Context,
    lexer: &mut Lexer<'s>,
) -> Result<Box<Stmt<'s>>, ParseError>
    ensures read { IfOk result (λ s. BuiltNode so_far (around_of context.entry.around) (tail (row_so_far (statement Break))) (statement Break) (view_stmt s.value) (place_of lexer.old) (place_of lexer.new)) }
    ensures span { IfOk result (λ s. Spans (stmt_at s.value) (begin_of lexer.old) (end_of lexer.new)) }
    ensures placed { IfOk result (λ s. IsPlacedBehind (opening_sign (statement Break)) lexer.old (told_stmt s.value) (view_stmt s.value) lexer.new) }
    ensures within { OnOk result (left lexer.new ≤ left lexer.old) }
    ensures refused { Refused context.entry.levels result (NoNode so_far (around_of context.entry.around) (tail (row_so_far (statement Break))) (statement Break) (place_of lexer.old)) }
{
    let lo = lexer.last_place();
    let label = jump_label(context, lexer)?;
    if !may_break(context, label) {
        let is_named = !matches!(context.around.labels, Labels::None);
        return Err(stray_jump(lexer, lo, context.around.breakable || is_named));
    }
    semicolon(context, lexer)?;
    Ok(make::break_statement(context.alloc, span_to(lo, lexer), target(label))?)
}

/// A `continue` statement behind its word (ECMA-262 section 14.8).
pub fn continue_statement<'s>(
    context: Context,
    lexer: &mut Lexer<'s>,
) -> Result<Box<Stmt<'s>>, ParseError>
    ensures read { IfOk result (λ s. BuiltNode so_far (around_of context.entry.around) (tail (row_so_far (statement Continue))) (statement Continue) (view_stmt s.value) (place_of lexer.old) (place_of lexer.new)) }
    ensures span { IfOk result (λ s. Spans (stmt_at s.value) (begin_of lexer.old) (end_of lexer.new)) }
    ensures placed { IfOk result (λ s. IsPlacedBehind (opening_sign (statement Continue)) lexer.old (told_stmt s.value) (view_stmt s.value) lexer.new) }
    ensures within { OnOk result (left lexer.new ≤ left lexer.old) }
    ensures refused { Refused context.entry.levels result (NoNode so_far (around_of context.entry.around) (tail (row_so_far (statement Continue))) (statement Continue) (place_of lexer.old)) }
{
    let lo = lexer.last_place();
    let label = jump_label(context, lexer)?;
    if !may_continue(context, label) {
        return Err(stray_jump(lexer, lo, context.around.in_loop));
    }
    semicolon(context, lexer)?;
    Ok(make::continue_statement(context.alloc, span_to(lo, lexer), target(label))?)
}

fn is_default(clause: &Control) -> bool
    ensures { result ≡ is_default (view_control clause.now) }
{
    matches!(clause, Control::Case(_, None, _))
}

/// Whether one of some cases is `default`, with a further one, of which two are refused.
pub fn one_default(has_default: bool, clause: &Control, lexer: &Lexer) -> Result<bool, ParseError>
    ensures has { IfOk result (λ b. b ≡ (has_default || is_default (view_control clause.now))) }
    ensures one { OnOk result (IsFalse (has_default && is_default (view_control clause.now))) }
    ensures refused { PlainRefused result (IsTrue (has_default && is_default (view_control clause.now))) }
{
    let is_default = is_default(clause);
    if is_default && has_default {
        return Err(give_up(lexer));
    }
    Ok(has_default || is_default)
}

/// Whether a `try` has one of its parts, which its rule asks.
pub fn has_part(handler: &Option<Box<Control>>, finalizer: &Option<Box<Stmt>>) -> bool
    ensures { result ≡ (is_here (optional_of view_control handler.now) || is_here (optional_of view_stmt finalizer.now)) }
{
    handler.is_some() || finalizer.is_some()
}

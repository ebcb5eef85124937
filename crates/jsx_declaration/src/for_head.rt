//! What stands in the parentheses of a `for` (ECMA-262 section 14.7.4).

ghost use Rattle.std.specs.Prelude.{◌≡◌, ◌<◌, IfNone, IfOk, IfSome, IsTrue, OnOk, codes, ◌||◌};
ghost use Rattle.jsx_base.specs.Token.{same};
ghost use Rattle.jsx_tree.specs.Kinds.{Tree, none, part};
ghost use Rattle.jsx_tree.specs.View.{optional_of, text_of, view_expr, view_target};
ghost use Rattle.jsx_tree.specs.Told.{told_expr, told_optional, told_pat};
ghost use Rattle.jsx_tree.specs.Answers.{NoRow, OnlyRow};
ghost use Rattle.jsx_make.specs.NodeSpans.{expr_at};
ghost use Rattle.jsx_operand.specs.Around.{around_of};
ghost use Rattle.jsx_operand.specs.Covers.{IsTurned};
ghost use Rattle.jsx_operand.specs.Turning.{retold};
ghost use Rattle.jsx_token.specs.Growths.{is_blocked};
ghost use Rattle.jsx_tree.specs.Walk.{is_found};
ghost use Rattle.jsx_tree.specs.Grammar.{key};
ghost use Rattle.jsx_operand.specs.SoFar.{so_far};
ghost use Rattle.jsx_tree.specs.Reading.{forth};
ghost use Rattle.jsx_token.specs.Here.{place_of, left};
ghost use Rattle.jsx_operand.specs.Answers.{PlainRefused, Refused};
ghost use Rattle.jsx_declaration.specs.Heads.{DeclaresHead, DeclaresNoHead, Heads, IsPlacedHead, IsPlacedHeadBehind, IsPlacedStem, IsStem, AtValue, NoDeclaring, NoHeads, NoStem, clause_row, clause_symbols, declare_sign, is_async, is_closer};
ghost use Rattle.jsx_operand.specs.Spans.{IsPlacedFront, Spans};
ghost use Rattle.jsx_token.specs.Places.{Takes, begin_of, end_of, next_of};
ghost use Rattle.jsx_operand.specs.Bodies.{ReadsBodies};

use crate::open_in::{any_has_open_in, head_has_open_in};
use crate::statement::{initialized, more_declarators};
use jsx_expression::expression::{grow, more_items, operand, sequence, tagged};
use jsx_expression::function::binding;
use jsx_make::make;
use jsx_operand::cover::{refuse_arrow, settle};
use jsx_operand::depth::{behind_expr, leave, measure};
use jsx_operand::operand::{ASSIGNMENT, fits, level};
use jsx_operand::pattern::start_of_pattern;
use jsx_operand::turn::turn;
use jsx_operand::{Body, Context, Cover, ParseError, expect, give_up, span_to};
use jsx_token::{Fixed, Lexer, Word};
use jsx_tree::{DeclareWord, Expr, Pat, Text};

/// The word of a declaration, if it comes next.
pub fn declare_word(lexer: &mut Lexer) -> Option<DeclareWord>
    ensures taken { IfSome result (λ w. place_of lexer.new ≡ forth (declare_sign w) (place_of lexer.old)) }
    ensures takes { IfSome result (λ w. Takes (declare_sign w) lexer.old lexer.new) }
    ensures begins { IfSome result (λ w. begin_of lexer.new ≡ next_of lexer.old) }
    ensures shorter { IfSome result (λ w. left lexer.new < left lexer.old) }
    ensures missing { IfNone result (NoDeclaring (place_of lexer.old)) }
    ensures stays { IfNone result (lexer.new ≡ lexer.old) }
{
    if lexer.take(Fixed::Word(Word::Var)) {
        return Some(DeclareWord::Var);
    }
    if lexer.take(Fixed::Word(Word::Let)) {
        return Some(DeclareWord::Let);
    }
    if lexer.take(Fixed::Word(Word::Const)) {
        return Some(DeclareWord::Const);
    }
    None
}

/// What stands in the parentheses of a `for` up to the token that tells what it is, with that (ECMA-262 section 14.7).
#[derive(Drop)]
pub enum ForHead<'s> {
    /// `let a = 1;`, `a = 1;`, or `;`
    Initial(Option<Box<Pat<'s>>>),
    /// `let a in`, or `a in`
    Keys(Box<Pat<'s>>),
    /// `let a of`, or `a of`
    Items(Box<Pat<'s>>),
}

/// A declaration with which a `for` begins, behind its word: `a in`, `a of`, or `a = 1, b = 2;`.
fn declared_head<'s, B>(
    context: Context,
    lexer: &mut Lexer<'s>,
    word: DeclareWord,
    body: B,
) -> Result<ForHead<'s>, ParseError>
where
    B: Copy + for<'c, 't> Fn(Context<'c>, &mut Lexer<'t>) -> Result<Body<'t>, ParseError>,
    requires bodies { ReadsBodies (left lexer.old) (B.pre body) (B.post body) }
    ensures read { IfOk result (λ h. DeclaresHead (around_of context.entry.around) word (place_of lexer.old) h (place_of lexer.new)) }
    ensures placed { IfOk result (λ h. IsPlacedHeadBehind (declare_sign word) lexer.old h lexer.new) }
    ensures shorter { OnOk result (left lexer.new < left lexer.old) }
    ensures refused { Refused context.entry.levels result (DeclaresNoHead (around_of context.entry.around) word (place_of lexer.old)) }
{
    let lo = lexer.last_place();
    let outer = measure(context);
    let name = binding(context, lexer, body)?;
    let start = start_of_pattern(&name);
    let span = span_to(lo, lexer);
    if lexer.take(Fixed::Word(Word::In)) {
        leave(context, outer);
        return Ok(ForHead::Keys(make::head(context.alloc, span, word, name)?));
    }
    if lexer.take(Fixed::Word(Word::Of)) {
        leave(context, outer);
        return Ok(ForHead::Items(make::head(context.alloc, span, word, name)?));
    }
    let first = initialized(context, lexer, start, name, body)?;
    leave(context, outer);
    let all = more_declarators(context, lexer, word, first, body)?;
    if any_has_open_in(&all) {
        return Err(give_up(lexer));
    }
    let init = make::head_declaration(context.alloc, span_to(lo, lexer), word, all)?;
    expect(context, lexer, Fixed::Semicolon)?;
    Ok(ForHead::Initial(Some(init)))
}

/// An expression that no comma goes on with, as far as an `in` that is no part of one of its operands: `a.b`, `a = c in d`.
/// Its caller measures anew where it begins.
fn stem<'s, B>(context: Context, lexer: &mut Lexer<'s>, body: B) -> Result<Cover<'s>, ParseError>
where
    B: Copy + for<'c, 't> Fn(Context<'c>, &mut Lexer<'t>) -> Result<Body<'t>, ParseError>,
    requires bodies { ReadsBodies (left lexer.old) (B.pre body) (B.post body) }
    requires undeclared { NoDeclaring (place_of lexer.old) }
    ensures read { IfOk result (λ c. IsStem (around_of context.entry.around) (place_of lexer.old) c (place_of lexer.new)) }
    ensures span { IfOk result (λ c. Spans (expr_at c.expr.value) (next_of lexer.old) (end_of lexer.new)) }
    ensures placed { IfOk result (λ c. IsPlacedStem c lexer.old lexer.new) }
    ensures shorter { OnOk result (left lexer.new < left lexer.old) }
    ensures refused { Refused context.entry.levels result (NoStem (around_of context.entry.around) (place_of lexer.old)) }
{
    let first = operand(context, lexer, ASSIGNMENT, body)?;
    if level(&first.expr) < ASSIGNMENT {
        return Err(give_up(lexer));
    }
    if !first.is_expr {
        return Ok(first);
    }
    let mut may_turn = first.may_turn;
    let mut expr = first.expr;
    'steps: while !ends_stem(lexer) {
        if lexer.is_before_template() {
            expr = tagged(context, lexer, expr, body)?;
        } else {
            let Some(growth) = lexer.growth(ASSIGNMENT) else {
                refuse_arrow(lexer, ASSIGNMENT)?;
                return Ok(Cover::of(expr, may_turn));
            };
            if !fits(growth, &expr) {
                return Err(give_up(lexer));
            }
            let levels = behind_expr(context, lexer, &expr)?;
            let inside = Context { levels, ..context };
            expr = grow(inside, lexer, growth, expr, body)?;
        }
        may_turn = true;
    }
    Ok(Cover::of(expr, may_turn))
}

/// Whether an expression that no comma goes on with has come to an `in`, or to its end with the block of an arrow function.
fn ends_stem(lexer: &mut Lexer) -> bool
    ensures ahead { result ≡ (is_blocked (place_of lexer.old) || is_found (forth (key "in") (place_of lexer.old))) }
    ensures stays { lexer.new ≡ lexer.old }
{
    lexer.is_behind_block() || lexer.is_before(Fixed::Word(Word::In))
}

/// What a `for` goes over with, of what was read before its `in` or `of`: a target, or a pattern.
fn aim<'s>(
    context: Context,
    lexer: &Lexer<'s>,
    first: Cover<'s>,
) -> Result<Box<Pat<'s>>, ParseError>
    ensures read { IfOk result (λ p. IsTurned first.entry (view_target p.value)) }
    ensures told { IfOk result (λ p. told_pat p.value ≡ retold (view_expr first.entry.expr.value) (told_expr first.entry.expr.value)) }
    ensures refused { PlainRefused result ((p : Tree) → IsTurned first.entry p → Prim.⊥) }
{
    turn(context.alloc, lexer.last_place(), first)
}

/// Whether an expression is the name `async`, which would begin an arrow before `of`.
#[tactic(auto, using(crate::proofs::OpenIn::opening))]
fn is_async(expr: &Expr) -> bool
    ensures { result ≡ is_async (view_expr expr.now) }
{
    match expr {
        Expr::Ident(_, name) => is_async_text(&name.text),
        _ => false,
    }
}

fn is_async_text(text: &Text) -> bool
    ensures { result ≡ same (text_of text.now) (codes "async") }
{
    match text {
        Text::Read(raw, _) => Word::Async.is(raw),
        Text::Made(made, _) => Word::Async.is(made),
    }
}

/// An expression with which a `for` begins: `a.b in`, `a.b of`, or `a = 1;`.
fn value_head<'s, B>(
    context: Context,
    lexer: &mut Lexer<'s>,
    body: B,
) -> Result<ForHead<'s>, ParseError>
where
    B: Copy + for<'c, 't> Fn(Context<'c>, &mut Lexer<'t>) -> Result<Body<'t>, ParseError>,
    requires bodies { ReadsBodies (left lexer.old) (B.pre body) (B.post body) }
    requires value { AtValue (place_of lexer.old) }
    ensures read { IfOk result (λ h. Heads (around_of context.entry.around) (place_of lexer.old) h (place_of lexer.new)) }
    ensures placed { IfOk result (λ h. IsPlacedHead h lexer.old lexer.new) }
    ensures shorter { OnOk result (left lexer.new < left lexer.old) }
    ensures refused { Refused context.entry.levels result (NoHeads (around_of context.entry.around) (place_of lexer.old)) }
{
    let outer = measure(context);
    let first = stem(context, lexer, body)?;
    leave(context, outer);
    if lexer.take(Fixed::Word(Word::In)) {
        return Ok(ForHead::Keys(aim(context, lexer, first)?));
    }
    if lexer.take(Fixed::Word(Word::Of)) {
        if is_async(&first.expr) {
            return Err(give_up(lexer));
        }
        return Ok(ForHead::Items(aim(context, lexer, first)?));
    }
    let expr = settle(first, lexer)?;
    let expr = more_items(context, lexer, expr, body)?;
    if head_has_open_in(&expr) {
        return Err(give_up(lexer));
    }
    expect(context, lexer, Fixed::Semicolon)?;
    Ok(ForHead::Initial(Some(make::target(context.alloc, expr)?)))
}

/// What a `for` begins with, up to the token that tells what it is, with that.
pub fn head<'s, B>(
    context: Context,
    lexer: &mut Lexer<'s>,
    body: B,
) -> Result<ForHead<'s>, ParseError>
where
    B: Copy + for<'c, 't> Fn(Context<'c>, &mut Lexer<'t>) -> Result<Body<'t>, ParseError>,
    requires bodies { ReadsBodies (left lexer.old) (B.pre body) (B.post body) }
    ensures read { IfOk result (λ h. Heads (around_of context.entry.around) (place_of lexer.old) h (place_of lexer.new)) }
    ensures placed { IfOk result (λ h. IsPlacedHead h lexer.old lexer.new) }
    ensures shorter { OnOk result (left lexer.new < left lexer.old) }
    ensures refused { Refused context.entry.levels result (NoHeads (around_of context.entry.around) (place_of lexer.old)) }
{
    if lexer.take(Fixed::Semicolon) {
        return Ok(ForHead::Initial(None));
    }
    let Some(word) = declare_word(lexer) else {
        return Ok(value_head(context, lexer, body)?);
    };
    Ok(declared_head(context, lexer, word, body)?)
}

/// An expression of a `for`, or none, with the token behind it: `a < b;`, or `)`.
pub fn clause<'s, B>(
    context: Context,
    lexer: &mut Lexer<'s>,
    closer: Fixed,
    body: B,
) -> Result<Option<Box<Expr<'s>>>, ParseError>
where
    B: Copy + for<'c, 't> Fn(Context<'c>, &mut Lexer<'t>) -> Result<Body<'t>, ParseError>,
    requires bodies { ReadsBodies (left lexer.old) (B.pre body) (B.post body) }
    requires closes { IsTrue (is_closer closer) }
    ensures read { IfOk result (λ o. OnlyRow so_far (around_of context.entry.around) (clause_row closer) (place_of lexer.old) (part (optional_of view_expr o) none) (place_of lexer.new)) }
    ensures placed { IfOk result (λ o. IsPlacedFront (clause_symbols closer) (told_optional told_expr o) (optional_of view_expr o) lexer.old lexer.new) }
    ensures shorter { OnOk result (left lexer.new < left lexer.old) }
    ensures refused { Refused context.entry.levels result (NoRow so_far (around_of context.entry.around) (clause_row closer) (place_of lexer.old)) }
{
    if lexer.take(closer) {
        return Ok(None);
    }
    let expr = sequence(context, lexer, body)?;
    expect(context, lexer, closer)?;
    Ok(Some(expr))
}

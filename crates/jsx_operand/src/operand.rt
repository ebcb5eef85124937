//! Questions about expressions, and what of them has no other within.

ghost use Rattle.std.specs.Prelude.{◌≡◌, ◌<◌, ◌||◌, IfOk, IfNone, IfSome, MatchOption, OnOk, IsTrue, false, true};
ghost use Rattle.std.specs.Str.{chars};
ghost use Rattle.jsx_base.specs.Token.{among, Operator};
ghost use Rattle.jsx_tree.specs.Kinds.{Role, Binary, Member, Element, Parenthesized, expression, jsx, node, none, part, PostfixUpdate};
ghost use Rattle.jsx_tree.specs.Nonterminals as grammar;
ghost use Rattle.jsx_tree.specs.Grammar.{Part, p};
ghost use Rattle.jsx_tree.specs.View.{text_of, view_access, view_expr, view_key, view_operation, view_pattern, template};
ghost use Rattle.jsx_tree.specs.ViewOperators.{binary_of, unary_of, step_of};
ghost use Rattle.jsx_tree.specs.StaticRules.{is_name};
ghost use Rattle.jsx_tree.specs.Told.{told_expr, told_key, told_pat};
ghost use Rattle.jsx_tree.specs.Reading.{forth};
ghost use Rattle.jsx_tree.specs.Grows.{as_target};
ghost use Rattle.jsx_tree.specs.Walk.{is_found, one, tail};
ghost use Rattle.jsx_tree.specs.Answers.{Only, Barred, NoRow, Built};
ghost use Rattle.jsx_tree.specs.Faults.{inner, part_depth};
ghost use Rattle.jsx_operand.specs.Around.{around_of};
ghost use Rattle.jsx_operand.specs.SoFar.{so_far};
ghost use Rattle.jsx_token.specs.Marks.{is_quoted, row_so_far};
ghost use Rattle.jsx_token.specs.Seen.{next_token};
ghost use Rattle.jsx_token.specs.Here.{place_of, left, sign_of};
ghost use Rattle.jsx_token.specs.declared.lexer.Fixed.TheVariants as fixed;
ghost use Rattle.jsx_operand.specs.Answers.{Refused};
ghost use Rattle.jsx_operand.specs.Members.{NoOtherKey, is_word};
ghost use Rattle.jsx_operand.specs.Climbing as climbing;
ghost use Rattle.jsx_operand.specs.Climbing.{Begins, behind, NoneBegins};
ghost use Rattle.jsx_token.specs.Growths.{NoOpening, callee, growth_kind, mark, settled};
ghost use Rattle.jsx_make.specs.NodeSpans.{access_at, expr_at, jsx_at, operation_at};
ghost use Rattle.jsx_operand.specs.Spans.{Extends, IsPlaced, IsPlacedOn, Spans, Starts, is_plain, pairs_formed};
ghost use Rattle.jsx_token.specs.Places.{begin_of, end_of, next_of};

use crate::around::Context;
use crate::depth::{counted, within_leaf};
use crate::error::ParseError;
use crate::parser::{expect, give_up, identifier_name, span_to, tag_name};
use crate::template::Template;
use jsx_base::{BytePos, Span};
use jsx_make::make;
use jsx_token::growth::{self, Growth};
use jsx_token::{Fixed, Leaf, Lexer, Word, is_bound, is_reserved, value_word};
use jsx_tree::{
    Access, BinaryOp, Expr, Ident, Jsx, Key, LiteralKind, Operation, Pat, Tag, Text, UnaryOp,
    UpdateOp, Word as TreeWord,
};
use std::alloc::{AllocError, Global};
use std::mem;

/// The level of an assignment, and of all that a comma ends.
pub const ASSIGNMENT: u8 = 1;

/// A JSX element with neither attributes nor children: `<a/>`.
fn element<'s>(context: Context, lexer: &mut Lexer<'s>) -> Result<Box<Expr<'s>>, ParseError>
    ensures read { IfOk result (λ e. Built so_far (around_of context.entry.around) (row_so_far (jsx Element)) (jsx Element) (λ ts. ts) (view_expr e.value) (place_of lexer.old) (place_of lexer.new)) }
    ensures span { IfOk result (λ e. Spans (expr_at e.value) (next_of lexer.old) (end_of lexer.new)) }
    ensures placed { IfOk result (λ e. IsPlaced (told_expr e.value) (view_expr e.value) lexer.old lexer.new) }
    ensures shorter { OnOk result (left lexer.new < left lexer.old) }
    ensures ended { OnOk result (IsTrue (settled (place_of lexer.new))) }
    ensures refused { Refused context.entry.levels result (λ e. NoRow so_far (around_of context.entry.around) (row_so_far (jsx Element)) (place_of lexer.old) (inner e)) }
{
    expect(context, lexer, Fixed::Less)?;
    let lo = lexer.last_place();
    let name = tag_name(context, lexer)?;
    within_leaf(context, lexer)?;
    expect(context, lexer, Fixed::TagSlash)?;
    expect(context, lexer, Fixed::TagGreater)?;
    let span = span_to(lo, lexer);
    Ok(make::element(
        context.alloc,
        span,
        Tag::Name(name),
        Vec::new(context.alloc),
    )?)
}

/// A primary expression: an identifier, a literal or an element. It is kept out of the frame that each level of nesting
/// takes.
#[inline(never)]
pub fn primary<'s>(context: Context, lexer: &mut Lexer<'s>) -> Result<Box<Expr<'s>>, ParseError>
    requires opening { NoOpening (place_of lexer.old) }
    requires template { is_quoted (next_token Operator lexer.old) ≡ false }
    ensures read { IfOk result (λ e. Begins (around_of context.entry.around) (place_of lexer.old) (view_expr e.value) (place_of lexer.new)) }
    ensures span { IfOk result (λ e. Spans (expr_at e.value) (next_of lexer.old) (end_of lexer.new)) }
    ensures placed { IfOk result (λ e. IsPlaced (told_expr e.value) (view_expr e.value) lexer.old lexer.new) }
    ensures shorter { OnOk result (left lexer.new < left lexer.old) }
    ensures refused { Refused context.entry.levels result (NoneBegins (around_of context.entry.around) (place_of lexer.old)) }
{
    if let Some(raw) = lexer.leaf(Leaf::Name) {
        let lo = lexer.last_place();
        if let Some(word) = value_word(raw) {
            counted(context, lexer)?;
            return Ok(make::constant(context.alloc, span_to(lo, lexer), word)?);
        }
        if is_reserved(raw) {
            return Err(give_up(lexer));
        }
        counted(context, lexer)?;
        let text = Text::Read(raw, lo);
        return Ok(make::name(context.alloc, span_to(lo, lexer), Ident { text })?);
    }
    if let Some(raw) = lexer.leaf(Leaf::Str) {
        counted(context, lexer)?;
        let lo = lexer.last_place();
        let text = Text::Read(raw, lo);
        return Ok(make::literal(context.alloc, span_to(lo, lexer), LiteralKind::Str, text)?);
    }
    if let Some(raw) = lexer.leaf(Leaf::Num) {
        counted(context, lexer)?;
        let lo = lexer.last_place();
        let text = Text::Read(raw, lo);
        return Ok(make::literal(context.alloc, span_to(lo, lexer), LiteralKind::Num, text)?);
    }
    if let Some(raw) = lexer.leaf(Leaf::BigInt) {
        counted(context, lexer)?;
        let lo = lexer.last_place();
        let text = Text::Read(raw, lo);
        return Ok(make::literal(context.alloc, span_to(lo, lexer), LiteralKind::BigInt, text)?);
    }
    if let Some(raw) = lexer.leaf(Leaf::RegExp) {
        counted(context, lexer)?;
        let lo = lexer.last_place();
        let text = Text::Read(raw, lo);
        return Ok(make::literal(context.alloc, span_to(lo, lexer), LiteralKind::RegExp, text)?);
    }
    Ok(element(context, lexer)?)
}

/// The level of an expression, up to that of what may be called or have members.
#[tactic(auto, using(crate::proofs::Leveling::leveling))]
pub fn level(expr: &Expr) -> u8
    ensures { result ≡ climbing.level (view_expr expr.now) }
{
    match expr {
        Expr::Operation(operation) => level_of_operation(operation),
        Expr::Access(access) => level_of_access(access),
        _ => 18,
    }
}

#[tactic(auto, using(crate::proofs::Leveling::leveling))]
fn level_of_access(access: &Access) -> u8
    ensures { result ≡ climbing.level (view_access access.now) }
{
    match access {
        Access::NewWithoutArguments(_, _) => 17,
        Access::Call(_, _, _) => 18,
        Access::Member(_, _, _) => 18,
        Access::Index(_, _, _) => 18,
        Access::Tagged(_, _, _, _, _) => 18,
        Access::New(_, _, _) => 18,
        Access::SuperCall(_, _) => 18,
        Access::SuperMember(_, _) => 18,
        Access::SuperIndex(_, _) => 18,
        Access::ImportCall(_, _) => 18,
        Access::Chain(_, _, _) => 17,
    }
}

#[tactic(auto, using(crate::proofs::Leveling::leveling))]
fn level_of_operation(operation: &Operation) -> u8
    ensures { result ≡ climbing.level (view_operation operation.now) }
{
    match operation {
        Operation::Seq(_, _) => 0,
        Operation::Assign(_, _, _) => 1,
        Operation::OpAssign(_, _, _, _) => 1,
        Operation::Arrow(_, _, _) => 1,
        Operation::ArrowBlock(_, _, _, _) => 1,
        Operation::BareArrow(_, _, _) => 1,
        Operation::BareArrowBlock(_, _, _, _) => 1,
        Operation::Cond(_, _, _, _) => 2,
        Operation::Binary(_, operator, _, _) => growth::level(*operator),
        Operation::Unary(_, _, _) => 15,
        Operation::Update(_, _, _, _) => 16,
        Operation::Spread(_, _) => 18,
        Operation::Hole => 18,
    }
}

/// Whether an expression may stand at the left of what goes on with it: `-a` not of `**`, and of `??` nothing that binds
/// less than `|` but another `??`.
pub fn fits(growth: Growth, left: &Expr) -> bool
    ensures { result ≡ climbing.fits (growth_kind growth) (view_expr left.now) }
{
    match growth {
        Growth::Binary(operator) => fits_operator(operator, left),
        Growth::Assign => is_target(left),
        Growth::OpAssign(_) => is_target(left),
        Growth::Cond => level(left) >= 3,
        Growth::Call => level(left) >= 18,
        Growth::Member => level(left) >= 18,
        Growth::Index => level(left) >= 18,
        Growth::Chain => level(left) >= 18,
        Growth::Update(_) => is_target(left),
    }
}

fn fits_operator(operator: BinaryOp, left: &Expr) -> bool
    ensures { result ≡ climbing.fits (expression (Binary (binary_of operator))) (view_expr left.now) }
{
    let level = level(left);
    level >= growth::left_level(operator) || level == 3 && growth::level(operator) == 3
}

/// Whether an expression may be assigned to: a name that may be bound, or a member, in parentheses or not.
#[cycle(target)]
#[tactic(auto, using(crate::proofs::Targeting::targeting))]
pub fn is_target(expr: &Expr) -> bool
    ensures { result ≡ climbing.is_target (view_expr expr.now) }
{
    match expr {
        Expr::Ident(_, name) => is_bound_text(&name.text),
        Expr::Access(access) => is_target_access(access),
        Expr::Literal(_, _, _) => false,
        Expr::Word(_, _) => false,
        Expr::Operation(_) => false,
        Expr::Array(_, _) => false,
        Expr::Object(_, _) => false,
        Expr::Template(_, _, _) => false,
        Expr::Function(_, _, _, _, _) => false,
        Expr::Class(_, _, _, _) => false,
        Expr::Jsx(_) => false,
        Expr::Paren(_, inside) => is_target(inside),
    }
}

pub(crate) fn is_bound_text(text: &Text) -> bool
    ensures { result ≡ grammar.is_bound (text_of text.now) }
{
    match text {
        Text::Read(raw, _) => is_bound(raw),
        Text::Made(made, _) => is_bound(made),
    }
}

#[tactic(auto, using(crate::proofs::Targeting::targeting))]
fn is_target_access(access: &Access) -> bool
    ensures { result ≡ climbing.is_target (view_access access.now) }
{
    matches!(
        access,
        Access::Member(_, _, _)
            | Access::Index(_, _, _)
            | Access::SuperMember(_, _)
            | Access::SuperIndex(_, _)
    )
}

/// Whether an expression is a call, also of `super` or `import`, or a chain.
#[tactic(auto, using(crate::proofs::Calling::calling))]
fn is_call(expr: &Expr) -> bool
    ensures { result ≡ climbing.is_call (view_expr expr.now) }
{
    match expr {
        Expr::Access(access) => is_call_access(access),
        Expr::Ident(_, _) => false,
        Expr::Literal(_, _, _) => false,
        Expr::Word(_, _) => false,
        Expr::Operation(_) => false,
        Expr::Array(_, _) => false,
        Expr::Object(_, _) => false,
        Expr::Template(_, _, _) => false,
        Expr::Function(_, _, _, _, _) => false,
        Expr::Class(_, _, _, _) => false,
        Expr::Jsx(_) => false,
        Expr::Paren(_, _) => false,
    }
}

#[tactic(auto, using(crate::proofs::Calling::calling))]
fn is_call_access(access: &Access) -> bool
    ensures { result ≡ climbing.is_call (view_access access.now) }
{
    matches!(
        access,
        Access::Call(_, _, _)
            | Access::SuperCall(_, _)
            | Access::ImportCall(_, _)
            | Access::Chain(_, _, _)
    )
}

/// Whether an expression that begins with no other may stand behind `new`.
pub fn is_callee(expr: &Expr) -> bool
    ensures { result ≡ climbing.rises callee (view_expr expr.now) }
{
    level(expr) >= 17 && !is_call(expr)
}

fn is_name_text(text: &Text) -> bool
    ensures { result ≡ grammar.is_ident (text_of text.now) }
{
    match text {
        Text::Read(raw, _) => !is_reserved(raw),
        Text::Made(made, _) => !is_reserved(made),
    }
}

/// Whether an expression is a name, in parentheses or not.
#[cycle(name)]
#[tactic(auto, using(crate::proofs::Naming::naming))]
fn is_name(expr: &Expr) -> bool
    ensures { result ≡ is_name (view_expr expr.now) }
{
    match expr {
        Expr::Ident(_, name) => is_name_text(&name.text),
        Expr::Paren(_, inside) => is_name(inside),
        Expr::Literal(_, _, _) => false,
        Expr::Word(_, _) => false,
        Expr::Operation(_) => false,
        Expr::Access(_) => false,
        Expr::Array(_, _) => false,
        Expr::Object(_, _) => false,
        Expr::Template(_, _, _) => false,
        Expr::Function(_, _, _, _, _) => false,
        Expr::Class(_, _, _, _) => false,
        Expr::Jsx(_) => false,
    }
}

pub fn deletes_name(operator: UnaryOp, operand: &Expr) -> bool
    ensures { result ≡ climbing.deletes_name (unary_of operator) (view_expr operand.now) }
{
    match operator {
        UnaryOp::Delete => is_name(operand),
        _ => false,
    }
}

/// Where an expression that was read begins.
pub fn start_of(expr: &Expr) -> BytePos
    ensures { Starts (expr_at expr.now) result }
{
    match span_of(expr) {
        Some(span) => span.lo,
        None => BytePos(0),
    }
}

/// The place of an expression.
pub fn span_of(expr: &Expr) -> Option<Span>
    ensures { result ≡ expr_at expr.now }
{
    match expr {
        Expr::Ident(at, _) => *at,
        Expr::Literal(at, _, _) => *at,
        Expr::Word(at, _) => *at,
        Expr::Operation(operation) => span_of_operation(operation),
        Expr::Access(access) => span_of_access(access),
        Expr::Array(at, _) => *at,
        Expr::Object(at, _) => *at,
        Expr::Template(at, _, _) => *at,
        Expr::Function(at, _, _, _, _) => *at,
        Expr::Class(at, _, _, _) => *at,
        Expr::Jsx(jsx) => span_of_jsx(jsx),
        Expr::Paren(at, _) => *at,
    }
}

fn span_of_operation(operation: &Operation) -> Option<Span>
    ensures { result ≡ operation_at operation.now }
{
    match operation {
        Operation::Seq(at, _) => *at,
        Operation::Assign(at, _, _) => *at,
        Operation::OpAssign(at, _, _, _) => *at,
        Operation::Arrow(at, _, _) => *at,
        Operation::ArrowBlock(at, _, _, _) => *at,
        Operation::BareArrow(at, _, _) => *at,
        Operation::BareArrowBlock(at, _, _, _) => *at,
        Operation::Cond(at, _, _, _) => *at,
        Operation::Binary(at, _, _, _) => *at,
        Operation::Unary(at, _, _) => *at,
        Operation::Update(at, _, _, _) => *at,
        Operation::Spread(at, _) => *at,
        Operation::Hole => None,
    }
}

fn span_of_access(access: &Access) -> Option<Span>
    ensures { result ≡ access_at access.now }
{
    match access {
        Access::Call(at, _, _) => *at,
        Access::Member(at, _, _) => *at,
        Access::Index(at, _, _) => *at,
        Access::Tagged(at, _, _, _, _) => *at,
        Access::New(at, _, _) => *at,
        Access::NewWithoutArguments(at, _) => *at,
        Access::SuperCall(at, _) => *at,
        Access::SuperMember(at, _) => *at,
        Access::SuperIndex(at, _) => *at,
        Access::ImportCall(at, _) => *at,
        Access::Chain(at, _, _) => *at,
    }
}

fn span_of_jsx(jsx: &Jsx) -> Option<Span>
    ensures { result ≡ jsx_at jsx.now }
{
    match jsx {
        Jsx::Element(at, _, _) => *at,
        Jsx::ElementWithChildren(at, _, _, _, _) => *at,
        Jsx::Fragment(at, _) => *at,
        Jsx::Text(at, _) => *at,
        Jsx::Str(at, _) => *at,
        Jsx::Container(at, _) => *at,
        Jsx::Spread(at, _) => *at,
        Jsx::Attribute(at, _, _) => *at,
    }
}

/// A member behind its `.`: `a.b`.
pub fn member<'s>(
    context: Context,
    lexer: &mut Lexer<'s>,
    object: Box<Expr<'s>>,
) -> Result<Box<Expr<'s>>, ParseError>
    ensures read { IfOk result (λ e. Built so_far (around_of context.entry.around) (tail (tail (row_so_far (expression Member)))) (expression Member) (part (view_expr object.entry.value)) (view_expr e.value) (place_of lexer.old) (place_of lexer.new)) }
    ensures span { IfOk result (λ e. Extends (expr_at object.entry.value) (expr_at e.value) (end_of lexer.new)) }
    ensures placed { IfOk result (λ e. IsPlacedOn (sign_of fixed.Dot) object.entry.value lexer.old e.value lexer.new) }
    ensures shorter { OnOk result (left lexer.new < left lexer.old) }
    ensures ended { OnOk result (IsTrue (settled (place_of lexer.new))) }
    ensures refused { Refused context.entry.levels result (NoRow so_far (around_of context.entry.around) (tail (tail (row_so_far (expression Member)))) (place_of lexer.old)) }
{
    let raw = identifier_name(context, lexer)?;
    let span = span_to(start_of(&object), lexer);
    let name = Text::Read(raw, lexer.last_place());
    Ok(make::member(context.alloc, span, object, name)?)
}

/// A key that is a string or a number (ECMA-262 section 13.2.5).
pub fn literal_key<'s>(context: Context, lexer: &mut Lexer<'s>) -> Result<Key<'s>, ParseError>
    requires { NoOtherKey (place_of lexer.old) }
    ensures read { IfOk result (λ k. Only so_far (around_of context.entry.around) (Part grammar.Key) (place_of lexer.old) (one (view_key k)) (place_of lexer.new)) }
    ensures literal { IfOk result (λ k. is_word (view_key k) ≡ false) }
    ensures depth { IfOk result (λ k. part_depth (view_key k) ≡ 1) }
    ensures placed { IfOk result (λ k. IsPlaced (told_key k) (view_key k) lexer.old lexer.new) }
    ensures begins { OnOk result (begin_of lexer.new ≡ next_of lexer.old) }
    ensures shorter { OnOk result (left lexer.new < left lexer.old) }
    ensures refused { Refused context.entry.levels result (Barred so_far (around_of context.entry.around) (Part grammar.Key) (place_of lexer.old)) }
{
    if let Some(raw) = lexer.leaf(Leaf::Str) {
        counted(context, lexer)?;
        let text = Text::Read(raw, lexer.last_place());
        return Ok(make::literal_key(LiteralKind::Str, text));
    }
    if let Some(raw) = lexer.leaf(Leaf::Num) {
        counted(context, lexer)?;
        let text = Text::Read(raw, lexer.last_place());
        return Ok(make::literal_key(LiteralKind::Num, text));
    }
    if let Some(raw) = lexer.leaf(Leaf::BigInt) {
        counted(context, lexer)?;
        let text = Text::Read(raw, lexer.last_place());
        return Ok(make::literal_key(LiteralKind::BigInt, text));
    }
    Err(give_up(lexer))
}

/// Whether a name, behind which the lexer stands, is the key of a property or of a method.
pub fn is_keyed(lexer: &mut Lexer, name: &str) -> bool
    ensures keyed { result ≡ (among (chars name.now) grammar.reserved || (is_found (forth (sign_of fixed.Colon) (place_of lexer.old)) || is_found (forth (sign_of fixed.Open) (place_of lexer.old)))) }
    ensures stays { lexer.new ≡ lexer.old }
{
    is_reserved(name) || lexer.is_before(Fixed::Colon) || lexer.is_before(Fixed::Open)
}

/// What stands in an expression's parentheses, where it has some, taken out of them. A word is left there.
#[tactic(auto, using(crate::proofs::Pairs::unpaired))]
fn taken_out<'s>(alloc: Global, expr: &mut Expr<'s>) -> Result<Option<Box<Expr<'s>>>, AllocError>
    ensures seen { IfOk result (λ o. MatchOption o (is_plain (view_expr expr.old) ≡ true) (λ e. view_expr expr.old ≡ node (expression Parenthesized) (part (view_expr e.value) none))) }
    ensures told { IfOk result (λ o. IfSome o (λ e. told_expr expr.old ≡ told_expr e.value)) }
    ensures stays { IfOk result (λ o. IfNone o (expr.new ≡ expr.old)) }
{
    match expr {
        Expr::Paren(_, inner) => {
            let mut hole = make::constant(alloc, None, TreeWord::This)?;
            mem::swap(inner, &mut hole);
            Ok(Some(hole))
        }
        _ => Ok(None),
    }
}

/// What is assigned to, of an expression: a name, `a.b`, or one of these in parentheses.
pub fn target_of<'s>(alloc: Global, expr: Box<Expr<'s>>) -> Result<Box<Pat<'s>>, AllocError>
    ensures view { IfOk result (λ p. (r : Role) → view_pattern p.value r ≡ as_target (view_expr expr.entry.value)) }
    ensures told { IfOk result (λ p. told_pat p.value ≡ told_expr expr.entry.value) }
    ensures formed { IfOk result (λ p. IsTrue (pairs_formed (view_expr expr.entry.value))) }
{
    let at = span_of(&expr);
    let mut expr = expr;
    if let Some(inside) = taken_out(alloc, &mut expr)? {
        let inner = target_of(alloc, inside)?;
        return make::paren_target(alloc, at, inner);
    }
    bare_target(alloc, expr)
}

/// The same where it is in no parentheses.
fn bare_target<'s>(alloc: Global, expr: Box<Expr<'s>>) -> Result<Box<Pat<'s>>, AllocError>
    ensures view { IfOk result (λ p. (r : Role) → view_pattern p.value r ≡ view_expr expr.entry.value) }
    ensures told { IfOk result (λ p. told_pat p.value ≡ told_expr expr.entry.value) }
{
    if let Expr::Ident(at, name) = &*expr {
        if let Text::Read(raw, place) = &name.text {
            let text = Text::Read(*raw, *place);
            return make::bound_name(alloc, *at, Ident { text });
        }
    }
    make::target(alloc, expr)
}

/// An update expression behind its operator: `a++` (ECMA-262 section 13.4).
pub fn postfix_update<'s>(
    context: Context,
    lexer: &Lexer<'s>,
    operator: UpdateOp,
    operand: Box<Expr<'s>>,
) -> Result<Box<Expr<'s>>, ParseError>
    ensures read { IfOk result (λ e. Built so_far (around_of context.entry.around) (behind (expression (PostfixUpdate (step_of operator)))) (expression (PostfixUpdate (step_of operator))) (part (as_target (view_expr operand.entry.value))) (view_expr e.value) (place_of lexer.now) (place_of lexer.now)) }
    ensures span { IfOk result (λ e. Extends (expr_at operand.entry.value) (expr_at e.value) (end_of lexer.now)) }
    ensures placed { IfOk result (λ e. IsPlacedOn (mark (expression (PostfixUpdate (step_of operator)))) operand.entry.value lexer.now e.value lexer.now) }
    ensures refused { Refused context.entry.levels result (NoRow so_far (around_of context.entry.around) (behind (expression (PostfixUpdate (step_of operator)))) (place_of lexer.now)) }
{
    let span = span_to(start_of(&operand), lexer);
    let target = target_of(context.alloc, operand)?;
    Ok(make::postfix_update(context.alloc, span, operator, target)?)
}

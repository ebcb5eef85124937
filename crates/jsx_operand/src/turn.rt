//! Covers turn into patterns, by value: nothing is read again (ECMA-262 sections 13.15.5 and 15.3).

ghost use Rattle.std.specs.Prelude.{◌≡◌, [], ◌∷◌, IfNone, IfOk, IfSome, IsTrue, false, map, true};
ghost use Rattle.jsx_base.specs.Token.{Elision};
ghost use Rattle.jsx_tree.specs.Kinds.{Array, Forest, Object, Shorthand, Spread, Tree, expression, leaf, list, node, none, part};
ghost use Rattle.jsx_tree.specs.Nonterminals as grammar;
ghost use Rattle.jsx_tree.specs.Spans.{no_tales, tale, tells};
ghost use Rattle.jsx_tree.specs.View.{forest, inside, name_of, text_of, view_expr, view_key, view_pat, view_target, view_word};
ghost use Rattle.jsx_tree.specs.Told.{told_expr, told_key, told_list, told_node, told_pat, told_prop, told_text};
ghost use Rattle.jsx_make.specs.Members.{view_prop};
ghost use Rattle.jsx_make.specs.NodeSpans.{expr_at, member_at};
ghost use Rattle.jsx_operand.specs.Answers.{PlainRefused};
ghost use Rattle.jsx_operand.specs.Covers.{IsParameter, IsTurned};
ghost use Rattle.jsx_operand.specs.Taken.{IsPairOf, IsPresetOf, IsToldOf, behind_first, held, is_pair, is_preset, is_rest, is_short, is_word, paired};
ghost use Rattle.jsx_operand.specs.Turning as turning;
ghost use Rattle.jsx_operand.specs.Turning.{Suits, SuitsAll, Turns, TurnsElement, TurnsParts, TurnsSlots, retold, retold_list, retold_part, retold_parts_list};

use crate::cover::{Cover, parameter_name, taken_bound};
use crate::error::ParseError;
use crate::operand::{is_target, span_of, target_of};
use jsx_base::{BytePos, Span};
use jsx_make::make;
use jsx_tree::{Expr, Ident, Key, Operation, Pat, Prop, Text, Word};
use std::alloc::{AllocError, Global};
use std::mem;

/// What stands in an array, where the expression is one, taken out of it.
#[tactic(auto, using(crate::proofs::Variants::unarray))]
fn taken_items<'s>(alloc: Global, expr: &mut Expr<'s>) -> Option<Vec<Box<Expr<'s>>>>
    ensures taken { IfSome result (λ v. view_expr expr.old ≡ node (expression Array) (part (list (forest (map (inside view_expr) v.items))) none)) }
    ensures told { IfSome result (λ v. told_expr expr.old ≡ told_node (expr_at expr.old) (told_list (map (inside told_expr) v.items) ∷ [])) }
    ensures other { IfNone result (turning.is_array (view_expr expr.old) ≡ false) }
    ensures stays { IfNone result (expr.new ≡ expr.old) }
{
    match expr {
        Expr::Array(_, items) => Some(mem::replace(items, Vec::new(alloc))),
        _ => None,
    }
}

/// The same of an object.
#[tactic(auto, using(crate::proofs::Variants::unobject))]
fn taken_members<'s>(alloc: Global, expr: &mut Expr<'s>) -> Option<Vec<Box<Prop<'s>>>>
    ensures taken { IfSome result (λ v. view_expr expr.old ≡ node (expression Object) (part (list (forest (map (inside view_prop) v.items))) none)) }
    ensures told { IfSome result (λ v. told_expr expr.old ≡ told_node (expr_at expr.old) (told_list (map (inside told_prop) v.items) ∷ [])) }
    ensures other { IfNone result (turning.is_object (view_expr expr.old) ≡ false) }
    ensures stays { IfNone result (expr.new ≡ expr.old) }
{
    match expr {
        Expr::Object(_, members) => Some(mem::replace(members, Vec::new(alloc))),
        _ => None,
    }
}

/// An expression taken out of its place, where a word is left.
fn taken<'s>(alloc: Global, place: &mut Box<Expr<'s>>) -> Result<Box<Expr<'s>>, AllocError>
    ensures { IfOk result (λ e. e ≡ place.old) }
{
    let left = make::constant(alloc, None, Word::This)?;
    Ok(mem::replace(place, left))
}

/// What is spread, where the expression is a spread, taken out of it.
#[tactic(auto, using(crate::proofs::Variants::unspread))]
fn taken_spread<'s>(alloc: Global, expr: &mut Expr<'s>) -> Result<Option<Box<Expr<'s>>>, AllocError>
    ensures taken { IfOk result (λ o. IfSome o (λ e. view_expr expr.old ≡ node (expression Spread) (part (view_expr e.value) none))) }
    ensures told { IfOk result (λ o. IfSome o (λ e. told_expr expr.old ≡ told_node (expr_at expr.old) (told_expr e.value ∷ []))) }
    ensures other { IfOk result (λ o. IfNone o (turning.is_spread (view_expr expr.old) ≡ false)) }
    ensures stays { IfOk result (λ o. IfNone o (expr.new ≡ expr.old)) }
{
    match expr {
        Expr::Operation(Operation::Spread(_, inner)) => Ok(Some(taken(alloc, inner)?)),
        _ => Ok(None),
    }
}

/// What is assigned to, where the expression is an assignment, taken out of it.
#[tactic(auto, using(crate::proofs::Variants::unassigned))]
fn taken_target<'s>(alloc: Global, expr: &mut Expr<'s>) -> Result<Option<Box<Pat<'s>>>, AllocError>
    ensures taken { IfOk result (λ o. IfSome o (λ p. turning.IsAssignOf (view_target p.value) (view_expr expr.old) (view_expr expr.new))) }
    ensures told { IfOk result (λ o. IfSome o (λ p. IsToldOf (told_pat p.value) (expr_at expr.old) (told_expr expr.old) (told_expr expr.new))) }
    ensures other { IfOk result (λ o. IfNone o (turning.is_assign (view_expr expr.old) ≡ false)) }
    ensures stays { IfOk result (λ o. IfNone o (expr.new ≡ expr.old)) }
{
    match expr {
        Expr::Operation(Operation::Assign(_, target, _)) => {
            let left = make::pattern_hole(alloc)?;
            Ok(Some(mem::replace(target, left)))
        }
        _ => Ok(None),
    }
}

/// And what is assigned.
#[tactic(auto, using(crate::proofs::Variants::unassigned))]
fn taken_value<'s>(alloc: Global, expr: &mut Expr<'s>) -> Result<Option<Box<Expr<'s>>>, AllocError>
    ensures taken { IfOk result (λ o. IfSome o (λ e. turning.assigned (view_expr expr.old) ≡ part (view_expr e.value) none)) }
    ensures told { IfOk result (λ o. IfSome o (λ e. behind_first (told_expr expr.old) ≡ tale (told_expr e.value) no_tales)) }
    ensures other { IfOk result (λ o. IfNone o (turning.is_assign (view_expr expr.old) ≡ false)) }
{
    match expr {
        Expr::Operation(Operation::Assign(_, _, value)) => Ok(Some(taken(alloc, value)?)),
        _ => Ok(None),
    }
}

#[tactic(auto, using(crate::proofs::Variants::unheld))]
fn is_hole(expr: &Expr) -> bool
    ensures is { result ≡ turning.is_elision (view_expr expr.now) }
    ensures seen { IsTrue result → view_expr expr.now ≡ leaf Elision [] }
    ensures told { IsTrue result → told_expr expr.now ≡ tells [] no_tales }
{
    matches!(expr, Expr::Operation(Operation::Hole))
}

/// The place of a member.
fn span_of_member(member: &Prop) -> Option<Span>
    ensures { result ≡ member_at member.now }
{
    match member {
        Prop::Pair(at, _, _) => *at,
        Prop::Shorthand(at, _) => *at,
        Prop::Spread(at, _) => *at,
        Prop::Method(at, _, _, _, _, _) => *at,
        Prop::Getter(at, _, _, _, _) => *at,
        Prop::Setter(at, _, _, _, _, _) => *at,
        Prop::Field(at, _, _, _) => *at,
    }
}

/// The key of a property, where the member is one, taken out of it.
fn taken_key<'s>(member: &mut Prop<'s>) -> Option<Key<'s>>
    ensures taken { IfSome result (λ k. IsPairOf (view_key k) (view_prop member.old) (view_prop member.new)) }
    ensures told { IfSome result (λ k. IsToldOf (told_key k) (member_at member.old) (told_prop member.old) (told_prop member.new)) }
    ensures other { IfNone result (is_pair (view_prop member.old) ≡ false) }
    ensures stays { IfNone result (member.new ≡ member.old) }
{
    match member {
        Prop::Pair(_, key, _) => {
            let left = Key::Name(Text::Read("", BytePos(0)));
            Some(mem::replace(key, left))
        }
        _ => None,
    }
}

/// And its value.
fn taken_pair<'s>(alloc: Global, member: &mut Prop<'s>) -> Result<Option<Box<Expr<'s>>>, AllocError>
    ensures taken { IfOk result (λ o. IfSome o (λ e. paired (view_prop member.old) ≡ part (view_expr e.value) none)) }
    ensures told { IfOk result (λ o. IfSome o (λ e. behind_first (told_prop member.old) ≡ tale (told_expr e.value) no_tales)) }
    ensures other { IfOk result (λ o. IfNone o (is_pair (view_prop member.old) ≡ false)) }
{
    match member {
        Prop::Pair(_, _, value) => Ok(Some(taken(alloc, value)?)),
        _ => Ok(None),
    }
}

/// The name of a default, where the member is a name with one, taken out of it.
fn taken_preset<'s>(member: &mut Prop<'s>) -> Option<Ident<'s>>
    ensures taken { IfSome result (λ n. IsPresetOf (name_of n) (view_prop member.old) (view_prop member.new)) }
    ensures told { IfSome result (λ n. IsToldOf (told_text n.text) (member_at member.old) (told_prop member.old) (told_prop member.new)) }
    ensures other { IfNone result (is_preset (view_prop member.old) ≡ false) }
{
    match member {
        Prop::Field(_, _, key, _) => taken_word(key),
        _ => None,
    }
}

/// The name that a key is, taken out of it.
#[tactic(auto, using(crate::proofs::Variants::unworded))]
fn taken_word<'s>(key: &mut Key<'s>) -> Option<Ident<'s>>
    ensures taken { IfSome result (λ n. view_key key.old ≡ name_of n) }
    ensures told { IfSome result (λ n. told_key key.old ≡ told_text n.text) }
    ensures other { IfNone result (is_word (view_key key.old) ≡ false) }
{
    match key {
        Key::Name(text) => {
            let text = mem::replace(text, Text::Read("", BytePos(0)));
            Some(Ident { text })
        }
        Key::Literal(_, _) => None,
        Key::Computed(_, _) => None,
    }
}

/// And the default.
fn taken_default<'s>(member: &mut Prop<'s>) -> Option<Box<Expr<'s>>>
    ensures taken { IfSome result (λ e. held (view_prop member.old) ≡ part (view_expr e.value) none) }
    ensures told { IfSome result (λ e. behind_first (told_prop member.old) ≡ tale (told_list (told_expr e.value ∷ [])) no_tales) }
    ensures other { IfNone result (held (view_prop member.old) ≡ none) }
{
    match member {
        Prop::Field(_, _, _, value) => mem::replace(value, None),
        _ => None,
    }
}

/// The name that stands for a property, where it may be bound, taken out of its place.
fn taken_short<'s>(member: &mut Prop<'s>) -> Option<Ident<'s>>
    ensures taken { IfSome result (λ n. view_prop member.old ≡ node (expression Shorthand) (part (name_of n) none)) }
    ensures told { IfSome result (λ n. told_prop member.old ≡ told_node (member_at member.old) (told_text n.text ∷ [])) }
    ensures bound { IfSome result (λ n. grammar.is_bound (text_of n.text) ≡ true) }
    ensures other { IfNone result (is_short (view_prop member.old) ≡ false) }
    ensures stays { IfNone result (member.new ≡ member.old) }
{
    match member {
        Prop::Shorthand(_, name) => taken_bound(name),
        _ => None,
    }
}

/// The name that a rest of an object is, taken out of its place.
fn taken_rest<'s>(member: &mut Prop<'s>) -> Option<Ident<'s>>
    ensures taken { IfSome result (λ n. view_prop member.old ≡ node (expression Spread) (part (name_of n) none)) }
    ensures told { IfSome result (λ n. retold_part (view_prop member.old) (told_prop member.old) ≡ told_node (member_at member.old) (told_text n.text ∷ [])) }
    ensures bound { IfSome result (λ n. grammar.is_bound (text_of n.text) ≡ true) }
    ensures other { IfNone result (is_rest (view_prop member.old) ≡ false) }
    ensures stays { IfNone result (member.new ≡ member.old) }
{
    match member {
        Prop::Spread(_, inner) => parameter_name(inner),
        _ => None,
    }
}

/// The pattern or the target that a cover turns into where it is assigned to. A cover that turns into none is refused at a place.
pub fn turn<'s>(alloc: Global, at: BytePos, cover: Cover<'s>) -> Result<Box<Pat<'s>>, ParseError>
    ensures read { IfOk result (λ p. IsTurned cover.entry (view_target p.value)) }
    ensures told { IfOk result (λ p. told_pat p.value ≡ retold (view_expr cover.entry.expr.value) (told_expr cover.entry.expr.value)) }
    ensures refused { PlainRefused result ((p : Tree) → IsTurned cover.entry p → Prim.⊥) }
{
    if !cover.may_turn {
        return Err(ParseError::Syntax(at));
    }
    Ok(turned(alloc, at, cover.expr)?)
}

/// The same where no comma stands behind a rest.
#[cycle(turned)]
fn turned<'s>(alloc: Global, at: BytePos, expr: Box<Expr<'s>>) -> Result<Box<Pat<'s>>, ParseError>
    ensures read { IfOk result (λ p. Turns (view_expr expr.entry.value) (view_target p.value)) }
    ensures told { IfOk result (λ p. told_pat p.value ≡ retold (view_expr expr.entry.value) (told_expr expr.entry.value)) }
    ensures refused { PlainRefused result ((p : Tree) → Turns (view_expr expr.entry.value) p → Prim.⊥) }
{
    let mut expr = expr;
    let span = span_of(&expr);
    if let Some(items) = taken_items(alloc, &mut expr) {
        let slots = turned_slots(alloc, at, items)?;
        return Ok(make::array_pattern(alloc, span, slots)?);
    }
    if let Some(members) = taken_members(alloc, &mut expr) {
        let parts = turned_parts(alloc, at, members)?;
        return Ok(make::object_pattern(alloc, span, parts)?);
    }
    if !is_target(&expr) {
        return Err(ParseError::Syntax(at));
    }
    Ok(target_of(alloc, expr)?)
}

/// The value of a property, or a parameter that is no rest: a pattern with a default or without one.
#[cycle(turned)]
fn turned_element<'s>(
    alloc: Global,
    at: BytePos,
    expr: Box<Expr<'s>>,
) -> Result<Box<Pat<'s>>, ParseError>
    ensures read { IfOk result (λ p. TurnsElement (view_expr expr.entry.value) (view_target p.value)) }
    ensures told { IfOk result (λ p. told_pat p.value ≡ retold (view_expr expr.entry.value) (told_expr expr.entry.value)) }
    ensures refused { PlainRefused result ((p : Tree) → TurnsElement (view_expr expr.entry.value) p → Prim.⊥) }
{
    let mut expr = expr;
    let span = span_of(&expr);
    let Some(target) = taken_target(alloc, &mut expr)? else {
        return turned(alloc, at, expr);
    };
    let Some(value) = taken_value(alloc, &mut expr)? else {
        return Err(ParseError::Syntax(at));
    };
    Ok(make::with_default(alloc, span, target, value)?)
}

/// What stands in an array: a hole, a rest, or a pattern with a default or without one.
#[cycle(turned)]
fn turned_slot<'s>(
    alloc: Global,
    at: BytePos,
    item: Box<Expr<'s>>,
) -> Result<Box<Pat<'s>>, ParseError>
    ensures read { IfOk result (λ p. TurnsSlots (part (view_expr item.entry.value) none) (part (view_target p.value) none)) }
    ensures told { IfOk result (λ p. told_pat p.value ≡ retold (view_expr item.entry.value) (told_expr item.entry.value)) }
    ensures refused { PlainRefused result ((p : Tree) → TurnsSlots (part (view_expr item.entry.value) none) (part p none) → Prim.⊥) }
{
    if is_hole(&item) {
        return Ok(make::pattern_hole(alloc)?);
    }
    let mut item = item;
    let span = span_of(&item);
    let Some(inner) = taken_spread(alloc, &mut item)? else {
        return turned_element(alloc, at, item);
    };
    let target = turned(alloc, at, inner)?;
    Ok(make::rest(alloc, span, target)?)
}

#[cycle(turned)]
fn turned_slots<'s>(
    alloc: Global,
    at: BytePos,
    items: Vec<Box<Expr<'s>>>,
) -> Result<Vec<Box<Pat<'s>>>, ParseError>
    ensures read { IfOk result (λ v. TurnsSlots (forest (map (inside view_expr) items.entry.items)) (forest (map (inside view_target) v.items))) }
    ensures told { IfOk result (λ v. told_list (map (inside told_pat) v.items) ≡ retold_list (forest (map (inside view_expr) items.entry.items)) (told_list (map (inside told_expr) items.entry.items))) }
    ensures refused { PlainRefused result ((ps : Forest) → TurnsSlots (forest (map (inside view_expr) items.entry.items)) ps → Prim.⊥) }
{
    let mut slots = Vec::with_capacity(alloc, items.len())?;
    'items: for item in items {
        let slot = turned_slot(alloc, at, item)?;
        slots.push(slot)?;
    }
    Ok(slots)
}

/// What stands in an object: a property, a name with a default or without one, or a rest.
#[cycle(turned)]
fn turned_part<'s>(
    alloc: Global,
    at: BytePos,
    member: Box<Prop<'s>>,
) -> Result<Box<Pat<'s>>, ParseError>
    ensures read { IfOk result (λ p. TurnsParts (part (view_prop member.entry.value) none) (part (view_target p.value) none)) }
    ensures told { IfOk result (λ p. told_pat p.value ≡ retold_part (view_prop member.entry.value) (told_prop member.entry.value)) }
    ensures refused { PlainRefused result ((p : Tree) → TurnsParts (part (view_prop member.entry.value) none) (part p none) → Prim.⊥) }
{
    let mut member = member;
    let span = span_of_member(&member);
    let Some(key) = taken_key(&mut member) else {
        return turned_name(alloc, at, member);
    };
    let Some(value) = taken_pair(alloc, &mut member)? else {
        return Err(ParseError::Syntax(at));
    };
    let value = turned_element(alloc, at, value)?;
    Ok(make::pair_pattern(alloc, span, key, value)?)
}

/// The same where it is no property: a name, or a rest.
fn turned_name<'s>(
    alloc: Global,
    at: BytePos,
    member: Box<Prop<'s>>,
) -> Result<Box<Pat<'s>>, ParseError>
    requires { is_pair (view_prop member.value) ≡ false }
    ensures read { IfOk result (λ p. TurnsParts (part (view_prop member.entry.value) none) (part (view_target p.value) none)) }
    ensures told { IfOk result (λ p. told_pat p.value ≡ retold_part (view_prop member.entry.value) (told_prop member.entry.value)) }
    ensures refused { PlainRefused result ((p : Tree) → TurnsParts (part (view_prop member.entry.value) none) (part p none) → Prim.⊥) }
{
    let mut member = member;
    let span = span_of_member(&member);
    if let Some(name) = taken_rest(&mut member) {
        return Ok(make::rest_property(alloc, span, name)?);
    }
    if let Some(name) = taken_short(&mut member) {
        return Ok(make::short_pattern(alloc, span, name)?);
    }
    let Some(name) = taken_preset(&mut member) else {
        return Err(ParseError::Syntax(at));
    };
    let Some(value) = taken_default(&mut member) else {
        return Err(ParseError::Syntax(at));
    };
    Ok(make::short_default(alloc, span, name, value)?)
}

#[cycle(turned)]
fn turned_parts<'s>(
    alloc: Global,
    at: BytePos,
    members: Vec<Box<Prop<'s>>>,
) -> Result<Vec<Box<Pat<'s>>>, ParseError>
    ensures read { IfOk result (λ v. TurnsParts (forest (map (inside view_prop) members.entry.items)) (forest (map (inside view_target) v.items))) }
    ensures told { IfOk result (λ v. told_list (map (inside told_pat) v.items) ≡ retold_parts_list (forest (map (inside view_prop) members.entry.items)) (told_list (map (inside told_prop) members.entry.items))) }
    ensures refused { PlainRefused result ((ps : Forest) → TurnsParts (forest (map (inside view_prop) members.entry.items)) ps → Prim.⊥) }
{
    let mut parts = Vec::with_capacity(alloc, members.len())?;
    'members: for member in members {
        let part = turned_part(alloc, at, member)?;
        parts.push(part)?;
    }
    Ok(parts)
}

/// Whether a target that is no pattern binds where it stands among parameters: a name, or nothing. The words `this`, `null`, `true`
/// and `false` are names as tokens, and no targets.
#[tactic(auto, using(crate::proofs::Variants::unbinding))]
fn is_bare(expr: &Expr) -> bool
    ensures is { result ≡ turning.binding (view_expr expr.now) }
    ensures suits { IsTrue result → Suits (view_expr expr.now) (view_expr expr.now) }
{
    match expr {
        Expr::Ident(_, _) => true,
        Expr::Word(_, word) => is_named(*word),
        Expr::Operation(_) => is_hole(expr),
        _ => false,
    }
}

/// Whether a word is a name as a token.
#[tactic(auto, using(crate::proofs::Variants::unbinding))]
fn is_named(word: Word) -> bool
    ensures is { result ≡ turning.binding (view_word word) }
    ensures suits { IsTrue result → Suits (view_word word) (view_word word) }
{
    match word {
        Word::This | Word::Null | Word::True | Word::False => true,
        Word::ImportMeta | Word::NewTarget => false,
    }
}

/// Whether a pattern that assigns binds where it stands among parameters: it assigns to names alone (ECMA-262 section 14.3.3).
#[tactic(auto, using(crate::proofs::Suiting::suiting))]
#[cycle(binds)]
pub fn binds(pattern: &Pat) -> bool
    ensures is { result ≡ turning.binding (view_target pattern.now) }
    ensures suits { IsTrue result → Suits (view_target pattern.now) (view_pat pattern.now) }
{
    match pattern {
        Pat::Ident(_, _) => true,
        Pat::Array(_, slots) => all_bind(slots),
        Pat::Object(_, parts) => all_bind(parts),
        Pat::WithInit(_, target, _) => binds(target),
        Pat::Rest(_, target) => binds(target),
        Pat::Pair(_, _, value) => binds(value),
        Pat::Hole => true,
        Pat::Shorthand(_, _, _) => true,
        Pat::RestProperty(_, _) => true,
        Pat::Target(expr) => is_bare(expr),
        Pat::Paren(..) | Pat::Binding(..) | Pat::Declaration(..) | Pat::Head(..) => false,
    }
}

#[tactic(auto, using(crate::proofs::Suiting::suiting))]
#[cycle(binds)]
fn all_bind(patterns: &[Box<Pat<'_>>]) -> bool
    ensures is { result ≡ turning.bindings (forest (map (inside view_target) patterns.now)) }
    ensures suit { IsTrue result → SuitsAll (forest (map (inside view_target) patterns.now)) (forest (map (inside view_pat) patterns.now)) }
{
    for (i, pattern) in patterns.iter().enumerate() {
        if !binds(pattern) {
            return false;
        }
    }
    true
}

/// A parameter of an arrow function, of what was read in its parentheses: a pattern that binds, with a default or without one. A
/// cover that turns into none is refused at a place.
pub fn parameter_of<'s>(
    alloc: Global,
    at: BytePos,
    cover: Cover<'s>,
) -> Result<Box<Pat<'s>>, ParseError>
    ensures read { IfOk result (λ p. IsParameter cover.entry (view_pat p.value)) }
    ensures told { IfOk result (λ p. told_pat p.value ≡ retold (view_expr cover.entry.expr.value) (told_expr cover.entry.expr.value)) }
    ensures refused { PlainRefused result ((p : Tree) → IsParameter cover.entry p → Prim.⊥) }
{
    if !cover.may_turn {
        return Err(ParseError::Syntax(at));
    }
    let pattern = turned_element(alloc, at, cover.expr)?;
    if !binds(&pattern) {
        return Err(ParseError::Syntax(at));
    }
    Ok(pattern)
}

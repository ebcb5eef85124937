//! Arrays and objects (ECMA-262 sections 13.2.4 and 13.2.5).

ghost use Rattle.std.specs.Prelude.{◌≡◌, ◌<◌, ◌≤◌, IfOk, OnOk, IsTrue, suc, true};
ghost use Rattle.std.specs.Str.{chars};
ghost use Rattle.jsx_tree.specs.Kinds.{Array, Object, Spread, expression};
ghost use Rattle.jsx_tree.specs.Grammar.{p};
ghost use Rattle.jsx_tree.specs.View.{view_expr, view_key};
ghost use Rattle.jsx_make.specs.Members.{view_prop};
ghost use Rattle.jsx_tree.specs.Told.{told_expr, told_key, told_prop};
ghost use Rattle.jsx_tree.specs.Walk.{tail};
ghost use Rattle.jsx_tree.specs.Answers.{NoRow, Built};
ghost use Rattle.jsx_operand.specs.Around.{around_of};
ghost use Rattle.jsx_operand.specs.SoFar.{so_far};
ghost use Rattle.jsx_token.specs.Marks.{row_so_far};
ghost use Rattle.jsx_token.specs.Here.{place_of, left};
ghost use Rattle.jsx_operand.specs.Answers.{Refused};
ghost use Rattle.jsx_token.specs.Growths.{opening_sign, settled};
ghost use Rattle.jsx_make.specs.NodeSpans.{expr_at};
ghost use Rattle.jsx_operand.specs.Spans.{IsPlacedBehind, Spans};
ghost use Rattle.jsx_token.specs.Places.{begin_of, end_of};
ghost use Rattle.jsx_function.specs.Within.{ReadsWithin};
ghost use Rattle.jsx_operand.specs.Bodies.{ReadsBodies};
ghost use Rattle.jsx_member.specs.Covers.{CoversItems, CoversKeyed, CoversMembers, CoversPair, CoversShort, IsBare, IsItemCover, IsMemberCover, IsPlacedCoverBehind, IsPlacedItem, IsPlacedItems, IsPlacedMember, IsPlacedMembers, IsPlacedPair, IsPlacedRest, IsPlacedShort, NoCoverKeyed, NoCoverOpened, NoItemCover, NoItems, NoMemberCover, NoMembers, NoPair, NoShortCover, OpensCover};

use crate::grammar::Brackets;
use jsx_base::BytePos;
use jsx_function::method::{Home, take_prefix};
use jsx_make::make;
use jsx_operand::depth::{within, within_leaf};
use jsx_operand::operand::{ASSIGNMENT, is_keyed, literal_key};
use jsx_operand::parser::{expect, give_up, span_to};
use jsx_operand::proto::has_two_protos;
use jsx_operand::{Body, Context, Cover, ParseError};
use jsx_token::{Fixed, Leaf, Lexer, Word, is_bound};
use jsx_tree::{Expr, Ident, Key, Placement, Prop, Text};

/// What stands in an array, as far as it may be an expression or turn into a pattern.
#[derive(Drop)]
pub(crate) struct Items<'s> {
    pub(crate) all: Vec<Box<Expr<'s>>>,
    /// Whether all of them are expressions.
    pub(crate) are_exprs: bool,
    /// Whether no comma stands behind a rest.
    pub(crate) may_turn: bool,
}

/// A member of an object, as far as it may stand in an expression or turn into a part of a pattern.
#[derive(Drop)]
pub(crate) struct Member<'s> {
    pub(crate) prop: Box<Prop<'s>>,
    pub(crate) is_expr: bool,
    pub(crate) may_turn: bool,
}

/// What stands in an object.
#[derive(Drop)]
pub(crate) struct Members<'s> {
    pub(crate) all: Vec<Box<Prop<'s>>>,
    pub(crate) are_exprs: bool,
    pub(crate) may_turn: bool,
}

impl<'s> Member<'s> {
    /// A member that may stand in an expression and holds no rest with a comma behind it.
    pub(crate) fn settled(prop: Box<Prop<'s>>) -> Member<'s>
        ensures prop { result.prop ≡ prop.entry }
        ensures is_expr { result.is_expr ≡ true }
        ensures may_turn { result.may_turn ≡ true }
    {
        Member {
            prop,
            is_expr: true,
            may_turn: true,
        }
    }
}

/// The items that were read, with what is known of them.
fn items_of(all: Vec<Box<Expr<'_>>>, are_exprs: bool, may_turn: bool) -> Items<'_>
    ensures { result ≡ record { all = all.entry; are_exprs = are_exprs; may_turn = may_turn } }
{
    Items {
        all,
        are_exprs,
        may_turn,
    }
}

/// The members that were read, with what is known of them.
fn members_of(all: Vec<Box<Prop<'_>>>, are_exprs: bool, may_turn: bool) -> Members<'_>
    ensures { result ≡ record { all = all.entry; are_exprs = are_exprs; may_turn = may_turn } }
{
    Members {
        all,
        are_exprs,
        may_turn,
    }
}

impl<
    F: for<'c, 's> Fn(Context<'c>, &mut Lexer<'s>, u8, B) -> Result<Cover<'s>, ParseError>,
    B: Copy + for<'c, 's> Fn(Context<'c>, &mut Lexer<'s>) -> Result<Body<'s>, ParseError>,
> Brackets<F, B> {
    /// A spread behind its `...`: `...a` (ECMA-262 sections 13.2.4 and 13.3.8).
    pub(crate) fn spread<'s>(
        &self,
        context: Context,
        lexer: &mut Lexer<'s>,
    ) -> Result<Box<Expr<'s>>, ParseError>
        requires nests { ReadsWithin (suc (left lexer.old)) (F.pre self.now.within.inner) (F.post self.now.within.inner) self.now.within.body }
        requires bodies { ReadsBodies (left lexer.old) (B.pre self.now.within.body) (B.post self.now.within.body) }
        ensures read { IfOk result (λ e. Built so_far (around_of context.entry.around) (tail (row_so_far (expression Spread))) (expression Spread) (λ ts. ts) (view_expr e.value) (place_of lexer.old) (place_of lexer.new)) }
        ensures span { IfOk result (λ e. Spans (expr_at e.value) (begin_of lexer.old) (end_of lexer.new)) }
        ensures placed { IfOk result (λ e. IsPlacedBehind (opening_sign (expression Spread)) lexer.old (told_expr e.value) (view_expr e.value) lexer.new) }
        ensures shorter { OnOk result (left lexer.new < left lexer.old) }
        ensures refused { Refused context.entry.levels result (NoRow so_far (around_of context.entry.around) (tail (row_so_far (expression Spread))) (place_of lexer.old)) }
    {
        let lo = lexer.last_place();
        let inner = self.within.inner(context, lexer, ASSIGNMENT)?;
        Ok(make::spread(context.alloc, span_to(lo, lexer), inner)?)
    }

    /// What stands in an array and is no hole: an expression, a spread, or what may turn into a slot of a pattern.
    pub(crate) fn array_item<'s>(
        &self,
        context: Context,
        lexer: &mut Lexer<'s>,
    ) -> Result<Cover<'s>, ParseError>
        requires nests { ReadsWithin (suc (left lexer.old)) (F.pre self.now.within.inner) (F.post self.now.within.inner) self.now.within.body }
        requires bodies { ReadsBodies (left lexer.old) (B.pre self.now.within.body) (B.post self.now.within.body) }
        ensures read { IfOk result (λ c. IsItemCover (around_of context.entry.around) (place_of lexer.old) c (place_of lexer.new)) }
        ensures placed { IfOk result (λ c. IsPlacedItem c lexer.old lexer.new) }
        ensures shorter { OnOk result (left lexer.new < left lexer.old) }
        ensures refused { Refused context.entry.levels result (NoItemCover (around_of context.entry.around) (place_of lexer.old)) }
    {
        if !lexer.take(Fixed::Dots) {
            return Ok(self.cover(context, lexer)?);
        }
        let lo = lexer.last_place();
        let inner = self.cover(context, lexer)?;
        let expr = make::spread(context.alloc, span_to(lo, lexer), inner.expr)?;
        Ok(Cover {
            expr,
            is_expr: inner.is_expr,
            may_turn: inner.may_turn & !lexer.is_before(Fixed::Comma),
        })
    }

    /// What stands in an array behind its `[`, with the `]`: `a, , ...b]`.
    pub(crate) fn array_items<'s>(
        &self,
        context: Context,
        lexer: &mut Lexer<'s>,
    ) -> Result<Items<'s>, ParseError>
        requires nests { ReadsWithin (suc (left lexer.old)) (F.pre self.now.within.inner) (F.post self.now.within.inner) self.now.within.body }
        requires bodies { ReadsBodies (left lexer.old) (B.pre self.now.within.body) (B.post self.now.within.body) }
        ensures read { IfOk result (λ q. CoversItems (around_of context.entry.around) (place_of lexer.old) q (place_of lexer.new)) }
        ensures placed { IfOk result (λ q. IsPlacedItems q lexer.old lexer.new) }
        ensures shorter { OnOk result (left lexer.new < left lexer.old) }
        ensures ended { OnOk result (IsTrue (settled (place_of lexer.new))) }
        ensures refused { Refused context.entry.levels result (NoItems (around_of context.entry.around) (place_of lexer.old)) }
    {
        let mut all = Vec::new(context.alloc);
        let mut are_exprs = true;
        let mut may_turn = true;
        'items: while !lexer.take(Fixed::CloseBracket) {
            if lexer.take(Fixed::Comma) {
                let hole = make::hole(context.alloc)?;
                all.push(hole)?;
            } else {
                let item = self.array_item(context, lexer)?;
                are_exprs = are_exprs & item.is_expr;
                may_turn = may_turn & item.may_turn;
                all.push(item.expr)?;
                if !lexer.take(Fixed::Comma) {
                    expect(context, lexer, Fixed::CloseBracket)?;
                    return Ok(items_of(all, are_exprs, may_turn));
                }
            }
        }
        Ok(items_of(all, are_exprs, may_turn))
    }

    /// An array behind its `[`: `[a, , ...b]` (ECMA-262 section 13.2.4).
    pub fn array<'s>(
        &self,
        context: Context,
        lexer: &mut Lexer<'s>,
    ) -> Result<Cover<'s>, ParseError>
        requires nests { ReadsWithin (suc (left lexer.old)) (F.pre self.now.within.inner) (F.post self.now.within.inner) self.now.within.body }
        requires bodies { ReadsBodies (left lexer.old) (B.pre self.now.within.body) (B.post self.now.within.body) }
        ensures read { IfOk result (λ c. OpensCover (around_of context.entry.around) (opening_sign (expression Array)) c (place_of lexer.old) (place_of lexer.new)) }
        ensures span { IfOk result (λ c. Spans (expr_at c.expr.value) (begin_of lexer.old) (end_of lexer.new)) }
        ensures placed { IfOk result (λ c. IsPlacedCoverBehind (opening_sign (expression Array)) lexer.old c lexer.new) }
        ensures shorter { OnOk result (left lexer.new < left lexer.old) }
        ensures ended { OnOk result (IsTrue (settled (place_of lexer.new))) }
        ensures refused { Refused context.entry.levels result (NoCoverOpened (around_of context.entry.around) (opening_sign (expression Array)) (place_of lexer.old)) }
    {
        let lo = lexer.last_place();
        let Items {
            all,
            are_exprs,
            may_turn,
        } = self.array_items(context, lexer)?;
        let expr = make::array(context.alloc, span_to(lo, lexer), all)?;
        Ok(Cover {
            expr,
            is_expr: are_exprs,
            may_turn,
        })
    }

    /// A spread in an object behind its `...`: `...a` (ECMA-262 section 13.2.5).
    pub(crate) fn spread_member<'s>(
        &self,
        context: Context,
        lexer: &mut Lexer<'s>,
    ) -> Result<Box<Prop<'s>>, ParseError>
        requires nests { ReadsWithin (suc (left lexer.old)) (F.pre self.now.within.inner) (F.post self.now.within.inner) self.now.within.body }
        requires bodies { ReadsBodies (left lexer.old) (B.pre self.now.within.body) (B.post self.now.within.body) }
        ensures read { IfOk result (λ p. Built so_far (around_of context.entry.around) (tail (row_so_far (expression Spread))) (expression Spread) (λ ts. ts) (view_prop p.value) (place_of lexer.old) (place_of lexer.new)) }
        ensures placed { IfOk result (λ p. IsPlacedBehind (opening_sign (expression Spread)) lexer.old (told_prop p.value) (view_prop p.value) lexer.new) }
        ensures rest { IfOk result (λ p. IsPlacedRest lexer.old (told_prop p.value) (view_prop p.value) lexer.new) }
        ensures shorter { OnOk result (left lexer.new < left lexer.old) }
        ensures refused { Refused context.entry.levels result (NoRow so_far (around_of context.entry.around) (tail (row_so_far (expression Spread))) (place_of lexer.old)) }
    {
        let lo = lexer.last_place();
        let inner = self.within.inner(context, lexer, ASSIGNMENT)?;
        Ok(make::spread_member(context.alloc, span_to(lo, lexer), inner)?)
    }

    /// A property behind its key, which begins at a place: `a: b` (ECMA-262 section 13.2.5).
    pub(crate) fn property<'s>(
        &self,
        context: Context,
        lexer: &mut Lexer<'s>,
        lo: BytePos,
        key: Key<'s>,
    ) -> Result<Member<'s>, ParseError>
        requires nests { ReadsWithin (suc (left lexer.old)) (F.pre self.now.within.inner) (F.post self.now.within.inner) self.now.within.body }
        requires bodies { ReadsBodies (left lexer.old) (B.pre self.now.within.body) (B.post self.now.within.body) }
        ensures read { IfOk result (λ m. CoversPair (around_of context.entry.around) (view_key key.entry) m (place_of lexer.old) (place_of lexer.new)) }
        ensures placed { IfOk result (λ m. IsPlacedPair lo.0 (told_key key.entry) (view_key key.entry) lexer.old m lexer.new) }
        ensures shorter { OnOk result (left lexer.new < left lexer.old) }
        ensures refused { Refused context.entry.levels result (NoPair (around_of context.entry.around) (view_key key.entry) (place_of lexer.old)) }
    {
        expect(context, lexer, Fixed::Colon)?;
        let value = self.cover(context, lexer)?;
        let prop = make::property(context.alloc, span_to(lo, lexer), key, value.expr)?;
        Ok(Member {
            prop,
            is_expr: value.is_expr,
            may_turn: value.may_turn,
        })
    }

    /// What stands in an object behind its key, which begins at a place: a method, or the value of a property.
    pub(crate) fn object_keyed<'s>(
        &self,
        context: Context,
        lexer: &mut Lexer<'s>,
        lo: BytePos,
        key: Key<'s>,
    ) -> Result<Member<'s>, ParseError>
        requires nests { ReadsWithin (suc (left lexer.old)) (F.pre self.now.within.inner) (F.post self.now.within.inner) self.now.within.body }
        requires bodies { ReadsBodies (left lexer.old) (B.pre self.now.within.body) (B.post self.now.within.body) }
        ensures read { IfOk result (λ m. CoversKeyed (around_of context.entry.around) (view_key key.entry) m (place_of lexer.old) (place_of lexer.new)) }
        ensures placed { IfOk result (λ m. IsPlacedPair lo.0 (told_key key.entry) (view_key key.entry) lexer.old m lexer.new) }
        ensures shorter { OnOk result (left lexer.new < left lexer.old) }
        ensures refused { Refused context.entry.levels result (NoCoverKeyed (around_of context.entry.around) (view_key key.entry) (place_of lexer.old)) }
    {
        if lexer.is_before(Fixed::Open) {
            let prop = self.within.method(context, lexer, lo, Home::Object, key)?;
            return Ok(Member::settled(prop));
        }
        Ok(self.property(context, lexer, lo, key)?)
    }

    /// A name behind which its default may stand, and that begins at a place: `a`, or `a = b`, which a pattern alone may have (ECMA-262
    /// section 13.2.5).
    pub(crate) fn short_member<'s>(
        &self,
        context: Context,
        lexer: &mut Lexer<'s>,
        lo: BytePos,
        raw: &'s str,
    ) -> Result<Member<'s>, ParseError>
        requires nests { ReadsWithin (suc (left lexer.old)) (F.pre self.now.within.inner) (F.post self.now.within.inner) self.now.within.body }
        requires bodies { ReadsBodies (left lexer.old) (B.pre self.now.within.body) (B.post self.now.within.body) }
        ensures read { IfOk result (λ m. CoversShort (around_of context.entry.around) (chars raw.now) (place_of lexer.old) m (place_of lexer.new)) }
        ensures placed { IfOk result (λ m. IsPlacedShort lo.0 (chars raw.now) lexer.old m lexer.new) }
        ensures within { OnOk result (left lexer.new ≤ left lexer.old) }
        ensures refused { Refused context.entry.levels result (NoShortCover (around_of context.entry.around) (chars raw.now) (place_of lexer.old)) }
    {
        let text = Text::Read(raw, lo);
        if !lexer.take(Fixed::Equals) {
            let span = span_to(lo, lexer);
            let prop = make::shorthand(context.alloc, span, Ident { text })?;
            return Ok(Member::settled(prop));
        }
        if !is_bound(raw) {
            return Err(give_up(lexer));
        }
        let levels = within_leaf(context, lexer)?;
        let value = self
            .within
            .inner(Context { levels, ..context }, lexer, ASSIGNMENT)?;
        let key = make::name_key(text);
        let span = span_to(lo, lexer);
        let prop = make::field(context.alloc, span, Placement::Instance, key, Some(value))?;
        Ok(Member {
            prop,
            is_expr: false,
            may_turn: true,
        })
    }

    /// What stands in an object: a property, a name for one and its value, with a default or without one, a method, a getter, a setter,
    /// or a spread (ECMA-262 section 13.2.5).
    pub(crate) fn object_member<'s>(
        &self,
        context: Context,
        lexer: &mut Lexer<'s>,
    ) -> Result<Member<'s>, ParseError>
        requires nests { ReadsWithin (suc (left lexer.old)) (F.pre self.now.within.inner) (F.post self.now.within.inner) self.now.within.body }
        requires bodies { ReadsBodies (left lexer.old) (B.pre self.now.within.body) (B.post self.now.within.body) }
        ensures read { IfOk result (λ m. IsMemberCover (around_of context.entry.around) (place_of lexer.old) m (place_of lexer.new)) }
        ensures placed { IfOk result (λ m. IsPlacedMember m lexer.old lexer.new) }
        ensures shorter { OnOk result (left lexer.new < left lexer.old) }
        ensures refused { Refused context.entry.levels result (NoMemberCover (around_of context.entry.around) (place_of lexer.old)) }
    {
        if lexer.take(Fixed::Dots) {
            let prop = self.spread_member(context, lexer)?;
            return Ok(Member {
                prop,
                is_expr: true,
                may_turn: !lexer.is_before(Fixed::Comma),
            });
        }
        if take_prefix(lexer, Word::Get) {
            let lo = lexer.last_place();
            let prop = self.within.getter_member(context, lexer, lo, Home::Object)?;
            return Ok(Member::settled(prop));
        }
        if take_prefix(lexer, Word::Set) {
            let lo = lexer.last_place();
            let prop = self.within.setter_member(context, lexer, lo, Home::Object)?;
            return Ok(Member::settled(prop));
        }
        Ok(self.bare_member(context, lexer)?)
    }

    /// What stands in an object where its key comes first: a property, a name for one and its value, or a method.
    pub(crate) fn bare_member<'s>(
        &self,
        context: Context,
        lexer: &mut Lexer<'s>,
    ) -> Result<Member<'s>, ParseError>
        requires nests { ReadsWithin (suc (left lexer.old)) (F.pre self.now.within.inner) (F.post self.now.within.inner) self.now.within.body }
        requires bodies { ReadsBodies (left lexer.old) (B.pre self.now.within.body) (B.post self.now.within.body) }
        requires bare { IsBare (place_of lexer.old) }
        ensures read { IfOk result (λ m. IsMemberCover (around_of context.entry.around) (place_of lexer.old) m (place_of lexer.new)) }
        ensures placed { IfOk result (λ m. IsPlacedMember m lexer.old lexer.new) }
        ensures shorter { OnOk result (left lexer.new < left lexer.old) }
        ensures refused { Refused context.entry.levels result (NoMemberCover (around_of context.entry.around) (place_of lexer.old)) }
    {
        if lexer.take(Fixed::OpenBracket) {
            let lo = lexer.last_place();
            let levels = within(context, lexer)?;
            let inside = Context { levels, ..context };
            let key = self.within.computed_key(inside, lexer)?;
            return Ok(self.object_keyed(inside, lexer, lo, key)?);
        }
        if let Some(raw) = lexer.leaf(Leaf::Name) {
            let lo = lexer.last_place();
            let levels = within_leaf(context, lexer)?;
            let inside = Context { levels, ..context };
            if is_keyed(lexer, raw) {
                let key = make::name_key(Text::Read(raw, lo));
                return Ok(self.object_keyed(inside, lexer, lo, key)?);
            }
            return Ok(self.short_member(inside, lexer, lo, raw)?);
        }
        let key = literal_key(context, lexer)?;
        let levels = within_leaf(context, lexer)?;
        let inside = Context { levels, ..context };
        Ok(self.object_keyed(inside, lexer, lexer.last_place(), key)?)
    }

    /// What stands in an object behind its `{`, with the `}`: `a, b: c, ...d}`.
    pub(crate) fn object_members<'s>(
        &self,
        context: Context,
        lexer: &mut Lexer<'s>,
    ) -> Result<Members<'s>, ParseError>
        requires nests { ReadsWithin (suc (left lexer.old)) (F.pre self.now.within.inner) (F.post self.now.within.inner) self.now.within.body }
        requires bodies { ReadsBodies (left lexer.old) (B.pre self.now.within.body) (B.post self.now.within.body) }
        ensures read { IfOk result (λ q. CoversMembers (around_of context.entry.around) (place_of lexer.old) q (place_of lexer.new)) }
        ensures placed { IfOk result (λ q. IsPlacedMembers q lexer.old lexer.new) }
        ensures shorter { OnOk result (left lexer.new < left lexer.old) }
        ensures ended { OnOk result (IsTrue (settled (place_of lexer.new))) }
        ensures refused { Refused context.entry.levels result (NoMembers (around_of context.entry.around) (place_of lexer.old)) }
    {
        let mut all = Vec::new(context.alloc);
        let mut are_exprs = true;
        let mut may_turn = true;
        'members: while !lexer.take(Fixed::CloseBrace) {
            let member = self.object_member(context, lexer)?;
            are_exprs = are_exprs & member.is_expr;
            may_turn = may_turn & member.may_turn;
            all.push(member.prop)?;
            if !lexer.take(Fixed::Comma) {
                expect(context, lexer, Fixed::CloseBrace)?;
                return Ok(members_of(all, are_exprs, may_turn));
            }
        }
        Ok(members_of(all, are_exprs, may_turn))
    }

    /// An object behind its `{`: `{a, b: c, ...d}` (ECMA-262 section 13.2.5). Where it is an expression, one `__proto__: a` stands in it at
    /// most.
    pub fn object<'s>(
        &self,
        context: Context,
        lexer: &mut Lexer<'s>,
    ) -> Result<Cover<'s>, ParseError>
        requires nests { ReadsWithin (suc (left lexer.old)) (F.pre self.now.within.inner) (F.post self.now.within.inner) self.now.within.body }
        requires bodies { ReadsBodies (left lexer.old) (B.pre self.now.within.body) (B.post self.now.within.body) }
        ensures read { IfOk result (λ c. OpensCover (around_of context.entry.around) (opening_sign (expression Object)) c (place_of lexer.old) (place_of lexer.new)) }
        ensures span { IfOk result (λ c. Spans (expr_at c.expr.value) (begin_of lexer.old) (end_of lexer.new)) }
        ensures placed { IfOk result (λ c. IsPlacedCoverBehind (opening_sign (expression Object)) lexer.old c lexer.new) }
        ensures shorter { OnOk result (left lexer.new < left lexer.old) }
        ensures ended { OnOk result (IsTrue (settled (place_of lexer.new))) }
        ensures refused { Refused context.entry.levels result (NoCoverOpened (around_of context.entry.around) (opening_sign (expression Object)) (place_of lexer.old)) }
    {
        let lo = lexer.last_place();
        let Members {
            all,
            are_exprs,
            may_turn,
        } = self.object_members(context, lexer)?;
        let is_expr = are_exprs & !has_two_protos(&all);
        let expr = make::object(context.alloc, span_to(lo, lexer), all)?;
        Ok(Cover {
            expr,
            is_expr,
            may_turn,
        })
    }
}

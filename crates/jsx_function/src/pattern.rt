//! Patterns that bind names (ECMA-262 section 14.3.3).

ghost use Rattle.std.specs.Prelude.{◌≡◌, ◌<◌, ◌≤◌, ◌||◌, IfOk, OnOk, IsTrue, map, not, suc};
ghost use Rattle.std.specs.Str.{chars};
ghost use Rattle.jsx_tree.specs.Kinds.{ArrayPat, Binds, ObjectPat, PropertyPat, RestPat, RestProperty, function, list, none, part};
ghost use Rattle.jsx_tree.specs.Nonterminals as grammar;
ghost use Rattle.jsx_tree.specs.Grammar.{Part};
ghost use Rattle.jsx_tree.specs.Reading.{forth};
ghost use Rattle.jsx_tree.specs.Spans.{no_tales, tale};
ghost use Rattle.jsx_tree.specs.Told.{told_key, told_list, told_pat, told_text};
ghost use Rattle.jsx_tree.specs.View.{forest, inside, name_of, view_key, view_pat};
ghost use Rattle.jsx_tree.specs.Walk.{is_found, one, tail};
ghost use Rattle.jsx_tree.specs.Answers.{Barred, Built, NoRow, Only, OnlyRow};
ghost use Rattle.jsx_make.specs.NodeSpans.{pat_at};
ghost use Rattle.jsx_operand.specs.Around.{around_of};
ghost use Rattle.jsx_operand.specs.Answers.{Refused};
ghost use Rattle.jsx_operand.specs.Bodies.{ReadsBodies};
ghost use Rattle.jsx_operand.specs.SoFar.{so_far};
ghost use Rattle.jsx_operand.specs.Spans.{IsPlaced, IsPlacedBehind, IsPlacedPast, IsPlacedRow, Spans};
ghost use Rattle.jsx_token.specs.Growths.{settled};
ghost use Rattle.jsx_token.specs.Here.{left, place_of, sign_of};
ghost use Rattle.jsx_token.specs.declared.lexer.Fixed.TheVariants as fixed;
ghost use Rattle.jsx_token.specs.Marks.{row_so_far};
ghost use Rattle.jsx_token.specs.Places.{begin_of, end_of, next_of};
ghost use Rattle.jsx_function.specs.Elements.{NoItem};
ghost use Rattle.jsx_function.specs.Patterns.{IsElement, NoElement, NoPart, NoShort, OnlyPair, OnlyPart, OnlyShort, OnlySlot, behind_bracket, behind_pattern_brace};
ghost use Rattle.jsx_function.specs.Within.{ReadsWithin};

use crate::grammar::Within;
use jsx_base::BytePos;
use jsx_make::make;
use jsx_operand::depth::{behind_pattern, leave, measure, within, within_leaf};
use jsx_operand::operand::{ASSIGNMENT, literal_key};
use jsx_operand::parser::{binding_identifier, bound_name, expect, give_up, span_to};
use jsx_operand::pattern::start_of_pattern;
use jsx_operand::{Body, Context, Cover, ParseError};
use jsx_token::{Fixed, Leaf, Lexer, is_bound};
use jsx_tree::{Ident, Key, Pat, Text};

/// Whether a name, behind which the lexer stands, is the key of a property of a pattern.
fn is_key(lexer: &mut Lexer, name: &str) -> bool
    ensures keyed { result ≡ (not (grammar.is_bound (chars name.now)) || is_found (forth (sign_of fixed.Colon) (place_of lexer.old))) }
    ensures stays { lexer.new ≡ lexer.old }
{
    !is_bound(name) || lexer.is_before(Fixed::Colon)
}

/// A rest in an object's pattern behind its `...`: `...a`. No comma stands behind it.
fn rest_property<'s>(context: Context, lexer: &mut Lexer<'s>) -> Result<Box<Pat<'s>>, ParseError>
    ensures read { IfOk result (λ p. Built so_far (around_of context.entry.around) (tail (row_so_far (function (RestProperty Binds)))) (function (RestProperty Binds)) (λ ts. ts) (view_pat p.value) (place_of lexer.old) (place_of lexer.new)) }
    ensures placed { IfOk result (λ p. IsPlacedBehind (sign_of fixed.Dots) lexer.old (told_pat p.value) (view_pat p.value) lexer.new) }
    ensures shorter { OnOk result (left lexer.new < left lexer.old) }
    ensures refused { Refused context.entry.levels result (NoRow so_far (around_of context.entry.around) (tail (row_so_far (function (RestProperty Binds)))) (place_of lexer.old)) }
{
    let lo = lexer.last_place();
    let name = bound_name(context, lexer)?;
    if lexer.is_before(Fixed::Comma) {
        return Err(give_up(lexer));
    }
    Ok(make::rest_property(context.alloc, span_to(lo, lexer), name)?)
}

impl<
    F: for<'c, 's> Fn(Context<'c>, &mut Lexer<'s>, u8, B) -> Result<Cover<'s>, ParseError>,
    B: Copy + for<'c, 's> Fn(Context<'c>, &mut Lexer<'s>) -> Result<Body<'s>, ParseError>,
> Within<F, B> {
    /// What binds names: a name, or a pattern in brackets (ECMA-262 section 14.3.3).
    #[cycle(binding)]
    pub fn binding<'s>(
        &self,
        context: Context,
        lexer: &mut Lexer<'s>,
    ) -> Result<Box<Pat<'s>>, ParseError>
        requires nests { ReadsWithin (suc (left lexer.old)) (F.pre self.now.inner) (F.post self.now.inner) self.now.body }
        requires bodies { ReadsBodies (left lexer.old) (B.pre self.now.body) (B.post self.now.body) }
        ensures read { IfOk result (λ p. Only so_far (around_of context.entry.around) (Part (grammar.Pat Binds)) (place_of lexer.old) (one (view_pat p.value)) (place_of lexer.new)) }
        ensures span { IfOk result (λ p. Spans (pat_at p.value) (next_of lexer.old) (end_of lexer.new)) }
        ensures placed { IfOk result (λ p. IsPlaced (told_pat p.value) (view_pat p.value) lexer.old lexer.new) }
        ensures shorter { OnOk result (left lexer.new < left lexer.old) }
        ensures refused { Refused context.entry.levels result (Barred so_far (around_of context.entry.around) (Part (grammar.Pat Binds)) (place_of lexer.old)) }
    {
        if lexer.take(Fixed::OpenBracket) {
            let levels = within(context, lexer)?;
            return Ok(self.array_pattern(Context { levels, ..context }, lexer)?);
        }
        if lexer.take(Fixed::OpenBrace) {
            let levels = within(context, lexer)?;
            return Ok(self.object_pattern(Context { levels, ..context }, lexer)?);
        }
        Ok(binding_identifier(context, lexer)?)
    }

    /// A rest behind its `...`: `...a`. No comma stands behind it.
    #[cycle(binding)]
    pub fn rest_pattern<'s>(
        &self,
        context: Context,
        lexer: &mut Lexer<'s>,
    ) -> Result<Box<Pat<'s>>, ParseError>
        requires nests { ReadsWithin (suc (left lexer.old)) (F.pre self.now.inner) (F.post self.now.inner) self.now.body }
        requires bodies { ReadsBodies (left lexer.old) (B.pre self.now.body) (B.post self.now.body) }
        ensures read { IfOk result (λ p. Built so_far (around_of context.entry.around) (tail (row_so_far (function (RestPat Binds)))) (function (RestPat Binds)) (λ ts. ts) (view_pat p.value) (place_of lexer.old) (place_of lexer.new)) }
        ensures placed { IfOk result (λ p. IsPlacedBehind (sign_of fixed.Dots) lexer.old (told_pat p.value) (view_pat p.value) lexer.new) }
        ensures shorter { OnOk result (left lexer.new < left lexer.old) }
        ensures refused { Refused context.entry.levels result (NoRow so_far (around_of context.entry.around) (tail (row_so_far (function (RestPat Binds)))) (place_of lexer.old)) }
    {
        let lo = lexer.last_place();
        let target = self.binding(context, lexer)?;
        if lexer.is_before(Fixed::Comma) {
            return Err(give_up(lexer));
        }
        Ok(make::rest(context.alloc, span_to(lo, lexer), target)?)
    }

    /// A pattern with a default, or without one: `a = b`. It stands among parameters, in an array's pattern and as the value of a
    /// property.
    #[cycle(binding)]
    pub(crate) fn element<'s>(
        &self,
        context: Context,
        lexer: &mut Lexer<'s>,
    ) -> Result<Box<Pat<'s>>, ParseError>
        requires nests { ReadsWithin (suc (left lexer.old)) (F.pre self.now.inner) (F.post self.now.inner) self.now.body }
        requires bodies { ReadsBodies (left lexer.old) (B.pre self.now.body) (B.post self.now.body) }
        ensures read { IfOk result (λ p. IsElement (around_of context.entry.around) (place_of lexer.old) (view_pat p.value) (place_of lexer.new)) }
        ensures placed { IfOk result (λ p. IsPlaced (told_pat p.value) (view_pat p.value) lexer.old lexer.new) }
        ensures shorter { OnOk result (left lexer.new < left lexer.old) }
        ensures refused { Refused context.entry.levels result (NoElement (around_of context.entry.around) (place_of lexer.old)) }
    {
        let outer = measure(context);
        let target = self.binding(context, lexer)?;
        if !lexer.take(Fixed::Equals) {
            leave(context, outer);
            return Ok(target);
        }
        let levels = behind_pattern(context, lexer, &target)?;
        let value = self.inner(Context { levels, ..context }, lexer, ASSIGNMENT)?;
        leave(context, outer);
        let span = span_to(start_of_pattern(&target), lexer);
        Ok(make::with_default(context.alloc, span, target, value)?)
    }

    /// What stands in an array's pattern and is no hole: a pattern with a default or without one, or a rest.
    #[cycle(binding)]
    pub(crate) fn pattern_slot<'s>(
        &self,
        context: Context,
        lexer: &mut Lexer<'s>,
    ) -> Result<Box<Pat<'s>>, ParseError>
        requires nests { ReadsWithin (suc (left lexer.old)) (F.pre self.now.inner) (F.post self.now.inner) self.now.body }
        requires bodies { ReadsBodies (left lexer.old) (B.pre self.now.body) (B.post self.now.body) }
        ensures read { IfOk result (λ p. OnlySlot (around_of context.entry.around) (place_of lexer.old) (view_pat p.value) (place_of lexer.new)) }
        ensures placed { IfOk result (λ p. IsPlaced (told_pat p.value) (view_pat p.value) lexer.old lexer.new) }
        ensures shorter { OnOk result (left lexer.new < left lexer.old) }
        ensures refused { Refused context.entry.levels result (NoItem (around_of context.entry.around) (grammar.Slot Binds) (place_of lexer.old)) }
    {
        if lexer.take(Fixed::Dots) {
            return Ok(self.rest_pattern(context, lexer)?);
        }
        Ok(self.element(context, lexer)?)
    }

    /// What stands in an array's pattern behind its `[`, with the `]`: `a, , ...b]`.
    #[cycle(binding)]
    pub(crate) fn pattern_slots<'s>(
        &self,
        context: Context,
        lexer: &mut Lexer<'s>,
    ) -> Result<Vec<Box<Pat<'s>>>, ParseError>
        requires nests { ReadsWithin (suc (left lexer.old)) (F.pre self.now.inner) (F.post self.now.inner) self.now.body }
        requires bodies { ReadsBodies (left lexer.old) (B.pre self.now.body) (B.post self.now.body) }
        ensures read { IfOk result (λ v. OnlyRow so_far (around_of context.entry.around) (tail (row_so_far (function (ArrayPat Binds)))) (place_of lexer.old) (part (list (forest (map (inside view_pat) v.items))) none) (place_of lexer.new)) }
        ensures placed { IfOk result (λ v. IsPlacedRow behind_bracket (tale (told_list (map (inside told_pat) v.items)) no_tales) (part (list (forest (map (inside view_pat) v.items))) none) lexer.old lexer.new) }
        ensures shorter { OnOk result (left lexer.new < left lexer.old) }
        ensures ended { OnOk result (IsTrue (settled (place_of lexer.new))) }
        ensures refused { Refused context.entry.levels result (NoRow so_far (around_of context.entry.around) (tail (row_so_far (function (ArrayPat Binds)))) (place_of lexer.old)) }
    {
        let mut all = Vec::new(context.alloc);
        'slots: while !lexer.take(Fixed::CloseBracket) {
            if lexer.take(Fixed::Comma) {
                let hole = make::pattern_hole(context.alloc)?;
                all.push(hole)?;
            } else {
                let slot = self.pattern_slot(context, lexer)?;
                all.push(slot)?;
                if !lexer.take(Fixed::Comma) {
                    expect(context, lexer, Fixed::CloseBracket)?;
                    return Ok(all);
                }
            }
        }
        Ok(all)
    }

    /// An array's pattern behind its `[`: `[a, , ...b]` (ECMA-262 section 14.3.3).
    #[cycle(binding)]
    pub(crate) fn array_pattern<'s>(
        &self,
        context: Context,
        lexer: &mut Lexer<'s>,
    ) -> Result<Box<Pat<'s>>, ParseError>
        requires nests { ReadsWithin (suc (left lexer.old)) (F.pre self.now.inner) (F.post self.now.inner) self.now.body }
        requires bodies { ReadsBodies (left lexer.old) (B.pre self.now.body) (B.post self.now.body) }
        ensures read { IfOk result (λ p. Built so_far (around_of context.entry.around) (tail (row_so_far (function (ArrayPat Binds)))) (function (ArrayPat Binds)) (λ ts. ts) (view_pat p.value) (place_of lexer.old) (place_of lexer.new)) }
        ensures span { IfOk result (λ p. Spans (pat_at p.value) (begin_of lexer.old) (end_of lexer.new)) }
        ensures placed { IfOk result (λ p. IsPlacedBehind (sign_of fixed.OpenBracket) lexer.old (told_pat p.value) (view_pat p.value) lexer.new) }
        ensures shorter { OnOk result (left lexer.new < left lexer.old) }
        ensures ended { OnOk result (IsTrue (settled (place_of lexer.new))) }
        ensures refused { Refused context.entry.levels result (NoRow so_far (around_of context.entry.around) (tail (row_so_far (function (ArrayPat Binds)))) (place_of lexer.old)) }
    {
        let lo = lexer.last_place();
        let all = self.pattern_slots(context, lexer)?;
        Ok(make::array_pattern(context.alloc, span_to(lo, lexer), all)?)
    }

    /// A property behind its key, which begins at a place: `a: b`.
    #[cycle(binding)]
    pub(crate) fn pair_pattern<'s>(
        &self,
        context: Context,
        lexer: &mut Lexer<'s>,
        lo: BytePos,
        key: Key<'s>,
    ) -> Result<Box<Pat<'s>>, ParseError>
        requires nests { ReadsWithin (suc (left lexer.old)) (F.pre self.now.inner) (F.post self.now.inner) self.now.body }
        requires bodies { ReadsBodies (left lexer.old) (B.pre self.now.body) (B.post self.now.body) }
        ensures read { IfOk result (λ p. OnlyPair (around_of context.entry.around) (place_of lexer.old) (view_key key.entry) (view_pat p.value) (place_of lexer.new)) }
        ensures placed { IfOk result (λ p. IsPlacedPast lo.0 (told_key key.entry) (view_key key.entry) lexer.old (told_pat p.value) (view_pat p.value) lexer.new) }
        ensures shorter { OnOk result (left lexer.new < left lexer.old) }
        ensures refused { Refused context.entry.levels result (NoRow so_far (around_of context.entry.around) (tail (row_so_far (function (PropertyPat Binds)))) (place_of lexer.old)) }
    {
        expect(context, lexer, Fixed::Colon)?;
        let value = self.element(context, lexer)?;
        Ok(make::pair_pattern(context.alloc, span_to(lo, lexer), key, value)?)
    }

    /// A name behind which its default may stand, and that begins at a place: `a = b`.
    pub(crate) fn short_pattern<'s>(
        &self,
        context: Context,
        lexer: &mut Lexer<'s>,
        lo: BytePos,
        name: Ident<'s>,
    ) -> Result<Box<Pat<'s>>, ParseError>
        requires nests { ReadsWithin (suc (left lexer.old)) (F.pre self.now.inner) (F.post self.now.inner) self.now.body }
        requires bodies { ReadsBodies (left lexer.old) (B.pre self.now.body) (B.post self.now.body) }
        ensures read { IfOk result (λ p. OnlyShort (around_of context.entry.around) (name_of name.entry) (place_of lexer.old) (view_pat p.value) (place_of lexer.new)) }
        ensures placed { IfOk result (λ p. IsPlacedPast lo.0 (told_text name.entry.text) (name_of name.entry) lexer.old (told_pat p.value) (view_pat p.value) lexer.new) }
        ensures within { OnOk result (left lexer.new ≤ left lexer.old) }
        ensures refused { Refused context.entry.levels result (NoShort (around_of context.entry.around) (name_of name.entry) (place_of lexer.old)) }
    {
        if !lexer.take(Fixed::Equals) {
            return Ok(make::short_pattern(context.alloc, span_to(lo, lexer), name)?);
        }
        let levels = within_leaf(context, lexer)?;
        let value = self.inner(Context { levels, ..context }, lexer, ASSIGNMENT)?;
        Ok(make::short_default(context.alloc, span_to(lo, lexer), name, value)?)
    }

    /// What stands in an object's pattern: a property, a name for one and what it binds, or a rest (ECMA-262 section 14.3.3).
    #[cycle(binding)]
    pub(crate) fn pattern_part<'s>(
        &self,
        context: Context,
        lexer: &mut Lexer<'s>,
    ) -> Result<Box<Pat<'s>>, ParseError>
        requires nests { ReadsWithin (suc (left lexer.old)) (F.pre self.now.inner) (F.post self.now.inner) self.now.body }
        requires bodies { ReadsBodies (left lexer.old) (B.pre self.now.body) (B.post self.now.body) }
        ensures read { IfOk result (λ p. OnlyPart (around_of context.entry.around) (place_of lexer.old) (view_pat p.value) (place_of lexer.new)) }
        ensures placed { IfOk result (λ p. IsPlaced (told_pat p.value) (view_pat p.value) lexer.old lexer.new) }
        ensures shorter { OnOk result (left lexer.new < left lexer.old) }
        ensures refused { Refused context.entry.levels result (NoPart (around_of context.entry.around) (place_of lexer.old)) }
    {
        if lexer.take(Fixed::Dots) {
            return Ok(rest_property(context, lexer)?);
        }
        if lexer.take(Fixed::OpenBracket) {
            let lo = lexer.last_place();
            let levels = within(context, lexer)?;
            let inside = Context { levels, ..context };
            let key = self.computed_key(inside, lexer)?;
            return Ok(self.pair_pattern(inside, lexer, lo, key)?);
        }
        if let Some(raw) = lexer.leaf(Leaf::Name) {
            let lo = lexer.last_place();
            let levels = within_leaf(context, lexer)?;
            let inside = Context { levels, ..context };
            let text = Text::Read(raw, lo);
            if is_key(lexer, raw) {
                return Ok(self.pair_pattern(inside, lexer, lo, make::name_key(text))?);
            }
            return Ok(self.short_pattern(inside, lexer, lo, Ident { text })?);
        }
        let key = literal_key(context, lexer)?;
        let levels = within_leaf(context, lexer)?;
        let inside = Context { levels, ..context };
        Ok(self.pair_pattern(inside, lexer, lexer.last_place(), key)?)
    }

    /// What stands in an object's pattern behind its `{`, with the `}`: `a, b: c, ...d}`.
    #[cycle(binding)]
    pub(crate) fn pattern_parts<'s>(
        &self,
        context: Context,
        lexer: &mut Lexer<'s>,
    ) -> Result<Vec<Box<Pat<'s>>>, ParseError>
        requires nests { ReadsWithin (suc (left lexer.old)) (F.pre self.now.inner) (F.post self.now.inner) self.now.body }
        requires bodies { ReadsBodies (left lexer.old) (B.pre self.now.body) (B.post self.now.body) }
        ensures read { IfOk result (λ v. OnlyRow so_far (around_of context.entry.around) (tail (row_so_far (function (ObjectPat Binds)))) (place_of lexer.old) (part (list (forest (map (inside view_pat) v.items))) none) (place_of lexer.new)) }
        ensures placed { IfOk result (λ v. IsPlacedRow behind_pattern_brace (tale (told_list (map (inside told_pat) v.items)) no_tales) (part (list (forest (map (inside view_pat) v.items))) none) lexer.old lexer.new) }
        ensures shorter { OnOk result (left lexer.new < left lexer.old) }
        ensures ended { OnOk result (IsTrue (settled (place_of lexer.new))) }
        ensures refused { Refused context.entry.levels result (NoRow so_far (around_of context.entry.around) (tail (row_so_far (function (ObjectPat Binds)))) (place_of lexer.old)) }
    {
        let mut all = Vec::new(context.alloc);
        'parts: while !lexer.take(Fixed::CloseBrace) {
            let part = self.pattern_part(context, lexer)?;
            all.push(part)?;
            if !lexer.take(Fixed::Comma) {
                expect(context, lexer, Fixed::CloseBrace)?;
                return Ok(all);
            }
        }
        Ok(all)
    }

    /// An object's pattern behind its `{`: `{ a, b: c, ...d }` (ECMA-262 section 14.3.3).
    #[cycle(binding)]
    pub(crate) fn object_pattern<'s>(
        &self,
        context: Context,
        lexer: &mut Lexer<'s>,
    ) -> Result<Box<Pat<'s>>, ParseError>
        requires nests { ReadsWithin (suc (left lexer.old)) (F.pre self.now.inner) (F.post self.now.inner) self.now.body }
        requires bodies { ReadsBodies (left lexer.old) (B.pre self.now.body) (B.post self.now.body) }
        ensures read { IfOk result (λ p. Built so_far (around_of context.entry.around) (tail (row_so_far (function (ObjectPat Binds)))) (function (ObjectPat Binds)) (λ ts. ts) (view_pat p.value) (place_of lexer.old) (place_of lexer.new)) }
        ensures span { IfOk result (λ p. Spans (pat_at p.value) (begin_of lexer.old) (end_of lexer.new)) }
        ensures placed { IfOk result (λ p. IsPlacedBehind (sign_of fixed.OpenBrace) lexer.old (told_pat p.value) (view_pat p.value) lexer.new) }
        ensures shorter { OnOk result (left lexer.new < left lexer.old) }
        ensures ended { OnOk result (IsTrue (settled (place_of lexer.new))) }
        ensures refused { Refused context.entry.levels result (NoRow so_far (around_of context.entry.around) (tail (row_so_far (function (ObjectPat Binds)))) (place_of lexer.old)) }
    {
        let lo = lexer.last_place();
        let all = self.pattern_parts(context, lexer)?;
        Ok(make::object_pattern(context.alloc, span_to(lo, lexer), all)?)
    }
}

//! Optional chains (ECMA-262 section 13.3.9).

ghost use Rattle.std.specs.Prelude.{◌≡◌, ◌<◌, IfOk, OnOk, IsTrue, true, false, suc};
ghost use Rattle.jsx_tree.specs.Kinds.{expression, CallLink, Chain, IndexLink};
ghost use Rattle.jsx_tree.specs.View.{view_expr, is_optional, view_link};
ghost use Rattle.jsx_tree.specs.StaticRules.{is_optional as is_optional_link};
ghost use Rattle.jsx_tree.specs.Told.{told_link};
ghost use Rattle.jsx_tree.specs.Walk.{tail};
ghost use Rattle.jsx_tree.specs.Answers.{NoRow, Built};
ghost use Rattle.jsx_operand.specs.Around.{around_of};
ghost use Rattle.jsx_operand.specs.SoFar.{so_far};
ghost use Rattle.jsx_token.specs.Marks.{row_so_far};
ghost use Rattle.jsx_token.specs.Here.{place_of, left, sign_of};
ghost use Rattle.jsx_token.specs.declared.lexer.Fixed.TheVariants as fixed;
ghost use Rattle.jsx_operand.specs.Answers.{Refused};
ghost use Rattle.jsx_operand.specs.Links.{IsPlacedLink, NoneLinked, OnlyLink, link_sign};
ghost use Rattle.jsx_operand.specs.declared.link.Linking.TheVariants as linkings;
ghost use Rattle.jsx_operand.specs.Climbing.{Grown, NotGrown};
ghost use Rattle.jsx_token.specs.Growths.{mark, settled};
ghost use Rattle.jsx_make.specs.NodeSpans.{expr_at};
ghost use Rattle.jsx_operand.specs.Spans.{Extends, IsPlacedBehind, IsPlacedOn};
ghost use Rattle.jsx_token.specs.Places.{end_of};
ghost use Rattle.jsx_function.specs.Within.{ReadsWithin};
ghost use Rattle.jsx_operand.specs.Bodies.{ReadsBodies};

use crate::grammar::Brackets;
use jsx_base::BytePos;
use jsx_make::make;
use jsx_operand::link::{Linking, name_link, take_link};
use jsx_operand::operand::start_of;
use jsx_operand::parser::{expect, span_to};
use jsx_operand::{Body, Context, Cover, ParseError};
use jsx_token::{Fixed, Lexer};
use jsx_tree::{Expr, Link, LinkForm};

impl<
    F: for<'c, 's> Fn(Context<'c>, &mut Lexer<'s>, u8, B) -> Result<Cover<'s>, ParseError>,
    B: Copy + for<'c, 's> Fn(Context<'c>, &mut Lexer<'s>) -> Result<Body<'s>, ParseError>,
> Brackets<F, B> {
    /// A link behind its `[`, which begins at a place: `?.[a]`, `[a]`.
    pub(crate) fn index_link<'s>(
        &self,
        context: Context,
        lexer: &mut Lexer<'s>,
        lo: BytePos,
        form: LinkForm,
    ) -> Result<Box<Link<'s>>, ParseError>
        requires nests { ReadsWithin (suc (left lexer.old)) (F.pre self.now.within.inner) (F.post self.now.within.inner) self.now.within.body }
        requires bodies { ReadsBodies (left lexer.old) (B.pre self.now.within.body) (B.post self.now.within.body) }
        ensures read { IfOk result (λ l. Built so_far (around_of context.entry.around) (tail (row_so_far (expression (IndexLink false)))) (expression (IndexLink (is_optional form))) (λ ts. ts) (view_link l.value) (place_of lexer.old) (place_of lexer.new)) }
        ensures placed { IfOk result (λ l. IsPlacedLink lo.0 form (sign_of fixed.OpenBracket) lexer.old (told_link l.value) (view_link l.value) lexer.new) }
        ensures shorter { OnOk result (left lexer.new < left lexer.old) }
        ensures ended { OnOk result (IsTrue (settled (place_of lexer.new))) }
        ensures refused { Refused context.entry.levels result (NoRow so_far (around_of context.entry.around) (tail (row_so_far (expression (IndexLink false)))) (place_of lexer.old)) }
    {
        let inner = self.sequence(context, lexer)?;
        expect(context, lexer, Fixed::CloseBracket)?;
        Ok(make::index_link(context.alloc, span_to(lo, lexer), form, inner)?)
    }

    /// A link behind its `(`, which begins at a place: `?.(a, b)`, `(a, b)`.
    pub(crate) fn call_link<'s>(
        &self,
        context: Context,
        lexer: &mut Lexer<'s>,
        lo: BytePos,
        form: LinkForm,
    ) -> Result<Box<Link<'s>>, ParseError>
        requires nests { ReadsWithin (suc (left lexer.old)) (F.pre self.now.within.inner) (F.post self.now.within.inner) self.now.within.body }
        requires bodies { ReadsBodies (left lexer.old) (B.pre self.now.within.body) (B.post self.now.within.body) }
        ensures read { IfOk result (λ l. Built so_far (around_of context.entry.around) (tail (row_so_far (expression (CallLink false)))) (expression (CallLink (is_optional form))) (λ ts. ts) (view_link l.value) (place_of lexer.old) (place_of lexer.new)) }
        ensures placed { IfOk result (λ l. IsPlacedLink lo.0 form (sign_of fixed.Open) lexer.old (told_link l.value) (view_link l.value) lexer.new) }
        ensures shorter { OnOk result (left lexer.new < left lexer.old) }
        ensures ended { OnOk result (IsTrue (settled (place_of lexer.new))) }
        ensures refused { Refused context.entry.levels result (NoRow so_far (around_of context.entry.around) (tail (row_so_far (expression (CallLink false)))) (place_of lexer.old)) }
    {
        let all = self.arguments(context, lexer)?;
        Ok(make::call_link(context.alloc, span_to(lo, lexer), form, all)?)
    }

    /// A link behind its `?.`.
    pub(crate) fn optional_link<'s>(
        &self,
        context: Context,
        lexer: &mut Lexer<'s>,
    ) -> Result<Box<Link<'s>>, ParseError>
        requires nests { ReadsWithin (suc (left lexer.old)) (F.pre self.now.within.inner) (F.post self.now.within.inner) self.now.within.body }
        requires bodies { ReadsBodies (left lexer.old) (B.pre self.now.within.body) (B.post self.now.within.body) }
        ensures read { IfOk result (λ l. OnlyLink (around_of context.entry.around) (link_sign linkings.Optional) (place_of lexer.old) (view_link l.value) (place_of lexer.new)) }
        ensures optional { IfOk result (λ l. is_optional_link (view_link l.value) ≡ true) }
        ensures placed { IfOk result (λ l. IsPlacedBehind (link_sign linkings.Optional) lexer.old (told_link l.value) (view_link l.value) lexer.new) }
        ensures shorter { OnOk result (left lexer.new < left lexer.old) }
        ensures ended { OnOk result (IsTrue (settled (place_of lexer.new))) }
        ensures refused { Refused context.entry.levels result (NoneLinked (around_of context.entry.around) (link_sign linkings.Optional) (place_of lexer.old)) }
    {
        let lo = lexer.last_place();
        if lexer.take(Fixed::OpenBracket) {
            return Ok(self.index_link(context, lexer, lo, LinkForm::Optional)?);
        }
        if lexer.take(Fixed::Open) {
            return Ok(self.call_link(context, lexer, lo, LinkForm::Optional)?);
        }
        Ok(name_link(context, lexer, LinkForm::Optional)?)
    }

    /// A link behind the token with which it begins (ECMA-262 section 13.3.9).
    pub(crate) fn link<'s>(
        &self,
        context: Context,
        lexer: &mut Lexer<'s>,
        linking: Linking,
    ) -> Result<Box<Link<'s>>, ParseError>
        requires nests { ReadsWithin (suc (left lexer.old)) (F.pre self.now.within.inner) (F.post self.now.within.inner) self.now.within.body }
        requires bodies { ReadsBodies (left lexer.old) (B.pre self.now.within.body) (B.post self.now.within.body) }
        ensures read { IfOk result (λ l. OnlyLink (around_of context.entry.around) (link_sign linking) (place_of lexer.old) (view_link l.value) (place_of lexer.new)) }
        ensures placed { IfOk result (λ l. IsPlacedBehind (link_sign linking) lexer.old (told_link l.value) (view_link l.value) lexer.new) }
        ensures shorter { OnOk result (left lexer.new < left lexer.old) }
        ensures ended { OnOk result (IsTrue (settled (place_of lexer.new))) }
        ensures refused { Refused context.entry.levels result (NoneLinked (around_of context.entry.around) (link_sign linking) (place_of lexer.old)) }
    {
        let lo = lexer.last_place();
        match linking {
            Linking::Optional => Ok(self.optional_link(context, lexer)?),
            Linking::Name => Ok(name_link(context, lexer, LinkForm::Plain)?),
            Linking::Index => Ok(self.index_link(context, lexer, lo, LinkForm::Plain)?),
            Linking::Call => Ok(self.call_link(context, lexer, lo, LinkForm::Plain)?),
        }
    }

    /// A chain behind its first `?.`, with all links that follow: `a?.b.c` (ECMA-262 section 13.3.9).
    pub fn chain<'s>(
        &self,
        context: Context,
        lexer: &mut Lexer<'s>,
        base: Box<Expr<'s>>,
    ) -> Result<Box<Expr<'s>>, ParseError>
        requires nests { ReadsWithin (suc (left lexer.old)) (F.pre self.now.within.inner) (F.post self.now.within.inner) self.now.within.body }
        requires bodies { ReadsBodies (left lexer.old) (B.pre self.now.within.body) (B.post self.now.within.body) }
        ensures read { IfOk result (λ e. Grown (around_of context.entry.around) (expression Chain) (view_expr base.entry.value) (place_of lexer.old) (view_expr e.value) (place_of lexer.new)) }
        ensures span { IfOk result (λ e. Extends (expr_at base.entry.value) (expr_at e.value) (end_of lexer.new)) }
        ensures placed { IfOk result (λ e. IsPlacedOn (mark (expression Chain)) base.entry.value lexer.old e.value lexer.new) }
        ensures shorter { OnOk result (left lexer.new < left lexer.old) }
        ensures ended { OnOk result (IsTrue (settled (place_of lexer.new))) }
        ensures refused { Refused context.entry.levels result (NotGrown (around_of context.entry.around) (expression Chain) (place_of lexer.old)) }
    {
        let first = self.optional_link(context, lexer)?;
        let mut links = Vec::with_capacity(context.alloc, 1)?;
        links.push(first)?;
        'links: loop {
            let Some(linking) = take_link(lexer) else {
                let span = span_to(start_of(&base), lexer);
                return Ok(make::chain(context.alloc, span, base, links)?);
            };
            let next = self.link(context, lexer, linking)?;
            links.push(next)?;
        }
    }
}

//! Templates and their tags (ECMA-262 sections 13.2.8 and 13.3.11).

ghost use Rattle.std.specs.Prelude.{◌≡◌, ◌<◌, IfOk, OnOk, IsTrue, map, true, suc};
ghost use Rattle.jsx_base.specs.Token.{Operator};
ghost use Rattle.jsx_tree.specs.Kinds.{expression, part, Tagged};
ghost use Rattle.jsx_tree.specs.View.{inside, text_of, view_expr, template};
ghost use Rattle.jsx_tree.specs.Told.{told_expr};
ghost use Rattle.jsx_tree.specs.Walk.{tail};
ghost use Rattle.jsx_tree.specs.Answers.{Built};
ghost use Rattle.jsx_operand.specs.Around.{around_of};
ghost use Rattle.jsx_operand.specs.SoFar.{so_far};
ghost use Rattle.jsx_token.specs.Marks.{is_quoted, row_so_far};
ghost use Rattle.jsx_token.specs.Seen.{next_token};
ghost use Rattle.jsx_token.specs.Here.{place_of, left};
ghost use Rattle.jsx_operand.specs.Answers.{Refused};
ghost use Rattle.jsx_operand.specs.Templates.{IsDivided, IsPlacedTemplate, IsRest, IsTemplate, NoRest, NoTemplate, behind_first, fits_tag, rest_of, rest_production, told_rest, IsPlacedTag, NotTagged};
ghost use Rattle.jsx_operand.specs.Climbing as climbing;
ghost use Rattle.jsx_operand.specs.Climbing.{Begins, NoneBegins};
ghost use Rattle.jsx_token.specs.Growths.{settled};
ghost use Rattle.jsx_make.specs.NodeSpans.{expr_at};
ghost use Rattle.jsx_operand.specs.Spans.{Extends, IsPlaced, IsPlacedRow, Spans};
ghost use Rattle.jsx_token.specs.Places.{end_of, next_of};
ghost use Rattle.jsx_function.specs.Within.{ReadsWithin};
ghost use Rattle.jsx_operand.specs.Bodies.{ReadsBodies};

use crate::grammar::Brackets;
use jsx_base::BytePos;
use jsx_make::make;
use jsx_operand::depth::{behind_expr_at, within_leaf_at};
use jsx_operand::operand::{level, start_of};
use jsx_operand::parser::{expect, give_up, span_to};
use jsx_operand::template::{Template, middle, piece_text, whole_template};
use jsx_operand::{Body, Context, Cover, ParseError};
use jsx_token::{Fixed, Leaf, Lexer, Piece};
use jsx_tree::{Expr, Text};

impl<
    F: for<'c, 's> Fn(Context<'c>, &mut Lexer<'s>, u8, B) -> Result<Cover<'s>, ParseError>,
    B: Copy + for<'c, 's> Fn(Context<'c>, &mut Lexer<'s>) -> Result<Body<'s>, ParseError>,
> Brackets<F, B> {
    /// A template behind its first piece: `a}b${c}d`.
    pub(crate) fn template_rest<'s>(
        &self,
        context: Context,
        lexer: &mut Lexer<'s>,
        is_tagged: bool,
        lo: BytePos,
        head: Text<'s>,
    ) -> Result<Template<'s>, ParseError>
        requires nests { ReadsWithin (suc (left lexer.old)) (F.pre self.now.within.inner) (F.post self.now.within.inner) self.now.within.body }
        requires bodies { ReadsBodies (left lexer.old) (B.pre self.now.within.body) (B.post self.now.within.body) }
        requires fits { fits_tag is_tagged (text_of head) ≡ true }
        ensures divided { IfOk result (λ t. IsDivided is_tagged head.entry t.pieces.items t.parts.items) }
        ensures begins { IfOk result (λ t. t.lo ≡ lo) }
        ensures read { IfOk result (λ t. IsRest (around_of context.entry.around) is_tagged (text_of head.entry) (place_of lexer.old) (rest_of is_tagged (behind_first t.pieces.items) (map (inside view_expr) t.parts.items)) (place_of lexer.new)) }
        ensures placed { IfOk result (λ t. IsPlacedRow (rest_production is_tagged) (told_rest (behind_first t.pieces.items) (map (inside told_expr) t.parts.items)) (rest_of is_tagged (behind_first t.pieces.items) (map (inside view_expr) t.parts.items)) lexer.old lexer.new) }
        ensures shorter { OnOk result (left lexer.new < left lexer.old) }
        ensures ended { OnOk result (IsTrue (settled (place_of lexer.new))) }
        ensures refused { Refused context.entry.levels result (NoRest (around_of context.entry.around) is_tagged (text_of head.entry) (place_of lexer.old)) }
    {
        let mut pieces = Vec::with_capacity(context.alloc, 2)?;
        pieces.push(head)?;
        let mut parts = Vec::new(context.alloc);
        'parts: loop {
            let part = self.sequence(context, lexer)?;
            expect(context, lexer, Fixed::CloseBrace)?;
            parts.push(part)?;
            if let Some(raw) = lexer.piece(Piece::Tail) {
                let tail = piece_text(lexer, is_tagged, raw)?;
                pieces.push(tail)?;
                return Ok(Template { lo, pieces, parts });
            }
            let piece = middle(context, lexer, is_tagged)?;
            pieces.push(piece)?;
        }
    }

    /// A template, which is tagged or not.
    pub(crate) fn any_template<'s>(
        &self,
        context: Context,
        lexer: &mut Lexer<'s>,
        is_tagged: bool,
    ) -> Result<Template<'s>, ParseError>
        requires nests { ReadsWithin (left lexer.old) (F.pre self.now.within.inner) (F.post self.now.within.inner) self.now.within.body }
        requires bodies { ReadsBodies (left lexer.old) (B.pre self.now.within.body) (B.post self.now.within.body) }
        ensures begins { IfOk result (λ t. t.lo.0 ≡ next_of lexer.old) }
        ensures read { IfOk result (λ t. IsTemplate (around_of context.entry.around) is_tagged (place_of lexer.old) (template is_tagged t.pieces.items (map (inside view_expr) t.parts.items)) (place_of lexer.new)) }
        ensures placed { IfOk result (λ t. IsPlacedTemplate is_tagged t.pieces.items t.parts.items lexer.old lexer.new) }
        ensures shorter { OnOk result (left lexer.new < left lexer.old) }
        ensures ended { OnOk result (IsTrue (settled (place_of lexer.new))) }
        ensures refused { Refused context.entry.levels result (NoTemplate (around_of context.entry.around) is_tagged (place_of lexer.old)) }
    {
        if let Some(raw) = lexer.leaf(Leaf::NoSubstitution) {
            return Ok(whole_template(context, lexer, is_tagged, raw)?);
        }
        let Some(raw) = lexer.leaf(Leaf::TemplateHead) else {
            return Err(give_up(lexer));
        };
        let lo = lexer.last_place();
        let head = piece_text(lexer, is_tagged, raw)?;
        Ok(self.template_rest(context, lexer, is_tagged, lo, head)?)
    }

    /// A template that isn't tagged (ECMA-262 section 13.2.8). It is kept out of the frame that each level of nesting takes.
    #[inline(never)]
    pub fn untagged<'s>(
        &self,
        context: Context,
        lexer: &mut Lexer<'s>,
    ) -> Result<Box<Expr<'s>>, ParseError>
        requires nests { ReadsWithin (left lexer.old) (F.pre self.now.within.inner) (F.post self.now.within.inner) self.now.within.body }
        requires bodies { ReadsBodies (left lexer.old) (B.pre self.now.within.body) (B.post self.now.within.body) }
        requires quoted { IsTrue (is_quoted (next_token Operator lexer.old)) }
        ensures read { IfOk result (λ e. Begins (around_of context.entry.around) (place_of lexer.old) (view_expr e.value) (place_of lexer.new)) }
        ensures span { IfOk result (λ e. Spans (expr_at e.value) (next_of lexer.old) (end_of lexer.new)) }
        ensures placed { IfOk result (λ e. IsPlaced (told_expr e.value) (view_expr e.value) lexer.old lexer.new) }
        ensures shorter { OnOk result (left lexer.new < left lexer.old) }
        ensures refused { Refused context.entry.levels result (NoneBegins (around_of context.entry.around) (place_of lexer.old)) }
    {
        let levels = within_leaf_at(context, lexer.failing_place())?;
        let read = self.any_template(Context { levels, ..context }, lexer, false)?;
        let span = span_to(read.lo, lexer);
        Ok(make::template(context.alloc, span, read.pieces, read.parts)?)
    }

    /// A template behind its tag (ECMA-262 section 13.3.11), which may have any escapes. It is kept out of the frame that each
    /// level of nesting takes.
    #[inline(never)]
    pub fn tagged<'s>(
        &self,
        context: Context,
        lexer: &mut Lexer<'s>,
        tag: Box<Expr<'s>>,
    ) -> Result<Box<Expr<'s>>, ParseError>
        requires nests { ReadsWithin (suc (left lexer.old)) (F.pre self.now.within.inner) (F.post self.now.within.inner) self.now.within.body }
        requires bodies { ReadsBodies (left lexer.old) (B.pre self.now.within.body) (B.post self.now.within.body) }
        ensures read { IfOk result (λ e. Built so_far (around_of context.entry.around) (tail (row_so_far (expression Tagged))) (expression Tagged) (part (view_expr tag.entry.value)) (view_expr e.value) (place_of lexer.old) (place_of lexer.new)) }
        ensures fits { OnOk result (IsTrue (climbing.fits (expression Tagged) (view_expr tag.entry.value))) }
        ensures span { IfOk result (λ e. Extends (expr_at tag.entry.value) (expr_at e.value) (end_of lexer.new)) }
        ensures placed { IfOk result (λ e. IsPlacedTag tag.entry.value lexer.old e.value lexer.new) }
        ensures shorter { OnOk result (left lexer.new < left lexer.old) }
        ensures ended { OnOk result (IsTrue (settled (place_of lexer.new))) }
        ensures refused { Refused context.entry.levels result (NotTagged (around_of context.entry.around) (view_expr tag.entry.value) (place_of lexer.old)) }
    {
        if level(&tag) < 18 {
            return Err(give_up(lexer));
        }
        let at = lexer.failing_place();
        let levels = behind_expr_at(context, at, &tag)?;
        let levels = within_leaf_at(Context { levels, ..context }, at)?;
        let read = self.any_template(Context { levels, ..context }, lexer, true)?;
        let here = span_to(read.lo, lexer);
        let span = span_to(start_of(&tag), lexer);
        Ok(make::tagged(context.alloc, span, tag, here, read.pieces, read.parts)?)
    }
}

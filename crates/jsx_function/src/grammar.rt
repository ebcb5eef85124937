//! What reads the expressions and the bodies within functions, classes and patterns, and what all of these are written over.

ghost use Rattle.std.specs.Prelude.{◌<◌, ◌≤◌, IfOk, OnOk, IsTrue, suc};
ghost use Rattle.jsx_tree.specs.Kinds.{none, part};
ghost use Rattle.jsx_tree.specs.Nonterminals as grammar;
ghost use Rattle.jsx_tree.specs.Grammar.{Part};
ghost use Rattle.jsx_tree.specs.Spans.{no_tales, tale};
ghost use Rattle.jsx_tree.specs.View.{view_expr};
ghost use Rattle.jsx_tree.specs.Told.{told_expr};
ghost use Rattle.jsx_tree.specs.Walk.{one};
ghost use Rattle.jsx_tree.specs.Answers.{Barred, NoRow, Only, OnlyRow};
ghost use Rattle.jsx_make.specs.NodeSpans.{expr_at};
ghost use Rattle.jsx_operand.specs.Around.{around_of};
ghost use Rattle.jsx_operand.specs.Answers.{Refused};
ghost use Rattle.jsx_operand.specs.Bodies.{ReadsBodies, body_row, body_symbols, told_of, view_body};
ghost use Rattle.jsx_operand.specs.SoFar.{so_far};
ghost use Rattle.jsx_operand.specs.Spans.{IsPlaced, IsPlacedRow, Spans};
ghost use Rattle.jsx_token.specs.Growths.{closed, is_level};
ghost use Rattle.jsx_token.specs.Here.{left, place_of};
ghost use Rattle.jsx_token.specs.Places.{end_of, next_of};
ghost use Rattle.jsx_function.specs.Covers.{IsCover, IsPlacedCover, NoCover, Settles};
ghost use Rattle.jsx_function.specs.Within.{ReadsWithin};

use jsx_operand::cover::settle;
use jsx_operand::{Body, Context, Cover, ParseError};
use jsx_token::Lexer;
use jsx_tree::Expr;

/// The level of calls and members, and of what may be assigned to.
pub const MEMBER: u8 = 17;

/// The functions that read the expressions and the bodies within: each production over them is proved alone.
#[derive(Clone, Copy)]
pub struct Within<F, B> {
    /// Reads an expression of a level or more, by the function that reads bodies.
    pub inner: F,
    /// Reads the body of a function behind its `{`, with its `}`.
    pub body: B,
}

impl<
    F: for<'c, 's> Fn(Context<'c>, &mut Lexer<'s>, u8, B) -> Result<Cover<'s>, ParseError>,
    B: Copy + for<'c, 's> Fn(Context<'c>, &mut Lexer<'s>) -> Result<Body<'s>, ParseError>,
> Within<F, B> {
    /// What may stand within another expression at a level or more, before it is known whether it is an expression.
    pub fn covered<'s>(
        &self,
        context: Context,
        lexer: &mut Lexer<'s>,
        level: u8,
    ) -> Result<Cover<'s>, ParseError>
        requires nests { ReadsWithin (suc (left lexer.old)) (F.pre self.now.inner) (F.post self.now.inner) self.now.body }
        requires bodies { ReadsBodies (left lexer.old) (B.pre self.now.body) (B.post self.now.body) }
        requires ranked { IsTrue (is_level level) }
        ensures read { IfOk result (λ c. IsCover (around_of context.entry.around) level (place_of lexer.old) c (place_of lexer.new)) }
        ensures span { IfOk result (λ c. Spans (expr_at c.expr.value) (next_of lexer.old) (end_of lexer.new)) }
        ensures placed { IfOk result (λ c. IsPlacedCover c lexer.old lexer.new) }
        ensures shorter { OnOk result (left lexer.new < left lexer.old) }
        ensures ended { OnOk result (IsTrue (closed (place_of lexer.new))) }
        ensures settles { OnOk result (Settles level (place_of lexer.new)) }
        ensures refused { Refused context.entry.levels result (NoCover (around_of context.entry.around) level (place_of lexer.old)) }
    {
        (self.inner)(context, lexer, level, self.body)
    }

    /// An expression within another, of a level or more.
    pub fn inner<'s>(
        &self,
        context: Context,
        lexer: &mut Lexer<'s>,
        level: u8,
    ) -> Result<Box<Expr<'s>>, ParseError>
        requires nests { ReadsWithin (suc (left lexer.old)) (F.pre self.now.inner) (F.post self.now.inner) self.now.body }
        requires bodies { ReadsBodies (left lexer.old) (B.pre self.now.body) (B.post self.now.body) }
        requires ranked { IsTrue (is_level level) }
        ensures read { IfOk result (λ e. Only so_far (around_of context.entry.around) (Part (grammar.Expr level)) (place_of lexer.old) (one (view_expr e.value)) (place_of lexer.new)) }
        ensures span { IfOk result (λ e. Spans (expr_at e.value) (next_of lexer.old) (end_of lexer.new)) }
        ensures placed { IfOk result (λ e. IsPlaced (told_expr e.value) (view_expr e.value) lexer.old lexer.new) }
        ensures shorter { OnOk result (left lexer.new < left lexer.old) }
        ensures ended { OnOk result (IsTrue (closed (place_of lexer.new))) }
        ensures settles { OnOk result (Settles level (place_of lexer.new)) }
        ensures refused { Refused context.entry.levels result (Barred so_far (around_of context.entry.around) (Part (grammar.Expr level)) (place_of lexer.old)) }
    {
        let read = self.covered(context, lexer, level)?;
        Ok(settle(read, lexer)?)
    }

    /// The body of a function behind its `{`, with its `}`.
    pub fn body<'s>(&self, context: Context, lexer: &mut Lexer<'s>) -> Result<Body<'s>, ParseError>
        requires bodies { ReadsBodies (suc (left lexer.old)) (B.pre self.now.body) (B.post self.now.body) }
        ensures read { IfOk result (λ b. OnlyRow so_far (around_of context.entry.around) body_row (place_of lexer.old) (part (view_body b) none) (place_of lexer.new)) }
        ensures placed { IfOk result (λ b. IsPlacedRow body_symbols (tale (told_of b) no_tales) (part (view_body b) none) lexer.old lexer.new) }
        ensures within { OnOk result (left lexer.new ≤ left lexer.old) }
        ensures refused { Refused context.entry.levels result (NoRow so_far (around_of context.entry.around) body_row (place_of lexer.old)) }
    {
        (self.body)(context, lexer)
    }
}

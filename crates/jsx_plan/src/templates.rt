//! The pieces of a template, and the expressions between them (ECMA-262 section 13.2.8).

ghost use Rattle.std.specs.Prelude.{◌≡◌, ◌∷◌, OnOk, map, true};
ghost use Rattle.jsx_pen.specs.Pen.{goes_on, spanned};
ghost use Rattle.jsx_plan.specs.Plan.{behind, job_of, outcome, pen_of};
ghost use Rattle.jsx_tree.specs.Kinds.{expression};
ghost use Rattle.jsx_tree.specs.View.{inside, template};
ghost use Rattle.jsx_plan.specs.Noted.{noted_expr};

use crate::printer::Printer;
use jsx_tree::{Expr, Text};
use std::alloc::AllocError;

impl<'a, 's> Printer<'a, 's> {
    /// The pieces of a template behind the first one, and the expressions before them.
    #[tactic(auto, using(crate::proofs::Planning::spans))]
    pub fn open_spans(
        &mut self,
        pieces: &'a [Text<'s>],
        exprs: &'a [Box<Expr<'s>>],
    ) -> Result<(), AllocError>
        ensures { OnOk result (outcome (job_of self.new) ≡ behind (job_of self.old) (spanned (pen_of (job_of self.old)) pieces.now (map (inside noted_expr) exprs.now))) }
    {
        match pieces.split_first() {
            Some((piece, pieces)) => self.span_before(piece, pieces, exprs),
            None => Ok(()),
        }
    }

    #[tactic(auto, using(crate::proofs::Planning::spans))]
    fn span_before(
        &mut self,
        piece: &'a Text<'s>,
        pieces: &'a [Text<'s>],
        exprs: &'a [Box<Expr<'s>>],
    ) -> Result<(), AllocError>
        ensures { OnOk result (outcome (job_of self.new) ≡ behind (job_of self.old) (spanned (pen_of (job_of self.old)) (piece.now ∷ pieces.now) (map (inside noted_expr) exprs.now))) }
    {
        match exprs.split_first() {
            Some((expr, exprs)) => self.span(piece, pieces, expr, exprs),
            None => Ok(()),
        }
    }

    /// An expression and the piece behind it. What is left over of either is not printed.
    #[tactic(auto, using(crate::proofs::Planning::spans))]
    fn span(
        &mut self,
        piece: &'a Text<'s>,
        pieces: &'a [Text<'s>],
        expr: &'a Box<Expr<'s>>,
        exprs: &'a [Box<Expr<'s>>],
    ) -> Result<(), AllocError>
        ensures { OnOk result (outcome (job_of self.new) ≡ behind (job_of self.old) (spanned (pen_of (job_of self.old)) (piece.now ∷ pieces.now) (noted_expr expr.now.value ∷ map (inside noted_expr) exprs.now))) }
    {
        if goes_on(pieces, exprs) {
            self.spans(pieces, exprs)?;
            self.piece(piece)?;
            self.sign("}")?;
            self.expr(expr)
        } else {
            Ok(())
        }
    }
}

/// Whether a span that these follow is printed.
#[tactic(auto, using(crate::proofs::Spanning::going))]
fn goes_on(pieces: &[Text<'_>], exprs: &[Box<Expr<'_>>]) -> bool
    ensures { result ≡ goes_on pieces.now exprs.now }
{
    match pieces.split_first() {
        Some(_) => true,
        None => exprs.is_empty(),
    }
}

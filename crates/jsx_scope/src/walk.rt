//! Parentheses: each expression that its place doesn't take gets a pair (ECMA-262 sections 13.2 and 14.5).
//!
//! A function holds one part of a node at a time, so there is one for the first parts of the nodes of a type, one for the
//! second parts, and so on.

ghost use Rattle.std.specs.Prelude.{◌≡◌, OnOk, IfOk, ◌<◌, map, false};
ghost use Rattle.jsx_tree.specs.View.{inside, view_expr, optional_of};
ghost use Rattle.jsx_scope.specs.Walk.{walk, inner, but_code, with_code};
ghost use Rattle.jsx_scope.specs.declared.place.Place.TheVariants as place;

use crate::opening::is_due;
use crate::pair::pair;
use crate::place::Place;
use jsx_tree::Expr;
use std::alloc::{AllocError, Global};

/// A walk over a tree, with how many levels it may still go down: a tree has fewer than memory has bytes.
#[derive(Clone, Copy)]
pub(crate) struct Walker {
    pub(crate) alloc: Global,
    pub(crate) levels: usize,
}

impl Walker {
    pub(crate) fn below(self) -> Result<Walker, AllocError>
        ensures { IfOk result (λ w. w.levels < self.levels) }
    {
        match self.levels.checked_sub(1) {
            Some(levels) => Ok(Walker { levels, ..self }),
            None => Err(AllocError),
        }
    }

    /// An expression at its place.
    #[cycle(walk)]
    #[tactic(auto, using(crate::proofs::Walks::views))]
    pub(crate) fn expr(
        self,
        place: Place,
        bare: bool,
        expr: &mut Box<Expr<'_>>,
    ) -> Result<(), AllocError>
        ensures { OnOk result (view_expr expr.new.value ≡ walk place bare (view_expr expr.old.value)) }
    {
        let below = self.below()?;
        if is_due(place, bare, expr) {
            below.parts(false, expr)?;
            pair(self.alloc, expr)
        } else {
            below.parts(bare, expr)
        }
    }

    #[cycle(walk)]
    #[tactic(auto, using(crate::proofs::Walks::views))]
    fn parts(self, bare: bool, expr: &mut Expr<'_>) -> Result<(), AllocError>
        ensures { OnOk result (view_expr expr.new ≡ inner bare (view_expr expr.old)) }
    {
        self.first_of_expr(bare, expr)?;
        self.second_of_expr(bare, expr)?;
        self.third_of_expr(expr)
    }

    #[cycle(walk)]
    #[tactic(auto, using(crate::proofs::Walks::views))]
    fn first_of_expr(self, bare: bool, expr: &mut Expr<'_>) -> Result<(), AllocError>
        ensures { OnOk result (view_expr expr.new ≡ but_code bare (view_expr expr.old)) }
    {
        match expr {
            Expr::Operation(operation) => self.operation(bare, operation),
            Expr::Access(access) => self.access(bare, access),
            Expr::Array(_, items) => self.exprs(Place::Level(1), false, items),
            Expr::Object(_, members) => self.members(members),
            Expr::Template(_, _, parts) => self.exprs(Place::Level(0), false, parts),
            Expr::Paren(_, expr) => self.expr(Place::Level(0), false, expr),
            Expr::Ident(..)
            | Expr::Literal(..)
            | Expr::Word(..)
            | Expr::Function(..)
            | Expr::Class(..)
            | Expr::Jsx(..) => Ok(()),
        }
    }

    #[cycle(walk)]
    #[tactic(auto, using(crate::proofs::Walks::views))]
    fn second_of_expr(self, bare: bool, expr: &mut Expr<'_>) -> Result<(), AllocError>
        ensures { OnOk result (view_expr expr.new ≡ with_code 1 bare (view_expr expr.old)) }
    {
        match expr {
            Expr::Function(_, _, parameters, _, _) => self.patterns(false, parameters),
            Expr::Class(_, _, parent, _) => self.optional(Place::Level(17), bare, parent),
            _ => Ok(()),
        }
    }

    #[cycle(walk)]
    #[tactic(auto, using(crate::proofs::Walks::views))]
    fn third_of_expr(self, expr: &mut Expr<'_>) -> Result<(), AllocError>
        ensures { OnOk result (view_expr expr.new ≡ with_code 2 false (view_expr expr.old)) }
    {
        match expr {
            Expr::Function(_, _, _, _, body) => self.body(body),
            Expr::Class(_, _, _, members) => self.members(members),
            _ => Ok(()),
        }
    }

    #[cycle(walk)]
    pub(crate) fn exprs(
        self,
        place: Place,
        bare: bool,
        exprs: &mut Vec<Box<Expr<'_>>>,
    ) -> Result<(), AllocError>
        ensures { OnOk result (map (inside view_expr) exprs.new.items ≡ map (walk place bare) (map (inside view_expr) exprs.old.items)) }
    {
        for expr in exprs.iter_mut() {
            self.expr(place, bare, expr)?;
        }
        Ok(())
    }

    #[cycle(walk)]
    #[tactic(auto, using(crate::proofs::Walks::views))]
    pub(crate) fn optional(
        self,
        place: Place,
        bare: bool,
        expr: &mut Option<Box<Expr<'_>>>,
    ) -> Result<(), AllocError>
        ensures { OnOk result (optional_of view_expr expr.new ≡ walk place bare (optional_of view_expr expr.old)) }
    {
        match expr {
            Some(expr) => self.expr(place, bare, expr),
            None => Ok(()),
        }
    }
}

//! Expressions.
//!
//! A function holds one part of a node at a time, so there is one for the first parts of the nodes of a type, one for the
//! second parts, and so on.

ghost use Rattle.std.specs.Prelude.{◌≡◌, OnOk, map};
ghost use Rattle.jsx_tree.specs.View.{inside, view_expr, optional_of};
ghost use Rattle.jsx_tree.specs.Told.{told_expr, told_optional};
ghost use Rattle.jsx_visit.specs.Visit.{visited, within};
ghost use Rattle.jsx_visit.specs.Parts.{but_code, front_of_code, rest_of_code, kept, kept_each};

use crate::visitor::Visitor;
use crate::walk::Walker;
use jsx_tree::Expr;
use std::alloc::AllocError;

impl Walker {
    /// An expression, after its parts.
    #[cycle(walk)]
    #[tactic(auto, using(crate::proofs::Visits::visits))]
    pub(crate) fn expr<V: Visitor>(
        self,
        visitor: &mut V,
        expr: &mut Box<Expr<'_>>,
    ) -> Result<(), AllocError>
        ensures seen { OnOk result (view_expr expr.new.value ≡ visited V.made (view_expr expr.old.value)) }
        ensures places { OnOk result (kept V.keeps (told_expr expr.new.value) ≡ kept V.keeps (told_expr expr.old.value)) }
    {
        let below = self.below()?;
        below.parts(visitor, expr)?;
        visitor.expr(self.alloc, expr)
    }

    #[cycle(walk)]
    #[tactic(auto, using(crate::proofs::Visits::visits))]
    fn parts<V: Visitor>(self, visitor: &mut V, expr: &mut Expr<'_>) -> Result<(), AllocError>
        ensures seen { OnOk result (view_expr expr.new ≡ within V.made (view_expr expr.old)) }
        ensures places { OnOk result (kept V.keeps (told_expr expr.new) ≡ kept V.keeps (told_expr expr.old)) }
    {
        self.first_of_expr(visitor, expr)?;
        self.second_of_expr(visitor, expr)?;
        self.third_of_expr(visitor, expr)
    }

    #[cycle(walk)]
    #[tactic(auto, using(crate::proofs::Visits::visits))]
    fn first_of_expr<V: Visitor>(
        self,
        visitor: &mut V,
        expr: &mut Expr<'_>,
    ) -> Result<(), AllocError>
        ensures seen { OnOk result (view_expr expr.new ≡ but_code V.made (view_expr expr.old)) }
        ensures places { OnOk result (kept V.keeps (told_expr expr.new) ≡ kept V.keeps (told_expr expr.old)) }
    {
        match expr {
            Expr::Operation(operation) => self.operation(visitor, operation),
            Expr::Access(access) => self.access(visitor, access),
            Expr::Array(_, items) => self.exprs(visitor, items),
            Expr::Object(_, members) => self.members(visitor, members),
            Expr::Template(_, _, parts) => self.exprs(visitor, parts),
            Expr::Paren(_, expr) => self.expr(visitor, expr),
            Expr::Ident(..)
            | Expr::Literal(..)
            | Expr::Word(..)
            | Expr::Function(..)
            | Expr::Class(..)
            | Expr::Jsx(..) => Ok(()),
        }
    }

    #[cycle(walk)]
    #[tactic(auto, using(crate::proofs::Visits::visits))]
    fn second_of_expr<V: Visitor>(
        self,
        visitor: &mut V,
        expr: &mut Expr<'_>,
    ) -> Result<(), AllocError>
        ensures seen { OnOk result (view_expr expr.new ≡ front_of_code V.made (view_expr expr.old)) }
        ensures places { OnOk result (kept V.keeps (told_expr expr.new) ≡ kept V.keeps (told_expr expr.old)) }
    {
        match expr {
            Expr::Function(_, _, parameters, _, _) => self.patterns(visitor, parameters),
            Expr::Class(_, _, parent, _) => self.optional(visitor, parent),
            _ => Ok(()),
        }
    }

    #[cycle(walk)]
    #[tactic(auto, using(crate::proofs::Visits::visits))]
    fn third_of_expr<V: Visitor>(
        self,
        visitor: &mut V,
        expr: &mut Expr<'_>,
    ) -> Result<(), AllocError>
        ensures seen { OnOk result (view_expr expr.new ≡ rest_of_code V.made (view_expr expr.old)) }
        ensures places { OnOk result (kept V.keeps (told_expr expr.new) ≡ kept V.keeps (told_expr expr.old)) }
    {
        match expr {
            Expr::Function(_, _, _, _, body) => self.stmts(visitor, body),
            Expr::Class(_, _, _, members) => self.members(visitor, members),
            _ => Ok(()),
        }
    }

    #[cycle(walk)]
    pub(crate) fn exprs<V: Visitor>(
        self,
        visitor: &mut V,
        exprs: &mut Vec<Box<Expr<'_>>>,
    ) -> Result<(), AllocError>
        ensures seen { OnOk result (map (inside view_expr) exprs.new.items ≡ map (visited V.made) (map (inside view_expr) exprs.old.items)) }
        ensures places { OnOk result (kept_each V.keeps (inside told_expr) exprs.new.items ≡ kept_each V.keeps (inside told_expr) exprs.old.items) }
    {
        for expr in exprs.iter_mut() {
            self.expr(visitor, expr)?;
        }
        Ok(())
    }

    #[cycle(walk)]
    #[tactic(auto, using(crate::proofs::Visits::visits))]
    pub(crate) fn optional<V: Visitor>(
        self,
        visitor: &mut V,
        expr: &mut Option<Box<Expr<'_>>>,
    ) -> Result<(), AllocError>
        ensures seen { OnOk result (optional_of view_expr expr.new ≡ visited V.made (optional_of view_expr expr.old)) }
        ensures places { OnOk result (kept V.keeps (told_optional told_expr expr.new) ≡ kept V.keeps (told_optional told_expr expr.old)) }
    {
        match expr {
            Some(expr) => self.expr(visitor, expr),
            None => Ok(()),
        }
    }
}

//! Statements.

ghost use Rattle.std.specs.Prelude.{◌≡◌, OnOk, map};
ghost use Rattle.jsx_tree.specs.View.{inside, optional_of, view_stmt};
ghost use Rattle.jsx_tree.specs.Told.{told_stmt, told_optional};
ghost use Rattle.jsx_visit.specs.Visit.{visited, within};
ghost use Rattle.jsx_visit.specs.Parts.{but_code, front_of_code, rest_of_code, kept, kept_each};

use crate::visitor::Visitor;
use crate::walk::Walker;
use jsx_tree::Stmt;
use std::alloc::AllocError;

impl Walker {
    #[cycle(walk)]
    pub(crate) fn stmt<V: Visitor>(
        self,
        visitor: &mut V,
        stmt: &mut Box<Stmt<'_>>,
    ) -> Result<(), AllocError>
        ensures seen { OnOk result (view_stmt stmt.new.value ≡ visited V.made (view_stmt stmt.old.value)) }
        ensures places { OnOk result (kept V.keeps (told_stmt stmt.new.value) ≡ kept V.keeps (told_stmt stmt.old.value)) }
    {
        let below = self.below()?;
        below.parts_of_stmt(visitor, stmt)
    }

    #[cycle(walk)]
    fn parts_of_stmt<V: Visitor>(
        self,
        visitor: &mut V,
        stmt: &mut Stmt<'_>,
    ) -> Result<(), AllocError>
        ensures seen { OnOk result (view_stmt stmt.new ≡ within V.made (view_stmt stmt.old)) }
        ensures places { OnOk result (kept V.keeps (told_stmt stmt.new) ≡ kept V.keeps (told_stmt stmt.old)) }
    {
        self.first_of_stmt(visitor, stmt)?;
        self.second_of_stmt(visitor, stmt)?;
        self.third_of_stmt(visitor, stmt)
    }

    #[cycle(walk)]
    #[tactic(auto, using(crate::proofs::Visits::visits))]
    fn first_of_stmt<V: Visitor>(
        self,
        visitor: &mut V,
        stmt: &mut Stmt<'_>,
    ) -> Result<(), AllocError>
        ensures seen { OnOk result (view_stmt stmt.new ≡ but_code V.made (view_stmt stmt.old)) }
        ensures places { OnOk result (kept V.keeps (told_stmt stmt.new) ≡ kept V.keeps (told_stmt stmt.old)) }
    {
        match stmt {
            Stmt::Block(_, body) => self.stmts(visitor, body),
            Stmt::Var(_, _, declarators) => self.patterns(visitor, declarators),
            Stmt::Expr(_, expr) => self.expr(visitor, expr),
            Stmt::Control(control) => self.control(visitor, control),
            Stmt::Return(_, value) => self.optional(visitor, value),
            Stmt::Throw(_, value) => self.expr(visitor, value),
            Stmt::Empty(..)
            | Stmt::Continue(..)
            | Stmt::Break(..)
            | Stmt::Debugger(..)
            | Stmt::Function(..)
            | Stmt::Class(..) => Ok(()),
        }
    }

    #[cycle(walk)]
    #[tactic(auto, using(crate::proofs::Visits::visits))]
    fn second_of_stmt<V: Visitor>(
        self,
        visitor: &mut V,
        stmt: &mut Stmt<'_>,
    ) -> Result<(), AllocError>
        ensures seen { OnOk result (view_stmt stmt.new ≡ front_of_code V.made (view_stmt stmt.old)) }
        ensures places { OnOk result (kept V.keeps (told_stmt stmt.new) ≡ kept V.keeps (told_stmt stmt.old)) }
    {
        match stmt {
            Stmt::Function(_, _, parameters, _, _) => self.patterns(visitor, parameters),
            Stmt::Class(_, _, parent, _) => self.optional(visitor, parent),
            _ => Ok(()),
        }
    }

    #[cycle(walk)]
    #[tactic(auto, using(crate::proofs::Visits::visits))]
    fn third_of_stmt<V: Visitor>(
        self,
        visitor: &mut V,
        stmt: &mut Stmt<'_>,
    ) -> Result<(), AllocError>
        ensures seen { OnOk result (view_stmt stmt.new ≡ rest_of_code V.made (view_stmt stmt.old)) }
        ensures places { OnOk result (kept V.keeps (told_stmt stmt.new) ≡ kept V.keeps (told_stmt stmt.old)) }
    {
        match stmt {
            Stmt::Function(_, _, _, _, body) => self.stmts(visitor, body),
            Stmt::Class(_, _, _, members) => self.members(visitor, members),
            _ => Ok(()),
        }
    }

    #[cycle(walk)]
    pub(crate) fn stmts<V: Visitor>(
        self,
        visitor: &mut V,
        stmts: &mut Vec<Box<Stmt<'_>>>,
    ) -> Result<(), AllocError>
        ensures seen { OnOk result (map (inside view_stmt) stmts.new.items ≡ map (visited V.made) (map (inside view_stmt) stmts.old.items)) }
        ensures places { OnOk result (kept_each V.keeps (inside told_stmt) stmts.new.items ≡ kept_each V.keeps (inside told_stmt) stmts.old.items) }
    {
        for stmt in stmts.iter_mut() {
            self.stmt(visitor, stmt)?;
        }
        Ok(())
    }

    #[cycle(walk)]
    #[tactic(auto, using(crate::proofs::Visits::visits))]
    pub(crate) fn optional_stmt<V: Visitor>(
        self,
        visitor: &mut V,
        stmt: &mut Option<Box<Stmt<'_>>>,
    ) -> Result<(), AllocError>
        ensures seen { OnOk result (optional_of view_stmt stmt.new ≡ visited V.made (optional_of view_stmt stmt.old)) }
        ensures places { OnOk result (kept V.keeps (told_optional told_stmt stmt.new) ≡ kept V.keeps (told_optional told_stmt stmt.old)) }
    {
        match stmt {
            Some(stmt) => self.stmt(visitor, stmt),
            None => Ok(()),
        }
    }
}

//! The parts of statements at their places.

ghost use Rattle.std.specs.Prelude.{◌≡◌, OnOk, map, false};
ghost use Rattle.jsx_tree.specs.Parentheses.{first_no_directive};
ghost use Rattle.jsx_tree.specs.View.{inside, forest, optional_of, view_stmt};
ghost use Rattle.jsx_scope.specs.Walk.{walk, walk_each, inner, but_code, with_code};
ghost use Rattle.jsx_scope.specs.declared.place.Place.TheVariants as place;

use crate::directives::keep_from_directives;
use crate::place::Place;
use crate::walk::Walker;
use jsx_tree::Stmt;
use std::alloc::AllocError;

impl Walker {
    #[cycle(walk)]
    pub(crate) fn stmt(self, bare: bool, stmt: &mut Box<Stmt<'_>>) -> Result<(), AllocError>
        ensures { OnOk result (view_stmt stmt.new.value ≡ walk (place.Level 0) bare (view_stmt stmt.old.value)) }
    {
        let below = self.below()?;
        below.parts_of_stmt(bare, stmt)
    }

    #[cycle(walk)]
    fn parts_of_stmt(self, bare: bool, stmt: &mut Stmt<'_>) -> Result<(), AllocError>
        ensures { OnOk result (view_stmt stmt.new ≡ inner bare (view_stmt stmt.old)) }
    {
        self.first_of_stmt(bare, stmt)?;
        self.second_of_stmt(bare, stmt)?;
        self.third_of_stmt(stmt)
    }

    #[cycle(walk)]
    #[tactic(auto, using(crate::proofs::Walks::views))]
    fn first_of_stmt(self, bare: bool, stmt: &mut Stmt<'_>) -> Result<(), AllocError>
        ensures { OnOk result (view_stmt stmt.new ≡ but_code bare (view_stmt stmt.old)) }
    {
        match stmt {
            Stmt::Block(_, body) => self.stmts(false, body),
            Stmt::Var(_, _, declarators) => self.patterns(bare, declarators),
            Stmt::Expr(_, expr) => self.expr(Place::Statement, bare, expr),
            Stmt::Control(control) => self.control(bare, control),
            Stmt::Return(_, value) => self.optional(Place::Level(0), bare, value),
            Stmt::Throw(_, value) => self.expr(Place::Level(0), bare, value),
            Stmt::Empty(..)
            | Stmt::Continue(..)
            | Stmt::Break(..)
            | Stmt::Debugger(..)
            | Stmt::Function(..)
            | Stmt::Class(..) => Ok(()),
        }
    }

    #[cycle(walk)]
    #[tactic(auto, using(crate::proofs::Walks::views))]
    fn second_of_stmt(self, bare: bool, stmt: &mut Stmt<'_>) -> Result<(), AllocError>
        ensures { OnOk result (view_stmt stmt.new ≡ with_code 1 bare (view_stmt stmt.old)) }
    {
        match stmt {
            Stmt::Function(_, _, parameters, _, _) => self.patterns(false, parameters),
            Stmt::Class(_, _, parent, _) => self.optional(Place::Level(17), bare, parent),
            _ => Ok(()),
        }
    }

    #[cycle(walk)]
    #[tactic(auto, using(crate::proofs::Walks::views))]
    fn third_of_stmt(self, stmt: &mut Stmt<'_>) -> Result<(), AllocError>
        ensures { OnOk result (view_stmt stmt.new ≡ with_code 2 false (view_stmt stmt.old)) }
    {
        match stmt {
            Stmt::Function(_, _, _, _, body) => self.body(body),
            Stmt::Class(_, _, _, members) => self.members(members),
            _ => Ok(()),
        }
    }

    #[cycle(walk)]
    pub(crate) fn stmts(self, bare: bool, stmts: &mut Vec<Box<Stmt<'_>>>) -> Result<(), AllocError>
        ensures { OnOk result (map (inside view_stmt) stmts.new.items ≡ map (walk (place.Level 0) bare) (map (inside view_stmt) stmts.old.items)) }
    {
        for stmt in stmts.iter_mut() {
            self.stmt(bare, stmt)?;
        }
        Ok(())
    }

    #[cycle(walk)]
    #[tactic(auto, using(crate::proofs::Walks::views))]
    pub(crate) fn optional_stmt(
        self,
        bare: bool,
        stmt: &mut Option<Box<Stmt<'_>>>,
    ) -> Result<(), AllocError>
        ensures { OnOk result (optional_of view_stmt stmt.new ≡ walk (place.Level 0) bare (optional_of view_stmt stmt.old)) }
    {
        match stmt {
            Some(stmt) => self.stmt(bare, stmt),
            None => Ok(()),
        }
    }

    /// The statements of a function or a script, of which the first is no directive.
    #[cycle(walk)]
    #[tactic(auto, using(crate::proofs::Walks::views))]
    pub(crate) fn body(self, stmts: &mut Vec<Box<Stmt<'_>>>) -> Result<(), AllocError>
        ensures { OnOk result (forest (map (inside view_stmt) stmts.new.items) ≡ first_no_directive (walk_each (place.Level 0) false (forest (map (inside view_stmt) stmts.old.items)))) }
    {
        self.stmts(false, stmts)?;
        keep_from_directives(self.alloc, stmts)
    }
}

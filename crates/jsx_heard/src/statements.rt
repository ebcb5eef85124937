//! Statements.

ghost use Rattle.std.specs.Prelude.{◌≡◌, ◌++◌, OnOk, map, [], ◌∷◌};
ghost use Rattle.jsx_tree.specs.Told.{tales, told_optional, told_stmt};
ghost use Rattle.jsx_tree.specs.View.{inside, forest, optional_of, view_stmt};
ghost use Rattle.jsx_names.specs.Events.{Plain, OfBlock};
ghost use Rattle.jsx_heard.specs.Code.{exporting};
ghost use Rattle.jsx_heard.specs.Said.{Unnamed, Elsewhere, met_all, said_each, opens, closes, of_statement};

use crate::mode::{Mode, sort_of, way_of};
use crate::names::declares;
use crate::walk::Walker;
use jsx_names::{Event, Frame, Sort};
use jsx_tree::Stmt;
use std::alloc::AllocError;

impl Walker {
    /// A statement (ECMA-262 section 14), or a declaration behind `export`.
    #[cycle(walk)]
    pub(crate) fn stmt<'t>(
        self,
        events: &mut Vec<Event<'t>>,
        is_exported: bool,
        stmt: &'t Stmt<'_>,
    ) -> Result<(), AllocError>
        ensures { OnOk result (met_all events.new.items ≡ met_all events.old.items ++ of_statement (exporting is_exported) (view_stmt stmt.now) (told_stmt stmt.now)) }
    {
        let below = self.below()?;
        match stmt {
            Stmt::Block(_, body) => below.block(events, body),
            Stmt::Var(_, word, declarators) => {
                let mode = Mode::Binding(way_of(is_exported), sort_of(*word));
                below.patterns(events, mode, declarators)
            }
            Stmt::Expr(_, expr) => below.expr(events, expr),
            Stmt::Control(control) => below.control(events, control),
            Stmt::Return(_, value) => below.optional(events, value),
            Stmt::Throw(_, expr) => below.expr(events, expr),
            Stmt::Function(_, name, parameters, _, body) => {
                declares(events, way_of(is_exported), Sort::Function, &name.text)?;
                below.code(events, parameters, body)
            }
            Stmt::Class(_, name, parent, members) => {
                declares(events, way_of(is_exported), Sort::Lexical, &name.text)?;
                below.inside_class(events, parent, members)
            }
            Stmt::Empty(..) | Stmt::Continue(..) | Stmt::Break(..) | Stmt::Debugger(..) => Ok(()),
        }
    }

    #[cycle(walk)]
    pub(crate) fn stmts<'t>(
        self,
        events: &mut Vec<Event<'t>>,
        stmts: &'t [Box<Stmt<'_>>],
    ) -> Result<(), AllocError>
        ensures { OnOk result (met_all events.new.items ≡ met_all events.old.items ++ said_each Plain Unnamed Elsewhere (forest (map (inside view_stmt) stmts.now)) (tales (map (inside told_stmt) stmts.now))) }
    {
        for stmt in stmts {
            self.stmt(events, false, stmt)?;
        }
        Ok(())
    }

    /// The statements of a block, in a scope of their own (ECMA-262 section 14.2).
    #[cycle(walk)]
    fn block<'t>(
        self,
        events: &mut Vec<Event<'t>>,
        body: &'t [Box<Stmt<'_>>],
    ) -> Result<(), AllocError>
        ensures { OnOk result (met_all events.new.items ≡ met_all events.old.items ++ opens OfBlock ∷ (said_each Plain Unnamed Elsewhere (forest (map (inside view_stmt) body.now)) (tales (map (inside told_stmt) body.now)) ++ closes ∷ [])) }
    {
        events.push(Event::Opens(Frame::Block))?;
        self.stmts(events, body)?;
        events.push(Event::Closes)?;
        Ok(())
    }

    #[cycle(walk)]
    pub(crate) fn optional_stmt<'t>(
        self,
        events: &mut Vec<Event<'t>>,
        stmt: &'t Option<Box<Stmt<'_>>>,
    ) -> Result<(), AllocError>
        ensures { OnOk result (met_all events.new.items ≡ met_all events.old.items ++ of_statement Plain (optional_of view_stmt stmt.now) (told_optional told_stmt stmt.now)) }
    {
        match stmt {
            Some(stmt) => self.stmt(events, false, stmt),
            None => Ok(()),
        }
    }
}

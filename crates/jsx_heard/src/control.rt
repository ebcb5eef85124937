//! Statements that hold others, and their clauses.

ghost use Rattle.std.specs.Prelude.{◌≡◌, ◌++◌, OnOk, map, [], ◌∷◌};
ghost use Rattle.jsx_tree.specs.Kinds.{Assigns, Binds};
ghost use Rattle.jsx_tree.specs.Scopes.{AsLexical};
ghost use Rattle.jsx_tree.specs.Told.{tales, told_control, told_expr, told_optional, told_pat, told_stmt};
ghost use Rattle.jsx_tree.specs.View.{inside, forest, optional_at_of, optional_of, view_control, view_expr, view_pattern, view_stmt};
ghost use Rattle.jsx_names.specs.Events.{Plain, Binding, InHead, OfBlock, OfCatch};
ghost use Rattle.jsx_heard.specs.Said.{Idents, Unnamed, Elsewhere, InCatch, met_all, said, said_each, opens, enters, closes, of_statement, of_value};

use crate::mode::{Mode, Way};
use crate::walk::Walker;
use jsx_names::{Event, Frame, Sort};
use jsx_tree::{Control, Expr, Pat, Stmt};
use std::alloc::AllocError;

impl Walker {
    #[cycle(walk)]
    pub(crate) fn control<'t>(
        self,
        events: &mut Vec<Event<'t>>,
        control: &'t Control<'_>,
    ) -> Result<(), AllocError>
        ensures { OnOk result (met_all events.new.items ≡ met_all events.old.items ++ of_statement Plain (view_control control.now) (told_control control.now)) }
    {
        let below = self.below()?;
        match control {
            Control::If(_, test, body, other) => {
                below.expr(events, test)?;
                below.stmt(events, false, body)?;
                below.optional_stmt(events, other)
            }
            Control::Do(_, body, test) => {
                below.stmt(events, false, body)?;
                below.expr(events, test)
            }
            Control::While(_, test, body) => {
                below.expr(events, test)?;
                below.stmt(events, false, body)
            }
            Control::Label(_, _, body) => below.stmt(events, false, body),
            Control::Case(_, test, body) => {
                below.optional(events, test)?;
                below.stmts(events, body)
            }
            Control::Try(_, body, handler, finalizer) => {
                below.attempt(events, body, handler, finalizer)
            }
            Control::For(_, init, test, update, body) => {
                below.for_loop(events, init, test, update, body)
            }
            Control::ForIn(_, head, value, body) => below.for_each(events, head, value, body),
            Control::ForOf(_, head, value, body) => below.for_each(events, head, value, body),
            Control::Switch(_, value, clauses) => below.switch(events, value, clauses),
            Control::Catch(_, pattern, body) => below.caught(events, pattern, body),
        }
    }

    #[cycle(walk)]
    fn attempt<'t>(
        self,
        events: &mut Vec<Event<'t>>,
        body: &'t Stmt<'_>,
        handler: &'t Option<Box<Control<'_>>>,
        finalizer: &'t Option<Box<Stmt<'_>>>,
    ) -> Result<(), AllocError>
        ensures { OnOk result (met_all events.new.items ≡ met_all events.old.items ++ (of_statement Plain (view_stmt body.now) (told_stmt body.now) ++ (of_statement Plain (optional_of view_control handler.now) (told_optional told_control handler.now) ++ of_statement Plain (optional_of view_stmt finalizer.now) (told_optional told_stmt finalizer.now)))) }
    {
        self.stmt(events, false, body)?;
        self.optional_control(events, handler)?;
        self.optional_stmt(events, finalizer)
    }

    /// `for (a; b; c) d;` (ECMA-262 section 14.7.4)
    #[cycle(walk)]
    fn for_loop<'t>(
        self,
        events: &mut Vec<Event<'t>>,
        init: &'t Option<Box<Pat<'_>>>,
        test: &'t Option<Box<Expr<'_>>>,
        update: &'t Option<Box<Expr<'_>>>,
        body: &'t Stmt<'_>,
    ) -> Result<(), AllocError>
        ensures { OnOk result (met_all events.new.items ≡ met_all events.old.items ++ opens OfBlock ∷ (of_value (optional_at_of Assigns view_pattern init.now) (told_optional told_pat init.now) ++ (of_value (optional_of view_expr test.now) (told_optional told_expr test.now) ++ (of_value (optional_of view_expr update.now) (told_optional told_expr update.now) ++ (of_statement Plain (view_stmt body.now) (told_stmt body.now) ++ closes ∷ []))))) }
    {
        events.push(Event::Opens(Frame::Block))?;
        self.optional_pattern(events, Mode::Plain, init)?;
        self.optional(events, test)?;
        self.optional(events, update)?;
        self.stmt(events, false, body)?;
        events.push(Event::Closes)?;
        Ok(())
    }

    /// `for (a in b) c;` and `for (a of b) c;` (ECMA-262 section 14.7.5)
    #[cycle(walk)]
    fn for_each<'t>(
        self,
        events: &mut Vec<Event<'t>>,
        head: &'t Pat<'_>,
        value: &'t Expr<'_>,
        body: &'t Stmt<'_>,
    ) -> Result<(), AllocError>
        ensures { OnOk result (met_all events.new.items ≡ met_all events.old.items ++ opens OfBlock ∷ (of_value (view_pattern head.now Assigns) (told_pat head.now) ++ (of_value (view_expr value.now) (told_expr value.now) ++ (of_statement Plain (view_stmt body.now) (told_stmt body.now) ++ closes ∷ [])))) }
    {
        events.push(Event::Opens(Frame::Block))?;
        self.pattern(events, Mode::Plain, head)?;
        self.expr(events, value)?;
        self.stmt(events, false, body)?;
        events.push(Event::Closes)?;
        Ok(())
    }

    /// The cases of a `switch` are one scope, and what is looked at stands outside of it (ECMA-262 section 14.12).
    #[cycle(walk)]
    fn switch<'t>(
        self,
        events: &mut Vec<Event<'t>>,
        value: &'t Expr<'_>,
        clauses: &'t [Box<Control<'_>>],
    ) -> Result<(), AllocError>
        ensures { OnOk result (met_all events.new.items ≡ met_all events.old.items ++ (of_value (view_expr value.now) (told_expr value.now) ++ opens OfBlock ∷ (said_each Plain Unnamed Elsewhere (forest (map (inside view_control) clauses.now)) (tales (map (inside told_control) clauses.now)) ++ closes ∷ []))) }
    {
        self.expr(events, value)?;
        events.push(Event::Opens(Frame::Block))?;
        self.controls(events, clauses)?;
        events.push(Event::Closes)?;
        Ok(())
    }

    /// The pattern of a catch clause, and its block, which is no further scope (ECMA-262 section 14.15).
    #[cycle(walk)]
    fn caught<'t>(
        self,
        events: &mut Vec<Event<'t>>,
        pattern: &'t Option<Box<Pat<'_>>>,
        body: &'t Stmt<'_>,
    ) -> Result<(), AllocError>
        ensures { OnOk result (met_all events.new.items ≡ met_all events.old.items ++ opens OfCatch ∷ (said (Binding InHead AsLexical) Idents Elsewhere (optional_at_of Binds view_pattern pattern.now) (told_optional told_pat pattern.now) ++ enters ∷ (said Plain Unnamed InCatch (view_stmt body.now) (told_stmt body.now) ++ closes ∷ []))) }
    {
        let mode = Mode::Binding(Way::InHead, Sort::Lexical);
        events.push(Event::Opens(Frame::Catch))?;
        self.optional_pattern(events, mode, pattern)?;
        events.push(Event::Enters)?;
        self.caught_body(events, body)?;
        events.push(Event::Closes)?;
        Ok(())
    }

    #[cycle(walk)]
    fn caught_body<'t>(
        self,
        events: &mut Vec<Event<'t>>,
        body: &'t Stmt<'_>,
    ) -> Result<(), AllocError>
        ensures { OnOk result (met_all events.new.items ≡ met_all events.old.items ++ said Plain Unnamed InCatch (view_stmt body.now) (told_stmt body.now)) }
    {
        match body {
            Stmt::Block(_, body) => self.stmts(events, body),
            _ => self.stmt(events, false, body),
        }
    }

    #[cycle(walk)]
    fn controls<'t>(
        self,
        events: &mut Vec<Event<'t>>,
        controls: &'t [Box<Control<'_>>],
    ) -> Result<(), AllocError>
        ensures { OnOk result (met_all events.new.items ≡ met_all events.old.items ++ said_each Plain Unnamed Elsewhere (forest (map (inside view_control) controls.now)) (tales (map (inside told_control) controls.now))) }
    {
        for control in controls {
            self.control(events, control)?;
        }
        Ok(())
    }

    #[cycle(walk)]
    fn optional_control<'t>(
        self,
        events: &mut Vec<Event<'t>>,
        control: &'t Option<Box<Control<'_>>>,
    ) -> Result<(), AllocError>
        ensures { OnOk result (met_all events.new.items ≡ met_all events.old.items ++ of_statement Plain (optional_of view_control control.now) (told_optional told_control control.now)) }
    {
        match control {
            Some(control) => self.control(events, control),
            None => Ok(()),
        }
    }
}

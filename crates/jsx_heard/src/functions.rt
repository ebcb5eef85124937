//! Functions: their names stand outside of their scopes, and their parameters don't see what their bodies declare.

ghost use Rattle.std.specs.Prelude.{◌≡◌, ◌++◌, OnOk, List, Option, map, [], ◌∷◌};
ghost use Rattle.jsx_base.specs.declared.place.Span.{Span};
ghost use Rattle.jsx_tree.specs.Kinds.{Binds, FunctionExpr, function, node, list, part, none};
ghost use Rattle.jsx_tree.specs.Scopes.{AsLexical, AsParameter};
ghost use Rattle.jsx_tree.specs.Told.{tales, told_body, told_expr, told_ident, told_list, told_node, told_optional, told_pat, told_stmt};
ghost use Rattle.jsx_tree.specs.View.{inside, forest, forest_at, name_of, optional_of, body, view_expr, view_pattern, view_stmt};
ghost use Rattle.jsx_tree.specs.declared.text.Text as code;
ghost use Rattle.jsx_names.specs.Events.{Plain, Binding, InHead, OfFunction, Simply};
ghost use Rattle.jsx_heard.specs.Said.{Idents, Unnamed, Elsewhere, met_all, opens, enters, closes, said, said_each, of_value};

use crate::mode::{Mode, Way};
use crate::names::declares;
use crate::walk::Walker;
use jsx_names::{Event, Frame, Sort};
use jsx_tree::{Expr, Ident, Pat, Stmt};
use std::alloc::AllocError;

const PARAMETER: Mode = Mode::Binding(Way::InHead, Sort::Parameter);

/// The name of a function or class expression, which it alone sees (ECMA-262 sections 15.2.5 and 15.7.14).
pub(crate) fn own_name<'t>(
    events: &mut Vec<Event<'t>>,
    name: &'t Option<Box<Ident<'_>>>,
) -> Result<(), AllocError>
    ensures { OnOk result (met_all events.new.items ≡ met_all events.old.items ++ said (Binding Simply AsLexical) Idents Elsewhere (optional_of name_of name.now) (told_optional told_ident name.now)) }
{
    match name {
        Some(name) => declares(events, Way::Simply, Sort::Lexical, &name.text),
        None => Ok(()),
    }
}

impl Walker {
    /// The parameters and the statements of a function (ECMA-262 section 15.1).
    #[cycle(walk)]
    pub(crate) fn code<'t>(
        self,
        events: &mut Vec<Event<'t>>,
        parameters: &'t [Box<Pat<'_>>],
        body: &'t [Box<Stmt<'_>>],
    ) -> Result<(), AllocError>
        ensures { OnOk result (met_all events.new.items ≡ met_all events.old.items ++ opens OfFunction ∷ (said_each (Binding InHead AsParameter) Idents Elsewhere (forest_at Binds (map (inside view_pattern) parameters.now)) (tales (map (inside told_pat) parameters.now)) ++ enters ∷ (said_each Plain Unnamed Elsewhere (forest (map (inside view_stmt) body.now)) (tales (map (inside told_stmt) body.now)) ++ closes ∷ []))) }
    {
        events.push(Event::Opens(Frame::Function))?;
        self.patterns(events, PARAMETER, parameters)?;
        events.push(Event::Enters)?;
        self.stmts(events, body)?;
        events.push(Event::Closes)?;
        Ok(())
    }

    /// `a => { b; }`
    #[cycle(walk)]
    pub(crate) fn bare_code<'t>(
        self,
        events: &mut Vec<Event<'t>>,
        parameter: &'t Ident<'_>,
        body: &'t [Box<Stmt<'_>>],
    ) -> Result<(), AllocError>
        ensures { OnOk result (met_all events.new.items ≡ met_all events.old.items ++ opens OfFunction ∷ (said (Binding InHead AsParameter) Idents Elsewhere (name_of parameter.now) (told_ident parameter.now) ++ enters ∷ (said_each Plain Unnamed Elsewhere (forest (map (inside view_stmt) body.now)) (tales (map (inside told_stmt) body.now)) ++ closes ∷ []))) }
    {
        events.push(Event::Opens(Frame::Function))?;
        declares(events, Way::InHead, Sort::Parameter, &parameter.text)?;
        events.push(Event::Enters)?;
        self.stmts(events, body)?;
        events.push(Event::Closes)?;
        Ok(())
    }

    /// `(a, b) => c`
    #[cycle(walk)]
    pub(crate) fn arrow<'t>(
        self,
        events: &mut Vec<Event<'t>>,
        parameters: &'t [Box<Pat<'_>>],
        value: &'t Expr<'_>,
    ) -> Result<(), AllocError>
        ensures { OnOk result (met_all events.new.items ≡ met_all events.old.items ++ opens OfFunction ∷ (said_each (Binding InHead AsParameter) Idents Elsewhere (forest_at Binds (map (inside view_pattern) parameters.now)) (tales (map (inside told_pat) parameters.now)) ++ enters ∷ (of_value (view_expr value.now) (told_expr value.now) ++ closes ∷ []))) }
    {
        events.push(Event::Opens(Frame::Function))?;
        self.patterns(events, PARAMETER, parameters)?;
        events.push(Event::Enters)?;
        self.expr(events, value)?;
        events.push(Event::Closes)?;
        Ok(())
    }

    /// `a => b`
    #[cycle(walk)]
    pub(crate) fn bare_arrow<'t>(
        self,
        events: &mut Vec<Event<'t>>,
        parameter: &'t Ident<'_>,
        value: &'t Expr<'_>,
    ) -> Result<(), AllocError>
        ensures { OnOk result (met_all events.new.items ≡ met_all events.old.items ++ opens OfFunction ∷ (said (Binding InHead AsParameter) Idents Elsewhere (name_of parameter.now) (told_ident parameter.now) ++ enters ∷ (of_value (view_expr value.now) (told_expr value.now) ++ closes ∷ []))) }
    {
        events.push(Event::Opens(Frame::Function))?;
        declares(events, Way::InHead, Sort::Parameter, &parameter.text)?;
        events.push(Event::Enters)?;
        self.expr(events, value)?;
        events.push(Event::Closes)?;
        Ok(())
    }

    /// A function expression, round which its own name is seen (ECMA-262 section 15.2.5).
    #[cycle(walk)]
    pub(crate) fn function<'t>(
        self,
        events: &mut Vec<Event<'t>>,
        name: &'t Option<Box<Ident<'_>>>,
        parameters: &'t [Box<Pat<'_>>],
        statements: &'t [Box<Stmt<'_>>],
    ) -> Result<(), AllocError>
        ensures { OnOk result ((ds : List code.Text) (at : Option Span) → met_all events.new.items ≡ met_all events.old.items ++ of_value (node (function FunctionExpr) (part (optional_of name_of name.now) (part (list (forest_at Binds (map (inside view_pattern) parameters.now))) (part (body ds (map (inside view_stmt) statements.now)) none)))) (told_node at (told_optional told_ident name.now ∷ told_list (map (inside told_pat) parameters.now) ∷ told_body ds (map (inside told_stmt) statements.now) ∷ []))) }
    {
        events.push(Event::Opens(Frame::OwnName))?;
        own_name(events, name)?;
        self.code(events, parameters, statements)?;
        events.push(Event::Closes)?;
        Ok(())
    }
}

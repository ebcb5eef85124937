//! Expressions.

ghost use Rattle.std.specs.Prelude.{◌≡◌, ◌++◌, OnOk, map, Bool, Option};
ghost use Rattle.jsx_base.specs.declared.place.Span.{Span};
ghost use Rattle.jsx_tree.specs.Told.{tales, told_expr, told_optional, told_template};
ghost use Rattle.jsx_tree.specs.View.{inside, forest, optional_of, template, view_expr};
ghost use Rattle.jsx_names.specs.Events.{Plain};
ghost use Rattle.jsx_heard.specs.Said.{Idents, Elsewhere, met_all, said_each, of_value};

use crate::names::refers;
use crate::walk::Walker;
use jsx_names::Event;
use jsx_tree::{Expr, Text};
use std::alloc::AllocError;

impl Walker {
    /// An expression (ECMA-262 section 13).
    #[cycle(walk)]
    pub(crate) fn expr<'t>(
        self,
        events: &mut Vec<Event<'t>>,
        expr: &'t Expr<'_>,
    ) -> Result<(), AllocError>
        ensures { OnOk result (met_all events.new.items ≡ met_all events.old.items ++ of_value (view_expr expr.now) (told_expr expr.now)) }
    {
        let below = self.below()?;
        match expr {
            Expr::Ident(_, name) => refers(events, &name.text),
            Expr::Literal(..) => Ok(()),
            Expr::Word(..) => Ok(()),
            Expr::Operation(operation) => below.operation(events, operation),
            Expr::Access(access) => below.access(events, access),
            Expr::Array(_, items) => below.exprs(events, items),
            Expr::Object(_, members) => below.members(events, members),
            Expr::Template(_, pieces, parts) => below.template(events, pieces, parts),
            Expr::Function(_, name, parameters, _, body) => {
                below.function(events, name, parameters, body)
            }
            Expr::Class(_, name, parent, members) => below.class(events, name, parent, members),
            Expr::Jsx(jsx) => below.jsx(events, jsx),
            Expr::Paren(_, expr) => below.expr(events, expr),
        }
    }

    #[cycle(walk)]
    pub(crate) fn exprs<'t>(
        self,
        events: &mut Vec<Event<'t>>,
        exprs: &'t [Box<Expr<'_>>],
    ) -> Result<(), AllocError>
        ensures { OnOk result (met_all events.new.items ≡ met_all events.old.items ++ said_each Plain Idents Elsewhere (forest (map (inside view_expr) exprs.now)) (tales (map (inside told_expr) exprs.now))) }
    {
        for expr in exprs {
            self.expr(events, expr)?;
        }
        Ok(())
    }

    /// The expressions of a template: as many as stand between its pieces.
    #[cycle(walk)]
    pub(crate) fn template<'t>(
        self,
        events: &mut Vec<Event<'t>>,
        pieces: &[Text<'_>],
        parts: &'t [Box<Expr<'_>>],
    ) -> Result<(), AllocError>
        ensures { OnOk result ((tagged : Bool) (at : Option Span) → met_all events.new.items ≡ met_all events.old.items ++ of_value (template tagged pieces.now (map (inside view_expr) parts.now)) (told_template at pieces.now (map (inside told_expr) parts.now))) }
    {
        if parts.len() < pieces.len() {
            self.exprs(events, parts)
        } else {
            self.exprs(events, &parts[..pieces.len().saturating_sub(2)])
        }
    }

    #[cycle(walk)]
    pub(crate) fn optional<'t>(
        self,
        events: &mut Vec<Event<'t>>,
        expr: &'t Option<Box<Expr<'_>>>,
    ) -> Result<(), AllocError>
        ensures { OnOk result (met_all events.new.items ≡ met_all events.old.items ++ of_value (optional_of view_expr expr.now) (told_optional told_expr expr.now)) }
    {
        match expr {
            Some(expr) => self.expr(events, expr),
            None => Ok(()),
        }
    }
}

//! Classes.

ghost use Rattle.std.specs.Prelude.{◌≡◌, ◌++◌, OnOk, Option, map, [], ◌∷◌};
ghost use Rattle.jsx_base.specs.declared.place.Span.{Span};
ghost use Rattle.jsx_tree.specs.Kinds.{ClassExpr, function, node, list, part, none};
ghost use Rattle.jsx_tree.specs.Told.{tales, told_expr, told_ident, told_list, told_node, told_optional, told_prop};
ghost use Rattle.jsx_tree.specs.View.{inside, members_of_class, name_of, optional_of, view_expr, view_member};
ghost use Rattle.jsx_names.specs.Events.{Plain};
ghost use Rattle.jsx_heard.specs.Said.{Unnamed, Elsewhere, InDefault, met_all, said, said_each, of_value};

use crate::functions::own_name;
use crate::walk::Walker;
use jsx_names::{Event, Frame};
use jsx_tree::{Expr, Ident, Prop};
use std::alloc::AllocError;

impl Walker {
    /// What a class extends, and its members (ECMA-262 section 15.7).
    #[cycle(walk)]
    pub(crate) fn inside_class<'t>(
        self,
        events: &mut Vec<Event<'t>>,
        parent: &'t Option<Box<Expr<'_>>>,
        members: &'t [Box<Prop<'_>>],
    ) -> Result<(), AllocError>
        ensures { OnOk result (met_all events.new.items ≡ met_all events.old.items ++ (of_value (optional_of view_expr parent.now) (told_optional told_expr parent.now) ++ said_each Plain Unnamed Elsewhere (members_of_class (map (inside view_member) members.now)) (tales (map (inside told_prop) members.now)))) }
    {
        self.optional(events, parent)?;
        self.members(events, members)
    }

    /// A class with its name, in the scope around it.
    #[cycle(walk)]
    pub(crate) fn named_class<'t>(
        self,
        events: &mut Vec<Event<'t>>,
        name: &'t Option<Box<Ident<'_>>>,
        parent: &'t Option<Box<Expr<'_>>>,
        members: &'t [Box<Prop<'_>>],
    ) -> Result<(), AllocError>
        ensures { OnOk result ((at : Option Span) → met_all events.new.items ≡ met_all events.old.items ++ said Plain Unnamed InDefault (node (function ClassExpr) (part (optional_of name_of name.now) (part (optional_of view_expr parent.now) (part (list (members_of_class (map (inside view_member) members.now))) none)))) (told_node at (told_optional told_ident name.now ∷ told_optional told_expr parent.now ∷ told_list (map (inside told_prop) members.now) ∷ []))) }
    {
        own_name(events, name)?;
        self.inside_class(events, parent, members)
    }

    /// A class expression, in which its own name is seen.
    #[cycle(walk)]
    pub(crate) fn class<'t>(
        self,
        events: &mut Vec<Event<'t>>,
        name: &'t Option<Box<Ident<'_>>>,
        parent: &'t Option<Box<Expr<'_>>>,
        members: &'t [Box<Prop<'_>>],
    ) -> Result<(), AllocError>
        ensures { OnOk result ((at : Option Span) → met_all events.new.items ≡ met_all events.old.items ++ of_value (node (function ClassExpr) (part (optional_of name_of name.now) (part (optional_of view_expr parent.now) (part (list (members_of_class (map (inside view_member) members.now))) none)))) (told_node at (told_optional told_ident name.now ∷ told_optional told_expr parent.now ∷ told_list (map (inside told_prop) members.now) ∷ []))) }
    {
        events.push(Event::Opens(Frame::OwnName))?;
        self.named_class(events, name, parent, members)?;
        events.push(Event::Closes)?;
        Ok(())
    }
}

//! Members of objects and classes.

ghost use Rattle.std.specs.Prelude.{◌≡◌, ◌++◌, OnOk, map, [], ◌∷◌};
ghost use Rattle.jsx_tree.specs.Kinds.{Binds};
ghost use Rattle.jsx_tree.specs.Scopes.{AsParameter};
ghost use Rattle.jsx_tree.specs.Told.{tales, told_key, told_pat, told_prop, told_stmt};
ghost use Rattle.jsx_tree.specs.View.{inside, forest, members_of_class, members_of_object, view_key, view_member, view_pattern, view_stmt, OfClass, OfObject};
ghost use Rattle.jsx_names.specs.Events.{Plain, Binding, InHead, OfFunction};
ghost use Rattle.jsx_heard.specs.Said.{Idents, Unnamed, Elsewhere, met_all, opens, enters, closes, said, said_each};

use crate::mode::{Mode, Way};
use crate::names::refers;
use crate::walk::Walker;
use jsx_names::{Event, Frame, Sort};
use jsx_tree::{Key, Pat, Prop, Stmt};
use std::alloc::AllocError;

impl Walker {
    /// A member: its key is outside of its scope (ECMA-262 section 15.4).
    #[cycle(walk)]
    fn member<'t>(self, events: &mut Vec<Event<'t>>, member: &'t Prop<'_>) -> Result<(), AllocError>
        ensures of_object { OnOk result (met_all events.new.items ≡ met_all events.old.items ++ said Plain Unnamed Elsewhere (view_member member.now OfObject) (told_prop member.now)) }
        ensures of_class { OnOk result (met_all events.new.items ≡ met_all events.old.items ++ said Plain Unnamed Elsewhere (view_member member.now OfClass) (told_prop member.now)) }
    {
        match member {
            Prop::Pair(_, key, value) => {
                self.key(events, key)?;
                self.expr(events, value)
            }
            Prop::Shorthand(_, name) => refers(events, &name.text),
            Prop::Spread(_, expr) => self.expr(events, expr),
            Prop::Method(_, _, key, parameters, _, body) => {
                self.key(events, key)?;
                self.code(events, parameters, body)
            }
            Prop::Getter(_, _, key, _, body) => {
                self.key(events, key)?;
                self.getter(events, body)
            }
            Prop::Setter(_, _, key, parameter, _, body) => {
                self.key(events, key)?;
                self.setter(events, parameter, body)
            }
            Prop::Field(_, _, key, value) => {
                self.key(events, key)?;
                self.optional(events, value)
            }
        }
    }

    /// The statements of a getter.
    #[cycle(walk)]
    fn getter<'t>(
        self,
        events: &mut Vec<Event<'t>>,
        body: &'t [Box<Stmt<'_>>],
    ) -> Result<(), AllocError>
        ensures { OnOk result (met_all events.new.items ≡ met_all events.old.items ++ opens OfFunction ∷ (enters ∷ (said_each Plain Unnamed Elsewhere (forest (map (inside view_stmt) body.now)) (tales (map (inside told_stmt) body.now)) ++ closes ∷ []))) }
    {
        events.push(Event::Opens(Frame::Function))?;
        events.push(Event::Enters)?;
        self.stmts(events, body)?;
        events.push(Event::Closes)?;
        Ok(())
    }

    /// The parameter and the statements of a setter.
    #[cycle(walk)]
    fn setter<'t>(
        self,
        events: &mut Vec<Event<'t>>,
        parameter: &'t Pat<'_>,
        body: &'t [Box<Stmt<'_>>],
    ) -> Result<(), AllocError>
        ensures { OnOk result (met_all events.new.items ≡ met_all events.old.items ++ opens OfFunction ∷ (said (Binding InHead AsParameter) Idents Elsewhere (view_pattern parameter.now Binds) (told_pat parameter.now) ++ enters ∷ (said_each Plain Unnamed Elsewhere (forest (map (inside view_stmt) body.now)) (tales (map (inside told_stmt) body.now)) ++ closes ∷ []))) }
    {
        events.push(Event::Opens(Frame::Function))?;
        let mode = Mode::Binding(Way::InHead, Sort::Parameter);
        self.pattern(events, mode, parameter)?;
        events.push(Event::Enters)?;
        self.stmts(events, body)?;
        events.push(Event::Closes)?;
        Ok(())
    }

    #[cycle(walk)]
    pub(crate) fn key<'t>(
        self,
        events: &mut Vec<Event<'t>>,
        key: &'t Key<'_>,
    ) -> Result<(), AllocError>
        ensures { OnOk result (met_all events.new.items ≡ met_all events.old.items ++ said Plain Unnamed Elsewhere (view_key key.now) (told_key key.now)) }
    {
        match key {
            Key::Computed(_, expr) => self.expr(events, expr),
            Key::Name(..) => Ok(()),
            Key::Literal(..) => Ok(()),
        }
    }

    #[cycle(walk)]
    pub(crate) fn members<'t>(
        self,
        events: &mut Vec<Event<'t>>,
        members: &'t [Box<Prop<'_>>],
    ) -> Result<(), AllocError>
        ensures of_object { OnOk result (met_all events.new.items ≡ met_all events.old.items ++ said_each Plain Unnamed Elsewhere (members_of_object (map (inside view_member) members.now)) (tales (map (inside told_prop) members.now))) }
        ensures of_class { OnOk result (met_all events.new.items ≡ met_all events.old.items ++ said_each Plain Unnamed Elsewhere (members_of_class (map (inside view_member) members.now)) (tales (map (inside told_prop) members.now))) }
    {
        for member in members {
            self.member(events, member)?;
        }
        Ok(())
    }
}

//! JSX.

ghost use Rattle.std.specs.Prelude.{◌≡◌, ◌++◌, OnOk, codes, map, [], ◌∷◌};
ghost use Rattle.std.specs.Str.{chars};
ghost use Rattle.jsx_base.specs.Token.{same};
ghost use Rattle.jsx_tree.specs.Nonterminals.{has_dash};
ghost use Rattle.jsx_tree.specs.Scopes.{is_component, is_lower};
ghost use Rattle.jsx_tree.specs.View.{inside, forest, optional_of, text_of, view_jsx, view_tag};
ghost use Rattle.jsx_tree.specs.Told.{tales, told_jsx, told_optional, told_tag};
ghost use Rattle.jsx_names.specs.Events.{Plain, Refers};
ghost use Rattle.jsx_heard.specs.Said.{Tags, Unnamed, Elsewhere, said, said_each, of_value, met, met_all, byte_of};

use crate::names::{characters, place};
use crate::walk::Walker;
use jsx_names::Event;
use jsx_tree::{Jsx, Tag, Text};
use std::alloc::AllocError;

fn has_dash(name: &str) -> bool
    ensures { result ≡ has_dash (chars name.now) }
{
    name.chars().any(|c| c == '-')
}

fn is_lower(name: &str) -> bool
    ensures { result ≡ is_lower (chars name.now) }
{
    match name.chars().next() {
        Some(c) => c.is_ascii_lowercase(),
        None => false,
    }
}

/// Whether a tag is the name of a component: it begins with no small letter and has no dash.
fn is_component(name: &str) -> bool
    ensures { result ≡ is_component (chars name.now) }
{
    !is_lower(name) && !has_dash(name)
}

fn is_this(name: &str) -> bool
    ensures { result ≡ same (chars name.now) (codes "this") }
{
    name == "this"
}

// A tag is written as a name of JSX, with no escapes and dashes, and is a name all the same.
#[tactic(auto, using(crate::proofs::Saying::sayings))]
fn tag<'t>(events: &mut Vec<Event<'t>>, tag: &'t Tag<'_>) -> Result<(), AllocError>
    ensures { OnOk result (met_all events.new.items ≡ met_all events.old.items ++ said Plain Tags Elsewhere (view_tag tag.now) (told_tag tag.now)) }
{
    match tag {
        Tag::Name(name) => {
            if is_component(characters(name)) {
                mentions(events, name)?;
            }
        }
        Tag::Namespaced(..) => {}
        Tag::Member(_, root, _) => {
            if !is_this(characters(root)) {
                mentions(events, root)?;
            }
        }
    }
    Ok(())
}

fn mentions<'t>(events: &mut Vec<Event<'t>>, name: &'t Text<'_>) -> Result<(), AllocError>
    ensures { OnOk result (met_all events.new.items ≡ met_all events.old.items ++ met (Refers (text_of name.now) []) (byte_of name.now) ∷ []) }
{
    events.push(Event::Refers(characters(name), place(name)))?;
    Ok(())
}

impl Walker {
    #[cycle(walk)]
    #[tactic(auto, using(crate::proofs::Saying::sayings))]
    pub(crate) fn jsx<'t>(
        self,
        events: &mut Vec<Event<'t>>,
        jsx: &'t Jsx<'_>,
    ) -> Result<(), AllocError>
        ensures { OnOk result (met_all events.new.items ≡ met_all events.old.items ++ of_value (view_jsx jsx.now) (told_jsx jsx.now)) }
    {
        let below = self.below()?;
        match jsx {
            Jsx::Element(_, name, attributes) => {
                tag(events, name)?;
                below.jsxs(events, attributes)
            }
            Jsx::ElementWithChildren(_, name, attributes, children, closing) => {
                tag(events, name)?;
                below.jsxs(events, attributes)?;
                below.jsxs(events, children)?;
                tag(events, closing)
            }
            Jsx::Fragment(_, children) => below.jsxs(events, children),
            Jsx::Text(..) | Jsx::Str(..) => Ok(()),
            Jsx::Container(_, expr) => below.optional(events, expr),
            Jsx::Spread(_, expr) => below.expr(events, expr),
            Jsx::Attribute(_, _, value) => below.optional_jsx(events, value),
        }
    }

    #[cycle(walk)]
    fn jsxs<'t>(
        self,
        events: &mut Vec<Event<'t>>,
        jsxs: &'t [Box<Jsx<'_>>],
    ) -> Result<(), AllocError>
        ensures { OnOk result (met_all events.new.items ≡ met_all events.old.items ++ said_each Plain Unnamed Elsewhere (forest (map (inside view_jsx) jsxs.now)) (tales (map (inside told_jsx) jsxs.now))) }
    {
        for jsx in jsxs {
            self.jsx(events, jsx)?;
        }
        Ok(())
    }

    #[cycle(walk)]
    #[tactic(auto, using(crate::proofs::Saying::sayings))]
    fn optional_jsx<'t>(
        self,
        events: &mut Vec<Event<'t>>,
        jsx: &'t Option<Box<Jsx<'_>>>,
    ) -> Result<(), AllocError>
        ensures { OnOk result (met_all events.new.items ≡ met_all events.old.items ++ said Plain Unnamed Elsewhere (optional_of view_jsx jsx.now) (told_optional told_jsx jsx.now)) }
    {
        match jsx {
            Some(jsx) => self.jsx(events, jsx),
            None => Ok(()),
        }
    }
}

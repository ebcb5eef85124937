//! Patterns.

ghost use Rattle.std.specs.Prelude.{◌≡◌, ◌++◌, OnOk, map, [], None};
ghost use Rattle.std.specs.Option.{ForSome};
ghost use Rattle.std.specs.Str.{chars};
ghost use Rattle.jsx_base.specs.Token.{IdentifierName};
ghost use Rattle.jsx_tree.specs.Kinds.{Assigns, ObjectPat, function, leaf};
ghost use Rattle.jsx_tree.specs.Nonterminals.{PatProp};
ghost use Rattle.jsx_tree.specs.Told.{tales, told_expr, told_node, told_optional, told_pat};
ghost use Rattle.jsx_tree.specs.View.{inside, forest_at, optional_at_of, view_expr, view_pattern, view_word};
ghost use Rattle.jsx_names.specs.Code as names;
ghost use Rattle.jsx_names.specs.Events as events;
ghost use Rattle.jsx_names.specs.Events.{Plain, Binding};
ghost use Rattle.jsx_heard.specs.Code.{mode_of, role_of, way_of};
ghost use Rattle.jsx_heard.specs.Said.{Idents, Unnamed, Elsewhere, met_all, naming, said, said_each};

use crate::mode::{Mode, Way, sort_of};
use crate::names::ident;
use crate::walk::Walker;
use jsx_base::BytePos;
use jsx_names::{Event, Sort};
use jsx_tree::{Expr, Pat, Word};
use std::alloc::AllocError;

/// How a word is written. `import.meta` and `new.target` are more than a word.
fn spelling(word: Word) -> Option<&'static str>
    ensures some { ForSome result (λ s. view_word word ≡ leaf IdentifierName (chars s.now)) }
    ensures none { result ≡ None → (m : events.Mode) → said m Idents Elsewhere (view_word word) (told_node None []) ≡ [] }
{
    match word {
        Word::This => Some("this"),
        Word::Null => Some("null"),
        Word::True => Some("true"),
        Word::False => Some("false"),
        Word::ImportMeta | Word::NewTarget => None,
    }
}

/// A word that is declared as a name. No text reads so.
fn declares_word<'t>(
    events: &mut Vec<Event<'t>>,
    way: Way,
    sort: Sort,
    name: &'static str,
) -> Result<(), AllocError>
    ensures { OnOk result (met_all events.new.items ≡ met_all events.old.items ++ said (Binding (way_of way) (names.sort_of sort)) Idents Elsewhere (leaf IdentifierName (chars name.now)) (told_node None [])) }
{
    let at = BytePos(0);
    events.push(Event::Declares {
        in_head: matches!(way, Way::InHead),
        sort,
        name,
        at,
    })?;
    if matches!(way, Way::Exported) {
        events.push(Event::Exports(name, at))?;
    }
    Ok(())
}

/// A word where a target stands.
fn word<'t>(events: &mut Vec<Event<'t>>, mode: Mode, word: Word) -> Result<(), AllocError>
    ensures { OnOk result (met_all events.new.items ≡ met_all events.old.items ++ said (mode_of mode) Idents Elsewhere (view_word word) (told_node None [])) }
{
    let Mode::Binding(way, sort) = mode else {
        return Ok(());
    };
    let Some(name) = spelling(word) else {
        return Ok(());
    };
    declares_word(events, way, sort, name)
}

/// What stands in parentheses in a pattern.
fn enclosed(mode: Mode) -> Mode
    ensures mode { mode_of result ≡ Plain }
    ensures role { role_of result ≡ role_of mode }
{
    match mode {
        Mode::Plain => Mode::Plain,
        Mode::Enclosed | Mode::Binding(..) => Mode::Enclosed,
    }
}

impl Walker {
    /// A pattern, which declares names or assigns to targets (ECMA-262 sections 14.3.3 and 13.15.5).
    #[cycle(walk)]
    pub(crate) fn pattern<'t>(
        self,
        events: &mut Vec<Event<'t>>,
        mode: Mode,
        pattern: &'t Pat<'_>,
    ) -> Result<(), AllocError>
        ensures { OnOk result (met_all events.new.items ≡ met_all events.old.items ++ said (mode_of mode) Idents Elsewhere (view_pattern pattern.now (role_of mode)) (told_pat pattern.now)) }
    {
        let below = self.below()?;
        match pattern {
            Pat::Ident(_, name) => ident(events, mode, name),
            Pat::Array(_, items) => below.patterns(events, mode, items),
            Pat::Object(_, properties) => below.properties(events, mode, properties),
            Pat::Target(expr) => below.target(events, mode, expr),
            Pat::Paren(_, target) => below.pattern(events, enclosed(mode), target),
            Pat::Binding(_, target, value) => {
                below.pattern(events, mode, target)?;
                below.optional(events, value)
            }
            Pat::WithInit(_, target, value) => {
                below.pattern(events, mode, target)?;
                below.expr(events, value)
            }
            Pat::Rest(_, target) => below.pattern(events, mode, target),
            Pat::Hole => Ok(()),
            Pat::Pair(_, key, target) => {
                below.key(events, key)?;
                below.pattern(events, mode, target)
            }
            Pat::Shorthand(_, name, value) => {
                ident(events, mode, name)?;
                below.optional(events, value)
            }
            Pat::RestProperty(_, name) => ident(events, mode, name),
            Pat::Declaration(_, word, declarators) => {
                let mode = Mode::Binding(Way::Simply, sort_of(*word));
                below.patterns(events, mode, declarators)
            }
            Pat::Head(_, word, target) => {
                let mode = Mode::Binding(Way::Simply, sort_of(*word));
                below.pattern(events, mode, target)
            }
        }
    }

    /// An expression as a target. As a name that is declared it is told as one.
    #[cycle(walk)]
    fn target<'t>(
        self,
        events: &mut Vec<Event<'t>>,
        mode: Mode,
        expr: &'t Expr<'_>,
    ) -> Result<(), AllocError>
        ensures { OnOk result (met_all events.new.items ≡ met_all events.old.items ++ said (mode_of mode) Idents Elsewhere (view_expr expr.now) (told_expr expr.now)) }
    {
        match expr {
            Expr::Ident(_, name) => ident(events, mode, name),
            Expr::Word(_, written) => word(events, mode, *written),
            _ => self.expr(events, expr),
        }
    }

    /// What stands in the braces of an object's pattern.
    #[cycle(walk)]
    fn properties<'t>(
        self,
        events: &mut Vec<Event<'t>>,
        mode: Mode,
        properties: &'t [Box<Pat<'_>>],
    ) -> Result<(), AllocError>
        ensures { OnOk result (met_all events.new.items ≡ met_all events.old.items ++ said_each (mode_of mode) (naming (function (ObjectPat (role_of mode))) (PatProp (role_of mode))) Elsewhere (forest_at (role_of mode) (map (inside view_pattern) properties.now)) (tales (map (inside told_pat) properties.now))) }
    {
        for property in properties {
            self.property(events, mode, property)?;
        }
        Ok(())
    }

    /// A property of an object's pattern. A name alone is none, and no text reads so.
    #[cycle(walk)]
    fn property<'t>(
        self,
        events: &mut Vec<Event<'t>>,
        mode: Mode,
        property: &'t Pat<'_>,
    ) -> Result<(), AllocError>
        ensures { OnOk result (met_all events.new.items ≡ met_all events.old.items ++ said (mode_of mode) (naming (function (ObjectPat (role_of mode))) (PatProp (role_of mode))) Elsewhere (view_pattern property.now (role_of mode)) (told_pat property.now)) }
    {
        match mode {
            Mode::Plain => self.assigned_property(events, property),
            Mode::Enclosed | Mode::Binding(..) => self.pattern(events, mode, property),
        }
    }

    #[cycle(walk)]
    fn assigned_property<'t>(
        self,
        events: &mut Vec<Event<'t>>,
        property: &'t Pat<'_>,
    ) -> Result<(), AllocError>
        ensures { OnOk result (met_all events.new.items ≡ met_all events.old.items ++ said Plain Unnamed Elsewhere (view_pattern property.now Assigns) (told_pat property.now)) }
    {
        match property {
            Pat::Ident(..) => Ok(()),
            Pat::Target(expr) => self.unnamed(events, expr),
            _ => self.pattern(events, Mode::Plain, property),
        }
    }

    /// An expression where a name would be none.
    #[cycle(walk)]
    fn unnamed<'t>(self, events: &mut Vec<Event<'t>>, expr: &'t Expr<'_>) -> Result<(), AllocError>
        ensures { OnOk result (met_all events.new.items ≡ met_all events.old.items ++ said Plain Unnamed Elsewhere (view_expr expr.now) (told_expr expr.now)) }
    {
        match expr {
            Expr::Ident(..) => Ok(()),
            _ => self.expr(events, expr),
        }
    }

    #[cycle(walk)]
    pub(crate) fn patterns<'t>(
        self,
        events: &mut Vec<Event<'t>>,
        mode: Mode,
        patterns: &'t [Box<Pat<'_>>],
    ) -> Result<(), AllocError>
        ensures { OnOk result (met_all events.new.items ≡ met_all events.old.items ++ said_each (mode_of mode) Idents Elsewhere (forest_at (role_of mode) (map (inside view_pattern) patterns.now)) (tales (map (inside told_pat) patterns.now))) }
    {
        for pattern in patterns {
            self.pattern(events, mode, pattern)?;
        }
        Ok(())
    }

    #[cycle(walk)]
    pub(crate) fn optional_pattern<'t>(
        self,
        events: &mut Vec<Event<'t>>,
        mode: Mode,
        pattern: &'t Option<Box<Pat<'_>>>,
    ) -> Result<(), AllocError>
        ensures { OnOk result (met_all events.new.items ≡ met_all events.old.items ++ said (mode_of mode) Idents Elsewhere (optional_at_of (role_of mode) view_pattern pattern.now) (told_optional told_pat pattern.now)) }
    {
        match pattern {
            Some(pattern) => self.pattern(events, mode, pattern),
            None => Ok(()),
        }
    }
}

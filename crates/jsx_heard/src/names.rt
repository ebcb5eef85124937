//! Names.

ghost use Rattle.std.specs.Prelude.{◌≡◌, ◌++◌, OnOk, [], ◌∷◌};
ghost use Rattle.std.specs.Str.{chars};
ghost use Rattle.jsx_tree.specs.Clashes.{AtName};
ghost use Rattle.jsx_tree.specs.View.{text_of, name_of, word};
ghost use Rattle.jsx_tree.specs.Told.{told_ident, told_text};
ghost use Rattle.jsx_names.specs.Code.{sort_of};
ghost use Rattle.jsx_names.specs.Events.{Binding, Exports, Wants};
ghost use Rattle.jsx_heard.specs.Code.{mode_of, way_of};
ghost use Rattle.jsx_heard.specs.Said.{Idents, Elsewhere, said, of_value, met, met_all, byte_of};

use crate::mode::{Mode, Way};
use jsx_base::BytePos;
use jsx_names::{Event, Sort};
use jsx_token::is_reserved;
use jsx_tree::{Ident, Text};
use std::alloc::AllocError;

/// The characters of a text.
pub(crate) fn characters<'t>(text: &'t Text<'_>) -> &'t str
    ensures { chars result.now ≡ text_of text.now }
{
    match text {
        Text::Read(text, _) => text,
        Text::Made(text, _) => text,
    }
}

/// Where a text stands, or what it was made of; else the begin.
pub(crate) fn place(text: &Text<'_>) -> BytePos
    ensures { result ≡ byte_of text.now }
{
    match text {
        Text::Read(_, at) => *at,
        Text::Made(_, Some(at)) => *at,
        Text::Made(_, None) => BytePos(0),
    }
}

/// A name that is declared.
pub(crate) fn declares<'t>(
    events: &mut Vec<Event<'t>>,
    way: Way,
    sort: Sort,
    name: &'t Text<'_>,
) -> Result<(), AllocError>
    ensures { OnOk result (met_all events.new.items ≡ met_all events.old.items ++ said (Binding (way_of way) (sort_of sort)) Idents Elsewhere (word name.now) (told_text name.now)) }
{
    let text = characters(name);
    let at = place(name);
    events.push(Event::Declares {
        in_head: matches!(way, Way::InHead),
        sort,
        name: text,
        at,
    })?;
    if matches!(way, Way::Exported) {
        events.push(Event::Exports(text, at))?;
    }
    Ok(())
}

/// A name that is read or assigned to. A reserved word is none (ECMA-262 section 12.7.2).
pub(crate) fn refers<'t>(events: &mut Vec<Event<'t>>, name: &'t Text<'_>) -> Result<(), AllocError>
    ensures { OnOk result (met_all events.new.items ≡ met_all events.old.items ++ of_value (word name.now) (told_text name.now)) }
{
    let text = characters(name);
    if !is_reserved(text) {
        events.push(Event::Refers(text, place(name)))?;
    }
    Ok(())
}

/// A name of a pattern.
pub(crate) fn ident<'t>(
    events: &mut Vec<Event<'t>>,
    mode: Mode,
    name: &'t Ident<'_>,
) -> Result<(), AllocError>
    ensures { OnOk result (met_all events.new.items ≡ met_all events.old.items ++ said (mode_of mode) Idents Elsewhere (name_of name.now) (told_ident name.now)) }
{
    match mode {
        Mode::Plain | Mode::Enclosed => refers(events, &name.text),
        Mode::Binding(way, sort) => declares(events, way, sort, &name.text),
    }
}

/// A name that is exported.
pub(crate) fn exports<'t>(events: &mut Vec<Event<'t>>, name: &'t Text<'_>) -> Result<(), AllocError>
    ensures { OnOk result (met_all events.new.items ≡ met_all events.old.items ++ met (Exports (text_of name.now) (AtName [])) (byte_of name.now) ∷ []) }
{
    events.push(Event::Exports(characters(name), place(name)))?;
    Ok(())
}

/// A name that the module must declare.
pub(crate) fn wants<'t>(events: &mut Vec<Event<'t>>, name: &'t Text<'_>) -> Result<(), AllocError>
    ensures { OnOk result (met_all events.new.items ≡ met_all events.old.items ++ met (Wants (text_of name.now) (AtName [])) (byte_of name.now) ∷ []) }
{
    events.push(Event::Wants(characters(name), place(name)))?;
    Ok(())
}

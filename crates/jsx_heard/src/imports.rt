//! The names of imports and exports.

ghost use Rattle.std.specs.Prelude.{◌≡◌, ◌++◌, OnOk, map};
ghost use Rattle.jsx_tree.specs.Kinds.{Exported, From, Imported};
ghost use Rattle.jsx_tree.specs.Scopes.{AsLexical};
ghost use Rattle.jsx_tree.specs.View.{forest};
ghost use Rattle.jsx_tree.specs.ViewProgram.{view_import_clause, view_import_names, view_specifier};
ghost use Rattle.jsx_tree.specs.Told.{tales, told_import_clause, told_import_names, told_specifier};
ghost use Rattle.jsx_names.specs.Events.{Binding, Plain, Simply};
ghost use Rattle.jsx_heard.specs.Code.{last_name};
ghost use Rattle.jsx_heard.specs.Said.{Idents, Unnamed, Elsewhere, said, said_each, met_all};

use crate::mode::Way;
use crate::names::{declares, exports, refers, wants};
use jsx_names::{Event, Sort};
use jsx_tree::{ImportClause, ImportNames, Specifier, Text};
use std::alloc::AllocError;

/// The name of a specifier that stands last: the one behind `as`, or the only one.
fn last_name<'t>(specifier: &'t Specifier<'_>) -> &'t Text<'t>
    ensures { result.now ≡ last_name specifier.now }
{
    match specifier {
        Specifier::Same(_, name) => name,
        Specifier::As(_, _, name) => name,
    }
}

/// What an import binds (ECMA-262 section 16.2.2).
#[tactic(auto, using(crate::proofs::Saying::sayings))]
pub(crate) fn import_clause<'t>(
    events: &mut Vec<Event<'t>>,
    clause: &'t ImportClause<'_>,
) -> Result<(), AllocError>
    ensures { OnOk result (met_all events.new.items ≡ met_all events.old.items ++ said (Binding Simply AsLexical) Idents Elsewhere (view_import_clause clause.now) (told_import_clause clause.now)) }
{
    match clause {
        ImportClause::Default(name) => declares(events, Way::Simply, Sort::Lexical, &name.text),
        ImportClause::Names(names) => import_names(events, names),
        ImportClause::Both(_, name, names) => {
            declares(events, Way::Simply, Sort::Lexical, &name.text)?;
            import_names(events, names)
        }
    }
}

#[tactic(auto, using(crate::proofs::Saying::sayings))]
fn import_names<'t>(
    events: &mut Vec<Event<'t>>,
    names: &'t ImportNames<'_>,
) -> Result<(), AllocError>
    ensures { OnOk result (met_all events.new.items ≡ met_all events.old.items ++ said (Binding Simply AsLexical) Idents Elsewhere (view_import_names names.now) (told_import_names names.now)) }
{
    match names {
        ImportNames::All(_, name) => declares(events, Way::Simply, Sort::Lexical, &name.text),
        ImportNames::List(_, specifiers) => imported(events, specifiers),
    }
}

fn imported<'t>(
    events: &mut Vec<Event<'t>>,
    specifiers: &'t [Specifier<'_>],
) -> Result<(), AllocError>
    ensures { OnOk result (met_all events.new.items ≡ met_all events.old.items ++ said_each (Binding Simply AsLexical) Idents Elsewhere (forest (map (view_specifier Imported) specifiers.now)) (tales (map told_specifier specifiers.now))) }
{
    for specifier in specifiers {
        declares(events, Way::Simply, Sort::Lexical, last_name(specifier))?;
    }
    Ok(())
}

/// `export { a, b as c }` (ECMA-262 section 16.2.3)
pub(crate) fn exported<'t>(
    events: &mut Vec<Event<'t>>,
    specifiers: &'t [Specifier<'_>],
) -> Result<(), AllocError>
    ensures { OnOk result (met_all events.new.items ≡ met_all events.old.items ++ said_each Plain Unnamed Elsewhere (forest (map (view_specifier Exported) specifiers.now)) (tales (map told_specifier specifiers.now))) }
{
    for specifier in specifiers {
        export(events, specifier)?;
    }
    Ok(())
}

#[tactic(auto, using(crate::proofs::Saying::sayings))]
fn export<'t>(events: &mut Vec<Event<'t>>, specifier: &'t Specifier<'_>) -> Result<(), AllocError>
    ensures { OnOk result (met_all events.new.items ≡ met_all events.old.items ++ said Plain Unnamed Elsewhere (view_specifier Exported specifier.now) (told_specifier specifier.now)) }
{
    let (local, name) = match specifier {
        Specifier::Same(_, name) => (name, name),
        Specifier::As(_, local, name) => (local, name),
    };
    wants(events, local)?;
    exports(events, name)?;
    refers(events, local)
}

/// `export { a, b as c } from "m"`
pub(crate) fn passed_on<'t>(
    events: &mut Vec<Event<'t>>,
    specifiers: &'t [Specifier<'_>],
) -> Result<(), AllocError>
    ensures { OnOk result (met_all events.new.items ≡ met_all events.old.items ++ said_each Plain Unnamed Elsewhere (forest (map (view_specifier From) specifiers.now)) (tales (map told_specifier specifiers.now))) }
{
    for specifier in specifiers {
        exports(events, last_name(specifier))?;
    }
    Ok(())
}

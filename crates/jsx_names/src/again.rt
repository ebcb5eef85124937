//! Names that a module exports twice.

ghost use Rattle.std.specs.Prelude.{◌≡◌, List, [], ◌∷◌, not, IfOk, OnOk};
ghost use Rattle.std.specs.Str.{chars};
ghost use Rattle.jsx_base.specs.Token.{Text};
ghost use Rattle.jsx_names.specs.Code.{plain, plain_all};
ghost use Rattle.jsx_names.specs.Faults.{again, exporting, first, is_again, is_among};
ghost use Rattle.jsx_names.specs.Tables.{Has};

use crate::Event;
use std::alloc::{AllocError, Global};
use std::collections::BTreeSet;

/// The number of the first export of a name that was exported before (ECMA-262 section 16.2.1.1).
pub(crate) fn first_again(alloc: Global, events: &[Event<'_>]) -> Result<Option<usize>, AllocError>
    ensures { IfOk result (λ it. it ≡ first (again 0 [] (plain_all events.now))) }
{
    let mut exported = BTreeSet::new(alloc);
    for (i, event) in events.iter().enumerate() {
        if is_again(&mut exported, event)? {
            return Ok(Some(i));
        }
    }
    Ok(None)
}

// Whether a name is exported that was exported before, which is kept with those.
fn is_again<'t>(exported: &mut BTreeSet<&'t str>, event: &Event<'t>) -> Result<bool, AllocError>
    ensures again { IfOk result (λ it. (us : List Text) → Has exported.old us → it ≡ is_again us (plain event.now)) }
    ensures kept { OnOk result ((us : List Text) → Has exported.old us → Has exported.new (exporting us (plain event.now))) }
{
    match *event {
        Event::Exports(name, _) => Ok(!is_new(exported, name)?),
        _ => Ok(false),
    }
}

/// Adds a name, and says whether it wasn't there.
pub(crate) fn is_new<'t>(names: &mut BTreeSet<&'t str>, name: &'t str) -> Result<bool, AllocError>
    ensures new { IfOk result (λ it. (us : List Text) → Has names.old us → it ≡ not (is_among (chars name.now) us)) }
    ensures added { OnOk result ((us : List Text) → Has names.old us → Has names.new (chars name.now ∷ us)) }
{
    Ok(names.insert(name)?)
}

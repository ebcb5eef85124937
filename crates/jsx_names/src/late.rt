//! Declarations that clash with one before them.

ghost use Rattle.std.specs.Prelude.{◌≡◌, suc, Bool, List, [], ◌∷◌, IfOk, OnOk};
ghost use Rattle.std.specs.Str.{chars};
ghost use Rattle.jsx_names.specs.Code.{plain, plain_all, sort_of};
ghost use Rattle.jsx_names.specs.Events as events;
ghost use Rattle.jsx_names.specs.Faults.{Noted, first, is_late_at, late, noting, within};
ghost use Rattle.jsx_names.specs.Scanned.{Stands};
ghost use Rattle.jsx_names.specs.Tables.{Tells, stack};

use crate::scopes::{close, ends, innermost, open};
use crate::seen::{Extent, Table, is_late, note};
use crate::{Event, Sort};
use std::alloc::{AllocError, Global};
use std::collections::BTreeMap;

/// What is kept on the way from left to right: the ends of the scopes that begin behind, the scopes that
/// stand open, and what was declared.
#[derive(Drop)]
pub(crate) struct Scan<'t> {
    pub ends: Vec<usize>,
    pub scopes: Vec<Extent>,
    pub table: Table<'t>,
}

/// The number of the first declaration that clashes with one before it.
pub(crate) fn first_late(alloc: Global, events: &[Event<'_>]) -> Result<Option<usize>, AllocError>
    ensures { IfOk result (λ it. it ≡ first (late 0 [] [] (plain_all events.now))) }
{
    let mut scan = Scan {
        ends: ends(alloc, events)?,
        scopes: Vec::new(alloc),
        table: BTreeMap::new(alloc),
    };
    for (i, event) in events.iter().enumerate() {
        if is_late_at(&mut scan, event, i)? {
            return Ok(Some(i));
        }
    }
    Ok(None)
}

// One event further; and whether it is a declaration that clashes with one before it.
fn is_late_at<'t>(scan: &mut Scan<'t>, event: &Event<'t>, at: usize) -> Result<bool, AllocError>
    ensures late { IfOk result (λ it. (es : List events.Event) (ks : List Noted) → Stands at (plain event.now ∷ es) ks scan.old → it ≡ is_late_at at (stack scan.old.scopes.items) ks (plain event.now)) }
    ensures scopes { OnOk result ((es : List events.Event) (ks : List Noted) → Stands at (plain event.now ∷ es) ks scan.old → stack scan.new.scopes.items ≡ within at (stack scan.old.scopes.items) (plain event.now) es) }
    ensures kept { OnOk result ((es : List events.Event) (ks : List Noted) → Stands at (plain event.now ∷ es) ks scan.old → Stands (suc at) es (noting at (stack scan.old.scopes.items) ks (plain event.now)) scan.new) }
{
    match *event {
        Event::Opens(frame) => {
            let end = scan.ends.pop().unwrap_or(at);
            open(&mut scan.scopes, frame, at, end)?;
            Ok(false)
        }
        Event::Closes => {
            close(&mut scan.scopes);
            Ok(false)
        }
        Event::Declares { sort, name, .. } => {
            declare(&mut scan.table, &scan.scopes, sort, name, at)
        }
        _ => Ok(false),
    }
}

// Notes a declaration, and says whether it clashes with one before it. Outside of every scope there is
// none.
fn declare<'t>(
    table: &mut Table<'t>,
    scopes: &[Extent],
    sort: Sort,
    name: &'t str,
    at: usize,
) -> Result<bool, AllocError>
    ensures late { IfOk result (λ it. (h : Bool) (ks : List Noted) → Tells table.old ks → it ≡ is_late_at at (stack scopes.now) ks (events.Declares h (sort_of sort) (chars name.now) [])) }
    ensures kept { OnOk result ((h : Bool) (ks : List Noted) → Tells table.old ks → Tells table.new (noting at (stack scopes.now) ks (events.Declares h (sort_of sort) (chars name.now) []))) }
{
    match innermost(scopes) {
        Some(scope) => {
            let late = is_late(table, sort, name, at, scope);
            note(table, sort, name, at, scope)?;
            Ok(late)
        }
        None => Ok(false),
    }
}

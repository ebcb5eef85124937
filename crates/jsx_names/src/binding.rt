//! To which scope each name belongs.

ghost use Rattle.std.specs.Prelude.{◌≡◌, ℕ, List, [], ◌∷◌, ◌++◌, map, drop, reverse, Some, IfOk, OnOk};
ghost use Rattle.std.specs.Str.{chars, IsUtf8};
ghost use Rattle.std.specs.Ordering.{nat_cmp};
ghost use Rattle.std.specs.BTreeMap.{get};
ghost use denote.Ref.{Bor};
ghost use Rattle.jsx_base.specs.Token.{Text};
ghost use Rattle.jsx_names.specs.Bindings.{Shown, behind_head, bindings, bound_to, left, names_at, within};
ghost use Rattle.jsx_names.specs.Code.{frame_of, plain, plain_all};
ghost use Rattle.jsx_names.specs.Events as events;
ghost use Rattle.jsx_names.specs.Gathered.{shows};
ghost use Rattle.jsx_names.specs.Shadowed.{Between, Binds, Gathers, IsSet, IsTop, Presents, bound_in, held, named_of, restored, shown_over};

use crate::gather::{Kept, Lists, gathered};
use crate::{Event, Frame, Sort};
use jsx_token::is_reserved;
use std::alloc::{AllocError, Global};
use std::collections::BTreeMap;

/// What a name referred to before a scope showed it.
#[derive(Clone, Copy)]
pub(crate) struct Saved<'t> {
    pub name: &'t str,
    pub scope: Option<usize>,
}

/// A scope that stands open, and what its names referred to before it.
#[derive(Drop)]
pub(crate) struct Open<'t> {
    pub number: usize,
    pub frame: Frame,
    pub saved: Vec<Saved<'t>>,
}

/// The innermost scope that shows a name.
pub(crate) type Bound<'t> = BTreeMap<&'t str, Option<usize>>;

/// For each name that is declared or referred to, in order, the number of the event that begins the scope
/// it belongs to (ECMA-262 section 9.4.2, ResolveBinding). What is declared under a reserved word is no
/// name. The time is by the number of events and its logarithm where each scope has one head and no `var`
/// stands in one, as it is with the events of a program; else it is by their number and how deep scopes
/// stand within each other.
///
/// # Errors
///
/// `AllocError` for want of memory.
pub fn bindings(alloc: Global, events: &[Event<'_>]) -> Result<Vec<Option<usize>>, AllocError>
    ensures { IfOk result (λ it. it.items ≡ bindings 0 [] (plain_all events.now)) }
{
    let lists = gathered(alloc, events)?;
    let mut bound = BTreeMap::new(alloc);
    let mut scopes = Vec::new(alloc);
    let mut found = Vec::new(alloc);
    for (i, event) in events.iter().enumerate() {
        find(&mut found, &bound, event)?;
        step(&mut bound, &mut scopes, &lists, alloc, event, i)?;
    }
    Ok(found)
}

// The scope of an event's name, if it has one.
fn find(
    found: &mut Vec<Option<usize>>,
    bound: &Bound<'_>,
    event: &Event<'_>,
) -> Result<(), AllocError>
    ensures { OnOk result ((ns : List Shown) → Binds bound.now ns → found.new.items ≡ found.old.items ++ names_at ns (plain event.now)) }
{
    match *event {
        Event::Declares { name, .. } => {
            if !is_reserved(name) {
                found.push(scope_of(bound, name))?;
            }
        }
        Event::Refers(name, _) => found.push(scope_of(bound, name))?,
        _ => {}
    }
    Ok(())
}

// The innermost scope that shows a name.
fn scope_of(bound: &Bound<'_>, name: &str) -> Option<usize>
    ensures { result ≡ bound_in bound.now name.entry }
{
    match bound.get(name) {
        Some(scope) => *scope,
        None => None,
    }
}

// The scopes behind an event.
fn step<'t>(
    bound: &mut Bound<'t>,
    scopes: &mut Vec<Open<'t>>,
    lists: &Lists<'t>,
    alloc: Global,
    event: &Event<'t>,
    at: usize,
) -> Result<(), AllocError>
    ensures { OnOk result ((es rest : List events.Event) (ns : List Shown) → Gathers lists.now es → drop at es ≡ plain event.now ∷ rest → Between es bound.old scopes.old.items ns → Between es bound.new scopes.new.items (within at ns (plain event.now) rest)) }
{
    match *event {
        Event::Opens(frame) => begin(bound, scopes, lists, alloc, (at, frame), false),
        Event::Enters => match end(bound, scopes)? {
            Some(scope) => begin(bound, scopes, lists, alloc, scope, true),
            None => Ok(()),
        },
        Event::Closes => {
            end(bound, scopes)?;
            Ok(())
        }
        _ => Ok(()),
    }
}

// Shows what a scope declares: what is seen where it begins, or behind its head.
fn begin<'t>(
    bound: &mut Bound<'t>,
    scopes: &mut Vec<Open<'t>>,
    lists: &Lists<'t>,
    alloc: Global,
    scope: (usize, Frame),
    is_behind: bool,
) -> Result<(), AllocError>
    ensures { OnOk result ((es : List events.Event) (n : Shown) (ns : List Shown) → Gathers lists.now es → Between es bound.old scopes.old.items ns → Presents es is_behind scope.1 scope.0 n → Between es bound.new scopes.new.items (n ∷ ns)) }
{
    let (number, frame) = scope;
    let mut saved = Vec::new(alloc);
    show_seen(bound, &mut saved, lists, scope, is_behind)?;
    scopes.push(Open {
        number,
        frame,
        saved,
    })?;
    Ok(())
}

// Shows what is seen of a scope's declarations.
fn show_seen<'t>(
    bound: &mut Bound<'t>,
    saved: &mut Vec<Saved<'t>>,
    lists: &Lists<'t>,
    scope: (usize, Frame),
    is_behind: bool,
) -> Result<(), AllocError>
    ensures bound { OnOk result ((ns : List Shown) → Binds bound.old ns → (w : Bor (List ℕ)) → IsUtf8 w.now → bound_in bound.new w ≡ shown_over is_behind scope.1 scope.0 (held (get nat_cmp lists.now scope.0)) ns (chars w.now)) }
    ensures saved { OnOk result ((ns : List Shown) → Binds bound.old ns → saved.old.items ≡ [] → (t : Text) → restored (reverse saved.new.items) t (shown_over is_behind scope.1 scope.0 (held (get nat_cmp lists.now scope.0)) ns t) ≡ bound_to t ns) }
{
    match lists.get(&scope.0) {
        Some(list) => show_all(bound, saved, list, scope, is_behind),
        None => Ok(()),
    }
}

// Ends the innermost scope.
fn end<'t>(
    bound: &mut Bound<'t>,
    scopes: &mut Vec<Open<'t>>,
) -> Result<Option<(usize, Frame)>, AllocError>
    ensures top { IfOk result (λ it. (es : List events.Event) (ns : List Shown) → Between es bound.old scopes.old.items ns → IsTop es it ns) }
    ensures left { OnOk result ((es : List events.Event) (ns : List Shown) → Between es bound.old scopes.old.items ns → Between es bound.new scopes.new.items (left ns)) }
{
    let Some(scope) = scopes.pop() else {
        return Ok(None);
    };
    restore(bound, &scope.saved)?;
    Ok(Some((scope.number, scope.frame)))
}

// Shows those of a scope's declarations that are seen.
fn show_all<'t>(
    bound: &mut Bound<'t>,
    saved: &mut Vec<Saved<'t>>,
    list: &[Kept<'t>],
    scope: (usize, Frame),
    is_behind: bool,
) -> Result<(), AllocError>
    ensures bound { OnOk result ((ns : List Shown) → Binds bound.old ns → (w : Bor (List ℕ)) → IsUtf8 w.now → bound_in bound.new w ≡ shown_over is_behind scope.1 scope.0 (map named_of list.now) ns (chars w.now)) }
    ensures saved { OnOk result ((ns : List Shown) → Binds bound.old ns → saved.old.items ≡ [] → (t : Text) → restored (reverse saved.new.items) t (shown_over is_behind scope.1 scope.0 (map named_of list.now) ns t) ≡ bound_to t ns) }
{
    for kept in list {
        if shows(is_behind, scope.1, *kept) {
            show(bound, saved, kept.name, scope.0)?;
        }
    }
    Ok(())
}

// Shows a name, and keeps what it referred to.
fn show<'t>(
    bound: &mut Bound<'t>,
    saved: &mut Vec<Saved<'t>>,
    name: &'t str,
    scope: usize,
) -> Result<(), AllocError>
    ensures bound { OnOk result (IsSet bound.old bound.new name.entry (Some scope)) }
    ensures saved { OnOk result (reverse saved.new.items ≡ record { name = name.entry; scope = bound_in bound.old name.entry } ∷ reverse saved.old.items) }
    ensures utf8 { IsUtf8 name.now }
{
    saved.push(Saved {
        name,
        scope: scope_of(bound, name),
    })?;
    set(bound, name, Some(scope))
}

// Sets what a name refers to.
fn set<'t>(bound: &mut Bound<'t>, name: &'t str, scope: Option<usize>) -> Result<(), AllocError>
    ensures { OnOk result (IsSet bound.old bound.new name.entry scope) }
{
    bound.insert(name, scope)?;
    Ok(())
}

// Whether a declaration is seen where its scope begins, or behind the head.
fn shows(is_behind: bool, frame: Frame, kept: Kept<'_>) -> bool
    ensures { result ≡ shows is_behind (frame_of frame) (named_of kept.entry) }
{
    match frame {
        Frame::Function => is_behind || matches!(kept.sort, Sort::Parameter),
        Frame::Catch => {
            if is_behind {
                !matches!(kept.sort, Sort::Var)
            } else {
                kept.in_head
            }
        }
        Frame::Block => !matches!(kept.sort, Sort::Var),
        Frame::Module | Frame::Script | Frame::OwnName => true,
    }
}

// Lets names refer to what they did before, the last one first.
fn restore<'t>(bound: &mut Bound<'t>, saved: &[Saved<'t>]) -> Result<(), AllocError>
    ensures { OnOk result ((w : Bor (List ℕ)) → IsUtf8 w.now → bound_in bound.new w ≡ restored (reverse saved.now) (chars w.now) (bound_in bound.old w)) }
{
    let mut at = saved.len();
    while at > 0 {
        at -= 1;
        set(bound, saved[at].name, saved[at].scope)?;
    }
    Ok(())
}

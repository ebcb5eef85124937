//! What each scope declares.

ghost use Rattle.std.specs.Prelude.{◌≡◌, ℕ, [], ◌∷◌, ◌++◌, cond, nat_eq, reverse, true, IfOk, OnOk};
ghost use Rattle.std.specs.Ordering.{nat_cmp};
ghost use Rattle.std.specs.BTreeMap.{get};
ghost use Rattle.jsx_names.specs.Answers.{is_passed};
ghost use Rattle.jsx_names.specs.Code.{frame_of, plain, plain_all};
ghost use Rattle.jsx_names.specs.Gathered.{behind, given, giving, home_of};
ghost use Rattle.jsx_names.specs.declared.event.Sort.TheVariants as variant;
ghost use Rattle.jsx_names.specs.Shadowed.{Gathers, Homes, held, named_of, standing};

use crate::{Event, Frame, Sort};
use std::alloc::{AllocError, Global};
use std::collections::BTreeMap;

/// A declaration, as a scope keeps it.
#[derive(Clone, Copy)]
pub(crate) struct Kept<'t> {
    pub in_head: bool,
    pub sort: Sort,
    pub name: &'t str,
}

/// A scope that stands open: the number of the event that begins it, and that of the scope to which its
/// `var` names go, if there is one.
#[derive(Clone, Copy)]
pub(crate) struct Begun {
    pub number: usize,
    pub frame: Frame,
    pub home: Option<usize>,
}

/// What scopes declare, by the numbers of the events that begin them.
pub(crate) type Lists<'t> = BTreeMap<usize, Vec<Kept<'t>>>;

/// What each scope declares, but for the `var` names that only go through it.
pub(crate) fn gathered<'t>(alloc: Global, events: &[Event<'t>]) -> Result<Lists<'t>, AllocError>
    ensures { IfOk result (λ it. Gathers it (plain_all events.now)) }
{
    let mut lists = BTreeMap::new(alloc);
    let mut scopes = Vec::new(alloc);
    for (i, event) in events.iter().enumerate() {
        gather(&mut lists, &mut scopes, event, i)?;
    }
    Ok(lists)
}

// One event further.
fn gather<'t>(
    lists: &mut Lists<'t>,
    scopes: &mut Vec<Begun>,
    event: &Event<'t>,
    at: usize,
) -> Result<(), AllocError>
    ensures lists { OnOk result (Homes (reverse scopes.old.items) → (b : ℕ) → held (get nat_cmp lists.new b) ≡ held (get nat_cmp lists.old b) ++ giving b (standing scopes.old.items) (plain event.now)) }
    ensures scopes { OnOk result (standing scopes.new.items ≡ behind at (standing scopes.old.items) (plain event.now)) }
    ensures homes { OnOk result (Homes (reverse scopes.old.items) → Homes (reverse scopes.new.items)) }
{
    match *event {
        Event::Opens(frame) => begin(scopes, frame, at),
        Event::Closes => {
            scopes.pop();
            Ok(())
        }
        Event::Declares {
            in_head,
            sort,
            name,
            ..
        } => {
            let kept = Kept {
                in_head,
                sort,
                name,
            };
            keep(lists, scopes, kept)
        }
        _ => Ok(()),
    }
}

// Begins a scope.
fn begin(scopes: &mut Vec<Begun>, frame: Frame, at: usize) -> Result<(), AllocError>
    ensures scopes { OnOk result (standing scopes.new.items ≡ record { number = at; frame = frame_of frame } ∷ standing scopes.old.items) }
    ensures homes { OnOk result (Homes (reverse scopes.old.items) → Homes (reverse scopes.new.items)) }
{
    let home = if is_passed(frame) {
        home(scopes)
    } else {
        Some(at)
    };
    scopes.push(Begun {
        number: at,
        frame,
        home,
    })?;
    Ok(())
}

// Whether a `var` goes through such a scope.
fn is_passed(frame: Frame) -> bool
    ensures { result ≡ is_passed (frame_of frame) }
{
    matches!(frame, Frame::Block | Frame::Catch)
}

// Where `var` names go from here.
fn home(scopes: &[Begun]) -> Option<usize>
    ensures { Homes (reverse scopes.now) → result ≡ home_of (standing scopes.now) }
{
    match scopes.last() {
        Some(scope) => scope.home,
        None => None,
    }
}

// Adds a declaration to the lists of the scopes that keep it.
fn keep<'t>(lists: &mut Lists<'t>, scopes: &[Begun], kept: Kept<'t>) -> Result<(), AllocError>
    ensures { OnOk result (Homes (reverse scopes.now) → (b : ℕ) → held (get nat_cmp lists.new b) ≡ held (get nat_cmp lists.old b) ++ given b (named_of kept.entry) (standing scopes.now)) }
{
    match kept.sort {
        Sort::Var => keep_var(lists, scopes, kept),
        Sort::Parameter | Sort::Function | Sort::Lexical => match scopes.last() {
            Some(scope) => add(lists, scope.number, kept),
            None => Ok(()),
        },
    }
}

// The same for a `var`.
fn keep_var<'t>(lists: &mut Lists<'t>, scopes: &[Begun], kept: Kept<'t>) -> Result<(), AllocError>
    requires { kept.sort ≡ variant.Var }
    ensures { OnOk result (Homes (reverse scopes.now) → (b : ℕ) → held (get nat_cmp lists.new b) ≡ held (get nat_cmp lists.old b) ++ given b (named_of kept.entry) (standing scopes.now)) }
{
    if kept.in_head {
        return keep_through(lists, scopes, kept);
    }
    match home(scopes) {
        Some(number) => add(lists, number, kept),
        None => Ok(()),
    }
}

// The same for one that stands in a head. A grammar's heads hold none, so that this is no matter of time.
fn keep_through<'t>(
    lists: &mut Lists<'t>,
    scopes: &[Begun],
    kept: Kept<'t>,
) -> Result<(), AllocError>
    requires sort { kept.sort ≡ variant.Var }
    requires head { kept.in_head ≡ true }
    ensures { OnOk result ((b : ℕ) → held (get nat_cmp lists.new b) ≡ held (get nat_cmp lists.old b) ++ given b (named_of kept.entry) (standing scopes.now)) }
{
    let mut at = scopes.len();
    while at > 0 {
        at -= 1;
        add(lists, scopes[at].number, kept)?;
        if !is_passed(scopes[at].frame) {
            return Ok(());
        }
    }
    Ok(())
}

// Adds a declaration to the list of a scope.
fn add<'t>(lists: &mut Lists<'t>, number: usize, kept: Kept<'t>) -> Result<(), AllocError>
    ensures { OnOk result ((b : ℕ) → held (get nat_cmp lists.new b) ≡ cond (nat_eq number b) (held (get nat_cmp lists.old b) ++ named_of kept.entry ∷ []) (held (get nat_cmp lists.old b))) }
{
    lists.entry(number)?.or_default().push(kept)?;
    Ok(())
}

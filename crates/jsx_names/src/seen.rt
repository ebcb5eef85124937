//! What was declared so far, by scope and name.

ghost use Rattle.std.specs.Prelude.{◌≡◌, ℕ, List, ◌∷◌, cond, nat_eq, ◌&&◌, OnOk};
ghost use Rattle.std.specs.Str.{chars, IsUtf8};
ghost use denote.Ref.{Bor};
ghost use Rattle.jsx_base.specs.Token.{same};
ghost use Rattle.jsx_names.specs.Code.{sort_of};
ghost use Rattle.jsx_names.specs.Faults.{Noted, noted, is_late};
ghost use Rattle.jsx_tree.specs.Clashes.{clash};
ghost use Rattle.jsx_names.specs.Tables.{Tells, clashes_here, extent_of, reached, seen_in, stood, tells_late};

use crate::Sort;
use std::alloc::AllocError;
use std::collections::BTreeMap;

/// A scope: the numbers of the events that begin and end it, and of the one that begins the scope to
/// which its `var` names go; and whether functions, `var` names and parameters may meet in it.
#[derive(Clone, Copy)]
pub(crate) struct Extent {
    pub begin: usize,
    pub end: usize,
    pub home: usize,
    pub is_wide: bool,
}

/// What was declared under one name in one scope.
#[derive(Clone, Copy)]
pub(crate) struct Seen {
    pub parameter: bool,
    pub function: bool,
    pub lexical: bool,
    /// The number of the last `var` that goes to this scope, or 0.
    pub last_var: usize,
    /// Where the last scope ends in which a `var` that goes to this one would clash, or 0.
    pub last_end: usize,
}

/// By the number of the event that begins the scope, and the name.
pub(crate) type Table<'t> = BTreeMap<(usize, &'t str), Seen>;

/// What was declared under a name in a scope.
pub(crate) fn seen_in<'t>(table: &Table<'t>, scope: usize, name: &'t str) -> Seen
    ensures { result ≡ seen_in table.now scope name.entry }
{
    match table.get(&(scope, name)) {
        Some(seen) => *seen,
        None => Seen {
            parameter: false,
            function: false,
            lexical: false,
            last_var: 0,
            last_end: 0,
        },
    }
}

/// Sets what was declared under a name in a scope.
pub(crate) fn set<'t>(
    table: &mut Table<'t>,
    scope: usize,
    name: &'t str,
    seen: Seen,
) -> Result<(), AllocError>
    ensures { OnOk result ((n : ℕ) (w : Bor (List ℕ)) → IsUtf8 w.now → seen_in table.new n w ≡ cond (nat_eq scope n && same (chars w.now) (chars name.now)) seen (seen_in table.old n w)) }
{
    table.insert((scope, name), seen)?;
    Ok(())
}

/// Notes a declaration, which event `at` makes in the scope.
pub(crate) fn note<'t>(
    table: &mut Table<'t>,
    sort: Sort,
    name: &'t str,
    at: usize,
    scope: Extent,
) -> Result<(), AllocError>
    ensures { OnOk result ((ks : List Noted) → Tells table.old ks → Tells table.new (noted (sort_of sort) (chars name.now) at (extent_of scope) ∷ ks)) }
{
    let own = seen_in(table, scope.begin, name);
    set(table, scope.begin, name, stood(sort, own))?;
    let home = seen_in(table, scope.home, name);
    set(table, scope.home, name, reached(sort, at, scope, home))?;
    Ok(())
}

/// Whether a declaration clashes with one before it.
pub(crate) fn is_late<'t>(
    table: &Table<'t>,
    sort: Sort,
    name: &'t str,
    at: usize,
    scope: Extent,
) -> bool
    ensures { (ks : List Noted) → Tells table.now ks → result ≡ is_late (sort_of sort) (chars name.now) at (extent_of scope) ks }
{
    let own = seen_in(table, scope.begin, name);
    let home = seen_in(table, scope.home, name);
    tells_late(own, home, sort, at, scope)
}

fn stood(sort: Sort, seen: Seen) -> Seen
    ensures { result ≡ stood (sort_of sort) seen }
{
    let mut seen = seen;
    match sort {
        Sort::Var => {}
        Sort::Parameter => seen.parameter = true,
        Sort::Function => seen.function = true,
        Sort::Lexical => seen.lexical = true,
    }
    seen
}

fn reached(sort: Sort, at: usize, scope: Extent, seen: Seen) -> Seen
    ensures { result ≡ reached (sort_of sort) at (extent_of scope) seen }
{
    let mut seen = seen;
    match sort {
        Sort::Var => seen.last_var = seen.last_var.max(at),
        Sort::Parameter | Sort::Function | Sort::Lexical => {
            if clash(scope.is_wide, sort, Sort::Var) {
                seen.last_end = seen.last_end.max(scope.end);
            }
        }
    }
    seen
}

fn tells_late(own: Seen, home: Seen, sort: Sort, at: usize, scope: Extent) -> bool
    ensures { result ≡ tells_late own home (sort_of sort) at (extent_of scope) }
{
    match sort {
        Sort::Var => at < home.last_end,
        Sort::Parameter | Sort::Function | Sort::Lexical => {
            clashes_here(scope.is_wide, sort, own)
                || (scope.begin < home.last_var && clash(scope.is_wide, Sort::Var, sort))
        }
    }
}

fn clashes_here(is_wide: bool, sort: Sort, own: Seen) -> bool
    ensures { result ≡ clashes_here is_wide (sort_of sort) own }
{
    (own.parameter && clash(is_wide, Sort::Parameter, sort))
        || (own.function && clash(is_wide, Sort::Function, sort))
        || (own.lexical && clash(is_wide, Sort::Lexical, sort))
}

// Whether a declaration clashes with a later one of the same name in a scope.
fn clash(is_wide: bool, earlier: Sort, later: Sort) -> bool
    ensures { result ≡ clash is_wide (sort_of earlier) (sort_of later) }
{
    match (earlier, later) {
        (Sort::Var, Sort::Var) | (Sort::Var, Sort::Parameter) | (Sort::Parameter, Sort::Var) =>
            false,
        (Sort::Function, Sort::Var)
        | (Sort::Var, Sort::Function)
        | (Sort::Function, Sort::Function)
        | (Sort::Function, Sort::Parameter)
        | (Sort::Parameter, Sort::Function) => !is_wide,
        _ => true,
    }
}

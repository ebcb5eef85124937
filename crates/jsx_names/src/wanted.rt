//! Names that a module exports and doesn't declare.

ghost use Rattle.std.specs.Prelude.{◌≡◌, false, List, [], ◌++◌, reverse, IfOk, OnOk};
ghost use Rattle.std.specs.Str.{chars};
ghost use Rattle.jsx_base.specs.Token.{Text};
ghost use Rattle.jsx_tree.specs.Scopes.{Declaration, is_declared};
ghost use Rattle.jsx_names.specs.Answers.{all_of, collected, reaches};
ghost use Rattle.jsx_names.specs.Code.{plain, plain_all, sort_of};
ghost use Rattle.jsx_names.specs.Collected.{Knows, all_open, flags, is_over, naming, opening};
ghost use Rattle.jsx_names.specs.Events as events;
ghost use Rattle.jsx_names.specs.Faults.{first, is_unknown, unknown};
ghost use Rattle.jsx_names.specs.Tables.{Has};

use crate::again::is_new;
use crate::{Event, Frame, Sort};
use std::alloc::{AllocError, Global};
use std::collections::BTreeSet;

/// The names that a scope declares, by the events behind its beginning (ECMA-262 sections 8.2.5 and 8.2.7,
/// LexicallyDeclaredNames and VarDeclaredNames).
pub(crate) fn declared<'t>(
    alloc: Global,
    events: &[Event<'t>],
) -> Result<BTreeSet<&'t str>, AllocError>
    ensures { IfOk result (λ it. Knows it (all_of (collected [] (plain_all events.now)))) }
{
    let mut names = BTreeSet::new(alloc);
    let mut passed = Vec::new(alloc);
    for event in events {
        if is_over(&passed, event) {
            return Ok(names);
        }
        collect(&mut names, &passed, event)?;
        enter(&mut passed, event)?;
    }
    Ok(names)
}

// Whether the scope ends here.
fn is_over(passed: &[bool], event: &Event<'_>) -> bool
    ensures { (fs : List events.Frame) → reverse passed.now ≡ flags fs → result ≡ is_over fs (plain event.now) }
{
    matches!(event, Event::Closes) && passed.is_empty()
}

// Adds what is declared in the scope.
fn collect<'t>(
    names: &mut BTreeSet<&'t str>,
    passed: &[bool],
    event: &Event<'t>,
) -> Result<(), AllocError>
    ensures { OnOk result ((fs : List events.Frame) (us : List Text) → reverse passed.now ≡ flags fs → Has names.old us → Has names.new (naming fs (plain event.now) ++ us)) }
{
    if let Event::Declares { sort, name, .. } = *event {
        if reaches(passed, sort) {
            is_new(names, name)?;
        }
    }
    Ok(())
}

// Whether a declaration is one of the scope, and not only of one inside of it.
fn reaches(passed: &[bool], sort: Sort) -> bool
    ensures { (fs : List events.Frame) → reverse passed.now ≡ flags fs → result ≡ reaches (sort_of sort) fs }
{
    match sort {
        Sort::Var => all_passed(passed),
        Sort::Parameter | Sort::Function | Sort::Lexical => passed.is_empty(),
    }
}

// Whether a `var` goes through all scopes that stand open.
fn all_passed(passed: &[bool]) -> bool
    ensures { result ≡ all_open (reverse passed.now) }
{
    match passed.last() {
        Some(all) => *all,
        None => true,
    }
}

// The scopes that stand open behind an event.
fn enter(passed: &mut Vec<bool>, event: &Event<'_>) -> Result<(), AllocError>
    ensures { OnOk result ((fs : List events.Frame) → reverse passed.old.items ≡ flags fs → is_over fs (plain event.now) ≡ false → reverse passed.new.items ≡ flags (opening fs (plain event.now))) }
{
    match *event {
        Event::Opens(frame) => {
            let all = all_passed(passed) && matches!(frame, Frame::Block | Frame::Catch);
            passed.push(all)?;
        }
        Event::Closes => {
            passed.pop();
        }
        _ => {}
    }
    Ok(())
}

/// The number of the first name that is wanted and not among these.
pub(crate) fn first_unknown(names: &BTreeSet<&str>, events: &[Event<'_>]) -> Option<usize>
    ensures { (ds : List Declaration) → Knows names.now ds → result ≡ first (unknown 0 ds (plain_all events.now)) }
{
    for (i, event) in events.iter().enumerate() {
        if is_unknown(names, event) {
            return Some(i);
        }
    }
    None
}

fn is_unknown(names: &BTreeSet<&str>, event: &Event<'_>) -> bool
    ensures { (ds : List Declaration) → Knows names.now ds → result ≡ is_unknown ds (plain event.now) }
{
    match *event {
        Event::Wants(name, _) => !has(names, name),
        _ => false,
    }
}

fn has(names: &BTreeSet<&str>, name: &str) -> bool
    ensures { (ds : List Declaration) → Knows names.now ds → result ≡ is_declared (chars name.now) ds }
{
    names.contains(name)
}

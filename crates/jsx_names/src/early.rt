//! The early errors of a list of events.

ghost use Rattle.std.specs.Prelude.{◌≡◌, ◌<◌, IfOk};
ghost use Rattle.jsx_names.specs.Code.{place_in, place_of, plain_all, verdict, verdict_of};
ghost use Rattle.jsx_names.specs.Faults.{earlier, first_amiss};

use crate::again::first_again;
use crate::direct::first_call;
use crate::late::first_late;
use crate::wanted::{declared, first_unknown};
use crate::{EarlyError, Event, Frame};
use jsx_base::BytePos;
use std::alloc::{AllocError, Global};

fn place_of(event: &Event<'_>) -> BytePos
    ensures { result ≡ place_of event.now }
{
    match *event {
        Event::Declares { at, .. } => at,
        Event::Refers(_, at) | Event::Exports(_, at) | Event::Wants(_, at) | Event::Evals(at) => at,
        Event::Opens(_) | Event::Enters | Event::Closes => BytePos(0),
    }
}

fn place_in(events: &[Event<'_>], i: usize) -> BytePos
    ensures { result ≡ place_in events.now i }
{
    match events.get(i) {
        Some(event) => place_of(event),
        None => BytePos(0),
    }
}

fn earlier(a: Option<usize>, b: Option<usize>) -> Option<usize>
    ensures { result ≡ earlier a b }
{
    match (a, b) {
        (Some(i), Some(j)) => Some(if j < i { j } else { i }),
        (Some(_), None) => a,
        (None, _) => b,
    }
}

fn verdict(
    events: &[Event<'_>],
    fault: Option<usize>,
    call: Option<usize>,
) -> Result<(), EarlyError>
    ensures { result ≡ verdict_of fault call events.now }
{
    match (fault, call) {
        (Some(i), _) => Err(EarlyError::Scope(place_in(events, i))),
        (None, Some(i)) => Err(EarlyError::DirectEval(place_in(events, i))),
        (None, None) => Ok(()),
    }
}

/// The first early error of a program's names: a declaration that clashes with one before it, or a name
/// that a module exports twice, or exports and doesn't declare (ECMA-262 sections 14.2.1, 15.2.1, 16.1.1
/// and 16.2.1.1); and if there is none, the first direct call of `eval`. It takes time by the number of
/// events and its logarithm.
///
/// # Errors
///
/// `AllocError` for want of memory.
pub fn check(alloc: Global, events: &[Event<'_>]) -> Result<Result<(), EarlyError>, AllocError>
    ensures { IfOk result (λ it. it ≡ verdict events.now) }
{
    let late = first_late(alloc, events)?;
    let amiss = first_amiss(alloc, events)?;
    Ok(verdict(events, earlier(late, amiss), first_call(events)))
}

// The first early error on what a module exports.
fn first_amiss(alloc: Global, events: &[Event<'_>]) -> Result<Option<usize>, AllocError>
    ensures { IfOk result (λ it. it ≡ first_amiss (plain_all events.now)) }
{
    match events.split_first() {
        Some((Event::Opens(Frame::Module), inside)) => {
            let names = declared(alloc, inside)?;
            let again = first_again(alloc, events)?;
            Ok(earlier(again, first_unknown(&names, events)))
        }
        _ => Ok(None),
    }
}

//! The scopes that stand open.

ghost use Rattle.std.specs.Prelude.{◌≡◌, suc, List, ◌∷◌, cond, IfOk, OnOk};
ghost use Rattle.std.specs.Option.{option_map};
ghost use Rattle.jsx_names.specs.Answers.{is_passed, is_wide};
ghost use Rattle.jsx_names.specs.Code.{frame_of, plain, plain_all};
ghost use Rattle.jsx_names.specs.Ends.{IsClosed, ends_of};
ghost use Rattle.jsx_names.specs.Events as events;
ghost use Rattle.jsx_names.specs.Faults.{home_in, outside};
ghost use Rattle.jsx_names.specs.Tables.{extent_of, innermost, stack};

use crate::seen::Extent;
use crate::{Event, Frame};
use std::alloc::{AllocError, Global};

/// Where each scope ends, the first one last.
pub(crate) fn ends(alloc: Global, events: &[Event<'_>]) -> Result<Vec<usize>, AllocError>
    ensures { IfOk result (λ it. it.items ≡ ends_of 0 (plain_all events.now)) }
{
    let mut ends = Vec::new(alloc);
    let mut closed = Vec::new(alloc);
    let mut at = events.len();
    while at > 0 {
        at -= 1;
        end_before(&mut ends, &mut closed, &events[at], at, events.len())?;
    }
    Ok(ends)
}

// One event further to the left. Of the scopes whose end was met and not yet their beginning, the
// innermost one is last; one that doesn't end goes to the end of the list.
fn end_before(
    ends: &mut Vec<usize>,
    closed: &mut Vec<usize>,
    event: &Event<'_>,
    at: usize,
    last: usize,
) -> Result<(), AllocError>
    ensures ends { OnOk result ((es : List events.Event) → ends.old.items ≡ ends_of (suc at) es → IsClosed closed.old.items last (suc at) es → ends.new.items ≡ ends_of at (plain event.now ∷ es)) }
    ensures closed { OnOk result ((es : List events.Event) → IsClosed closed.old.items last (suc at) es → IsClosed closed.new.items last at (plain event.now ∷ es)) }
{
    match *event {
        Event::Opens(_) => ends.push(closed.pop().unwrap_or(last))?,
        Event::Closes => closed.push(at)?,
        _ => {}
    }
    Ok(())
}

/// Begins a scope.
pub(crate) fn open(
    scopes: &mut Vec<Extent>,
    frame: Frame,
    at: usize,
    end: usize,
) -> Result<(), AllocError>
    ensures { OnOk result (stack scopes.new.items ≡ record { begin = at; end' = end; home = cond (is_passed (frame_of frame)) (home_in at (stack scopes.old.items)) at; wide = is_wide (frame_of frame) } ∷ stack scopes.old.items) }
{
    let home = match frame {
        Frame::Block | Frame::Catch => home(scopes, at),
        Frame::Module | Frame::Script | Frame::Function | Frame::OwnName => at,
    };
    scopes.push(Extent {
        begin: at,
        end,
        home,
        is_wide: matches!(frame, Frame::Script | Frame::Function),
    })?;
    Ok(())
}

// Where `var` names go from here.
fn home(scopes: &[Extent], at: usize) -> usize
    ensures { result ≡ home_in at (stack scopes.now) }
{
    match innermost(scopes) {
        Some(scope) => scope.home,
        None => at,
    }
}

pub(crate) fn innermost(scopes: &[Extent]) -> Option<Extent>
    ensures { option_map extent_of result ≡ innermost (stack scopes.now) }
{
    scopes.last().copied()
}

/// Ends a scope.
pub(crate) fn close(scopes: &mut Vec<Extent>)
    ensures { stack scopes.new.items ≡ outside (stack scopes.old.items) }
{
    scopes.pop();
}

//! Direct calls of `eval`.

ghost use Rattle.std.specs.Prelude.{◌≡◌};
ghost use Rattle.jsx_names.specs.Code.{plain_all};
ghost use Rattle.jsx_names.specs.Faults.{calls, first};

use crate::Event;

/// The number of the first call (ECMA-262 section 13.3.6.1).
pub(crate) fn first_call(events: &[Event<'_>]) -> Option<usize>
    ensures { result ≡ first (calls 0 (plain_all events.now)) }
{
    for (i, event) in events.iter().enumerate() {
        if let Event::Evals(_) = event {
            return Some(i);
        }
    }
    None
}

//! The walk, and how deep it may go.

ghost use Rattle.std.specs.Prelude.{◌<◌, IfOk};

use std::alloc::AllocError;

/// A walk over a tree, with how many levels it may still go down: a tree has fewer than memory has bytes.
#[derive(Clone, Copy)]
pub(crate) struct Walker {
    pub(crate) levels: usize,
}

impl Walker {
    pub(crate) fn below(self) -> Result<Walker, AllocError>
        ensures { IfOk result (λ w. w.levels < self.levels) }
    {
        match self.levels.checked_sub(1) {
            Some(levels) => Ok(Walker { levels }),
            None => Err(AllocError),
        }
    }
}

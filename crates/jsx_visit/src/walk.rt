//! The walk, over all types of node.

ghost use Rattle.std.specs.Prelude.{◌<◌, IfOk};

use std::alloc::{AllocError, Global};

/// A walk over a tree, with how many levels it may still go down: a tree has fewer than memory has bytes.
#[derive(Clone, Copy)]
pub(crate) struct Walker {
    pub(crate) alloc: Global,
    pub(crate) levels: usize,
}

impl Walker {
    /// One level down.
    pub(crate) fn below(self) -> Result<Walker, AllocError>
        ensures { IfOk result (λ w. w.levels < self.levels) }
    {
        match self.levels.checked_sub(1) {
            Some(levels) => Ok(Walker { levels, ..self }),
            None => Err(AllocError),
        }
    }
}

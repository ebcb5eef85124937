//! What a pass over a tree works with.

use crate::{Emitter, Handler};
use jsx_base::{Comments, Globals, SourceMap};

/// What a pass over a tree works with, beside the tree.
pub struct Cx<'a, C: Comments, E: Emitter> {
    /// The files of the program.
    pub cm: &'a SourceMap,
    /// The comments of the program, unless they don't matter.
    pub comments: Option<&'a mut C>,
    /// Where new marks come from.
    pub globals: &'a mut Globals,
    /// What reports go to.
    pub handler: &'a mut Handler<E>,
}

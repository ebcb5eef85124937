//! The pages of reports, and what they are made of.
#![tactic(auto)]

mod emitter_writer;
mod lock;
mod output;
mod page;

pub use emitter_writer::{EmitterWriter, with_emitter_writer};
pub use jsx_draw::{
    Annotation, AnnotationType, Line, MultilineAnnotation, StyledBuffer, StyledString,
};
pub use lock::{GlobalLock, acquire_global_lock};
pub use output::{ColorConfig, Destination, MAX_HIGHLIGHT_LINES, MAX_SUGGESTIONS, WritableDst};

#[cfg(test)]
mod tests;

//! Reports on their way out: what prints them, and the books of what was printed.
#![tactic(auto)]

mod builder;
mod context;
mod emitter;
mod error;
mod handler;
mod known;
mod reports;

pub use builder::DiagnosticBuilder;
pub use context::Cx;
pub use emitter::Emitter;
pub use error::{EmitError, HandlerError};
pub use handler::Handler;
pub use jsx_diag::{
    Applicability, CodeSuggestion, Diagnostic, DiagnosticId, DiagnosticStyledString, ExplicitBug,
    FatalError, FatalErrorMarker, HandlerFlags, Level, Message, StringPart, Style, SubDiagnostic,
    Substitution, SubstitutionPart,
};

#[cfg(test)]
mod tests;

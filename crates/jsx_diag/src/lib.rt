//! The records of reports: what is wrong, where, and what to write instead.
#![tactic(auto)]

mod diagnostic;
mod flags;
mod level;
mod message;
mod splice;
mod sub_diagnostic;
mod suggestion;

pub use diagnostic::{Diagnostic, DiagnosticId};
pub use flags::{ExplicitBug, FatalError, FatalErrorMarker, HandlerFlags};
pub use level::{Applicability, Level, Style};
pub use message::{DiagnosticStyledString, Message, StringPart};
pub use splice::SpliceError;
pub use sub_diagnostic::SubDiagnostic;
pub use suggestion::{CodeSuggestion, Substitution, SubstitutionPart};

#[cfg(test)]
mod tests;

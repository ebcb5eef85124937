//! A report.

ghost use Rattle.std.specs.Prelude.{◌≡◌, ◌↔◌, IsTrue, [], ◌∷◌, None, IfOk, string_bytes, map};
ghost use Rattle.std.specs.Option.{option_map};
ghost use Rattle.std.specs.List.{flat_map};
ghost use Rattle.jsx_base.specs.MultiSpan.{spans_of};
ghost use Rattle.jsx_diag.specs.Level.{is_error_level, is_cancelled_level};
ghost use Rattle.jsx_diag.specs.Data.{Report, code_of, report_of};
ghost use Rattle.jsx_diag.specs.Adds.{plain_piece, nowhere, new_report};

mod notes;
mod suggestions;

use crate::message::{clone_messages, joined, one_plain};
use crate::sub_diagnostic::clone_children;
use crate::suggestion::clone_suggestions;
use crate::{CodeSuggestion, Level, Message, SubDiagnostic};
use jsx_base::MultiSpan;
use std::alloc::{AllocError, Global};

/// A report: what is wrong and where, with notes and suggestions.
#[derive(Debug, PartialEq, Eq, Hash, Drop)]
pub struct Diagnostic {
    pub level: Level,
    pub message: Vec<Message>,
    pub code: Option<DiagnosticId>,
    pub span: MultiSpan,
    pub children: Vec<SubDiagnostic>,
    pub suggestions: Vec<CodeSuggestion>,
}

/// The name of a kind of report.
#[derive(Debug, PartialEq, Eq, Hash, Drop)]
pub enum DiagnosticId {
    Error(String),
    Lint(String),
}

impl DiagnosticId {
    /// An equal one.
    ///
    /// # Errors
    ///
    /// `AllocError` for want of memory.
    pub fn try_clone(&self, alloc: Global) -> Result<DiagnosticId, AllocError>
        ensures { IfOk result (λ copy. code_of copy ≡ code_of self.now) }
    {
        Ok(match self {
            DiagnosticId::Error(name) => DiagnosticId::Error(String::from_str(
                alloc,
                name.as_str(),
            )?),
            DiagnosticId::Lint(name) => DiagnosticId::Lint(String::from_str(alloc, name.as_str())?),
        })
    }
}

impl Diagnostic {
    /// A report of one plain message, which points nowhere.
    ///
    /// # Errors
    ///
    /// `AllocError` for want of memory.
    pub fn new(alloc: Global, level: Level, message: &str) -> Result<Diagnostic, AllocError>
        ensures { IfOk result (λ it. report_of it ≡ new_report level None message.now) }
    {
        Diagnostic::new_with_code(alloc, level, None, message)
    }

    /// The same, with a code.
    ///
    /// # Errors
    ///
    /// `AllocError` for want of memory.
    pub fn new_with_code(
        alloc: Global,
        level: Level,
        code: Option<DiagnosticId>,
        message: &str,
    ) -> Result<Diagnostic, AllocError>
        ensures { IfOk result (λ it. report_of it ≡ new_report level (option_map code_of code) message.now) }
    {
        Ok(Diagnostic {
            level,
            message: one_plain(alloc, message)?,
            code,
            span: MultiSpan::new(alloc),
            children: Vec::new(alloc),
            suggestions: Vec::new(alloc),
        })
    }

    /// Whether it says that something went wrong.
    pub fn is_error(&self) -> bool
        ensures { result ≡ is_error_level self.now.level }
    {
        match self.level {
            Level::Bug | Level::Fatal | Level::PhaseFatal | Level::Error | Level::FailureNote =>
                true,
            Level::Warning | Level::Note | Level::Help | Level::Cancelled => false,
        }
    }

    /// From now on it is cancelled.
    pub fn cancel(&mut self)
        ensures { self.new ≡ record self.old { level = Level.Cancelled } }
    {
        self.level = Level::Cancelled;
    }

    /// Whether it is cancelled.
    pub fn cancelled(&self) -> bool
        ensures { result ≡ is_cancelled_level self.now.level }
    {
        self.level == Level::Cancelled
    }

    /// Whether the two are equal in every field.
    pub fn is_same(&self, other: &Diagnostic) -> bool
        ensures { IsTrue result ↔ (report_of self.now ≡ report_of other.now) }
    {
        *self == *other
    }

    /// The pieces of its message.
    pub fn styled_message(&self) -> &Vec<Message>
        ensures { result.now ≡ self.now.message }
    {
        &self.message
    }

    /// From now on it points there.
    pub fn set_span(&mut self, sp: MultiSpan) -> &mut Self
        ensures span { result.now ≡ record self.old { span = sp } }
        ensures same_reference { result.ghost_name ≡ self.entry.ghost_name }
    {
        self.span = sp;
        self
    }

    /// From now on it has this code.
    pub fn code(&mut self, s: DiagnosticId) -> &mut Self
        ensures code { result.now ≡ record self.old { code = Some s } }
        ensures same_reference { result.ghost_name ≡ self.entry.ghost_name }
    {
        self.code = Some(s);
        self
    }

    /// Its code.
    ///
    /// # Errors
    ///
    /// `AllocError` for want of memory.
    pub fn get_code(&self, alloc: Global) -> Result<Option<DiagnosticId>, AllocError>
        ensures { IfOk result (λ code. option_map code_of code ≡ (report_of self.now).code) }
    {
        clone_code(alloc, &self.code)
    }

    /// The text of its message.
    ///
    /// # Errors
    ///
    /// `AllocError` for want of memory.
    pub fn message(&self, alloc: Global) -> Result<String, AllocError>
        ensures { IfOk result (λ text. string_bytes text ≡ flat_map (λ piece. piece.text) (report_of self.now).message) }
    {
        joined(alloc, &self.message)
    }

    /// An equal one.
    ///
    /// # Errors
    ///
    /// `AllocError` for want of memory.
    pub fn try_clone(&self, alloc: Global) -> Result<Diagnostic, AllocError>
        ensures { IfOk result (λ copy. report_of copy ≡ report_of self.now) }
    {
        Ok(Diagnostic {
            level: self.level,
            message: clone_messages(alloc, &self.message)?,
            code: clone_code(alloc, &self.code)?,
            span: self.span.try_clone(alloc)?,
            children: clone_children(alloc, &self.children)?,
            suggestions: clone_suggestions(alloc, &self.suggestions)?,
        })
    }
}

// An equal code.
fn clone_code(
    alloc: Global,
    code: &Option<DiagnosticId>,
) -> Result<Option<DiagnosticId>, AllocError>
    ensures { IfOk result (λ copy. option_map code_of copy ≡ option_map code_of code.now) }
{
    match code {
        Some(code) => Ok(Some(code.try_clone(alloc)?)),
        None => Ok(None),
    }
}

//! How grave a report is, how its words look, and how sure a suggestion is.

ghost use Rattle.std.specs.Prelude.{◌≡◌, Some};
ghost use Rattle.std.specs.Option.{option_map, unwrap_or};
ghost use Rattle.jsx_diag.specs.Level.{level_text, is_failure_level, shown_text};

use std::fmt;

/// How grave a report is.
#[derive(Clone, Copy, Debug, PartialEq, Eq, Hash)]
pub enum Level {
    Bug,
    Fatal,
    PhaseFatal,
    Error,
    Warning,
    Note,
    Help,
    Cancelled,
    FailureNote,
}

impl Level {
    /// The word for it. A cancelled report has none.
    pub fn to_str(self) -> Option<&'static str>
        ensures { option_map (λ text. text.now) result ≡ level_text self }
    {
        match self {
            Level::Bug => Some("error: internal compiler error"),
            Level::Fatal | Level::PhaseFatal | Level::Error => Some("error"),
            Level::Warning => Some("warning"),
            Level::Note => Some("note"),
            Level::Help => Some("help"),
            Level::Cancelled => None,
            Level::FailureNote => Some(""),
        }
    }

    /// Whether it is `FailureNote`.
    pub fn is_failure_note(self) -> bool
        ensures { result ≡ is_failure_level self }
    {
        matches!(self, Level::FailureNote)
    }
}

impl fmt::Display for Level {
    ghost output = { λ level. Some (shown_text level) };

    /// The level's word. For a cancelled report nothing is printed.
    fn fmt<W: fmt::Write>(&self, f: &mut fmt::Formatter<W>) -> fmt::Result {
        f.write_str(self.to_str().unwrap_or(""))
    }
}

/// How a piece of a message looks.
#[derive(Clone, Copy, Debug, PartialEq, Eq, Hash)]
pub enum Style {
    MainHeaderMsg,
    HeaderMsg,
    LineAndColumn,
    LineNumber,
    Quotation,
    UnderlinePrimary,
    UnderlineSecondary,
    LabelPrimary,
    LabelSecondary,
    OldSchoolNoteText,
    NoStyle,
    Level(Level),
    Highlight,
}

/// How sure a suggestion is.
#[derive(Clone, Copy, Debug, PartialEq, Eq, Hash)]
pub enum Applicability {
    /// A program may apply it.
    MachineApplicable,
    /// It has places that a person fills in.
    HasPlaceholders,
    /// It may be wrong.
    MaybeIncorrect,
    Unspecified,
}

//! How reports are handled, and how an end is told.

ghost use Rattle.std.specs.Prelude.{◌≡◌, Some, false, codes};

use std::fmt;

/// What a handler does with reports. All are false at first.
#[derive(Clone, Copy, Debug, PartialEq, Eq)]
pub struct HandlerFlags {
    /// Warnings are printed.
    pub can_emit_warnings: bool,
    /// The first error is a bug of the program that reports it.
    pub treat_err_as_bug: bool,
    /// Reports that could wait are printed at once.
    pub dont_buffer_diagnostics: bool,
    /// Delayed bugs are printed at once.
    pub report_delayed_bugs: bool,
    /// Places in macros of other crates are shown.
    pub external_macro_backtrace: bool,
}

impl Default for HandlerFlags {
    ghost is_default = { λ flags. flags ≡ record { can_emit_warnings = false; treat_err_as_bug = false; dont_buffer_diagnostics = false; report_delayed_bugs = false; external_macro_backtrace = false } };

    fn default() -> HandlerFlags {
        HandlerFlags {
            can_emit_warnings: false,
            treat_err_as_bug: false,
            dont_buffer_diagnostics: false,
            report_delayed_bugs: false,
            external_macro_backtrace: false,
        }
    }
}

/// No further work makes sense.
#[derive(Clone, Copy, Debug)]
pub struct FatalError;

/// Marks an end by a `FatalError`.
#[derive(Clone, Copy)]
pub struct FatalErrorMarker;

/// A bug of the program was reported.
#[derive(Clone, Copy, Debug)]
pub struct ExplicitBug;

impl FatalError {
    /// Itself, to be handed on as an error.
    pub fn raise(self) -> FatalError
        ensures { result ≡ self }
    {
        self
    }
}

impl fmt::Display for FatalError {
    ghost output = { λ _. Some (codes "parser fatal error") };

    fn fmt<W: fmt::Write>(&self, f: &mut fmt::Formatter<W>) -> fmt::Result {
        f.write_str("parser fatal error")
    }
}

impl fmt::Display for ExplicitBug {
    ghost output = { λ _. Some (codes "parser internal bug") };

    fn fmt<W: fmt::Write>(&self, f: &mut fmt::Formatter<W>) -> fmt::Result {
        f.write_str("parser internal bug")
    }
}

//! Why a report wasn't printed, and how work ends.

use std::alloc::AllocError;

/// Why an emitter didn't print a report.
#[derive(Clone, Copy, Debug, PartialEq, Eq)]
pub enum EmitError {
    /// The outside failed.
    WriteFault,
    /// Want of memory.
    Memory,
}

/// Why a call of a handler didn't answer as it should.
#[derive(Clone, Copy, Debug, PartialEq, Eq)]
pub enum HandlerError {
    /// The emitter didn't print the report.
    Emit(EmitError),
    /// A bug of the program was reported.
    ExplicitBug,
    /// There were errors, and no further work makes sense.
    FatalError,
    /// Want of memory.
    Memory,
}

impl From<AllocError> for HandlerError {
    ghost use Rattle.std.specs.Prelude.{◌≡◌};
    ghost use Rattle.jsx_report.specs.declared.error.HandlerError.TheVariants.{Memory};

    ghost from_gives = { λ _ e. e ≡ Memory };

    fn from(_: AllocError) -> HandlerError {
        HandlerError::Memory
    }
}

impl From<EmitError> for HandlerError {
    ghost use Rattle.std.specs.Prelude.{◌≡◌};
    ghost use Rattle.jsx_report.specs.declared.error.HandlerError.TheVariants.{Emit};

    ghost from_gives = { λ error e. e ≡ Emit error };

    fn from(error: EmitError) -> HandlerError {
        HandlerError::Emit(error)
    }
}

//! Each call with ample memory. What is told to a new report stands in a function to which the report is lent, and what
//! the report has then is looked at elsewhere: a function that does both, or holds the report, takes long to prove.

mod notes;
mod records;
mod splices;
mod suggestions;

use crate::{Diagnostic, Level};
use jsx_base::{BytePos, Span};
use std::alloc::{AllocError, Global};

// A place, and another one.
const HERE: Span = Span {
    lo: BytePos(1),
    hi: BytePos(2),
};

const THERE: Span = Span {
    lo: BytePos(3),
    hi: BytePos(4),
};

fn text(alloc: Global, text: &str) -> Result<String, AllocError> {
    String::from_str(alloc, text)
}

// Whether it is this text.
fn is(made: Result<String, AllocError>, want: &str) -> bool {
    match made {
        Ok(text) => text.as_str() == want,
        Err(_) => false,
    }
}

// A report without notes.
fn report(alloc: Global) -> Result<Diagnostic, AllocError> {
    Diagnostic::new(alloc, Level::Error, "bad")
}

// Whether the case holds of such a report.
fn holds<F: FnOnce(Global, &mut Diagnostic) -> Result<bool, AllocError>>(
    alloc: Global,
    case: F,
) -> bool
    requires { F.IsAlwaysCallable case }
{
    match report(alloc) {
        Ok(mut report) => case(alloc, &mut report).unwrap_or(false),
        Err(_) => false,
    }
}

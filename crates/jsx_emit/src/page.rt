//! The page of a report.

ghost use Rattle.std.specs.Prelude.{IfOk, string_bytes};
ghost use Rattle.std.specs.Option.{option_map};
ghost use Rattle.jsx_diag.specs.Data.{report_of};
ghost use Rattle.jsx_emit.specs.Called.{ShowsAny};

mod children;
mod header;
mod labels;
mod lines;
mod long;
mod notes;
mod numbers;
mod part;
mod part_marks;
mod places;
mod prepared;
mod rows;
mod short;
mod sources;
mod suggestions;
mod ways;
mod width;

use crate::page::long::long_text;
use crate::page::prepared::prepared;
use crate::page::short::short_text;
use jsx_base::SourceMapper;
use jsx_report::{Diagnostic, HandlerFlags};
use std::alloc::{AllocError, Global};

/// How pages are made.
#[derive(Clone, Copy)]
pub struct Look {
    pub short: bool,
    pub ui_testing: bool,
    pub skip_filename: bool,
}

/// The page of a report, over these files.
pub fn page<M: SourceMapper>(
    alloc: Global,
    map: Option<&M>,
    look: Look,
    db: &Diagnostic,
    flags: &HandlerFlags,
) -> Result<String, AllocError>
    ensures { IfOk result (λ text. ShowsAny (record { map = option_map (λ map. record { files = M.files map.now; call_span = M.call_span map.now; offset_line = M.offset_line map.now }) map.entry; short = look.short; ui_testing = look.ui_testing; skip_filename = look.skip_filename }) flags.now.external_macro_backtrace (report_of db.now) (string_bytes text)) }
{
    let report = prepared(alloc, map, db, flags)?;
    if look.short {
        return short_text(alloc, map, &report);
    }
    long_text(alloc, map, look, &report)
}

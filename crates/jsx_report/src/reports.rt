//! Reports that are made whole, and lists of them.

ghost use Rattle.std.specs.Prelude.{◌≡◌, [], ◌∷◌, ◌++◌, map, IfOk, OnOk, OnErr};
ghost use Rattle.std.specs.Option.{option_map};
ghost use Rattle.jsx_base.specs.MultiSpan.{spans_of};
ghost use Rattle.jsx_diag.specs.Data.{code_of, report_of};
ghost use Rattle.jsx_report.specs.Made.{report_at};

use jsx_base::MultiSpan;
use jsx_diag::{Diagnostic, DiagnosticId, Level};
use std::alloc::{AllocError, Global};

// A report of one plain message, which points at these spans.
pub(crate) fn made_at(
    alloc: Global,
    level: Level,
    code: Option<DiagnosticId>,
    msg: &str,
    span: MultiSpan,
) -> Result<Diagnostic, AllocError>
    ensures { IfOk result (λ report. report_of report ≡ report_at level (option_map code_of code) msg.now (spans_of span)) }
{
    let Ok(mut report) = Diagnostic::new_with_code(alloc, level, code, msg) else {
        return Err(AllocError);
    };
    report.set_span(span);
    Ok(report)
}

// Puts a report behind the others.
pub(crate) fn push(reports: &mut Vec<Diagnostic>, report: Diagnostic) -> Result<(), AllocError>
    ensures added { OnOk result (map report_of reports.new.items ≡ map report_of reports.old.items ++ report_of report ∷ []) }
    ensures kept { OnErr result (map report_of reports.new.items ≡ map report_of reports.old.items) }
{
    match reports.push(report) {
        Ok(()) => Ok(()),
        Err(_) => Err(AllocError),
    }
}

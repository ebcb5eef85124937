//! Reports and codes that were met before. Looking for one hashes it, and compares it with those
//! of its hash.

ghost use Rattle.std.specs.Prelude.{◌≡◌, ◌<◌, ◌++◌, ◌∷◌, [], false, map};
ghost use Rattle.std.specs.Option.{option_map};
ghost use Rattle.indexmap.specs.IndexSet.{spare};
ghost use Rattle.jsx_diag.specs.Data.{code_of, report_of};
ghost use Rattle.jsx_report.specs.Books.{knows_code, knows_report, with_code_of};

use indexmap::IndexSet;
use jsx_diag::{Diagnostic, DiagnosticId};

// Whether an equal report is there.
pub(crate) fn has_report(reports: &IndexSet<Diagnostic>, report: &Diagnostic) -> bool
    ensures { result ≡ knows_report (map report_of reports.now.keys) (report_of report.now) }
{
    reports.contains(report)
}

// Puts a report that isn't there behind the others. There is room for it.
pub(crate) fn put_report(reports: &mut IndexSet<Diagnostic>, report: Diagnostic)
    requires new { knows_report (map report_of reports.old.keys) (report_of report) ≡ false }
    requires room { 0 < spare reports.old }
    ensures { map report_of reports.new.keys ≡ map report_of reports.old.keys ++ report_of report ∷ [] }
{
    reports.insert(report).unwrap();
}

// Whether the code is there.
pub(crate) fn has_code(codes: &IndexSet<DiagnosticId>, code: &DiagnosticId) -> bool
    ensures { result ≡ knows_code (map code_of codes.now.keys) (code_of code.now) }
{
    codes.contains(code)
}

// Puts a code behind the others, if there is one and it isn't there. There is room for it.
pub(crate) fn put_code(codes: &mut IndexSet<DiagnosticId>, code: Option<DiagnosticId>)
    requires { 0 < spare codes.old }
    ensures { map code_of codes.new.keys ≡ with_code_of (map code_of codes.old.keys) (option_map code_of code) }
{
    if let Some(code) = code {
        codes.insert(code).unwrap();
    }
}

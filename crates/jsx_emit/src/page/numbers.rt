//! The numbers of lines.

ghost use Rattle.std.specs.Prelude.{◌≡◌, ◌+◌, map, cond, codes, decimal, length, IfOk, string_bytes};
ghost use Rattle.std.specs.Option.{option_map};
ghost use Rattle.jsx_base.specs.MultiSpan.{spans_of};
ghost use Rattle.jsx_diag.specs.Data.{child_of};
ghost use Rattle.jsx_emit.specs.Texts.{last_line_over};

use crate::page::Look;
use crate::page::width::report_line;
use jsx_base::SourceMapper;
use jsx_report::Diagnostic;
use std::alloc::{AllocError, Global};

/// A line's number, or `LL`.
pub(super) fn number(alloc: Global, look: Look, line: usize) -> Result<String, AllocError>
    ensures { IfOk result (λ text. string_bytes text ≡ cond look.ui_testing (codes "LL") (decimal line)) }
{
    if look.ui_testing {
        String::from_str(alloc, "LL")
    } else {
        format!(in alloc; "{line}")
    }
}

/// How many cells the numbers of a report's lines take.
pub(super) fn number_width<M: SourceMapper>(
    alloc: Global,
    cm: Option<&M>,
    look: Look,
    report: &Diagnostic,
) -> Result<usize, AllocError>
    ensures { IfOk result (λ width. width ≡ cond look.ui_testing 2 (length (decimal (last_line_over (option_map (λ cm. M.files cm.now) cm.entry) (spans_of report.now.span) (map child_of report.now.children.items))))) }
{
    if look.ui_testing {
        return Ok(2);
    }
    let line = last_line(alloc, cm, report)?;
    digits(alloc, line)
}

// The greatest line in which a span of a report ends.
fn last_line<M: SourceMapper>(
    alloc: Global,
    cm: Option<&M>,
    report: &Diagnostic,
) -> Result<usize, AllocError>
    ensures { IfOk result (λ line. line ≡ last_line_over (option_map (λ cm. M.files cm.now) cm.entry) (spans_of report.now.span) (map child_of report.now.children.items)) }
{
    let Some(cm) = cm else {
        return Ok(0);
    };
    report_line(alloc, cm, &report.span, &report.children)
}

// How many digits a number has.
fn digits(alloc: Global, n: usize) -> Result<usize, AllocError>
    ensures { IfOk result (λ digits. digits ≡ length (decimal n)) }
{
    let digits = format!(in alloc; "{n}")?;
    Ok(digits.len())
}

//! What prints reports.

ghost use Rattle.std.specs.Prelude.{◌≡◌, ℕ, ◌≤◌, Bool, Option, Err, OnOk};
ghost use Rattle.jsx_base.specs.Faults.{Rose};
ghost use Rattle.jsx_diag.specs.declared.flags.HandlerFlags.{HandlerFlags};
ghost use Rattle.jsx_diag.specs.Data.{Text, Report, report_of};
ghost use Rattle.jsx_report.specs.Emitter.{Prints, PrintsPrefix, ShowAlike};

use crate::EmitError;
use jsx_diag::{Diagnostic, HandlerFlags};

/// What prints reports.
pub trait Emitter {
    /// What it has printed, where it tells that.
    ghost text: { Self → Option Text };

    /// How often the outside has failed.
    ghost faults: { Self → ℕ };

    /// Whether it shows where errors are explained.
    ghost explains: { Self → Bool };

    /// It may print this page for the report, under these flags.
    ghost shows: { Self → HandlerFlags → Report → Text → Type 0 };

    /// Prints a report.
    ///
    /// # Errors
    ///
    /// `WriteFault` where the outside failed. Then some front of a page was printed. `Memory` for
    /// want of memory. Then nothing was printed.
    fn emit(&mut self, db: &Diagnostic, flags: &HandlerFlags) -> Result<(), EmitError>
        ensures printed { OnOk result (Prints (shows self.old flags.now) (report_of db.now) (text self.old) (text self.new)) }
        ensures prefix { result ≡ Err EmitError.WriteFault → PrintsPrefix (shows self.old flags.now) (report_of db.now) (text self.old) (text self.new) }
        ensures cause { result ≡ Err EmitError.WriteFault → Rose (faults self.old) (faults self.new) }
        ensures nothing { result ≡ Err EmitError.Memory → text self.new ≡ text self.old }
        ensures never_falls { faults self.old ≤ faults self.new }
        ensures same_explains { explains self.new ≡ explains self.old }
        ensures same_pages { ShowAlike (shows self.old) (shows self.new) };

    /// Whether it shows where errors are explained.
    fn should_show_explain(&self) -> bool
        ensures { result ≡ explains self.now };
}

//! The lines that say why a source isn't compiled.

ghost use Rattle.std.specs.Prelude.{◌≡◌, ◌≤◌, ◌+◌, IfOk, length, string_bytes};
ghost use Rattle.std.specs.Str.{IsUtf8, chars};
ghost use Rattle.jsx_base.specs.Lines.{front, line_of, col_of};
ghost use Rattle.react_compile.specs.Lines.{fault_at, not_utf8, placed_fault};
ghost use Rattle.react_compile.specs.Run.{max_source};

use crate::spot::spot_of;
use std::alloc::{AllocError, Global};
use std::str;

/// The line of bytes that aren't UTF-8, of which so many are.
pub fn not_utf8_line(alloc: Global, at: usize) -> Result<String, AllocError>
    ensures { IfOk result (λ line. string_bytes line ≡ not_utf8 at) }
{
    format!(in alloc; "input.js: not UTF-8 at byte {at}\n")
}

/// The line of the place behind so many bytes of a source, and the column in characters, both from 1.
fn spot_in(source: &[u8], at: u32) -> (usize, usize)
    requires short { length source.now ≤ max_source }
    requires utf8 { IsUtf8 source.now }
    ensures line { result.0 ≡ line_of (front (chars source.now) at) }
    ensures column { result.1 ≡ col_of (front (chars source.now) at) + 1 }
{
    let text = str::from_utf8(source).unwrap();
    spot_of(text, at as usize)
}

/// The line that says what is wrong behind so many bytes of a source.
pub fn fault_line(alloc: Global, fault: &str, source: &[u8], at: u32) -> Result<String, AllocError>
    requires short { length source.now ≤ max_source }
    requires utf8 { IsUtf8 source.now }
    ensures { IfOk result (λ line. string_bytes line ≡ fault_at fault.now source.now at) }
{
    let (line, column) = spot_in(source, at);
    placed_line(alloc, fault, line, column)
}

/// The line that says what is wrong on a line, and in a column of it.
fn placed_line(alloc: Global, fault: &str, line: usize, column: usize) -> Result<String, AllocError>
    ensures { IfOk result (λ text. string_bytes text ≡ placed_fault fault.now line column) }
{
    format!(in alloc; "input.js:{line}:{column}: {fault}\n")
}

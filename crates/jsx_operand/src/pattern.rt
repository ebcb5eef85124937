//! Questions about a pattern that was read.

ghost use Rattle.std.specs.Prelude.{◌≡◌};
ghost use Rattle.jsx_tree.specs.View.{view_pat};
ghost use Rattle.jsx_make.specs.NodeSpans.{pat_at};
ghost use Rattle.jsx_operand.specs.Patterns as patterns;
ghost use Rattle.jsx_operand.specs.Spans.{Starts};

use crate::operand::span_of;
use jsx_base::{BytePos, Span};
use jsx_tree::Pat;

/// Where a pattern that was read begins.
pub fn start_of_pattern(pattern: &Pat) -> BytePos
    ensures { Starts (pat_at pattern.now) result }
{
    match span_of_pattern(pattern) {
        Some(span) => span.lo,
        None => BytePos(0),
    }
}

/// The place of a pattern.
fn span_of_pattern(pattern: &Pat) -> Option<Span>
    ensures { result ≡ pat_at pattern.now }
{
    match pattern {
        Pat::Ident(at, _) => *at,
        Pat::Array(at, _) => *at,
        Pat::Object(at, _) => *at,
        Pat::Target(expr) => span_of(expr),
        Pat::Paren(at, _) => *at,
        Pat::Binding(at, _, _) => *at,
        Pat::WithInit(at, _, _) => *at,
        Pat::Rest(at, _) => *at,
        Pat::Hole => None,
        Pat::Pair(at, _, _) => *at,
        Pat::Shorthand(at, _, _) => *at,
        Pat::RestProperty(at, _) => *at,
        Pat::Declaration(at, _, _) => *at,
        Pat::Head(at, _, _) => *at,
    }
}

/// Whether a pattern is more than a name: one in brackets, one with a default, or a rest.
#[tactic(auto, using(crate::proofs::Compounds::uncompound))]
pub fn is_compound(pattern: &Pat) -> bool
    ensures { result ≡ patterns.is_compound (view_pat pattern.now) }
{
    match pattern {
        Pat::Array(..) | Pat::Object(..) | Pat::WithInit(..) | Pat::Rest(..) => true,
        Pat::Ident(..)
        | Pat::Target(..)
        | Pat::Paren(..)
        | Pat::Binding(..)
        | Pat::Hole
        | Pat::Pair(..)
        | Pat::Shorthand(..)
        | Pat::RestProperty(..)
        | Pat::Declaration(..)
        | Pat::Head(..) => false,
    }
}

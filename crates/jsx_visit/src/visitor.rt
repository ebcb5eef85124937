//! What a pass does with an expression, and with a target in parentheses.

ghost use Rattle.std.specs.Prelude.{◌≡◌, OnOk, Bool, IsTrue};
ghost use Rattle.jsx_tree.specs.Kinds.{Kind, Forest, Tree, Binds, Assigns};
ghost use Rattle.jsx_tree.specs.View.{view_expr, view_pattern};
ghost use Rattle.jsx_tree.specs.Told.{told_expr, told_pat};
ghost use Rattle.jsx_visit.specs.Visit.{changed, changed_target};

use jsx_tree::{Expr, Pat};
use std::alloc::{AllocError, Global};

/// A pass over a tree that makes expressions anew, and targets in parentheses.
pub trait Visitor {
    /// What it makes of a kind and the parts of its node.
    ghost made: { Kind → Forest → Tree };

    /// Whether what a node tells of places stays as it was.
    ghost keeps: { Bool };

    /// Makes an expression anew whose parts were visited. It is handed names, literals, holes and spreads too, and leaves
    /// them as they are.
    ///
    /// # Errors
    ///
    /// `AllocError` for want of memory.
    fn expr(&mut self, alloc: Global, expr: &mut Box<Expr<'_>>) -> Result<(), AllocError>
        ensures seen { OnOk result (view_expr expr.new.value ≡ changed made (view_expr expr.old.value)) }
        ensures places { IsTrue keeps → OnOk result (told_expr expr.new.value ≡ told_expr expr.old.value) };

    /// Makes a target anew that stands in parentheses, after what stands in them. Each other pattern it leaves as it is.
    ///
    /// # Errors
    ///
    /// `AllocError` for want of memory.
    fn target(&mut self, alloc: Global, target: &mut Box<Pat<'_>>) -> Result<(), AllocError>
        ensures binds { OnOk result (view_pattern target.new.value Binds ≡ changed_target made (view_pattern target.old.value Binds)) }
        ensures assigns { OnOk result (view_pattern target.new.value Assigns ≡ changed_target made (view_pattern target.old.value Assigns)) }
        ensures places { IsTrue keeps → OnOk result (told_pat target.new.value ≡ told_pat target.old.value) };
}

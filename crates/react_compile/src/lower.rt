//! JSX lowered to calls: each element becomes the call that makes it.

ghost use Rattle.std.specs.Prelude.{◌≡◌, OnOk, IfOk, IsTrue};
ghost use Rattle.jsx_tree.specs.ViewProgram.{view};
ghost use Rattle.react_compile.specs.Lowering.{can_lower, lower};

use crate::calls::call_of;
use jsx_base::{Comments, SingleThreadedComments};
use jsx_tree::{Access, Expr, Pat, Program};
use jsx_visit::{Visitor, visit};
use std::alloc::{AllocError, Global};

/// A pass that makes calls of elements, and marks each as free of effects.
#[derive(Drop)]
struct Lowering {
    comments: SingleThreadedComments,
}

impl Lowering {
    /// Marks the call that an element becomes.
    fn mark(&mut self, call: &Expr<'_>) -> Result<(), AllocError> {
        match call {
            Expr::Access(Access::Call(Some(span), _, _)) => {
                self.comments.add_pure_comment(span.lo)
            }
            _ => Ok(()),
        }
    }
}

impl Visitor for Lowering {
    ghost use Rattle.std.specs.Prelude.{false};
    ghost use Rattle.react_compile.specs.Lowering.{lower_node};

    ghost made = { lower_node };

    ghost keeps = { false };

    fn expr(&mut self, alloc: Global, expr: &mut Box<Expr<'_>>) -> Result<(), AllocError> {
        if let Some(call) = call_of(alloc, expr)? {
            self.mark(&call)?;
            *expr = call;
        }
        Ok(())
    }

    #[tactic(auto, using(crate::proofs::Lowering::Visiting::targets))]
    fn target(&mut self, _: Global, _: &mut Box<Pat<'_>>) -> Result<(), AllocError> {
        Ok(())
    }
}

/// Makes a call of each element of a program whose elements have no attributes and no children, and answers the marks of the
/// calls.
///
/// # Errors
///
/// `AllocError` for want of memory. Then the program may be changed in part.
pub(crate) fn lower(
    alloc: Global,
    program: &mut Program<'_>,
) -> Result<SingleThreadedComments, AllocError>
    ensures { IsTrue (can_lower (view program.old)) → OnOk result (view program.new ≡ lower (view program.old)) }
{
    let mut lowering = Lowering {
        comments: SingleThreadedComments::new(alloc),
    };
    visit(alloc, &mut lowering, program)?;
    Ok(lowering.comments)
}

//! Parentheses where they are needed (ECMA-262 sections 13.2 and 14.5).

ghost use Rattle.std.specs.Prelude.{◌≡◌, OnOk, IsTrue};
ghost use Rattle.jsx_tree.specs.declared.text.Goal.{Goal};
ghost use Rattle.jsx_tree.specs.Fits.{fits};
ghost use Rattle.jsx_tree.specs.Normal.{nf};
ghost use Rattle.jsx_tree.specs.Parentheses.{parenthesise};
ghost use Rattle.jsx_tree.specs.Program.{is_goal};
ghost use Rattle.jsx_tree.specs.Sound.{formed, is_sound};
ghost use Rattle.jsx_tree.specs.ViewProgram.{view};

use crate::walk::Walker;
use jsx_tree::Program;
use std::alloc::{AllocError, Global};

/// Puts a pair of parentheses round each expression that its place doesn't take, so that the program can be printed. It is a
/// program whose parts stand where the grammar has them, but for pairs, and without JSX. Where memory is short it may be
/// changed in part.
pub fn parenthesise(alloc: Global, program: &mut Program<'_>) -> Result<(), AllocError>
    ensures pairs { IsTrue (formed (view program.old)) → OnOk result (view program.new ≡ parenthesise (view program.old)) }
    ensures fits { IsTrue (is_sound (view program.old)) → OnOk result (IsTrue (fits (view program.new))) }
    ensures goal { (goal : Goal) → IsTrue (formed (view program.old)) → IsTrue (is_goal goal (view program.old)) → OnOk result (IsTrue (is_goal goal (view program.new))) }
    ensures same { IsTrue (formed (view program.old)) → OnOk result (nf (view program.new) ≡ nf (view program.old)) }
{
    let walker = Walker {
        alloc,
        levels: usize::MAX,
    };
    walker.program(program)
}

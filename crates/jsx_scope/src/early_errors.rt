//! Early errors on names (ECMA-262 sections 14.2.1, 14.7, 14.12.1, 14.15.1, 15.1.1, 15.2.1, 16.1.1 and 16.2.1), and direct calls of
//! `eval` (section 13.3.6.1).

ghost use Rattle.std.specs.Prelude.{ℕ};
ghost use Rattle.jsx_base.specs.Token.{Text};
ghost use Rattle.jsx_tree.specs.declared.text.Goal.{Goal};
ghost use Rattle.jsx_tree.specs.Kinds.{Tree};
ghost use Rattle.jsx_tree.specs.Normal.{without_parentheses};
ghost use Rattle.jsx_tree.specs.Spans.{placed_in};
ghost use Rattle.jsx_scope.specs.Early.{IsReadAs, Says};

use jsx_base::BytePos;
use jsx_heard::heard;
use jsx_names::{EarlyError, check};
use jsx_tree::Program;
use std::alloc::{AllocError, Global};

/// Why the names of a program aren't resolved.
#[derive(Clone, Copy, Debug, PartialEq, Eq)]
pub enum ScopeError {
    /// A declaration clashes with one before it, or a module exports a name twice, or one that it doesn't declare. The place is that of
    /// the later declaration or export, and for a default export that of its `default`.
    Scope(BytePos),
    /// `eval` is called directly, and what it reads couldn't be seen by a renaming. The place is that of its name.
    DirectEval(BytePos),
    /// There was too little memory.
    Memory,
}

impl From<AllocError> for ScopeError {
    ghost use Rattle.std.specs.Prelude.{◌≡◌};
    ghost use Rattle.jsx_scope.specs.declared.early_errors.ScopeError.TheVariants.{Memory};

    ghost from_gives = { λ _ e. e ≡ Memory };

    fn from(_: AllocError) -> ScopeError {
        ScopeError::Memory
    }
}

impl From<EarlyError> for ScopeError {
    ghost use Rattle.std.specs.Prelude.{◌≡◌};
    ghost use Rattle.jsx_scope.specs.Early.{scope_error};

    ghost from_gives = { λ e f. f ≡ scope_error e };

    fn from(e: EarlyError) -> ScopeError {
        match e {
            EarlyError::Scope(at) => ScopeError::Scope(at),
            EarlyError::DirectEval(at) => ScopeError::DirectEval(at),
        }
    }
}

/// Looks for early errors on the names of a program that a text reads as: `Scope` says where the first of them is, and `DirectEval`
/// where `eval` is first called, if there are none.
///
/// # Errors
///
/// These two, and `Memory` for want of memory.
pub fn early(alloc: Global, program: &Program<'_>) -> Result<(), ScopeError>
    ensures { (goal : Goal) (from : ℕ) (text : Text) (written : Tree) → IsReadAs goal from text written program.now → Says (without_parentheses written) (placed_in from text written) result }
{
    let events = heard(alloc, program)?;
    check(alloc, &events)??;
    Ok(())
}

//! Passes of a compiler, by their names.

ghost use Rattle.std.specs.Prelude.{◌≡◌, ℕ, List, ◌++◌, IfOk, codes};
ghost use Rattle.std.specs.String.{string_bytes};

use std::alloc::{AllocError, Global};

/// A pass that has a name, by custom in lower case with hyphens.
pub trait CompilerPass {
    /// The name's bytes.
    ghost pass_name: { List ℕ };

    fn name(alloc: Global) -> Result<String, AllocError>
        ensures { IfOk result (λ name. string_bytes name ≡ pass_name) };
}

/// Runs a pass again and again. Its name is `repeat(V)`.
#[derive(Clone, Copy, Debug, Default, PartialEq, Eq, Drop)]
pub struct Repeat<V> {
    pub pass: V,
}

impl<V: CompilerPass> CompilerPass for Repeat<V> {
    ghost pass_name = { codes "repeat(" ++ (V.pass_name ++ codes ")") };

    fn name(alloc: Global) -> Result<String, AllocError> {
        let name = V::name(alloc)?;
        format!(in alloc; "repeat({name})")
    }
}

/// Runs a pass and then another. Its name is `A -> B`.
#[derive(Clone, Copy, Debug, Default, PartialEq, Eq, Drop)]
pub struct AndThen<A, B> {
    pub first: A,
    pub second: B,
}

impl<A: CompilerPass, B: CompilerPass> CompilerPass for AndThen<A, B> {
    ghost pass_name = { A.pass_name ++ (codes " -> " ++ B.pass_name) };

    fn name(alloc: Global) -> Result<String, AllocError> {
        let first = A::name(alloc)?;
        let second = B::name(alloc)?;
        format!(in alloc; "{first} -> {second}")
    }
}

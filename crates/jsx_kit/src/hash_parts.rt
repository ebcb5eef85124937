//! Stable hashing of values that have parts: each part is hashed in the context that the part before it left.
#![tactic(auto, using(crate::proofs::Hashing::Hashed_just, crate::proofs::Hashing::Hashed_then))]

ghost use Rattle.std.specs.Prelude.{◌≡◌, ℕ, ◌+◌, List, [], ◌∷◌, OnOk, length};
ghost use Rattle.std.specs.Arc.{arc_value};
ghost use Rattle.jsx_kit.specs.Fed.{Fed, Hashed, just, joined, fed_option, fed_result, fed_each, fed_slice, OptionIsSaid, ResultIsSaid, EachIsSaid};

use crate::hash_stable::HashStable;
use crate::hasher::StableHasher;

// The first byte of each variant.
const NONE: u8 = 0;

const SOME: u8 = 1;

const OK: u8 = 0;

const ERR: u8 = 1;

use std::alloc::{AllocError, Global};
use std::rc::Rc;
use std::sync::Arc;

impl<A: HashStable<CTX>, CTX> HashStable<CTX> for (A,) {
    ghost fed = { λ x c. A.fed x.0 c };

    ghost is_said = { λ x c. A.is_said x.0 c };

    fn hash_stable(
        &self,
        alloc: Global,
        hcx: &mut CTX,
        hasher: &mut StableHasher,
    ) -> Result<(), AllocError> {
        self.0.hash_stable(alloc, hcx, hasher)
    }
}

impl<A: HashStable<CTX>, B: HashStable<CTX>, CTX> HashStable<CTX> for (A, B) {
    ghost fed = { λ x c. joined (A.fed x.0 c) (B.fed x.1 (A.fed x.0 c).after) };

    ghost is_said = { λ x c. A.is_said x.0 c × B.is_said x.1 (A.fed x.0 c).after };

    fn hash_stable(
        &self,
        alloc: Global,
        hcx: &mut CTX,
        hasher: &mut StableHasher,
    ) -> Result<(), AllocError> {
        self.0.hash_stable(alloc, hcx, hasher)?;
        self.1.hash_stable(alloc, hcx, hasher)
    }
}

impl<A: HashStable<CTX>, B: HashStable<CTX>, C: HashStable<CTX>, CTX> HashStable<CTX>
    for (A, B, C) {
    ghost fed = { λ x c. joined (A.fed x.0 c) (joined (B.fed x.1 (A.fed x.0 c).after) (C.fed x.2 (B.fed x.1 (A.fed x.0 c).after).after)) };

    ghost is_said = { λ x c. A.is_said x.0 c × B.is_said x.1 (A.fed x.0 c).after × C.is_said x.2 (B.fed x.1 (A.fed x.0 c).after).after };

    fn hash_stable(
        &self,
        alloc: Global,
        hcx: &mut CTX,
        hasher: &mut StableHasher,
    ) -> Result<(), AllocError> {
        self.0.hash_stable(alloc, hcx, hasher)?;
        self.1.hash_stable(alloc, hcx, hasher)?;
        self.2.hash_stable(alloc, hcx, hasher)
    }
}

impl<
    A: HashStable<CTX>,
    B: HashStable<CTX>,
    C: HashStable<CTX>,
    D: HashStable<CTX>,
    CTX,
> HashStable<CTX> for (A, B, C, D) {
    ghost fed = { λ x c. joined (A.fed x.0 c) (joined (B.fed x.1 (A.fed x.0 c).after) (joined (C.fed x.2 (B.fed x.1 (A.fed x.0 c).after).after) (D.fed x.3 (C.fed x.2 (B.fed x.1 (A.fed x.0 c).after).after).after))) };

    ghost is_said = { λ x c. A.is_said x.0 c × B.is_said x.1 (A.fed x.0 c).after × C.is_said x.2 (B.fed x.1 (A.fed x.0 c).after).after × D.is_said x.3 (C.fed x.2 (B.fed x.1 (A.fed x.0 c).after).after).after };

    fn hash_stable(
        &self,
        alloc: Global,
        hcx: &mut CTX,
        hasher: &mut StableHasher,
    ) -> Result<(), AllocError> {
        self.0.hash_stable(alloc, hcx, hasher)?;
        self.1.hash_stable(alloc, hcx, hasher)?;
        self.2.hash_stable(alloc, hcx, hasher)?;
        self.3.hash_stable(alloc, hcx, hasher)
    }
}

/// A reference is what it points to.
impl<'a, T: HashStable<CTX>, CTX> HashStable<CTX> for &'a T {
    ghost fed = { λ x c. T.fed x.now c };

    ghost is_said = { λ x c. T.is_said x.now c };

    fn hash_stable(
        &self,
        alloc: Global,
        hcx: &mut CTX,
        hasher: &mut StableHasher,
    ) -> Result<(), AllocError> {
        (**self).hash_stable(alloc, hcx, hasher)
    }
}

impl<T: HashStable<CTX>, CTX> HashStable<CTX> for Box<T> {
    ghost fed = { λ x c. T.fed x.value c };

    ghost is_said = { λ x c. T.is_said x.value c };

    fn hash_stable(
        &self,
        alloc: Global,
        hcx: &mut CTX,
        hasher: &mut StableHasher,
    ) -> Result<(), AllocError> {
        (**self).hash_stable(alloc, hcx, hasher)
    }
}

impl<T: HashStable<CTX>, CTX> HashStable<CTX> for Rc<T> {
    ghost fed = { λ x c. T.fed x.value c };

    ghost is_said = { λ x c. T.is_said x.value c };

    fn hash_stable(
        &self,
        alloc: Global,
        hcx: &mut CTX,
        hasher: &mut StableHasher,
    ) -> Result<(), AllocError> {
        (**self).hash_stable(alloc, hcx, hasher)
    }
}

impl<T: HashStable<CTX>, CTX> HashStable<CTX> for Arc<T> {
    ghost fed = { λ x c. T.fed (arc_value x) c };

    ghost is_said = { λ x c. T.is_said (arc_value x) c };

    fn hash_stable(
        &self,
        alloc: Global,
        hcx: &mut CTX,
        hasher: &mut StableHasher,
    ) -> Result<(), AllocError> {
        (**self).hash_stable(alloc, hcx, hasher)
    }
}

/// A slice is its length, and then its items in turn.
impl<'a, T: HashStable<CTX>, CTX> HashStable<CTX> for &'a [T] {
    ghost fed = { λ x c. fed_slice T.fed x.now c };

    ghost is_said = { λ x c. EachIsSaid T.fed T.is_said x.now c };

    fn hash_stable(
        &self,
        alloc: Global,
        hcx: &mut CTX,
        hasher: &mut StableHasher,
    ) -> Result<(), AllocError> {
        hasher.write_usize(self.len());
        for item in self.iter() {
            item.hash_stable(alloc, hcx, hasher)?;
        }
        Ok(())
    }
}

impl<T: HashStable<CTX>, CTX> HashStable<CTX> for Vec<T> {
    ghost fed = { λ x c. fed_slice T.fed x.items c };

    ghost is_said = { λ x c. EachIsSaid T.fed T.is_said x.items c };

    fn hash_stable(
        &self,
        alloc: Global,
        hcx: &mut CTX,
        hasher: &mut StableHasher,
    ) -> Result<(), AllocError> {
        self.as_slice().hash_stable(alloc, hcx, hasher)
    }
}

/// One byte, 0 for `None` and 1 for `Some`, and then the value.
impl<T: HashStable<CTX>, CTX> HashStable<CTX> for Option<T> {
    ghost fed = { λ x c. fed_option T.fed x c };

    ghost is_said = { λ x c. OptionIsSaid T.is_said x c };

    fn hash_stable(
        &self,
        alloc: Global,
        hcx: &mut CTX,
        hasher: &mut StableHasher,
    ) -> Result<(), AllocError> {
        match self {
            None => {
                hasher.write_u8(NONE);
                Ok(())
            }
            Some(value) => {
                hasher.write_u8(SOME);
                value.hash_stable(alloc, hcx, hasher)
            }
        }
    }
}

/// One byte, 0 for `Ok` and 1 for `Err`, and then the value.
impl<T: HashStable<CTX>, E: HashStable<CTX>, CTX> HashStable<CTX> for Result<T, E> {
    ghost fed = { λ x c. fed_result T.fed E.fed x c };

    ghost is_said = { λ x c. ResultIsSaid T.is_said E.is_said x c };

    fn hash_stable(
        &self,
        alloc: Global,
        hcx: &mut CTX,
        hasher: &mut StableHasher,
    ) -> Result<(), AllocError> {
        match self {
            Ok(value) => {
                hasher.write_u8(OK);
                value.hash_stable(alloc, hcx, hasher)
            }
            Err(error) => {
                hasher.write_u8(ERR);
                error.hash_stable(alloc, hcx, hasher)
            }
        }
    }
}

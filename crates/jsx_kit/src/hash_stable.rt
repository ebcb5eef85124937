//! Values that are hashed alike in each run and on every machine.
#![tactic(auto, using(crate::proofs::Hashing::Hashed_just))]

ghost use Rattle.std.specs.Prelude.{◌≡◌, ℕ, List, [], ◌∷◌, OnOk, IfOk};
ghost use Rattle.std.specs.Int.{w8, w16, w32, w64, w128, to_le_bytes, cast_unsigned};
ghost use Rattle.std.specs.Int.NonZero.{non_zero_u32_get};
ghost use Rattle.std.specs.String.{string_bytes};
ghost use Rattle.jsx_kit.specs.Fed.{Fed, Hashed, just, bool_bytes, ordering_bytes, isize_bytes, text_bytes};

use crate::hasher::StableHasher;
use std::alloc::{AllocError, Global};
use std::cmp::Ordering;
use std::num::NonZeroU32;

/// What can be hashed in a context `CTX`, alike in each run and on every machine.
pub trait HashStable<CTX> {
    ghost use Rattle.jsx_kit.specs.Fed.{Fed, Hashed};

    /// What hashing a value in a context feeds, and the context that it leaves.
    ghost fed: { Self → CTX → Fed CTX };

    /// Where that is said. Of a map or a set it is said only where hashing an item leaves the context as it was.
    ghost is_said: { Self → CTX → Type 0 };

    /// Feeds the value to the hasher. After an `Err` the hasher was fed an unstated front of it, and the context
    /// may be changed.
    fn hash_stable(
        &self,
        alloc: Global,
        hcx: &mut CTX,
        hasher: &mut StableHasher,
    ) -> Result<(), AllocError>
        ensures { OnOk result (is_said self.now hcx.old → Hashed (fed self.now hcx.old) hasher.old hasher.new hcx.new) };
}

/// What has a key that is the same in each run. Maps and sets hash the keys' stable keys.
pub trait ToStableHashKey<HCX> {
    ghost use Rattle.jsx_kit.specs.Fed.{IsKey};

    type KeyType: Ord + HashStable<HCX> + Drop;

    /// The stable key of a value in a context.
    ghost stable_key: { Self → HCX → Self.KeyType };

    /// Makes a value that is hashed and compared as the stable key is.

    fn to_stable_hash_key(&self, alloc: Global, hcx: &HCX) -> Result<Self::KeyType, AllocError>
        ensures { IfOk result (λ key. IsKey Self.KeyType.fed Self.KeyType.is_said Self.KeyType.cmp key (stable_key self.now hcx.now)) };
}

/// The body of a `hash_stable` that feeds one value by a writer of the hasher and leaves the context alone, as
/// `impl_stable_hash_via_hash!(hasher.write_u32(*self))`.
#[macro_export]
macro_rules! impl_stable_hash_via_hash {
    ($hasher:ident . $write:ident ( $value:expr )) => {{
        $hasher.$write($value);
        Ok(())
    }};
}

impl<CTX> HashStable<CTX> for u8 {
    ghost fed = { λ x c. just (x ∷ []) c };

    ghost is_said = { λ _ _. Unit {0} };

    fn hash_stable(
        &self,
        _alloc: Global,
        _hcx: &mut CTX,
        hasher: &mut StableHasher,
    ) -> Result<(), AllocError> {
        impl_stable_hash_via_hash!(hasher.write_u8(*self))
    }
}

impl<CTX> HashStable<CTX> for u16 {
    ghost fed = { λ x c. just (to_le_bytes w16 x) c };

    ghost is_said = { λ _ _. Unit {0} };

    fn hash_stable(
        &self,
        _alloc: Global,
        _hcx: &mut CTX,
        hasher: &mut StableHasher,
    ) -> Result<(), AllocError> {
        impl_stable_hash_via_hash!(hasher.write_u16(*self))
    }
}

impl<CTX> HashStable<CTX> for u32 {
    ghost fed = { λ x c. just (to_le_bytes w32 x) c };

    ghost is_said = { λ _ _. Unit {0} };

    fn hash_stable(
        &self,
        _alloc: Global,
        _hcx: &mut CTX,
        hasher: &mut StableHasher,
    ) -> Result<(), AllocError> {
        impl_stable_hash_via_hash!(hasher.write_u32(*self))
    }
}

impl<CTX> HashStable<CTX> for u64 {
    ghost fed = { λ x c. just (to_le_bytes w64 x) c };

    ghost is_said = { λ _ _. Unit {0} };

    fn hash_stable(
        &self,
        _alloc: Global,
        _hcx: &mut CTX,
        hasher: &mut StableHasher,
    ) -> Result<(), AllocError> {
        impl_stable_hash_via_hash!(hasher.write_u64(*self))
    }
}

impl<CTX> HashStable<CTX> for u128 {
    ghost fed = { λ x c. just (to_le_bytes w128 x) c };

    ghost is_said = { λ _ _. Unit {0} };

    fn hash_stable(
        &self,
        _alloc: Global,
        _hcx: &mut CTX,
        hasher: &mut StableHasher,
    ) -> Result<(), AllocError> {
        impl_stable_hash_via_hash!(hasher.write_u128(*self))
    }
}

impl<CTX> HashStable<CTX> for usize {
    ghost fed = { λ x c. just (to_le_bytes w64 x) c };

    ghost is_said = { λ _ _. Unit {0} };

    fn hash_stable(
        &self,
        _alloc: Global,
        _hcx: &mut CTX,
        hasher: &mut StableHasher,
    ) -> Result<(), AllocError> {
        impl_stable_hash_via_hash!(hasher.write_usize(*self))
    }
}

impl<CTX> HashStable<CTX> for i8 {
    ghost fed = { λ x c. just (cast_unsigned w8 x ∷ []) c };

    ghost is_said = { λ _ _. Unit {0} };

    fn hash_stable(
        &self,
        _alloc: Global,
        _hcx: &mut CTX,
        hasher: &mut StableHasher,
    ) -> Result<(), AllocError> {
        impl_stable_hash_via_hash!(hasher.write_i8(*self))
    }
}

impl<CTX> HashStable<CTX> for i16 {
    ghost fed = { λ x c. just (to_le_bytes w16 (cast_unsigned w16 x)) c };

    ghost is_said = { λ _ _. Unit {0} };

    fn hash_stable(
        &self,
        _alloc: Global,
        _hcx: &mut CTX,
        hasher: &mut StableHasher,
    ) -> Result<(), AllocError> {
        impl_stable_hash_via_hash!(hasher.write_i16(*self))
    }
}

impl<CTX> HashStable<CTX> for i32 {
    ghost fed = { λ x c. just (to_le_bytes w32 (cast_unsigned w32 x)) c };

    ghost is_said = { λ _ _. Unit {0} };

    fn hash_stable(
        &self,
        _alloc: Global,
        _hcx: &mut CTX,
        hasher: &mut StableHasher,
    ) -> Result<(), AllocError> {
        impl_stable_hash_via_hash!(hasher.write_i32(*self))
    }
}

impl<CTX> HashStable<CTX> for i64 {
    ghost fed = { λ x c. just (to_le_bytes w64 (cast_unsigned w64 x)) c };

    ghost is_said = { λ _ _. Unit {0} };

    fn hash_stable(
        &self,
        _alloc: Global,
        _hcx: &mut CTX,
        hasher: &mut StableHasher,
    ) -> Result<(), AllocError> {
        impl_stable_hash_via_hash!(hasher.write_i64(*self))
    }
}

impl<CTX> HashStable<CTX> for i128 {
    ghost fed = { λ x c. just (to_le_bytes w128 (cast_unsigned w128 x)) c };

    ghost is_said = { λ _ _. Unit {0} };

    fn hash_stable(
        &self,
        _alloc: Global,
        _hcx: &mut CTX,
        hasher: &mut StableHasher,
    ) -> Result<(), AllocError> {
        impl_stable_hash_via_hash!(hasher.write_i128(*self))
    }
}

impl<CTX> HashStable<CTX> for isize {
    ghost fed = { λ x c. just (isize_bytes x) c };

    ghost is_said = { λ _ _. Unit {0} };

    fn hash_stable(
        &self,
        _alloc: Global,
        _hcx: &mut CTX,
        hasher: &mut StableHasher,
    ) -> Result<(), AllocError> {
        impl_stable_hash_via_hash!(hasher.write_isize(*self))
    }
}

/// A character is its code as a u32.
impl<CTX> HashStable<CTX> for char {
    ghost fed = { λ x c. just (to_le_bytes w32 x) c };

    ghost is_said = { λ _ _. Unit {0} };

    fn hash_stable(
        &self,
        _alloc: Global,
        _hcx: &mut CTX,
        hasher: &mut StableHasher,
    ) -> Result<(), AllocError> {
        impl_stable_hash_via_hash!(hasher.write_u32(*self as u32))
    }
}

impl<CTX> HashStable<CTX> for NonZeroU32 {
    ghost fed = { λ x c. just (to_le_bytes w32 (non_zero_u32_get x)) c };

    ghost is_said = { λ _ _. Unit {0} };

    fn hash_stable(
        &self,
        _alloc: Global,
        _hcx: &mut CTX,
        hasher: &mut StableHasher,
    ) -> Result<(), AllocError> {
        impl_stable_hash_via_hash!(hasher.write_u32(self.get()))
    }
}

/// One byte, 0 or 1.
impl<CTX> HashStable<CTX> for bool {
    ghost fed = { λ x c. just (bool_bytes x) c };

    ghost is_said = { λ _ _. Unit {0} };

    fn hash_stable(
        &self,
        _alloc: Global,
        _hcx: &mut CTX,
        hasher: &mut StableHasher,
    ) -> Result<(), AllocError> {
        impl_stable_hash_via_hash!(hasher.write_u8(*self as u8))
    }
}

/// An i8: -1, 0 or 1.
impl<CTX> HashStable<CTX> for Ordering {
    ghost fed = { λ x c. just (ordering_bytes x) c };

    ghost is_said = { λ _ _. Unit {0} };

    fn hash_stable(
        &self,
        _alloc: Global,
        _hcx: &mut CTX,
        hasher: &mut StableHasher,
    ) -> Result<(), AllocError> {
        impl_stable_hash_via_hash!(hasher.write_i8(*self as i8))
    }
}

/// Nothing is fed.
#[tactic(auto, using(crate::proofs::Hashing::Hashed_just, crate::proofs::Hashing::Feeds_none))]
impl<CTX> HashStable<CTX> for () {
    ghost fed = { λ _ c. just [] c };

    ghost is_said = { λ _ _. Unit {0} };

    fn hash_stable(
        &self,
        _alloc: Global,
        _hcx: &mut CTX,
        _hasher: &mut StableHasher,
    ) -> Result<(), AllocError> {
        Ok(())
    }
}

/// A text is its length in bytes twice, and then its bytes.
#[tactic(auto, using(crate::proofs::Hashing::Hashed_just, crate::proofs::Hashing::Feeds_append))]
impl<'a, CTX> HashStable<CTX> for &'a str {
    ghost fed = { λ x c. just (text_bytes x.now) c };

    ghost is_said = { λ _ _. Unit {0} };

    fn hash_stable(
        &self,
        _alloc: Global,
        _hcx: &mut CTX,
        hasher: &mut StableHasher,
    ) -> Result<(), AllocError> {
        let length = self.len();
        hasher.write_usize(length);
        // The bytes are a slice of their own, which has its length before it.
        hasher.write_usize(self.len());
        hasher.write(self.as_bytes());
        Ok(())
    }
}

impl<CTX> HashStable<CTX> for String {
    ghost fed = { λ x c. just (text_bytes (string_bytes x)) c };

    ghost is_said = { λ _ _. Unit {0} };

    fn hash_stable(
        &self,
        alloc: Global,
        hcx: &mut CTX,
        hasher: &mut StableHasher,
    ) -> Result<(), AllocError> {
        self.as_str().hash_stable(alloc, hcx, hasher)
    }
}

/// A text is its own stable key.
impl<HCX> ToStableHashKey<HCX> for String {
    type KeyType = String;

    ghost stable_key = { λ x _. x };

    fn to_stable_hash_key(&self, _alloc: Global, _hcx: &HCX) -> Result<String, AllocError> {
        self.clone()
    }
}

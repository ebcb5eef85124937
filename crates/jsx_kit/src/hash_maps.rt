//! Stable hashing of maps and sets: alike in every order of their items.
//!
//! What a map or a set feeds is said where hashing an item leaves the context as it was.
#![tactic(auto)]

ghost use Rattle.std.specs.Prelude.{◌≡◌, List, OnOk};
ghost use Rattle.std.specs.List.Sorted.{IsPermutation};
ghost use Rattle.jsx_kit.specs.Fed.{Fed, Hashed, fed_items, fed_key, fed_entry, KeyIsSaid, EntryIsSaid, AreSteady};

use crate::hash_stable::{HashStable, ToStableHashKey};
use crate::hasher::StableHasher;
use crate::reduce::stable_hash_reduce;
use std::alloc::{AllocError, Global};
use std::collections::{BTreeMap, BTreeSet, HashMap, HashSet};
use std::hash::{BuildHasher, Hash};

impl<K: ToStableHashKey<HCX> + Eq + Hash, V: HashStable<HCX>, S: BuildHasher, HCX> HashStable<HCX>
    for HashMap<K, V, S> {
    ghost fed = { λ x c. fed_items (fed_entry K.stable_key K.KeyType.fed V.fed) x.entries c };

    ghost is_said = { λ x c. AreSteady (fed_entry K.stable_key K.KeyType.fed V.fed) (EntryIsSaid K.stable_key K.KeyType.fed K.KeyType.is_said V.is_said) x.entries c };

    fn hash_stable(
        &self,
        alloc: Global,
        hcx: &mut HCX,
        hasher: &mut StableHasher,
    ) -> Result<(), AllocError>
        ensures hashed { OnOk result (AreSteady (fed_entry K.stable_key K.KeyType.fed V.fed) (EntryIsSaid K.stable_key K.KeyType.fed K.KeyType.is_said V.is_said) self.now.entries hcx.old
            → Hashed (fed_items (fed_entry K.stable_key K.KeyType.fed V.fed) self.now.entries hcx.old) hasher.old hasher.new hcx.new) }
        // In whatever order the items are taken, the same is fed.
        ensures in_any_order { OnOk result ((order : List _) → IsPermutation self.now.entries order → AreSteady (fed_entry K.stable_key K.KeyType.fed V.fed) (EntryIsSaid K.stable_key K.KeyType.fed K.KeyType.is_said V.is_said) order hcx.old
            → Hashed (fed_items (fed_entry K.stable_key K.KeyType.fed V.fed) order hcx.old) hasher.old hasher.new hcx.new) }
    {
        stable_hash_reduce(alloc, hcx, hasher, self.iter(), self.len())
    }
}

impl<K: ToStableHashKey<HCX> + Eq + Hash, S: BuildHasher, HCX> HashStable<HCX> for HashSet<K, S> {
    ghost fed = { λ x c. fed_items (fed_key K.stable_key K.KeyType.fed) x.keys c };

    ghost is_said = { λ x c. AreSteady (fed_key K.stable_key K.KeyType.fed) (KeyIsSaid K.stable_key K.KeyType.fed K.KeyType.is_said) x.keys c };

    fn hash_stable(
        &self,
        alloc: Global,
        hcx: &mut HCX,
        hasher: &mut StableHasher,
    ) -> Result<(), AllocError>
        ensures hashed { OnOk result (AreSteady (fed_key K.stable_key K.KeyType.fed) (KeyIsSaid K.stable_key K.KeyType.fed K.KeyType.is_said) self.now.keys hcx.old
            → Hashed (fed_items (fed_key K.stable_key K.KeyType.fed) self.now.keys hcx.old) hasher.old hasher.new hcx.new) }
        // In whatever order the items are taken, the same is fed.
        ensures in_any_order { OnOk result ((order : List _) → IsPermutation self.now.keys order → AreSteady (fed_key K.stable_key K.KeyType.fed) (KeyIsSaid K.stable_key K.KeyType.fed K.KeyType.is_said) order hcx.old
            → Hashed (fed_items (fed_key K.stable_key K.KeyType.fed) order hcx.old) hasher.old hasher.new hcx.new) }
    {
        stable_hash_reduce(alloc, hcx, hasher, self.iter(), self.len())
    }
}

impl<K: ToStableHashKey<HCX> + Ord, V: HashStable<HCX>, HCX> HashStable<HCX> for BTreeMap<K, V> {
    ghost fed = { λ x c. fed_items (fed_entry K.stable_key K.KeyType.fed V.fed) x.entries c };

    ghost is_said = { λ x c. AreSteady (fed_entry K.stable_key K.KeyType.fed V.fed) (EntryIsSaid K.stable_key K.KeyType.fed K.KeyType.is_said V.is_said) x.entries c };

    fn hash_stable(
        &self,
        alloc: Global,
        hcx: &mut HCX,
        hasher: &mut StableHasher,
    ) -> Result<(), AllocError>
        ensures hashed { OnOk result (AreSteady (fed_entry K.stable_key K.KeyType.fed V.fed) (EntryIsSaid K.stable_key K.KeyType.fed K.KeyType.is_said V.is_said) self.now.entries hcx.old
            → Hashed (fed_items (fed_entry K.stable_key K.KeyType.fed V.fed) self.now.entries hcx.old) hasher.old hasher.new hcx.new) }
        // In whatever order the items are taken, the same is fed.
        ensures in_any_order { OnOk result ((order : List _) → IsPermutation self.now.entries order → AreSteady (fed_entry K.stable_key K.KeyType.fed V.fed) (EntryIsSaid K.stable_key K.KeyType.fed K.KeyType.is_said V.is_said) order hcx.old
            → Hashed (fed_items (fed_entry K.stable_key K.KeyType.fed V.fed) order hcx.old) hasher.old hasher.new hcx.new) }
    {
        stable_hash_reduce(alloc, hcx, hasher, self.iter(), self.len())
    }
}

impl<K: ToStableHashKey<HCX> + Ord, HCX> HashStable<HCX> for BTreeSet<K> {
    ghost fed = { λ x c. fed_items (fed_key K.stable_key K.KeyType.fed) x.keys c };

    ghost is_said = { λ x c. AreSteady (fed_key K.stable_key K.KeyType.fed) (KeyIsSaid K.stable_key K.KeyType.fed K.KeyType.is_said) x.keys c };

    fn hash_stable(
        &self,
        alloc: Global,
        hcx: &mut HCX,
        hasher: &mut StableHasher,
    ) -> Result<(), AllocError>
        ensures hashed { OnOk result (AreSteady (fed_key K.stable_key K.KeyType.fed) (KeyIsSaid K.stable_key K.KeyType.fed K.KeyType.is_said) self.now.keys hcx.old
            → Hashed (fed_items (fed_key K.stable_key K.KeyType.fed) self.now.keys hcx.old) hasher.old hasher.new hcx.new) }
        // In whatever order the items are taken, the same is fed.
        ensures in_any_order { OnOk result ((order : List _) → IsPermutation self.now.keys order → AreSteady (fed_key K.stable_key K.KeyType.fed) (KeyIsSaid K.stable_key K.KeyType.fed K.KeyType.is_said) order hcx.old
            → Hashed (fed_items (fed_key K.stable_key K.KeyType.fed) order hcx.old) hasher.old hasher.new hcx.new) }
    {
        stable_hash_reduce(alloc, hcx, hasher, self.iter(), self.len())
    }
}

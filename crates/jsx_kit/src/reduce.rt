//! What the items of a map or a set feed, in whatever order they come.
#![tactic(auto)]

ghost use Rattle.std.specs.Prelude.{◌≡◌, ℕ, List, ◌∷◌, Option, IfOk, OnOk, length};
ghost use Rattle.std.specs.List.{flat_map};
ghost use Rattle.std.specs.Iterator.{Drains, IsFinite};
ghost use Rattle.jsx_kit.specs.SipHash.{Feeds};
ghost use Rattle.jsx_kit.specs.Fed.{Fed, Hashed, fed_items, fed_key, fed_entry, KeyIsSaid, EntryIsSaid, AreSteady, sum_of_hashes, bytes_of_each};

use crate::hash_stable::{HashStable, ToStableHashKey};
use crate::hasher::StableHasher;
use std::alloc::{AllocError, Global};

/// An item as the iterator of a map or a set hands it out.
pub trait Item<HCX> {
    ghost use Rattle.jsx_kit.specs.Fed.{Fed, Hashed};

    ghost fed_item: { Self → HCX → Fed HCX };

    ghost item_is_said: { Self → HCX → Type 0 };

    /// Feeds the item.
    fn hash_item(
        &self,
        alloc: Global,
        hcx: &mut HCX,
        hasher: &mut StableHasher,
    ) -> Result<(), AllocError>
        ensures { OnOk result (item_is_said self.now hcx.old → Hashed (fed_item self.now hcx.old) hasher.old hasher.new hcx.new) };
}

/// An item of a set is its stable key.
impl<'a, K: ToStableHashKey<HCX>, HCX> Item<HCX> for &'a K {
    ghost fed_item = { λ x c. fed_key K.stable_key K.KeyType.fed x.now c };

    ghost item_is_said = { λ x c. KeyIsSaid K.stable_key K.KeyType.fed K.KeyType.is_said x.now c };

    fn hash_item(
        &self,
        alloc: Global,
        hcx: &mut HCX,
        hasher: &mut StableHasher,
    ) -> Result<(), AllocError> {
        let key = self.to_stable_hash_key(alloc, hcx)?;
        key.hash_stable(alloc, hcx, hasher)
    }
}

/// An entry of a map is its key's stable key, and then its value.
impl<'a, K: ToStableHashKey<HCX>, V: HashStable<HCX>, HCX> Item<HCX> for (&'a K, &'a V) {
    ghost fed_item = { λ x c. fed_entry K.stable_key K.KeyType.fed V.fed (x.0.now, x.1.now) c };

    ghost item_is_said = { λ x c. EntryIsSaid K.stable_key K.KeyType.fed K.KeyType.is_said V.is_said (x.0.now, x.1.now) c };

    fn hash_item(
        &self,
        alloc: Global,
        hcx: &mut HCX,
        hasher: &mut StableHasher,
    ) -> Result<(), AllocError> {
        self.0.hash_item(alloc, hcx, hasher)?;
        self.1.hash_stable(alloc, hcx, hasher)
    }
}

/// The sum of the items' own hashes, wrapping. `None` where there is no item.
fn sum_items<HCX, T: Item<HCX> + Drop, I: Iterator<Item = T> + Drop>(
    alloc: Global,
    hcx: &mut HCX,
    items: I,
) -> Result<Option<u128>, AllocError>
    requires can { I.can_next items }
    requires ends { IsFinite (I.remaining items) }
    ensures { IfOk result (λ sum. (xs : _) × Drains I.next_gives items xs
        × (AreSteady T.fed_item T.item_is_said xs hcx.old → (sum ≡ sum_of_hashes (bytes_of_each T.fed_item xs hcx.old)) × (hcx.new ≡ hcx.old))) }
{
    let mut sum: Option<u128> = None;
    for item in items {
        let mut own = StableHasher::new();
        item.hash_item(alloc, hcx, &mut own)?;
        let hash = own.finish::<u128>();
        sum = Some(sum.unwrap_or(0).wrapping_add(hash));
    }
    Ok(sum)
}

/// Feeds each item in turn.
fn feed_items<HCX, T: Item<HCX> + Drop, I: Iterator<Item = T> + Drop>(
    alloc: Global,
    hcx: &mut HCX,
    hasher: &mut StableHasher,
    items: I,
) -> Result<(), AllocError>
    requires can { I.can_next items }
    requires ends { IsFinite (I.remaining items) }
    ensures { OnOk result ((xs : _) × Drains I.next_gives items xs
        × (AreSteady T.fed_item T.item_is_said xs hcx.old → Feeds hasher.old hasher.new (flat_map (λ bytes. bytes) (bytes_of_each T.fed_item xs hcx.old)) × (hcx.new ≡ hcx.old))) }
{
    for item in items {
        item.hash_item(alloc, hcx, hasher)?;
    }
    Ok(())
}

/// Feeds the number of the items, and then what they are reduced to: one item as it is, more by the sum of their
/// own hashes, so that their order doesn't matter.
pub fn stable_hash_reduce<HCX, T: Item<HCX> + Drop, I: Iterator<Item = T> + Drop>(
    alloc: Global,
    hcx: &mut HCX,
    hasher: &mut StableHasher,
    items: I,
    count: usize,
) -> Result<(), AllocError>
    requires can { I.can_next items }
    requires ends { IsFinite (I.remaining items) }
    requires counted { (xs : _) → Drains I.next_gives items xs → length xs ≡ count }
    ensures { OnOk result ((xs : _) × Drains I.next_gives items xs
        × (AreSteady T.fed_item T.item_is_said xs hcx.old → Hashed (fed_items T.fed_item xs hcx.old) hasher.old hasher.new hcx.new)) }
{
    hasher.write_usize(count);
    if count == 1 {
        return feed_items(alloc, hcx, hasher, items);
    }
    let sum = sum_items(alloc, hcx, items)?;
    sum.hash_stable(alloc, hcx, hasher)
}

//! Hashes against values from outside, and the bytes that each type feeds against bytes written out by hand.

use crate::hash_stable::{HashStable, ToStableHashKey};
use crate::hasher::StableHasher;
use std::alloc::{AllocError, Global};
use std::cmp::Ordering;
use std::collections::{BTreeMap, BTreeSet, HashMap, HashSet};
use std::num::NonZeroU32;
use std::rc::Rc;
use std::sync::Arc;

// SipHash-2-4-128 with the key 0 of the bytes 0, 1, 2, .. modulo 251: the number of bytes, and the two halves. An
// implementation in Python made them, which was written apart from the code and agrees with the vectors of Aumasson
// and Bernstein's paper on SipHash and of its reference code as far as they were known by heart. OpenSSL's `SIPHASH`
// with a size of 16 gives the same eight.
const KNOWN_HASHES: [(usize, u64, u64); 8] = [
    (0, 0x7de0_a380_47d7_4950, 0xf4f2_ced4_47ab_0242),
    (1, 0xb8af_4c5e_e812_1ed4, 0x01b8_3875_e594_f031),
    (7, 0x61e4_5c40_f99b_3678, 0xffb2_8133_f87f_d757),
    (8, 0x0e44_eb01_f934_654b, 0x84af_754a_2940_55e9),
    (9, 0x96eb_1303_4ce4_c7d8, 0x943e_629b_f8a4_b959),
    (63, 0xef42_f95d_cf42_3d4e, 0xded8_7548_5be5_fa96),
    (64, 0x46c7_0a6c_6791_f8b9, 0xe219_54f7_fe6c_6611),
    (1000, 0x1236_f5c6_1e5f_ea33, 0x9f2e_089f_b8d3_ecbe),
];

// 0, 1, 2, .. modulo 251.
fn fill(bytes: &mut [u8; 1000]) {
    for i in 0..1000 {
        bytes[i] = (i % 251) as u8;
    }
}

// The hash of these bytes, fed three at a time.
fn of_pieces(bytes: &[u8]) -> u128 {
    let mut hasher = StableHasher::new();
    for piece in bytes.chunks(3) {
        hasher.write(piece);
    }
    hasher.finish::<u128>()
}

// Whether these are the halves of the hash of these bytes, however they are fed.
fn has_halves(bytes: &[u8], h1: u64, h2: u64) -> bool {
    let mut hasher = StableHasher::new();
    hasher.write(bytes);
    let hash = hasher.finalize();
    hash.h1 == h1 && hash.h2 == h2 && of_pieces(bytes) == h1 as u128 + ((h2 as u128) << 64)
}

#[test]
fn hashes_are_those_of_other_implementations(rt: HostRuntime) {
    let mut message = [0u8; 1000];
    fill(&mut message);
    for (count, h1, h2) in KNOWN_HASHES {
        assert!(rt;
            has_halves(&message[..count.min(1000)], h1, h2),
            "at {count}"
        );
    }
}

// The hash of these bytes.
fn of_bytes(bytes: &[u8]) -> u128 {
    let mut hasher = StableHasher::new();
    hasher.write(bytes);
    hasher.finish::<u128>()
}

// Whether the value feeds these bytes.
fn feeds<T: HashStable<()>>(alloc: Global, value: &T, bytes: &[u8]) -> bool {
    of_value(alloc, value) == Some(of_bytes(bytes))
}

// The hash of what the value feeds.
fn of_value<T: HashStable<()>>(alloc: Global, value: &T) -> Option<u128> {
    let mut hasher = StableHasher::new();
    match value.hash_stable(alloc, &mut (), &mut hasher) {
        Ok(()) => Some(hasher.finish::<u128>()),
        Err(_) => None,
    }
}

fn text(alloc: Global, text: &str) -> Result<String, AllocError> {
    String::from_str(alloc, text)
}

fn unsigned_numbers_are_fed(alloc: Global) -> bool {
    feeds(alloc, &7u8, b"\x07")
        && feeds(alloc, &0x0102u16, b"\x02\x01")
        && feeds(alloc, &0x0102_0304u32, b"\x04\x03\x02\x01")
        && feeds(alloc, &5u64, b"\x05\0\0\0\0\0\0\0")
        && feeds(
            alloc,
            &(1u128 << 120),
            b"\0\0\0\0\0\0\0\0\0\0\0\0\0\0\0\x01",
        )
        && feeds(alloc, &3usize, b"\x03\0\0\0\0\0\0\0")
}

fn signed_numbers_are_fed(alloc: Global) -> bool {
    feeds(alloc, &-1i8, b"\xff")
        && feeds(alloc, &-2i16, b"\xfe\xff")
        && feeds(alloc, &-3i32, b"\xfd\xff\xff\xff")
        && feeds(alloc, &9i64, b"\x09\0\0\0\0\0\0\0")
        && feeds(alloc, &9i128, b"\x09\0\0\0\0\0\0\0\0\0\0\0\0\0\0\0")
}

// One byte below 255, else the byte 255 and all eight.
fn small_isize_is_one_byte(alloc: Global) -> bool {
    feeds(alloc, &254isize, b"\xfe")
        && feeds(alloc, &255isize, b"\xff\xff\0\0\0\0\0\0\0")
        && feeds(alloc, &-1isize, b"\xff\xff\xff\xff\xff\xff\xff\xff\xff")
}

fn other_plain_values_are_fed(alloc: Global) -> bool {
    feeds(alloc, &'\u{e9}', b"\xe9\0\0\0")
        && feeds(alloc, &(), b"")
        && feeds(alloc, &true, b"\x01")
        && feeds(alloc, &false, b"\0")
        && feeds(alloc, &Ordering::Less, b"\xff")
        && feeds(alloc, &Ordering::Greater, b"\x01")
        && NonZeroU32::new(2).is_some_and(|two| feeds(alloc, &two, b"\x02\0\0\0"))
}

fn tuples_and_slices_are_fed(alloc: Global) -> bool {
    feeds(alloc, &(1u8,), b"\x01")
        && feeds(alloc, &(1u8, 2u8), b"\x01\x02")
        && feeds(alloc, &(1u8, 2u8, 3u8), b"\x01\x02\x03")
        && feeds(alloc, &(1u8, 2u8, 3u8, 4u8), b"\x01\x02\x03\x04")
        && feeds(alloc, &[5u8, 6].as_slice(), b"\x02\0\0\0\0\0\0\0\x05\x06")
}

fn options_and_results_are_fed(alloc: Global) -> bool {
    let none: Option<u8> = None;
    let ok: Result<u8, u16> = Ok(5);
    let err: Result<u8, u16> = Err(6);
    feeds(alloc, &none, b"\0")
        && feeds(alloc, &Some(5u8), b"\x01\x05")
        && feeds(alloc, &ok, b"\0\x05")
        && feeds(alloc, &err, b"\x01\x06\0")
}

#[test]
fn values_are_fed(rt: HostRuntime) {
    assert!(rt; unsigned_numbers_are_fed(rt.alloc()));
    assert!(rt; signed_numbers_are_fed(rt.alloc()));
    assert!(rt; small_isize_is_one_byte(rt.alloc()));
    assert!(rt; other_plain_values_are_fed(rt.alloc()));
    assert!(rt; tuples_and_slices_are_fed(rt.alloc()));
    assert!(rt; options_and_results_are_fed(rt.alloc()));
}

fn texts_are_fed(alloc: Global) -> Result<bool, AllocError> {
    let bytes = b"\x02\0\0\0\0\0\0\0\x02\0\0\0\0\0\0\0ab";
    Ok(feeds(alloc, &"ab", bytes) && feeds(alloc, &text(alloc, "ab")?, bytes))
}

fn key_of_a_text_is_the_text(alloc: Global) -> Result<bool, AllocError> {
    let ab = text(alloc, "ab")?;
    Ok(ToStableHashKey::<()>::to_stable_hash_key(&ab, alloc, &())? == ab)
}

fn values_behind_pointers_are_fed(alloc: Global) -> Result<bool, AllocError> {
    Ok(
        feeds(alloc, &&5u8, b"\x05")
            && feeds(alloc, &Box::new(alloc, 5u8)?, b"\x05")
            && feeds(alloc, &Rc::new(alloc, 5u8)?, b"\x05")
            && feeds(alloc, &Arc::new(alloc, 5u8)?, b"\x05"),
    )
}

fn items_of_a_vec_are_fed(alloc: Global) -> Result<bool, AllocError> {
    let items = vec![in alloc; 5u8, 6]?;
    Ok(feeds(alloc, &items, b"\x02\0\0\0\0\0\0\0\x05\x06"))
}

#[test]
fn values_that_take_memory_are_fed(rt: HostRuntime) {
    assert!(rt; texts_are_fed(rt.alloc()).unwrap_or(false));
    assert!(rt; key_of_a_text_is_the_text(rt.alloc()).unwrap_or(false));
    assert!(rt; values_behind_pointers_are_fed(rt.alloc()).unwrap_or(false));
    assert!(rt; items_of_a_vec_are_fed(rt.alloc()).unwrap_or(false));
}

// What the key "a" and the key "b" are fed as.
const KEY_A: &[u8] = b"\x01\0\0\0\0\0\0\0\x01\0\0\0\0\0\0\0a";

const KEY_B: &[u8] = b"\x01\0\0\0\0\0\0\0\x01\0\0\0\0\0\0\0b";

// The same with their values.
const PAIR_A: &[u8] = b"\x01\0\0\0\0\0\0\0\x01\0\0\0\0\0\0\0a\x05";

const PAIR_B: &[u8] = b"\x01\0\0\0\0\0\0\0\x01\0\0\0\0\0\0\0b\x06";

// What two items feed whose own bytes are these.
fn of_two(first: &[u8], second: &[u8]) -> u128 {
    let mut hasher = StableHasher::new();
    hasher.write(b"\x02\0\0\0\0\0\0\0\x01");
    hasher.write_u128(of_bytes(first).wrapping_add(of_bytes(second)));
    hasher.finish::<u128>()
}

// What items can be put into, one after another.
trait Holder<T>: HashStable<()> + Drop + Sized {
    fn empty(alloc: Global) -> Self;

    fn put(&mut self, alloc: Global, item: T) -> Result<(), AllocError>;
}

impl<'a> Holder<&'a str> for BTreeSet<String> {
    fn empty(alloc: Global) -> BTreeSet<String> {
        BTreeSet::new(alloc)
    }

    fn put(&mut self, alloc: Global, item: &'a str) -> Result<(), AllocError> {
        self.insert(text(alloc, item)?)?;
        Ok(())
    }
}

impl<'a> Holder<&'a str> for HashSet<String> {
    fn empty(alloc: Global) -> HashSet<String> {
        HashSet::new(alloc)
    }

    fn put(&mut self, alloc: Global, item: &'a str) -> Result<(), AllocError> {
        self.insert(text(alloc, item)?)?;
        Ok(())
    }
}

impl<'a> Holder<(&'a str, u8)> for BTreeMap<String, u8> {
    fn empty(alloc: Global) -> BTreeMap<String, u8> {
        BTreeMap::new(alloc)
    }

    fn put(&mut self, alloc: Global, item: (&'a str, u8)) -> Result<(), AllocError> {
        self.insert(text(alloc, item.0)?, item.1)?;
        Ok(())
    }
}

impl<'a> Holder<(&'a str, u8)> for HashMap<String, u8> {
    fn empty(alloc: Global) -> HashMap<String, u8> {
        HashMap::new(alloc)
    }

    fn put(&mut self, alloc: Global, item: (&'a str, u8)) -> Result<(), AllocError> {
        self.insert(text(alloc, item.0)?, item.1)?;
        Ok(())
    }
}

fn put_all<T: Copy, H: Holder<T>>(
    alloc: Global,
    holder: &mut H,
    items: &[T],
) -> Result<(), AllocError> {
    for item in items {
        holder.put(alloc, *item)?;
    }
    Ok(())
}

// The hash of what holds these, put in one after another.
fn of_all<T: Copy, H: Holder<T>>(alloc: Global, items: &[T]) -> Option<u128> {
    let mut holder = H::empty(alloc);
    match put_all(alloc, &mut holder, items) {
        Ok(()) => of_value(alloc, &holder),
        Err(_) => None,
    }
}

// Both keys in either order, and fewer.
const A_THEN_B: &[&str] = &["a", "b"];

const B_THEN_A: &[&str] = &["b", "a"];

const ONE_KEY: &[&str] = &["a"];

const NO_KEY: &[&str] = &[];

#[test]
fn sets_hash_alike_in_every_order(rt: HostRuntime) {
    let none = Some(of_bytes(b"\0\0\0\0\0\0\0\0\0"));
    assert!(rt; of_all::<_, BTreeSet<String>>(rt.alloc(), NO_KEY) == none);
    assert!(rt; of_all::<_, HashSet<String>>(rt.alloc(), NO_KEY) == none);
    let one = b"\x01\0\0\0\0\0\0\0\x01\0\0\0\0\0\0\0\x01\0\0\0\0\0\0\0a";
    assert!(rt; of_all::<_, HashSet<String>>(rt.alloc(), ONE_KEY) == Some(of_bytes(one)));
    let both = Some(of_two(KEY_A, KEY_B));
    assert!(rt; of_all::<_, BTreeSet<String>>(rt.alloc(), B_THEN_A) == both);
    assert!(rt; of_all::<_, HashSet<String>>(rt.alloc(), A_THEN_B) == both);
}

// The same with their values.
const PAIRS_A_THEN_B: &[(&str, u8)] = &[("a", 5), ("b", 6)];

const PAIRS_B_THEN_A: &[(&str, u8)] = &[("b", 6), ("a", 5)];

const ONE_PAIR: &[(&str, u8)] = &[("a", 5)];

#[test]
fn maps_hash_alike_in_every_order(rt: HostRuntime) {
    let one = b"\x01\0\0\0\0\0\0\0\x01\0\0\0\0\0\0\0\x01\0\0\0\0\0\0\0a\x05";
    assert!(rt; of_all::<_, BTreeMap<String, u8>>(rt.alloc(), ONE_PAIR) == Some(of_bytes(one)));
    let both = Some(of_two(PAIR_A, PAIR_B));
    assert!(rt; of_all::<_, BTreeMap<String, u8>>(rt.alloc(), PAIRS_A_THEN_B) == both);
    assert!(rt; of_all::<_, HashMap<String, u8>>(rt.alloc(), PAIRS_A_THEN_B) == both);
    assert!(rt; of_all::<_, HashMap<String, u8>>(rt.alloc(), PAIRS_B_THEN_A) == both);
}

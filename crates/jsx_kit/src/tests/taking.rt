//! Calls that can want memory succeed while there is some, and generic code meets its types.

ghost use Rattle.std.specs.Prelude.{codes};

use crate::pass::{AndThen, CompilerPass, Repeat};
use crate::sync::{HashMapExt, InsertError, Lock, LockCell, RwLock};
use crate::take::Take;
use jsx_base::{BytePos, DUMMY_SP, Span};
use std::alloc::{AllocError, Global};
use std::cmp::Ordering;
use std::collections::HashMap;

const PLACE: Span = Span {
    lo: BytePos(3),
    hi: BytePos(5),
};

// Whether the place is taken out of it and a dummy is left.
fn gives_place(alloc: Global, boxed: &mut Box<Span>) -> Result<bool, AllocError> {
    let taken = boxed.take(alloc)?;
    Ok(*taken == PLACE && **boxed == DUMMY_SP)
}

fn box_is_left_with_a_dummy(alloc: Global) -> Result<bool, AllocError> {
    let mut boxed = Box::new(alloc, PLACE)?;
    Ok(
        gives_place(alloc, &mut boxed)?
            && boxed.map_with_mut(alloc, |b| b).is_ok()
            && *boxed == DUMMY_SP,
    )
}

fn dummy_box_holds_a_dummy(alloc: Global) -> Result<bool, AllocError> {
    let dummy: Box<Span> = Take::dummy(alloc)?;
    Ok(*dummy == DUMMY_SP)
}

fn option_is_left_with_none(alloc: Global) -> bool {
    let mut three = Some(3);
    Take::take(&mut three, alloc) == Ok(Some(3)) && three.is_none()
}

fn gives_one_and_two(alloc: Global, items: &mut Vec<u8>) -> Result<bool, AllocError> {
    let taken = Take::take(items, alloc)?;
    Ok(matches!(taken.as_slice(), [1, 2]))
}

fn vec_is_left_empty(alloc: Global) -> Result<bool, AllocError> {
    let mut items = vec![in alloc; 1u8, 2]?;
    Ok(gives_one_and_two(alloc, &mut items)? && items.is_empty())
}

fn span_is_mapped_in_place(alloc: Global) -> bool {
    let mut placed = PLACE;
    placed
        .map_with_mut(alloc, |s| Span::new(s.lo, BytePos(9)))
        .is_ok()
        && placed == Span::new(BytePos(3), BytePos(9))
}

#[test]
fn taking_leaves_a_dummy(rt: HostRuntime) {
    assert!(rt; box_is_left_with_a_dummy(rt.alloc()).unwrap_or(false));
    assert!(rt; dummy_box_holds_a_dummy(rt.alloc()).unwrap_or(false));
    assert!(rt; option_is_left_with_none(rt.alloc()));
    assert!(rt; vec_is_left_empty(rt.alloc()).unwrap_or(false));
    assert!(rt; span_is_mapped_in_place(rt.alloc()));
}

struct A;

impl CompilerPass for A {
    ghost pass_name = { codes "a" };

    fn name(alloc: Global) -> Result<String, AllocError> {
        String::from_str(alloc, "a")
    }
}

struct B;

impl CompilerPass for B {
    ghost pass_name = { codes "b" };

    fn name(alloc: Global) -> Result<String, AllocError> {
        String::from_str(alloc, "b")
    }
}

fn is_named<P: CompilerPass>(alloc: Global, want: &str) -> bool {
    match P::name(alloc) {
        Ok(name) => name.as_str() == want,
        Err(_) => false,
    }
}

fn lock_shows_what_was_written() -> bool {
    let mut lock = Lock::new(1u8);
    *lock.lock() = 2;
    *lock.borrow() += 1;
    *lock.borrow_mut() += 1;
    *lock.lock() == 4
}

fn shared_lock_shows_what_was_written() -> bool {
    let mut shared = RwLock::new(1u8);
    *shared.write() = 5;
    *shared.get_mut() += 1;
    *shared.borrow_mut() += 1;
    if let Ok(value) = shared.try_write() {
        *value += 1;
    }
    shared.with_write_lock(|value| *value /= 2);
    *shared.read() == 4 && shared.with_read_lock(|value| *value / 2) == 2
}

fn shared_lock_is_copied(alloc: Global) -> Result<bool, AllocError> {
    let copy = RwLock::new(4u8).try_clone(alloc)?;
    let empty: RwLock<u8> = RwLock::default();
    Ok(*copy.borrow() == 4 && *empty.read() == 0)
}

#[test]
fn passes_are_named_and_locks_show_what_was_written(rt: HostRuntime) {
    assert!(rt; is_named::<AndThen<A, B>>(rt.alloc(), "a -> b"));
    assert!(rt; is_named::<Repeat<AndThen<A, B>>>(rt.alloc(), "repeat(a -> b)"));
    assert!(rt; lock_shows_what_was_written());
    assert!(rt; shared_lock_shows_what_was_written());
    assert!(rt; shared_lock_is_copied(rt.alloc()).unwrap_or(false));
}

fn cells_compare_by_value() -> bool {
    let mut cell = LockCell::new(1u8);
    let other = LockCell::new(2u8);
    let before = cell.cmp(&other);
    cell.set(2);
    before == Ordering::Less && cell.get() == 2 && cell == other && cell >= other
}

fn is_refused(map: &mut HashMap<u8, u8>, key: u8, value: u8) -> bool {
    map.insert_same(key, value) == Err(InsertError::Different)
}

fn keeps_its_value(map: &mut HashMap<u8, u8>) -> bool {
    map.insert_same(1, 2).is_ok()
        && map.insert_same(1, 2).is_ok()
        && is_refused(map, 1, 3)
        && map.get(&1) == Some(&2)
        && map.len() == 1
}

fn key_keeps_its_value(alloc: Global) -> bool {
    keeps_its_value(&mut HashMap::new(alloc))
}

#[test]
fn cells_compare_and_keys_keep_their_values(rt: HostRuntime) {
    assert!(rt; cells_compare_by_value());
    assert!(rt; key_keeps_its_value(rt.alloc()));
}

//! Locks and cells of a single thread: references stand for guards, and what writes takes `&mut self`.

ghost use Rattle.std.specs.Prelude.{◌≡◌, IfOk, IsOk, Result};
ghost use Rattle.std.specs.Borrow.{sem};
ghost use Rattle.std.specs.Cmp.Rules.{comparing};
ghost use Rattle.std.specs.Fn.{FnOnceReturnsAt, FnOnceReturnsAtMut};
ghost use Rattle.std.specs.Ordering.{on};
ghost use Rattle.std.proofs.Common.{rules};

use std::alloc::{AllocError, Global};
use std::cmp::Ordering;
use std::collections::HashMap;
use std::hash::{BuildHasher, Hash};

/// Every type may be sent, since there is one thread.
pub trait Send {}

/// Every type may be shared, since there is one thread.
pub trait Sync {}

impl<T> Send for T {}

impl<T> Sync for T {}

/// A value that one at a time may reach.
#[derive(Debug, Default, Drop)]
pub struct Lock<T> {
    inner: T,
}

impl<T> Lock<T> {
    ghost use Rattle.jsx_kit.specs.Lending.{LendsLocked};

    pub fn new(inner: T) -> Lock<T>
        ensures { result.inner ≡ inner }
    {
        Lock { inner }
    }

    /// The held value.
    pub fn lock(&mut self) -> &mut T
        ensures* writes_back { sem 𝓛 (LendsLocked T.row self.entry result) }
        ensures value { result.now ≡ self.old.inner }
    {
        &mut self.inner
    }

    /// The held value, as `lock`.
    pub fn borrow(&mut self) -> &mut T
        ensures* writes_back { sem 𝓛 (LendsLocked T.row self.entry result) }
        ensures value { result.now ≡ self.old.inner }
    {
        &mut self.inner
    }

    /// The held value, as `lock`.
    pub fn borrow_mut(&mut self) -> &mut T
        ensures* writes_back { sem 𝓛 (LendsLocked T.row self.entry result) }
        ensures value { result.now ≡ self.old.inner }
    {
        &mut self.inner
    }
}

/// A value that many may read at once, or one may change.
#[derive(Debug, Default, Drop)]
pub struct RwLock<T> {
    inner: T,
}

impl<T> RwLock<T> {
    ghost use Rattle.jsx_kit.specs.Lending.{LendsWritten, LendsWrittenIfOk};

    pub fn new(inner: T) -> RwLock<T>
        ensures { result.inner ≡ inner }
    {
        RwLock { inner }
    }

    /// The held value.
    pub fn read(&self) -> &T
        ensures { result.now ≡ self.now.inner }
    {
        &self.inner
    }

    /// The held value, as `read`.
    pub fn borrow(&self) -> &T
        ensures { result.now ≡ self.now.inner }
    {
        &self.inner
    }

    /// The held value, to be changed.
    pub fn get_mut(&mut self) -> &mut T
        ensures* writes_back { sem 𝓛 (LendsWritten T.row self.entry result) }
        ensures value { result.now ≡ self.old.inner }
    {
        &mut self.inner
    }

    /// The held value, to be changed, as `get_mut`.
    pub fn write(&mut self) -> &mut T
        ensures* writes_back { sem 𝓛 (LendsWritten T.row self.entry result) }
        ensures value { result.now ≡ self.old.inner }
    {
        &mut self.inner
    }

    /// The held value, to be changed, as `get_mut`.
    pub fn borrow_mut(&mut self) -> &mut T
        ensures* writes_back { sem 𝓛 (LendsWritten T.row self.entry result) }
        ensures value { result.now ≡ self.old.inner }
    {
        &mut self.inner
    }

    /// The held value, to be changed. It is never refused.
    pub fn try_write(&mut self) -> Result<&mut T, ()>
        ensures* writes_back { sem 𝓛 (LendsWrittenIfOk T.row self.entry result) }
        ensures never_refused { IsOk result }
        ensures value { IfOk result (λ value. value.now ≡ self.old.inner) }
    {
        Ok(&mut self.inner)
    }

    /// What `f` makes of the held value.
    pub fn with_read_lock<F: FnOnce(&T) -> R, R>(&self, f: F) -> R
        requires { F.IsAlwaysCallable f }
        ensures { FnOnceReturnsAt F.FnOnce f self.now.inner result }
    {
        f(&self.inner)
    }

    /// What `f` answers, which may change the held value.
    pub fn with_write_lock<F: FnOnce(&mut T) -> R, R>(&mut self, f: F) -> R
        requires { F.IsAlwaysCallable f }
        ensures { FnOnceReturnsAtMut F.FnOnce f self.old.inner result self.new.inner }
    {
        f(&mut self.inner)
    }
}

impl<T: Clone> RwLock<T> {
    /// A lock that holds a clone, whose value is to equal the held one.
    pub fn try_clone(&self, _alloc: Global) -> Result<RwLock<T>, AllocError>
        requires { (copy : T) → T.is_clone self.now.inner copy → copy ≡ self.now.inner }
        ensures { IfOk result (λ lock. lock.inner ≡ self.now.inner) }
    {
        let inner = self.inner.clone()?;
        Ok(RwLock { inner })
    }
}

/// A value that is set and got as a whole. Cells are compared by their values.
#[derive(Debug, Default, Drop)]
pub struct LockCell<T: Copy> {
    value: T,
}

impl<T: Copy> LockCell<T> {
    pub fn new(inner: T) -> LockCell<T>
        ensures { result.value ≡ inner }
    {
        LockCell { value: inner }
    }

    pub fn set(&mut self, new_inner: T)
        ensures { self.new.value ≡ new_inner }
    {
        self.value = new_inner;
    }

    pub fn get(&self) -> T
        ensures { result ≡ self.now.value }
    {
        self.value
    }
}

impl<T: PartialEq + Copy> PartialEq for LockCell<T> {
    ghost eq = { on (λ cell. cell.value) T.eq };

    ghost laws = { Prim.search (comparing, rules) };

    fn eq(&self, other: &LockCell<T>) -> bool {
        self.value == other.value
    }
}

impl<T: Eq + Copy> Eq for LockCell<T> {
    ghost laws = { Prim.search (comparing, rules) };
}

impl<T: PartialOrd + Copy> PartialOrd for LockCell<T> {
    ghost partial_cmp = { on (λ cell. cell.value) T.partial_cmp };

    ghost laws = { Prim.search (comparing, rules) };

    fn partial_cmp(&self, other: &LockCell<T>) -> Option<Ordering> {
        self.value.partial_cmp(&other.value)
    }
}

impl<T: Ord + Copy> Ord for LockCell<T> {
    ghost cmp = { on (λ cell. cell.value) T.cmp };

    ghost total = { Prim.search (comparing, rules) };

    ghost matches_partial_cmp = { Prim.search (comparing, rules) };

    ghost matches_eq = { Prim.search (comparing, rules) };

    fn cmp(&self, other: &LockCell<T>) -> Ordering {
        self.value.cmp(&other.value)
    }
}

/// Why `insert_same` refused.
#[derive(Clone, Copy, Debug, PartialEq, Eq, Drop)]
pub enum InsertError {
    /// The key holds another value.
    Different,
    /// Out of memory.
    Memory,
}

/// More of a map.
pub trait HashMapExt<K, V> {
    ghost use Rattle.jsx_kit.specs.declared.sync.InsertError.{InsertError};

    /// What `insert_same` of a key and a value answers, from one state of the map to the next.
    ghost inserts_same: { Self → K → V → Result (Unit {0}) InsertError → Self → Type 0 };

    /// Inserts the value unless the key holds one, which has to be equal. An `Err` leaves the map as it was.
    fn insert_same(&mut self, key: K, value: V) -> Result<(), InsertError>
        ensures { inserts_same self.old key value result self.new };
}

impl<K: Eq + Hash + Drop, V: Eq + Drop, S: BuildHasher> HashMapExt<K, V> for HashMap<K, V, S> {
    ghost use Rattle.jsx_kit.specs.Same.{InsertsSame};

    ghost inserts_same = { λ m k v r n. InsertsSame K.eq V.eq m k v r n };

    fn insert_same(&mut self, key: K, value: V) -> Result<(), InsertError> {
        if let Some(old) = self.get(&key) {
            return if *old == value {
                Ok(())
            } else {
                Err(InsertError::Different)
            };
        }
        match self.insert(key, value) {
            Ok(_) => Ok(()),
            Err(_) => Err(InsertError::Memory),
        }
    }
}

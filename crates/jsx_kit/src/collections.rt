//! Maps and sets whose hasher has a fixed seed, so that each run walks them alike.

use std::collections::{HashMap, HashSet};
use std::hash::{BuildHasherDefault, FoldHasher};

/// Makes std's hashers, with their fixed seed.
pub type ARandomState = BuildHasherDefault<FoldHasher>;

pub type AHashMap<K, V> = HashMap<K, V, ARandomState>;

pub type AHashSet<V> = HashSet<V, ARandomState>;

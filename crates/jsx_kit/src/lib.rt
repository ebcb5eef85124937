//! Stable hashing, taking values, locks, passes and the records of plugins.
#![tactic(auto)]

pub mod collections;
mod hash_maps;
mod hash_parts;
mod hash_stable;
mod hasher;
mod pass;
pub mod plugin;
mod reduce;
mod sip;
pub mod sync;
mod take;
#[cfg(test)]
mod tests;

pub use collections::{AHashMap, AHashSet, ARandomState};
pub use hash_stable::{HashStable, ToStableHashKey};
pub use hasher::{Hash128, StableHasher, StableHasherResult};
pub use jsx_base::{Answers, AstNode, Rule};
pub use pass::{AndThen, CompilerPass, Repeat};
pub use plugin::{
    PLUGIN_TRANSFORM_AST_SCHEMA_VERSION, PluginCorePkgDiagnostics, PluginError,
    TransformPluginMetadataContext, TransformPluginMetadataContextKind, UnknownKey,
    VersionedSerializable, ast_schema_version,
};
pub use sync::{HashMapExt, InsertError, Lock, LockCell, RwLock};
pub use take::Take;

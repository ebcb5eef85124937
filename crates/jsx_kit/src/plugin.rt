//! What a plugin and its host tell each other.

ghost use Rattle.std.specs.Prelude.{◌≡◌, ◌↔◌, IfOk, MatchOption};
ghost use Rattle.std.specs.String.{string_bytes};
ghost use Rattle.std.specs.Option.{option_map};
ghost use Rattle.std.specs.HashMap.{IsEmpty};
ghost use Rattle.jsx_kit.specs.Plugin.{kind_of_key, text_of, SamePackage, SameError};

use crate::collections::AHashMap;
use serde::Serialize;
use std::alloc::{AllocError, Global};
use std::collections::HashMap;

/// The version of the tree's schema that plugins are built for.
pub const PLUGIN_TRANSFORM_AST_SCHEMA_VERSION: u32 = 1;

/// The version of the tree's schema that plugins are built for, which is 1.
pub fn ast_schema_version() -> u32
    ensures { result ≡ 1 }
{
    PLUGIN_TRANSFORM_AST_SCHEMA_VERSION
}

/// What a plugin says of the core package that it was built with.
#[derive(Debug, PartialEq, Eq, Serialize, Drop)]
pub struct PluginCorePkgDiagnostics {
    pub pkg_version: String,
    pub git_sha: String,
    pub cargo_features: String,
    pub ast_schema_version: u32,
}

impl PluginCorePkgDiagnostics {
    /// A record of the same texts and the same version.
    pub fn try_clone(&self, _alloc: Global) -> Result<PluginCorePkgDiagnostics, AllocError>
        ensures { IfOk result (λ copy. SamePackage self.now copy) }
    {
        Ok(PluginCorePkgDiagnostics {
            pkg_version: self.pkg_version.clone()?,
            git_sha: self.git_sha.clone()?,
            cargo_features: self.cargo_features.clone()?,
            ast_schema_version: self.ast_schema_version,
        })
    }
}

/// Which value of a `TransformPluginMetadataContext` is asked for, by its number.
#[derive(Clone, Copy, Debug, PartialEq, Eq, Drop)]
pub enum TransformPluginMetadataContextKind {
    Filename = 1,
    Env = 2,
    Cwd = 3,
}

/// A number that stands for no kind.
#[derive(Clone, Copy, Debug, PartialEq, Eq, Drop)]
pub struct UnknownKey(pub u32);

impl TransformPluginMetadataContextKind {
    /// The kind of a number: 1 is `Filename`, 2 `Env`, 3 `Cwd`, and any other is an `UnknownKey`.
    pub fn from_key(key: u32) -> Result<TransformPluginMetadataContextKind, UnknownKey>
        ensures { result ≡ kind_of_key key }
    {
        match key {
            1 => Ok(TransformPluginMetadataContextKind::Filename),
            2 => Ok(TransformPluginMetadataContextKind::Env),
            3 => Ok(TransformPluginMetadataContextKind::Cwd),
            _ => Err(UnknownKey(key)),
        }
    }
}

/// What the plugins of one transform may ask of their host.
#[derive(Drop)]
pub struct TransformPluginMetadataContext {
    /// The path of the file, as much of it as is known.
    pub filename: Option<String>,
    /// The environment, as `development`.
    pub env: String,
    /// The working directory.
    pub cwd: Option<String>,
    pub experimental: AHashMap<String, String>,
}

impl TransformPluginMetadataContext {
    ghost use Rattle.jsx_kit.specs.Plugin.{text_of};

    /// The record of these values. No `experimental` is an empty map.
    pub fn new(
        alloc: Global,
        filename: Option<String>,
        env: String,
        cwd: Option<String>,
        experimental: Option<AHashMap<String, String>>,
    ) -> TransformPluginMetadataContext
        ensures filename { result.filename ≡ filename }
        ensures env { result.env ≡ env }
        ensures cwd { result.cwd ≡ cwd }
        ensures experimental { MatchOption experimental (IsEmpty result.experimental) (λ map. result.experimental ≡ map) }
    {
        let experimental = match experimental {
            Some(map) => map,
            None => HashMap::new(alloc),
        };
        TransformPluginMetadataContext {
            filename,
            env,
            cwd,
            experimental,
        }
    }

    /// The text of a kind, where it is known.
    pub fn get(
        &self,
        alloc: Global,
        key: &TransformPluginMetadataContextKind,
    ) -> Result<Option<String>, AllocError>
        ensures { IfOk result (λ text. option_map string_bytes text ≡ text_of self.now key.now) }
    {
        match key {
            TransformPluginMetadataContextKind::Filename => copy_of(alloc, &self.filename),
            TransformPluginMetadataContextKind::Env => Ok(Some(self.env.clone()?)),
            TransformPluginMetadataContextKind::Cwd => copy_of(alloc, &self.cwd),
        }
    }
}

// A copy of the text, where there is one.
fn copy_of(_alloc: Global, text: &Option<String>) -> Result<Option<String>, AllocError>
    ensures { IfOk result (λ copy. option_map string_bytes copy ≡ option_map string_bytes text.now) }
{
    match text {
        None => Ok(None),
        Some(text) => Ok(Some(text.clone()?)),
    }
}

/// Why running a plugin failed inside.
#[derive(Debug, PartialEq, Eq, Drop)]
#[non_exhaustive]
pub enum PluginError {
    /// A size from the plugin or the host is no size here.
    SizeInteropFailure(String),
    /// A record couldn't be made of its bytes.
    Deserialize(String),
    /// A record couldn't be made into bytes.
    Serialize(String),
}

impl PluginError {
    /// The same error with the same text.
    pub fn try_clone(&self, _alloc: Global) -> Result<PluginError, AllocError>
        ensures { IfOk result (λ copy. SameError self.now copy) }
    {
        Ok(match self {
            PluginError::SizeInteropFailure(text) => PluginError::SizeInteropFailure(text.clone()?),
            PluginError::Deserialize(text) => PluginError::Deserialize(text.clone()?),
            PluginError::Serialize(text) => PluginError::Serialize(text.clone()?),
        })
    }
}

/// A value that goes between a plugin and its host, behind the version of its schema.
#[derive(Debug, Drop)]
pub struct VersionedSerializable<T>(pub T);

impl<T> VersionedSerializable<T> {
    pub fn new(value: T) -> VersionedSerializable<T>
        ensures { result.0 ≡ value }
    {
        VersionedSerializable(value)
    }

    pub fn inner(&self) -> &T
        ensures { result.now ≡ self.now.0 }
    {
        &self.0
    }

    pub fn into_inner(self) -> T
        ensures { result ≡ self.0 }
    {
        self.0
    }
}

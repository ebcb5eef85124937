//! Records of plugins.

use crate::plugin::{
    PLUGIN_TRANSFORM_AST_SCHEMA_VERSION, PluginCorePkgDiagnostics, PluginError,
    TransformPluginMetadataContext, TransformPluginMetadataContextKind, UnknownKey,
    VersionedSerializable,
};
use std::alloc::{AllocError, Global};
use std::collections::HashMap;

fn text(alloc: Global, text: &str) -> Result<String, AllocError> {
    String::from_str(alloc, text)
}

fn package(alloc: Global) -> Result<PluginCorePkgDiagnostics, AllocError> {
    Ok(PluginCorePkgDiagnostics {
        pkg_version: text(alloc, "1.2")?,
        git_sha: text(alloc, "ab\"c")?,
        cargo_features: String::new(alloc),
        ast_schema_version: PLUGIN_TRANSFORM_AST_SCHEMA_VERSION,
    })
}

const PACKAGE_AS_JSON: &str =
    "{\"pkg_version\":\"1.2\",\"git_sha\":\"ab\\\"c\",\"cargo_features\":\"\",\"ast_schema_version\":1}";

fn json(alloc: Global) -> Result<String, serde_json::Error> {
    serde_json::to_string(alloc, &package(alloc)?)
}

fn package_is_written_as_json(alloc: Global) -> bool {
    match json(alloc) {
        Ok(json) => json.as_str() == PACKAGE_AS_JSON,
        Err(_) => false,
    }
}

fn package_is_copied(alloc: Global) -> Result<bool, AllocError> {
    let package = package(alloc)?;
    Ok(package.try_clone(alloc)? == package)
}

fn error_is_copied(alloc: Global) -> Result<bool, AllocError> {
    let error = PluginError::Deserialize(text(alloc, "no")?);
    Ok(error.try_clone(alloc)? == error)
}

#[test]
fn packages_and_errors_are_copied(rt: HostRuntime) {
    assert!(rt; package_is_written_as_json(rt.alloc()));
    assert!(rt; package_is_copied(rt.alloc()).unwrap_or(false));
    assert!(rt; error_is_copied(rt.alloc()).unwrap_or(false));
}

// Of the file a.js in the environment test.
fn context(alloc: Global) -> Result<TransformPluginMetadataContext, AllocError> {
    let file = text(alloc, "a.js")?;
    let env = text(alloc, "test")?;
    Ok(TransformPluginMetadataContext::new(alloc, Some(file), env, None, None))
}

// Whether the context has this text for the kind.
fn gives(
    alloc: Global,
    context: &TransformPluginMetadataContext,
    kind: TransformPluginMetadataContextKind,
    want: &str,
) -> bool {
    match context.get(alloc, &kind) {
        Ok(Some(text)) => text.as_str() == want,
        _ => false,
    }
}

// Whether the case holds of that context.
fn holds<F: FnOnce(Global, &TransformPluginMetadataContext) -> bool>(alloc: Global, case: F) -> bool
    requires { F.IsAlwaysCallable case }
{
    match context(alloc) {
        Ok(context) => case(alloc, &context),
        Err(_) => false,
    }
}

fn context_gives_its_texts(alloc: Global, context: &TransformPluginMetadataContext) -> bool {
    gives(
        alloc,
        context,
        TransformPluginMetadataContextKind::Filename,
        "a.js",
    ) && gives(
        alloc,
        context,
        TransformPluginMetadataContextKind::Env,
        "test",
    )
}

fn context_lacks_what_it_was_not_given(
    alloc: Global,
    context: &TransformPluginMetadataContext,
) -> bool {
    let folder = context.get(alloc, &TransformPluginMetadataContextKind::Cwd);
    matches!(folder, Ok(None)) && context.experimental.is_empty()
}

fn empty_map_is_taken_as_it_is(alloc: Global) -> bool {
    let given = Some(HashMap::new(alloc));
    let context = TransformPluginMetadataContext::new(alloc, None, String::new(alloc), None, given);
    context.experimental.is_empty()
}

#[test]
fn a_context_gives_its_texts(rt: HostRuntime) {
    assert!(rt; holds(rt.alloc(), context_gives_its_texts));
    assert!(rt; holds(rt.alloc(), context_lacks_what_it_was_not_given));
    assert!(rt; empty_map_is_taken_as_it_is(rt.alloc()));
}

fn key_is_kind(key: u32, want: Result<TransformPluginMetadataContextKind, UnknownKey>) -> bool {
    TransformPluginMetadataContextKind::from_key(key) == want
}

fn wrapped_value_is_kept() -> bool {
    let wrapped = VersionedSerializable::new(7u8);
    *wrapped.inner() == 7 && wrapped.into_inner() == 7
}

#[test]
fn kinds_and_wrapped_values_are_kept(rt: HostRuntime) {
    assert!(rt; key_is_kind(1, Ok(TransformPluginMetadataContextKind::Filename)));
    assert!(rt; key_is_kind(4, Err(UnknownKey(4))));
    assert!(rt; wrapped_value_is_kept());
}

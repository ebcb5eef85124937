//! Strings that would be directives, were they not in parentheses (ECMA-262 section 11.2.1).

ghost use Rattle.std.specs.Prelude.{◌≡◌, ◌<◌, ◌≤◌, OnOk, map, length, slice_index_or, false};
ghost use Rattle.jsx_tree.specs.Normal.{is_empty};
ghost use Rattle.jsx_tree.specs.Parentheses.{no_directive, first_no_directive};
ghost use Rattle.jsx_tree.specs.View.{inside, forest, view_expr, view_stmt};
ghost use Rattle.jsx_tree.specs.ViewProgram.{view_item};
ghost use Rattle.jsx_tree.specs.declared.program.Item.{Item};
ghost use Rattle.jsx_tree.specs.declared.tree.Stmt.{Stmt};
ghost use Rattle.std.specs.Prelude.{Box};
ghost use Rattle.std.specs.Global.{Global};
ghost use Rattle.jsx_scope.specs.Walk.{kept, quoted};

use crate::pair::pair;
use crate::text::{is_empty, is_string};
use jsx_tree::{Expr, Item, Stmt};
use std::alloc::{AllocError, Global};

/// An expression that is a statement, where a string would be a directive.
fn quote(alloc: Global, expr: &mut Box<Expr<'_>>) -> Result<(), AllocError>
    ensures { OnOk result (view_expr expr.new.value ≡ quoted (view_expr expr.old.value)) }
{
    if is_string(expr) {
        pair(alloc, expr)
    } else {
        Ok(())
    }
}

#[tactic(auto, using(crate::proofs::Nodes::nodes))]
fn keep_from_directive(alloc: Global, stmt: &mut Stmt<'_>) -> Result<(), AllocError>
    ensures { OnOk result (view_stmt stmt.new ≡ no_directive (view_stmt stmt.old)) }
{
    match stmt {
        Stmt::Expr(_, expr) => quote(alloc, expr),
        Stmt::Block(..)
        | Stmt::Var(..)
        | Stmt::Empty(..)
        | Stmt::Control(..)
        | Stmt::Continue(..)
        | Stmt::Break(..)
        | Stmt::Return(..)
        | Stmt::Throw(..)
        | Stmt::Debugger(..)
        | Stmt::Function(..)
        | Stmt::Class(..) => Ok(()),
    }
}

/// The place of the first statement that isn't empty.
fn first_written(stmts: &[Box<Stmt<'_>>]) -> usize
    ensures within { result ≤ length stmts.now }
    ensures passed { first_no_directive (forest (map (inside view_stmt) stmts.now)) ≡ kept result (map (inside view_stmt) stmts.now) }
    ensures written { (x : Box Stmt Global) → result < length stmts.now → x ≡ slice_index_or stmts.now result x → is_empty (view_stmt x.value) ≡ false }
{
    for (i, stmt) in stmts.iter().enumerate() {
        if !is_empty(stmt) {
            return i;
        }
    }
    stmts.len()
}

/// The first statement that isn't empty, where it would be a directive.
pub(crate) fn keep_from_directives(
    alloc: Global,
    stmts: &mut Vec<Box<Stmt<'_>>>,
) -> Result<(), AllocError>
    ensures { OnOk result (forest (map (inside view_stmt) stmts.new.items) ≡ first_no_directive (forest (map (inside view_stmt) stmts.old.items))) }
{
    let first = first_written(stmts);
    if first < stmts.len() {
        keep_from_directive(alloc, &mut stmts[first])
    } else {
        Ok(())
    }
}

#[tactic(auto, using(crate::proofs::Nodes::nodes))]
fn is_empty_item(item: &Item<'_>) -> bool
    ensures { result ≡ is_empty (view_item item.now) }
{
    match item {
        Item::Stmt(stmt) => is_empty(stmt),
        Item::ImportBare(..)
        | Item::Import(..)
        | Item::ExportNames(..)
        | Item::ExportFrom(..)
        | Item::ExportAll(..)
        | Item::ExportAllAs(..)
        | Item::ExportDecl(..)
        | Item::ExportDefaultFn(..)
        | Item::ExportDefaultClass(..)
        | Item::ExportDefaultExpr(..) => false,
    }
}

#[tactic(auto, using(crate::proofs::Nodes::nodes))]
fn keep_item(alloc: Global, item: &mut Item<'_>) -> Result<(), AllocError>
    ensures { OnOk result (view_item item.new ≡ no_directive (view_item item.old)) }
{
    match item {
        Item::Stmt(stmt) => keep_from_directive(alloc, stmt),
        Item::ImportBare(..)
        | Item::Import(..)
        | Item::ExportNames(..)
        | Item::ExportFrom(..)
        | Item::ExportAll(..)
        | Item::ExportAllAs(..)
        | Item::ExportDecl(..)
        | Item::ExportDefaultFn(..)
        | Item::ExportDefaultClass(..)
        | Item::ExportDefaultExpr(..) => Ok(()),
    }
}

/// The place of the first item that isn't an empty statement.
fn first_item(items: &[Item<'_>]) -> usize
    ensures within { result ≤ length items.now }
    ensures passed { first_no_directive (forest (map view_item items.now)) ≡ kept result (map view_item items.now) }
    ensures written { (x : Item) → result < length items.now → x ≡ slice_index_or items.now result x → is_empty (view_item x) ≡ false }
{
    for (i, item) in items.iter().enumerate() {
        if !is_empty_item(item) {
            return i;
        }
    }
    items.len()
}

/// The first item that isn't an empty statement, where it would be a directive.
pub(crate) fn keep_items_from_directives(
    alloc: Global,
    items: &mut Vec<Item<'_>>,
) -> Result<(), AllocError>
    ensures { OnOk result (forest (map view_item items.new.items) ≡ first_no_directive (forest (map view_item items.old.items))) }
{
    let first = first_item(items);
    if first < items.len() {
        keep_item(alloc, &mut items[first])
    } else {
        Ok(())
    }
}

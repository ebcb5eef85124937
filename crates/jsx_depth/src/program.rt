//! Programs, and the items of a module.

ghost use Rattle.std.specs.Prelude.{◌≡◌, map};
ghost use Rattle.jsx_tree.specs.Kinds.{Side, list};
ghost use Rattle.jsx_tree.specs.View.{forest};
ghost use Rattle.jsx_tree.specs.ViewProgram.{view, view_import_clause, view_import_names, view_item, view_specifier};
ghost use Rattle.jsx_depth.specs.Fits.{counts_tree, fits, fits_inside};

use crate::expressions::fits_expr;
use crate::level::{has_level, within};
use crate::patterns::fits_patterns;
use crate::statements::{
    counts_stmt, fits_body, fits_directives, fits_name, fits_stmt, fits_stmts, parts_of_stmt,
};
use jsx_tree::{ImportClause, ImportNames, Item, Program, Specifier};

/// Specifiers, which don't count, but their names do.
fn fits_specifiers(specifiers: &[Specifier<'_>], levels: u32) -> bool
    ensures { (side : Side) → result ≡ fits levels (list (forest (map (view_specifier side) specifiers.now))) }
{
    specifiers.is_empty() || has_level(levels)
}

#[tactic(auto, using(crate::proofs::Depths::depths))]
fn fits_import_names(names: &ImportNames, levels: u32) -> bool
    ensures { result ≡ fits levels (view_import_names names.now) }
{
    match names {
        ImportNames::All(..) => has_level(levels),
        ImportNames::List(_, specifiers) => fits_specifiers(specifiers, levels),
    }
}

#[tactic(auto, using(crate::proofs::Depths::depths))]
fn fits_import_clause(clause: &ImportClause, levels: u32) -> bool
    ensures { result ≡ fits levels (view_import_clause clause.now) }
{
    match clause {
        ImportClause::Default(..) => has_level(levels),
        ImportClause::Names(names) => fits_import_names(names, levels),
        ImportClause::Both(_, _, names) => has_level(levels) && fits_import_names(names, levels),
    }
}

#[tactic(auto, using(crate::proofs::Depths::depths))]
fn counts_item(item: &Item) -> bool
    ensures { result ≡ counts_tree (view_item item.now) }
{
    match item {
        Item::Stmt(stmt) => counts_stmt(stmt),
        Item::Import(..)
        | Item::ImportBare(..)
        | Item::ExportNames(..)
        | Item::ExportFrom(..)
        | Item::ExportAll(..)
        | Item::ExportAllAs(..)
        | Item::ExportDecl(..)
        | Item::ExportDefaultFn(..)
        | Item::ExportDefaultClass(..)
        | Item::ExportDefaultExpr(..) => true,
    }
}

#[tactic(auto, using(crate::proofs::Depths::depths))]
fn parts_of_item(item: &Item, levels: u32) -> bool
    ensures { result ≡ fits_inside levels (view_item item.now) }
{
    match item {
        Item::Import(_, clause, _) => fits_import_clause(clause, levels) && has_level(levels),
        Item::ExportNames(_, specifiers) => fits_specifiers(specifiers, levels),
        Item::ExportFrom(_, specifiers, _) => {
            fits_specifiers(specifiers, levels) && has_level(levels)
        }
        Item::ExportDecl(_, declaration) => fits_stmt(declaration, levels),
        Item::ExportDefaultFn(_, _, name, parameters, directives, body) => {
            fits_name(name, levels)
                && fits_patterns(parameters, levels)
                && fits_body(directives, body, levels)
        }
        Item::ExportDefaultClass(_, _, class) => fits_expr(class, levels),
        Item::ExportDefaultExpr(_, _, value) => fits_expr(value, levels),
        Item::ImportBare(..) | Item::ExportAll(..) | Item::ExportAllAs(..) => has_level(levels),
        Item::Stmt(stmt) => parts_of_stmt(stmt, levels),
    }
}

/// Whether an item is within so many levels.
#[tactic(auto, using(crate::proofs::Depths::nodes))]
fn fits_item(item: &Item, levels: u32) -> bool
    ensures { result ≡ fits levels (view_item item.now) }
{
    match within(counts_item(item), levels) {
        Some(inside) => parts_of_item(item, inside),
        None => false,
    }
}

fn fits_items(items: &[Item<'_>], levels: u32) -> bool
    ensures { result ≡ fits levels (list (forest (map view_item items.now))) }
{
    for item in items {
        if !fits_item(item, levels) {
            return false;
        }
    }
    true
}

/// Whether a program is within so many levels.
#[tactic(auto, using(crate::proofs::Depths::depths))]
pub fn fits_program(program: &Program, levels: u32) -> bool
    ensures { result ≡ fits levels (view program.now) }
{
    match program {
        Program::Module(module) => {
            fits_directives(&module.directives, levels) && fits_items(&module.body, levels)
        }
        Program::Script(script) => {
            fits_directives(&script.directives, levels) && fits_stmts(&script.body, levels)
        }
    }
}
